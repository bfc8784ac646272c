ghost use Rattle.std.specs.Prelude.{◌≡◌, ℕ, Option, Some, None, IsTrue, IfOk, OnOk, OnErr};
ghost use Rattle.std.specs.Option.{option_map};
ghost use Rattle.forest_model.specs.Session.{Session};
ghost use Rattle.forest_model.specs.Session as sessions;
ghost use Rattle.forest_model.specs.declared.call.Call.{Call};
ghost use Rattle.forest_model.specs.declared.call.Reply.TheVariants as Reply;
ghost use Rattle.forest_model.specs.declared.line.Line.{Line};
ghost use Rattle.forest_model.specs.declared.state.State.{State};
ghost use Rattle.plain_session.specs.Memory.{is_copy};
ghost use Rattle.plain_session.specs.Plain.{lane_shown, copier_shown, snapshot_shown, said_by_lane, lane_after_line};

use crate::snapshot::{Snapshot, not_shown};
use forest_model::{Refusal, Reply, Said, State, StoreRef, Verb};
use forest_oracle::ticket_of;
use std::alloc::{AllocError, Global};

/// What a lane is at: its store, the place that it printed last, and its snapshot.
#[derive(Drop)]
pub(crate) struct Lane {
    pub(crate) at: StoreRef,
    pub(crate) printed: u64,
    pub(crate) snapshot: Option<Snapshot>,
}

/// The one compaction of a session: its ticket, its base, the place of its begin, and how many documents are left to copy.
#[derive(Clone, Copy)]
pub(crate) struct Copier {
    pub(crate) ticket: u64,
    pub(crate) base: u64,
    pub(crate) place: u64,
    pub(crate) left: u64,
}

impl Lane {
    /// A lane before its first line.
    pub(crate) fn new() -> Lane
        ensures { lane_shown result ≡ sessions.first_lane }
    {
        Lane {
            at: StoreRef {
                store: 0,
                read_only: false,
            },
            printed: 0,
            snapshot: None,
        }
    }

    /// Brings the lane to what a reply at a place leaves; where it says so, with the snapshot that was opened.
    pub(crate) fn note(&mut self, reply: &Reply, place: u64, opened: Option<Snapshot>)
        ensures { (call : Call) (s : State) → s.place ≡ place → (reply.now ≡ Reply.Snapped → option_map snapshot_shown opened ≡ sessions.opened_snapshot call s)
            → lane_shown self.new ≡ sessions.lane_after (lane_shown self.old) call reply.now s }
    {
        match reply {
            Reply::Store { at } => self.at = *at,
            Reply::Snapped => self.snapshot = opened,
            _ => {}
        }
        self.printed = place;
    }

    // What a line on the lane's snapshot is told, at the snapshot's place or the one that the lane printed last.
    fn shows(&self, alloc: Global, verb: &Verb) -> Result<(u64, Said), AllocError>
        ensures said { IfOk result (λ said. said ≡ said_by_lane (lane_shown self.now) verb.now) }
        ensures copies { OnErr result (IsTrue (is_copy (said_by_lane (lane_shown self.now) verb.now).1)) }
    {
        match &self.snapshot {
            Some(snapshot) => Ok((snapshot.place, snapshot.shows(alloc, self.at, verb)?)),
            None => Ok((self.printed, not_shown(verb))),
        }
    }

    // The place is the one that was printed last, and a snapshot that is closed is gone.
    fn print(&mut self, verb: &Verb, place: u64)
        ensures { (said_by_lane (lane_shown self.old) verb.now).0 ≡ place → lane_shown self.new ≡ lane_after_line (lane_shown self.old) verb.now }
    {
        self.printed = place;
        if matches!(verb, Verb::SnapClose) {
            self.snapshot = None;
        }
    }

    /// Runs a line on the lane's snapshot: the place and what is told there.
    pub(crate) fn tell(&mut self, alloc: Global, verb: &Verb) -> Result<(u64, Said), AllocError>
        ensures said { IfOk result (λ said. said ≡ said_by_lane (lane_shown self.old) verb.now) }
        ensures after { OnOk result (lane_shown self.new ≡ lane_after_line (lane_shown self.old) verb.now) }
        ensures err { OnErr result (lane_shown self.new ≡ lane_shown self.old) }
        ensures copies { OnErr result (IsTrue (is_copy (said_by_lane (lane_shown self.old) verb.now).1)) }
    {
        let (place, said) = self.shows(alloc, verb)?;
        self.print(verb, place);
        Ok((place, said))
    }
}

/// The copier that a reply leaves.
pub(crate) fn copier_after(copier: Option<Copier>, reply: &Reply, state: &State) -> Option<Copier>
    ensures { option_map copier_shown result ≡ sessions.copier_after (option_map copier_shown copier) reply.now state.now }
{
    match reply {
        Reply::Begun { ticket, base } => Some(Copier {
            ticket: *ticket,
            base: *base,
            place: state.place,
            left: state.last.documents.len() as u64,
        }),
        Reply::Switched { .. } | Reply::Cancelled => None,
        _ => copier,
    }
}

/// Copies so many documents more: the place and what is told there.
pub(crate) fn copy(copier: &mut Option<Copier>, state: &State, count: u64) -> (u64, Said)
    ensures { (w : Session) (line : Line) → w.state ≡ state.now → w.copier ≡ option_map copier_shown copier.old
        → sessions.turn_by_copier w line count w.copier ≡ sessions.turn_at w line (option_map copier_shown copier.new) result.0 result.1 }
{
    let Some(before) = *copier else {
        let why = Refusal::NoTicket {
            asked: 0,
            now: ticket_of(state),
        };
        return (state.place, Said::Refused { why });
    };
    let count = count.min(before.left);
    let left = before.left - count;
    *copier = Some(Copier { left, ..before });
    (before.place, Said::Copied { count, left })
}
