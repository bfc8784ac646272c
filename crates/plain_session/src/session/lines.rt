ghost use Rattle.std.specs.Prelude.{◌≡◌, ◌<◌, ℕ, Some, None, Err, vec_len, slice_get, IsTrue, IfOk, OnErr};
ghost use Rattle.std.specs.Option.{option_map};
ghost use Rattle.forest_model.specs.Blocks.{File};
ghost use Rattle.forest_model.specs.Session.{Session, first_lane, first_session, turn_of, turn_aside, turn_by_file, turn_by_snapshot, turn_by_copier};
ghost use Rattle.forest_model.specs.Step.{causes, first_cause, step_with_room};
ghost use Rattle.forest_model.specs.declared.line.Verb.{Verb};
ghost use Rattle.forest_model.specs.declared.refusal.Refusal.TheVariants as Refusal;
ghost use Rattle.plain_session.specs.Memory.{IsCallAnswered, call_takes_memory, line_takes_memory, is_copy};
ghost use Rattle.plain_session.specs.Plain.{Shows, HasRoom, ShowsTurn, ShowsTurnIfAny, lane_shown, said_by_lane};

use super::PlainSession;
use crate::asked::{Asked, asked_of, said_of};
use crate::lane::{Lane, copier_after, copy};
use crate::snapshot::opened_for;
use forest_model::{Call, Line, Refusal, Told, Verb};
use forest_oracle::Oracle;
use std::alloc::{AllocError, Global};

/// How many lanes there are.
const LANES: usize = 16;

fn first_lanes(alloc: Global) -> Result<Vec<Lane>, AllocError>
    ensures sixteen { IfOk result (λ lanes. vec_len lanes ≡ 16) }
    ensures first { IfOk result (λ lanes. (n : ℕ) → n < 16 → option_map lane_shown (slice_get lanes.items n) ≡ Some first_lane) }
{
    let mut lanes = Vec::new(alloc);
    for _ in 0..LANES {
        lanes.push(Lane::new())?;
    }
    Ok(lanes)
}

impl PlainSession {
    /// A session over a store, before its first line.
    pub fn new(alloc: Global, oracle: Oracle) -> Result<PlainSession, Refusal>
        ensures begins { IfOk result (λ p. Shows p (first_session oracle.state)) }
        ensures memory { OnErr result (result ≡ Err Refusal.NoMemory) }
    {
        Ok(PlainSession {
            alloc,
            oracle,
            lanes: first_lanes(alloc)?,
            copier: None,
        })
    }

    /// Runs a line: what is told for it, and none for the server's line `compact`. An `Err` is want of memory, and comes
    /// only of a line that takes memory and that nothing refuses.
    pub fn tell(&mut self, line: Line) -> Result<Option<Told>, Refusal>
        requires lane { line.lane < 16 }
        ensures tells { (w : Session) (file : File) → Shows self.old w → HasRoom w file line
            → IfOk result (ShowsTurnIfAny self.new w (turn_of w file line)) }
        ensures kept { OnErr result ((w : Session) → Shows self.old w → Shows self.new w) }
        ensures memory { OnErr result (result ≡ Err Refusal.NoMemory) }
        ensures memory_needed { (w : Session) → Shows self.old w → OnErr result (IsTrue (line_takes_memory w line)) }
        ensures answered { (w : Session) → Shows self.old w → OnErr result (IsCallAnswered w line) }
    {
        let Line { lane, verb } = line;
        let at = self.lanes[lane as usize].at;
        match asked_of(at, self.copier, verb) {
            Asked::OfFile(call) => Ok(Some(self.tell_by_file(lane, &call)?)),
            Asked::Aside(verb) => self.tell_aside(lane, verb),
        }
    }

    // Runs a line that makes no call.
    fn tell_aside(&mut self, lane: u8, verb: Verb) -> Result<Option<Told>, Refusal>
        requires lane { lane < 16 }
        ensures tells { (w : Session) → Shows self.old w → IfOk result (ShowsTurnIfAny self.new w (turn_aside w (record { lane = lane; verb = verb }) verb)) }
        ensures kept { OnErr result ((w : Session) → Shows self.old w → Shows self.new w) }
        ensures memory { OnErr result (result ≡ Err Refusal.NoMemory) }
        ensures copies { (w : Session) → Shows self.old w → OnErr result (IsTrue (is_copy (said_by_lane (w.lanes lane) verb).1)) }
    {
        match verb {
            Verb::Compact => Ok(None),
            Verb::CompactCopy { count } => Ok(Some(self.tell_by_copier(lane, count))),
            verb => Ok(Some(self.tell_by_snapshot(lane, &verb)?)),
        }
    }

    // Runs a call of a lane.
    #[tactic(auto, using(crate::proofs::Calls::at_least))]
    fn tell_by_file(&mut self, lane: u8, call: &Call) -> Result<Told, Refusal>
        requires lane { lane < 16 }
        ensures tells { (w : Session) (verb : Verb) → Shows self.old w
            → IfOk result (ShowsTurn self.new (turn_by_file w (record { lane = lane; verb = verb }) call.now (step_with_room w.state call.now))) }
        ensures kept { OnErr result ((w : Session) → Shows self.old w → Shows self.new w) }
        ensures memory { OnErr result (result ≡ Err Refusal.NoMemory) }
        ensures memory_needed { OnErr result (IsTrue (call_takes_memory self.old.oracle.state call.now)) }
        ensures answered { OnErr result (first_cause (causes self.old.oracle.state call.now) ≡ None) }
    {
        let reply = self.oracle.step(call)?;
        let opened = opened_for(self.alloc, &self.oracle.state, call, &reply)?;
        let place = self.oracle.state.place;
        self.copier = copier_after(self.copier, &reply, &self.oracle.state);
        self.lanes[lane as usize].note(&reply, place, opened);
        Ok(Told {
            lane,
            place,
            said: said_of(call, reply),
        })
    }

    // Copies so many documents more.
    fn tell_by_copier(&mut self, lane: u8, count: u64) -> Told
        requires lane { lane < 16 }
        ensures { (w : Session) (verb : Verb) → Shows self.old w → ShowsTurn self.new (turn_by_copier w (record { lane = lane; verb = verb }) count w.copier) result }
    {
        let (place, said) = copy(&mut self.copier, &self.oracle.state, count);
        self.lanes[lane as usize].printed = place;
        Told { lane, place, said }
    }

    // Runs a line on the snapshot of a lane.
    fn tell_by_snapshot(&mut self, lane: u8, verb: &Verb) -> Result<Told, Refusal>
        requires lane { lane < 16 }
        ensures tells { (w : Session) → Shows self.old w
            → IfOk result (ShowsTurn self.new (turn_by_snapshot w (record { lane = lane; verb = verb.now }) (w.lanes lane).snapshot)) }
        ensures kept { OnErr result ((w : Session) → Shows self.old w → Shows self.new w) }
        ensures memory { OnErr result (result ≡ Err Refusal.NoMemory) }
        ensures copies { (w : Session) → Shows self.old w → OnErr result (IsTrue (is_copy (said_by_lane (w.lanes lane) verb.now).1)) }
    {
        let (place, said) = self.lanes[lane as usize].tell(self.alloc, verb)?;
        Ok(Told { lane, place, said })
    }
}
