ghost use Rattle.std.specs.Prelude.{◌≡◌, ℕ, true, false, Option};
ghost use Rattle.std.specs.Option.{option_map};
ghost use Rattle.forest_model.specs.Session as sessions;
ghost use Rattle.forest_model.specs.Session.{Snapshot, copier_ticket, copier_left};
ghost use Rattle.plain_session.specs.Calls.{Asks, is_of_documents};
ghost use Rattle.plain_session.specs.Plain.{copier_shown};

use crate::lane::Copier;
use forest_model::{Call, Reply, Said, StoreRef, Verb};

/// What a line asks for.
#[derive(Drop)]
pub(crate) enum Asked {
    /// A call on the file.
    OfFile(Call),
    /// Something of the copier, of the lane's snapshot or of the server.
    Aside(Verb),
}

fn ticket_of(copier: Option<Copier>) -> u64
    ensures { result ≡ copier_ticket (option_map copier_shown copier) }
{
    match copier {
        Some(copier) => copier.ticket,
        None => 0,
    }
}

fn left_of(copier: Option<Copier>) -> u64
    ensures { result ≡ copier_left (option_map copier_shown copier) }
{
    match copier {
        Some(copier) => copier.left,
        None => 0,
    }
}

/// What a line of a lane at a store asks for.
pub(crate) fn asked_of(at: StoreRef, copier: Option<Copier>, verb: Verb) -> Asked
    ensures { (printed : ℕ) (snapshot : Option Snapshot) → Asks (record { at = at; printed = printed; snapshot = snapshot }) (option_map copier_shown copier) verb result }
{
    Asked::OfFile(match verb {
        Verb::UseStore { name, read_only } => Call::StoreOpen { name, read_only },
        Verb::Remove { name } => Call::StoreRemove { at, name },
        Verb::Set { key, meta, body } => Call::Set {
            at,
            key,
            meta,
            body,
        },
        Verb::Del { key } => Call::Delete { at, key },
        Verb::Batch { items } => Call::Batch { at, items },
        Verb::Get { key } => Call::Get { at, key },
        Verb::BySeq { seq } => Call::BySeq { at, seq },
        verb => return asked_of_file(at, copier, verb),
    })
}

// The same for a line that isn't on one store's documents.
fn asked_of_file(at: StoreRef, copier: Option<Copier>, verb: Verb) -> Asked
    requires { is_of_documents verb ≡ false }
    ensures { (printed : ℕ) (snapshot : Option Snapshot) → Asks (record { at = at; printed = printed; snapshot = snapshot }) (option_map copier_shown copier) verb result }
{
    let ticket = ticket_of(copier);
    let left = left_of(copier);
    Asked::OfFile(match verb {
        Verb::Commit => Call::Commit { at },
        Verb::Markers => Call::Markers,
        Verb::Rollback { number } => Call::Rollback { at, number },
        Verb::Info => Call::Info { at },
        Verb::SnapLatest => Call::SnapLatest,
        Verb::SnapAt { seq } => Call::SnapAt { at, seq },
        Verb::CompactBegin => Call::Begin { at },
        Verb::CompactDelta => Call::Delta { ticket, left },
        Verb::CompactSwitch => Call::Switch { at, ticket, left },
        Verb::CompactCancel => Call::Cancel { at, ticket },
        verb => return Asked::Aside(verb),
    })
}

/// How the reply of a call is said.
pub(crate) fn said_of(call: &Call, reply: Reply) -> Said
    ensures { result ≡ sessions.said_of call.now reply }
{
    match reply {
        Reply::Seq { seq } => match call {
            Call::Delete { .. } => Said::Gone { seq },
            _ => Said::Done { seq },
        },
        Reply::Document { found } => match call {
            Call::BySeq { .. } => Said::At { found },
            _ => Said::Got { found },
        },
        Reply::InfoIs { info } => Said::InfoIs { info },
        Reply::MarkersAre { numbers } => Said::MarkersAre { numbers },
        Reply::Store { at } => Said::Using { id: at.store },
        Reply::Removed { id } => Said::Removed { id },
        Reply::Committed { number } => Said::Committed { number },
        Reply::Rolled { number } => Said::Rolled { number },
        Reply::Snapped => Said::SnapOpened,
        Reply::Begun { ticket, base } => Said::Begun { ticket, base },
        Reply::Caught { number } => Said::Caught { number },
        Reply::Switched { number } => Said::Switched { number },
        Reply::Cancelled => Said::Cancelled,
        Reply::Refused { why } => Said::Refused { why },
    }
}
