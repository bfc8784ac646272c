ghost use Rattle.std.specs.Prelude.{◌≡◌, ◌+◌, ◌%◌, ◌^◌, ◌<◌, IfNone};
ghost use Rattle.forest_model.specs.Step as steps;
ghost use Rattle.forest_model.specs.Step.{first_cause, causes, step_with_room};
ghost use Rattle.forest_model.specs.declared.call.Call.TheVariants as calls;

use super::limits::is_worn;
use super::reads::ticket_of;
use forest_model::{Copying, Refusal, Reply, Sequence, State, StoreRef};
use std::alloc::Global;

fn is_other_ticket(state: &State, ticket: u64) -> bool
    ensures { result ≡ steps.is_other_ticket state.now ticket }
{
    ticket == 0 || ticket != ticket_of(state)
}

// ---- begin

fn why_not_begin(state: &State, at: StoreRef) -> Option<Refusal>
    ensures why { result ≡ first_cause (causes state.now (calls.Begin at)) }
    ensures room { IfNone result ((state.now.next_ticket < 2 ^ 62) × (state.now.place < 2 ^ 62)) }
{
    if at.read_only {
        return Some(Refusal::ReadOnly);
    }
    if is_worn(state.next_ticket, 0) || is_worn(state.revision, 1) || is_worn(state.place, 1) {
        return Some(Refusal::Worn);
    }
    if state.copying.is_some() {
        return Some(Refusal::Compacting {
            ticket: ticket_of(state),
        });
    }
    None
}

pub(super) fn begin(state: &mut State, at: StoreRef) -> Reply
    ensures { (result, state.new) ≡ step_with_room state.old (calls.Begin at) }
{
    if let Some(why) = why_not_begin(state, at) {
        return Reply::Refused { why };
    }
    let ticket = state.next_ticket;
    let base = state.last.number;
    state.copying = Some(Copying { ticket, base });
    state.next_ticket += 1;
    state.place += 1;
    state.loose %= 4064;
    Reply::Begun { ticket, base }
}

// ---- delta

fn why_not_delta(state: &State, ticket: u64, left: u64) -> Option<Refusal>
    ensures { result ≡ first_cause (causes state.now (calls.Delta ticket left)) }
{
    if is_other_ticket(state, ticket) {
        return Some(Refusal::NoTicket {
            asked: ticket,
            now: ticket_of(state),
        });
    }
    if left > 0 {
        return Some(Refusal::NotCopied { left });
    }
    None
}

pub(super) fn delta(state: &State, ticket: u64, left: u64) -> Reply
    ensures { (result, state.now) ≡ step_with_room state.now (calls.Delta ticket left) }
{
    if let Some(why) = why_not_delta(state, ticket, left) {
        return Reply::Refused { why };
    }
    Reply::Caught {
        number: state.last.number,
    }
}

// ---- switch

fn why_not_switch(state: &State, at: StoreRef, ticket: u64, left: u64) -> Option<Refusal>
    ensures why { result ≡ first_cause (causes state.now (calls.Switch at ticket left)) }
    ensures room { IfNone result ((state.now.revision < 2 ^ 62) × (state.now.generation < 2 ^ 62) × (state.now.place < 2 ^ 62)) }
{
    if at.read_only {
        return Some(Refusal::ReadOnly);
    }
    if is_worn(state.revision, 1) || is_worn(state.generation, 1) || is_worn(state.place, 1) {
        return Some(Refusal::Worn);
    }
    why_not_delta(state, ticket, left)
}

pub(super) fn switch(
    alloc: Global,
    state: &mut State,
    at: StoreRef,
    ticket: u64,
    left: u64,
) -> Reply
    ensures { (result, state.new) ≡ step_with_room state.old (calls.Switch at ticket left) }
{
    if let Some(why) = why_not_switch(state, at, ticket, left) {
        return Reply::Refused { why };
    }
    state.earlier = Sequence::new(alloc);
    state.copying = None;
    state.kept = state.next_store;
    state.revision += 1;
    state.generation += 1;
    state.place += 1;
    state.loose %= 4064;
    Reply::Switched {
        number: state.last.number,
    }
}

// ---- cancel

fn why_not_cancel(state: &State, at: StoreRef, ticket: u64) -> Option<Refusal>
    ensures why { result ≡ first_cause (causes state.now (calls.Cancel at ticket)) }
    ensures room { IfNone result (state.now.place < 2 ^ 62) }
{
    if at.read_only {
        return Some(Refusal::ReadOnly);
    }
    if is_worn(state.place, 1) {
        return Some(Refusal::Worn);
    }
    if is_other_ticket(state, ticket) {
        return Some(Refusal::NoTicket {
            asked: ticket,
            now: ticket_of(state),
        });
    }
    None
}

pub(super) fn cancel(state: &mut State, at: StoreRef, ticket: u64) -> Reply
    ensures { (result, state.new) ≡ step_with_room state.old (calls.Cancel at ticket) }
{
    if let Some(why) = why_not_cancel(state, at, ticket) {
        return Reply::Refused { why };
    }
    state.copying = None;
    state.place += 1;
    state.loose %= 4064;
    Reply::Cancelled
}
