ghost use Rattle.std.specs.Prelude.{◌≡◌, ◌+◌, ◌%◌, ◌^◌, ◌<◌, ◌∷◌, false, Some, None, IfOk, IfSome, IfNone, OnOk, OnErr};
ghost use Rattle.std.specs.Option.{option_map};
ghost use Rattle.forest_model.specs.Step as steps;
ghost use Rattle.forest_model.specs.Stores as stores;
ghost use Rattle.forest_model.specs.Step.{first_cause, causes, step_with_room};
ghost use Rattle.forest_model.specs.State as states;
ghost use Rattle.forest_model.specs.declared.call.Call.TheVariants as calls;

use super::limits::is_worn;
use super::reads::ticket_of;
use super::tables::{commit_numbered, copy_of_stores, go_back};
use forest_model::{Commit, Documents, Refusal, Reply, Sequence, State, StoreList, StoreRef};
use std::alloc::{AllocError, AllocFailed, Global};
use std::mem;

fn nothing_new(state: &State) -> bool
    ensures { result ≡ states.nothing_new state.now }
{
    state.stores == state.last.stores && state.documents == state.last.documents
}

// ---- commit

fn why_not_commit(state: &State, at: StoreRef) -> Option<Refusal>
    ensures why { result ≡ first_cause (causes state.now (calls.Commit at)) }
    ensures room { IfNone result (states.nothing_new state.now ≡ false → (state.now.next_commit < 2 ^ 62) × (state.now.place < 2 ^ 62)) }
{
    if at.read_only {
        return Some(Refusal::ReadOnly);
    }
    if nothing_new(state) {
        return None;
    }
    if is_worn(state.next_commit, 0) || is_worn(state.place, 1) {
        return Some(Refusal::Worn);
    }
    None
}

// Puts a commit before those retained.
fn retain(last: &mut Commit, earlier: &mut Sequence<Commit>, commit: Commit) -> Result<(), Refusal>
    ensures ok { OnOk result ((last.new ≡ commit) × (earlier.new ≡ last.old ∷ earlier.old)) }
    ensures err { OnErr result ((last.new ≡ last.old) × (earlier.new ≡ earlier.old)) }
    ensures memory { OnErr result (result ≡ Err Refusal.NoMemory) }
{
    let before = mem::replace(last, commit);
    match earlier.push_front(before) {
        Ok(()) => Ok(()),
        Err(refused) => {
            let AllocFailed { value } = refused;
            *last = value;
            Err(Refusal::NoMemory)
        }
    }
}

// Keeps the stores and documents now as the last commit, as one update.
fn keep(alloc: Global, state: &mut State) -> Result<(), Refusal>
    requires { (state.old.next_commit < 2 ^ 62) × (state.old.place < 2 ^ 62) }
    ensures ok { OnOk result (state.new ≡ steps.committed state.old) }
    ensures err { OnErr result (state.new ≡ state.old) }
    ensures memory { OnErr result (result ≡ Err Refusal.NoMemory) }
{
    let commit = Commit {
        number: state.next_commit,
        stores: copy_of_stores(alloc, state.stores.as_slice())?,
        documents: state.documents.clone()?,
    };
    retain(&mut state.last, &mut state.earlier, commit)?;
    state.next_commit += 1;
    state.kept = state.next_store;
    state.loose = 0;
    state.place += 1;
    Ok(())
}

pub(super) fn commit(alloc: Global, state: &mut State, at: StoreRef) -> Result<Reply, Refusal>
    ensures step { IfOk result (λ reply. (reply, state.new) ≡ step_with_room state.old (calls.Commit at)) }
    ensures err { OnErr result (state.new ≡ state.old) }
    ensures memory { OnErr result (result ≡ Err Refusal.NoMemory) }
    ensures answered { OnErr result (first_cause (causes state.old (calls.Commit at)) ≡ None) }
    ensures grows { OnErr result (states.nothing_new state.old ≡ false) }
{
    if let Some(why) = why_not_commit(state, at) {
        return Ok(Reply::Refused { why });
    }
    let number = state.next_commit;
    if nothing_new(state) {
        return Ok(Reply::Committed {
            number: state.last.number,
        });
    }
    keep(alloc, state)?;
    Ok(Reply::Committed { number })
}

// ---- rollback

fn is_at(state: &State, number: u64) -> bool
    ensures { result ≡ steps.is_at state.now number }
{
    number == state.last.number && nothing_new(state)
}

fn why_not_roll_back(state: &State, at: StoreRef, number: u64) -> Option<Refusal>
    ensures why { result ≡ first_cause (causes state.now (calls.Rollback at number)) }
    ensures room { IfNone result (steps.is_at state.now number ≡ false → state.now.place < 2 ^ 62) }
{
    if at.read_only {
        return Some(Refusal::ReadOnly);
    }
    if !is_at(state, number) && is_worn(state.place, 1) {
        return Some(Refusal::Worn);
    }
    if commit_numbered(&state.last, state.earlier.as_slice(), number).is_none() {
        return Some(Refusal::NoCommit);
    }
    if state.copying.is_some() {
        return Some(Refusal::Compacting {
            ticket: ticket_of(state),
        });
    }
    None
}

// The stores and documents of a retained commit.
fn contents_of(
    alloc: Global,
    state: &State,
    number: u64,
) -> Result<Option<(StoreList, Documents)>, AllocError>
    ensures { IfOk result (λ contents. contents ≡ option_map (λ found. (found.0.stores, found.0.documents)) (stores.from_number number (states.retained state.now))) }
{
    let Some(commit) = commit_numbered(&state.last, state.earlier.as_slice(), number) else {
        return Ok(None);
    };
    let stores = copy_of_stores(alloc, commit.stores.as_slice())?;
    Ok(Some((stores, commit.documents.clone()?)))
}

// Goes back to a retained commit, whose stores and documents are given, as one update.
fn go_back_to(state: &mut State, number: u64, contents: (StoreList, Documents))
    requires place { state.old.place < 2 ^ 62 }
    requires contents { option_map (λ found. (found.0.stores, found.0.documents)) (stores.from_number number (states.retained state.old)) ≡ Some contents }
    ensures { IfSome (stores.from_number number (states.retained state.old)) (λ found. state.new ≡ steps.rolled_back state.old found) }
{
    let (stores, documents) = contents;
    go_back(&mut state.last, &mut state.earlier, number);
    state.stores = stores;
    state.documents = documents;
    state.kept = state.next_store;
    state.loose = 0;
    state.place += 1;
}

pub(super) fn roll_back(
    alloc: Global,
    state: &mut State,
    at: StoreRef,
    number: u64,
) -> Result<Reply, Refusal>
    ensures step { IfOk result (λ reply. (reply, state.new) ≡ step_with_room state.old (calls.Rollback at number)) }
    ensures err { OnErr result (state.new ≡ state.old) }
    ensures memory { OnErr result (result ≡ Err Refusal.NoMemory) }
    ensures answered { OnErr result (first_cause (causes state.old (calls.Rollback at number)) ≡ None) }
    ensures grows { OnErr result (steps.is_at state.old number ≡ false) }
{
    if let Some(why) = why_not_roll_back(state, at, number) {
        return Ok(Reply::Refused { why });
    }
    if is_at(state, number) {
        return Ok(Reply::Rolled { number });
    }
    let Some(contents) = contents_of(alloc, state, number)? else {
        return Ok(Reply::Refused {
            why: Refusal::NoCommit,
        });
    };
    go_back_to(state, number, contents);
    Ok(Reply::Rolled { number })
}
