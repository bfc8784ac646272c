ghost use Rattle.std.specs.Prelude.{◌≡◌, map, reverse, None, IfOk, OnErr};
ghost use Rattle.forest_model.specs.State.{retained};
ghost use Rattle.forest_model.specs.Step.{first_cause, causes, step_with_room, found_of, ticket_of};
ghost use Rattle.forest_model.specs.declared.call.Call.TheVariants as calls;

use super::limits::is_wrong_key;
use super::tables::{any_has_seq, doc_at, seq_of, store_of};
use forest_model::{Bytes, Doc, Found, Info, Numbers, Refusal, Reply, Sequence, State, StoreRef};
use std::alloc::{AllocError, Global};

/// A document as it is found at its key. An `Err` is want of memory.
pub fn found_of(key: &Bytes, doc: &Doc) -> Result<Found, AllocError>
    ensures { IfOk result (λ found. found ≡ found_of key.now doc.now) }
{
    Ok(Found {
        seq: doc.seq,
        key: key.clone()?,
        meta: doc.meta.clone()?,
        body: doc.body.clone()?,
    })
}

/// The ticket of the running compaction, and 0 where none runs.
pub fn ticket_of(state: &State) -> u64
    ensures { result ≡ ticket_of state.now }
{
    match state.copying {
        Some(copying) => copying.ticket,
        None => 0,
    }
}

fn why_not_get(state: &State, at: StoreRef, key: &Bytes) -> Option<Refusal>
    ensures { result ≡ first_cause (causes state.now (calls.Get at key.now)) }
{
    if is_wrong_key(key) {
        return Some(Refusal::KeyLength);
    }
    if store_of(state.stores.as_slice(), at.store).is_none() {
        return Some(Refusal::NoStore);
    }
    if doc_at(&state.documents, at.store, key).is_none() {
        return Some(Refusal::NotFound);
    }
    None
}

pub(super) fn get(state: &State, at: StoreRef, key: &Bytes) -> Result<Reply, Refusal>
    ensures answer { IfOk result (λ reply. (reply, state.now) ≡ step_with_room state.now (calls.Get at key.now)) }
    ensures memory { OnErr result (result ≡ Err Refusal.NoMemory) }
    ensures answered { OnErr result (first_cause (causes state.now (calls.Get at key.now)) ≡ None) }
{
    if let Some(why) = why_not_get(state, at, key) {
        return Ok(Reply::Refused { why });
    }
    match doc_at(&state.documents, at.store, key) {
        Some(doc) => Ok(Reply::Document {
            found: found_of(key, doc)?,
        }),
        None => Ok(Reply::Refused {
            why: Refusal::NotFound,
        }),
    }
}

fn why_not_by_seq(state: &State, at: StoreRef, seq: u64) -> Option<Refusal>
    ensures { result ≡ first_cause (causes state.now (calls.BySeq at seq)) }
{
    if store_of(state.stores.as_slice(), at.store).is_none() {
        return Some(Refusal::NoStore);
    }
    if state.documents.numbered(at.store, seq).is_none() {
        return Some(Refusal::NotFound);
    }
    None
}

pub(super) fn by_seq(state: &State, at: StoreRef, seq: u64) -> Result<Reply, Refusal>
    ensures answer { IfOk result (λ reply. (reply, state.now) ≡ step_with_room state.now (calls.BySeq at seq)) }
    ensures memory { OnErr result (result ≡ Err Refusal.NoMemory) }
    ensures answered { OnErr result (first_cause (causes state.now (calls.BySeq at seq)) ≡ None) }
{
    if let Some(why) = why_not_by_seq(state, at, seq) {
        return Ok(Reply::Refused { why });
    }
    match state.documents.numbered(at.store, seq) {
        Some((place, doc)) => Ok(Reply::Document {
            found: found_of(&place.key, doc)?,
        }),
        None => Ok(Reply::Refused {
            why: Refusal::NotFound,
        }),
    }
}

fn why_not_info(state: &State, at: StoreRef) -> Option<Refusal>
    ensures { result ≡ first_cause (causes state.now (calls.Info at)) }
{
    if store_of(state.stores.as_slice(), at.store).is_none() {
        return Some(Refusal::NoStore);
    }
    None
}

pub(super) fn info(state: &State, at: StoreRef) -> Reply
    ensures { (result, state.now) ≡ step_with_room state.now (calls.Info at) }
{
    if let Some(why) = why_not_info(state, at) {
        return Reply::Refused { why };
    }
    Reply::InfoIs {
        info: Info {
            commit: state.last.number,
            seq: seq_of(state.stores.as_slice(), at.store),
            documents: state.documents.count_of(at.store) as u64,
            ticket: ticket_of(state),
        },
    }
}

fn numbers_of(alloc: Global, state: &State) -> Result<Numbers, AllocError>
    ensures { IfOk result (λ numbers. numbers ≡ reverse (map (λ c. c.number) (retained state.now))) }
{
    let mut numbers = vec![in alloc; state.last.number]?;
    for commit in state.earlier.as_slice() {
        numbers.push(commit.number)?;
    }
    numbers.reverse();
    Ok(Sequence::from_vec(numbers))
}

pub(super) fn markers(alloc: Global, state: &State) -> Result<Reply, Refusal>
    ensures answer { IfOk result (λ reply. (reply, state.now) ≡ step_with_room state.now calls.Markers) }
    ensures memory { OnErr result (result ≡ Err Refusal.NoMemory) }
{
    Ok(Reply::MarkersAre {
        numbers: numbers_of(alloc, state)?,
    })
}

fn why_not_snap(state: &State, at: StoreRef, seq: u64) -> Option<Refusal>
    ensures { result ≡ first_cause (causes state.now (calls.SnapAt at seq)) }
{
    if store_of(state.stores.as_slice(), at.store).is_none() {
        return Some(Refusal::NoStore);
    }
    if !any_has_seq(&state.last, state.earlier.as_slice(), at.store, seq) {
        return Some(Refusal::NoCommit);
    }
    None
}

pub(super) fn snap_at(state: &State, at: StoreRef, seq: u64) -> Reply
    ensures { (result, state.now) ≡ step_with_room state.now (calls.SnapAt at seq) }
{
    if let Some(why) = why_not_snap(state, at, seq) {
        return Reply::Refused { why };
    }
    Reply::Snapped
}
