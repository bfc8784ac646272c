ghost use Rattle.std.specs.Prelude.{◌≡◌, ◌+◌, ◌*◌, ◌%◌, ◌^◌, ◌<◌, IfOk, IfNone, OnErr, Some, None, [], ◌∷◌, length, sum_by, if◌then◌else◌};
ghost use Rattle.forest_model.specs.Step.{first_cause, causes, step_with_room, item_length};
ghost use Rattle.forest_model.specs.Documents as docs;
ghost use Rattle.forest_model.specs.Stores as stores;
ghost use Rattle.forest_model.specs.declared.call.Call.TheVariants as calls;

use super::limits::{any_wrong_body, any_wrong_key, is_worn, is_wrong_body, is_wrong_key};
use super::tables::{doc_at, seq_of, set_seq, store_of};
use super::turns::names_absent;
use forest_model::{Bytes, Doc, DocKey, Documents, Item, Items, Refusal, Reply, State, StoreRef};
use std::alloc::{AllocError, Global};

// The bytes of the open block after a record of these lengths.
pub(super) fn with_record(loose: u64, key: usize, meta: usize, body: usize) -> u64
    ensures { result ≡ (loose + (24 + key + meta + body)) % 4064 }
{
    let lengths = key as u64 % 4064 + meta as u64 % 4064 + body as u64 % 4064;
    (loose % 4064 + 24 + lengths) % 4064
}

fn with_item(loose: u64, item: &Item) -> u64
    ensures { result ≡ (loose + item_length item.now) % 4064 }
{
    match item {
        Item::Put { key, meta, body } => with_record(loose, key.len(), meta.len(), body.len()),
        Item::Del { key } => with_record(loose, key.len(), 0, 0),
    }
}

fn with_items(loose: u64, items: &[Item]) -> u64
    ensures { result ≡ (loose + sum_by item_length items.now) % 4064 }
{
    let mut all = loose % 4064;
    for item in items {
        all = with_item(all, item);
    }
    all
}

// Brings a store to a number, as one update.
fn mark(alloc: Global, state: &mut State, store: u64, seq: u64, loose: u64)
    requires { state.old.place + 1 < 2 ^ 64 }
    ensures { state.new ≡ record state.old { stores = stores.with_seq state.old.stores store seq; place = state.old.place + 1; loose = loose } }
{
    set_seq(alloc, &mut state.stores, store, seq);
    state.place += 1;
    state.loose = loose;
}

fn why_not_set(
    state: &State,
    at: StoreRef,
    key: &Bytes,
    meta: &Bytes,
    body: &Bytes,
) -> Option<Refusal>
    ensures why { result ≡ first_cause (causes state.now (calls.Set at key.now meta.now body.now)) }
    ensures room { IfNone result ((stores.seq_of state.now.stores at.store < 2 ^ 62) × (state.now.place < 2 ^ 62)) }
{
    if at.read_only {
        return Some(Refusal::ReadOnly);
    }
    if is_wrong_key(key) {
        return Some(Refusal::KeyLength);
    }
    if is_wrong_body(meta, body) {
        return Some(Refusal::BodyLength);
    }
    if store_of(state.stores.as_slice(), at.store).is_none() {
        return Some(Refusal::NoStore);
    }
    if is_worn(seq_of(state.stores.as_slice(), at.store), 1) || is_worn(state.place, 1) {
        return Some(Refusal::Worn);
    }
    None
}

pub(super) fn set(
    alloc: Global,
    state: &mut State,
    at: StoreRef,
    key: &Bytes,
    meta: &Bytes,
    body: &Bytes,
) -> Result<Reply, Refusal>
    ensures step { IfOk result (λ reply. (reply, state.new) ≡ step_with_room state.old (calls.Set at key.now meta.now body.now)) }
    ensures err { OnErr result (state.new ≡ state.old) }
    ensures memory { OnErr result (result ≡ Err Refusal.NoMemory) }
    ensures answered { OnErr result (first_cause (causes state.old (calls.Set at key.now meta.now body.now)) ≡ None) }
{
    if let Some(why) = why_not_set(state, at, key, meta, body) {
        return Ok(Reply::Refused { why });
    }
    let seq = seq_of(state.stores.as_slice(), at.store) + 1;
    let place = DocKey {
        store: at.store,
        key: key.clone()?,
    };
    let doc = Doc {
        seq,
        meta: meta.clone()?,
        body: body.clone()?,
    };
    state.documents.insert(place, doc)?;
    let loose = with_record(state.loose, key.len(), meta.len(), body.len());
    mark(alloc, state, at.store, seq, loose);
    Ok(Reply::Seq { seq })
}

fn why_not_delete(state: &State, at: StoreRef, key: &Bytes) -> Option<Refusal>
    ensures why { result ≡ first_cause (causes state.now (calls.Delete at key.now)) }
    ensures room { IfNone result ((stores.seq_of state.now.stores at.store < 2 ^ 62) × (state.now.place < 2 ^ 62)) }
{
    if at.read_only {
        return Some(Refusal::ReadOnly);
    }
    if is_wrong_key(key) {
        return Some(Refusal::KeyLength);
    }
    if store_of(state.stores.as_slice(), at.store).is_none() {
        return Some(Refusal::NoStore);
    }
    if is_worn(seq_of(state.stores.as_slice(), at.store), 1) || is_worn(state.place, 1) {
        return Some(Refusal::Worn);
    }
    if doc_at(&state.documents, at.store, key).is_none() {
        return Some(Refusal::NotFound);
    }
    None
}

pub(super) fn delete(
    alloc: Global,
    state: &mut State,
    at: StoreRef,
    key: &Bytes,
) -> Result<Reply, Refusal>
    ensures step { IfOk result (λ reply. (reply, state.new) ≡ step_with_room state.old (calls.Delete at key.now)) }
    ensures err { OnErr result (state.new ≡ state.old) }
    ensures memory { OnErr result (result ≡ Err Refusal.NoMemory) }
    ensures answered { OnErr result (first_cause (causes state.old (calls.Delete at key.now)) ≡ None) }
{
    if let Some(why) = why_not_delete(state, at, key) {
        return Ok(Reply::Refused { why });
    }
    let seq = seq_of(state.stores.as_slice(), at.store) + 1;
    let place = DocKey {
        store: at.store,
        key: key.clone()?,
    };
    let _before = state.documents.remove(&place);
    let loose = with_record(state.loose, key.len(), 0, 0);
    mark(alloc, state, at.store, seq, loose);
    Ok(Reply::Seq { seq })
}

// One item at the next number; whether it may take effect.
fn apply(documents: &mut Documents, store: u64, seq: u64, item: &Item) -> Result<bool, AllocError>
    requires { seq + 1 < 2 ^ 64 }
    ensures { IfOk result (λ done. docs.after_items store (item.now ∷ []) seq documents.old ≡ (if done then Some (seq + 1, documents.new) else None)) }
{
    match item {
        Item::Put { key, meta, body } => {
            let place = DocKey {
                store,
                key: key.clone()?,
            };
            let doc = Doc {
                seq: seq + 1,
                meta: meta.clone()?,
                body: body.clone()?,
            };
            documents.insert(place, doc)?;
            Ok(true)
        }
        Item::Del { key } => {
            let place = DocKey {
                store,
                key: key.clone()?,
            };
            let found = documents.contains(&place);
            let _before = documents.remove(&place);
            Ok(found)
        }
    }
}

// The number and the documents after the items; none where a key to delete isn't there.
fn after_items(
    documents: &Documents,
    store: u64,
    items: &[Item],
    seq: u64,
) -> Result<Option<(u64, Documents)>, AllocError>
    requires { seq + length items.now < 2 ^ 64 }
    ensures { IfOk result (λ after. after ≡ docs.after_items store items.now seq documents.now) }
{
    let mut copy = documents.clone()?;
    let mut last = seq;
    for item in items {
        if !apply(&mut copy, store, last, item)? {
            return Ok(None);
        }
        last += 1;
    }
    Ok(Some((last, copy)))
}

fn why_not_batch(state: &State, at: StoreRef, items: &Items) -> Option<Refusal>
    ensures why { result ≡ first_cause (causes state.now (calls.Batch at items.now)) }
    ensures room { IfNone result ((stores.seq_of state.now.stores at.store + length items.now < 2 ^ 62) × (state.now.place < 2 ^ 62)) }
{
    if at.read_only {
        return Some(Refusal::ReadOnly);
    }
    if any_wrong_key(items) {
        return Some(Refusal::KeyLength);
    }
    if any_wrong_body(items) {
        return Some(Refusal::BodyLength);
    }
    if store_of(state.stores.as_slice(), at.store).is_none() {
        return Some(Refusal::NoStore);
    }
    let seq = seq_of(state.stores.as_slice(), at.store);
    if is_worn(seq, items.len() as u64) || is_worn(state.place, 1) {
        return Some(Refusal::Worn);
    }
    if names_absent(state, at, items.as_slice()) {
        return Some(Refusal::NotFound);
    }
    None
}

pub(super) fn batch(
    alloc: Global,
    state: &mut State,
    at: StoreRef,
    items: &Items,
) -> Result<Reply, Refusal>
    ensures step { IfOk result (λ reply. (reply, state.new) ≡ step_with_room state.old (calls.Batch at items.now)) }
    ensures err { OnErr result (state.new ≡ state.old) }
    ensures memory { OnErr result (result ≡ Err Refusal.NoMemory) }
    ensures answered { OnErr result (first_cause (causes state.old (calls.Batch at items.now)) ≡ None) }
{
    if let Some(why) = why_not_batch(state, at, items) {
        return Ok(Reply::Refused { why });
    }
    let seq = seq_of(state.stores.as_slice(), at.store);
    let after = after_items(&state.documents, at.store, items.as_slice(), seq)?;
    let Some((last, documents)) = after else {
        return Ok(Reply::Refused {
            why: Refusal::NotFound,
        });
    };
    state.documents = documents;
    let loose = with_items(state.loose, items.as_slice());
    mark(alloc, state, at.store, last, loose);
    Ok(Reply::Seq { seq: last })
}
