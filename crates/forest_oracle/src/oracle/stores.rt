ghost use Rattle.std.specs.Prelude.{◌≡◌, ◌+◌, ◌%◌, ◌^◌, ◌<◌, ◌++◌, ◌∷◌, [], true, false, None, is_none, codes, nat_eq, IfOk, IfNone, OnErr};
ghost use Rattle.std.specs.Cmp.Lexicographic.{pointwise};
ghost use Rattle.forest_model.specs.Documents.{without_store};
ghost use Rattle.forest_model.specs.declared.call.Reply.TheVariants as Reply;
ghost use Rattle.forest_model.specs.Step.{Outcome, first_cause, causes, step_with_room, updated, record_length};
ghost use Rattle.forest_model.specs.Stores as stores;
ghost use Rattle.forest_model.specs.declared.call.Call.TheVariants as calls;

use super::limits::{is_name, is_worn};
use super::tables::{remove_store, store_named};
use super::writes::with_record;
use forest_model::{Bytes, Refusal, Reply, State, Store, StoreRef};
use std::alloc::Global;

const MOST_STORES: usize = 64;

fn why_not_open(state: &State, name: &Bytes, read_only: bool) -> Option<Refusal>
    ensures why { result ≡ first_cause (causes state.now (calls.StoreOpen name.now read_only)) }
    ensures room { IfNone result (is_none (stores.store_named state.now.stores name.now) ≡ true → (state.now.next_store < 2 ^ 62) × (state.now.place < 2 ^ 62)) }
{
    if !is_name(name) {
        return Some(Refusal::NameForm);
    }
    if store_named(state.stores.as_slice(), name).is_some() {
        return None;
    }
    if read_only {
        return Some(Refusal::NoStore);
    }
    if is_worn(state.next_store, 0) || is_worn(state.place, 1) {
        return Some(Refusal::Worn);
    }
    if state.stores.len() >= MOST_STORES {
        return Some(Refusal::StoreCount);
    }
    None
}

// Makes a store, as one update.
fn make(state: &mut State, name: &Bytes) -> Result<Reply, Refusal>
    requires { (state.old.next_store < 2 ^ 62) × (state.old.place < 2 ^ 62) }
    ensures step { IfOk result (λ reply. let after : Outcome = (Reply.Store (record { store = state.old.next_store; read_only = false }), record (updated state.old (record_length name.now [] [])) { stores = state.old.stores ++ stores.new_store state.old.next_store name.now ∷ []; next_store = state.old.next_store + 1 }) in (reply, state.new) ≡ after) }
    ensures err { OnErr result (state.new ≡ state.old) }
    ensures memory { OnErr result (result ≡ Err Refusal.NoMemory) }
{
    let id = state.next_store;
    let store = Store {
        id,
        name: name.clone()?,
        seq: 0,
    };
    state.stores.push(store)?;
    state.next_store += 1;
    state.place += 1;
    state.loose = with_record(state.loose, name.len(), 0, 0);
    Ok(Reply::Store {
        at: StoreRef {
            store: id,
            read_only: false,
        },
    })
}

pub(super) fn open(state: &mut State, name: &Bytes, read_only: bool) -> Result<Reply, Refusal>
    ensures step { IfOk result (λ reply. (reply, state.new) ≡ step_with_room state.old (calls.StoreOpen name.now read_only)) }
    ensures err { OnErr result (state.new ≡ state.old) }
    ensures memory { OnErr result (result ≡ Err Refusal.NoMemory) }
    ensures answered { OnErr result (first_cause (causes state.old (calls.StoreOpen name.now read_only)) ≡ None) }
    ensures grows { OnErr result (is_none (stores.store_named state.old.stores name.now) ≡ true) }
{
    if let Some(why) = why_not_open(state, name, read_only) {
        return Ok(Reply::Refused { why });
    }
    if let Some(store) = store_named(state.stores.as_slice(), name) {
        let store = store.id;
        return Ok(Reply::Store {
            at: StoreRef { store, read_only },
        });
    }
    make(state, name)
}

fn is_default(name: &Bytes) -> bool
    ensures { result ≡ pointwise nat_eq name.now (codes "default") }
{
    name.as_slice() == b"default".as_slice()
}

fn why_not_remove(state: &State, at: StoreRef, name: &Bytes) -> Option<Refusal>
    ensures why { result ≡ first_cause (causes state.now (calls.StoreRemove at name.now)) }
    ensures room { IfNone result (state.now.place < 2 ^ 62) }
{
    if at.read_only {
        return Some(Refusal::ReadOnly);
    }
    if !is_name(name) || is_default(name) {
        return Some(Refusal::NameForm);
    }
    if store_named(state.stores.as_slice(), name).is_none() {
        return Some(Refusal::NoStore);
    }
    if is_worn(state.place, 1) {
        return Some(Refusal::Worn);
    }
    None
}

// Removes a store with its documents, as one update.
fn unmake(alloc: Global, state: &mut State, id: u64)
    requires { state.old.place < 2 ^ 62 }
    ensures { state.new ≡ record (updated state.old (record_length [] [] [])) { stores = stores.without state.old.stores id; documents = without_store state.old.documents id } }
{
    remove_store(alloc, &mut state.stores, id);
    state.documents.remove_store(id);
    state.place += 1;
    state.loose = with_record(state.loose, 0, 0, 0);
}

pub(super) fn remove(alloc: Global, state: &mut State, at: StoreRef, name: &Bytes) -> Reply
    ensures { (result, state.new) ≡ step_with_room state.old (calls.StoreRemove at name.now) }
{
    if let Some(why) = why_not_remove(state, at, name) {
        return Reply::Refused { why };
    }
    let found = match store_named(state.stores.as_slice(), name) {
        Some(store) => Some(store.id),
        None => None,
    };
    match found {
        Some(id) => {
            unmake(alloc, state, id);
            Reply::Removed { id }
        }
        None => Reply::Refused {
            why: Refusal::NoStore,
        },
    }
}
