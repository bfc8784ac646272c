ghost use Rattle.std.specs.Prelude.{◌≡◌, ◌==◌, ◌∷◌, Some, is_some, find, IfOk, IsSome};
ghost use Rattle.std.specs.Ordering.{is_eq};
ghost use Rattle.forest_model.specs.Documents.{doc_at, key_at};
ghost use Rattle.forest_model.specs.Key.{key_cmp};
ghost use Rattle.std.specs.Option.{option_copied, option_map};
ghost use Rattle.forest_model.specs.Stores as stores;

use forest_model::{Bytes, Commit, Doc, DocKey, Documents, Sequence, Store, StoreList};
use std::alloc::{AllocError, Global};
use std::mem;

// ---- look-ups

/// The store of an id in a table.
pub fn store_of(table: &[Store], id: u64) -> Option<&Store>
    ensures { option_copied result ≡ stores.store_of table.now id }
{
    table.iter().find(|store| store.id == id)
}

pub(super) fn store_named<'a>(table: &'a [Store], name: &Bytes) -> Option<&'a Store>
    ensures { option_copied result ≡ stores.store_named table.now name.now }
{
    table.iter().find(|store| store.name == *name)
}

pub(super) fn seq_of(table: &[Store], id: u64) -> u64
    ensures { result ≡ stores.seq_of table.now id }
{
    match store_of(table, id) {
        Some(store) => store.seq,
        None => 0,
    }
}

fn is_at(place: &DocKey, store: u64, key: &Bytes) -> bool
    ensures { result ≡ is_eq (key_cmp (key_at store key.now) place.now) }
{
    store.cmp(&place.store).then(key.cmp(&place.key)).is_eq()
}

/// The document of a store's key. It takes no memory.
#[tactic(auto, using(crate::proofs::Places::found_first))]
pub fn doc_at<'a>(documents: &'a Documents, store: u64, key: &Bytes) -> Option<&'a Doc>
    ensures { option_copied result ≡ doc_at documents.now store key.now }
{
    for (place, doc) in documents.iter() {
        if is_at(place, store, key) {
            return Some(doc);
        }
    }
    None
}

// ---- changes of the table of stores

fn renumber(store: &mut Store, id: u64, seq: u64)
    ensures { store.new ≡ stores.at_seq id seq store.old }
{
    if store.id == id {
        store.seq = seq;
    }
}

fn renumber_in(table: &mut Vec<Store>, id: u64, seq: u64)
    ensures { table.new.items ≡ stores.with_seq table.old.items id seq }
{
    for store in table.iter_mut() {
        renumber(store, id, seq);
    }
}

pub(super) fn set_seq(alloc: Global, table: &mut StoreList, id: u64, seq: u64)
    ensures { table.new ≡ stores.with_seq table.old id seq }
{
    let mut list = mem::replace(table, Sequence::new(alloc)).into_vec();
    renumber_in(&mut list, id, seq);
    *table = Sequence::from_vec(list);
}

fn remove_from(table: &mut Vec<Store>, id: u64)
    ensures { table.new.items ≡ stores.without table.old.items id }
{
    table.retain(|store| store.id != id);
}

pub(super) fn remove_store(alloc: Global, table: &mut StoreList, id: u64)
    ensures { table.new ≡ stores.without table.old id }
{
    let mut list = mem::replace(table, Sequence::new(alloc)).into_vec();
    remove_from(&mut list, id);
    *table = Sequence::from_vec(list);
}

// ---- copies

fn copy_of_store(store: &Store) -> Result<Store, AllocError>
    ensures { IfOk result (λ copy. copy ≡ store.now) }
{
    Ok(Store {
        id: store.id,
        name: store.name.clone()?,
        seq: store.seq,
    })
}

/// A table of stores once more. An `Err` is want of memory.
pub fn copy_of_stores(alloc: Global, table: &[Store]) -> Result<StoreList, AllocError>
    ensures { IfOk result (λ copy. copy ≡ table.now) }
{
    let mut copy = Vec::new(alloc);
    for store in table {
        copy.push(copy_of_store(store)?)?;
    }
    Ok(Sequence::from_vec(copy))
}

// ---- retained commits

fn has_seq(commit: &Commit, id: u64, seq: u64) -> bool
    ensures { result ≡ stores.has_seq id seq commit.now }
{
    match store_of(commit.stores.as_slice(), id) {
        Some(store) => store.seq == seq,
        None => false,
    }
}

fn find_with_seq(commits: &[Commit], id: u64, seq: u64) -> Option<&Commit>
    ensures { option_copied result ≡ find (stores.has_seq id seq) commits.now }
{
    commits.iter().find(|commit| has_seq(commit, id, seq))
}

/// The newest of the last commit and the earlier ones, newest first, that has a store at a number.
pub fn commit_at<'a>(
    last: &'a Commit,
    earlier: &'a [Commit],
    id: u64,
    seq: u64,
) -> Option<&'a Commit>
    ensures { option_copied result ≡ find (stores.has_seq id seq) (last.now ∷ earlier.now) }
{
    if has_seq(last, id, seq) {
        return Some(last);
    }
    find_with_seq(earlier, id, seq)
}

pub(super) fn any_has_seq(last: &Commit, earlier: &[Commit], id: u64, seq: u64) -> bool
    ensures { result ≡ is_some (find (stores.has_seq id seq) (last.now ∷ earlier.now)) }
{
    commit_at(last, earlier, id, seq).is_some()
}

fn find_numbered(commits: &[Commit], number: u64) -> Option<&Commit>
    ensures { option_copied result ≡ find (λ c. c.number == number) commits.now }
{
    commits.iter().find(|commit| commit.number == number)
}

pub(super) fn commit_numbered<'a>(
    last: &'a Commit,
    earlier: &'a [Commit],
    number: u64,
) -> Option<&'a Commit>
    ensures { option_copied result ≡ option_map (λ found. found.0) (stores.from_number number (last.now ∷ earlier.now)) }
{
    if last.number == number {
        return Some(last);
    }
    find_numbered(earlier, number)
}

// Goes back to the newest commit with a number, which is there.
pub(super) fn go_back(last: &mut Commit, earlier: &mut Sequence<Commit>, number: u64)
    requires { IsSome (stores.from_number number (last.old ∷ earlier.old)) }
    ensures { stores.from_number number (last.old ∷ earlier.old) ≡ Some (last.new, earlier.new) }
{
    while last.number != number {
        let Some(commit) = earlier.pop_front() else {
            return;
        };
        *last = commit;
    }
}
