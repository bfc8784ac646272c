ghost use Rattle.std.specs.Prelude.{◌≡◌, ◌+◌, ◌^◌, ◌≤◌, false, [], ◌∷◌, length, sum_by};
ghost use Rattle.std.specs.List.{list_any};
ghost use Rattle.forest_model.specs.Limits as limits;
ghost use Rattle.forest_model.specs.Step.{item_length};
ghost use Rattle.file_documents.specs.Batching.{item_key, lives_behind, misses};

use crate::deleting::is_living;
use crate::setting::{is_wrong_body, record_len};
use file_parts::is_wrong_key;
use forest_model::Item;
use wal_index::WalIndex;

// The key that an item sets or deletes.
fn key_of(item: &Item) -> &[u8]
    ensures { result.now ≡ item_key item.now }
{
    match item {
        Item::Put { key, .. } => key.as_slice(),
        Item::Del { key } => key.as_slice(),
    }
}

fn has_wrong_key(item: &Item) -> bool
    ensures { result ≡ limits.has_wrong_key item.now }
{
    is_wrong_key(key_of(item))
}

fn has_wrong_body(item: &Item) -> bool
    ensures { result ≡ limits.has_wrong_body item.now }
{
    match item {
        Item::Put { meta, body, .. } => is_wrong_body(meta.as_slice(), body.as_slice()),
        Item::Del { .. } => false,
    }
}

pub(crate) fn any_wrong_key(items: &[Item]) -> bool
    ensures { result ≡ list_any limits.has_wrong_key items.now }
{
    items.iter().any(|item| has_wrong_key(item))
}

pub(crate) fn any_wrong_body(items: &[Item]) -> bool
    ensures { result ≡ list_any limits.has_wrong_body items.now }
{
    items.iter().any(|item| has_wrong_body(item))
}

// How many bytes the record of an item has.
pub(crate) fn item_len(item: &Item) -> u64
    requires key { limits.has_wrong_key item.now ≡ false }
    requires body { limits.has_wrong_body item.now ≡ false }
    ensures value { result ≡ item_length item.now }
    ensures small { result ≤ 2 ^ 21 }
{
    match item {
        Item::Put { key, meta, body } => {
            record_len(key.as_slice(), meta.as_slice(), body.as_slice())
        }
        Item::Del { key } => record_len(key.as_slice(), &[], &[]),
    }
}

// How many bytes the records of items have.
pub(crate) fn items_len(items: &[Item]) -> u64
    requires few { length items.now ≤ 1024 }
    requires keys { list_any limits.has_wrong_key items.now ≡ false }
    requires bodies { list_any limits.has_wrong_body items.now ≡ false }
    ensures value { result ≡ sum_by item_length items.now }
    ensures small { result ≤ 2 ^ 31 }
{
    let mut sum = 0;
    for item in items {
        sum += item_len(item);
    }
    sum
}

// Whether a key has a document behind an item, by whether it had one before.
fn lives_with(item: &Item, key: &[u8], before: bool) -> bool
    ensures { result ≡ lives_behind (item.now ∷ []) key.now before }
{
    let is_same = key_of(item) == key;
    match item {
        Item::Put { .. } => is_same || before,
        Item::Del { .. } => !is_same && before,
    }
}

// The same behind several items.
fn lives_after(front: &[Item], key: &[u8], before: bool) -> bool
    ensures { result ≡ lives_behind front.now key.now before }
{
    let mut lives = before;
    for item in front {
        lives = lives_with(item, key, lives);
    }
    lives
}

// Whether an item behind others deletes a key that has no document by then.
fn is_missed(wal: &WalIndex, store: u64, front: &[Item], item: &Item) -> bool
    ensures { result ≡ misses wal.now.entries store front.now (item.now ∷ []) }
{
    match item {
        Item::Put { .. } => false,
        Item::Del { key } => {
            let before = is_living(wal.get(store, key.as_slice()));
            !lives_after(front, key.as_slice(), before)
        }
    }
}

// Whether one of the items deletes a key that has no document by then.
pub(crate) fn misses_one(wal: &WalIndex, store: u64, items: &[Item]) -> bool
    ensures { result ≡ misses wal.now.entries store [] items.now }
{
    for (n, item) in items.iter().enumerate() {
        if is_missed(wal, store, &items[..n], item) {
            return true;
        }
    }
    false
}
