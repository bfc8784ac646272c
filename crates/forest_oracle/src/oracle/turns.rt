ghost use Rattle.std.specs.Prelude.{◌≡◌, ◌∷◌, [], is_none};
ghost use Rattle.forest_model.specs.Documents as docs;
ghost use Rattle.forest_model.specs.Stores as stores;
ghost use Rattle.forest_oracle.specs.AtTurn.{lives_behind, misses};

use super::tables::doc_at;
use forest_model::{Bytes, Documents, Item, State, StoreRef};

// Whether a key has a document behind an item, by whether it had one before.
fn lives_with(item: &Item, key: &Bytes, before: bool) -> bool
    ensures { result ≡ lives_behind (item.now ∷ []) key.now before }
{
    match item {
        Item::Put { key: own, .. } => {
            let is_same = *own == *key;
            is_same || before
        }
        Item::Del { key: own } => {
            let is_same = *own == *key;
            !is_same && before
        }
    }
}

// The same behind several items.
fn lives_after(front: &[Item], key: &Bytes, before: bool) -> bool
    ensures { result ≡ lives_behind front.now key.now before }
{
    let mut lives = before;
    for item in front {
        lives = lives_with(item, key, lives);
    }
    lives
}

// Whether an item behind others deletes a key that has no document by then.
fn is_missed(documents: &Documents, store: u64, front: &[Item], item: &Item) -> bool
    ensures { result ≡ misses documents.now store front.now (item.now ∷ []) }
{
    match item {
        Item::Put { .. } => false,
        Item::Del { key } => {
            let before = doc_at(documents, store, key).is_some();
            !lives_after(front, key, before)
        }
    }
}

fn misses_one(documents: &Documents, store: u64, items: &[Item]) -> bool
    ensures { result ≡ misses documents.now store [] items.now }
{
    for (n, item) in items.iter().enumerate() {
        if is_missed(documents, store, &items[..n], item) {
            return true;
        }
    }
    false
}

// Whether one of the items deletes a key that has no document at its turn. It takes no memory, since it looks back over the
// items before it and copies no documents.
pub(super) fn names_absent(state: &State, at: StoreRef, items: &[Item]) -> bool
    ensures { result ≡ is_none (docs.after_items at.store items.now (stores.seq_of state.now.stores at.store) state.now.documents) }
{
    misses_one(&state.documents, at.store, items)
}
