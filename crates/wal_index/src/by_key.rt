ghost use Rattle.std.specs.Prelude.{◌≡◌, ◌≤◌, ◌+◌, ◌<◌, not, ◌==◌, filter, IfOk, IfErr, vec_len, vec_capacity};
ghost use Rattle.std.specs.FinMap as finite;
ghost use Rattle.forest_model.specs.Key.{key_cmp};
ghost use Rattle.wal_index.specs.Index.{key_at};
ghost use Rattle.wal_index.specs.Places.{IsAt, IsGap};
ghost use Rattle.wal_index.specs.Rows.{pairs, pair_of, AreSorted, key_of};

use forest_model::{Entry, KeyEntry};
use std::cmp::Ordering;

/// Rows in the order of store and key.
pub(crate) type RowList = Vec<Box<KeyEntry>>;

pub(crate) fn compare(row: &KeyEntry, store: u64, key: &[u8]) -> Ordering
    ensures { result ≡ key_cmp (key_at row.now.store row.now.key) (key_at store key.now) }
{
    row.store.cmp(&store).then(row.key.as_slice().cmp(key))
}

// Where the row of a key stands, and where it would.
pub(crate) fn place(rows: &[Box<KeyEntry>], store: u64, key: &[u8]) -> Result<usize, usize>
    requires { AreSorted rows.now }
    ensures at { IfOk result (λ i. IsAt key_cmp key_of (key_at store key.now) rows.now i) }
    ensures gap { IfErr result (λ i. IsGap key_cmp key_of (key_at store key.now) rows.now i) }
{
    rows.binary_search_by(|row| compare(row, store, key))
}

pub(crate) fn get(rows: &[Box<KeyEntry>], store: u64, key: &[u8]) -> Option<Entry>
    requires { AreSorted rows.now }
    ensures { result ≡ finite.find key_cmp (key_at store key.now) (pairs rows.now) }
{
    match place(rows, store, key) {
        Ok(at) => Some(rows[at].entry),
        Err(_) => None,
    }
}

// Puts a row in the place of that of its key, whose entry it answers, or where it belongs. There is capacity for it.
pub(crate) fn put(rows: &mut RowList, row: Box<KeyEntry>) -> Option<Entry>
    requires sorted { AreSorted rows.old.items }
    requires room { vec_len rows.old < vec_capacity rows.old }
    ensures put { pairs rows.new.items ≡ finite.put key_cmp (pair_of row).0 (pair_of row).1 (pairs rows.old.items) }
    ensures capacity { vec_capacity rows.old ≤ vec_capacity rows.new }
    ensures len { vec_len rows.new ≤ vec_len rows.old + 1 }
    ensures older { result ≡ finite.find key_cmp (pair_of row).0 (pairs rows.old.items) }
{
    match place(rows.as_slice(), row.store, row.key.as_slice()) {
        Ok(at) => {
            let older = rows[at].entry;
            rows[at] = row;
            Some(older)
        }
        Err(at) => {
            let _room = rows.insert(at, row);
            None
        }
    }
}

// Removes the rows of a store.
pub(crate) fn remove_store(rows: &mut RowList, store: u64)
    ensures removed { pairs rows.new.items ≡ filter (λ e. not (e.0.store == store)) (pairs rows.old.items) }
    ensures capacity { vec_capacity rows.old ≤ vec_capacity rows.new }
    ensures len { vec_len rows.new ≤ vec_len rows.old }
{
    rows.retain(|row| row.store != store);
}
