ghost use Rattle.std.specs.Prelude.{◌≡◌, ◌^◌, ◌-◌, min, sum_by};
ghost use Rattle.wal_index.specs.Index.{key_at};
ghost use Rattle.wal_index.specs.Live.{len_if_live, own_len, is_before_store};
ghost use Rattle.wal_index.specs.Rows.{held, AreSorted, IsBorder};

use forest_model::{Entry, KeyEntry};

// Whether a row stands before those of a store, or is one of them, if `through`.
fn is_before(row: &KeyEntry, store: u64, through: bool) -> bool
    ensures { result ≡ is_before_store through store (key_at row.now.store row.now.key) }
{
    row.store < store || (through && row.store == store)
}

// How many rows stand before those of a store, these among them or not.
fn border(rows: &[Box<KeyEntry>], store: u64, through: bool) -> usize
    requires { AreSorted rows.now }
    ensures { IsBorder (is_before_store through store) rows.now result }
{
    rows.partition_point(|row| is_before(row, store, through))
}

// The bytes of an entry's record, where it is live.
fn len_of(entry: Entry) -> u64
    ensures { result ≡ len_if_live entry }
{
    if entry.live { entry.len } else { 0 }
}

// The bytes of the live records of these rows.
fn sum_of(rows: &[Box<KeyEntry>]) -> u64
    ensures { result ≡ min (sum_by (λ r. len_if_live r.value.entry) rows.now) (2 ^ 64 - 1) }
{
    let mut sum: u64 = 0;
    for row in rows {
        sum = sum.saturating_add(len_of(row.entry));
    }
    sum
}

// The bytes of the live records of a store's rows, which stand together.
pub(crate) fn live_of(rows: &[Box<KeyEntry>], store: u64) -> u64
    requires { AreSorted rows.now }
    ensures { result ≡ min (sum_by (own_len store) (held rows.now)) (2 ^ 64 - 1) }
{
    let first = border(rows, store, false);
    let end = border(rows, store, true);
    sum_of(&rows[first..end])
}
