ghost use Rattle.std.specs.Prelude.{◌≡◌, ℕ, List, slice_get, false, true, if◌then◌else◌};
ghost use Rattle.std.specs.Option.{option_map};
ghost use Rattle.wal_index.specs.Index.{key_at, key_and_entry, is_past, nearest_of};
ghost use Rattle.std.specs.Ordering.{nat_cmp, is_lt, is_gt};
ghost use Rattle.std.specs.Cmp.Lexicographic.{slice_cmp};
ghost use Rattle.wal_index.specs.Merged.{nearer as nearer_of};
ghost use Rattle.wal_index.specs.Rows.{pairs, AreSorted, IsBorder, pair_of, of_store};

use crate::by_key::place;
use forest_model::{Entry, KeyEntry};

// How many rows stand before a key, itself among them or not.
fn border(rows: &[Box<KeyEntry>], store: u64, key: &[u8], through: bool) -> usize
    requires { AreSorted rows.now }
    ensures { IsBorder (is_past through false (key_at store key.now)) rows.now result }
{
    match place(rows, store, key) {
        Ok(at) => { if through { at + 1 } else { at } }
        Err(at) => at,
    }
}

// The row at a place, where it is one of the store.
fn row_of_store(rows: &[Box<KeyEntry>], at: usize, store: u64) -> Option<(&[u8], Entry)>
    ensures { option_map {U = List ℕ × Entry} (λ r. (r.0.now, r.1)) result ≡ option_map key_and_entry (of_store store (option_map pair_of (slice_get rows.now at))) }
{
    let row = rows.get(at)?;
    if row.store == store {
        Some((row.key.as_slice(), row.entry))
    } else {
        None
    }
}

// The nearest row of the store behind a key.
fn next_up<'a>(
    rows: &'a [Box<KeyEntry>],
    store: u64,
    key: &[u8],
    with: bool,
) -> Option<(&'a [u8], Entry)>
    requires { AreSorted rows.now }
    ensures { option_map {U = List ℕ × Entry} (λ r. (r.0.now, r.1)) result ≡ option_map key_and_entry (nearest_of with true (pairs rows.now) (key_at store key.now)) }
{
    let at = border(rows, store, key, !with);
    row_of_store(rows, at, store)
}

// The nearest row of the store before a key.
fn next_down<'a>(
    rows: &'a [Box<KeyEntry>],
    store: u64,
    key: &[u8],
    with: bool,
) -> Option<(&'a [u8], Entry)>
    requires { AreSorted rows.now }
    ensures { option_map {U = List ℕ × Entry} (λ r. (r.0.now, r.1)) result ≡ option_map key_and_entry (nearest_of with false (pairs rows.now) (key_at store key.now)) }
{
    let count = border(rows, store, key, with);
    if count == 0 {
        return None;
    }
    row_of_store(rows, count - 1, store)
}

// The nearest row of the store behind a key, or before it.
pub(crate) fn next_in<'a>(
    rows: &'a [Box<KeyEntry>],
    store: u64,
    key: &[u8],
    with: bool,
    up: bool,
) -> Option<(&'a [u8], Entry)>
    requires { AreSorted rows.now }
    ensures { option_map {U = List ℕ × Entry} (λ r. (r.0.now, r.1)) result ≡ option_map key_and_entry (nearest_of with up (pairs rows.now) (key_at store key.now)) }
{
    if up {
        next_up(rows, store, key, with)
    } else {
        next_down(rows, store, key, with)
    }
}

fn is_nearer(key: &[u8], other: &[u8], up: bool) -> bool
    ensures { result ≡ (if up then is_lt (slice_cmp nat_cmp key.now other.now) else is_gt (slice_cmp nat_cmp key.now other.now)) }
{
    let order = key.cmp(other);
    if up { order.is_lt() } else { order.is_gt() }
}

// The nearer of two rows of one store, where both are there.
pub(crate) fn nearer<'a>(
    row: Option<(&'a [u8], Entry)>,
    other: Option<(&'a [u8], Entry)>,
    up: bool,
) -> Option<(&'a [u8], Entry)>
    ensures { option_map {U = List ℕ × Entry} (λ r. (r.0.now, r.1)) result ≡ nearer_of (slice_cmp nat_cmp) up (option_map (λ r. (r.0.now, r.1)) row.entry) (option_map (λ r. (r.0.now, r.1)) other.entry) }
{
    match (row, other) {
        (None, _) => other,
        (_, None) => row,
        (Some((key, _)), Some((other_key, _))) => {
            if is_nearer(key, other_key, up) {
                row
            } else {
                other
            }
        }
    }
}
