//! The first bytes of keys in one array, by which a search finds its place with few looks at the keys themselves. They are
//! only a hint: a search whose heads are wrong, or aren't there, looks at the keys alone.
ghost use Rattle.std.specs.Prelude.{◌≡◌, ◌≤◌, true, length, is_some, IfOk, IfErr, OnOk, OnErr, Some, None};
ghost use Rattle.std.specs.FinMap as finite;
ghost use Rattle.forest_model.specs.Key.{key_cmp};
ghost use Rattle.forest_model.specs.declared.refusal.Refusal.TheVariants as Refusal;
ghost use Rattle.wal_index.specs.Index.{key_at};
ghost use Rattle.wal_index.specs.Places.{IsAt, IsGap, IsBetween};
ghost use Rattle.wal_index.specs.Rows.{AreSorted, key_of, pair_of, pairs};

use crate::by_key::{RowList, compare, place};
use forest_model::{Entry, KeyEntry, Refusal};
use std::alloc::Global;

/// The store of a row, in 4 bytes and capped there, and the first 12 bytes of its key, the first as the highest; bytes that
/// aren't there count as 0.
pub(crate) type Head = u128;

pub(crate) fn head_of(store: u64, key: &[u8]) -> Head {
    let mut bytes = [0; 16];
    let count = key.len().min(12);
    bytes[..4].copy_from_slice(&(store.min(0xffff_ffff) as u32).to_be_bytes());
    bytes[4..4 + count].copy_from_slice(&key[..count]);
    u128::from_be_bytes(bytes)
}

// How many heads stand before a head, those that are the same among them or not.
fn border(heads: &[Head], head: Head, with: bool) -> usize
    ensures { result ≤ length heads.now }
{
    heads.partition_point(|other| *other < head || (with && *other == head))
}

// So many heads are looked at one after the other before a search for the end of those that are the same.
const FEW: usize = 4;

// How many of the first heads are the same as a head, of which none is above the next.
fn same(heads: &[Head], head: Head) -> usize
    ensures { result ≤ length heads.now }
{
    let few = heads.len().min(FEW);
    for at in 0..few {
        if heads[at] != head {
            return at;
        }
    }
    border(heads, head, true)
}

// Whether all rows before a place have lower keys, as the last of them tells.
fn is_behind(rows: &[Box<KeyEntry>], low: usize, store: u64, key: &[u8]) -> bool
    requires sorted { AreSorted rows.now }
    requires within { low ≤ length rows.now }
    ensures { result ≡ true → IsBetween key_cmp key_of (key_at store key.now) rows.now low (length rows.now) }
{
    low == 0 || compare(&rows[low - 1], store, key).is_lt()
}

// Whether all rows from a place on have higher keys, as the first of them tells.
fn is_before(rows: &[Box<KeyEntry>], high: usize, store: u64, key: &[u8]) -> bool
    requires sorted { AreSorted rows.now }
    requires within { high ≤ length rows.now }
    ensures { result ≡ true → IsBetween key_cmp key_of (key_at store key.now) rows.now 0 high }
{
    high == rows.len() || compare(&rows[high], store, key).is_gt()
}

// Where the row of a key stands, and where it would, in a part of the rows outside of which it doesn't.
fn place_in(
    rows: &[Box<KeyEntry>],
    low: usize,
    high: usize,
    store: u64,
    key: &[u8],
) -> Result<usize, usize>
    requires sorted { AreSorted rows.now }
    requires part { low ≤ high }
    requires within { high ≤ length rows.now }
    requires behind { IsBetween key_cmp key_of (key_at store key.now) rows.now low (length rows.now) }
    requires before { IsBetween key_cmp key_of (key_at store key.now) rows.now 0 high }
    ensures at { IfOk result (λ i. IsAt key_cmp key_of (key_at store key.now) rows.now i) }
    ensures gap { IfErr result (λ i. IsGap key_cmp key_of (key_at store key.now) rows.now i) }
{
    match place(&rows[low..high], store, key) {
        Ok(at) => Ok(low + at),
        Err(at) => Err(low + at),
    }
}

// Where the row of a key stands, and where it would, with few looks at keys where the heads are those of the rows.
pub(crate) fn place_by(
    rows: &[Box<KeyEntry>],
    heads: &[Head],
    store: u64,
    key: &[u8],
) -> Result<usize, usize>
    requires { AreSorted rows.now }
    ensures at { IfOk result (λ i. IsAt key_cmp key_of (key_at store key.now) rows.now i) }
    ensures gap { IfErr result (λ i. IsGap key_cmp key_of (key_at store key.now) rows.now i) }
{
    let head = head_of(store, key);
    let before = border(heads, head, false);
    let high = (before + same(&heads[before..], head)).min(rows.len());
    let low = before.min(high);
    if is_behind(rows, low, store, key) && is_before(rows, high, store, key) {
        place_in(rows, low, high, store, key)
    } else {
        place(rows, store, key)
    }
}

pub(crate) fn get_by(
    rows: &[Box<KeyEntry>],
    heads: &[Head],
    store: u64,
    key: &[u8],
) -> Option<Entry>
    requires { AreSorted rows.now }
    ensures { result ≡ finite.find key_cmp (key_at store key.now) (pairs rows.now) }
{
    match place_by(rows, heads, store, key) {
        Ok(at) => Some(rows[at].entry),
        Err(_) => None,
    }
}

// Puts a row in the place of that of its key, whose entry it answers, or gives it back where there is none.
pub(crate) fn replace_by(
    rows: &mut RowList,
    heads: &[Head],
    row: Box<KeyEntry>,
) -> Result<Entry, Box<KeyEntry>>
    requires { AreSorted rows.old.items }
    ensures put { OnOk result (pairs rows.new.items ≡ finite.put key_cmp (pair_of row).0 (pair_of row).1 (pairs rows.old.items)) }
    ensures found { OnOk result (is_some (finite.find key_cmp (pair_of row).0 (pairs rows.old.items)) ≡ true) }
    ensures older { IfOk result (λ older. finite.find key_cmp (pair_of row).0 (pairs rows.old.items) ≡ Some older) }
    ensures back { IfErr result (λ same. same.value ≡ row.value) }
    ensures kept { OnErr result (rows.new.items ≡ rows.old.items) }
    ensures absent { OnErr result (finite.find key_cmp (pair_of row).0 (pairs rows.old.items) ≡ None) }
{
    match place_by(rows.as_slice(), heads, row.store, row.key.as_slice()) {
        Ok(at) => {
            let older = rows[at].entry;
            rows[at] = row;
            Ok(older)
        }
        Err(_) => Err(row),
    }
}

// Takes the heads that aren't above a head. They rise.
fn take_through<'a>(left: &mut &'a [Head], head: Head) -> &'a [Head] {
    let all = *left;
    let count = border(all, head, true);
    *left = &all[count..];
    &all[..count]
}

// The heads of rows with those of others put among them. Both rise.
pub(crate) fn merged_heads(
    alloc: Global,
    heads: &[Head],
    recent: &[Box<KeyEntry>],
) -> Result<Vec<Head>, Refusal>
    ensures memory { OnErr result (result ≡ Err Refusal.NoMemory) }
{
    let mut merged = Vec::with_capacity(alloc, heads.len() + recent.len())?;
    let mut left = heads;
    for row in recent {
        let head = head_of(row.store, row.key.as_slice());
        merged.extend_from_slice(take_through(&mut left, head))?;
        merged.push(head)?;
    }
    merged.extend_from_slice(left)?;
    Ok(merged)
}
