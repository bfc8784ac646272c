ghost use Rattle.std.specs.Prelude.{◌≡◌, ◌+◌, ◌<◌, length, drop, slice_get, Some};
ghost use Rattle.std.specs.List.{list_all};
ghost use Rattle.forest_model.specs.Stored.{StoreRow};
ghost use Rattle.header_block.specs.Layout.{is_well_formed, is_below, is_table, is_row, begins_with_default, are_apart, is_before};

use forest_model::{Header, Stores};

// The block of a header is below this.
const BLOCKS: u64 = 1 << 41;

// Each number of a header is below this.
const NUMBERS: u64 = 1 << 62;

/// Whether the header at this block is well-formed by itself.
pub fn is_well_formed(header: &Header, at: u64) -> bool
    ensures { result ≡ is_well_formed at header.now }
{
    at < BLOCKS
        && is_below(at, header.previous)
        && is_below(at, header.key)
        && is_below(at, header.seq)
        && header.wal_from <= at + 1
        && header.commit < header.next_commit
        && header.next_commit < NUMBERS
        && header.live < NUMBERS
        && header.next_store < NUMBERS
        && is_table(header.next_store, &header.stores)
}

// Whether a block, where there is one, is below this one.
fn is_below(at: u64, block: Option<u64>) -> bool
    ensures { result ≡ is_below at block }
{
    match block {
        None => true,
        Some(block) => block < at,
    }
}

// Whether these can be the stores of a header with this next id.
fn is_table(next: u64, stores: &Stores) -> bool
    ensures { result ≡ is_table next stores.now }
{
    stores.len() <= 64 && begins_with_default(stores) && are_rows(next, stores) && are_apart(stores)
}

// Whether the first store has id 0 and is `default`.
fn begins_with_default(stores: &Stores) -> bool
    ensures { result ≡ begins_with_default stores.now }
{
    match stores.at(0) {
        None => false,
        Some((id, name, _, _)) => id == 0 && name == b"default".as_slice(),
    }
}

// Whether each store has an id below the next one, a name, and numbers that are not too great.
fn are_rows(next: u64, stores: &Stores) -> bool
    ensures { result ≡ list_all (is_row next) stores.now }
{
    for n in 0..stores.len() {
        if !is_row_at(next, stores, n) {
            return false;
        }
    }
    true
}

fn is_row_at(next: u64, stores: &Stores, n: u64) -> bool
    requires { n < length stores.now }
    ensures { (s : StoreRow) → slice_get stores.now n ≡ Some s → result ≡ is_row next s }
{
    match stores.at(n) {
        None => false,
        Some((id, name, seq, documents)) => {
            id < next && 1 <= name.len() && name.len() <= 31 && seq < NUMBERS && documents < NUMBERS
        }
    }
}

// Whether ids rise and names differ.
fn are_apart(stores: &Stores) -> bool
    ensures { result ≡ are_apart stores.now }
{
    for n in 0..stores.len() {
        if !is_before_later(stores, n) {
            return false;
        }
    }
    true
}

// Whether a store is before each later one.
fn is_before_later(stores: &Stores, n: u64) -> bool
    requires { n < length stores.now }
    ensures { (s : StoreRow) → slice_get stores.now n ≡ Some s → result ≡ list_all (is_before s) (drop (n + 1) stores.now) }
{
    let count = stores.len();
    for later in n + 1..count {
        if !is_before(stores, n, later) {
            return false;
        }
    }
    true
}

// Whether a store is before another one: its id is lower, and its name is another.
fn is_before(stores: &Stores, n: u64, later: u64) -> bool
    ensures { (s t : StoreRow) → slice_get stores.now n ≡ Some s → slice_get stores.now later ≡ Some t → result ≡ is_before s t }
{
    match (stores.at(n), stores.at(later)) {
        (Some(first), Some(second)) => first.0 < second.0 && first.1 != second.1,
        _ => false,
    }
}
