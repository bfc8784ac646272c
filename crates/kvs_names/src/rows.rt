ghost use Rattle.std.specs.Prelude.{◌≡◌, ◌≤◌, ◌==◌, not, length, map, filter, is_some};
ghost use Rattle.std.specs.Option.{option_map};
ghost use Rattle.kvs_names.specs.Row.{row_of};
ghost use Rattle.kvs_names.specs.Table.{row_with_id, row_named, with_numbers};

use crate::row::Row;
use arrayvec::ArrayVec;
use forest_model::Stores;

// The rows in place.
pub(crate) type Rows = ArrayVec<Row, 64>;

// The id of a name.
pub(crate) fn id_of(rows: &[Row], name: &[u8]) -> Option<u64>
    ensures { result ≡ option_map (λ s. s.id) (row_named (map row_of rows.now) name.now) }
{
    for row in rows {
        if row.name.as_slice() == name {
            return Some(row.id);
        }
    }
    None
}

// Whether a store has this id.
pub(crate) fn has_id(rows: &[Row], id: u64) -> bool
    ensures { result ≡ is_some (row_with_id (map row_of rows.now) id) }
{
    for row in rows {
        if row.id == id {
            return true;
        }
    }
    false
}

// The sequence number and the count of documents of the store of an id.
pub(crate) fn numbers_of(rows: &[Row], id: u64) -> Option<(u64, u64)>
    ensures { result ≡ option_map (λ s. (s.seq, s.documents)) (row_with_id (map row_of rows.now) id) }
{
    for row in rows {
        if row.id == id {
            return Some((row.seq, row.documents));
        }
    }
    None
}

fn count_each(rows: &mut [Row], id: u64, seq: u64, documents: u64)
    ensures { map row_of rows.new ≡ map (with_numbers id seq documents) (map row_of rows.old) }
{
    for row in rows.iter_mut() {
        row.count(id, seq, documents);
    }
}

// Gives the store of an id other numbers.
pub(crate) fn count_in(rows: &mut Rows, id: u64, seq: u64, documents: u64)
    ensures { map row_of rows.new.items ≡ map (with_numbers id seq documents) (map row_of rows.old.items) }
{
    count_each(rows.as_mut_slice(), id, seq, documents);
}

// Removes the store of an id.
pub(crate) fn remove_from(rows: &mut Rows, id: u64)
    ensures { map row_of rows.new.items ≡ filter (λ s. not (s.id == id)) (map row_of rows.old.items) }
{
    rows.retain(|row| row.id != id);
}

// The rows of the stores of a header.
pub(crate) fn from_stores(stores: &Stores) -> Rows
    ensures rows { map row_of result.items ≡ stores.now }
    ensures at_most { length stores.now ≤ 64 }
{
    let mut rows = Rows::new();
    let count = stores.len();
    for n in 0..count {
        if let Some((id, name, seq, documents)) = stores.at(n) {
            rows.push(Row::new(id, name, seq, documents));
        }
    }
    rows
}

// The rows as the stores of a header.
pub(crate) fn to_stores(rows: &Rows) -> Stores
    ensures { result ≡ map row_of rows.now.items }
{
    let mut stores = Stores::new();
    for row in rows.as_slice() {
        stores.push(row.id, row.name.as_slice(), row.seq, row.documents);
    }
    stores
}
