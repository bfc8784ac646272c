ghost use Rattle.std.specs.Prelude.{◌≡◌, ◌&&◌, map, filter, take, IfOk, OnErr, IsTrue};
ghost use Rattle.std.specs.List.{list_any};
ghost use Rattle.std.specs.FinMap as finite;
ghost use Rattle.std.specs.Ordering.{nat_cmp};
ghost use Rattle.forest_model.specs.Documents.{is_of};
ghost use Rattle.forest_model.specs.Session as sessions;
ghost use Rattle.forest_model.specs.declared.documents.Doc.{Doc};
ghost use Rattle.plain_session.specs.Memory.{has_rows};

use forest_model::{Bytes, DocKey, Documents, Row, Rows, Sequence};
use std::alloc::{AllocError, Global};
use std::collections::BTreeMap;

// ---- by key

fn is_within(up: bool, from: &Bytes, place: &DocKey) -> bool
    ensures { (d : Doc) → result ≡ sessions.is_within up from.now (place.now, d) }
{
    if up {
        place.key >= *from
    } else {
        from.is_empty() || place.key <= *from
    }
}

// Whether a store has a document from a bound on. It takes no memory.
fn has_within(documents: &Documents, store: u64, up: bool, from: &Bytes) -> bool
    ensures { result ≡ list_any (λ e. is_of store e && sessions.is_within up from.now e) (finite.entries documents.now) }
{
    for (place, _) in documents.iter() {
        if place.store == store && is_within(up, from, place) {
            return true;
        }
    }
    false
}

// The documents of a store from a bound on, by key.
fn rows_from(
    alloc: Global,
    documents: &Documents,
    store: u64,
    up: bool,
    from: &Bytes,
) -> Result<Vec<Row>, AllocError>
    ensures { IfOk result (λ rows. rows.items ≡ map sessions.row_of (filter (λ e. is_of store e && sessions.is_within up from.now e) (finite.entries documents.now))) }
{
    let mut rows = Vec::new(alloc);
    for (place, doc) in documents.iter() {
        if place.store == store && is_within(up, from, place) {
            rows.push(Row {
                key: place.key.clone()?,
                seq: doc.seq,
            })?;
        }
    }
    Ok(rows)
}

// So many rows of those from one end on.
fn listed(mut rows: Vec<Row>, up: bool, count: u64) -> Rows
    ensures { result ≡ take count (sessions.turned up rows.items) }
{
    if !up {
        rows.reverse();
    }
    rows.truncate(count as usize);
    Sequence::from_vec(rows)
}

/// The documents of a store by key, from a bound on. A list without rows takes no memory.
#[tactic(auto, using(crate::proofs::Rows::key_rows, crate::proofs::Rows::no_key_rows, crate::proofs::Rows::zero_key_rows))]
pub(crate) fn by_key(
    alloc: Global,
    documents: &Documents,
    store: u64,
    up: bool,
    from: &Bytes,
    count: u64,
) -> Result<Rows, AllocError>
    ensures rows { IfOk result (λ rows. rows ≡ sessions.rows_by_key documents.now store up from.now count) }
    ensures copies { OnErr result (IsTrue (has_rows (sessions.rows_by_key documents.now store up from.now count))) }
{
    if count == 0 {
        return Ok(Sequence::new(alloc));
    }
    if !has_within(documents, store, up, from) {
        return Ok(Sequence::new(alloc));
    }
    Ok(listed(rows_from(alloc, documents, store, up, from)?, up, count))
}

// ---- by sequence number

// Whether a store has a document from a number on. It takes no memory.
fn has_numbered_within(documents: &Documents, store: u64, up: bool, from: u64) -> bool
    ensures { result ≡ list_any (λ e. is_of store e && sessions.is_numbered_within up from e.1.seq) (finite.entries documents.now) }
{
    for (place, doc) in documents.iter() {
        if place.store == store && is_numbered_within(up, from, doc.seq) {
            return true;
        }
    }
    false
}

// The numbers and keys of a store's documents, in the order of their keys.
fn pairs_of(
    alloc: Global,
    documents: &Documents,
    store: u64,
) -> Result<Vec<(u64, Bytes)>, AllocError>
    ensures { IfOk result (λ pairs. pairs.items ≡ map (λ e. (e.1.seq, e.0.key)) (filter (is_of store) (finite.entries documents.now))) }
{
    let mut pairs = Vec::new(alloc);
    for (place, doc) in documents.iter() {
        if place.store == store {
            pairs.push((doc.seq, place.key.clone()?))?;
        }
    }
    Ok(pairs)
}

// Pairs by their numbers; of those with the same number the first.
fn by_number(
    alloc: Global,
    mut pairs: Vec<(u64, Bytes)>,
) -> Result<BTreeMap<u64, Bytes>, AllocError>
    ensures { IfOk result (λ ordered. ordered.entries ≡ finite.entries (finite.from_entries {R = nat_cmp} pairs.items)) }
{
    let mut ordered = BTreeMap::new(alloc);
    while let Some((seq, key)) = pairs.pop() {
        ordered.insert(seq, key)?;
    }
    Ok(ordered)
}

fn is_numbered_within(up: bool, from: u64, seq: u64) -> bool
    ensures { result ≡ sessions.is_numbered_within up from seq }
{
    if up {
        seq >= from
    } else {
        from == 0 || seq <= from
    }
}

fn rows_numbered(
    alloc: Global,
    ordered: BTreeMap<u64, Bytes>,
    up: bool,
    from: u64,
) -> Result<Vec<Row>, AllocError>
    ensures { IfOk result (λ rows. rows.items ≡ map (λ e. record { key = e.1; seq = e.0 }) (filter (λ e. sessions.is_numbered_within up from e.0) ordered.entries)) }
{
    let mut rows = Vec::new(alloc);
    for (seq, key) in ordered {
        if is_numbered_within(up, from, seq) {
            rows.push(Row { key, seq })?;
        }
    }
    Ok(rows)
}

/// The documents of a store by their numbers, from a bound on. A list without rows takes no memory.
#[tactic(auto, using(crate::proofs::Rows::seq_rows, crate::proofs::Rows::no_seq_rows, crate::proofs::Rows::zero_seq_rows))]
pub(crate) fn by_seq(
    alloc: Global,
    documents: &Documents,
    store: u64,
    up: bool,
    from: u64,
    count: u64,
) -> Result<Rows, AllocError>
    ensures rows { IfOk result (λ rows. rows ≡ sessions.rows_by_seq documents.now store up from count) }
    ensures copies { OnErr result (IsTrue (has_rows (sessions.rows_by_seq documents.now store up from count))) }
{
    if count == 0 {
        return Ok(Sequence::new(alloc));
    }
    if !has_numbered_within(documents, store, up, from) {
        return Ok(Sequence::new(alloc));
    }
    let ordered = by_number(alloc, pairs_of(alloc, documents, store)?)?;
    Ok(listed(rows_numbered(alloc, ordered, up, from)?, up, count))
}
