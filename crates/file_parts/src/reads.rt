ghost use Rattle.std.specs.Prelude.{◌≡◌, ◌≤◌, IsTrue, ◌≢◌, Err};
ghost use Rattle.forest_model.specs.Limits as limits;
ghost use Rattle.file_parts.specs.Held.{held};
ghost use Rattle.file_parts.specs.Lookup.{living, entry_of_key, LooksUpNumber, info_in, FindsRecord};

use crate::Parts;
use block_host::{Host, View};
use doc_stream::{Tail, read};
use forest_model::{Entry, Found, Info, Rec, Refusal, StoreRef};
use std::alloc::Global;

/// Whether a key hasn't 1 to 3,500 bytes.
pub fn is_wrong_key(key: &[u8]) -> bool
    ensures { result ≡ limits.is_wrong_key key.now }
{
    key.is_empty() || key.len() > 3500
}

// An entry that sets its key.
fn living(entry: Option<Entry>) -> Result<Entry, Refusal>
    ensures { result ≡ living entry }
{
    match entry {
        Some(entry) if entry.live => Ok(entry),
        _ => Err(Refusal::NotFound),
    }
}

/// The entry in memory of a document's key. Refused are a file that has stopped, a key that hasn't 1 to 3,500 bytes, a
/// store that isn't there, and a key without a document, in this order.
pub fn entry_of_key<H: Host>(parts: &Parts<H>, at: &StoreRef, key: &[u8]) -> Result<Entry, Refusal>
    ensures { result ≡ entry_of_key (held parts.now) at.now key.now }
{
    if let Some(faults) = parts.stopped {
        return Err(Refusal::Stopped { faults });
    }
    if is_wrong_key(key) {
        return Err(Refusal::KeyLength);
    }
    if parts.names.numbers(at.store).is_none() {
        return Err(Refusal::NoStore);
    }
    living(parts.wal.get(at.store, key))
}

/// The entry in memory of a document's number. Refused are a file that has stopped, a store that isn't there, and a number
/// without a document, in this order.
pub fn entry_of_number<H: Host>(parts: &Parts<H>, at: &StoreRef, seq: u64) -> Result<Entry, Refusal>
    ensures { LooksUpNumber (held parts.now) at.now seq result }
{
    if let Some(faults) = parts.stopped {
        return Err(Refusal::Stopped { faults });
    }
    if parts.names.numbers(at.store).is_none() {
        return Err(Refusal::NoStore);
    }
    match parts.wal.by_seq(at.store, seq) {
        Some(key) => living(parts.wal.get(at.store, key)),
        None => Err(Refusal::NotFound),
    }
}

/// What a store and the file are at. Refused are a file that has stopped and a store that isn't there.
pub fn info_of<H: Host>(parts: &Parts<H>, at: &StoreRef) -> Result<Info, Refusal>
    ensures { result ≡ info_in (held parts.now) at.now }
{
    if let Some(faults) = parts.stopped {
        return Err(Refusal::Stopped { faults });
    }
    let Some((seq, documents)) = parts.names.numbers(at.store) else {
        return Err(Refusal::NoStore);
    };
    Ok(Info {
        commit: parts.header.commit,
        seq,
        documents,
        ticket: parts.copying.map_or(0, |copying| copying.0),
    })
}

/// Reads the record of an entry. It is refused where there is no memory, where the view fails, and where no record stands
/// at the entry's address.
pub fn find_record<V: View>(
    alloc: Global,
    view: &mut V,
    tail: &Tail,
    revision: u64,
    entry: Entry,
) -> Result<Found, Refusal>
    ensures finds { FindsRecord V.tells revision (V.content view.old) tail.now entry (V.faults view.old) (V.faults view.new)
        result }
    ensures content { IsTrue V.tells → V.content view.new ≡ V.content view.old }
    ensures counts { V.faults view.old ≤ V.faults view.new }
    ensures untroubled { result ≢ Err Refusal.DiskFault → V.faults view.new ≡ V.faults view.old }
{
    let Rec {
        key,
        meta,
        body,
        ..
    } = read(alloc, view, tail, revision, entry.address)?;
    Ok(Found {
        seq: entry.seq,
        key,
        meta,
        body,
    })
}
