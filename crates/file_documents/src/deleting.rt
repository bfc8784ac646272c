ghost use Rattle.std.specs.Prelude.{◌≡◌, ◌≢◌, ◌≤◌, ◌+◌, ◌-◌, ◌^◌, ◌<◌, length, true, is_some, Some, None, Ok, Err, IfOk};
ghost use Rattle.std.specs.FinMap as finite;
ghost use Rattle.forest_model.specs.Documents.{key_at};
ghost use Rattle.forest_model.specs.Step.{first_cause};
ghost use Rattle.forest_model.specs.declared.refusal.Refusal.TheVariants as Refusal;
ghost use Rattle.kvs_names.specs.Table.{row_with_id, counted};
ghost use Rattle.std.specs.Result.{result_err};
ghost use Rattle.file_parts.specs.Held.{held};
ghost use Rattle.file_parts.specs.Causes.{seq_in, documents_in};
ghost use Rattle.file_documents.specs.Setting.{is_live, live_len};
ghost use Rattle.file_documents.specs.Deleting.{delete_causes, DeleteGives, DeleteAnswers};
ghost use Rattle.file_parts.specs.Moment.{moment};
ghost use Rattle.file_parts.specs.Keeping.{Keeps, Outside};

use crate::setting::record_len;
use block_host::Host;
use file_parts::{Parts, advance, append, is_full, is_next_worn, is_wrong_key, record_of};
use forest_model::{Entry, Refusal, StoreRef};
use std::alloc::Global;
use wal_index::Room;

/// Deletes a key of a file that hasn't stopped, and answers the number that its deletion draws. Refused are a reference for
/// reading, a key that hasn't 1 to 3,500 bytes, a store that isn't there, a worn number, a key without a document and a full
/// file, in this order; then want of memory, and a host that fails, which stops the file.
pub fn delete<H: Host>(
    alloc: Global,
    parts: &mut Parts<H>,
    at: &StoreRef,
    key: &[u8],
) -> Result<u64, Refusal>
    ensures answers { DeleteAnswers H.tells at.now key.now (moment parts.old) (moment parts.new) result }
    ensures keeps { Keeps H.tells (moment parts.old) (moment parts.new) result }
{
    let numbers = may_delete(parts, at, key)?;
    delete_free(alloc, parts, at, numbers, key)
}

// Whether a key with this newest entry has a document.
pub(crate) fn is_living(newest: Option<Entry>) -> bool
    ensures { result ≡ is_live newest }
{
    match newest {
        Some(entry) => entry.live,
        None => false,
    }
}

// The number of a store and its count of documents, where a key of it may be deleted.
fn may_delete<H: Host>(parts: &Parts<H>, at: &StoreRef, key: &[u8]) -> Result<(u64, u64), Refusal>
    ensures refused { result_err result ≡ first_cause (delete_causes (held parts.now) at.now key.now) }
    ensures seq { IfOk result (λ n. n.0 ≡ seq_in parts.now.names.rows at.now.store) }
    ensures documents { IfOk result (λ n. n.1 ≡ documents_in parts.now.names.rows at.now.store) }
    ensures no_fault { result ≢ Err Refusal.DiskFault }
{
    if at.read_only {
        return Err(Refusal::ReadOnly);
    }
    if is_wrong_key(key) {
        return Err(Refusal::KeyLength);
    }
    let Some((seq, documents)) = parts.names.numbers(at.store) else {
        return Err(Refusal::NoStore);
    };
    if is_next_worn(seq) || is_next_worn(parts.place) {
        return Err(Refusal::Worn);
    }
    if !is_living(parts.wal.get(at.store, key)) {
        return Err(Refusal::NotFound);
    }
    let needed = parts.tail.needed(record_len(key, &[], &[]));
    if is_full(parts.blocks, needed, parts.limits.max_blocks) {
        return Err(Refusal::FileFull {
            used: parts.blocks,
            needed,
            max: parts.limits.max_blocks,
        });
    }
    Ok((seq, documents))
}

// Deletes a key where nothing is against it.
fn delete_free<H: Host>(
    alloc: Global,
    parts: &mut Parts<H>,
    at: &StoreRef,
    numbers: (u64, u64),
    key: &[u8],
) -> Result<u64, Refusal>
    requires free { first_cause (delete_causes (held parts.old) at.now key.now) ≡ None }
    requires seq { numbers.0 ≡ seq_in parts.old.names.rows at.now.store }
    requires documents { numbers.1 ≡ documents_in parts.old.names.rows at.now.store }
    ensures gives { DeleteGives H.tells at.now key.now (moment parts.old) (moment parts.new) result }
    ensures keeps { Keeps H.tells (moment parts.old) (moment parts.new) result }
{
    let seq = numbers.0 + 1;
    let len = record_len(key, &[], &[]);
    let rec = record_of(alloc, 2, at.store, seq, key, &[], &[])?;
    let room = parts.wal.room(key, 1)?;
    let address = append(alloc, parts, &rec, len)?;
    let entry = Entry {
        seq,
        address,
        live: false,
        len,
    };
    enter_deletion(parts, at.store, room, entry, numbers.1);
    Ok(seq)
}

// Makes a deletion whose record was put known to the index, the table and the counts.
fn enter_deletion<H: Host>(
    parts: &mut Parts<H>,
    store: u64,
    room: Room,
    entry: Entry,
    documents: u64,
)
    requires there { is_some (row_with_id parts.old.names.rows store) ≡ true }
    requires room { 1 ≤ parts.old.wal.room }
    requires place { parts.old.place + 1 < 2 ^ 62 }
    ensures entries { parts.new.wal.entries ≡ finite.insert parts.old.wal.entries (key_at store room) entry }
    ensures gone { parts.new.wal.gone ≡ parts.old.wal.gone }
    ensures rest { held parts.new ≡ record (held parts.old) {
      blocks = parts.old.tail.number;
      names = counted parts.old.names store entry.seq (documents - 1);
      wal = parts.new.wal;
      loose = length parts.old.tail.bytes;
      live = parts.old.live - live_len (finite.get parts.old.wal.entries (key_at store room));
      place = parts.old.place + 1;
    } }
    ensures outside { Outside parts.old parts.new }
{
    let gone = len_of_living(parts.wal.put(store, room, entry));
    parts.live = parts.live.saturating_sub(gone);
    parts
        .names
        .count(store, entry.seq, documents.saturating_sub(1));
    advance(parts);
}

// The bytes of a key's record, where its newest entry sets it.
pub(crate) fn len_of_living(newest: Option<Entry>) -> u64
    ensures { result ≡ live_len newest }
{
    match newest {
        Some(entry) if entry.live => entry.len,
        _ => 0,
    }
}
