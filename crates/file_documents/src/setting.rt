ghost use Rattle.std.specs.Prelude.{◌≡◌, ◌≢◌, ◌≤◌, ◌<◌, ◌+◌, ◌^◌, length, true, false, is_some, Some, None, Ok, Err, IfOk};
ghost use Rattle.std.specs.FinMap as finite;
ghost use Rattle.std.specs.Result.{result_err};
ghost use Rattle.forest_model.specs.Documents.{key_at};
ghost use Rattle.forest_model.specs.Limits as limits;
ghost use Rattle.forest_model.specs.Step.{first_cause, record_length};
ghost use Rattle.forest_model.specs.declared.refusal.Refusal.TheVariants as Refusal;
ghost use Rattle.kvs_names.specs.Table.{row_with_id, counted};
ghost use Rattle.file_parts.specs.Held.{held};
ghost use Rattle.file_parts.specs.Causes.{seq_in, documents_in};
ghost use Rattle.file_documents.specs.Setting.{documents_after, live_after, set_causes, SetGives, SetAnswers};
ghost use Rattle.file_parts.specs.Moment.{moment};
ghost use Rattle.file_parts.specs.Keeping.{Keeps, Outside};

use block_host::Host;
use file_parts::{Parts, advance, append, is_full, is_next_worn, is_wrong_key, record_of};
use forest_model::{Entry, Refusal, StoreRef};
use std::alloc::Global;
use wal_index::Room;

/// Sets a key of a file that hasn't stopped, and answers the number that its document draws. Refused are a reference for
/// reading, a key that hasn't 1 to 3,500 bytes, more than 255 bytes of meta or 1,048,576 of body, a store that isn't there, a
/// worn number and a full file, in this order; then want of memory, and a host that fails, which stops the file.
pub fn set<H: Host>(
    alloc: Global,
    parts: &mut Parts<H>,
    at: &StoreRef,
    key: &[u8],
    meta: &[u8],
    body: &[u8],
) -> Result<u64, Refusal>
    ensures answers { SetAnswers H.tells at.now key.now meta.now body.now (moment parts.old) (moment parts.new) result }
    ensures keeps { Keeps H.tells (moment parts.old) (moment parts.new) result }
{
    let numbers = may_set(parts, at, key, meta, body)?;
    set_free(alloc, parts, at, numbers, key, meta, body)
}

// The number of a store and its count of documents, where a key of it may be set.
fn may_set<H: Host>(
    parts: &Parts<H>,
    at: &StoreRef,
    key: &[u8],
    meta: &[u8],
    body: &[u8],
) -> Result<(u64, u64), Refusal>
    ensures refused { result_err result ≡ first_cause (set_causes (held parts.now) at.now key.now meta.now body.now) }
    ensures seq { IfOk result (λ n. n.0 ≡ seq_in parts.now.names.rows at.now.store) }
    ensures documents { IfOk result (λ n. n.1 ≡ documents_in parts.now.names.rows at.now.store) }
    ensures no_fault { result ≢ Err Refusal.DiskFault }
{
    if at.read_only {
        return Err(Refusal::ReadOnly);
    }
    if is_wrong_key(key) {
        return Err(Refusal::KeyLength);
    }
    if is_wrong_body(meta, body) {
        return Err(Refusal::BodyLength);
    }
    let Some((seq, documents)) = parts.names.numbers(at.store) else {
        return Err(Refusal::NoStore);
    };
    if is_next_worn(seq) || is_next_worn(parts.place) {
        return Err(Refusal::Worn);
    }
    let needed = parts.tail.needed(record_len(key, meta, body));
    if is_full(parts.blocks, needed, parts.limits.max_blocks) {
        return Err(Refusal::FileFull {
            used: parts.blocks,
            needed,
            max: parts.limits.max_blocks,
        });
    }
    Ok((seq, documents))
}

pub(crate) fn is_wrong_body(meta: &[u8], body: &[u8]) -> bool
    ensures { result ≡ limits.is_wrong_body meta.now body.now }
{
    meta.len() > 255 || body.len() > 1_048_576
}

// How many bytes a record has.
pub(crate) fn record_len(key: &[u8], meta: &[u8], body: &[u8]) -> u64
    requires key { limits.is_wrong_key key.now ≡ false }
    requires body { limits.is_wrong_body meta.now body.now ≡ false }
    ensures value { result ≡ record_length key.now meta.now body.now }
    ensures small { result ≤ 2 ^ 21 }
{
    24 + key.len() as u64 + meta.len() as u64 + body.len() as u64
}

// Sets a key where nothing is against it.
fn set_free<H: Host>(
    alloc: Global,
    parts: &mut Parts<H>,
    at: &StoreRef,
    numbers: (u64, u64),
    key: &[u8],
    meta: &[u8],
    body: &[u8],
) -> Result<u64, Refusal>
    requires free { first_cause (set_causes (held parts.old) at.now key.now meta.now body.now) ≡ None }
    requires seq { numbers.0 ≡ seq_in parts.old.names.rows at.now.store }
    requires documents { numbers.1 ≡ documents_in parts.old.names.rows at.now.store }
    ensures gives { SetGives H.tells at.now key.now meta.now body.now (moment parts.old) (moment parts.new) result }
    ensures keeps { Keeps H.tells (moment parts.old) (moment parts.new) result }
{
    let seq = numbers.0 + 1;
    let len = record_len(key, meta, body);
    let rec = record_of(alloc, 1, at.store, seq, key, meta, body)?;
    let room = parts.wal.room(key, 1)?;
    let address = append(alloc, parts, &rec, len)?;
    let entry = Entry {
        seq,
        address,
        live: true,
        len,
    };
    enter(parts, at.store, room, entry, numbers.1);
    Ok(seq)
}

// Makes a document whose record was put known to the index, the table and the counts.
fn enter<H: Host>(parts: &mut Parts<H>, store: u64, room: Room, entry: Entry, documents: u64)
    requires there { is_some (row_with_id parts.old.names.rows store) ≡ true }
    requires room { 1 ≤ parts.old.wal.room }
    requires place { parts.old.place + 1 < 2 ^ 62 }
    ensures entries { parts.new.wal.entries ≡ finite.insert parts.old.wal.entries (key_at store room) entry }
    ensures gone { parts.new.wal.gone ≡ parts.old.wal.gone }
    ensures rest { held parts.new ≡ record (held parts.old) {
      blocks = parts.old.tail.number;
      names = counted parts.old.names store entry.seq (documents_after (finite.get parts.old.wal.entries (key_at store room)) documents);
      wal = parts.new.wal;
      loose = length parts.old.tail.bytes;
      live = live_after (finite.get parts.old.wal.entries (key_at store room)) parts.old.live entry.len;
      place = parts.old.place + 1;
    } }
    ensures outside { Outside parts.old parts.new }
{
    let older = parts.wal.put(store, room, entry);
    parts.live = live_with(older, parts.live, entry.len);
    parts
        .names
        .count(store, entry.seq, documents_with(older, documents));
    advance(parts);
}

// The bytes of live records, once a key with this older entry has a record of so many bytes.
pub(crate) fn live_with(older: Option<Entry>, live: u64, len: u64) -> u64
    ensures { result ≡ live_after older live len }
{
    let gone = match older {
        Some(entry) if entry.live => entry.len,
        _ => 0,
    };
    live.saturating_sub(gone).saturating_add(len)
}

// The count of documents of a store, once a key with this older entry has a document.
pub(crate) fn documents_with(older: Option<Entry>, documents: u64) -> u64
    ensures { result ≡ documents_after older documents }
{
    match older {
        Some(entry) if entry.live => documents,
        _ => documents.saturating_add(1),
    }
}
