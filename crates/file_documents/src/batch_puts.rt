ghost use Rattle.std.specs.Prelude.{◌≡◌, ◌≢◌, ◌⊎◌, ◌≤◌, ◌<◌, ◌+◌, ◌^◌, false, true, [], length, IsTrue, is_some, Err, IfOk, OnOk, OnErr};
ghost use Rattle.std.specs.FinMap as finite;
ghost use Rattle.std.specs.List.{list_any};
ghost use Rattle.forest_model.specs.Records.{is_record};
ghost use Rattle.forest_model.specs.Documents.{key_at};
ghost use Rattle.forest_model.specs.Limits as limits;
ghost use Rattle.forest_model.specs.declared.refusal.Refusal.TheVariants as Refusal;
ghost use Rattle.kvs_names.specs.Table.{row_with_id, counted};
ghost use Rattle.file_documents.specs.Batching.{item_record};
ghost use Rattle.file_documents.specs.BatchPuts.{PutsAll, IsPut, documents_known, entry_put, known_after, known_from, live_known};
ghost use Rattle.file_parts.specs.Held.{held};
ghost use Rattle.file_parts.specs.Keeping.{Outside};

use crate::deleting::len_of_living;
use crate::items::{item_len, items_len};
use crate::setting::{documents_with, live_with};
use block_host::{Block, Host};
use doc_stream::Tail;
use file_parts::{MOST_BLOCKS, Parts, advance, record_of};
use forest_model::{Entry, Item, Rec, Refusal};
use std::alloc::Global;
use wal_index::{Room, WalIndex};

/// A number that a store draws.
#[derive(Clone, Copy)]
pub(crate) struct Drawn {
    pub(crate) store: u64,
    pub(crate) seq: u64,
}

/// An entry whose record is put, with the memory to make it known.
#[derive(Drop)]
pub(crate) struct Pending {
    room: Room,
    entry: Entry,
}

/// What the records of a batch are put with: the open block behind them, the blocks that filled, and the entries to be
/// made known.
#[derive(Drop)]
pub(crate) struct Batched {
    pub(crate) tail: Tail,
    pub(crate) out: Vec<Block>,
    pub(crate) pending: Vec<Pending>,
}

// The record of an item.
fn record_for(alloc: Global, store: u64, seq: u64, item: &Item) -> Result<Rec, Refusal>
    requires key { limits.has_wrong_key item.now ≡ false }
    requires body { limits.has_wrong_body item.now ≡ false }
    ensures record { IfOk result (λ rec. rec ≡ item_record store seq item.now) }
    ensures is_record { IfOk result (λ rec. IsTrue (is_record rec)) }
    ensures memory { OnErr result (result ≡ Err Refusal.NoMemory) }
{
    match item {
        Item::Put { key, meta, body } => record_of(
            alloc,
            1,
            store,
            seq,
            key.as_slice(),
            meta.as_slice(),
            body.as_slice(),
        ),
        Item::Del { key } => record_of(alloc, 2, store, seq, key.as_slice(), &[], &[]),
    }
}

// The entry of an item whose record is put at an address.
fn entry_for(item: &Item, seq: u64, address: u64) -> Entry
    requires key { limits.has_wrong_key item.now ≡ false }
    requires body { limits.has_wrong_body item.now ≡ false }
    ensures entry { result ≡ entry_put address seq item.now }
    ensures small { result.len ≤ 2 ^ 21 }
{
    let len = item_len(item);
    match item {
        Item::Put { .. } => Entry {
            seq,
            address,
            live: true,
            len,
        },
        Item::Del { .. } => Entry {
            seq,
            address,
            live: false,
            len,
        },
    }
}

// Puts the record of an item behind those before it, and takes the memory of its entry, after which the index has room for
// so many puts.
fn put_item(
    alloc: Global,
    tail: &mut Tail,
    wal: &mut WalIndex,
    out: &mut Vec<Block>,
    revision: u64,
    at: Drawn,
    item: &Item,
    spare: u64,
) -> Result<Pending, Refusal>
    requires key { limits.has_wrong_key item.now ≡ false }
    requires body { limits.has_wrong_body item.now ≡ false }
    requires low { tail.old.number ≤ 2 ^ 40 }
    ensures put { IfOk result (λ pending. IsPut revision at.store at.seq item.now pending tail.old tail.new out.old.items out.new.items) }
    ensures grown { OnOk result (tail.new.number ≤ tail.old.number + 1024) }
    ensures room { OnOk result (spare ≤ wal.new.room) }
    ensures entries { wal.new.entries ≡ wal.old.entries }
    ensures gone { wal.new.gone ≡ wal.old.gone }
    ensures memory { OnErr result (result ≡ Err Refusal.NoMemory) }
{
    let rec = record_for(alloc, at.store, at.seq, item)?;
    let room = wal.room(rec.key.as_slice(), spare)?;
    let entry = entry_for(item, at.seq, tail.address());
    tail.put(&rec, revision, out)?;
    Ok(Pending { room, entry })
}

// Puts the records of items one behind another, at the numbers behind this one.
fn put_items(
    alloc: Global,
    tail: &mut Tail,
    wal: &mut WalIndex,
    out: &mut Vec<Block>,
    revision: u64,
    at: Drawn,
    items: &[Item],
) -> Result<Vec<Pending>, Refusal>
    requires few { length items.now ≤ 1024 }
    requires keys { list_any limits.has_wrong_key items.now ≡ false }
    requires bodies { list_any limits.has_wrong_body items.now ≡ false }
    requires low { tail.old.number ≤ 2 ^ 32 }
    requires seq { at.seq + length items.now < 2 ^ 62 }
    ensures put { IfOk result (λ pending. PutsAll revision at.store at.seq items.now pending.items tail.old tail.new out.old.items out.new.items) }
    ensures room { OnOk result (length items.now ≤ wal.new.room) }
    ensures entries { wal.new.entries ≡ wal.old.entries }
    ensures gone { wal.new.gone ≡ wal.old.gone }
    ensures memory { OnErr result (result ≡ Err Refusal.NoMemory) }
{
    let spare = items.len() as u64;
    let mut pending = Vec::with_capacity(alloc, items.len())?;
    let mut last = at.seq;
    for item in items {
        last += 1;
        let next = put_item(
            alloc,
            tail,
            wal,
            out,
            revision,
            Drawn {
                store: at.store,
                seq: last,
            },
            item,
            spare,
        )?;
        pending.push(next)?;
    }
    Ok(pending)
}

// Takes all memory of a batch, and puts its records behind a copy of the open block, at the numbers behind this one.
pub(crate) fn put_batch(
    alloc: Global,
    tail: &Tail,
    wal: &mut WalIndex,
    revision: u64,
    at: Drawn,
    items: &[Item],
) -> Result<Batched, Refusal>
    requires few { length items.now ≤ 1024 }
    requires keys { list_any limits.has_wrong_key items.now ≡ false }
    requires bodies { list_any limits.has_wrong_body items.now ≡ false }
    requires seq { at.seq + length items.now < 2 ^ 62 }
    ensures put { IfOk result (λ b. PutsAll revision at.store at.seq items.now b.pending.items tail.now b.tail [] b.out.items) }
    ensures room { OnOk result (length items.now ≤ wal.new.room) }
    ensures entries { wal.new.entries ≡ wal.old.entries }
    ensures gone { wal.new.gone ≡ wal.old.gone }
    ensures memory { OnErr result ((result ≡ Err Refusal.NoMemory) ⊎ (2 ^ 32 < tail.now.number)) }
    ensures no_fault { result ≢ Err Refusal.DiskFault }
{
    if tail.number() > MOST_BLOCKS {
        return Err(Refusal::FileFull {
            used: tail.number(),
            needed: tail.needed(items_len(items)),
            max: MOST_BLOCKS,
        });
    }
    let mut copy = tail.copy()?;
    let mut out = Vec::new(alloc);
    let pending = put_items(alloc, &mut copy, wal, &mut out, revision, at, items)?;
    Ok(Batched {
        tail: copy,
        out,
        pending,
    })
}

// The bytes of live records, once an entry is known in the place of an older one.
fn live_now(older: Option<Entry>, entry: Entry, live: u64) -> u64
    ensures { result ≡ live_known older entry live }
{
    if entry.live {
        live_with(older, live, entry.len)
    } else {
        live.saturating_sub(len_of_living(older))
    }
}

// The count of documents of the store, likewise.
fn documents_now(older: Option<Entry>, entry: Entry, documents: u64) -> u64
    ensures { result ≡ documents_known older entry documents }
{
    if entry.live {
        documents_with(older, documents)
    } else {
        documents.saturating_sub(1)
    }
}

// Makes an entry known to the index and the counts, and answers the count of documents.
fn enter_one(
    wal: &mut WalIndex,
    live: &mut u64,
    store: u64,
    pending: Pending,
    documents: u64,
) -> u64
    requires room { 1 ≤ wal.old.room }
    ensures entries { wal.new.entries ≡ finite.insert wal.old.entries (key_at store pending.room) pending.entry }
    ensures gone { wal.new.gone ≡ wal.old.gone }
    ensures room { wal.new.room + 1 ≡ wal.old.room }
    ensures live { live.new ≡ live_known (finite.get wal.old.entries (key_at store pending.room)) pending.entry live.old }
    ensures documents { result ≡ documents_known (finite.get wal.old.entries (key_at store pending.room)) pending.entry documents }
{
    let Pending { room, entry } = pending;
    let older = wal.put(store, room, entry);
    *live = live_now(older, entry, *live);
    documents_now(older, entry, documents)
}

// Makes the entries of items known, one after another, and answers the count of documents.
fn enter_each(
    wal: &mut WalIndex,
    live: &mut u64,
    store: u64,
    pending: Vec<Pending>,
    documents: u64,
) -> u64
    requires { length pending.items ≤ wal.old.room }
    ensures known { known_from wal.new.entries result live.new ≡ known_after store (known_from wal.old.entries documents live.old) pending.items }
    ensures gone { wal.new.gone ≡ wal.old.gone }
{
    let mut count = documents;
    for next in pending {
        count = enter_one(wal, live, store, next, count);
    }
    count
}

// Makes a batch whose records were put known to the open block, the index, the table and the counts.
pub(crate) fn enter_batch<H: Host>(
    parts: &mut Parts<H>,
    at: Drawn,
    tail: Tail,
    pending: Vec<Pending>,
    documents: u64,
)
    requires there { is_some (row_with_id parts.old.names.rows at.store) ≡ true }
    requires room { length pending.items ≤ parts.old.wal.room }
    requires place { parts.old.place + 1 < 2 ^ 62 }
    ensures entries { parts.new.wal.entries ≡ (known_after at.store (known_from parts.old.wal.entries documents parts.old.live) pending.items).entries }
    ensures gone { parts.new.wal.gone ≡ parts.old.wal.gone }
    ensures rest { let known = known_after at.store (known_from parts.old.wal.entries documents parts.old.live) pending.items in
        held parts.new ≡ record (held parts.old) {
          blocks = tail.number;
          names = counted parts.old.names at.store at.seq known.documents;
          wal = parts.new.wal;
          tail = tail;
          loose = length tail.bytes;
          live = known.live;
          place = parts.old.place + 1;
        } }
    ensures outside { Outside parts.old parts.new }
{
    let count = enter_each(
        &mut parts.wal,
        &mut parts.live,
        at.store,
        pending,
        documents,
    );
    parts.names.count(at.store, at.seq, count);
    parts.tail = tail;
    advance(parts);
}
