ghost use Rattle.std.specs.Prelude.{◌≡◌, ◌≤◌, ◌<◌, ◌+◌, ◌^◌, length, IsTrue, Err, IfOk, IfErr, OnOk, OnErr};
ghost use Rattle.doc_stream.specs.OpenBlock.{address_of};
ghost use Rattle.forest_model.specs.Records.{is_record, record_bytes};
ghost use Rattle.file_parts.specs.Held.{held};
ghost use Rattle.file_parts.specs.Moment.{moment};
ghost use Rattle.file_parts.specs.Keeping.{Keeps, Outside};
ghost use Rattle.file_parts.specs.Records.{PutsRecord, NotPut};
ghost use Rattle.forest_model.specs.declared.refusal.Refusal.TheVariants as Refusal;

use crate::Parts;
use crate::writes::{MOST_BLOCKS, put_records};
use block_host::Host;
use forest_model::{Bytes, Rec, Refusal};
use std::alloc::Global;

/// A record of these parts, which it has copies of.
pub fn record_of(
    alloc: Global,
    kind: u8,
    store: u64,
    seq: u64,
    key: &[u8],
    meta: &[u8],
    body: &[u8],
) -> Result<Rec, Refusal>
    ensures record { IfOk result (λ rec. rec ≡ record { kind = kind; store = store; seq = seq; key = key.now; meta = meta.now; body = body.now }) }
    ensures memory { OnErr result (result ≡ Err Refusal.NoMemory) }
{
    Ok(Rec {
        kind,
        store,
        seq,
        key: Bytes::copy_of(alloc, key)?,
        meta: Bytes::copy_of(alloc, meta)?,
        body: Bytes::copy_of(alloc, body)?,
    })
}

/// Puts a record of so many bytes into the open block and the blocks that fill into the file, and answers its address. The
/// memory for these blocks is taken first; a host that fails stops the file.
pub fn append<H: Host>(
    alloc: Global,
    parts: &mut Parts<H>,
    rec: &Rec,
    len: u64,
) -> Result<u64, Refusal>
    requires is_record { IsTrue (is_record rec.now) }
    requires len { len ≡ length (record_bytes rec.now) }
    requires small { len ≤ 2 ^ 21 }
    ensures address { IfOk result (λ address. address ≡ address_of parts.old.tail.number (length parts.old.tail.bytes)) }
    ensures puts { OnOk result (PutsRecord H.tells rec.now (moment parts.old) (moment parts.new)) }
    ensures rest { OnOk result (held parts.new ≡ record (held parts.old) { tail = parts.new.tail }) }
    ensures refused { IfErr result (NotPut (moment parts.old) (moment parts.new)) }
    ensures keeps { Keeps H.tells (moment parts.old) (moment parts.new) result }
{
    if parts.tail.number() > MOST_BLOCKS {
        return Err(Refusal::FileFull {
            used: parts.tail.number(),
            needed: parts.tail.needed(len),
            max: MOST_BLOCKS,
        });
    }
    let mut out = Vec::new(alloc);
    let address = parts.tail.put(rec, parts.revision, &mut out)?;
    put_records(parts, out.as_slice())?;
    Ok(address)
}

/// Goes on one place, behind the records that were put.
pub fn advance<H: Host>(parts: &mut Parts<H>)
    requires place { parts.old.place + 1 < 2 ^ 62 }
    ensures rest { held parts.new ≡ record (held parts.old) {
      blocks = parts.old.tail.number;
      loose = length parts.old.tail.bytes;
      place = parts.old.place + 1;
    } }
    ensures outside { Outside parts.old parts.new }
{
    parts.blocks = parts.tail.number();
    parts.loose = parts.tail.address() % 4096;
    parts.place += 1;
}
