ghost use Rattle.std.specs.Prelude.{◌≡◌, ◌⊎◌, ◌≤◌, ◌<◌, ◌-◌, ◌+◌, ◌/◌, ◌%◌, ◌^◌, ◌++◌, ℕ, List, [], ◌∷◌, length, Some, None, IsTrue, IfOk, IfErr, OnOk, Ok, Err, ◌≢◌};
ghost use Rattle.forest_model.specs.declared.refusal.Refusal.TheVariants as Refusal;
ghost use Rattle.forest_model.specs.declared.stored.Rec.{Rec};
ghost use Rattle.doc_stream.specs.Causes.{BreaksRecord, BreaksRecords, Cause, Missing, Reason, longest_run};
ghost use Rattle.doc_stream.specs.Broken.{piece_at};
ghost use Rattle.doc_stream.specs.Memory.{HasHeadAt, HasHeadBehind};
ghost use Rattle.doc_stream.specs.Reading.{RecordAt};
ghost use Rattle.doc_stream.specs.Runs.{RecordsOf};
ghost use Rattle.doc_stream.specs.Scans.{BreaksRest, IsAhead, Scans, StartsFrom, still};
ghost use Rattle.doc_stream.specs.Shown.{Shows, Unsealed, open_file, range_of};
ghost use Rattle.doc_stream.specs.Sources.{asked_of};
ghost use Rattle.doc_stream.specs.Steps.{in_hand};
ghost use Rattle.doc_stream.specs.Unasked.{IsShort};

use crate::Tail;
use crate::reader::{Reader, Source};
use block_host::View;
use forest_model::{Rec, Recs, Refusal};
use std::alloc::Global;

/// The records in the record blocks of a file's revision from block `from` up to, not including, `to`, in order, each with
/// its address. Blocks of other kinds are passed over. An empty range asks nothing, and memory is taken only behind a whole
/// head.
pub fn scan<V: View>(
    alloc: Global,
    view: &mut V,
    rev: u64,
    from: u64,
    to: u64,
) -> Result<Recs, Refusal>
    requires { to ≤ 2 ^ 41 }
    ensures records { IsTrue V.tells → IfOk result (λ records. RecordsOf rev (V.content view.old) from (to - from) records) }
    ensures exact { IsTrue V.tells → (records : List (ℕ × Rec)) → RecordsOf rev (V.content view.old) from (to - from) records → (result ≡ Ok records) ⊎ (result ≡ Err Refusal.NoMemory) ⊎ (result ≡ Err Refusal.DiskFault) }
    ensures asked { (file block : ℕ) → result ≡ Err (Refusal.Damaged file block) → (file ≡ rev) × (from ≤ block) × (block < to) }
    ensures first { IsTrue V.tells → from < to → Unsealed (range_of rev to) (V.content view.old) from → (result ≡ Err (Refusal.Damaged rev from)) ⊎ (result ≡ Err Refusal.DiskFault) }
    ensures empty { to ≤ from → (result ≡ Ok []) × (view.new ≡ view.old) }
    ensures no_records { IsTrue V.tells → RecordsOf rev (V.content view.old) from (to - from) [] → (result ≡ Ok []) ⊎ (result ≡ Err Refusal.DiskFault) }
    ensures memory { IsTrue V.tells → result ≡ Err Refusal.NoMemory → HasHeadBehind rev to (V.content view.old) [] from }
    ensures reason { IfErr result (Reason V.tells rev (BreaksRecords rev (V.content view.old) from (to - from)) (V.faults view.old) (V.faults view.new)) }
    ensures content { IsTrue V.tells → V.content view.new ≡ V.content view.old }
    ensures counts { V.faults view.old ≤ V.faults view.new }
    ensures untroubled { result ≢ Err Refusal.DiskFault → V.faults view.new ≡ V.faults view.old }
{
    let source = Source {
        revision: rev,
        tail: None,
        end: to,
    };
    let mut reader = Reader::new(from);
    let mut records = Recs::new(alloc);
    while reader.next() < to || reader.has_bytes() {
        step(alloc, view, &source, &mut reader, &mut records)?;
    }
    Ok(records)
}

// Puts the next record of a range behind the others; where the block in hand has no bytes left, goes on to the next one.
fn step<V: View>(
    alloc: Global,
    view: &mut V,
    source: &Source,
    reader: &mut Reader,
    records: &mut Recs,
) -> Result<(), Refusal>
    requires range { (asked_of source.now).tail ≡ None }
    requires end { source.now.end ≤ 2 ^ 41 }
    requires some { (reader.old.next < source.now.end) ⊎ (1 ≤ length reader.old.bytes) }
    requires ready { 1 ≤ length reader.old.bytes → (1 ≤ reader.old.next) × (reader.old.next ≤ source.now.end) }
    ensures ready { OnOk result (1 ≤ length reader.new.bytes → reader.new.next ≤ source.now.end) }
    ensures advanced { OnOk result (1 ≤ length reader.new.bytes → (reader.old.next < reader.new.next) ⊎ (1 ≤ length reader.old.bytes)) }
    ensures later { OnOk result (reader.old.next ≤ reader.new.next) }
    ensures less { OnOk result (still source.now.end reader.new < still source.now.end reader.old) }
    ensures scanned { IsTrue V.tells → OnOk result ((done : List (ℕ × Rec)) × (records.new ≡ records.old ++ done) × Scans (asked_of source.now) (V.content view.old) reader.old reader.new done) }
    ensures shown { IsTrue V.tells → OnOk result (length reader.old.bytes ≡ 0 → (kind : ℕ) × (payload : List ℕ) × Shows source.now.revision (asked_of source.now).tail (V.content view.old) reader.old.next kind payload) }
    ensures head { IsTrue V.tells → result ≡ Err Refusal.NoMemory → HasHeadBehind source.now.revision source.now.end (V.content view.old) (in_hand reader.old ∷ []) reader.old.next }
    ensures memory { length reader.old.bytes ≡ 0 → IfErr result (λ why. (why ≡ Refusal.DiskFault) ⊎ (why ≡ Refusal.Damaged source.now.revision reader.old.next)) }
    ensures reason { IfErr result (Cause V.tells source.now.revision (IsAhead (asked_of source.now) reader.old) (BreaksRest (asked_of source.now) (V.content view.old) reader.old) (V.faults view.old) (V.faults view.new)) }
    ensures content { IsTrue V.tells → V.content view.new ≡ V.content view.old }
    ensures counts { V.faults view.old ≤ V.faults view.new }
    ensures untroubled { result ≢ Err Refusal.DiskFault → V.faults view.new ≡ V.faults view.old }
{
    if !reader.has_bytes() {
        reader.load(view, source)?;
        return Ok(());
    }
    let address = reader.address();
    let record = reader.record(alloc, view, source)?;
    records.push((address, record))?;
    Ok(())
}

/// The record at an address of a file's revision, which may lie in whole or in part in the open block. One that begins there
/// asks nothing of the view, and memory is taken only behind a whole head.
pub fn read<V: View>(
    alloc: Global,
    view: &mut V,
    tail: &Tail,
    rev: u64,
    address: u64,
) -> Result<Rec, Refusal>
    ensures record { IsTrue V.tells → IfOk result (RecordAt rev (V.content view.old) tail.now address) }
    ensures exact { IsTrue V.tells → (rec : Rec) → RecordAt rev (V.content view.old) tail.now address rec → (result ≡ Ok rec) ⊎ (result ≡ Err Refusal.NoMemory) ⊎ (result ≡ Err Refusal.DiskFault) }
    ensures asked { (file block : ℕ) → result ≡ Err (Refusal.Damaged file block) → (file ≡ rev) × (address / 4096 ≤ block) × (block ≤ address / 4096 + longest_run) }
    ensures first { IsTrue V.tells → Unsealed (open_file rev tail.now) (V.content view.old) (address / 4096) → (result ≡ Err (Refusal.Damaged rev (address / 4096))) ⊎ (result ≡ Err Refusal.DiskFault) }
    ensures here { address / 4096 ≡ tail.now.number → (view.new ≡ view.old) × (result ≢ Err Refusal.DiskFault) }
    ensures memory { IsTrue V.tells → result ≡ Err Refusal.NoMemory → HasHeadAt (open_file rev tail.now) (V.content view.old) address }
    ensures reason { IfErr result (Reason V.tells rev (BreaksRecord rev (V.content view.old) tail.now address) (V.faults view.old) (V.faults view.new)) }
    ensures content { IsTrue V.tells → V.content view.new ≡ V.content view.old }
    ensures counts { V.faults view.old ≤ V.faults view.new }
    ensures untroubled { result ≢ Err Refusal.DiskFault → V.faults view.new ≡ V.faults view.old }
{
    let source = Source {
        revision: rev,
        tail: Some(tail),
        end: 0,
    };
    let mut reader = Reader::new(address / 4096);
    go_to(view, &source, tail, address, &mut reader)?;
    let record = reader.record(alloc, view, &source)?;
    Ok(record)
}

// Sets a reader that stands before the block of an address on that address.
fn go_to<V: View>(
    view: &mut V,
    source: &Source,
    tail: &Tail,
    address: u64,
    reader: &mut Reader,
) -> Result<(), Refusal>
    requires open_block { (asked_of source.now).tail ≡ Some tail.now }
    requires end { source.now.end ≡ 0 }
    requires at { reader.old.next ≡ address / 4096 }
    ensures next { OnOk result ((1 ≤ reader.new.next) × (reader.new.next ≤ 2 ^ 52)) }
    ensures place { OnOk result ((reader.new.next ≡ address / 4096 + 1) × (reader.new.offset < 4064)) }
    ensures shown { IsTrue V.tells → OnOk result ((payload : List ℕ) × Shows source.now.revision (asked_of source.now).tail (V.content view.old) (address / 4096) 1 payload × (address % 4096 < length payload) × (in_hand reader.new ≡ piece_at address payload)) }
    ensures here { address / 4096 ≡ tail.now.number → (view.new ≡ view.old) × (result ≢ Err Refusal.DiskFault) × OnOk result (IsShort reader.new) }
    ensures starts { IsTrue V.tells → OnOk result (StartsFrom (asked_of source.now) (V.content view.old) tail.now address reader.new) }
    ensures missing { IfErr result (Missing V.tells source.now.revision (address / 4096) (BreaksRecord source.now.revision (V.content view.old) tail.now address (address / 4096)) (V.faults view.old) (V.faults view.new)) }
    ensures content { IsTrue V.tells → V.content view.new ≡ V.content view.old }
    ensures counts { V.faults view.old ≤ V.faults view.new }
    ensures untroubled { result ≢ Err Refusal.DiskFault → V.faults view.new ≡ V.faults view.old }
{
    if !reader.load(view, source)? {
        return Err(reader.damaged(source));
    }
    let offset = (address % 4096) as usize;
    if reader.left() <= offset {
        return Err(reader.damaged(source));
    }
    reader.skip(offset);
    Ok(())
}
