ghost use Rattle.std.specs.Prelude.{◌≡◌, ◌≢◌, ◌+◌, ◌-◌, ◌^◌, ◌<◌, ◌≤◌, true, false, ℕ, List, [], length, take, drop, ◌++◌, IsTrue, IfOk, IfErr, OnOk, MatchOption, Some, Ok, Err};
ghost use Rattle.forest_model.specs.declared.refusal.Refusal.TheVariants as Refusal;
ghost use Rattle.doc_stream.specs.Causes.{Cause, Missing};
ghost use Rattle.doc_stream.specs.OpenBlock.{address_of};
ghost use Rattle.doc_stream.specs.Sources.{asked_of};
ghost use Rattle.doc_stream.specs.Shown.{IsNotOpen, Stands, Unsealed};
ghost use Rattle.doc_stream.specs.Steps.{in_hand, IsNear, IsWithin, Loads, Moves, Stops, StopsRecord, Takes, TakesRecord, Turns};
ghost use Rattle.doc_stream.specs.Memory.{HasHead};
ghost use Rattle.doc_stream.specs.Unasked.{IsOpenAt, IsShort};
ghost use Rattle.forest_model.specs.Records as records;

use crate::Tail;
use crate::heads::{Head, has_form, head_in};
use block_host::{Block, View, unseal};
use forest_model::{Bytes, Rec, Refusal};
use std::alloc::Global;
use std::marker::Model;

// What is read: a revision of a file, with its open block, or else up to the end of a range.
#[derive(Drop)]
pub(crate) struct Source<'a> {
    pub(crate) revision: u64,
    pub(crate) tail: Option<&'a Tail>,
    pub(crate) end: u64,
}

impl<'a> Source<'a> {
    // The open block, if it has this number.
    fn open_at(&self, at: u64) -> Option<&'a Tail>
        ensures { MatchOption result (IsNotOpen (asked_of self.now).tail at) (λ tail. ((asked_of self.now).tail ≡ Some tail.now) × (tail.now.number ≡ at)) }
    {
        match self.tail {
            Some(tail) if tail.number() == at => Some(tail),
            _ => None,
        }
    }

    // Whether a range ends before this block.
    fn ends_at(&self, at: u64) -> bool
        requires { IsWithin (asked_of self.now).tail self.now.end at }
        ensures yes { IsTrue result → IsWithin (asked_of self.now).tail self.now.end (at + 1) → ⊥ }
        ensures later { (result ≡ false) → IsWithin (asked_of self.now).tail self.now.end (at + 1) }
    {
        self.tail.is_none() && at == self.end
    }
}

// The number of the next block, and the bytes in use of the one before it, of which those from an offset on are left.
#[derive(Drop)]
pub(crate) struct Reader {
    next: u64,
    offset: usize,
    used: usize,
    block: Block,
}

impl Model for Reader {
    ghost use Rattle.std.specs.Prelude.{◌≤◌, take, drop};
    ghost use Rattle.doc_stream.specs.Steps.{Place};

    ghost Value = { Place };

    ghost view = { λ r. record { next = r.next; offset = r.offset; bytes = drop r.offset (take r.used r.block.bytes) } };

    ghost invariant = { λ r. (r.offset ≤ r.used) × (r.used ≤ 4064) };
}

impl Reader {
    // Nothing in hand, before a block.
    pub(crate) fn new(next: u64) -> Reader
        ensures next { result.next ≡ next }
        ensures bytes { length result.bytes ≡ 0 }
    {
        Reader {
            next,
            offset: 0,
            used: 0,
            block: Block::zeros(),
        }
    }

    // Brings the next block into hand, if it has records, and answers whether it has.
    pub(crate) fn load<V: View>(&mut self, view: &mut V, source: &Source) -> Result<bool, Refusal>
        requires { self.old.next < 2 ^ 63 }
        ensures next { OnOk result (self.new.next ≡ self.old.next + 1) }
        ensures offset { OnOk result (self.new.offset ≡ 0) }
        ensures fits { OnOk result (length self.new.bytes ≤ 4064) }
        ensures loaded { IsTrue V.tells → IfOk result (Loads (asked_of source.now) (V.content view.old) self.old.next self.new) }
        ensures missing { IfErr result (Missing V.tells source.now.revision self.old.next (Unsealed (asked_of source.now) (V.content view.old) self.old.next) (V.faults view.old) (V.faults view.new)) }
        ensures here { IsOpenAt (asked_of source.now).tail self.old.next → (view.new ≡ view.old) × (result ≡ Ok true) × IsShort self.new }
        ensures content { IsTrue V.tells → V.content view.new ≡ V.content view.old }
        ensures counts { V.faults view.old ≤ V.faults view.new }
        ensures untroubled { result ≢ Err Refusal.DiskFault → V.faults view.new ≡ V.faults view.old }
    {
        let at = self.next;
        self.next += 1;
        self.offset = 0;
        self.used = 0;
        if let Some(tail) = source.open_at(at) {
            self.used = tail.copy_bytes(&mut self.block);
            return Ok(true);
        }
        let (kind, used) = fetch(view, &mut self.block, source.revision, at)?;
        if kind != 1 {
            return Ok(false);
        }
        self.used = used;
        Ok(true)
    }

    // Makes sure that there are bytes in hand, and goes on to the next block if the one before is full.
    fn turn<V: View>(&mut self, view: &mut V, source: &Source) -> Result<(), Refusal>
        requires first { 1 ≤ self.old.next }
        requires low { self.old.next < 2 ^ 63 }
        requires within { IsWithin (asked_of source.now).tail source.now.end self.old.next }
        ensures some { OnOk result (1 ≤ length self.new.bytes) }
        ensures moved { OnOk result (Moves (asked_of source.now) self.old self.new 1 0) }
        ensures turned { IsTrue V.tells → OnOk result (Turns (asked_of source.now) (V.content view.old) self.old self.new) }
        ensures reason { IfErr result (Cause V.tells source.now.revision (IsNear (asked_of source.now) self.old 1) (Stops (asked_of source.now) (V.content view.old) self.old 1) (V.faults view.old) (V.faults view.new)) }
        ensures short { IsShort self.old → (view.new ≡ view.old) × (result ≢ Err Refusal.DiskFault) }
        ensures memory { result ≢ Err Refusal.NoMemory }
        ensures content { IsTrue V.tells → V.content view.new ≡ V.content view.old }
        ensures counts { V.faults view.old ≤ V.faults view.new }
        ensures untroubled { result ≢ Err Refusal.DiskFault → V.faults view.new ≡ V.faults view.old }
    {
        if self.has_bytes() {
            return Ok(());
        }
        if !self.is_full() {
            return Err(self.damaged(source));
        }
        if source.ends_at(self.next()) {
            return Err(self.damaged(source));
        }
        if !self.load(view, source)? {
            return Err(self.damaged(source));
        }
        if !self.has_bytes() {
            return Err(self.damaged(source));
        }
        Ok(())
    }

    // The bytes that are left of the block in hand.
    fn rest(&self) -> &[u8]
        ensures bytes { result.now ≡ self.now.bytes }
        ensures fits { length self.now.bytes ≤ 4064 }
    {
        &self.block.bytes[self.offset..self.used]
    }

    pub(crate) fn has_bytes(&self) -> bool
        ensures yes { IsTrue result → 1 ≤ length self.now.bytes }
        ensures none { (result ≡ false) → self.now.bytes ≡ [] }
        ensures fits { length self.now.bytes ≤ 4064 }
    {
        !self.rest().is_empty()
    }

    // How many bytes are left of the block in hand.
    pub(crate) fn left(&self) -> usize
        ensures { result ≡ length self.now.bytes }
    {
        self.rest().len()
    }

    // The number of the next block.
    pub(crate) fn next(&self) -> u64
        ensures { result ≡ self.now.next }
    {
        self.next
    }

    // The address of the next byte.
    pub(crate) fn address(&self) -> u64
        requires first { 1 ≤ self.now.next }
        requires low { self.now.next ≤ 2 ^ 41 }
        ensures { result ≡ address_of (self.now.next - 1) self.now.offset }
    {
        (self.next - 1) * 4096 + self.offset as u64
    }

    // The refusal that names the block in hand.
    pub(crate) fn damaged(&self, source: &Source) -> Refusal
        requires { 1 ≤ self.now.next }
        ensures { result ≡ Refusal.Damaged source.now.revision (self.now.next - 1) }
    {
        Refusal::Damaged {
            file: source.revision,
            block: self.next - 1,
        }
    }

    // Whether the block in hand, of which nothing is left, was full.
    fn is_full(&self) -> bool
        requires { self.now.bytes ≡ [] }
        ensures yes { IsTrue result → self.now.offset ≡ 4064 }
        ensures short { (result ≡ false) → self.now.offset < 4064 }
    {
        self.offset == 4064
    }

    // Leaves out bytes in hand.
    pub(crate) fn skip(&mut self, count: usize)
        requires { count ≤ length self.old.bytes }
        ensures next { self.new.next ≡ self.old.next }
        ensures offset { self.new.offset ≡ self.old.offset + count }
        ensures bytes { self.new.bytes ≡ drop count self.old.bytes }
    {
        self.offset += count;
    }

    // Takes bytes in hand, as many as there are and fit.
    fn copy(&mut self, out: &mut [u8]) -> usize
        requires some { 1 ≤ length self.old.bytes }
        requires room { 1 ≤ length out.old }
        ensures least { 1 ≤ result }
        ensures count { result ≤ length out.old }
        ensures next { self.new.next ≡ self.old.next }
        ensures offset { self.new.offset ≡ self.old.offset + result }
        ensures taken { self.old.bytes ≡ take result out.new ++ self.new.bytes }
    {
        let rest = self.rest();
        let count = out.len().min(rest.len());
        out[..count].copy_from_slice(&rest[..count]);
        self.skip(count);
        count
    }

    // Fills a place with the next bytes.
    fn fill<V: View>(
        &mut self,
        view: &mut V,
        source: &Source,
        out: &mut [u8],
    ) -> Result<(), Refusal>
        requires first { 1 ≤ self.old.next }
        requires low { self.old.next + length out.old ≤ 2 ^ 62 }
        requires within { IsWithin (asked_of source.now).tail source.now.end self.old.next }
        ensures moved { OnOk result (Moves (asked_of source.now) self.old self.new (length out.old) (length out.old)) }
        ensures taken { IsTrue V.tells → OnOk result (Takes (asked_of source.now) (V.content view.old) self.old self.new out.new) }
        ensures reason { IfErr result (Cause V.tells source.now.revision (IsNear (asked_of source.now) self.old (length out.old)) (Stops (asked_of source.now) (V.content view.old) self.old (length out.old)) (V.faults view.old) (V.faults view.new)) }
        ensures short { IsShort self.old → (view.new ≡ view.old) × (result ≢ Err Refusal.DiskFault) }
        ensures memory { result ≢ Err Refusal.NoMemory }
        ensures content { IsTrue V.tells → V.content view.new ≡ V.content view.old }
        ensures counts { V.faults view.old ≤ V.faults view.new }
        ensures untroubled { result ≢ Err Refusal.DiskFault → V.faults view.new ≡ V.faults view.old }
    {
        let mut filled = 0;
        while filled < out.len() {
            self.turn(view, source)?;
            filled += self.copy(&mut out[filled..]);
        }
        Ok(())
    }

    // The next bytes, so many of them.
    fn bytes<V: View>(
        &mut self,
        alloc: Global,
        view: &mut V,
        source: &Source,
        count: usize,
    ) -> Result<Bytes, Refusal>
        requires first { 1 ≤ self.old.next }
        requires low { self.old.next + count ≤ 2 ^ 62 }
        requires within { IsWithin (asked_of source.now).tail source.now.end self.old.next }
        ensures count { IfOk result (λ bytes. length bytes ≡ count) }
        ensures moved { OnOk result (Moves (asked_of source.now) self.old self.new count count) }
        ensures taken { IsTrue V.tells → IfOk result (Takes (asked_of source.now) (V.content view.old) self.old self.new) }
        ensures reason { IfErr result (Cause V.tells source.now.revision (IsNear (asked_of source.now) self.old count) (Stops (asked_of source.now) (V.content view.old) self.old count) (V.faults view.old) (V.faults view.new)) }
        ensures short { IsShort self.old → (view.new ≡ view.old) × (result ≢ Err Refusal.DiskFault) }
        ensures content { IsTrue V.tells → V.content view.new ≡ V.content view.old }
        ensures counts { V.faults view.old ≤ V.faults view.new }
        ensures untroubled { result ≢ Err Refusal.DiskFault → V.faults view.new ≡ V.faults view.old }
    {
        let mut bytes = vec![in alloc; 0; count]?;
        self.fill(view, source, &mut bytes)?;
        Ok(Bytes::from_vec(bytes))
    }

    // The parts of a record behind its head: key, meta and body.
    fn parts<V: View>(
        &mut self,
        alloc: Global,
        view: &mut V,
        source: &Source,
        head: &Head,
    ) -> Result<(Bytes, Bytes, Bytes), Refusal>
        requires first { 1 ≤ self.old.next }
        requires low { self.old.next ≤ 2 ^ 61 }
        requires within { IsWithin (asked_of source.now).tail source.now.end self.old.next }
        ensures key { IfOk result (λ parts. length parts.0 ≡ head.now.key) }
        ensures meta { IfOk result (λ parts. length parts.1 ≡ head.now.meta) }
        ensures body { IfOk result (λ parts. length parts.2 ≡ head.now.body) }
        ensures moved { OnOk result (let count = head.now.key + head.now.meta + head.now.body in Moves (asked_of source.now) self.old self.new count count) }
        ensures taken { IsTrue V.tells → IfOk result (λ parts. Takes (asked_of source.now) (V.content view.old) self.old self.new (parts.0 ++ parts.1 ++ parts.2)) }
        ensures reason { IfErr result (Cause V.tells source.now.revision (IsNear (asked_of source.now) self.old (head.now.key + head.now.meta + head.now.body)) (Stops (asked_of source.now) (V.content view.old) self.old (head.now.key + head.now.meta + head.now.body)) (V.faults view.old) (V.faults view.new)) }
        ensures short { IsShort self.old → (view.new ≡ view.old) × (result ≢ Err Refusal.DiskFault) }
        ensures content { IsTrue V.tells → V.content view.new ≡ V.content view.old }
        ensures counts { V.faults view.old ≤ V.faults view.new }
        ensures untroubled { result ≢ Err Refusal.DiskFault → V.faults view.new ≡ V.faults view.old }
    {
        let key = self.bytes(alloc, view, source, head.key as usize)?;
        let meta = self.bytes(alloc, view, source, head.meta as usize)?;
        let body = self.bytes(alloc, view, source, head.body as usize)?;
        Ok((key, meta, body))
    }

    // The record that begins here.
    pub(crate) fn record<V: View>(
        &mut self,
        alloc: Global,
        view: &mut V,
        source: &Source,
    ) -> Result<Rec, Refusal>
        requires first { 1 ≤ self.old.next }
        requires low { self.old.next ≤ 2 ^ 60 }
        requires within { IsWithin (asked_of source.now).tail source.now.end self.old.next }
        ensures is_record { IfOk result (λ rec. IsTrue (records.is_record rec)) }
        ensures moved { OnOk result ((count : ℕ) × (1 ≤ count) × (count ≤ 2 ^ 22) × Moves (asked_of source.now) self.old self.new count count) }
        ensures taken { IsTrue V.tells → IfOk result (TakesRecord (asked_of source.now) (V.content view.old) self.old self.new) }
        ensures reason { IfErr result (Cause V.tells source.now.revision (IsNear (asked_of source.now) self.old 1052355) (StopsRecord (asked_of source.now) (V.content view.old) self.old) (V.faults view.old) (V.faults view.new)) }
        ensures short { IsShort self.old → (view.new ≡ view.old) × (result ≢ Err Refusal.DiskFault) }
        ensures head { IsTrue V.tells → OnOk result (HasHead (asked_of source.now) (V.content view.old) (in_hand self.old)) }
        ensures memory { IsTrue V.tells → result ≡ Err Refusal.NoMemory → HasHead (asked_of source.now) (V.content view.old) (in_hand self.old) }
        ensures content { IsTrue V.tells → V.content view.new ≡ V.content view.old }
        ensures counts { V.faults view.old ≤ V.faults view.new }
        ensures untroubled { result ≢ Err Refusal.DiskFault → V.faults view.new ≡ V.faults view.old }
    {
        let mut start = [0; 24];
        self.fill(view, source, &mut start)?;
        let Some(head) = head_in(&start) else {
            return Err(self.damaged(source));
        };
        let (key, meta, body) = self.parts(alloc, view, source, &head)?;
        let rec = Rec {
            kind: head.kind,
            store: head.store,
            seq: head.seq,
            key,
            meta,
            body,
        };
        if !has_form(&rec) {
            return Err(self.damaged(source));
        }
        Ok(rec)
    }
}

// Reads a block of a file's revision, and answers its kind and how many bytes of it are in use.
fn fetch<V: View>(
    view: &mut V,
    block: &mut Block,
    revision: u64,
    at: u64,
) -> Result<(u8, usize), Refusal>
    ensures stands { IsTrue V.tells → IfOk result (λ found. Stands revision (V.content view.old) at found.0 (take found.1 block.new.bytes)) }
    ensures fits { IfOk result (λ found. found.1 ≤ 4064) }
    ensures missing { IfErr result (Missing V.tells revision at ((kind : ℕ) (payload : List ℕ) → Stands revision (V.content view.old) at kind payload → ⊥) (V.faults view.old) (V.faults view.new)) }
    ensures content { IsTrue V.tells → V.content view.new ≡ V.content view.old }
    ensures counts { V.faults view.old ≤ V.faults view.new }
    ensures untroubled { result ≢ Err Refusal.DiskFault → V.faults view.new ≡ V.faults view.old }
{
    let Ok(()) = view.read(at, block) else {
        return Err(Refusal::DiskFault);
    };
    match unseal(block, revision, at) {
        Some((kind, payload)) => Ok((kind, payload.len())),
        None => Err(Refusal::Damaged {
            file: revision,
            block: at,
        }),
    }
}
