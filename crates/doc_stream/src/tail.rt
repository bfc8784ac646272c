ghost use Rattle.std.specs.Prelude.{◌≡◌, ◌≢◌, ◌+◌, ◌*◌, ◌/◌, ◌^◌, ◌<◌, ◌≤◌, ℕ, List, [], ◌++◌, length, IsTrue, IsOk, IfOk, OnOk, OnErr, MatchOption, take, vec_len, vec_capacity};
ghost use Rattle.block_host.specs.Sealed.{IsSealed};
ghost use Rattle.doc_stream.specs.OpenBlock.{PutsBytes, address_of};
ghost use Rattle.forest_model.specs.Records.{is_record, head_bytes, record_bytes};

use block_host::{Block, seal};
use forest_model::{Rec, Refusal};
use std::alloc::Global;
use std::marker::Model;

/// The open block of a file's records: its number in the file, and the bytes of records that it has so far.
#[derive(Drop)]
pub struct Tail {
    number: u64,
    bytes: Vec<u8>,
}

impl Model for Tail {
    ghost use Rattle.std.specs.Prelude.{vec_len, vec_capacity};
    ghost use Rattle.doc_stream.specs.OpenBlock.{OpenBlock};
    ghost use Rattle.doc_stream.specs.Bounds.{IsOpen};

    ghost Value = { OpenBlock };

    ghost view = { λ t. record { number = t.number; bytes = t.bytes.items } };

    ghost invariant = { λ t. IsOpen t.number (vec_len t.bytes) (vec_capacity t.bytes) };
}

impl Tail {
    /// An open block of this number, with no bytes. Its own memory is taken here, once for all puts.
    pub fn new(alloc: Global, next: u64) -> Result<Tail, Refusal>
        requires { next ≤ 2 ^ 41 }
        ensures value { IfOk result (λ tail. tail ≡ record { number = next; bytes = [] }) }
        ensures memory { OnErr result (result ≡ Err Refusal.NoMemory) }
    {
        Ok(Tail {
            number: next,
            bytes: Vec::with_capacity(alloc, 4064)?,
        })
    }

    /// An equal one.
    pub fn copy(&self) -> Result<Tail, Refusal>
        ensures value { IfOk result (λ tail. tail ≡ self.now) }
        ensures memory { OnErr result (result ≡ Err Refusal.NoMemory) }
    {
        let mut bytes = Vec::with_capacity(*self.bytes.allocator(), 4064)?;
        bytes.extend_from_slice(self.bytes.as_slice())?;
        Ok(Tail {
            number: self.number,
            bytes,
        })
    }

    /// Goes on at another block, with no bytes.
    pub fn restart(&mut self, next: u64)
        requires { next ≤ 2 ^ 41 }
        ensures { self.new ≡ record { number = next; bytes = [] } }
    {
        self.number = next;
        self.bytes.clear();
    }

    /// How many whole blocks go out when so many bytes of records are put.
    pub fn needed(&self, len: u64) -> u64
        requires { len ≤ 2 ^ 62 }
        ensures { result ≡ (length self.now.bytes + len) / 4064 }
    {
        (self.bytes.len() as u64 + len) / 4064
    }

    /// The open block's number in its file.
    pub fn number(&self) -> u64
        ensures { result ≡ self.now.number }
    {
        self.number
    }

    // Puts the bytes at the front of a block, and answers how many they are.
    pub(crate) fn copy_bytes(&self, block: &mut Block) -> usize
        ensures bytes { take result block.new.bytes ≡ self.now.bytes }
        ensures fits { result < 4064 }
    {
        let bytes = self.bytes.as_slice();
        block.bytes[..bytes.len()].copy_from_slice(bytes);
        bytes.len()
    }

    /// The address of the next record.
    pub fn address(&self) -> u64
        ensures offset { length self.now.bytes < 4064 }
        ensures value { result ≡ address_of self.now.number (length self.now.bytes) }
    {
        self.number * 4096 + self.bytes.len() as u64
    }

    /// Puts a record behind those before it, and answers its address. Blocks that are full by then go to `out`, sealed for
    /// the file's revision. Memory is taken for these alone, where `out` has no room for them.
    pub fn put(&mut self, rec: &Rec, rev: u64, out: &mut Vec<Block>) -> Result<u64, Refusal>
        requires is_record { IsTrue (is_record rec.now) }
        requires low { self.old.number ≤ 2 ^ 41 }
        ensures address { IfOk result (λ address. address ≡ address_of self.old.number (length self.old.bytes)) }
        ensures put { OnOk result (PutsBytes rev (record_bytes rec.now) self.old self.new out.old.items out.new.items) }
        ensures memory { OnErr result (result ≡ Err Refusal.NoMemory) }
        ensures room { vec_len out.old + (length self.old.bytes + length (record_bytes rec.now)) / 4064 ≤ vec_capacity out.old → IsOk result }
        ensures fits { length self.old.bytes + length (record_bytes rec.now) < 4064 → IsOk result }
        ensures kept { OnErr result ((self.new ≡ self.old) × (out.new.items ≡ out.old.items)) }
    {
        let address = self.address();
        out.reserve(self.needed(len_of(rec)) as usize)?;
        self.put_bytes(&head_of(rec), rev, out);
        self.put_bytes(rec.key.as_slice(), rev, out);
        self.put_bytes(rec.meta.as_slice(), rev, out);
        self.put_bytes(rec.body.as_slice(), rev, out);
        Ok(address)
    }

    // Puts bytes, where `out` has memory for the blocks that fill.
    fn put_bytes(&mut self, bytes: &[u8], rev: u64, out: &mut Vec<Block>)
        requires not_full { length self.old.bytes < 4064 }
        requires low { self.old.number * 4064 + length self.old.bytes + length bytes.now < 2 ^ 42 * 4064 }
        requires room { vec_len out.old * 4064 + length self.old.bytes + length bytes.now < (vec_capacity out.old + 1) * 4064 }
        ensures put { PutsBytes rev bytes.now self.old self.new out.old.items out.new.items }
        ensures not_full { length self.new.bytes < 4064 }
        ensures capacity { vec_capacity out.new ≡ vec_capacity out.old }
    {
        let mut left = bytes;
        while !left.is_empty() {
            left = self.put_some(left, rev, out);
        }
    }

    // Puts as many of the bytes as the open block takes, and answers the others.
    fn put_some<'a>(&mut self, bytes: &'a [u8], rev: u64, out: &mut Vec<Block>) -> &'a [u8]
        requires some { 1 ≤ length bytes.now }
        requires low { self.old.number * 4064 + length self.old.bytes + length bytes.now < 2 ^ 42 * 4064 }
        requires room { vec_len out.old * 4064 + length self.old.bytes + length bytes.now < (vec_capacity out.old + 1) * 4064 }
        ensures put { (front : List ℕ) × (bytes.now ≡ front ++ result.now) × (1 ≤ length front) × PutsBytes rev front self.old self.new out.old.items out.new.items }
        ensures not_full { length self.new.bytes < 4064 }
        ensures capacity { vec_capacity out.new ≡ vec_capacity out.old }
    {
        let room = 4064 - self.bytes.len();
        let (now, later) = bytes.split_at(room.min(bytes.len()));
        // The open block has memory for them.
        let _taken = self.bytes.extend_from_slice(now);
        if self.bytes.len() == 4064 {
            out.push_reserved(seal(1, rev, self.number, self.bytes.as_slice()));
            self.number += 1;
            self.bytes.clear();
        }
        later
    }

    /// The open block, sealed for the file's revision; None exactly where it has no bytes. The next one is open then.
    pub fn pad(&mut self, rev: u64) -> Option<Block>
        ensures { MatchOption result ((self.old.bytes ≡ []) × (self.new ≡ self.old)) (λ block. (self.old.bytes ≢ []) × IsSealed rev self.old.number 1 self.old.bytes block × (self.new ≡ record { number = self.old.number + 1; bytes = [] })) }
    {
        if self.bytes.is_empty() {
            return None;
        }
        let block = seal(1, rev, self.number, self.bytes.as_slice());
        self.number += 1;
        self.bytes.clear();
        Some(block)
    }
}

// How many bytes a record has.
fn len_of(rec: &Rec) -> u64
    requires { IsTrue (is_record rec.now) }
    ensures value { result ≡ length (record_bytes rec.now) }
    ensures parts { result ≡ 24 + length rec.now.key + length rec.now.meta + length rec.now.body }
    ensures small { result ≤ 2 ^ 21 }
{
    24 + rec.key.len() as u64 + rec.meta.len() as u64 + rec.body.len() as u64
}

// The bytes of a record before its key.
fn head_of(rec: &Rec) -> [u8; 24]
    requires { IsTrue (is_record rec.now) }
    ensures value { result ≡ head_bytes rec.now }
    ensures long { length result ≡ 24 }
{
    let mut head = [0; 24];
    head[0] = rec.kind;
    head[1] = rec.meta.len() as u8;
    head[2..4].copy_from_slice(&(rec.key.len() as u16).to_be_bytes());
    head[4..8].copy_from_slice(&(rec.body.len() as u32).to_be_bytes());
    head[8..16].copy_from_slice(&rec.store.to_be_bytes());
    head[16..].copy_from_slice(&rec.seq.to_be_bytes());
    head
}

#[cfg(test)]
mod tests {
    use super::*;
    use block_host::unseal;
    use forest_model::Bytes;
    use std::test::Fail;

    const APPLE: [u8; 32] = [
        0x01, 0x00, 0x00, 0x05, 0x00, 0x00, 0x00, 0x03, 0x00, 0x00, 0x00, 0x00, 0x00, 0x00, 0x00,
        0x00, 0x00, 0x00, 0x00, 0x00, 0x00, 0x00, 0x00, 0x01, b'a', b'p', b'p', b'l', b'e', b'r',
        b'e', b'd',
    ];

    // A record that sets the key `apple` to a body.
    fn apple(alloc: Global, body: Vec<u8>) -> Result<Rec, Fail>
        requires { length body.items ≤ 1048576 }
        ensures { IfOk result (λ rec. IsTrue (is_record rec)) }
    {
        Ok(Rec {
            kind: 1,
            store: 0,
            seq: 1,
            key: Bytes::copy_of(alloc, b"apple")?,
            meta: Bytes::new(alloc),
            body: Bytes::from_vec(body),
        })
    }

    #[test]
    fn a_record_as_the_format_says(rt: HostRuntime) -> Result<(), Fail> {
        let alloc = rt.alloc();
        let rec = apple(alloc, Vec::from_slice(alloc, b"red")?)?;
        let mut out = Vec::new(alloc);
        let mut tail = Tail::new(alloc, 7)?;
        assert_eq!(rt; tail.put(&rec, 3, &mut out), Ok(7 * 4096));
        assert_eq!(rt; tail.address(), 7 * 4096 + 32);
        assert_eq!(rt; tail.needed(4031), 0);
        assert_eq!(rt; tail.needed(4032), 1);
        let mut copy = tail.copy()?;
        assert!(rt; tail.pad(3) == Some(seal(1, 3, 7, &APPLE)));
        assert!(rt; tail.pad(3) == None);
        assert_eq!(rt; tail.address(), 8 * 4096);
        assert!(rt; copy.pad(3) == Some(seal(1, 3, 7, &APPLE)));
        copy.restart(20);
        assert_eq!(rt; copy.address(), 20 * 4096);
        assert!(rt; out.is_empty());
        Ok(())
    }

    #[test]
    fn a_record_over_several_blocks(rt: HostRuntime) -> Result<(), Fail> {
        let alloc = rt.alloc();
        let rec = apple(alloc, vec![in alloc; b'x'; 9000]?)?;
        let mut out = Vec::new(alloc);
        let mut tail = Tail::new(alloc, 7)?;
        assert_eq!(rt; tail.needed(9029), 2);
        assert_eq!(rt; tail.put(&rec, 3, &mut out), Ok(7 * 4096));
        assert_eq!(rt; out.len(), 2);
        assert_eq!(rt;
            unseal(&out[1], 3, 8).map(|found| found.1.len()),
            Some(4064)
        );
        assert_eq!(rt; tail.address(), 9 * 4096 + 901);
        Ok(())
    }

    #[test]
    fn a_record_to_the_end_of_a_block(rt: HostRuntime) -> Result<(), Fail> {
        let alloc = rt.alloc();
        let rec = apple(alloc, vec![in alloc; b'x'; 4035]?)?;
        let mut out = Vec::new(alloc);
        let mut tail = Tail::new(alloc, 7)?;
        assert_eq!(rt; tail.put(&rec, 3, &mut out), Ok(7 * 4096));
        assert_eq!(rt; out.len(), 1);
        assert_eq!(rt; tail.address(), 8 * 4096);
        assert!(rt; tail.pad(3) == None);
        Ok(())
    }
}
