ghost use Rattle.std.specs.Prelude.{◌≡◌, ◌≤◌, false, [], length, IfOk, IsTrue};
ghost use Rattle.forest_model.specs.Records.{is_record};

use super::*;
use crate::heads::has_form;
use block_host::{Block, Failed, View, seal};
use forest_model::{Bytes, Rec, Recs, Refusal};
use std::alloc::Global;
use std::test::Fail;

// The revision of each file.
const REV: u64 = 3;

// A file in memory.
#[derive(Drop)]
struct Blocks {
    blocks: Vec<Block>,
    failing: bool,
    faults: u64,
}

impl Blocks {
    fn new(blocks: Vec<Block>) -> Blocks {
        Blocks {
            blocks,
            failing: false,
            faults: 0,
        }
    }

    // Turns two bits of a byte of the first block round.
    fn damage(&mut self, n: usize) {
        if let Some(block) = self.blocks.as_mut_slice().get_mut(0)
            && n < 4096
        {
            block.bytes[n] ^= 0x21;
        }
    }
}

impl View for Blocks {
    ghost tells = { false };

    ghost content = { λ _. [] };

    ghost faults = { λ view. view.faults };

    fn size(&self) -> u64 {
        self.blocks.len() as u64
    }

    fn read(&mut self, at: u64, out: &mut Block) -> Result<(), Failed> {
        if self.failing {
            self.faults = self.faults.saturating_add(1);
            return Err(Failed);
        }
        *out = match self.blocks.as_slice().get(at as usize) {
            Some(block) => *block,
            None => Block::zeros(),
        };
        Ok(())
    }
}

// A record, if these are one's parts.
fn record(
    alloc: Global,
    kind: u8,
    seq: u64,
    key: &[u8],
    meta: &[u8],
    body: &[u8],
) -> Result<Rec, Fail>
    ensures { IfOk result (λ rec. IsTrue (is_record rec)) }
{
    let rec = Rec {
        kind,
        store: 7,
        seq,
        key: Bytes::copy_of(alloc, key)?,
        meta: Bytes::copy_of(alloc, meta)?,
        body: Bytes::copy_of(alloc, body)?,
    };
    if !has_form(&rec) {
        return Err(Fail::new("no record"));
    }
    Ok(rec)
}

// So many of a byte.
fn filled(alloc: Global, byte: u8, len: usize) -> Result<Vec<u8>, Fail>
    ensures { IfOk result (λ bytes. length bytes.items ≡ len) }
{
    Ok(vec![in alloc; byte; len]?)
}

// A record that sets `apple` to a body of so many bytes.
fn long(alloc: Global, len: usize) -> Result<Rec, Fail>
    ensures { IfOk result (λ rec. IsTrue (is_record rec)) }
{
    let body = filled(alloc, b'x', len)?;
    record(alloc, 1, 1, b"apple", b"", body.as_slice())
}

// A record of the greatest lengths.
fn greatest(alloc: Global) -> Result<Rec, Fail>
    ensures { IfOk result (λ rec. IsTrue (is_record rec)) }
{
    let key = filled(alloc, b'k', 3500)?;
    let meta = filled(alloc, b'm', 255)?;
    let body = filled(alloc, b'b', 1_048_576)?;
    record(
        alloc,
        1,
        u64::MAX,
        key.as_slice(),
        meta.as_slice(),
        body.as_slice(),
    )
}

// A record of each kind, of 31, 33, 29 and 24 bytes; others of 4 * 4,064 - 29 bytes, of 5,029 bytes, and of
// 24 + 3,500 + 255 + 1,048,576 bytes, which are 258 times 4,064 and 3,843 more.
fn one_of(alloc: Global, n: u64) -> Result<Rec, Fail>
    ensures { IfOk result (λ rec. IsTrue (is_record rec)) }
{
    match n {
        0 => record(alloc, 3, 0, b"default", b"", b""),
        1 => record(alloc, 1, 1, b"apple", b"m", b"red"),
        2 => record(alloc, 2, 2, b"apple", b"", b""),
        3 => record(alloc, 4, 0, b"", b"", b""),
        4 => long(alloc, 16198),
        5 => long(alloc, 5000),
        _ => greatest(alloc),
    }
}

// Puts records into the open block of a small file.
fn put(alloc: Global, tail: &mut Tail, out: &mut Vec<Block>, which: &[u64]) -> Result<(), Fail> {
    for n in which {
        let rec = one_of(alloc, *n)?;
        if tail.number() > 1000 {
            return Err(Fail::new("no small file"));
        }
        tail.put(&rec, REV, out)?;
    }
    Ok(())
}

// Puts the open block behind the others.
fn pad(tail: &mut Tail, out: &mut Vec<Block>) -> Result<(), Fail> {
    if let Some(block) = tail.pad(REV) {
        out.push(block)?;
    }
    Ok(())
}

// A file with these records, and its open block.
fn open_file(alloc: Global, which: &[u64]) -> Result<(Vec<Block>, Tail), Fail> {
    let mut out = Vec::new(alloc);
    let mut tail = Tail::new(alloc, 0)?;
    put(alloc, &mut tail, &mut out, which)?;
    Ok((out, tail))
}

// A file with these records and no open block.
fn file(alloc: Global, which: &[u64]) -> Result<Vec<Block>, Fail> {
    let (mut out, mut tail) = open_file(alloc, which)?;
    pad(&mut tail, &mut out)?;
    Ok(out)
}

// Runs in blocks 1 and 3; block 0 is a stale one, and block 2 one of another kind.
fn runs(alloc: Global) -> Result<Vec<Block>, Fail> {
    let stale = filled(alloc, 1, 4064)?;
    let mut out = Vec::from_slice(alloc, &[seal(1, REV, 0, stale.as_slice())])?;
    let mut tail = Tail::new(alloc, 1)?;
    put(alloc, &mut tail, &mut out, &[0, 1])?;
    pad(&mut tail, &mut out)?;
    out.push(seal(2, REV, 2, b"node"))?;
    tail.restart(3);
    put(alloc, &mut tail, &mut out, &[2, 3])?;
    pad(&mut tail, &mut out)?;
    Ok(out)
}

// Whether the records of a range are these, each with its address.
fn is_scanned(
    alloc: Global,
    blocks: Vec<Block>,
    from: u64,
    to: u64,
    rows: &[(u64, u64)],
) -> Result<bool, Fail>
    requires { to ≤ 10 }
{
    let mut records = Recs::new(alloc);
    for row in rows {
        records.push((row.1, one_of(alloc, row.0)?))?;
    }
    let mut view = Blocks::new(blocks);
    Ok(scan(alloc, &mut view, REV, from, to)? == records)
}

#[test]
fn a_record_of_each_kind(rt: HostRuntime) -> Result<(), Fail> {
    let alloc = rt.alloc();
    let blocks = file(alloc, &[0, 1, 2, 3])?;
    assert!(rt; is_scanned(alloc, blocks, 0, 1, &[(0, 0), (1, 31), (2, 64), (3, 93)])?);
    Ok(())
}

#[test]
fn a_record_over_four_blocks(rt: HostRuntime) -> Result<(), Fail> {
    let alloc = rt.alloc();
    let blocks = file(alloc, &[2, 4, 3])?;
    assert!(rt; is_scanned(alloc, blocks, 0, 5, &[(2, 0), (4, 29), (3, 16384)])?);
    Ok(())
}

#[test]
fn runs_among_other_blocks(rt: HostRuntime) -> Result<(), Fail> {
    let alloc = rt.alloc();
    let blocks = runs(alloc)?;
    assert!(rt;
        is_scanned(
            alloc,
            blocks,
            1,
            4,
            &[(0, 4096), (1, 4127), (2, 12288), (3, 12317)]
        )?
    );
    Ok(())
}

// In the file, over its last block and the open one, and in the open one.
#[test]
fn records_in_the_open_block(rt: HostRuntime) -> Result<(), Fail> {
    let alloc = rt.alloc();
    let (blocks, tail) = open_file(alloc, &[2, 5, 1])?;
    let mut view = Blocks::new(blocks);
    for (n, address) in [(2, 0), (5, 29), (1, 4096 + 994)] {
        let rec = one_of(alloc, n)?;
        assert!(rt;
            read(alloc, &mut view, &tail, REV, address) == Ok(rec),
            "at {address}"
        );
    }
    Ok(())
}

#[test]
fn the_greatest_record(rt: HostRuntime) -> Result<(), Fail> {
    let alloc = rt.alloc();
    let (blocks, tail) = open_file(alloc, &[6])?;
    let rec = greatest(alloc)?;
    let mut view = Blocks::new(blocks);
    assert_eq!(rt; tail.address(), 258 * 4096 + 3843);
    assert!(rt; read(alloc, &mut view, &tail, REV, 0) == Ok(rec));
    Ok(())
}

// The record of the format's description.
#[test]
fn the_record_of_the_format(rt: HostRuntime) -> Result<(), Fail> {
    const APPLE: [u8; 32] = [
        0x01, 0x00, 0x00, 0x05, 0x00, 0x00, 0x00, 0x03, 0x00, 0x00, 0x00, 0x00, 0x00, 0x00, 0x00,
        0x00, 0x00, 0x00, 0x00, 0x00, 0x00, 0x00, 0x00, 0x01, b'a', b'p', b'p', b'l', b'e', b'r',
        b'e', b'd',
    ];
    let alloc = rt.alloc();
    let mut view = Blocks::new(Vec::from_slice(alloc, &[seal(1, REV, 0, &APPLE)])?);
    let tail = Tail::new(alloc, 1)?;
    let rec = read(alloc, &mut view, &tail, REV, 0)?;
    assert!(rt; (rec.kind, rec.store, rec.seq) == (1, 0, 1));
    assert!(rt; rec.key.as_slice() == b"apple".as_slice());
    assert!(rt; rec.body.as_slice() == b"red".as_slice());
    Ok(())
}

#[test]
fn no_record_at_an_address(rt: HostRuntime) -> Result<(), Fail> {
    let alloc = rt.alloc();
    let mut view = Blocks::new(file(alloc, &[0, 1, 2, 3])?);
    let tail = Tail::new(alloc, 1)?;
    for (address, block) in [(1, 0), (117, 0), (4095, 0), (4096, 1), (8192, 2)] {
        let found = read(alloc, &mut view, &tail, REV, address);
        assert!(rt;
            found == Err(Refusal::Damaged { file: REV, block }),
            "at {address}"
        );
    }
    Ok(())
}

// A file of one block with one of its bytes changed.
#[test]
fn damage_at_each_byte(rt: HostRuntime) -> Result<(), Fail> {
    let alloc = rt.alloc();
    let mut view = Blocks::new(file(alloc, &[0, 1, 2, 3])?);
    for n in 0..4096 {
        view.damage(n);
        let found = scan(alloc, &mut view, REV, 0, 1);
        assert!(rt;
            found
                == Err(Refusal::Damaged {
                    file: REV,
                    block: 0
                }),
            "at {n}"
        );
        view.damage(n);
    }
    assert!(rt; scan(alloc, &mut view, REV, 0, 1).is_ok());
    Ok(())
}

// Sealed blocks that hold no records: a head with another byte in it, and one of another revision.
#[test]
fn no_records(rt: HostRuntime) -> Result<(), Fail> {
    let alloc = rt.alloc();
    for n in [0, 1, 3, 7, 23] {
        let mut head = [0; 24];
        head[0] = 4;
        head[n] = 5;
        let mut view = Blocks::new(Vec::from_slice(alloc, &[seal(1, REV, 0, &head)])?);
        let found = scan(alloc, &mut view, REV, 0, 1);
        assert!(rt;
            found
                == Err(Refusal::Damaged {
                    file: REV,
                    block: 0
                }),
            "at {n}"
        );
    }
    let mut view = Blocks::new(file(alloc, &[3])?);
    assert!(rt; scan(alloc, &mut view, 4, 0, 1) == Err(Refusal::Damaged { file: 4, block: 0 }));
    Ok(())
}

#[test]
fn a_fault_is_answered(rt: HostRuntime) -> Result<(), Fail> {
    let alloc = rt.alloc();
    let mut view = Blocks::new(file(alloc, &[3])?);
    let tail = Tail::new(alloc, 1)?;
    view.failing = true;
    assert!(rt; scan(alloc, &mut view, REV, 0, 1) == Err(Refusal::DiskFault));
    assert!(rt; read(alloc, &mut view, &tail, REV, 0) == Err(Refusal::DiskFault));
    assert_eq!(rt; view.faults, 2);
    Ok(())
}
