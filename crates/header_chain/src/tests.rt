ghost use Rattle.std.specs.Prelude.{false, [], ◌<◌, ◌^◌, Option, IfSome};
ghost use Rattle.header_block.specs.Layout.{NamesBlocks};

use super::*;
use block_host::{Block, Failed, View, seal};
use forest_model::{Header, Refusal, Stores};
use header_block::payload_of;
use std::test::Fail;

// The revision of each file.
const REV: u64 = 3;

// A file in memory, of which nothing is told.
#[derive(Drop)]
struct Blocks {
    blocks: Vec<Block>,
    failing: bool,
    faults: u64,
}

impl View for Blocks {
    ghost tells = { false };

    ghost content = { λ _. [] };

    ghost faults = { λ view. view.faults };

    fn size(&self) -> u64 {
        self.blocks.len() as u64
    }

    fn read(&mut self, at: u64, out: &mut Block) -> Result<(), Failed> {
        if self.failing {
            self.faults = self.faults.saturating_add(1);
            return Err(Failed);
        }
        *out = match self.blocks.as_slice().get(at as usize) {
            Some(block) => *block,
            None => Block::zeros(),
        };
        Ok(())
    }
}

// A header of one store that links to a block.
fn header(commit: u8, previous: Option<u8>, next_store: u8) -> Header
    ensures { NamesBlocks result }
{
    let mut stores = Stores::new();
    stores.push(0, b"default", 0, 0);
    Header {
        commit: u64::from(commit),
        next_commit: u64::from(commit) + 1,
        previous: previous.map(u64::from),
        key: None,
        seq: None,
        wal_from: 1,
        live: 0,
        next_store: u64::from(next_store),
        stores,
    }
}

// The block of a header, sealed for a revision and a number.
fn block_of(rev: u64, at: u64, commit: u8, previous: Option<u8>) -> Block {
    let page = payload_of(&header(commit, previous, 2));
    seal(4, rev, at, &page.bytes[..usize::from(page.len).min(4064)])
}

// A header, a record block, a header that links to the first one, and a block of one's own.
fn file(alloc: std::alloc::Global, last: Block) -> Result<Blocks, Fail> {
    let blocks = Vec::from_slice(
        alloc,
        &[
            block_of(REV, 0, 1, None),
            seal(1, REV, 1, b"records"),
            block_of(REV, 2, 2, Some(0)),
            last,
        ],
    )?;
    Ok(Blocks {
        blocks,
        failing: false,
        faults: 0,
    })
}

// The block of what is found, and its commit.
fn found(last: Result<(u64, Header), Refusal>) -> Result<(u64, u64), Refusal> {
    let (at, header) = last?;
    Ok((at, header.commit))
}

// A header whose last byte is another, one for another number, one for another revision, a block of zeros.
fn no_header(n: u64) -> Block {
    match n {
        0 => {
            let mut torn = block_of(REV, 3, 3, Some(2));
            torn.bytes[4095] ^= 1;
            torn
        }
        1 => block_of(REV, 2, 3, Some(2)),
        2 => block_of(4, 3, 3, Some(2)),
        _ => Block::zeros(),
    }
}

#[test]
fn the_last_that_is_sealed(rt: HostRuntime) -> Result<(), Fail> {
    for n in 0..4 {
        let mut view = file(rt.alloc(), no_header(n))?;
        assert_eq!(rt; found(last(&mut view, REV)), Ok((2, 2)));
    }
    let mut view = file(rt.alloc(), block_of(REV, 3, 3, Some(2)))?;
    assert_eq!(rt; found(last(&mut view, REV)), Ok((3, 3)));
    Ok(())
}

#[test]
fn a_header_that_is_none(rt: HostRuntime) -> Result<(), Fail> {
    let mut view = file(rt.alloc(), seal(4, REV, 3, b"none"))?;
    assert_eq!(rt;
        found(last(&mut view, REV)),
        Err(Refusal::Damaged {
            file: REV,
            block: 3
        })
    );
    assert_eq!(rt;
        found(last(&mut view, 4)),
        Err(Refusal::Damaged { file: 4, block: 0 })
    );
    Ok(())
}

// What stands before a header that links so.
fn linked(
    view: &mut Blocks,
    commit: u8,
    previous: Option<u8>,
    next_store: u8,
) -> Result<Option<(u64, u64)>, Refusal> {
    match before(view, REV, &header(commit, previous, next_store))? {
        Some((at, header)) => Ok(Some((at, header.commit))),
        None => Ok(None),
    }
}

#[test]
fn the_one_before(rt: HostRuntime) -> Result<(), Fail> {
    let mut view = file(rt.alloc(), Block::zeros())?;
    assert_eq!(rt; linked(&mut view, 1, None, 2), Ok(None));
    assert_eq!(rt; linked(&mut view, 2, Some(0), 2), Ok(Some((0, 1))));
    for (commit, previous, next_store) in [(3, 1, 2), (2, 2, 2), (3, 2, 1), (3, 3, 2), (3, 9, 2)] {
        assert_eq!(rt;
            linked(&mut view, commit, Some(previous), next_store),
            Err(Refusal::Damaged {
                file: REV,
                block: u64::from(previous)
            })
        );
    }
    Ok(())
}

#[test]
fn a_fault_is_answered(rt: HostRuntime) -> Result<(), Fail> {
    let mut view = file(rt.alloc(), Block::zeros())?;
    view.failing = true;
    assert_eq!(rt; found(last(&mut view, REV)), Err(Refusal::DiskFault));
    assert_eq!(rt; linked(&mut view, 2, Some(0), 2), Err(Refusal::DiskFault));
    assert_eq!(rt; linked(&mut view, 1, None, 2), Ok(None));
    assert_eq!(rt; view.faults, 2);
    Ok(())
}
