use block_host::Block;
use block_list::Blocks;
use std::alloc::{AllocError, Global};
use std::sync::Arc;
use std::test::Fail;

// A block that holds its own number, and is no block of zeros.
fn numbered(at: u64) -> Block {
    let mut block = Block::zeros();
    block.bytes[..8].copy_from_slice(&at.to_be_bytes());
    block.bytes[8] = 1;
    block
}

// What tells a block from all others here.
fn head(block: &Block) -> &[u8] {
    &block.bytes[..9]
}

// A block with the number of no other.
fn marked() -> Block {
    numbered(u64::MAX)
}

// The blocks of these numbers.
fn items(alloc: Global, from: u64, to: u64) -> Result<Vec<Block>, AllocError> {
    let mut items = Vec::new(alloc);
    for at in from..to {
        items.push(numbered(at))?;
    }
    Ok(items)
}

// So many blocks, each of which holds its place.
fn list(alloc: Global, len: u64) -> Result<Blocks, AllocError> {
    Blocks::of(alloc, &items(alloc, 0, len)?)
}

// The block at a place of a list of which so many from a place on are marked.
fn expected(at: u64, from: u64, times: u64) -> Block {
    match at >= from && at - from < times {
        true => marked(),
        false => numbered(at),
    }
}

// Whether both calls that read give this block.
fn has(blocks: &Blocks, at: u64, wanted: &Block) -> bool {
    match blocks.get(at) {
        Some(block) => head(block) == head(wanted) && head(&blocks.at(at)) == head(wanted),
        None => false,
    }
}

// Whether there are so many blocks and none behind them.
fn ends(blocks: &Blocks, len: u64) -> bool {
    blocks.len() == len && blocks.get(len).is_none() && blocks.at(len) == Block::zeros()
}

// Whether there are so many blocks, of which so many from a place on are marked and each other one holds its place.
fn holds(blocks: &Blocks, len: u64, from: u64, times: u64) -> bool {
    for at in 0..len {
        if !has(blocks, at, &expected(at, from, times)) {
            return false;
        }
    }
    ends(blocks, len)
}

// Whether a list of so many blocks is cut at a place, and changed there, as it has to be.
fn is_changed(blocks: &Blocks, len: u64, at: u64, mark: &Arc<Block>) -> Result<bool, AllocError> {
    let cut = holds(&blocks.first(at)?, at.min(len), 0, 0);
    Ok(cut && holds(&blocks.replaced(at, mark)?, len, at, 1))
}

// The same at each of some places, none of which changes the list.
fn are_changed(blocks: &Blocks, len: u64, mark: &Arc<Block>) -> Result<bool, AllocError> {
    for at in [0, 255, 256, 512, 599, 600] {
        if !is_changed(blocks, len, at, mark)? {
            return Ok(false);
        }
    }
    Ok(holds(blocks, len, 0, 0))
}

// Whether all blocks are taken out of a list, and a copy of it stays.
fn is_taken(
    blocks: &mut Blocks,
    copy: &Blocks,
    len: u64,
    mark: &Arc<Block>,
) -> Result<bool, AllocError> {
    let given = are_changed(&blocks.take(), len, mark)?;
    Ok(given && holds(blocks, 0, 0, 0) && holds(copy, len, 0, 0))
}

// The same of a new list.
fn new_is_taken(alloc: Global, len: u64, mark: &Arc<Block>) -> Result<bool, AllocError> {
    let mut blocks = list(alloc, len)?;
    let copy = blocks.share()?;
    is_taken(&mut blocks, &copy, len, mark)
}

#[test]
fn lists_hold_their_blocks(rt: HostRuntime) -> Result<(), Fail> {
    let mark = Arc::new(rt.alloc(), marked())?;
    for len in [0, 1, 256, 257, 600] {
        assert!(rt; new_is_taken(rt.alloc(), len, &mark)?, "{len}");
    }
    Ok(())
}

// The lengths of a list and of another before, and the list's after; the other's after, and how many of its blocks
// are marked.
#[derive(Clone, Copy, Debug)]
struct Growth {
    len: u64,
    behind: u64,
    after: u64,
    other_after: u64,
    times: u64,
}

// Whether the two lists grow so.
fn grow(
    alloc: Global,
    blocks: &mut Blocks,
    other: &mut Blocks,
    row: Growth,
    mark: &Arc<Block>,
) -> Result<bool, AllocError> {
    blocks.append(&items(alloc, row.len, row.after)?, other, mark)?;
    Ok(holds(blocks, row.after, 0, 0) && holds(other, row.other_after, row.behind, row.times))
}

// Whether two new lists grow so, and their copies stay.
fn new_grow(alloc: Global, row: Growth, mark: &Arc<Block>) -> Result<bool, AllocError> {
    let mut blocks = list(alloc, row.len)?;
    let mut other = list(alloc, row.behind)?;
    let copies = (blocks.share()?, other.share()?);
    let grown = grow(alloc, &mut blocks, &mut other, row, mark)?;
    Ok(grown && holds(&copies.0, row.len, 0, 0) && holds(&copies.1, row.behind, 0, 0))
}

fn row(len: u64, behind: u64, after: u64, other_after: u64, times: u64) -> Growth {
    Growth {
        len,
        behind,
        after,
        other_after,
        times,
    }
}

#[test]
fn two_lists_grow_together(rt: HostRuntime) -> Result<(), Fail> {
    let mark = Arc::new(rt.alloc(), marked())?;
    let rows = [
        row(0, 0, 0, 0, 0),
        row(0, 0, 1, 1, 1),
        row(0, 0, 600, 600, 600),
        row(250, 3, 256, 256, 253),
        row(250, 3, 257, 257, 254),
        row(256, 256, 257, 257, 1),
        row(10, 300, 30, 300, 0),
        row(300, 299, 600, 600, 301),
    ];
    for row in rows {
        assert!(rt; new_grow(rt.alloc(), row, &mark)?, "{row:?}");
    }
    Ok(())
}

// Whether two blocks are left, one of which is written.
fn slots_are_written(blocks: &Blocks) -> Result<bool, AllocError> {
    let first = holds(&blocks.with_slot(0, &marked())?, 2, 0, 1);
    Ok(first && holds(&blocks.with_slot(1, &marked())?, 2, 1, 1))
}

// Whether a slot is written behind one of zeros.
fn second_is_written(slots: &Blocks) -> bool {
    slots.get(0) == Some(&Block::zeros()) && slots.get(1) == Some(&marked()) && slots.len() == 2
}

#[test]
fn one_of_two_slots_is_written(rt: HostRuntime) -> Result<(), Fail> {
    assert!(rt; slots_are_written(&list(rt.alloc(), 600)?)?);
    assert!(rt; second_is_written(&Blocks::new(rt.alloc()).with_slot(1, &marked())?));
    Ok(())
}
