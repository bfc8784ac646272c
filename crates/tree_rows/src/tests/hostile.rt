use super::blocks::{Blocks, FILE, Stored};
use super::damage::{Damage, damage_of, set_number};
use super::numbers::Numbers;
use super::shape::is_tree;
use btree_cow::{find, insert, next, remove};
use forest_model::Refusal;
use node_page::{Page, entry};
use std::alloc::{AllocError, Global};

// A tree of three levels: 254 leaves in the blocks 0 to 253, two inner nodes, and the root in block 256. A leaf has 126
// entries, the even chunks one after another from 2 on, each with a value that no block has as its number.
const LEAVES: u64 = 254;

const PER_LEAF: u64 = 126;

const ROOT: u64 = 256;

const MOST_CHUNK: u64 = 2 * LEAVES * PER_LEAF;

// The node of so many entries: chunks rise from one by a step, and values by another one.
fn node(leaf: bool, count: u8, first: (u64, u64), step: (u64, u64)) -> Stored {
    let mut page = Page {
        bytes: [0; 4064],
        len: 16 + 16 * u16::from(count),
    };
    page.bytes[0] = if leaf { 1 } else { 2 };
    page.bytes[3] = count;
    for n in 0..count.min(253) {
        let at = 16 + 16 * usize::from(n);
        let chunk = step.0.saturating_mul(u64::from(n)).saturating_add(first.0);
        let value = step.1.saturating_mul(u64::from(n)).saturating_add(first.1);
        set_number(&mut page, at, chunk);
        set_number(&mut page, at + 8, value);
    }
    Stored { kind: 2, page }
}

pub(super) fn good_tree(alloc: Global) -> Result<Blocks, AllocError> {
    let mut blocks = Blocks::new(alloc);
    let width = 2 * PER_LEAF;
    for leaf in 0..LEAVES {
        let first = leaf * width + 2;
        blocks
            .stored
            .push(node(true, 126, (first, 1000 + first), (2, 2)))?;
    }
    let half = 127 * width + 2;
    blocks.stored.push(node(false, 127, (2, 0), (width, 1)))?;
    blocks
        .stored
        .push(node(false, 127, (half, 127), (width, 1)))?;
    blocks.stored.push(node(false, 2, (2, 254), (half - 2, 1)))?;
    Ok(blocks)
}

// Whether the tree has its form, and the entries that were put into it.
pub(super) fn is_good(blocks: &mut Blocks) -> bool {
    let mut right = is_tree(blocks, ROOT);
    for half in 1..LEAVES * PER_LEAF + 1 {
        let chunk = 2 * half;
        right = find(blocks, Some(ROOT), chunk) == Ok(Some(1000 + chunk)) && right;
    }
    right
}

// The root, one of the two nodes below it, or a leaf.
fn place(numbers: &mut Numbers) -> u64 {
    match numbers.below(4) {
        0 => ROOT,
        1 => 254 + numbers.below(2),
        _ => numbers.below(LEAVES),
    }
}

// Spoils a block of the tree and mends it afterwards; whether each call in between had an answer, or named damage.
pub(super) fn is_answered(blocks: &mut Blocks, numbers: &mut Numbers) -> bool {
    let at = place(numbers);
    let damage = damage_of(numbers.below(8));
    let Some(stored) = blocks.stored.get_mut(at as usize) else {
        return false;
    };
    let whole = *stored;
    *stored = damage.spoil(at, &whole);
    let right = is_noticed(blocks, damage, at, entry(&whole.page, 0).0)
        && are_answered(blocks, entry(&whole.page, 0).0, numbers);
    blocks.stored.truncate(257);
    if let Some(stored) = blocks.stored.get_mut(at as usize) {
        *stored = whole;
    }
    right
}

// Whether a look-up of the spoiled block's first chunk names this block, where it has to.
fn is_noticed(blocks: &mut Blocks, damage: Damage, at: u64, chunk: u64) -> bool {
    let named = Err(Refusal::Damaged {
        file: FILE,
        block: at,
    });
    !damage.is_found_out() || find(blocks, Some(ROOT), chunk) == named
}

// Whether all calls are answered at a chunk, at its neighbours, at the ends, and at any three.
fn are_answered(blocks: &mut Blocks, chunk: u64, numbers: &mut Numbers) -> bool {
    let mut right = at_chunk(blocks, chunk)
        && at_chunk(blocks, chunk.saturating_sub(1))
        && at_chunk(blocks, chunk.saturating_add(1))
        && at_chunk(blocks, 0)
        && at_chunk(blocks, u64::MAX);
    for _ in 0..3_u8 {
        right = at_chunk(blocks, numbers.below(MOST_CHUNK)) && right;
    }
    right
}

fn at_chunk(blocks: &mut Blocks, chunk: u64) -> bool {
    let found = find(blocks, Some(ROOT), chunk);
    let inserted = insert(blocks, Some(ROOT), chunk, 7);
    let removed = remove(blocks, Some(ROOT), chunk);
    is_ok_or_damaged(found)
        && is_ok_or_damaged(inserted)
        && is_ok_or_damaged(removed)
        && is_near(blocks, chunk, true, true)
        && is_near(blocks, chunk, true, false)
        && is_near(blocks, chunk, false, true)
        && is_near(blocks, chunk, false, false)
}

// Whether `next` is answered from twenty pages at most.
fn is_near(blocks: &mut Blocks, chunk: u64, with: bool, up: bool) -> bool {
    blocks.read = 0;
    let nearest = next(blocks, Some(ROOT), chunk, with, up);
    blocks.read <= 20 && is_ok_or_damaged(nearest)
}

fn is_ok_or_damaged<T: Drop>(answer: Result<T, Refusal>) -> bool {
    match answer {
        Ok(_) => true,
        Err(Refusal::Damaged { file, .. }) => file == FILE,
        Err(_) => false,
    }
}
