ghost use Rattle.std.specs.Prelude.{◌≡◌, ◌<◌, ◌≤◌, ◌^◌, false, length};
ghost use Rattle.block_host.specs.Disk.{not_told};
ghost use Rattle.btree_cow.specs.Shelf.{untold_shelf};

use super::*;
use forest_model::{Rec, Refusal};
use node_page::{Page, entry, leaf_from, node_of};
use std::alloc::{AllocError, Global};
use std::test::Fail;

// File 3 with room for so many pages.
#[derive(Drop)]
pub(crate) struct Growing {
    pub(crate) pages: Vec<Page>,
    most: u64,
    faults: u64,
    ghost few: { most ≤ 2 ^ 41 },
}

impl Growing {
    pub(crate) fn new(alloc: Global, most: u64) -> Growing
        requires { most ≤ 2 ^ 41 }
    {
        Growing {
            pages: Vec::new(alloc),
            most,
            faults: 0,
        }
    }
}

impl Pages for Growing {
    ghost tells = { false };

    ghost shelf = { λ f. untold_shelf 3 (length f.pages.items) f.most f.most };

    ghost faults = { λ f. f.faults };

    fn file(&self) -> u64 {
        3
    }

    fn page(&mut self, at: u64, kind: u8, out: &mut Page) -> Result<(), Refusal> {
        match self.pages.get(at as usize) {
            Some(page) if kind == 2 => {
                *out = *page;
                Ok(())
            }
            _ => Err(Refusal::Damaged { file: 3, block: at }),
        }
    }

    ghost lie_below = { λ told _. not_told told };

    ghost by_content = { λ told _. not_told told };
}

impl Docs for Growing {
    fn document(&mut self, _address: u64) -> Result<Rec, Refusal> {
        Err(Refusal::NoMemory)
    }
}

impl Appender for Growing {
    fn add(&mut self, _kind: u8, page: &Page) -> Result<u64, Refusal> {
        let at = self.pages.len() as u64;
        if self.most <= at {
            return Err(Refusal::FileFull {
                used: at,
                needed: 1,
                max: self.most,
            });
        }
        match self.pages.push(*page) {
            Ok(()) => Ok(at),
            Err(_) => {
                self.faults = self.faults.saturating_add(1);
                Err(Refusal::DiskFault)
            }
        }
    }
}

// The order in which the chunks 1 to 1,000 come.
#[derive(Clone, Copy)]
pub(crate) enum Order {
    Rising,
    Falling,
    Mixed,
}

// The chunk at a place, 1 to 1,000.
pub(crate) fn chunk_at(order: Order, place: u64) -> u64
    ensures { result < 1001 }
{
    match order {
        Order::Rising => place.min(1000),
        Order::Falling => 1001_u64.saturating_sub(place).min(1000),
        Order::Mixed => place.saturating_mul(389) % 1001,
    }
}

// Adds the entries of a tree, and answers whether its node has at least so many and every other one 126.
fn collect(
    file: &Growing,
    at: u64,
    left: u8,
    least: u16,
    out: &mut Vec<(u64, u64)>,
) -> Result<bool, AllocError> {
    let Some(page) = file.pages.get(at as usize) else {
        return Ok(false);
    };
    let Some(head) = node_of(page) else {
        return Ok(false);
    };
    let mut full = head.count >= least;
    for n in 0..head.count.min(253) {
        let (chunk, value) = entry(page, n);
        if head.leaf {
            out.push((chunk, value))?;
        } else {
            full = left > 0 && collect(file, value, left - 1, 126, out)? && full;
        }
    }
    Ok(full)
}

// The chunks that are present, each with ten times itself.
fn present_entries(alloc: Global, present: &[bool; 1001]) -> Result<Vec<(u64, u64)>, AllocError> {
    let mut entries = Vec::new(alloc);
    for (chunk, is_present) in present.iter().enumerate() {
        if *is_present {
            entries.push((chunk as u64, 10 * chunk as u64))?;
        }
    }
    Ok(entries)
}

pub(crate) fn stands_for(
    alloc: Global,
    file: &Growing,
    root: u64,
    present: &[bool; 1001],
) -> Result<bool, AllocError> {
    let mut found = Vec::new(alloc);
    let full = collect(file, root, 9, 1, &mut found)?;
    let expected = present_entries(alloc, present)?;
    Ok(full && found.as_slice() == expected.as_slice())
}

// Whether after each hundred inserts the tree has the entries so far.
fn grows(alloc: Global, order: Order) -> Result<bool, Refusal> {
    let mut file = Growing::new(alloc, 10_000);
    let mut present = [false; 1001];
    let mut root = None;
    let mut right = true;
    for place in 1..1001 {
        let chunk = chunk_at(order, place);
        let at = insert(&mut file, root, chunk, 10 * chunk)?;
        root = Some(at);
        present[chunk as usize] = true;
        if place % 100 == 0 {
            right = stands_for(alloc, &file, at, &present)? && right;
        }
    }
    Ok(right)
}

#[test]
fn a_thousand_chunks_in_each_order(rt: HostRuntime) -> Result<(), Fail> {
    assert!(rt; grows(rt.alloc(), Order::Rising)?);
    assert!(rt; grows(rt.alloc(), Order::Falling)?);
    assert!(rt; grows(rt.alloc(), Order::Mixed)?);
    Ok(())
}

#[test]
fn a_value_is_replaced_and_the_old_tree_stays(rt: HostRuntime) -> Result<(), Fail> {
    let mut file = Growing::new(rt.alloc(), 10);
    let first = insert(&mut file, None, 7, 1)?;
    let second = insert(&mut file, Some(first), 7, 2)?;
    assert_eq!(rt; find(&mut file, Some(first), 7), Ok(Some(1)));
    assert_eq!(rt; find(&mut file, Some(second), 7), Ok(Some(2)));
    Ok(())
}

#[test]
fn a_full_file_is_named(rt: HostRuntime) -> Result<(), Fail> {
    let mut file = Growing::new(rt.alloc(), 2);
    let first = insert(&mut file, None, 1, 0)?;
    let second = insert(&mut file, Some(first), 2, 0)?;
    let full = Refusal::FileFull {
        used: 2,
        needed: 1,
        max: 2,
    };
    assert_eq!(rt; insert(&mut file, Some(second), 3, 0), Err(full));
    Ok(())
}

// A leaf, and so many inner nodes, each with the block before it as its child.
fn chain(alloc: Global, inner: u64) -> Result<Growing, AllocError> {
    let mut pages = Vec::new(alloc);
    pages.push(leaf_from(&[(5, 5)], true))?;
    for at in 0..inner {
        pages.push(leaf_from(&[(5, at)], false))?;
    }
    Ok(Growing {
        pages,
        most: 100,
        faults: 0,
    })
}

#[test]
fn a_tree_that_is_too_deep_is_damage(rt: HostRuntime) -> Result<(), Fail> {
    let mut file = chain(rt.alloc(), 10)?;
    assert_eq!(rt;
        insert(&mut file, Some(10), 6, 6),
        Err(Refusal::Damaged { file: 3, block: 1 })
    );
    assert!(rt; insert(&mut file, Some(9), 6, 6).is_ok());
    Ok(())
}

#[test]
fn a_cycle_and_a_missing_block_are_damage(rt: HostRuntime) -> Result<(), Fail> {
    let mut file = Growing::new(rt.alloc(), 100);
    file.pages.push(leaf_from(&[(5, 0)], false))?;
    assert_eq!(rt;
        insert(&mut file, Some(0), 5, 5),
        Err(Refusal::Damaged { file: 3, block: 0 })
    );
    assert_eq!(rt;
        insert(&mut file, Some(9), 5, 5),
        Err(Refusal::Damaged { file: 3, block: 9 })
    );
    Ok(())
}
