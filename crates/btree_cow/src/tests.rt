ghost use Rattle.std.specs.Prelude.{false};
ghost use Rattle.block_host.specs.Disk.{not_told};
ghost use Rattle.btree_cow.specs.Shelf.{untold_shelf};

use super::*;
use forest_model::Refusal;
use node_page::{Page, leaf_from};
use std::test::Fail;

// The pages of file 7, each by its number.
//   0 to 2 are a tree of two levels, with the root 2; 0 to 6 one of three, with the root 6.
//   7 has itself as a child, 8 one above it, 9 is no node, 10 is a stem.
//   20 to 30 lie one above another, and 20 is a leaf. The disk fails at 40, which is a child of 41.
#[derive(Clone, Copy)]
struct Blocks {
    faults: u64,
}

fn page_at(at: u64) -> Option<Page> {
    match at {
        0 => Some(leaf_from(&[(10, 1), (20, 2)], true)),
        1 => Some(leaf_from(&[(30, 3), (40, 4)], true)),
        2 => Some(leaf_from(&[(10, 0), (30, 1)], false)),
        3 => Some(leaf_from(&[(50, 5), (60, 6)], true)),
        4 => Some(leaf_from(&[(70, 7)], true)),
        5 => Some(leaf_from(&[(50, 3), (70, 4)], false)),
        6 => Some(leaf_from(&[(10, 2), (50, 5)], false)),
        7 => Some(leaf_from(&[(0, 7)], false)),
        8 => Some(leaf_from(&[(0, 0), (5, 20)], false)),
        9 => Some(Page::of(b"no node")),
        20 => Some(leaf_from(&[(0, 1)], true)),
        41 => Some(leaf_from(&[(0, 40)], false)),
        _ => None,
    }
}

// The chain, else the other pages.
fn page_or_chain(at: u64) -> Option<Page> {
    if at > 20 && at <= 30 {
        Some(leaf_from(&[(0, at - 1)], false))
    } else {
        page_at(at)
    }
}

impl Pages for Blocks {
    ghost tells = { false };

    ghost shelf = { λ _. untold_shelf 7 0 0 0 };

    ghost faults = { λ b. b.faults };

    fn file(&self) -> u64 {
        7
    }

    fn page(&mut self, at: u64, kind: u8, out: &mut Page) -> Result<(), Refusal> {
        if at == 40 {
            self.faults = self.faults.saturating_add(1);
            return Err(Refusal::DiskFault);
        }
        match page_or_chain(at) {
            Some(page) if kind == 2 => {
                *out = page;
                Ok(())
            }
            _ => Err(Refusal::Damaged { file: 7, block: at }),
        }
    }

    ghost lie_below = { λ told _. not_told told };

    ghost by_content = { λ told _. not_told told };
}

fn found(root: u64, chunk: u64) -> Result<Option<u64>, Refusal> {
    find(&mut Blocks { faults: 0 }, Some(root), chunk)
}

fn nearest(root: u64, chunk: u64, with: bool, up: bool) -> Result<Option<(u64, u64)>, Refusal> {
    next(&mut Blocks { faults: 0 }, Some(root), chunk, with, up)
}

#[test]
fn chunks_of_two_levels_are_found(rt: HostRuntime) -> Result<(), Fail> {
    assert_eq!(rt; found(2, 10), Ok(Some(1)));
    assert_eq!(rt; found(2, 20), Ok(Some(2)));
    assert_eq!(rt; found(2, 30), Ok(Some(3)));
    assert_eq!(rt; found(2, 40), Ok(Some(4)));
    Ok(())
}

#[test]
fn chunks_of_three_levels_are_found(rt: HostRuntime) -> Result<(), Fail> {
    assert_eq!(rt; found(6, 20), Ok(Some(2)));
    assert_eq!(rt; found(6, 50), Ok(Some(5)));
    assert_eq!(rt; found(6, 70), Ok(Some(7)));
    Ok(())
}

#[test]
fn other_chunks_are_not_found(rt: HostRuntime) -> Result<(), Fail> {
    assert_eq!(rt; found(2, 9), Ok(None));
    assert_eq!(rt; found(2, 25), Ok(None));
    assert_eq!(rt; found(6, 45), Ok(None));
    assert_eq!(rt; found(6, u64::MAX), Ok(None));
    assert_eq!(rt; find(&mut Blocks { faults: 0 }, None, 10), Ok(None));
    Ok(())
}

#[test]
fn the_nearest_above(rt: HostRuntime) -> Result<(), Fail> {
    assert_eq!(rt; nearest(6, 30, true, true), Ok(Some((30, 3))));
    assert_eq!(rt; nearest(6, 30, false, true), Ok(Some((40, 4))));
    assert_eq!(rt; nearest(6, 0, false, true), Ok(Some((10, 1))));
    assert_eq!(rt; nearest(6, 20, false, true), Ok(Some((30, 3))));
    assert_eq!(rt; nearest(6, 40, false, true), Ok(Some((50, 5))));
    assert_eq!(rt; nearest(6, 70, false, true), Ok(None));
    Ok(())
}

#[test]
fn the_nearest_below(rt: HostRuntime) -> Result<(), Fail> {
    assert_eq!(rt; nearest(6, 30, true, false), Ok(Some((30, 3))));
    assert_eq!(rt; nearest(6, 30, false, false), Ok(Some((20, 2))));
    assert_eq!(rt; nearest(6, 50, false, false), Ok(Some((40, 4))));
    assert_eq!(rt; nearest(6, u64::MAX, false, false), Ok(Some((70, 7))));
    assert_eq!(rt; nearest(6, 10, false, false), Ok(None));
    assert_eq!(rt; nearest(6, 0, true, false), Ok(None));
    Ok(())
}

#[test]
fn without_a_root_nothing_is_near(rt: HostRuntime) -> Result<(), Fail> {
    let mut blocks = Blocks { faults: 0 };
    assert_eq!(rt; next(&mut blocks, None, 0, true, true), Ok(None));
    Ok(())
}

#[test]
fn a_child_that_is_not_below_is_damage(rt: HostRuntime) -> Result<(), Fail> {
    assert_eq!(rt; found(7, 1), Err(Refusal::Damaged { file: 7, block: 7 }));
    assert_eq!(rt; found(8, 5), Err(Refusal::Damaged { file: 7, block: 8 }));
    assert_eq!(rt;
        nearest(7, 1, true, true),
        Err(Refusal::Damaged { file: 7, block: 7 })
    );
    assert_eq!(rt;
        nearest(8, 9, true, false),
        Err(Refusal::Damaged { file: 7, block: 8 })
    );
    Ok(())
}

#[test]
fn what_is_no_node_is_damage(rt: HostRuntime) -> Result<(), Fail> {
    assert_eq!(rt; found(9, 1), Err(Refusal::Damaged { file: 7, block: 9 }));
    assert_eq!(rt; found(10, 1), Err(Refusal::Damaged { file: 7, block: 10 }));
    assert_eq!(rt;
        nearest(9, 1, true, true),
        Err(Refusal::Damaged { file: 7, block: 9 })
    );
    Ok(())
}

#[test]
fn ten_levels_are_read_and_no_more(rt: HostRuntime) -> Result<(), Fail> {
    assert_eq!(rt; found(29, 0), Ok(Some(1)));
    assert_eq!(rt; found(30, 0), Err(Refusal::Damaged { file: 7, block: 21 }));
    assert_eq!(rt;
        nearest(30, 0, true, true),
        Err(Refusal::Damaged { file: 7, block: 21 })
    );
    Ok(())
}

#[test]
fn a_chunk_below_all_children_is_not_found(rt: HostRuntime) -> Result<(), Fail> {
    assert_eq!(rt; found(6, 3), Ok(None));
    assert_eq!(rt;
        found(7, u64::MAX),
        Err(Refusal::Damaged { file: 7, block: 7 })
    );
    Ok(())
}

#[test]
fn a_fault_of_the_disk_is_told(rt: HostRuntime) -> Result<(), Fail> {
    let mut blocks = Blocks { faults: 3 };
    assert_eq!(rt; find(&mut blocks, Some(41), 0), Err(Refusal::DiskFault));
    assert_eq!(rt; blocks.faults, 4);
    Ok(())
}
