use super::*;
use crate::insert_tests::{Growing, Order, chunk_at, stands_for};
use forest_model::Refusal;
use node_page::leaf_from;
use std::alloc::{AllocError, Global};
use std::test::Fail;

// The root of a tree of the chunks 1 to 1,000, each with ten times itself.
fn fill(file: &mut Growing) -> Result<Option<u64>, Refusal> {
    let mut root = None;
    for place in 1..1001 {
        let chunk = chunk_at(Order::Mixed, place);
        root = Some(insert(file, root, chunk, 10 * chunk)?);
    }
    Ok(root)
}

// Whether a root stands for the chunks that are present; no root where there is none.
fn holds(
    alloc: Global,
    file: &Growing,
    root: Option<u64>,
    present: &[bool; 1001],
) -> Result<bool, AllocError> {
    match root {
        Some(at) => stands_for(alloc, file, at, present),
        None => Ok(!present.iter().any(|is_present| *is_present)),
    }
}

// Whether after each hundred steps the tree has the entries that are left, where every chunk is removed or every odd one.
fn shrinks(alloc: Global, order: Order, every: bool) -> Result<bool, Refusal> {
    let mut file = Growing::new(alloc, 10_000);
    let mut root = fill(&mut file)?;
    let mut present = [true; 1001];
    present[0] = false;
    let mut right = true;
    for place in 1..1001 {
        let chunk = chunk_at(order, place);
        if every || chunk % 2 == 1 {
            root = remove(&mut file, root, chunk)?;
            present[chunk as usize] = false;
        }
        if place % 100 == 0 {
            right = holds(alloc, &file, root, &present)? && right;
        }
    }
    Ok(right)
}

#[test]
fn every_odd_chunk_goes(rt: HostRuntime) -> Result<(), Fail> {
    assert!(rt; shrinks(rt.alloc(), Order::Rising, false)?);
    assert!(rt; shrinks(rt.alloc(), Order::Falling, false)?);
    assert!(rt; shrinks(rt.alloc(), Order::Mixed, false)?);
    Ok(())
}

#[test]
fn every_chunk_goes_down_to_no_root(rt: HostRuntime) -> Result<(), Fail> {
    assert!(rt; shrinks(rt.alloc(), Order::Rising, true)?);
    assert!(rt; shrinks(rt.alloc(), Order::Falling, true)?);
    assert!(rt; shrinks(rt.alloc(), Order::Mixed, true)?);
    Ok(())
}

#[test]
fn an_absent_chunk_appends_nothing(rt: HostRuntime) -> Result<(), Fail> {
    let mut file = Growing::new(rt.alloc(), 10_000);
    let root = fill(&mut file)?;
    let pages = file.pages.len();
    assert_eq!(rt; remove(&mut file, root, 1001), Ok(root));
    assert_eq!(rt; remove(&mut file, root, 0), Ok(root));
    assert_eq!(rt; remove(&mut file, None, 5), Ok(None));
    assert_eq!(rt; file.pages.len(), pages);
    Ok(())
}

#[test]
fn the_old_tree_stays(rt: HostRuntime) -> Result<(), Fail> {
    let mut file = Growing::new(rt.alloc(), 10_000);
    let root = fill(&mut file)?;
    let left = remove(&mut file, root, 500)?;
    assert_eq!(rt; find(&mut file, root, 500), Ok(Some(5000)));
    assert_eq!(rt; find(&mut file, left, 500), Ok(None));
    assert_eq!(rt; find(&mut file, left, 501), Ok(Some(5010)));
    Ok(())
}

#[test]
fn changes_are_made_in_their_order(rt: HostRuntime) -> Result<(), Fail> {
    let mut file = Growing::new(rt.alloc(), 10_000);
    let root = fill(&mut file)?;
    let changes = [(1, None), (2, Some(7)), (1001, Some(9)), (2000, None)];
    let after = apply(&mut file, root, &changes)?;
    assert_eq!(rt; find(&mut file, after, 1), Ok(None));
    assert_eq!(rt; find(&mut file, after, 2), Ok(Some(7)));
    assert_eq!(rt; find(&mut file, after, 3), Ok(Some(30)));
    assert_eq!(rt; find(&mut file, after, 1001), Ok(Some(9)));
    Ok(())
}

#[test]
fn no_change_leaves_the_root(rt: HostRuntime) -> Result<(), Fail> {
    let mut file = Growing::new(rt.alloc(), 1);
    assert_eq!(rt; apply(&mut file, Some(5), &[]), Ok(Some(5)));
    assert_eq!(rt; apply(&mut file, None, &[(1, Some(1))]), Ok(Some(0)));
    assert_eq!(rt; apply(&mut file, Some(0), &[(1, None)]), Ok(None));
    Ok(())
}

// A leaf at 0, and an inner node at 1 over it and another block.
fn beside(alloc: Global, other: u64) -> Result<Growing, Refusal> {
    let mut file = Growing::new(alloc, 100);
    file.pages.push(leaf_from(&[(5, 5), (6, 6)], true))?;
    file.pages.push(leaf_from(&[(0, 0), (9, other)], false))?;
    Ok(file)
}

#[test]
fn a_neighbour_that_is_not_below_is_damage(rt: HostRuntime) -> Result<(), Fail> {
    let mut file = beside(rt.alloc(), 1)?;
    assert_eq!(rt;
        remove(&mut file, Some(1), 5),
        Err(Refusal::Damaged { file: 3, block: 1 })
    );
    Ok(())
}

#[test]
fn a_neighbour_with_the_same_chunks_is_not_joined(rt: HostRuntime) -> Result<(), Fail> {
    let mut file = beside(rt.alloc(), 0)?;
    let root = remove(&mut file, Some(1), 5)?;
    assert_eq!(rt; root, Some(3));
    assert_eq!(rt; find(&mut file, root, 5), Ok(None));
    assert_eq!(rt; find(&mut file, root, 6), Ok(Some(6)));
    Ok(())
}

#[test]
fn a_child_above_and_a_missing_root_are_damage(rt: HostRuntime) -> Result<(), Fail> {
    let mut file = Growing::new(rt.alloc(), 100);
    file.pages.push(leaf_from(&[(5, 5)], true))?;
    file.pages.push(leaf_from(&[(0, 0), (9, 1)], false))?;
    assert_eq!(rt;
        remove(&mut file, Some(1), 9),
        Err(Refusal::Damaged { file: 3, block: 1 })
    );
    assert_eq!(rt;
        remove(&mut file, Some(2), 9),
        Err(Refusal::Damaged { file: 3, block: 2 })
    );
    Ok(())
}
