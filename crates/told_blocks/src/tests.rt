use super::*;
use block_host::seal;
use btree_cow::{Appender, Docs, Pages, find, insert};
use doc_stream::Tail;
use forest_model::Refusal;
use node_page::{Page, leaf_from};
use std::alloc::Global;
use std::test::Fail;

fn file(alloc: Global, most: u64) -> Result<ToldBlocks, Refusal> {
    ToldBlocks::new(alloc, 7, &[], Tail::new(alloc, 0)?, most.min(100))
}

#[test]
fn a_tree_grows_in_it(rt: HostRuntime) -> Result<(), Fail> {
    let mut blocks = file(rt.alloc(), 2)?;
    let first = insert(&mut blocks, None, 5, 50)?;
    let second = insert(&mut blocks, Some(first), 6, 60)?;
    assert_eq!(rt; find(&mut blocks, Some(first), 6), Ok(None));
    assert_eq!(rt; find(&mut blocks, Some(second), 6), Ok(Some(60)));
    let full = Refusal::FileFull {
        used: 2,
        needed: 1,
        max: 2,
    };
    assert_eq!(rt; insert(&mut blocks, Some(second), 7, 70), Err(full));
    Ok(())
}
