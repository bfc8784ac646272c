use super::blocks::Blocks;
use node_page::{entry, node_of};

// How many links may still lead down from the leaves, where all have the same depth, each child lies below its node,
// and each node has so many entries at least, 126 but at the root, and 253 at most.
fn links_left(blocks: &Blocks, at: u64, left: u8, least: u16) -> Option<u8> {
    let stored = blocks.stored.get(at as usize)?;
    let head = node_of(&stored.page)?;
    if head.count < least || head.count > 253 || stored.kind != 2 {
        return None;
    }
    if head.leaf {
        return Some(left);
    }
    let mut common = None;
    for n in 0..head.count.min(253) {
        let (_, child) = entry(&stored.page, n);
        if left == 0 || child >= at {
            return None;
        }
        let below = links_left(blocks, child, left - 1, 126)?;
        if common.is_some_and(|other| other != below) {
            return None;
        }
        common = Some(below);
    }
    common
}

// Whether the tree of a root has the form of one: a root that is an inner node has two children at least.
pub(super) fn is_tree(blocks: &Blocks, root: u64) -> bool {
    let least = match blocks.stored.get(root as usize) {
        Some(stored) if stored.page.bytes[0] == 2 => 2,
        _ => 1,
    };
    links_left(blocks, root, 9, least).is_some()
}
