ghost use Rattle.std.specs.Prelude.{◌≡◌, ◌⊎◌, ◌<◌, ◌≤◌, ℕ, Bool, List, length, IsTrue, IfSome, IfNone};
ghost use Rattle.node_page.specs.Nodes.{Entry, rises};
ghost use Rattle.btree_cow.specs.Changes.{with_entry};
ghost use Rattle.btree_cow.specs.Growing.{IsCount, IsCut, IsChild, is_at, with_block, with_child};

use crate::grown::Grown;
use arrayvec::ArrayVec;

/// The entries of a node, with room for one more than a block holds.
pub(crate) type Overfull = ArrayVec<(u64, u64), 254>;

/// A node that was read.
#[derive(Drop)]
pub(crate) struct Node {
    pub(crate) leaf: bool,
    pub(crate) entries: Overfull,
}

// How many entries lie below a chunk.
fn count_below(entries: &[(u64, u64)], chunk: u64) -> usize
    requires { IsTrue (rises entries.now) }
    ensures { IsCount entries.now chunk result }
{
    entries.partition_point(|entry| entry.0 < chunk)
}

// Whether the entry at a place has this chunk.
fn is_at(entries: &[(u64, u64)], place: usize, chunk: u64) -> bool
    ensures { result ≡ is_at entries.now place chunk }
{
    match entries.get(place) {
        Some(entry) => entry.0 == chunk,
        None => false,
    }
}

/// Puts a value for a chunk, in place of an older one.
pub(crate) fn put_entry(entries: &mut Overfull, chunk: u64, value: u64)
    requires room { length entries.old.items < 254 }
    requires rise { IsTrue (rises entries.old.items) }
    ensures { entries.new.items ≡ with_entry entries.old.items chunk value }
{
    let place = count_below(entries.as_slice(), chunk);
    if is_at(entries.as_slice(), place, chunk) {
        entries.as_mut_slice()[place] = (chunk, value);
    } else {
        entries.insert(place, (chunk, value));
    }
}

// The place of the last child that isn't above a chunk, or of the first one where there is none.
fn child_place(children: &[(u64, u64)], chunk: u64) -> usize
    requires some { 1 ≤ length children.now }
    requires rise { IsTrue (rises children.now) }
    ensures within { result < length children.now }
    ensures cut { IsCut children.now chunk result }
{
    let below = count_below(children, chunk);
    if is_at(children, below, chunk) {
        below
    } else {
        below.saturating_sub(1)
    }
}

/// The place and the block of the child that takes a chunk. There is none where it isn't below its node, or where no
/// link is left.
pub(crate) fn child_for(
    children: &[(u64, u64)],
    at: u64,
    left: u8,
    chunk: u64,
) -> Option<(usize, u64)>
    requires some { 1 ≤ length children.now }
    requires rise { IsTrue (rises children.now) }
    ensures found { IfSome result (λ child. IsChild children.now chunk child.0 child.1) }
    ensures lower { IfSome result (λ child. (0 < left) × (child.1 < at)) }
    ensures none { IfNone result ((left ≡ 0) ⊎ ((place : ℕ) × (child : ℕ) × IsChild children.now chunk place child × (at ≤ child))) }
{
    let place = child_place(children, chunk);
    let block = children[place].1;
    if left == 0 || at <= block {
        None
    } else {
        Some((place, block))
    }
}

// Puts another block for the child that takes a chunk, and lowers its chunk to this one.
fn set_block(children: &mut Overfull, place: usize, chunk: u64, block: u64)
    requires { place < length children.old.items }
    ensures { children.new.items ≡ with_block children.old.items place chunk block }
{
    let least = children.as_slice()[place].0.min(chunk);
    children.as_mut_slice()[place] = (least, block);
}

/// Puts what came of a child that took a chunk in its place.
pub(crate) fn replace_child(children: &mut Overfull, place: usize, chunk: u64, grown: Grown)
    requires room { length children.old.items < 254 }
    requires rise { IsTrue (rises children.old.items) }
    requires here { IsCut children.old.items chunk place }
    ensures { children.new.items ≡ with_child children.old.items place chunk grown }
{
    match grown {
        Grown::One(block) => set_block(children, place, chunk, block),
        Grown::Two(left, right) => {
            set_block(children, place, chunk, left.1);
            put_entry(children, right.0, right.1);
        }
    }
}
