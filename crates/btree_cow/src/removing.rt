ghost use Rattle.std.specs.Prelude.{◌≡◌, ◌⊎◌, ◌<◌, ◌≤◌, ℕ, Bool, true, false, List, length, Option, Some, None, [], ◌∷◌, IsTrue, IfOk, IfErr, IfSome, IfNone, ◌≢◌, Err, ◌+◌, ◌*◌};
ghost use Rattle.forest_model.specs.declared.refusal.Refusal.TheVariants as Refusal;
ghost use Rattle.node_page.specs.Nodes.{Entry, rises};
ghost use Rattle.btree_cow.specs.Shelf.{Later, Shelf};
ghost use Rattle.btree_cow.specs.Trees.{NodeAt, Tree, TreeAt, value_of};
ghost use Rattle.btree_cow.specs.Causes.{is_full};
ghost use Rattle.btree_cow.specs.Changes.{without_entry, StaysWell, SameLimits};
ghost use Rattle.btree_cow.specs.Barred.{NamesBelow};
ghost use Rattle.btree_cow.specs.Refused.{BreaksShort, BreaksTake, BreaksTaking, ChangeFails, DownFails};
ghost use Rattle.btree_cow.specs.Growing.{Appends, AppendFails, GoesDown};
ghost use Rattle.btree_cow.specs.Takes.{Passed, RootLeft, Settled, Taken, Takes, TakesOut, most_stored, stored_count};
ghost use Rattle.btree_cow.specs.Shrinking.{IsChanged, IsSame, IsShort, Passes, Removes, Roots, Settles};

use crate::Appender;
use crate::joined::{lead_to, refill};
use crate::overfull::{Node, Overfull, child_for};
use crate::shrunk::Shrunk;
use crate::storing::{add_node, read_node};
use forest_model::Refusal;

/// The most links that lead down a tree.
const MOST_LINKS: u8 = 9;

/// The least entries of a node that is no root.
const LEAST: usize = 126;

// Takes the entry of a chunk out, and answers whether there was one.
fn take_entry(entries: &mut Overfull, chunk: u64) -> bool
    ensures left { entries.new.items ≡ without_entry entries.old.items chunk }
    ensures found { result ≡ true → length entries.new.items < length entries.old.items }
    ensures none { result ≡ false → entries.new.items ≡ entries.old.items }
{
    let before = entries.len();
    entries.retain(|entry| entry.0 != chunk);
    entries.len() < before
}

// Appends the node, unless it has too few entries.
fn settle<P: Appender>(pages: &mut P, node: Node) -> Result<Shrunk, Refusal>
    requires most { length node.entries.items ≤ 253 }
    requires rise { IsTrue (rises node.entries.items) }
    ensures settles { IsTrue P.tells → IfOk result (Settles node.leaf node.entries.items (P.shelf pages.old) (P.shelf pages.new)) }
    ensures settled { IsTrue P.tells → IfOk result (Settled node.leaf node.entries.items (P.shelf pages.old) (P.shelf pages.new)) }
    ensures short { IfOk result IsShort }
    ensures changed { IfOk result IsChanged }
    ensures reason { IfErr result (AppendFails (P.shelf pages.new) (P.faults pages.old) (P.faults pages.new)) }
    ensures few { (P.shelf pages.new).used ≤ (P.shelf pages.old).used + most_stored result }
    ensures appends { Appends P.tells (P.shelf pages.old) (P.shelf pages.new) (P.faults pages.old) (P.faults pages.new) }
    ensures untroubled { result ≢ Err Refusal.DiskFault → P.faults pages.new ≡ P.faults pages.old }
{
    if node.entries.len() < LEAST {
        return Ok(Shrunk::Short(node));
    }
    let block = add_node(pages, node.leaf, node.entries.as_slice())?;
    Ok(Shrunk::Stored(block))
}

// Takes a chunk out of a leaf.
fn remove_from_leaf<P: Appender>(
    pages: &mut P,
    mut leaf: Node,
    chunk: u64,
) -> Result<Shrunk, Refusal>
    requires most { length leaf.entries.items ≤ 253 }
    requires rise { IsTrue (rises leaf.entries.items) }
    ensures removes { IsTrue P.tells → leaf.leaf ≡ true → (at : ℕ) → NodeAt (P.shelf pages.old) at true leaf.entries.items → IfOk result (Removes at chunk (P.shelf pages.old) (P.shelf pages.new)) }
    ensures taken { IsTrue P.tells → leaf.leaf ≡ true → IfOk result (TakesOut leaf.entries.items chunk (P.shelf pages.old) (P.shelf pages.new)) }
    ensures short { IfOk result IsShort }
    ensures same { IfOk result (IsSame (P.shelf pages.old) (P.shelf pages.new)) }
    ensures reason { IfErr result (AppendFails (P.shelf pages.new) (P.faults pages.old) (P.faults pages.new)) }
    ensures few { (P.shelf pages.new).used ≤ (P.shelf pages.old).used + most_stored result }
    ensures appends { Appends P.tells (P.shelf pages.old) (P.shelf pages.new) (P.faults pages.old) (P.faults pages.new) }
    ensures untroubled { result ≢ Err Refusal.DiskFault → P.faults pages.new ≡ P.faults pages.old }
{
    if take_entry(&mut leaf.entries, chunk) {
        settle(pages, leaf)
    } else {
        Ok(Shrunk::Absent)
    }
}

// Puts what became of a child in its place in the node of a block.
fn pass_up<P: Appender>(
    pages: &mut P,
    mut node: Node,
    at: u64,
    place: usize,
    shrunk: Shrunk,
) -> Result<Shrunk, Refusal>
    requires within { place < length node.entries.items }
    requires most { length node.entries.items ≤ 253 }
    requires rise { IsTrue (rises node.entries.items) }
    requires short { IsShort shrunk }
    ensures passes { IsTrue P.tells → node.leaf ≡ false → IfOk result (Passes node.entries.items place shrunk (P.shelf pages.old) (P.shelf pages.new)) }
    ensures passed { IsTrue P.tells → node.leaf ≡ false → IfOk result (Passed at node.entries.items place shrunk (P.shelf pages.old) (P.shelf pages.new)) }
    ensures same { IfOk result (λ s. (first : Shelf) → IsSame first (P.shelf pages.old) shrunk → IsSame first (P.shelf pages.new) s) }
    ensures short { IfOk result IsShort }
    ensures reason { IfErr result (DownFails P.tells (BreaksShort shrunk node.entries.items place at (P.shelf pages.old)) at (P.shelf pages.old) (P.shelf pages.new) (P.faults pages.old) (P.faults pages.new)) }
    ensures few { (P.shelf pages.new).used + stored_count shrunk ≤ (P.shelf pages.old).used + (2 + most_stored result) }
    ensures appends { Appends P.tells (P.shelf pages.old) (P.shelf pages.new) (P.faults pages.old) (P.faults pages.new) }
    ensures untroubled { result ≢ Err Refusal.DiskFault → P.faults pages.new ≡ P.faults pages.old }
{
    match shrunk {
        Shrunk::Absent => Ok(Shrunk::Absent),
        Shrunk::Stored(block) => {
            lead_to(&mut node.entries, place, block);
            settle(pages, node)
        }
        Shrunk::Short(short) => {
            refill(pages, &mut node.entries, at, place, &short)?;
            settle(pages, node)
        }
    }
}

// Removes a chunk from the tree in a block, going down so many links at most.
fn remove_from<P: Appender>(pages: &mut P, at: u64, left: u8, chunk: u64) -> Result<Shrunk, Refusal>
    ensures removes { IsTrue P.tells → IfOk result (Removes at chunk (P.shelf pages.old) (P.shelf pages.new)) }
    ensures taken { IsTrue P.tells → IfOk result (Taken left at chunk (P.shelf pages.old) (P.shelf pages.new)) }
    ensures short { IfOk result IsShort }
    ensures same { IfOk result (IsSame (P.shelf pages.old) (P.shelf pages.new)) }
    ensures reason { IfErr result (DownFails P.tells (BreaksTaking (P.shelf pages.old) left chunk at) at (P.shelf pages.old) (P.shelf pages.new) (P.faults pages.old) (P.faults pages.new)) }
    ensures few { (links : ℕ) → GoesDown P.tells left (P.shelf pages.old) at links → (P.shelf pages.new).used ≤ (P.shelf pages.old).used + (2 * links + most_stored result) }
    ensures appends { Appends P.tells (P.shelf pages.old) (P.shelf pages.new) (P.faults pages.old) (P.faults pages.new) }
    ensures untroubled { result ≢ Err Refusal.DiskFault → P.faults pages.new ≡ P.faults pages.old }
{
    let node = read_node(pages, at)?;
    if node.leaf {
        return remove_from_leaf(pages, node, chunk);
    }
    let Some((place, child)) = child_for(node.entries.as_slice(), at, left, chunk) else {
        return Err(Refusal::Damaged {
            file: pages.file(),
            block: at,
        });
    };
    let shrunk = remove_from(pages, child, left - 1, chunk)?;
    pass_up(pages, node, at, place, shrunk)
}

// The child of an inner node that has only one.
fn only_child(node: &Node) -> Option<u64>
    ensures some { IfSome result (λ child. (node.now.leaf ≡ false) × (c : Entry) × (node.now.entries.items ≡ c ∷ []) × (c.1 ≡ child)) }
    ensures none { IfNone result (node.now.leaf ≡ false → length node.now.entries.items ≡ 1 → ⊥) }
{
    match node.entries.as_slice() {
        [child] if !node.leaf => Some(child.1),
        _ => None,
    }
}

// The root of what is left: no root where nothing is, and the child in place of an inner node that has only one.
fn root_of<P: Appender>(pages: &mut P, node: &Node) -> Result<Option<u64>, Refusal>
    requires few { length node.now.entries.items < 126 }
    requires rise { IsTrue (rises node.now.entries.items) }
    ensures roots { IsTrue P.tells → IfOk result (Roots node.now.leaf node.now.entries.items (P.shelf pages.old) (P.shelf pages.new)) }
    ensures left { IsTrue P.tells → IfOk result (RootLeft node.now.leaf node.now.entries.items (P.shelf pages.old) (P.shelf pages.new)) }
    ensures reason { IfErr result (AppendFails (P.shelf pages.new) (P.faults pages.old) (P.faults pages.new)) }
    ensures few { (P.shelf pages.new).used ≤ (P.shelf pages.old).used + 1 }
    ensures appends { Appends P.tells (P.shelf pages.old) (P.shelf pages.new) (P.faults pages.old) (P.faults pages.new) }
    ensures untroubled { result ≢ Err Refusal.DiskFault → P.faults pages.new ≡ P.faults pages.old }
{
    if node.entries.is_empty() {
        return Ok(None);
    }
    if let Some(child) = only_child(node) {
        return Ok(Some(child));
    }
    let at = add_node(pages, node.leaf, node.entries.as_slice())?;
    Ok(Some(at))
}

/// Removes a chunk, and answers the new root: none where nothing is left. An absent chunk leaves the root and appends
/// nothing. A copy of each node on the way is appended, joined with its neighbour where it got short, and no old one
/// changes. Whatever it answers, at most 21 nodes were appended. A damaged block that it names is on the chunk's way from
/// the root, or the neighbour of a node on it that got short.
pub fn remove<P: Appender>(
    pages: &mut P,
    root: Option<u64>,
    chunk: u64,
) -> Result<Option<u64>, Refusal>
    ensures removed { IsTrue P.tells → (ok : ℕ → ℕ → Bool) (entries : List Entry) → StaysWell ok → Tree ok (P.shelf pages.old) root entries → IfOk result (λ at. Tree ok (P.shelf pages.new) at (without_entry entries chunk)) }
    ensures copies { IsTrue P.tells → IfOk result (Takes root chunk (P.shelf pages.old) (P.shelf pages.new)) }
    ensures few { IsTrue P.tells → (ok : ℕ → ℕ → Bool) (at height : ℕ) (entries : List Entry) → root ≡ Some at → TreeAt ok (P.shelf pages.old) height 1 at 0 None entries → (P.shelf pages.new).used ≤ (P.shelf pages.old).used + (2 * height + 1) }
    ensures most { (P.shelf pages.new).used ≤ (P.shelf pages.old).used + 21 }
    ensures absent { IsTrue P.tells → (ok : ℕ → ℕ → Bool) (entries : List Entry) → Tree ok (P.shelf pages.old) root entries → value_of entries chunk ≡ None → IfOk result (λ at. (at ≡ root) × (P.shelf pages.new ≡ P.shelf pages.old)) }
    ensures stands { IsTrue P.tells → (ok : ℕ → ℕ → Bool) (entries : List Entry) → Tree ok (P.shelf pages.old) root entries → IfErr result (λ why. (why ≡ Refusal.DiskFault) ⊎ (why ≡ is_full (P.shelf pages.new))) }
    ensures reason { IfErr result (ChangeFails P.tells (BreaksTake (P.shelf pages.old) root chunk) (P.shelf pages.old) (P.shelf pages.new) (P.faults pages.old) (P.faults pages.new)) }
    ensures asked { IfErr result (NamesBelow (P.shelf pages.old).file root) }
    ensures later { IsTrue P.tells → Later (P.shelf pages.old) (P.shelf pages.new) }
    ensures limits { SameLimits (P.shelf pages.old) (P.shelf pages.new) }
    ensures counts { P.faults pages.old ≤ P.faults pages.new }
    ensures untroubled { result ≢ Err Refusal.DiskFault → P.faults pages.new ≡ P.faults pages.old }
{
    let Some(at) = root else {
        return Ok(None);
    };
    match remove_from(pages, at, MOST_LINKS, chunk)? {
        Shrunk::Absent => Ok(root),
        Shrunk::Stored(block) => Ok(Some(block)),
        Shrunk::Short(node) => root_of(pages, &node),
    }
}
