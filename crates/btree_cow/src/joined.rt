ghost use Rattle.std.specs.Prelude.{◌≡◌, ◌⊎◌, ◌+◌, ◌<◌, ◌≤◌, Bool, true, false, List, length, ◌++◌, IsTrue, IfOk, IfErr, IfSome, IfNone, OnOk, ◌≢◌, Err};
ghost use Rattle.forest_model.specs.declared.refusal.Refusal.TheVariants as Refusal;
ghost use Rattle.node_page.specs.Nodes.{Entry, rises};
ghost use Rattle.btree_cow.specs.Copies.{Makes};
ghost use Rattle.btree_cow.specs.Takes.{LeftAlone, Refilled};
ghost use Rattle.btree_cow.specs.Refused.{BreaksPair, DownFails};
ghost use Rattle.btree_cow.specs.Growing.{Appends, AppendFails, IsApart, Stores, first_chunk};
ghost use Rattle.btree_cow.specs.Shrinking.{IsNeighbour, Refills, first_place, led_to, side_by_side, with_joined};

use crate::Appender;
use crate::grown::Grown;
use crate::overfull::{Node, Overfull, put_entry};
use crate::storing::{add_node, read_node};
use arrayvec::ArrayVec;
use forest_model::Refusal;

/// The most entries of a node.
const MOST: usize = 253;

/// The entries of two neighbours, one of which has too few for a node.
type Joined = ArrayVec<(u64, u64), 378>;

/// A child beside another one, and the place of the first of the two.
#[derive(Clone, Copy)]
struct Neighbour {
    in_front: bool,
    first: usize,
    block: u64,
}

// The neighbour of a child: the next one, else the one before.
fn neighbour_of(children: &[(u64, u64)], place: usize) -> Option<Neighbour>
    requires { place < length children.now }
    ensures some { IfSome result (λ n. IsNeighbour children.now place n.in_front n.block) }
    ensures first { IfSome result (λ n. (n.first ≡ first_place n.in_front place) × (n.first + 1 < length children.now)) }
    ensures last { IfSome result (λ n. n.in_front ≡ true → length children.now ≤ place + 1) }
    ensures none { IfNone result (length children.now ≤ 1) }
{
    if place + 1 < children.len() {
        Some(Neighbour {
            in_front: false,
            first: place,
            block: children[place + 1].1,
        })
    } else if place > 0 {
        Some(Neighbour {
            in_front: true,
            first: place - 1,
            block: children[place - 1].1,
        })
    } else {
        None
    }
}

// Whether entries can stand behind others.
fn follow(front: &[(u64, u64)], back: &[(u64, u64)]) -> bool
    requires first { IsTrue (rises front.now) }
    requires second { IsTrue (rises back.now) }
    ensures { result ≡ rises (front.now ++ back.now) }
{
    match (front.last(), back.first()) {
        (Some(last), Some(first)) => last.0 < first.0,
        _ => true,
    }
}

// Entries and others behind them, if their chunks rise.
fn join(front: &[(u64, u64)], back: &[(u64, u64)]) -> Option<Joined>
    requires fit { length front.now + length back.now ≤ 378 }
    requires first { IsTrue (rises front.now) }
    requires second { IsTrue (rises back.now) }
    ensures some { IfSome result (λ joined. (joined.items ≡ front.now ++ back.now) × IsTrue (rises joined.items)) }
    ensures none { IfNone result (rises (front.now ++ back.now) ≡ false) }
{
    if !follow(front, back) {
        return None;
    }
    let mut joined = Joined::new();
    joined.try_extend_from_slice(front).ok()?;
    joined.try_extend_from_slice(back).ok()?;
    Some(joined)
}

// Entries with the neighbour's in front of them or behind them, if both are leaves or inner nodes and the chunks rise.
fn join_neighbours(in_front: bool, other: &Node, short: &Node) -> Option<Joined>
    requires short { length short.now.entries.items < 126 }
    requires most { length other.now.entries.items ≤ 253 }
    requires first { IsTrue (rises other.now.entries.items) }
    requires second { IsTrue (rises short.now.entries.items) }
    ensures some { IfSome result (λ joined. (joined.items ≡ side_by_side in_front other.now.entries.items short.now.entries.items) × IsTrue (rises joined.items)) }
    ensures alike { IfSome result (λ joined. other.now.leaf ≡ short.now.leaf) }
    ensures none { IfNone result (other.now.leaf ≡ short.now.leaf → rises (side_by_side in_front other.now.entries.items short.now.entries.items) ≡ false) }
{
    if other.leaf != short.leaf {
        return None;
    }
    if in_front {
        join(other.entries.as_slice(), short.entries.as_slice())
    } else {
        join(short.entries.as_slice(), other.entries.as_slice())
    }
}

fn least_chunk(entries: &[(u64, u64)]) -> u64
    requires { 1 ≤ length entries.now }
    ensures { result ≡ first_chunk entries.now }
{
    entries[0].0
}

// Appends one node of these entries, or two of a half of them each.
fn store_joined<P: Appender>(
    pages: &mut P,
    leaf: bool,
    entries: &[(u64, u64)],
) -> Result<Grown, Refusal>
    requires some { 1 ≤ length entries.now }
    requires most { length entries.now ≤ 378 }
    requires rise { IsTrue (rises entries.now) }
    ensures stores { IsTrue P.tells → IfOk result (Stores leaf entries.now (P.shelf pages.old) (P.shelf pages.new)) }
    ensures makes { IsTrue P.tells → IfOk result (Makes leaf entries.now (P.shelf pages.old) (P.shelf pages.new)) }
    ensures reason { IfErr result (AppendFails (P.shelf pages.new) (P.faults pages.old) (P.faults pages.new)) }
    ensures few { (P.shelf pages.new).used ≤ (P.shelf pages.old).used + 2 }
    ensures appends { Appends P.tells (P.shelf pages.old) (P.shelf pages.new) (P.faults pages.old) (P.faults pages.new) }
    ensures untroubled { result ≢ Err Refusal.DiskFault → P.faults pages.new ≡ P.faults pages.old }
{
    if entries.len() <= MOST {
        let at = add_node(pages, leaf, entries)?;
        return Ok(Grown::One(at));
    }
    let (front, back) = entries.split_at(entries.len() / 2);
    let left = add_node(pages, leaf, front)?;
    let right = add_node(pages, leaf, back)?;
    Ok(Grown::Two((least_chunk(front), left), (least_chunk(back), right)))
}

/// Has the child at a place lead to another block.
pub(crate) fn lead_to(children: &mut Overfull, place: usize, block: u64)
    requires { place < length children.old.items }
    ensures { children.new.items ≡ led_to children.old.items place block }
{
    let chunk = children.as_slice()[place].0;
    children.as_mut_slice()[place] = (chunk, block);
}

// Puts what two neighbours became in their places.
fn replace_pair(children: &mut Overfull, place: usize, grown: Grown)
    requires within { place + 1 < length children.old.items }
    requires most { length children.old.items ≤ 253 }
    requires rise { IsTrue (rises children.old.items) }
    ensures { children.new.items ≡ with_joined children.old.items place grown }
{
    match grown {
        Grown::One(block) => {
            lead_to(children, place, block);
            children.remove(place + 1);
        }
        Grown::Two(left, right) => {
            lead_to(children, place, left.1);
            children.remove(place + 1);
            put_entry(children, right.0, right.1);
        }
    }
}

// Stores a short node as it is, or takes an empty one away.
fn store_alone<P: Appender>(
    pages: &mut P,
    children: &mut Overfull,
    place: usize,
    short: &Node,
) -> Result<(), Refusal>
    requires within { place < length children.old.items }
    requires rise { IsTrue (rises children.old.items) }
    requires few { length short.now.entries.items < 126 }
    requires second { IsTrue (rises short.now.entries.items) }
    ensures alone { IsTrue P.tells → OnOk result (LeftAlone short.now.leaf short.now.entries.items children.old.items place (P.shelf pages.old) (P.shelf pages.new) children.new.items) }
    ensures rise { OnOk result (IsTrue (rises children.new.items)) }
    ensures most { OnOk result (length children.new.items ≤ length children.old.items) }
    ensures reason { IfErr result (AppendFails (P.shelf pages.new) (P.faults pages.old) (P.faults pages.new)) }
    ensures few { (P.shelf pages.new).used ≤ (P.shelf pages.old).used + 1 }
    ensures appends { Appends P.tells (P.shelf pages.old) (P.shelf pages.new) (P.faults pages.old) (P.faults pages.new) }
    ensures untroubled { result ≢ Err Refusal.DiskFault → P.faults pages.new ≡ P.faults pages.old }
{
    if short.entries.is_empty() {
        children.remove(place);
        return Ok(());
    }
    let block = add_node(pages, short.leaf, short.entries.as_slice())?;
    lead_to(children, place, block);
    Ok(())
}

/// Stores a short node in its place among the children of the node in a block, joined with a neighbour. On blocks that
/// are no tree, where it can't be joined, it is stored as it is.
pub(crate) fn refill<P: Appender>(
    pages: &mut P,
    children: &mut Overfull,
    at: u64,
    place: usize,
    short: &Node,
) -> Result<(), Refusal>
    requires within { place < length children.old.items }
    requires many { length children.old.items ≤ 253 }
    requires rise { IsTrue (rises children.old.items) }
    requires few { length short.now.entries.items < 126 }
    requires second { IsTrue (rises short.now.entries.items) }
    ensures refills { IsTrue P.tells → OnOk result (Refills short.now.leaf short.now.entries.items children.old.items place (P.shelf pages.old) (P.shelf pages.new) children.new.items) }
    ensures refilled { IsTrue P.tells → OnOk result (Refilled at short.now.leaf short.now.entries.items children.old.items place (P.shelf pages.old) (P.shelf pages.new) children.new.items) }
    ensures rise { OnOk result (IsTrue (rises children.new.items)) }
    ensures most { OnOk result (length children.new.items ≤ length children.old.items) }
    ensures reason { IfErr result (DownFails P.tells (BreaksPair children.old.items place at (P.shelf pages.old)) at (P.shelf pages.old) (P.shelf pages.new) (P.faults pages.old) (P.faults pages.new)) }
    ensures few { (P.shelf pages.new).used ≤ (P.shelf pages.old).used + 2 }
    ensures appends { Appends P.tells (P.shelf pages.old) (P.shelf pages.new) (P.faults pages.old) (P.faults pages.new) }
    ensures untroubled { result ≢ Err Refusal.DiskFault → P.faults pages.new ≡ P.faults pages.old }
{
    let Some(neighbour) = neighbour_of(children.as_slice(), place) else {
        return store_alone(pages, children, place, short);
    };
    if at <= neighbour.block {
        return Err(Refusal::Damaged {
            file: pages.file(),
            block: at,
        });
    }
    let other = read_node(pages, neighbour.block)?;
    let Some(joined) = join_neighbours(neighbour.in_front, &other, short) else {
        return store_alone(pages, children, place, short);
    };
    let grown = store_joined(pages, short.leaf, joined.as_slice())?;
    replace_pair(children, neighbour.first, grown);
    Ok(())
}
