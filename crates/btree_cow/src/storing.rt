ghost use Rattle.std.specs.Prelude.{◌≡◌, ◌≢◌, ◌+◌, Err, ◌<◌, ◌≤◌, ℕ, Bool, List, length, IsTrue, IfOk, IfErr, OnOk, OnErr};
ghost use Rattle.forest_model.specs.declared.refusal.Refusal.TheVariants as Refusal;
ghost use Rattle.node_page.specs.Nodes.{Entry, IsNode, rises};
ghost use Rattle.btree_cow.specs.Trees.{NodeAt};
ghost use Rattle.btree_cow.specs.Barred.{NodeFails};
ghost use Rattle.btree_cow.specs.Copies.{Makes, last_block};
ghost use Rattle.btree_cow.specs.Growing.{AddsNode, Appends, AppendFails, IsApart, IsRead, Stores, first_chunk};

use crate::grown::Grown;
use crate::overfull::{Node, Overfull};
use crate::{Appender, Pages};
use arrayvec::ArrayVec;
use forest_model::Refusal;
use node_page::{Page, entry, leaf_from, node_of};

/// The most entries of a node.
const MOST: usize = 253;

/// The entries of each half, where a node has one too many.
const HALF: usize = 127;

// So many entries of a page.
fn entries_of(page: &Page, count: u16) -> Overfull
    requires { count ≤ 253 }
    ensures { (leaf : Bool) (entries : List Entry) → IsNode page.now leaf entries → count ≡ length entries → result.items ≡ entries }
{
    let mut entries = ArrayVec::new();
    for n in 0..count {
        entries.push(entry(page, n));
    }
    entries
}

/// The node of a block.
pub(crate) fn read_node<P: Pages>(pages: &mut P, at: u64) -> Result<Node, Refusal>
    ensures node { IfOk result (λ node. IsRead P.tells (P.shelf pages.old) at node.leaf node.entries.items) }
    ensures reason { IfErr result (NodeFails P.tells (P.shelf pages.old) at (P.faults pages.old) (P.faults pages.new)) }
    ensures kept { P.shelf pages.new ≡ P.shelf pages.old }
    ensures counts { P.faults pages.old ≤ P.faults pages.new }
    ensures untroubled { result ≢ Err Refusal.DiskFault → P.faults pages.new ≡ P.faults pages.old }
{
    let mut page = Page::of(b"");
    pages.page(at, 2, &mut page)?;
    match node_of(&page) {
        Some(head) => Ok(Node {
            leaf: head.leaf,
            entries: entries_of(&page, head.count),
        }),
        None => Err(Refusal::Damaged {
            file: pages.file(),
            block: at,
        }),
    }
}

/// Appends a node.
pub(crate) fn add_node<P: Appender>(
    pages: &mut P,
    leaf: bool,
    entries: &[(u64, u64)],
) -> Result<u64, Refusal>
    requires some { 1 ≤ length entries.now }
    requires most { length entries.now ≤ 253 }
    requires rise { IsTrue (rises entries.now) }
    ensures added { IsTrue P.tells → IfOk result (AddsNode leaf entries.now (P.shelf pages.old) (P.shelf pages.new)) }
    ensures last { IfOk result (λ at. at + 1 ≡ (P.shelf pages.new).used) }
    ensures counted { OnOk result ((P.shelf pages.new).used ≡ (P.shelf pages.old).used + 1) }
    ensures refused { OnErr result (P.shelf pages.new ≡ P.shelf pages.old) }
    ensures few { (P.shelf pages.new).used ≤ (P.shelf pages.old).used + 1 }
    ensures reason { IfErr result (AppendFails (P.shelf pages.new) (P.faults pages.old) (P.faults pages.new)) }
    ensures appends { Appends P.tells (P.shelf pages.old) (P.shelf pages.new) (P.faults pages.old) (P.faults pages.new) }
    ensures untroubled { result ≢ Err Refusal.DiskFault → P.faults pages.new ≡ P.faults pages.old }
{
    pages.add(2, &leaf_from(entries, leaf))
}

fn least_chunk(entries: &[(u64, u64)]) -> u64
    requires { 1 ≤ length entries.now }
    ensures { result ≡ first_chunk entries.now }
{
    entries[0].0
}

/// Appends the node of these entries, or one of each half where there is one too many.
pub(crate) fn store<P: Appender>(
    pages: &mut P,
    leaf: bool,
    entries: &[(u64, u64)],
) -> Result<Grown, Refusal>
    requires some { 1 ≤ length entries.now }
    requires most { length entries.now ≤ 254 }
    requires rise { IsTrue (rises entries.now) }
    ensures stores { IsTrue P.tells → IfOk result (Stores leaf entries.now (P.shelf pages.old) (P.shelf pages.new)) }
    ensures makes { IsTrue P.tells → IfOk result (Makes leaf entries.now (P.shelf pages.old) (P.shelf pages.new)) }
    ensures last { IfOk result (λ grown. last_block grown + 1 ≡ (P.shelf pages.new).used) }
    ensures apart { IfOk result IsApart }
    ensures reason { IfErr result (AppendFails (P.shelf pages.new) (P.faults pages.old) (P.faults pages.new)) }
    ensures few { (P.shelf pages.new).used ≤ (P.shelf pages.old).used + 2 }
    ensures appends { Appends P.tells (P.shelf pages.old) (P.shelf pages.new) (P.faults pages.old) (P.faults pages.new) }
    ensures untroubled { result ≢ Err Refusal.DiskFault → P.faults pages.new ≡ P.faults pages.old }
{
    if entries.len() <= MOST {
        let at = add_node(pages, leaf, entries)?;
        return Ok(Grown::One(at));
    }
    let (front, back) = entries.split_at(HALF);
    let left = add_node(pages, leaf, front)?;
    let right = add_node(pages, leaf, back)?;
    Ok(Grown::Two((least_chunk(front), left), (least_chunk(back), right)))
}
