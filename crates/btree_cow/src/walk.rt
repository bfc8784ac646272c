ghost use Rattle.std.specs.Prelude.{◌≡◌, ◌≤◌, ◌<◌, ◌⊎◌, ℕ, Bool, true, false, List, length, nat_lt, Option, IsTrue, IfOk, IfErr, IfSome, OnOk, MatchOption, ◌≢◌, Err, ◌+◌};
ghost use Rattle.std.specs.List.{list_all};
ghost use Rattle.std.specs.Option.{is_some};
ghost use Rattle.forest_model.specs.declared.refusal.Refusal.TheVariants as Refusal;
ghost use Rattle.node_page.specs.Nodes.{Entry, IsNode};
ghost use Rattle.btree_cow.specs.Shelf.{is_stored};
ghost use Rattle.btree_cow.specs.Trees.{TreeAt};
ghost use Rattle.btree_cow.specs.Barred.{BreaksOnWay, IsHigh, NamesUnder, NodeFails};
ghost use Rattle.btree_cow.specs.Causes.{Reason};
ghost use Rattle.btree_cow.specs.Walks.{IsChoice, ReachesBeside, edge};
ghost use Rattle.btree_cow.specs.Finds.{Finds, IsNearest, IsWithin, block_of, next_place, lie_under};

use crate::Pages;
use crate::node_search::{Aim, Choice, choose, nearest_in};
use forest_model::Refusal;
use node_page::{NodeHead, Page, node_of};

/// The depth that no tree goes below.
const MOST_DEEP: u8 = 9;

/// A block, and how many links lead to it from the root.
#[derive(Clone, Copy)]
pub(crate) struct Place {
    pub at: u64,
    pub depth: u8,
}

/// What a walk to a leaf found there, and where the search goes on from there.
#[derive(Clone, Copy)]
pub(crate) struct Walked {
    pub entry: Option<(u64, u64)>,
    pub second: Option<Place>,
}

/// Goes down from a place to the leaf in which a chunk can lie, in at most ten pages.
pub(crate) fn walk<P: Pages>(pages: &mut P, from: Place, aim: Aim) -> Result<Walked, Refusal>
    requires { from.depth ≤ 9 }
    ensures found { IsTrue P.tells → (ok : ℕ → ℕ → Bool) (height least low : ℕ) (high : Option ℕ) (entries : List Entry) → TreeAt ok (P.shelf pages.old) height least from.at low high entries → IfOk result (λ w. Finds ok (P.shelf pages.old) aim.with aim.up aim.chunk entries w.entry w.second) }
    ensures reason { IfErr result (Reason P.tells (P.shelf pages.old).file (BreaksOnWay (P.shelf pages.old) aim.up aim.chunk from.depth from.at) (P.faults pages.old) (P.faults pages.new)) }
    ensures asked { IfErr result (NamesUnder (P.shelf pages.old).file from.at) }
    ensures reached { IsTrue P.tells → IfOk result (λ w. ReachesBeside (P.shelf pages.old) aim.with aim.up aim.chunk from.at w.entry (block_of w.second)) }
    ensures within { IfOk result (λ w. IfSome w.second (λ place. IsWithin from place)) }
    ensures beside { IsTrue P.tells → IfOk result (λ w. IfSome w.second (λ place. IsNearest (P.shelf pages.old) aim.with aim.up aim.chunk from place w.entry)) }
    ensures all { aim.with ≡ true → aim.chunk ≡ edge aim.up → IfOk result (λ w. IsTrue (is_some w.entry)) }
    ensures kept { P.shelf pages.new ≡ P.shelf pages.old }
    ensures counts { P.faults pages.old ≤ P.faults pages.new }
    ensures untroubled { result ≢ Err Refusal.DiskFault → P.faults pages.new ≡ P.faults pages.old }
{
    let mut page = Page::of(b"");
    let mut here = from;
    let mut second = None;
    loop {
        let head = node_at(pages, here.at, &mut page)?;
        if head.leaf {
            let entry = nearest_in(&page, head.count, aim);
            return Ok(Walked { entry, second });
        }
        let Some(choice) = child_of(pages, &page, head, here, aim)? else {
            return Ok(Walked {
                entry: None,
                second,
            });
        };
        let depth = here.depth + 1;
        second = nearer(choice.sibling, depth, second);
        here = Place {
            at: choice.child,
            depth,
        };
    }
}

// The node in a block.
fn node_at<P: Pages>(pages: &mut P, at: u64, page: &mut Page) -> Result<NodeHead, Refusal>
    ensures given { IfOk result (λ head. (entries : List Entry) × (head.count ≡ length entries) × IsNode page.new head.leaf entries) }
    ensures stored { IsTrue P.tells → OnOk result (is_stored (P.shelf pages.old) 2 at page.new) }
    ensures reason { IfErr result (NodeFails P.tells (P.shelf pages.old) at (P.faults pages.old) (P.faults pages.new)) }
    ensures kept { P.shelf pages.new ≡ P.shelf pages.old }
    ensures counts { P.faults pages.old ≤ P.faults pages.new }
    ensures untroubled { result ≢ Err Refusal.DiskFault → P.faults pages.new ≡ P.faults pages.old }
{
    pages.page(at, 2, page)?;
    let Some(head) = node_of(page) else {
        return Err(Refusal::Damaged {
            file: pages.file(),
            block: at,
        });
    };
    Ok(head)
}

// Where to go on from an inner node, whose children are to lie below it.
fn child_of<P: Pages>(
    pages: &P,
    page: &Page,
    head: NodeHead,
    here: Place,
    aim: Aim,
) -> Result<Option<Choice>, Refusal>
    requires some { 1 ≤ head.count }
    requires most { head.count ≤ 253 }
    ensures shallow { OnOk result (here.depth < 9) }
    ensures chosen { (entries : List Entry) → IsNode page.now head.leaf entries → head.count ≡ length entries → IfOk result (λ found. MatchOption found ((aim.up ≡ false) × IsTrue (list_all (λ (e : Entry). nat_lt aim.chunk e.0) entries)) (λ c. IsChoice aim.up aim.chunk entries c.child c.sibling)) }
    ensures below { IfOk result (λ found. IfSome found (λ c. (c.child < here.at) × IfSome c.sibling (λ other. other < here.at))) }
    ensures reason { (entries : List Entry) → IsNode page.now head.leaf entries → head.count ≡ length entries → IfErr result (λ why. (why ≡ Refusal.Damaged (P.shelf pages.now).file here.at) × ((9 ≤ here.depth) ⊎ ((child : ℕ) × (sibling : Option ℕ) × IsChoice aim.up aim.chunk entries child sibling × IsHigh here.at child sibling))) }
{
    let damaged = Refusal::Damaged {
        file: pages.file(),
        block: here.at,
    };
    if here.depth >= MOST_DEEP {
        return Err(damaged);
    }
    let Some(choice) = choose(page, head.count, aim.chunk, aim.up) else {
        return Ok(None);
    };
    if !is_below(&choice, here.at) {
        return Err(damaged);
    }
    Ok(Some(choice))
}

// Whether the blocks chosen lie below a node's.
fn is_below(choice: &Choice, at: u64) -> bool
    ensures { result ≡ lie_under choice.now.child choice.now.sibling at }
{
    choice.child < at
        && match choice.sibling {
            Some(sibling) => sibling < at,
            None => true,
        }
}

// The sibling, where there is one, else the second choice of before.
fn nearer(sibling: Option<u64>, depth: u8, second: Option<Place>) -> Option<Place>
    ensures { result ≡ next_place sibling depth second }
{
    match sibling {
        Some(at) => Some(Place { at, depth }),
        None => second,
    }
}
