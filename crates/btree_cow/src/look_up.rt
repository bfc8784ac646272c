ghost use Rattle.std.specs.Prelude.{false, Some, ◌≡◌, ◌≤◌, ℕ, Bool, true, List, IsTrue, IfOk, IfErr, OnOk, ◌≢◌, Err, ◌+◌};
ghost use Rattle.forest_model.specs.declared.refusal.Refusal.TheVariants as Refusal;
ghost use Rattle.node_page.specs.Nodes.{Entry};
ghost use Rattle.btree_cow.specs.Trees.{Tree, value_of, nearest};
ghost use Rattle.btree_cow.specs.Walks.{ReadsValue, ReadsNext, WayFor, edge};
ghost use Rattle.btree_cow.specs.Finds.{value_in};
ghost use Rattle.btree_cow.specs.Barred.{Bars, BreaksFind, BreaksSearch, NamesBelow};
ghost use Rattle.btree_cow.specs.Causes.{Reason};

use crate::Pages;
use crate::node_search::Aim;
use crate::walk::{Place, walk};
use forest_model::Refusal;

/// The value of a chunk in the tree of a root. On any blocks it is that of the leaf at the end of the chunk's way, and
/// there is no answer where a block on this way is no node, or has the way's next child, or its sibling, not below it. A
/// damaged block that it names is one of these, or an inner node at the end of nine links.
pub fn find<P: Pages>(pages: &mut P, root: Option<u64>, chunk: u64) -> Result<Option<u64>, Refusal>
    ensures found { IsTrue P.tells → (ok : ℕ → ℕ → Bool) (entries : List Entry) → Tree ok (P.shelf pages.old) root entries → IfOk result (λ value. value ≡ value_of entries chunk) }
    ensures read { IsTrue P.tells → IfOk result (ReadsValue (P.shelf pages.old) root chunk) }
    ensures broken { IsTrue P.tells → (at links block : ℕ) → root ≡ Some at → WayFor (P.shelf pages.old) false chunk links at block → Bars (P.shelf pages.old) false chunk block → IfOk result (λ _. ⊥) }
    ensures stands { IsTrue P.tells → (ok : ℕ → ℕ → Bool) (entries : List Entry) → Tree ok (P.shelf pages.old) root entries → IfErr result (λ why. why ≡ Refusal.DiskFault) }
    ensures reason { IfErr result (Reason P.tells (P.shelf pages.old).file (BreaksFind (P.shelf pages.old) root chunk) (P.faults pages.old) (P.faults pages.new)) }
    ensures asked { IfErr result (NamesBelow (P.shelf pages.old).file root) }
    ensures kept { P.shelf pages.new ≡ P.shelf pages.old }
    ensures counts { P.faults pages.old ≤ P.faults pages.new }
    ensures untroubled { result ≢ Err Refusal.DiskFault → P.faults pages.new ≡ P.faults pages.old }
{
    let Some(at) = root else {
        return Ok(None);
    };
    let aim = Aim {
        chunk,
        with: true,
        up: false,
    };
    let found = walk(pages, Place { at, depth: 0 }, aim)?;
    Ok(value_at(found.entry, chunk))
}

/// The entry nearest to a chunk, above or below it, or of the chunk itself if `with`. On any blocks it is that of the leaf
/// at the end of the chunk's way, else the first one below the sibling nearest to this end; and there is no answer where
/// a block on these ways is no node. A damaged block that it names is one on these ways by which they go no further.
pub fn next<P: Pages>(
    pages: &mut P,
    root: Option<u64>,
    chunk: u64,
    with: bool,
    up: bool,
) -> Result<Option<(u64, u64)>, Refusal>
    ensures found { IsTrue P.tells → (ok : ℕ → ℕ → Bool) (entries : List Entry) → Tree ok (P.shelf pages.old) root entries → IfOk result (λ entry. entry ≡ nearest with up entries chunk) }
    ensures read { IsTrue P.tells → IfOk result (ReadsNext (P.shelf pages.old) with up root chunk) }
    ensures broken { IsTrue P.tells → (at links block : ℕ) → root ≡ Some at → WayFor (P.shelf pages.old) up chunk links at block → Bars (P.shelf pages.old) up chunk block → IfOk result (λ _. ⊥) }
    ensures stands { IsTrue P.tells → (ok : ℕ → ℕ → Bool) (entries : List Entry) → Tree ok (P.shelf pages.old) root entries → IfErr result (λ why. why ≡ Refusal.DiskFault) }
    ensures reason { IfErr result (Reason P.tells (P.shelf pages.old).file (BreaksSearch (P.shelf pages.old) with up root chunk) (P.faults pages.old) (P.faults pages.new)) }
    ensures asked { IfErr result (NamesBelow (P.shelf pages.old).file root) }
    ensures kept { P.shelf pages.new ≡ P.shelf pages.old }
    ensures counts { P.faults pages.old ≤ P.faults pages.new }
    ensures untroubled { result ≢ Err Refusal.DiskFault → P.faults pages.new ≡ P.faults pages.old }
{
    let Some(at) = root else {
        return Ok(None);
    };
    let near = walk(pages, Place { at, depth: 0 }, Aim { chunk, with, up })?;
    if near.entry.is_some() {
        return Ok(near.entry);
    }
    let Some(place) = near.second else {
        return Ok(None);
    };
    let first = walk(pages, place, from_edge(up))?;
    Ok(first.entry)
}

// The value of an entry, if it is that of a chunk.
fn value_at(entry: Option<(u64, u64)>, chunk: u64) -> Option<u64>
    ensures { result ≡ value_in entry chunk }
{
    match entry {
        Some((at, value)) => if at == chunk { Some(value) } else { None },
        None => None,
    }
}

// The search that comes to every entry.
fn from_edge(up: bool) -> Aim
    ensures with { result.with ≡ true }
    ensures up { result.up ≡ up }
    ensures chunk { result.chunk ≡ edge up }
{
    Aim {
        chunk: if up { 0 } else { u64::MAX },
        with: true,
        up,
    }
}
