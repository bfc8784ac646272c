ghost use Rattle.std.specs.Prelude.{◌≡◌, ◌≢◌, ◌⊎◌, ◌+◌, ◌*◌, Err, None, ◌≤◌, ℕ, Bool, List, IsTrue, Some, IfOk, IfErr};
ghost use Rattle.forest_model.specs.declared.refusal.Refusal.TheVariants as Refusal;
ghost use Rattle.node_page.specs.Nodes.{Entry};
ghost use Rattle.btree_cow.specs.Shelf.{Later};
ghost use Rattle.btree_cow.specs.Trees.{Tree, TreeAt};
ghost use Rattle.btree_cow.specs.Causes.{is_full};
ghost use Rattle.btree_cow.specs.Changes.{with_entry, StaysWell, SameLimits};
ghost use Rattle.btree_cow.specs.Barred.{NamesBelow};
ghost use Rattle.btree_cow.specs.Refused.{BreaksDown, BreaksPut, ChangeFails, DownFails};
ghost use Rattle.btree_cow.specs.Copies.{Copied, Inserts, last_block};
ghost use Rattle.btree_cow.specs.Growing.{Appends, GoesDown, IsApart, Puts};

use crate::Appender;
use crate::grown::Grown;
use crate::overfull::{child_for, put_entry, replace_child};
use crate::storing::{add_node, read_node, store};
use forest_model::Refusal;

/// The most links that lead down a tree.
const MOST_LINKS: u8 = 9;

// Puts a value for a chunk into the tree in a block, going down so many links at most.
fn put<P: Appender>(
    pages: &mut P,
    at: u64,
    left: u8,
    chunk: u64,
    value: u64,
) -> Result<Grown, Refusal>
    ensures puts { IsTrue P.tells → IfOk result (Puts at chunk value (P.shelf pages.old) (P.shelf pages.new)) }
    ensures apart { IfOk result IsApart }
    ensures copied { IsTrue P.tells → IfOk result (Copied left at chunk value (P.shelf pages.old) (P.shelf pages.new)) }
    ensures last { IfOk result (λ grown. last_block grown + 1 ≡ (P.shelf pages.new).used) }
    ensures reason { IfErr result (DownFails P.tells (BreaksDown (P.shelf pages.old) left chunk at) at (P.shelf pages.old) (P.shelf pages.new) (P.faults pages.old) (P.faults pages.new)) }
    ensures few { (links : ℕ) → GoesDown P.tells left (P.shelf pages.old) at links → (P.shelf pages.new).used ≤ (P.shelf pages.old).used + (2 * links + 2) }
    ensures unwritten { (file block : ℕ) → result ≡ Err (Refusal.Damaged file block) → P.shelf pages.new ≡ P.shelf pages.old }
    ensures appends { Appends P.tells (P.shelf pages.old) (P.shelf pages.new) (P.faults pages.old) (P.faults pages.new) }
    ensures untroubled { result ≢ Err Refusal.DiskFault → P.faults pages.new ≡ P.faults pages.old }
{
    let mut node = read_node(pages, at)?;
    if node.leaf {
        put_entry(&mut node.entries, chunk, value);
        return store(pages, true, node.entries.as_slice());
    }
    let Some((place, child)) = child_for(node.entries.as_slice(), at, left, chunk) else {
        return Err(Refusal::Damaged {
            file: pages.file(),
            block: at,
        });
    };
    let grown = put(pages, child, left - 1, chunk, value)?;
    replace_child(&mut node.entries, place, chunk, grown);
    store(pages, false, node.entries.as_slice())
}

/// Puts a value for a chunk, in place of an older one, and answers the new root, the last block of the file. A copy of
/// each node on the way is appended, two where the old one was full, and a new root where that was; no old one changes.
/// Whatever it answers, at most 21 nodes were appended, and none where it answers a damaged block. Such a block is on the
/// chunk's way from the root: it is no node, has the next child not below it, or is an inner node at the end of nine links.
pub fn insert<P: Appender>(
    pages: &mut P,
    root: Option<u64>,
    chunk: u64,
    value: u64,
) -> Result<u64, Refusal>
    ensures inserted { IsTrue P.tells → (ok : ℕ → ℕ → Bool) (entries : List Entry) → StaysWell ok → IsTrue (ok (P.shelf pages.old).used value) → Tree ok (P.shelf pages.old) root entries → IfOk result (λ at. Tree ok (P.shelf pages.new) (Some at) (with_entry entries chunk value)) }
    ensures copies { IsTrue P.tells → IfOk result (Inserts root chunk value (P.shelf pages.old) (P.shelf pages.new)) }
    ensures few { IsTrue P.tells → (ok : ℕ → ℕ → Bool) (at height : ℕ) (entries : List Entry) → root ≡ Some at → TreeAt ok (P.shelf pages.old) height 1 at 0 None entries → (P.shelf pages.new).used ≤ (P.shelf pages.old).used + (2 * height + 3) }
    ensures most { (P.shelf pages.new).used ≤ (P.shelf pages.old).used + 21 }
    ensures unwritten { (file block : ℕ) → result ≡ Err (Refusal.Damaged file block) → P.shelf pages.new ≡ P.shelf pages.old }
    ensures last { IfOk result (λ at. at + 1 ≡ (P.shelf pages.new).used) }
    ensures stands { IsTrue P.tells → (ok : ℕ → ℕ → Bool) (entries : List Entry) → Tree ok (P.shelf pages.old) root entries → IfErr result (λ why. (why ≡ Refusal.DiskFault) ⊎ (why ≡ is_full (P.shelf pages.new))) }
    ensures reason { IfErr result (ChangeFails P.tells (BreaksPut (P.shelf pages.old) root chunk) (P.shelf pages.old) (P.shelf pages.new) (P.faults pages.old) (P.faults pages.new)) }
    ensures asked { IfErr result (NamesBelow (P.shelf pages.old).file root) }
    ensures later { IsTrue P.tells → Later (P.shelf pages.old) (P.shelf pages.new) }
    ensures limits { SameLimits (P.shelf pages.old) (P.shelf pages.new) }
    ensures counts { P.faults pages.old ≤ P.faults pages.new }
    ensures untroubled { result ≢ Err Refusal.DiskFault → P.faults pages.new ≡ P.faults pages.old }
{
    let Some(at) = root else {
        return add_node(pages, true, &[(chunk, value)]);
    };
    match put(pages, at, MOST_LINKS, chunk, value)? {
        Grown::One(block) => Ok(block),
        Grown::Two(left, right) => add_node(pages, false, &[left, right]),
    }
}
