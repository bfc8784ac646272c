ghost use Rattle.std.specs.Prelude.{◌≡◌, ◌⊎◌, ◌≤◌, ℕ, Bool, List, IsTrue, IfOk, IfErr, ◌≢◌, Err, ◌+◌, ◌*◌, length};
ghost use Rattle.std.specs.List.{list_all};
ghost use Rattle.forest_model.specs.declared.refusal.Refusal.TheVariants as Refusal;
ghost use Rattle.node_page.specs.Nodes.{Entry};
ghost use Rattle.btree_cow.specs.Shelf.{Later};
ghost use Rattle.btree_cow.specs.Trees.{Tree};
ghost use Rattle.btree_cow.specs.Causes.{is_full};
ghost use Rattle.btree_cow.specs.Changes.{after_change, after_changes, changes_rise, is_absent, is_well, put_well, StaysWell, SameLimits};
ghost use Rattle.btree_cow.specs.Takes.{MakesChange, Runs};
ghost use Rattle.btree_cow.specs.Refused.{BreaksChange, BreaksRun, ChangeFails};

use crate::Appender;
use crate::inserting::insert;
use crate::removing::remove;
use forest_model::Refusal;

// Makes a change, and answers the new root.
fn apply_one<P: Appender>(
    pages: &mut P,
    root: Option<u64>,
    change: (u64, Option<u64>),
) -> Result<Option<u64>, Refusal>
    ensures applied { IsTrue P.tells → (ok : ℕ → ℕ → Bool) (entries : List Entry) → StaysWell ok → IsTrue (is_well ok (P.shelf pages.old).used change) → Tree ok (P.shelf pages.old) root entries → IfOk result (λ at. Tree ok (P.shelf pages.new) at (after_change entries change)) }
    ensures copies { IsTrue P.tells → IfOk result (MakesChange change root (P.shelf pages.old) (P.shelf pages.new)) }
    ensures most { (P.shelf pages.new).used ≤ (P.shelf pages.old).used + 21 }
    ensures absent { IsTrue P.tells → (ok : ℕ → ℕ → Bool) (entries : List Entry) → Tree ok (P.shelf pages.old) root entries → IsTrue (is_absent entries change) → IfOk result (λ at. (at ≡ root) × (P.shelf pages.new ≡ P.shelf pages.old)) }
    ensures stands { IsTrue P.tells → (ok : ℕ → ℕ → Bool) (entries : List Entry) → Tree ok (P.shelf pages.old) root entries → IfErr result (λ why. (why ≡ Refusal.DiskFault) ⊎ (why ≡ is_full (P.shelf pages.new))) }
    ensures reason { IfErr result (ChangeFails P.tells (BreaksChange (P.shelf pages.old) root change) (P.shelf pages.old) (P.shelf pages.new) (P.faults pages.old) (P.faults pages.new)) }
    ensures later { IsTrue P.tells → Later (P.shelf pages.old) (P.shelf pages.new) }
    ensures limits { SameLimits (P.shelf pages.old) (P.shelf pages.new) }
    ensures counts { P.faults pages.old ≤ P.faults pages.new }
    ensures untroubled { result ≢ Err Refusal.DiskFault → P.faults pages.new ≡ P.faults pages.old }
{
    match change.1 {
        Some(value) => Ok(Some(insert(pages, root, change.0, value)?)),
        None => remove(pages, root, change.0),
    }
}

/// Makes changes in their order, and answers the new root: a value for a chunk, or none where the chunk is removed. New
/// nodes are appended, at most 21 for each change, whatever is answered, and no old one changes. A damaged block that it
/// names bars the first change that isn't made, in the tree that those of before made.
pub fn apply<P: Appender>(
    pages: &mut P,
    root: Option<u64>,
    changes: &[(u64, Option<u64>)],
) -> Result<Option<u64>, Refusal>
    requires rise { IsTrue (changes_rise changes.now) }
    ensures applied { IsTrue P.tells → (ok : ℕ → ℕ → Bool) (entries : List Entry) → StaysWell ok → IsTrue (put_well ok (P.shelf pages.old).used changes.now) → Tree ok (P.shelf pages.old) root entries → IfOk result (λ at. Tree ok (P.shelf pages.new) at (after_changes entries changes.now)) }
    ensures copies { IsTrue P.tells → IfOk result (Runs changes.now root (P.shelf pages.old) (P.shelf pages.new)) }
    ensures few { (P.shelf pages.new).used ≤ (P.shelf pages.old).used + 21 * length changes.now }
    ensures absent { IsTrue P.tells → (ok : ℕ → ℕ → Bool) (entries : List Entry) → Tree ok (P.shelf pages.old) root entries → IsTrue (list_all (is_absent entries) changes.now) → IfOk result (λ at. (at ≡ root) × (P.shelf pages.new ≡ P.shelf pages.old)) }
    ensures stands { IsTrue P.tells → (ok : ℕ → ℕ → Bool) (entries : List Entry) → Tree ok (P.shelf pages.old) root entries → IfErr result (λ why. (why ≡ Refusal.DiskFault) ⊎ (why ≡ is_full (P.shelf pages.new))) }
    ensures reason { IfErr result (ChangeFails P.tells (BreaksRun changes.now root (P.shelf pages.old) (P.shelf pages.new)) (P.shelf pages.old) (P.shelf pages.new) (P.faults pages.old) (P.faults pages.new)) }
    ensures later { IsTrue P.tells → Later (P.shelf pages.old) (P.shelf pages.new) }
    ensures limits { SameLimits (P.shelf pages.old) (P.shelf pages.new) }
    ensures counts { P.faults pages.old ≤ P.faults pages.new }
    ensures untroubled { result ≢ Err Refusal.DiskFault → P.faults pages.new ≡ P.faults pages.old }
{
    let mut at = root;
    for change in changes {
        at = apply_one(pages, at, *change)?;
    }
    Ok(at)
}
