ghost use Rattle.std.specs.Prelude.{◌≡◌, ◌<◌, ◌≤◌, ◌++◌, ℕ, Bool, true, List, length, slice_get, Option, Some, IsTrue};
ghost use Rattle.block_host.specs.declared.block.Block.{Block};
ghost use Rattle.node_page.specs.Nodes.{Entry, rises};
ghost use Rattle.node_page.specs.declared.page.Page.{Page};
ghost use Rattle.btree_cow.specs.Causes.{IsAmong};
ghost use Rattle.btree_cow.specs.Changes.{with_entry, without_entry};
ghost use Rattle.btree_cow.specs.Shelf.{Shelf, Stored, Later, LieBelow, GoesByContent, SealsPage, stored_in};
ghost use Rattle.btree_cow.specs.Trees.{NodeAt, Tree};

use block_host::found_where_sealed;
use node_page::payload_has_one_page;

/// Nothing added is the least that can be added, and what is added one after another is added.
pub fn later_composes()
    ensures same { (s : Shelf) → Later s s }
    ensures on { (a b c : Shelf) → Later a b → Later b c → Later a c }
{}

/// A tree stays where blocks are added.
pub fn tree_stays()
    ensures { (ok : ℕ → ℕ → Bool) (old new : Shelf) (root : Option ℕ) (entries : List Entry) → Later old new → Tree ok old root entries → Tree ok new root entries }
{}

/// A tree stands on every shelf that has its blocks: on one whose blocks begin with those of the tree's file, too.
pub fn trees_go_by_blocks()
    ensures blocks { (ok : ℕ → ℕ → Bool) (s other : Shelf) (root : Option ℕ) (entries : List Entry) → ((at : ℕ) (stored : Stored) → s.blocks at ≡ Some stored → other.blocks at ≡ Some stored)
        → Tree ok s root entries → Tree ok other root entries }
    ensures content { (ok : ℕ → ℕ → Bool) (s other : Shelf) (more : List Block) (root : Option ℕ) (entries : List Entry) → GoesByContent s → GoesByContent other → other.file ≡ s.file → other.content ≡ s.content ++ more
        → Tree ok s root entries → Tree ok other root entries }
{}

/// A root's block is there, so it lies below the next one that is added.
pub fn root_lies_below()
    ensures { (ok : ℕ → ℕ → Bool) (s : Shelf) (root : ℕ) (entries : List Entry) → LieBelow s → Tree ok s (Some root) entries → root < s.used }
{}

/// The chunks of a tree's entries strictly rise.
pub fn entries_rise()
    ensures { (ok : ℕ → ℕ → Bool) (s : Shelf) (root : Option ℕ) (entries : List Entry) → Tree ok s root entries → IsTrue (rises entries) }
{}

/// Each value of a tree is well at the block of its leaf, which isn't above the root.
pub fn values_are_well()
    ensures { (ok : ℕ → ℕ → Bool) (s : Shelf) (root : ℕ) (entries : List Entry) (e : Entry) → Tree ok s (Some root) entries → IsAmong e entries
        → (leaf : ℕ) × (leaf ≤ root) × IsTrue (ok leaf e.1) × (content : List Entry) × NodeAt s leaf true content × IsAmong e content }
{}

/// A tree whose values are well by one test is one by each test that asks no more.
pub fn tests_may_ask_less()
    ensures { (ok other : ℕ → ℕ → Bool) (s : Shelf) (root : Option ℕ) (entries : List Entry) → ((at value : ℕ) → IsTrue (ok at value) → IsTrue (other at value))
        → Tree ok s root entries → Tree other s root entries }
{}

/// What a change makes of entries that rise does so too.
pub fn changed_entries_rise()
    ensures put { (entries : List Entry) (chunk value : ℕ) → IsTrue (rises entries) → IsTrue (rises (with_entry entries chunk value)) }
    ensures removed { (entries : List Entry) (chunk : ℕ) → IsTrue (rises entries) → IsTrue (rises (without_entry entries chunk)) }
{}

/// A block of a file means what it was sealed as, and each one with a meaning was sealed so.
pub fn blocks_mean_what_is_sealed()
    ensures stored { (file at kind : ℕ) (content : List Block) (page : Page) (block : Block) → slice_get content at ≡ Some block → SealsPage file at kind page block
        → stored_in file content at ≡ Some (record { kind = kind; page = page }) }
    ensures sealed { (file at kind : ℕ) (content : List Block) (page : Page) → stored_in file content at ≡ Some (record { kind = kind; page = page })
        → (block : Block) × (slice_get content at ≡ Some block) × SealsPage file at kind page block }
{
    found_where_sealed();
    payload_has_one_page();
}

/// Blocks go on to mean what they meant where others are added behind, and none has a meaning past the end.
pub fn meanings_stay()
    ensures still { (file at : ℕ) (content more : List Block) (stored : Stored) → stored_in file content at ≡ Some stored → stored_in file (content ++ more) at ≡ Some stored }
    ensures within { (file at : ℕ) (content : List Block) (stored : Stored) → stored_in file content at ≡ Some stored → at < length content }
{}
