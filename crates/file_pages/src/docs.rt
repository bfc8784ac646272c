ghost use Rattle.std.specs.Prelude.{◌≡◌, ◌≢◌, ◌≤◌, ℕ, Bool, List, IsTrue, Err, IfOk, IfErr};
ghost use Rattle.forest_model.specs.declared.refusal.Refusal.TheVariants as Refusal;
ghost use Rattle.node_page.specs.Nodes.{Entry};
ghost use Rattle.btree_cow.specs.Trees.{Tree, value_of};
ghost use Rattle.file_pages.specs.Files.{told, view_shelf};

use crate::reading::{page_of_view, record_of_view};
use block_host::View;
use btree_cow::{Docs, Pages, find};
use doc_stream::Tail;
use forest_model::{Rec, Refusal};
use node_page::Page;
use std::alloc::Global;

/// The nodes, stems and records of a file, as a view of it and an open block of records show them.
#[derive(Drop)]
pub struct FileDocs<'a, V: View> {
    alloc: Global,
    view: &'a mut V,
    tail: &'a Tail,
    revision: u64,
}

impl<'a, V: View> FileDocs<'a, V> {
    /// The file of this revision, with its view and its open block.
    pub fn new(alloc: Global, view: &'a mut V, tail: &'a Tail, revision: u64) -> FileDocs<'a, V>
        ensures shelf { ⟦<FileDocs<'a, V> as Pages>⟧.shelf result ≡ view_shelf (view.entry.ghost_name, 0) revision (told V.tells (V.content view.old)) tail.now }
        ensures faults { ⟦<FileDocs<'a, V> as Pages>⟧.faults result ≡ V.faults view.old }
    {
        FileDocs {
            alloc,
            view,
            tail,
            revision,
        }
    }
}

impl<'a, V: View> Pages for FileDocs<'a, V> {
    ghost use Rattle.std.specs.Prelude.{refl};
    ghost use Rattle.file_pages.specs.Files.{view_lies_below};

    ghost tells = { V.tells };

    ghost shelf = { λ d. view_shelf (d.view.ghost_name, 0) d.revision (told V.tells (V.content d.view.now)) d.tail.now };

    ghost faults = { λ d. V.faults d.view.now };

    fn file(&self) -> u64 {
        self.revision
    }

    fn page(&mut self, at: u64, kind: u8, out: &mut Page) -> Result<(), Refusal> {
        page_of_view(self.view, self.revision, at, kind, out)
    }

    ghost lie_below = { λ _ d. view_lies_below (d.view.ghost_name, 0) d.revision (told V.tells (V.content d.view.now)) d.tail.now };

    ghost by_content = { λ _ d at. refl };
}

impl<'a, V: View> Docs for FileDocs<'a, V> {
    fn document(&mut self, address: u64) -> Result<Rec, Refusal> {
        record_of_view(self.alloc, self.view, self.tail, self.revision, address)
    }
}

// The value of a chunk in the tree of a root in a file, as a view and an open block show it: after a call that takes any
// pages the caller knows its view again.
pub(crate) fn find_by_view<V: View>(
    alloc: Global,
    view: &mut V,
    tail: &Tail,
    revision: u64,
    root: Option<u64>,
    chunk: u64,
) -> Result<Option<u64>, Refusal>
    ensures found { IsTrue V.tells → (ok : ℕ → ℕ → Bool) (entries : List Entry) → Tree ok (view_shelf (view.entry.ghost_name, 0) revision (told V.tells (V.content view.old)) tail.now) root entries → IfOk result (λ value. value ≡ value_of entries chunk) }
    ensures stands { IsTrue V.tells → (ok : ℕ → ℕ → Bool) (entries : List Entry) → Tree ok (view_shelf (view.entry.ghost_name, 0) revision (told V.tells (V.content view.old)) tail.now) root entries → IfErr result (λ why. why ≡ Refusal.DiskFault) }
    ensures kept { told V.tells (V.content view.new) ≡ told V.tells (V.content view.old) }
    ensures counts { V.faults view.old ≤ V.faults view.new }
    ensures untroubled { result ≢ Err Refusal.DiskFault → V.faults view.new ≡ V.faults view.old }
{
    let mut docs = FileDocs::new(alloc, view, tail, revision);
    find(&mut docs, root, chunk)
}
