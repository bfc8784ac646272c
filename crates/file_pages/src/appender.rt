ghost use Rattle.std.specs.Prelude.{◌≡◌, ◌≢◌, ◌⊎◌, ◌+◌, ◌≤◌, ◌^◌, ℕ, Bool, false, List, length, take, IsTrue, Some, Err, IfOk, IfErr};
ghost use Rattle.forest_model.specs.declared.refusal.Refusal.TheVariants as Refusal;
ghost use Rattle.node_page.specs.Nodes.{Entry};
ghost use Rattle.btree_cow.specs.Changes.{with_entry, StaysWell};
ghost use Rattle.btree_cow.specs.Trees.{Tree};
ghost use Rattle.file_pages.specs.Files.{told, host_shelf, IsGrown};

use crate::reading::{page_in, record_of_view};
use block_host::{Block, Host, seal};
use btree_cow::{
    Appender, Docs, Pages, blocks_mean_what_is_sealed, insert, meanings_stay, trees_go_by_blocks,
};
use doc_stream::Tail;
use forest_model::{Rec, Refusal};
use node_page::Page;
use std::alloc::Global;

/// How much of a file is read, and how far it may grow.
#[derive(Clone, Copy)]
pub struct Room {
    /// How many of its blocks are read. The next one is put behind them.
    pub blocks: u64,
    /// The number from which on there is no room for a block.
    pub most: u64,
    /// The limit that a refusal for want of room names.
    pub max: u64,
    /// Whether a failed append may have left other blocks behind them, which are cut before one is put there.
    pub torn: bool,
}

/// The nodes, stems and records of a file, to which nodes and stems are added through a host. A block that was added is
/// read at once, while the records are those that the view shows. What a failed append leaves in the file isn't seen, and
/// it is cut before the next block is added.
#[derive(Drop)]
pub struct FileAppender<'a, 'b, 'c, H: Host> {
    alloc: Global,
    host: &'a mut H,
    view: &'b mut H::View,
    tail: &'c Tail,
    revision: u64,
    blocks: u64,
    most: u64,
    max: u64,
    torn: bool,
    ghost low: { most ≤ 2 ^ 41 },
    ghost within: { IsTrue H.tells → blocks ≤ length ((H.disk host.now).files revision) },
    ghost whole: { IsTrue H.tells → torn ≡ false → length ((H.disk host.now).files revision) ≡ blocks },
}

impl<'a, 'b, 'c, H: Host> FileAppender<'a, 'b, 'c, H> {
    /// The file of this revision in a host, with a view of it and its open block. `most` is at most 2^41.
    pub fn new(
        alloc: Global,
        host: &'a mut H,
        view: &'b mut H::View,
        tail: &'c Tail,
        revision: u64,
        room: Room,
    ) -> FileAppender<'a, 'b, 'c, H>
        requires low { room.most ≤ 2 ^ 41 }
        requires within { IsTrue H.tells → room.blocks ≤ length ((H.disk host.old).files revision) }
        requires whole { IsTrue H.tells → room.torn ≡ false → length ((H.disk host.old).files revision) ≡ room.blocks }
        ensures shelf { ⟦<FileAppender<'a, 'b, 'c, H> as Pages>⟧.shelf result ≡ host_shelf (host.entry.ghost_name, view.entry.ghost_name) revision (told H.tells (take room.blocks ((H.disk host.old).files revision))) (told H.View.tells (H.View.content view.old)) tail.now room.blocks room.most room.max }
        ensures faults { ⟦<FileAppender<'a, 'b, 'c, H> as Pages>⟧.faults result ≡ H.faults host.old + H.View.faults view.old }
    {
        FileAppender {
            alloc,
            host,
            view,
            tail,
            revision,
            blocks: room.blocks,
            most: room.most,
            max: room.max,
            torn: room.torn,
        }
    }
}

impl<'a, 'b, 'c, H: Host> Pages for FileAppender<'a, 'b, 'c, H> {
    ghost use Rattle.std.specs.Prelude.{refl};
    ghost use Rattle.file_pages.specs.Files.{host_lies_below};

    ghost tells = { H.tells };

    ghost shelf = { λ d. host_shelf (d.host.ghost_name, d.view.ghost_name) d.revision (told H.tells (take d.blocks ((H.disk d.host.now).files d.revision))) (told H.View.tells (H.View.content d.view.now)) d.tail.now d.blocks d.most d.max };

    ghost faults = { λ d. H.faults d.host.now + H.View.faults d.view.now };

    fn file(&self) -> u64 {
        self.revision
    }

    fn page(&mut self, at: u64, kind: u8, out: &mut Page) -> Result<(), Refusal> {
        let damaged = Refusal::Damaged {
            file: self.revision,
            block: at,
        };
        if self.blocks <= at {
            return Err(damaged);
        }
        let mut block = Block::zeros();
        let Ok(()) = self.host.read(self.revision, at, &mut block) else {
            return Err(Refusal::DiskFault);
        };
        match page_in(&block, self.revision, at, kind) {
            Some(page) => {
                *out = page;
                Ok(())
            }
            None => Err(damaged),
        }
    }

    ghost lie_below = { λ _ d. host_lies_below (d.host.ghost_name, d.view.ghost_name) d.revision H.tells ((H.disk d.host.now).files d.revision) (told H.View.tells (H.View.content d.view.now)) d.tail.now d.blocks d.most d.max };

    ghost by_content = { λ _ d at. refl };
}

impl<'a, 'b, 'c, H: Host> Docs for FileAppender<'a, 'b, 'c, H> {
    fn document(&mut self, address: u64) -> Result<Rec, Refusal> {
        record_of_view(self.alloc, self.view, self.tail, self.revision, address)
    }
}

impl<'a, 'b, 'c, H: Host> Appender for FileAppender<'a, 'b, 'c, H> {
    fn add(&mut self, kind: u8, page: &Page) -> Result<u64, Refusal> {
        meanings_stay();
        blocks_mean_what_is_sealed();
        let at = self.blocks;
        if self.most <= at {
            return Err(Refusal::FileFull {
                used: at,
                needed: 1,
                max: self.max,
            });
        }
        let block = seal(kind, self.revision, at, &page.bytes[..page.len as usize]);
        if self.torn {
            let Ok(()) = self.host.cut(self.revision, at) else {
                return Err(Refusal::DiskFault);
            };
        }
        self.torn = true;
        let Ok(()) = self.host.append(self.revision, &[block]) else {
            return Err(Refusal::DiskFault);
        };
        self.blocks = at + 1;
        self.torn = false;
        Ok(at)
    }
}

// Puts a value for a chunk into the tree of a root in a host's file: after a call that adds to any pages the caller knows
// its host and its view again.
pub(crate) fn insert_by_host<H: Host>(
    alloc: Global,
    host: &mut H,
    view: &mut H::View,
    tail: &Tail,
    revision: u64,
    room: Room,
    root: Option<u64>,
    chunk: u64,
    value: u64,
) -> Result<u64, Refusal>
    requires low { room.most ≤ 2 ^ 41 }
    requires within { IsTrue H.tells → room.blocks ≤ length ((H.disk host.old).files revision) }
    requires whole { IsTrue H.tells → room.torn ≡ false → length ((H.disk host.old).files revision) ≡ room.blocks }
    ensures inserted { IsTrue H.tells → (ok : ℕ → ℕ → Bool) (entries : List Entry) → StaysWell ok → IsTrue (ok room.blocks value) → Tree ok (host_shelf (host.entry.ghost_name, view.entry.ghost_name) revision (told H.tells (take room.blocks ((H.disk host.old).files revision))) (told H.View.tells (H.View.content view.old)) tail.now room.blocks room.most room.max) root entries → IfOk result (λ at. Tree ok (host_shelf (host.entry.ghost_name, view.entry.ghost_name) revision (told H.tells (take (at + 1) ((H.disk host.new).files revision))) (told H.View.tells (H.View.content view.old)) tail.now (at + 1) room.most room.max) (Some at) (with_entry entries chunk value)) }
    ensures grown { IsTrue H.tells → IfOk result (λ at. IsGrown revision room.blocks (at + 1) ((H.disk host.old).files revision) ((H.disk host.new).files revision)) }
    ensures front { IsTrue H.tells → (upto : ℕ) × IsGrown revision room.blocks upto ((H.disk host.old).files revision) ((H.disk host.new).files revision) }
    ensures seen { IsTrue H.tells → told H.View.tells (H.View.content view.new) ≡ told H.View.tells (H.View.content view.old) }
    ensures counts { H.faults host.old + H.View.faults view.old ≤ H.faults host.new + H.View.faults view.new }
    ensures untroubled { result ≢ Err Refusal.DiskFault → H.faults host.new + H.View.faults view.new ≡ H.faults host.old + H.View.faults view.old }
{
    trees_go_by_blocks();
    let mut pages = FileAppender::new(alloc, host, view, tail, revision, room);
    insert(&mut pages, root, chunk, value)
}
