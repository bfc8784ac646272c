ghost use Rattle.std.specs.Prelude.{◌≡◌, ◌≤◌, ◌^◌, true, length, IfOk, OnErr, MatchOption, Some, Err, refl};
ghost use Rattle.forest_model.specs.declared.refusal.Refusal.TheVariants as Refusal;
ghost use Rattle.node_page.specs.declared.page.Page.{Page};
ghost use Rattle.btree_cow.specs.Shelf.{stored_in};
ghost use Rattle.told_blocks.specs.Told.{shelf_of, told_lie_below};

use crate::seen::Seen;
use block_host::{Block, found_where_sealed, seal, unseal};
use btree_cow::{Appender, Docs, Pages, blocks_mean_what_is_sealed, later_composes, meanings_stay};
use doc_stream::{Tail, read};
use forest_model::{Rec, Refusal};
use node_page::Page;
use std::alloc::Global;
use std::marker::Model;

/// A file of blocks, which has a number, room for so many blocks, and an open block of records. A block that finds no
/// memory counts as a fault of the disk.
#[derive(Drop)]
pub struct ToldBlocks {
    alloc: Global,
    file: u64,
    content: Vec<Block>,
    seen: Seen,
    tail: Tail,
    most: u64,
    faults: u64,
}

impl Model for ToldBlocks {
    ghost use Rattle.std.specs.Prelude.{◌≤◌, ◌^◌};
    ghost use Rattle.told_blocks.specs.Told.{Told};

    ghost Value = { Told };

    ghost view = { λ t. record { file = t.file; content = t.content.items; seen = t.seen.blocks.items; tail = t.tail; most = t.most; faults = t.faults } };

    ghost invariant = { λ t. t.most ≤ 2 ^ 41 };
}

impl ToldBlocks {
    /// A file of these blocks, with this open block of records, and room for `most` blocks in all, at most 2^41. The
    /// records are those of these blocks and the open one.
    pub fn new(
        alloc: Global,
        file: u64,
        blocks: &[Block],
        tail: Tail,
        most: u64,
    ) -> Result<ToldBlocks, Refusal>
        requires { most ≤ 2 ^ 41 }
        ensures value { IfOk result (λ t. t ≡ record { file = file; content = blocks.now; seen = blocks.now; tail = tail; most = most; faults = 0 }) }
        ensures memory { OnErr result (result ≡ Err Refusal.NoMemory) }
    {
        let content = blocks.to_vec(alloc)?;
        let seen = Seen {
            blocks: blocks.to_vec(alloc)?,
        };
        Ok(ToldBlocks {
            alloc,
            file,
            content,
            seen,
            tail,
            most,
            faults: 0,
        })
    }
}

// The page of a block, if it is sealed for the file and its number as one of this kind.
fn page_in(blocks: &[Block], file: u64, at: u64, kind: u8) -> Option<Page>
    ensures { MatchOption result ((page : Page) → stored_in file blocks.now at ≡ Some (record { kind = kind; page = page }) → ⊥) (λ page. stored_in file blocks.now at ≡ Some (record { kind = kind; page = page })) }
{
    blocks_mean_what_is_sealed();
    found_where_sealed();
    let block = blocks.get(at as usize)?;
    let (there, payload) = unseal(block, file, at)?;
    if there == kind {
        Some(Page::of(payload))
    } else {
        None
    }
}

impl Pages for ToldBlocks {
    ghost tells = { true };

    ghost shelf = { shelf_of };

    ghost faults = { λ t. t.faults };

    fn file(&self) -> u64 {
        self.file
    }

    fn page(&mut self, at: u64, kind: u8, out: &mut Page) -> Result<(), Refusal> {
        match page_in(self.content.as_slice(), self.file, at, kind) {
            Some(page) => {
                *out = page;
                Ok(())
            }
            None => Err(Refusal::Damaged {
                file: self.file,
                block: at,
            }),
        }
    }

    ghost lie_below = { λ _ t. told_lie_below t };

    ghost by_content = { λ _ t at. refl };
}

impl Docs for ToldBlocks {
    fn document(&mut self, address: u64) -> Result<Rec, Refusal> {
        read(self.alloc, &mut self.seen, &self.tail, self.file, address)
    }
}

impl Appender for ToldBlocks {
    fn add(&mut self, kind: u8, page: &Page) -> Result<u64, Refusal> {
        later_composes();
        meanings_stay();
        blocks_mean_what_is_sealed();
        let at = self.content.len() as u64;
        if self.most <= at {
            return Err(Refusal::FileFull {
                used: at,
                needed: 1,
                max: self.most,
            });
        }
        let block = seal(kind, self.file, at, &page.bytes[..page.len as usize]);
        match self.content.push(block) {
            Ok(()) => Ok(at),
            Err(_) => {
                self.faults = self.faults.saturating_add(1);
                Err(Refusal::DiskFault)
            }
        }
    }
}
