ghost use Rattle.std.specs.Prelude.{false, length};
ghost use Rattle.block_host.specs.Disk.{not_told};
ghost use Rattle.btree_cow.specs.Shelf.{untold_shelf};

use btree_cow::{Appender, Docs, Pages};
use forest_model::{Rec, Refusal};
use node_page::Page;
use std::alloc::Global;

pub(super) const FILE: u64 = 3;

const MOST: u64 = 100_000;

#[derive(Clone, Copy)]
pub(super) struct Stored {
    pub(super) kind: u8,
    pub(super) page: Page,
}

// File 3 in memory, which counts the pages that are read.
#[derive(Drop)]
pub(super) struct Blocks {
    pub(super) stored: Vec<Stored>,
    pub(super) read: u64,
    faults: u64,
}

impl Blocks {
    pub(super) fn new(alloc: Global) -> Blocks {
        Blocks {
            stored: Vec::new(alloc),
            read: 0,
            faults: 0,
        }
    }
}

impl Pages for Blocks {
    ghost tells = { false };

    ghost shelf = { λ f. untold_shelf 3 (length f.stored.items) 100000 100000 };

    ghost faults = { λ f. f.faults };

    fn file(&self) -> u64 {
        FILE
    }

    fn page(&mut self, at: u64, kind: u8, out: &mut Page) -> Result<(), Refusal> {
        self.read = self.read.saturating_add(1);
        match self.stored.get(at as usize) {
            Some(stored) if stored.kind == kind => {
                *out = stored.page;
                Ok(())
            }
            _ => Err(Refusal::Damaged {
                file: FILE,
                block: at,
            }),
        }
    }

    ghost lie_below = { λ told _. not_told told };

    ghost by_content = { λ told _. not_told told };
}

impl Docs for Blocks {
    fn document(&mut self, _address: u64) -> Result<Rec, Refusal> {
        Err(Refusal::NoMemory)
    }
}

impl Appender for Blocks {
    fn add(&mut self, kind: u8, page: &Page) -> Result<u64, Refusal> {
        let at = self.stored.len() as u64;
        if MOST <= at {
            return Err(Refusal::FileFull {
                used: at,
                needed: 1,
                max: MOST,
            });
        }
        match self.stored.push(Stored { kind, page: *page }) {
            Ok(()) => Ok(at),
            Err(_) => {
                self.faults = self.faults.saturating_add(1);
                Err(Refusal::DiskFault)
            }
        }
    }
}
