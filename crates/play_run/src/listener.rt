// A host for tests that tells nothing: it holds the files of a new store, keeps what it is told to say, counts the bytes
// where others see it, and may fail at one call or show a block as zeros.
ghost use Rattle.std.specs.Prelude.{[], false};
ghost use Rattle.block_host.specs.Disk.{untold, not_told};

use crate::opening::{first_header, first_slot};
use block_host::{Block, Failed, Fresh, Host, Settled, View};
use std::alloc::{AllocError, Global};
use std::sync::Arc;
use std::sync::atomic::{AtomicUsize, Ordering};

#[derive(Drop)]
pub(crate) struct Listener {
    pub(crate) said: Vec<u8>,
    /// The blocks of file 1.
    pub(crate) file: Vec<Block>,
    /// How many bytes were said.
    pub(crate) heard: Arc<AtomicUsize>,
    /// The number of the `say` that fails, counted from 1; 0 where none does.
    pub(crate) fails_at: u64,
    /// The block of file 1 that views give as zeros; 0 where none is.
    pub(crate) spoiled: u64,
    faults: u64,
    greatest: u64,
}

impl Listener {
    pub(crate) fn new(alloc: Global) -> Result<Listener, AllocError> {
        let mut file = Vec::new(alloc);
        file.push(first_header())?;
        Ok(Listener {
            said: Vec::new(alloc),
            file,
            heard: Arc::new(alloc, AtomicUsize::new(0))?,
            fails_at: 0,
            spoiled: 0,
            faults: 0,
            greatest: 0,
        })
    }
}

#[derive(Drop)]
pub(crate) struct Shown {
    blocks: Vec<Block>,
    spoiled: u64,
}

#[derive(Drop)]
pub(crate) struct NoFresh {
    file: u64,
    blocks: u64,
    faults: u64,
}

impl View for Shown {
    ghost tells = { false };

    ghost content = { λ _. [] };

    ghost faults = { λ _. 0 };

    fn size(&self) -> u64 {
        self.blocks.len() as u64
    }

    fn read(&mut self, at: u64, out: &mut Block) -> Result<(), Failed> {
        *out = match self.blocks.get(at as usize) {
            Some(block) if at != self.spoiled => *block,
            _ => Block::zeros(),
        };
        Ok(())
    }
}

impl Fresh for NoFresh {
    ghost tells = { false };

    ghost content = { λ _. [] };

    ghost size = { λ fresh. fresh.blocks };

    ghost file = { λ fresh. fresh.file };

    ghost faults = { λ fresh. fresh.faults };

    ghost sized = { λ told. not_told told };

    fn size(&self) -> u64 {
        self.blocks
    }

    fn append(&mut self, blocks: &[Block]) -> Result<(), Failed> {
        match self.blocks.checked_add(blocks.len() as u64) {
            Some(blocks) => {
                self.blocks = blocks;
                Ok(())
            }
            None => {
                self.faults = self.faults.saturating_add(1);
                Err(Failed)
            }
        }
    }

    fn read(&mut self, _at: u64, _out: &mut Block) -> Result<(), Failed> {
        Ok(())
    }

    fn sync(self) -> Result<Settled, Self> {
        Ok(Settled::new(self.file, None))
    }
}

impl Host for Listener {
    type View = Shown;

    type Fresh = NoFresh;

    ghost tells = { false };

    ghost disk = { λ _. untold };

    ghost faults = { λ host. host.faults };

    ghost greatest = { λ host. host.greatest };

    ghost lawful = { λ told. not_told told };

    ghost views_tell = { λ told. not_told told };

    ghost fresh_files_tell = { λ told. not_told told };

    fn size(&mut self, file: u64) -> Result<u64, Failed> {
        match file {
            0 => Ok(2),
            1 => Ok(self.file.len() as u64),
            _ => Ok(0),
        }
    }

    fn read(&mut self, file: u64, at: u64, out: &mut Block) -> Result<(), Failed> {
        *out = Block::zeros();
        if file == 0 && at == 0 {
            *out = first_slot();
        }
        if file == 1
            && let Some(block) = self.file.get(at as usize)
        {
            *out = *block;
        }
        Ok(())
    }

    fn append(&mut self, _file: u64, blocks: &[Block]) -> Result<(), Failed> {
        if self.file.extend_from_slice(blocks).is_err() {
            self.faults = self.faults.saturating_add(1);
            return Err(Failed);
        }
        Ok(())
    }

    fn put(&mut self, _slot: u64, _block: &Block) -> Result<(), Failed> {
        Ok(())
    }

    fn cut(&mut self, _file: u64, _blocks: u64) -> Result<(), Failed> {
        Ok(())
    }

    fn sync(&mut self, _file: u64) -> Result<(), Failed> {
        Ok(())
    }

    fn next_file(&mut self, _after: u64) -> Result<Option<u64>, Failed> {
        Ok(None)
    }

    fn remove(&mut self, _file: u64) -> bool {
        true
    }

    fn view(&mut self, _file: u64) -> Result<Shown, Failed> {
        match self.file.clone() {
            Ok(blocks) => Ok(Shown {
                blocks,
                spoiled: self.spoiled,
            }),
            Err(_) => {
                self.faults = self.faults.saturating_add(1);
                Err(Failed)
            }
        }
    }

    fn renew(&mut self, file: u64, view: &mut Shown) -> Result<(), Failed> {
        *view = self.view(file)?;
        Ok(())
    }

    fn absorb_view(&mut self, _view: Shown) {}

    fn absorb_fresh(&mut self, fresh: NoFresh) {
        if fresh.faults > 0 {
            self.faults = self.faults.saturating_add(1);
        }
        self.greatest = self.greatest.max(fresh.blocks);
    }

    fn fresh(&mut self, file: u64) -> Result<NoFresh, Failed> {
        Ok(NoFresh {
            file,
            blocks: 0,
            faults: 0,
        })
    }

    fn adopt(&mut self, _settled: Settled) -> Result<(), Failed> {
        Ok(())
    }

    fn say(&mut self, bytes: &[u8]) -> Result<(), Failed> {
        let fails = self.fails_at == 1;
        self.fails_at = self.fails_at.saturating_sub(1);
        if fails || self.said.extend_from_slice(bytes).is_err() {
            self.faults = self.faults.saturating_add(1);
            return Err(Failed);
        }
        self.heard.store(self.said.len(), Ordering::SeqCst);
        Ok(())
    }

    fn faults(&self) -> u64 {
        self.faults
    }
}
