ghost use Rattle.std.specs.Prelude.{◌≡◌, ◌+◌, ◌-◌, ◌^◌, ◌≤◌, false, true, [], IfOk, OnOk, OnErr, length};
ghost use Rattle.block_host.specs.Disk.{not_told, risen};

use crate::blocks::{cut_blocks, read_block, write_blocks};
use crate::{Opened, Trouble};
use block_host::{Block, Failed, Fresh, Settled};

/// A fresh file in a folder, under a name of its own until a host adopts it.
#[derive(Drop)]
pub struct DirFresh<O: Opened> {
    opened: O,
    file: u64,
    blocks: u64,
    faults: u64,
}

impl<O: Opened> DirFresh<O> {
    /// This open file, which has no bytes, for a file number.
    pub(crate) fn new(opened: O, file: u64) -> DirFresh<O>
        ensures file { result.file ≡ file }
        ensures blocks { result.blocks ≡ 0 }
        ensures faults { result.faults ≡ 0 }
    {
        DirFresh {
            opened,
            file,
            blocks: 0,
            faults: 0,
        }
    }

    /// How often the file has failed.
    pub(crate) fn faults(&self) -> u64
        ensures { result ≡ self.now.faults }
    {
        self.faults
    }

    fn fail(&mut self) -> Failed
        ensures count { self.new.faults ≡ risen self.old.faults }
        ensures counts { self.old.faults ≤ self.new.faults }
        ensures file { self.new.file ≡ self.old.file }
        ensures blocks { self.new.blocks ≡ self.old.blocks }
    {
        self.faults = self.faults.saturating_add(1);
        Failed
    }

    // Cuts off what a failed append has left, and makes sure of the rest.
    fn settle(&mut self) -> Result<(), Trouble>
        ensures file { self.new.file ≡ self.old.file }
        ensures blocks { self.new.blocks ≡ self.old.blocks }
        ensures faults { self.new.faults ≡ self.old.faults }
        ensures settled { OnOk result (O.settled self.new.opened ≡ true) }
    {
        cut_blocks(&mut self.opened, self.blocks)?;
        self.opened.sync()
    }
}

impl<O: Opened> Fresh for DirFresh<O> {
    ghost tells = { false };

    ghost content = { λ _. [] };

    ghost size = { λ fresh. fresh.blocks };

    ghost file = { λ fresh. fresh.file };

    ghost faults = { λ fresh. fresh.faults };

    ghost sized = { λ told. not_told told };

    fn size(&self) -> u64 {
        self.blocks
    }

    fn append(&mut self, blocks: &[Block]) -> Result<(), Failed> {
        match write_blocks(&mut self.opened, self.blocks, blocks) {
            Ok(end) => {
                self.blocks = end;
                Ok(())
            }
            Err(_) => Err(self.fail()),
        }
    }

    fn read(&mut self, at: u64, out: &mut Block) -> Result<(), Failed> {
        if at >= self.blocks {
            *out = Block::zeros();
            return Ok(());
        }
        match read_block(&self.opened, at, out) {
            Ok(()) => Ok(()),
            Err(_) => Err(self.fail()),
        }
    }

    fn sync(self) -> Result<Settled, Self> {
        let mut fresh = self;
        match fresh.settle() {
            Ok(()) => Ok(Settled::new(fresh.file, None)),
            Err(_) => {
                fresh.fail();
                Err(fresh)
            }
        }
    }
}
