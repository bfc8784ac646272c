ghost use Rattle.std.specs.Prelude.{◌≡◌, ◌+◌, ◌-◌, ◌^◌, ◌≤◌, false, [], IfOk, OnOk, OnErr, length};
ghost use Rattle.block_host.specs.Disk.{risen};

use crate::blocks::{read_block, size_of};
use crate::{Opened, Trouble};
use block_host::{Block, Failed, View};

/// A view of a file in a folder. It has opened the file by itself, so that it reads on where the file is removed or
/// another has taken its name.
#[derive(Drop)]
pub struct DirView<O: Opened> {
    opened: Option<O>,
    blocks: u64,
    file: u64,
    names: u64,
    faults: u64,
}

impl<O: Opened> DirView<O> {
    /// A view of this open file, or of an absent one. `names` is how often names had been changed by then.
    pub(crate) fn new(opened: Option<O>, file: u64, names: u64) -> Result<DirView<O>, Trouble>
        ensures { IfOk result (λ view. view.faults ≡ 0) }
    {
        let blocks = whole_blocks(&opened)?;
        Ok(DirView {
            opened,
            blocks,
            file,
            names,
            faults: 0,
        })
    }

    /// Whether the view has opened the file that has this number now.
    pub(crate) fn is_of(&self, file: u64, names: u64) -> bool {
        self.file == file && self.names == names
    }

    /// Takes in the blocks that the file has now.
    pub(crate) fn grow(&mut self) -> Result<(), Trouble>
        ensures { self.new.faults ≡ self.old.faults }
    {
        self.blocks = whole_blocks(&self.opened)?;
        Ok(())
    }

    /// Sees what another view sees. The count stays.
    pub(crate) fn turn_to(&mut self, other: DirView<O>)
        ensures { self.new.faults ≡ self.old.faults }
    {
        let DirView {
            opened,
            blocks,
            file,
            names,
            faults: _faults,
        } = other;
        self.opened = opened;
        self.blocks = blocks;
        self.file = file;
        self.names = names;
    }

    /// How often the view has failed.
    pub(crate) fn faults(&self) -> u64
        ensures { result ≡ self.now.faults }
    {
        self.faults
    }

    fn block(&self, at: u64, out: &mut Block) -> Result<(), Trouble> {
        match &self.opened {
            Some(opened) if at < self.blocks => read_block(opened, at, out),
            _ => {
                *out = Block::zeros();
                Ok(())
            }
        }
    }
}

fn whole_blocks<O: Opened>(opened: &Option<O>) -> Result<u64, Trouble> {
    match opened {
        Some(opened) => size_of(opened),
        None => Ok(0),
    }
}

impl<O: Opened> View for DirView<O> {
    ghost tells = { false };

    ghost content = { λ _. [] };

    ghost faults = { λ view. view.faults };

    fn size(&self) -> u64 {
        self.blocks
    }

    fn read(&mut self, at: u64, out: &mut Block) -> Result<(), Failed> {
        if self.block(at, out).is_ok() {
            return Ok(());
        }
        self.faults = self.faults.saturating_add(1);
        Err(Failed)
    }
}
