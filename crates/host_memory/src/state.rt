ghost use Rattle.std.specs.Prelude.{◌≡◌, ◌<◌, ◌++◌, [], ℕ, length, slice_get, option_copied, IsOk, IfOk, OnOk, OnErr};
ghost use Rattle.std.specs.Bool.{OnTrue, OnFalse};
ghost use Rattle.host_memory.specs.Pending.{no_file, picked, appended, slot_written, cut_to, emptied, adopted, made_sure, zeroed_at};
ghost use Rattle.block_host.specs.Calls.{block_at, NextFile};
ghost use Rattle.host_memory.specs.Held.{held, Becomes, Stays};
ghost use Rattle.std.specs.Prelude.{option_map};
ghost use Rattle.std.specs.List.{find};
ghost use Rattle.std.specs.Ordering.{nat_cmp};
ghost use Rattle.std.specs.BTreeMap.{IsOrdered};
ghost use Rattle.host_memory.specs.Pending.{FileState, qualifies};

use crate::Pick;
use crate::file::File;
use block_host::Block;
use block_list::Blocks;
use std::alloc::{AllocError, Global};
use std::collections::BTreeMap;

/// The files by their numbers, and the bytes said.
#[derive(Drop)]
pub(crate) struct State {
    files: BTreeMap<u64, File>,
    said: Vec<u8>,
}

impl State {
    /// No files, and nothing said.
    pub(crate) fn new(alloc: Global) -> State
        ensures files { (file : ℕ) → held result file ≡ no_file }
        ensures said { result.said.items ≡ [] }
    {
        State {
            files: BTreeMap::new(alloc),
            said: Vec::new(alloc),
        }
    }

    // Puts a file in the place of the one of this number.
    fn store(&mut self, number: u64, file: File) -> Result<(), AllocError>
        ensures ok { OnOk result (Becomes number file self.old self.new) }
        ensures err { OnErr result (Stays self.old self.new) }
    {
        self.files.insert(number, file)?;
        Ok(())
    }

    /// Blocks at the end of a file.
    pub(crate) fn append(
        &mut self,
        alloc: Global,
        number: u64,
        blocks: &[Block],
    ) -> Result<(), AllocError>
        ensures ok { OnOk result (Becomes number (appended blocks.now (held self.old number)) self.old self.new) }
        ensures err { OnErr result (Stays self.old self.new) }
    {
        if let Some(file) = self.files.get_mut(&number) {
            return file.append(blocks);
        }
        let mut file = File::empty(alloc)?;
        file.append(blocks)?;
        self.store(number, file)
    }

    /// A slot of the meta file.
    pub(crate) fn put(&mut self, alloc: Global, slot: u64, block: &Block) -> Result<(), AllocError>
        requires { slot < 2 }
        ensures ok { OnOk result (Becomes 0 (slot_written slot block.now (held self.old 0)) self.old self.new) }
        ensures err { OnErr result (Stays self.old self.new) }
    {
        let next = match self.files.get(&0) {
            Some(file) => file.written(slot, block)?,
            None => File::empty(alloc)?.written(slot, block)?,
        };
        self.store(0, next)
    }

    /// A file cut to this many blocks.
    pub(crate) fn cut(&mut self, alloc: Global, number: u64, blocks: u64) -> Result<(), AllocError>
        ensures ok { OnOk result (Becomes number (cut_to blocks (held self.old number)) self.old self.new) }
        ensures err { OnErr result (Stays self.old self.new) }
    {
        let next = match self.files.get(&number) {
            Some(file) => file.shortened(blocks)?,
            None => File::empty(alloc)?.shortened(blocks)?,
        };
        self.store(number, next)
    }

    /// A settled file in the place of a file.
    pub(crate) fn adopt(
        &mut self,
        alloc: Global,
        number: u64,
        blocks: &[Block],
    ) -> Result<(), AllocError>
        ensures ok { OnOk result (Becomes number (adopted blocks.now (held self.old number)) self.old self.new) }
        ensures err { OnErr result (Stays self.old self.new) }
    {
        let next = match self.files.get(&number) {
            Some(file) => file.replaced(alloc, blocks)?,
            None => File::empty(alloc)?.replaced(alloc, blocks)?,
        };
        self.store(number, next)
    }

    /// Takes all blocks of a file away. It answers whether there was one.
    pub(crate) fn remove(&mut self, number: u64) -> bool
        ensures removed { OnTrue result (Becomes number (emptied (held self.old number)) self.old self.new) }
        ensures absent { OnFalse result (Stays self.old self.new × (held self.old number ≡ no_file)) }
    {
        match self.files.get_mut(&number) {
            Some(file) => {
                file.remove();
                true
            }
            None => false,
        }
    }

    /// A block of a file zeroed, and all of the file on the disk.
    pub(crate) fn spoil(&mut self, alloc: Global, number: u64, at: u64) -> Result<(), AllocError>
        ensures ok { OnOk result (Becomes number (zeroed_at at (held self.old number)) self.old self.new) }
        ensures err { OnErr result (Stays self.old self.new) }
    {
        let next = match self.files.get(&number) {
            Some(file) => file.spoiled(at)?,
            None => File::empty(alloc)?,
        };
        self.store(number, next)
    }

    /// A block of a file, where there is one.
    pub(crate) fn block(&self, number: u64, at: u64) -> Option<&Block>
        ensures { option_copied result ≡ slice_get (held self.now number).blocks at }
    {
        match self.files.get(&number) {
            Some(file) => file.blocks().get(at),
            None => None,
        }
    }

    /// The number of blocks of a file.
    pub(crate) fn size(&self, number: u64) -> u64
        ensures { result ≡ length (held self.now number).blocks }
    {
        match self.files.get(&number) {
            Some(file) => file.blocks().len(),
            None => 0,
        }
    }

    /// A block of a file; past the end a block of zeros.
    pub(crate) fn at(&self, number: u64, at: u64) -> Block
        ensures { result ≡ block_at (held self.now number).blocks at }
    {
        match self.files.get(&number) {
            Some(file) => file.blocks().at(at),
            None => Block::zeros(),
        }
    }

    /// The blocks of a file.
    pub(crate) fn share(&self, alloc: Global, number: u64) -> Result<Blocks, AllocError>
        ensures { IfOk result (λ blocks. blocks ≡ (held self.now number).blocks) }
    {
        match self.files.get(&number) {
            Some(file) => file.blocks().share(),
            None => Ok(Blocks::new(alloc)),
        }
    }

    /// The least number above this of a file that has blocks.
    pub(crate) fn next(&self, after: u64) -> Option<u64>
        ensures { NextFile after (λ file. (held self.now file).blocks) result }
    {
        first_above(&self.files, after)
    }

    /// The bytes said.
    pub(crate) fn said(&self) -> &[u8]
        ensures { result.now ≡ self.now.said.items }
    {
        &self.said
    }

    /// Leaves each file as a crash does.
    pub(crate) fn crash(&mut self, pick: Pick)
        ensures files { (file : ℕ) → held self.new file ≡ record { blocks = picked pick (held self.old file); steps = [] } }
        ensures said { self.new.said.items ≡ self.old.said.items }
    {
        self.files.retain(|_, file| {
            file.crash(pick);
            true
        });
    }

    /// Makes sure of a file.
    pub(crate) fn sync(&mut self, number: u64)
        ensures { Becomes number (made_sure (held self.old number)) self.old self.new }
    {
        if let Some(file) = self.files.get_mut(&number) {
            file.settle();
        }
    }

    /// Says bytes.
    pub(crate) fn say(&mut self, bytes: &[u8]) -> Result<(), AllocError>
        ensures files { (file : ℕ) → held self.new file ≡ held self.old file }
        ensures said { OnOk result (self.new.said.items ≡ self.old.said.items ++ bytes.now) }
        ensures err { OnErr result (self.new.said.items ≡ self.old.said.items) }
        ensures nothing { bytes.now ≡ [] → IsOk result }
    {
        self.said.extend_from_slice(bytes)
    }
}

// The number of the first file above this that has blocks.
fn first_above(files: &BTreeMap<u64, File>, after: u64) -> Option<u64>
    ensures first { result ≡ option_map (λ (entry : ℕ × FileState). entry.0) (find (qualifies after) files.now.entries) }
    ensures ordered { IsOrdered nat_cmp files.now }
{
    let _ordered = files.len();
    for (number, file) in files {
        if *number > after && file.blocks().len() > 0 {
            return Some(*number);
        }
    }
    None
}
