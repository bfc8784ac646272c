ghost use Rattle.std.specs.Prelude.{◌≡◌, ◌++◌, [], ◌∷◌, length, take, replicate, slice_get, slice_set, option_copied, IfOk, OnOk, OnErr};
ghost use Rattle.std.specs.Arc.{arc_value};

use block_host::Block;
use std::alloc::{AllocError, Global};
use std::marker::Model;
use std::sync::Arc;

/// Blocks, each behind an `Arc`, so that a copy of the list copies no block.
#[derive(Drop)]
pub(crate) struct Group {
    blocks: Vec<Arc<Block>>,
}

impl Model for Group {
    ghost use Rattle.std.specs.Prelude.{List, map};
    ghost use Rattle.std.specs.Arc.{arc_value};
    ghost use Rattle.block_host.specs.declared.block.Block.{Block};

    ghost Value = { List Block };

    ghost view = { λ g. map arc_value g.blocks.items };
}

impl Group {
    /// No block.
    pub(crate) fn new(alloc: Global) -> Group
        ensures { result ≡ [] }
    {
        Group {
            blocks: Vec::new(alloc),
        }
    }

    /// The number of blocks.
    pub(crate) fn len(&self) -> usize
        ensures { result ≡ length self.now }
    {
        self.blocks.len()
    }

    /// The block at a place, where there is one.
    pub(crate) fn get(&self, at: usize) -> Option<&Block>
        ensures { option_copied result ≡ slice_get self.now at }
    {
        match self.blocks.get(at) {
            Some(block) => Some(block),
            None => None,
        }
    }

    /// The first of these blocks once more.
    pub(crate) fn first(&self, len: usize) -> Result<Group, AllocError>
        ensures { IfOk result (λ group. group ≡ take len self.now) }
    {
        let len = len.min(self.blocks.len());
        let mut blocks = Vec::with_capacity(*self.blocks.allocator(), len)?;
        for block in &self.blocks[..len] {
            blocks.push(Arc::try_clone(block)?)?;
        }
        Ok(Group { blocks })
    }

    /// The same blocks once more.
    pub(crate) fn share(&self) -> Result<Group, AllocError>
        ensures { IfOk result (λ group. group ≡ self.now) }
    {
        self.first(self.len())
    }

    /// These blocks with another in the place of one of them.
    pub(crate) fn replaced(&self, at: usize, block: &Arc<Block>) -> Result<Group, AllocError>
        ensures { IfOk result (λ group. group ≡ slice_set self.now at (arc_value block.now)) }
    {
        let mut group = self.share()?;
        if at >= self.len() {
            return Ok(group);
        }
        group.blocks[at] = Arc::try_clone(block)?;
        Ok(group)
    }

    /// Puts a block at the end.
    pub(crate) fn push(&mut self, block: Arc<Block>) -> Result<(), AllocError>
        ensures ok { OnOk result (self.new ≡ self.old ++ arc_value block ∷ []) }
        ensures err { OnErr result (self.new ≡ self.old) }
    {
        self.blocks.push(block)?;
        Ok(())
    }

    /// Puts blocks at the end, all or none.
    pub(crate) fn append(&mut self, blocks: &[Block]) -> Result<(), AllocError>
        ensures ok { OnOk result (self.new ≡ self.old ++ blocks.now) }
        ensures err { OnErr result (self.new ≡ self.old) }
    {
        let alloc = *self.blocks.allocator();
        let mut kept = Vec::with_capacity(alloc, blocks.len())?;
        for block in blocks {
            kept.push(Arc::new(alloc, *block)?)?;
        }
        self.blocks.append(&mut kept)
    }

    /// Puts one block at the end so many times, or not at all.
    pub(crate) fn repeat(&mut self, block: &Arc<Block>, times: usize) -> Result<(), AllocError>
        ensures ok { OnOk result (self.new ≡ self.old ++ replicate times (arc_value block.now)) }
        ensures err { OnErr result (self.new ≡ self.old) }
    {
        let mut kept = Vec::with_capacity(*self.blocks.allocator(), times)?;
        for _ in 0..times {
            kept.push(Arc::try_clone(block)?)?;
        }
        self.blocks.append(&mut kept)
    }

    /// Takes all blocks behind the first of this number away.
    pub(crate) fn truncate(&mut self, len: usize)
        ensures { self.new ≡ take len self.old }
    {
        self.blocks.truncate(len);
    }
}
