ghost use Rattle.std.specs.Prelude.{◌≡◌, ◌+◌, ◌-◌, ◌^◌, ◌<◌, ◌++◌, [], ◌∷◌, length, take, replicate, slice_get, slice_set, option_copied, IfOk, OnOk, OnErr};
ghost use Rattle.std.specs.Arc.{arc_value};
ghost use Rattle.block_host.specs.Calls.{block_at, with_slot};

use crate::group::Group;
use crate::groups::Groups;
use block_host::Block;
use std::alloc::{AllocError, Global};
use std::marker::Model;
use std::mem;
use std::sync::Arc;

/// A list of blocks, fewer than 2^49: groups of 256, and at the end a group that may still grow. A copy shares the whole
/// groups and all blocks.
#[derive(Drop)]
pub struct Blocks {
    alloc: Global,
    whole: Groups,
    last: Group,
}

impl Model for Blocks {
    ghost use Rattle.std.specs.Prelude.{List, ◌++◌};
    ghost use Rattle.block_host.specs.declared.block.Block.{Block};
    ghost use Rattle.block_list.specs.Grouped.{joined, IsGrouped};

    ghost Value = { List Block };

    ghost view = { λ b. joined b.whole ++ b.last };

    ghost invariant = { λ b. IsGrouped b.whole b.last };
}

// The number of blocks of a whole group.
const GROUP: usize = 256;

impl Blocks {
    /// No block. It takes no memory.
    pub fn new(alloc: Global) -> Blocks
        ensures { result ≡ [] }
    {
        Blocks {
            alloc,
            whole: Groups::new(alloc),
            last: Group::new(alloc),
        }
    }

    /// Gives the blocks away and has none. It takes no memory.
    pub fn take(&mut self) -> Blocks
        ensures given { result ≡ self.old }
        ensures left { self.new ≡ [] }
    {
        let alloc = self.alloc;
        mem::replace(self, Blocks::new(alloc))
    }

    /// These blocks, in their order, or an error for want of memory.
    pub fn of(alloc: Global, items: &[Block]) -> Result<Blocks, AllocError>
        ensures { IfOk result (λ blocks. blocks ≡ items.now) }
    {
        Blocks::new(alloc).with(items)
    }

    /// The number of blocks, below 2^49.
    pub fn len(&self) -> u64
        ensures len { result ≡ length self.now }
        ensures small { result < 2 ^ 49 }
    {
        (self.whole.len() * GROUP + self.last.len()) as u64
    }

    /// The block at a place, counted from 0, and none past the end.
    pub fn get(&self, at: u64) -> Option<&Block>
        ensures { option_copied result ≡ slice_get self.now at }
    {
        let at = at as usize;
        match self.whole.get(at / GROUP) {
            Some(group) => group.get(at % GROUP),
            None => self.last.get(at - self.whole.len() * GROUP),
        }
    }

    /// The block at a place, counted from 0; past the end a block of zeros.
    pub fn at(&self, at: u64) -> Block
        ensures { result ≡ block_at self.now at }
    {
        match self.get(at) {
            Some(block) => *block,
            None => Block::zeros(),
        }
    }

    /// The two slots of the meta file, one of them, 0 or 1, written; or an error for want of memory.
    pub fn with_slot(&self, slot: u64, block: &Block) -> Result<Blocks, AllocError>
        requires { slot < 2 }
        ensures { IfOk result (λ blocks. blocks ≡ with_slot slot block.now self.now) }
    {
        let mut slots = [self.at(0), self.at(1)];
        slots[slot as usize] = *block;
        Blocks::of(self.alloc, &slots)
    }

    /// The same blocks once more, or an error for want of memory.
    pub fn share(&self) -> Result<Blocks, AllocError>
        ensures { IfOk result (λ blocks. blocks ≡ self.now) }
    {
        Ok(Blocks {
            alloc: self.alloc,
            whole: self.whole.share()?,
            last: self.last.share()?,
        })
    }

    // These blocks and one behind them.
    fn and(self, block: Arc<Block>) -> Result<Blocks, AllocError>
        ensures { IfOk result (λ blocks. blocks ≡ self ++ arc_value block ∷ []) }
    {
        let Blocks {
            alloc,
            whole,
            mut last,
        } = self;
        if last.len() < GROUP {
            last.push(block)?;
            return Ok(Blocks { alloc, whole, last });
        }
        let whole = whole.and(last)?;
        let mut last = Group::new(alloc);
        last.push(block)?;
        Ok(Blocks { alloc, whole, last })
    }

    /// These blocks and others behind them.
    pub(crate) fn with(&self, items: &[Block]) -> Result<Blocks, AllocError>
        ensures { IfOk result (λ blocks. blocks ≡ self.now ++ items.now) }
    {
        let mut blocks = self.share()?;
        for block in items {
            blocks = blocks.and(Arc::new(self.alloc, *block)?)?;
        }
        Ok(blocks)
    }

    /// These blocks and, up to this number, one block again and again behind them.
    pub(crate) fn padded(&self, block: &Arc<Block>, len: u64) -> Result<Blocks, AllocError>
        ensures { IfOk result (λ blocks. blocks ≡ self.now ++ replicate (len - length self.now) (arc_value block.now)) }
    {
        let mut blocks = self.share()?;
        for _ in self.len()..len {
            blocks = blocks.and(Arc::try_clone(block)?)?;
        }
        Ok(blocks)
    }

    /// Puts blocks at the end of these, and one block again and again behind others up to the number that these then have;
    /// or neither, with an error for want of memory.
    pub fn append(
        &mut self,
        items: &[Block],
        other: &mut Blocks,
        block: &Arc<Block>,
    ) -> Result<(), AllocError>
        ensures appended { OnOk result (self.new ≡ self.old ++ items.now) }
        ensures padded { OnOk result (other.new ≡ other.old ++ replicate (length self.old + length items.now - length other.old) (arc_value block.now)) }
        ensures err { OnErr result ((self.new ≡ self.old) × (other.new ≡ other.old)) }
    {
        let len = self.len() + items.len() as u64;
        let behind = len.saturating_sub(other.len()) as usize;
        if items.len() > GROUP - self.last.len() || behind > GROUP - other.last.len() {
            let blocks = self.with(items)?;
            *other = other.padded(block, len)?;
            *self = blocks;
            return Ok(());
        }
        let before = self.last.len();
        self.last.append(items)?;
        if other.last.repeat(block, behind).is_err() {
            self.last.truncate(before);
            return Err(AllocError);
        }
        Ok(())
    }

    /// The first of these blocks, so many or all, or an error for want of memory.
    pub fn first(&self, len: u64) -> Result<Blocks, AllocError>
        ensures { IfOk result (λ blocks. blocks ≡ take len self.now) }
    {
        let len = len as usize;
        match self.whole.get(len / GROUP) {
            Some(group) => Ok(Blocks {
                alloc: self.alloc,
                whole: self.whole.first(len / GROUP)?,
                last: group.first(len % GROUP)?,
            }),
            None => Ok(Blocks {
                alloc: self.alloc,
                whole: self.whole.share()?,
                last: self.last.first(len - self.whole.len() * GROUP)?,
            }),
        }
    }

    /// These blocks with another in the place, counted from 0, of one of them, and the same blocks where there is none; or an
    /// error for want of memory.
    pub fn replaced(&self, at: u64, block: &Arc<Block>) -> Result<Blocks, AllocError>
        ensures { IfOk result (λ blocks. blocks ≡ slice_set self.now at (arc_value block.now)) }
    {
        let at = at as usize;
        match self.whole.get(at / GROUP) {
            Some(group) => Ok(Blocks {
                alloc: self.alloc,
                whole: self
                    .whole
                    .replaced(at / GROUP, group.replaced(at % GROUP, block)?)?,
                last: self.last.share()?,
            }),
            None => Ok(Blocks {
                alloc: self.alloc,
                whole: self.whole.share()?,
                last: self.last.replaced(at - self.whole.len() * GROUP, block)?,
            }),
        }
    }
}
