ghost use Rattle.std.specs.Prelude.{◌≡◌, ◌<◌, ◌++◌, [], ◌∷◌, length, IfOk, OnOk, OnErr};
ghost use Rattle.std.specs.Arc.{arc_value};
ghost use Rattle.block_host.specs.Sealed.{zero_block};
ghost use Rattle.host_memory.specs.Kept.{synced_of, shredded_of};
ghost use Rattle.host_memory.specs.declared.change.Change.TheVariants.{Append};
ghost use Rattle.host_memory.specs.Pending.{FileState, oldest, torn_of, tear, picked, appended, slot_written, cut_to, emptied, adopted, made_sure, zeroed_at};

use crate::Pick;
use crate::change::Change;
use block_host::Block;
use block_list::Blocks;
use ghost_past::Past;
use std::alloc::{AllocError, Global};
use std::marker::Model;
use std::sync::Arc;

/// The blocks that a file had at the last sync, and those that it has where all that is pending is torn.
#[derive(Drop)]
pub(crate) struct Pending {
    synced: Blocks,
    torn: Blocks,
}

/// A file: its blocks, what is pending, if anything is, and the changes since the last sync.
#[derive(Drop)]
pub(crate) struct File {
    blocks: Blocks,
    pending: Option<Pending>,
    zero: Arc<Block>,
    steps: Past<(Blocks, Change)>,
}

impl Model for File {
    ghost use Rattle.host_memory.specs.Pending.{FileState, Pinned};
    ghost use Rattle.host_memory.specs.Kept.{synced_of, shredded_of};
    ghost use Rattle.std.specs.Arc.{arc_value};

    ghost Value = { FileState };

    ghost view = { λ f. record { blocks = f.blocks; steps = f.steps.items } };

    ghost invariant = { λ f. Pinned f.blocks f.steps.items (synced_of f.pending f.blocks) (shredded_of f.pending f.blocks) (arc_value f.zero) };
}

impl File {
    /// A file without blocks.
    pub(crate) fn empty(alloc: Global) -> Result<File, AllocError>
        ensures { IfOk result (λ file. file ≡ record { blocks = []; steps = [] }) }
    {
        Ok(File {
            blocks: Blocks::new(alloc),
            pending: None,
            zero: Arc::new(alloc, Block::zeros())?,
            steps: Past::new(),
        })
    }

    /// The blocks.
    pub(crate) fn blocks(&self) -> &Blocks
        ensures { result.now ≡ self.now.blocks }
    {
        &self.blocks
    }

    /// The blocks at the last sync.
    fn synced(&self) -> &Blocks
        ensures { result.now ≡ oldest self.now.blocks self.now.steps }
    {
        match &self.pending {
            None => &self.blocks,
            Some(pending) => &pending.synced,
        }
    }

    /// The blocks where all that is pending is torn.
    fn torn(&self) -> &Blocks
        ensures { result.now ≡ torn_of self.now.blocks self.now.steps }
    {
        match &self.pending {
            None => &self.blocks,
            Some(pending) => &pending.torn,
        }
    }

    /// Puts blocks at the end of the file.
    pub(crate) fn append(&mut self, blocks: &[Block]) -> Result<(), AllocError>
        ensures ok { OnOk result (self.new ≡ appended blocks.now self.old) }
        ensures err { OnErr result (self.new ≡ self.old) }
    {
        let at = self.blocks.len();
        let steps = self.steps.and_pair(&self.blocks, &Change::Append { at });
        grow(&mut self.blocks, &mut self.pending, blocks, &self.zero)?;
        self.steps = steps;
        Ok(())
    }

    // The file after a change: with these blocks, and with these where all that is pending is torn.
    fn changed(&self, change: Change, blocks: Blocks, torn: Blocks) -> Result<File, AllocError>
        requires { torn ≡ tear change blocks (torn_of self.now.blocks self.now.steps) }
        ensures { IfOk result (λ file. file ≡ record { blocks = blocks; steps = (self.now.blocks, change) ∷ self.now.steps }) }
    {
        Ok(File {
            zero: Arc::try_clone(&self.zero)?,
            pending: Some(Pending {
                synced: self.synced().share()?,
                torn,
            }),
            steps: self.steps.and_pair(&self.blocks, &change),
            blocks,
        })
    }

    /// The meta file with a slot written.
    pub(crate) fn written(&self, slot: u64, block: &Block) -> Result<File, AllocError>
        requires { slot < 2 }
        ensures { IfOk result (λ file. file ≡ slot_written slot block.now self.now) }
    {
        self.changed(
            Change::Slot { slot },
            self.blocks.with_slot(slot, block)?,
            self.torn().with_slot(slot, &self.zero)?,
        )
    }

    /// The first blocks of the file.
    pub(crate) fn shortened(&self, blocks: u64) -> Result<File, AllocError>
        ensures { IfOk result (λ file. file ≡ cut_to blocks self.now) }
    {
        self.changed(
            Change::Shorten { blocks },
            self.blocks.first(blocks)?,
            self.torn().first(blocks)?,
        )
    }

    /// Another file in the place of this one.
    pub(crate) fn replaced(&self, alloc: Global, blocks: &[Block]) -> Result<File, AllocError>
        ensures { IfOk result (λ file. file ≡ adopted blocks.now self.now) }
    {
        let next = Blocks::of(alloc, blocks)?;
        let torn = next.share()?;
        self.changed(Change::Adopt, next, torn)
    }

    /// The file with a block zeroed, all of it on the disk.
    pub(crate) fn spoiled(&self, at: u64) -> Result<File, AllocError>
        ensures { IfOk result (λ file. file ≡ zeroed_at at self.now) }
    {
        Ok(File {
            blocks: self.blocks.replaced(at, &self.zero)?,
            pending: None,
            zero: Arc::try_clone(&self.zero)?,
            steps: Past::new(),
        })
    }

    /// Takes all blocks away.
    pub(crate) fn remove(&mut self)
        ensures { self.new ≡ emptied self.old }
    {
        self.steps = self
            .steps
            .and_pair(&self.blocks, &Change::Shorten { blocks: 0 });
        match &mut self.pending {
            None => {
                let synced = self.blocks.take();
                let torn = self.blocks.take();
                self.pending = Some(Pending { synced, torn });
            }
            Some(pending) => {
                let _ = pending.torn.take();
                let _ = self.blocks.take();
            }
        }
    }

    /// Makes sure of the file.
    pub(crate) fn settle(&mut self)
        ensures { self.new ≡ made_sure self.old }
    {
        self.pending = None;
        self.steps = Past::new();
    }

    /// Leaves the file as a crash does.
    pub(crate) fn crash(&mut self, pick: Pick)
        ensures { self.new ≡ record { blocks = picked pick self.old; steps = [] } }
    {
        if let Some(Pending { synced, torn }) = self.pending.take() {
            match pick {
                Pick::Before => self.blocks = synced,
                Pick::Written => {}
                Pick::Torn => self.blocks = torn,
            }
        }
        self.steps = Past::new();
    }
}

// Puts blocks at the end of a file's, and torn ones at the end of those that a crash may leave.
fn grow(
    blocks: &mut Blocks,
    pending: &mut Option<Pending>,
    more: &[Block],
    zero: &Arc<Block>,
) -> Result<(), AllocError>
    requires { arc_value zero.now ≡ zero_block }
    ensures added { OnOk result (blocks.new ≡ blocks.old ++ more.now) }
    ensures synced { OnOk result (synced_of pending.new blocks.new ≡ synced_of pending.old blocks.old) }
    ensures torn { OnOk result (shredded_of pending.new blocks.new ≡ tear (Append (length blocks.old)) blocks.new (shredded_of pending.old blocks.old)) }
    ensures err { OnErr result ((blocks.new ≡ blocks.old) × (pending.new ≡ pending.old)) }
{
    match pending {
        Some(pending) => blocks.append(more, &mut pending.torn, zero),
        None => {
            let synced = blocks.share()?;
            let mut torn = blocks.share()?;
            blocks.append(more, &mut torn, zero)?;
            *pending = Some(Pending { synced, torn });
            Ok(())
        }
    }
}
