ghost use Rattle.std.specs.Prelude.{◌≡◌, true};

use crate::faults::Faults;
use block_host::{Block, Failed, View};
use block_list::Blocks;

/// A view of a file of a host in memory.
#[derive(Drop)]
pub struct MemoryView {
    blocks: Blocks,
    own: Faults,
}

impl MemoryView {
    pub(crate) fn new(blocks: Blocks, own: Faults) -> MemoryView
        ensures { result ≡ record { blocks = blocks; own = own } }
    {
        MemoryView { blocks, own }
    }

    // Sets the view on other blocks.
    pub(crate) fn renew(&mut self, blocks: Blocks)
        ensures { self.new ≡ record self.old { blocks = blocks } }
    {
        self.blocks = blocks;
    }

    // The view's own count of faults.
    pub(crate) fn own(&self) -> &Faults
        ensures { result.now ≡ self.now.own }
    {
        &self.own
    }
}

impl View for MemoryView {
    ghost use Rattle.std.specs.Prelude.{◌≡◌, ◌≤◌, if◌then◌else◌, true, IsTrue, OnOk, OnErr};
    ghost use Rattle.std.specs.Result.{is_err};
    ghost use Rattle.block_host.specs.Disk.{risen};
    ghost use Rattle.block_host.specs.Calls.{block_at};
    ghost use Rattle.host_memory.specs.Faults.{once_more};
    ghost use Rattle.host_memory.specs.Memory.{view_due, view_plan, view_short};

    ghost tells = { true };

    ghost content = { λ view. view.blocks };

    ghost faults = { λ view. view.own.count };

    fn size(&self) -> u64 {
        self.blocks.len()
    }

    fn read(&mut self, at: u64, out: &mut Block) -> Result<(), Failed>
        ensures given { IsTrue true → OnOk result (out.new ≡ block_at (⟦<MemoryView as block_host::View>⟧.content self.old) at) }
        ensures kept { IsTrue true → ⟦<MemoryView as block_host::View>⟧.content self.new ≡ ⟦<MemoryView as block_host::View>⟧.content self.old }
        ensures counts { ⟦<MemoryView as block_host::View>⟧.faults self.old ≤ ⟦<MemoryView as block_host::View>⟧.faults self.new }
        ensures failed { OnErr result (risen (⟦<MemoryView as block_host::View>⟧.faults self.old) ≤ ⟦<MemoryView as block_host::View>⟧.faults self.new) }
        ensures untroubled { OnOk result (⟦<MemoryView as block_host::View>⟧.faults self.new ≡ ⟦<MemoryView as block_host::View>⟧.faults self.old) }
        ensures faults { ⟦<MemoryView as block_host::View>⟧.faults self.new ≡ (if is_err result then risen (⟦<MemoryView as block_host::View>⟧.faults self.old) else ⟦<MemoryView as block_host::View>⟧.faults self.old) }
        ensures unread { OnErr result (out.new ≡ out.old) }
        ensures due { is_err result ≡ view_due self.old }
        ensures counted { view_plan self.new ≡ once_more (view_plan self.old) }
        ensures short { view_short self.new ≡ view_short self.old }
    {
        self.own.admit()?;
        *out = self.blocks.at(at);
        Ok(())
    }
}
