ghost use Rattle.std.specs.Prelude.{◌≡◌, ◌≤◌, ℕ, Bool, IsTrue, List, OnOk, OnErr, length};
ghost use Rattle.block_host.specs.declared.block.Block.{Block};
ghost use Rattle.block_host.specs.Disk.{risen};
ghost use Rattle.block_host.specs.Calls.{block_at};

use crate::{Block, Failed};

/// Reads the blocks that a file had when the view was made or last renewed. No other call changes them, also where the
/// file is written or removed.
pub trait View: Drop {
    /// Whether the view tells its blocks.
    ghost tells: { Bool };

    /// The blocks.
    ghost content: { Self → List Block };

    /// How often the view has failed.
    ghost faults: { Self → ℕ };

    /// The number of blocks.
    fn size(&self) -> u64
        ensures { IsTrue tells → result ≡ length (content self.now) };

    /// Block `at`; past the end a block of zeros.
    fn read(&mut self, at: u64, out: &mut Block) -> Result<(), Failed>
        ensures given { IsTrue tells → OnOk result (out.new ≡ block_at (content self.old) at) }
        ensures kept { IsTrue tells → content self.new ≡ content self.old }
        ensures counts { faults self.old ≤ faults self.new }
        ensures failed { OnErr result (risen (faults self.old) ≤ faults self.new) }
        ensures untroubled { OnOk result (faults self.new ≡ faults self.old) };
}
