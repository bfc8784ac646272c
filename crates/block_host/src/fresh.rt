ghost use Rattle.std.specs.Prelude.{◌≡◌, ◌≤◌, ◌+◌, ◌++◌, ℕ, Bool, IsTrue, List, Some, OnOk, OnErr, IfOk, IfErr, length};
ghost use Rattle.block_host.specs.declared.block.Block.{Block};
ghost use Rattle.block_host.specs.Disk.{risen};
ghost use Rattle.block_host.specs.Calls.{block_at, Written};

use crate::{Block, Failed, Settled};

/// A new file, outside the host's images until it is settled and adopted.
pub trait Fresh: Drop {
    /// Whether the file tells its blocks.
    ghost tells: { Bool };

    /// The blocks.
    ghost content: { Self → List Block };

    /// The number of blocks, which every fresh file tells. `append` alone changes it.
    ghost size: { Self → ℕ };

    /// The number that the file was made with, which no call changes.
    ghost file: { Self → ℕ };

    /// How often the file has failed.
    ghost faults: { Self → ℕ };

    /// The number of blocks.
    fn size(&self) -> u64
        ensures { result ≡ size self.now };

    /// Puts the blocks at the end, in order. On a failure any part of them is there.
    fn append(&mut self, blocks: &[Block]) -> Result<(), Failed>
        ensures added { IsTrue tells → OnOk result (content self.new ≡ content self.old ++ blocks.now) }
        ensures part { IsTrue tells → Written (file self.old) (length (content self.old)) blocks.now (content self.old) (content self.new) }
        ensures longer { OnOk result (size self.new ≡ size self.old + length blocks.now) }
        ensures sizes { (size self.old ≤ size self.new) × (size self.new ≤ size self.old + length blocks.now) }
        ensures file { file self.new ≡ file self.old }
        ensures counts { faults self.old ≤ faults self.new }
        ensures failed { OnErr result (risen (faults self.old) ≤ faults self.new) }
        ensures untroubled { OnOk result (faults self.new ≡ faults self.old) };

    /// Block `at`; past the end a block of zeros.
    fn read(&mut self, at: u64, out: &mut Block) -> Result<(), Failed>
        ensures given { IsTrue tells → OnOk result (out.new ≡ block_at (content self.old) at) }
        ensures kept { IsTrue tells → content self.new ≡ content self.old }
        ensures size { size self.new ≡ size self.old }
        ensures file { file self.new ≡ file self.old }
        ensures counts { faults self.old ≤ faults self.new }
        ensures failed { OnErr result (risen (faults self.old) ≤ faults self.new) }
        ensures untroubled { OnOk result (faults self.new ≡ faults self.old) };

    /// Makes sure of all blocks. On a failure the file comes back with its count risen.
    fn sync(self) -> Result<Settled, Self>
    where
        Self: Sized,
        ensures file { IfOk result (λ settled. settled.file ≡ file self) }
        ensures settled { IsTrue tells → IfOk result (λ settled. settled.blocks ≡ Some (content self)) }
        ensures same { IfErr result (λ back. file back ≡ file self) }
        ensures kept { IsTrue tells → IfErr result (λ back. content back ≡ content self) }
        ensures size { IfErr result (λ back. size back ≡ size self) }
        ensures failed { IfErr result (λ back. risen (faults self) ≤ faults back) };

    ghost sized: { IsTrue tells → (fresh : Self) → size fresh ≡ length (content fresh) };
}
