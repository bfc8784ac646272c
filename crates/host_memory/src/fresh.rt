ghost use Rattle.std.specs.Prelude.{◌≡◌, true};

use crate::faults::Faults;
use block_host::{Block, Failed, Fresh, Settled};

/// A fresh file of a host in memory.
#[derive(Drop)]
pub struct MemoryFresh {
    file: u64,
    blocks: Vec<Block>,
    own: Faults,
}

impl MemoryFresh {
    pub(crate) fn new(file: u64, blocks: Vec<Block>, own: Faults) -> MemoryFresh
        ensures { result ≡ record { file = file; blocks = blocks; own = own } }
    {
        MemoryFresh { file, blocks, own }
    }

    // The file's own count of faults.
    pub(crate) fn own(&self) -> &Faults
        ensures { result.now ≡ self.now.own }
    {
        &self.own
    }
}

impl Fresh for MemoryFresh {
    ghost use Rattle.std.specs.Prelude.{◌≡◌, ◌≤◌, ◌+◌, ◌++◌, ◌⊎◌, ◌&&◌, not, if◌then◌else◌, true, Some, IsTrue, IsErr, IfOk, IfErr, OnOk, OnErr, length};
    ghost use Rattle.std.proofs.Common.{refl};
    ghost use Rattle.std.specs.Result.{is_err};
    ghost use Rattle.block_host.specs.Disk.{risen};
    ghost use Rattle.block_host.specs.Calls.{block_at, Written};
    ghost use Rattle.host_memory.specs.Faults.{once_more};
    ghost use Rattle.host_memory.specs.Memory.{fresh_due, fresh_plan, fresh_short};

    ghost tells = { true };

    ghost content = { λ fresh. fresh.blocks.items };

    ghost size = { λ fresh. length fresh.blocks.items };

    ghost file = { λ fresh. fresh.file };

    ghost faults = { λ fresh. fresh.own.count };

    ghost sized = { λ _ _. refl };

    fn size(&self) -> u64 {
        self.blocks.len() as u64
    }

    fn append(&mut self, blocks: &[Block]) -> Result<(), Failed>
        ensures added { IsTrue true → OnOk result (⟦<MemoryFresh as block_host::Fresh>⟧.content self.new ≡ ⟦<MemoryFresh as block_host::Fresh>⟧.content self.old ++ blocks.now) }
        ensures kept { IsTrue true → OnErr result (⟦<MemoryFresh as block_host::Fresh>⟧.content self.new ≡ ⟦<MemoryFresh as block_host::Fresh>⟧.content self.old) }
        ensures part { IsTrue true → Written (⟦<MemoryFresh as block_host::Fresh>⟧.file self.old) (length (⟦<MemoryFresh as block_host::Fresh>⟧.content self.old)) blocks.now (⟦<MemoryFresh as block_host::Fresh>⟧.content self.old) (⟦<MemoryFresh as block_host::Fresh>⟧.content self.new) }
        ensures longer { OnOk result (⟦<MemoryFresh as block_host::Fresh>⟧.size self.new ≡ ⟦<MemoryFresh as block_host::Fresh>⟧.size self.old + length blocks.now) }
        ensures sizes { (⟦<MemoryFresh as block_host::Fresh>⟧.size self.old ≤ ⟦<MemoryFresh as block_host::Fresh>⟧.size self.new) × (⟦<MemoryFresh as block_host::Fresh>⟧.size self.new ≤ ⟦<MemoryFresh as block_host::Fresh>⟧.size self.old + length blocks.now) }
        ensures file { ⟦<MemoryFresh as block_host::Fresh>⟧.file self.new ≡ ⟦<MemoryFresh as block_host::Fresh>⟧.file self.old }
        ensures counts { ⟦<MemoryFresh as block_host::Fresh>⟧.faults self.old ≤ ⟦<MemoryFresh as block_host::Fresh>⟧.faults self.new }
        ensures failed { OnErr result (risen (⟦<MemoryFresh as block_host::Fresh>⟧.faults self.old) ≤ ⟦<MemoryFresh as block_host::Fresh>⟧.faults self.new) }
        ensures untroubled { OnOk result (⟦<MemoryFresh as block_host::Fresh>⟧.faults self.new ≡ ⟦<MemoryFresh as block_host::Fresh>⟧.faults self.old) }
        ensures faults { ⟦<MemoryFresh as block_host::Fresh>⟧.faults self.new ≡ (if is_err result then risen (⟦<MemoryFresh as block_host::Fresh>⟧.faults self.old) else ⟦<MemoryFresh as block_host::Fresh>⟧.faults self.old) }
        ensures due { IsTrue (fresh_due self.old) → IsErr result }
        ensures cause { OnErr result (IsTrue (fresh_due self.old) ⊎ (fresh_short self.new ≡ risen (fresh_short self.old))) }
        ensures counted { fresh_plan self.new ≡ once_more (fresh_plan self.old) }
        ensures short { fresh_short self.new ≡ (if is_err result && not (fresh_due self.old) then risen (fresh_short self.old) else fresh_short self.old) }
    {
        self.own.admit()?;
        if self.blocks.extend_from_slice(blocks).is_err() {
            return Err(self.own.run_short());
        }
        Ok(())
    }

    fn read(&mut self, at: u64, out: &mut Block) -> Result<(), Failed>
        ensures given { IsTrue true → OnOk result (out.new ≡ block_at (⟦<MemoryFresh as block_host::Fresh>⟧.content self.old) at) }
        ensures kept { IsTrue true → ⟦<MemoryFresh as block_host::Fresh>⟧.content self.new ≡ ⟦<MemoryFresh as block_host::Fresh>⟧.content self.old }
        ensures size { ⟦<MemoryFresh as block_host::Fresh>⟧.size self.new ≡ ⟦<MemoryFresh as block_host::Fresh>⟧.size self.old }
        ensures file { ⟦<MemoryFresh as block_host::Fresh>⟧.file self.new ≡ ⟦<MemoryFresh as block_host::Fresh>⟧.file self.old }
        ensures counts { ⟦<MemoryFresh as block_host::Fresh>⟧.faults self.old ≤ ⟦<MemoryFresh as block_host::Fresh>⟧.faults self.new }
        ensures failed { OnErr result (risen (⟦<MemoryFresh as block_host::Fresh>⟧.faults self.old) ≤ ⟦<MemoryFresh as block_host::Fresh>⟧.faults self.new) }
        ensures untroubled { OnOk result (⟦<MemoryFresh as block_host::Fresh>⟧.faults self.new ≡ ⟦<MemoryFresh as block_host::Fresh>⟧.faults self.old) }
        ensures faults { ⟦<MemoryFresh as block_host::Fresh>⟧.faults self.new ≡ (if is_err result then risen (⟦<MemoryFresh as block_host::Fresh>⟧.faults self.old) else ⟦<MemoryFresh as block_host::Fresh>⟧.faults self.old) }
        ensures unread { OnErr result (out.new ≡ out.old) }
        ensures due { is_err result ≡ fresh_due self.old }
        ensures counted { fresh_plan self.new ≡ once_more (fresh_plan self.old) }
        ensures short { fresh_short self.new ≡ fresh_short self.old }
    {
        self.own.admit()?;
        *out = match self.blocks.get(at as usize) {
            Some(block) => *block,
            None => Block::zeros(),
        };
        Ok(())
    }

    fn sync(self) -> Result<Settled, Self>
        ensures file { IfOk result (λ settled. settled.file ≡ ⟦<MemoryFresh as block_host::Fresh>⟧.file self) }
        ensures settled { IsTrue true → IfOk result (λ settled. settled.blocks ≡ Some (⟦<MemoryFresh as block_host::Fresh>⟧.content self)) }
        ensures same { IfErr result (λ back. ⟦<MemoryFresh as block_host::Fresh>⟧.file back ≡ ⟦<MemoryFresh as block_host::Fresh>⟧.file self) }
        ensures kept { IsTrue true → IfErr result (λ back. ⟦<MemoryFresh as block_host::Fresh>⟧.content back ≡ ⟦<MemoryFresh as block_host::Fresh>⟧.content self) }
        ensures size { IfErr result (λ back. ⟦<MemoryFresh as block_host::Fresh>⟧.size back ≡ ⟦<MemoryFresh as block_host::Fresh>⟧.size self) }
        ensures failed { IfErr result (λ back. risen (⟦<MemoryFresh as block_host::Fresh>⟧.faults self) ≤ ⟦<MemoryFresh as block_host::Fresh>⟧.faults back) }
        ensures faults { IfErr result (λ back. ⟦<MemoryFresh as block_host::Fresh>⟧.faults back ≡ risen (⟦<MemoryFresh as block_host::Fresh>⟧.faults self)) }
        ensures due { is_err result ≡ fresh_due self }
        ensures counted { IfErr result (λ back. fresh_plan back ≡ once_more (fresh_plan self)) }
        ensures short { IfErr result (λ back. fresh_short back ≡ fresh_short self) }
    {
        let mut fresh = self;
        match fresh.own.admit() {
            Ok(()) => {
                let MemoryFresh {
                    file,
                    blocks,
                    own: _own,
                } = fresh;
                Ok(Settled::new(file, Some(blocks)))
            }
            Err(Failed) => Err(fresh),
        }
    }
}
