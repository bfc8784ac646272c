ghost use Rattle.std.specs.Prelude.{◌≡◌, ◌≤◌, ◌++◌, [], ◌∷◌, IsTrue, OnOk, OnErr};
ghost use Rattle.block_host.specs.Disk.{risen};
ghost use Rattle.block_host.specs.Moments.{LeavesOnly};
ghost use Rattle.block_host.specs.Order.{IsSettled, InOrder, TouchesOnly};

use crate::{Block, Failed, Host};

/// Puts records at the end of a file and, once they are on the disk, their header behind them. The file has to be on the
/// disk, all of it. After Ok it is so again; a crash at any moment leaves the header only behind all of its records.
/// Whatever the answer, other files stay and nothing is said.
pub fn append_in_order<H: Host>(
    host: &mut H,
    file: u64,
    records: &[Block],
    header: &Block,
) -> Result<(), Failed>
    requires { IsTrue H.tells → IsSettled file (H.disk host.old) }
    ensures done { IsTrue H.tells → OnOk result ((H.disk host.new).files file ≡ (H.disk host.old).files file ++ records.now ++ header.now ∷ []) }
    ensures settled { IsTrue H.tells → OnOk result (IsSettled file (H.disk host.new)) }
    ensures any_moment { IsTrue H.tells → LeavesOnly (H.disk host.old) (H.disk host.new) (λ image said. InOrder file ((H.disk host.old).files file) records.now header.now (image file)) }
    ensures others { IsTrue H.tells → TouchesOnly file (H.disk host.old) (H.disk host.new) }
    ensures clock { (H.disk host.old).moment ≤ (H.disk host.new).moment }
    ensures counts { H.faults host.old ≤ H.faults host.new }
    ensures untroubled { OnOk result (H.faults host.new ≡ H.faults host.old) }
    ensures greatest { H.greatest host.new ≡ H.greatest host.old }
    ensures failed { OnErr result (risen (H.faults host.old) ≤ H.faults host.new) }
{
    host.append(file, records)?;
    host.sync(file)?;
    host.append(file, &[*header])?;
    host.sync(file)
}
