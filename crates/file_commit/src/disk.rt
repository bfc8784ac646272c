ghost use Rattle.std.specs.Prelude.{◌≡◌, ◌≤◌, ◌++◌, ◌∷◌, [], IsTrue, OnOk, OnErr};
ghost use Rattle.block_host.specs.Disk.{risen};
ghost use Rattle.block_host.specs.Order.{IsSettled};
ghost use Rattle.file_parts.specs.Growing.{Grows, IsAny};
ghost use Rattle.file_parts.specs.Keeping.{Begins};
ghost use Rattle.file_parts.specs.Moment.{Aside};
ghost use Rattle.file_core.specs.Updates.{listed};
ghost use Rattle.file_commit.specs.Ordered.{Leaves, IsBegun, IsInTurn};

use block_host::{Block, Failed, Host};

// Puts the open block, if there is one, at the end of the file and, once all before is on the disk, the header behind it;
// then sets the view on the file.
pub(crate) fn put_commit<H: Host>(
    host: &mut H,
    view: &mut H::View,
    file: u64,
    block: Option<Block>,
    header: &Block,
) -> Result<(), Failed>
    ensures files { IsTrue H.tells → OnOk result ((H.disk host.new).files file ≡ (H.disk host.old).files file ++ listed block ++ header.now ∷ []) }
    ensures shown { IsTrue H.tells → OnOk result (H.View.content view.new ≡ (H.disk host.new).files file) }
    ensures kept { IsTrue H.tells → OnErr result (H.View.content view.new ≡ H.View.content view.old) }
    ensures settled { IsTrue H.tells → OnOk result (IsSettled file (H.disk host.new)) }
    ensures in_turn { IsTrue H.tells → Leaves (IsInTurn file (H.disk host.old) (listed block) header.now) (H.disk host.old) (H.disk host.new) }
    ensures aside { IsTrue H.tells → Aside file (H.disk host.old) (H.disk host.new) }
    ensures front { IsTrue H.tells → Begins ((H.disk host.old).files file) ((H.disk host.new).files file) }
    ensures crash { IsTrue H.tells → Grows IsAny file (H.disk host.old) (H.disk host.new) }
    ensures failed { OnErr result (risen (H.faults host.old) ≤ H.faults host.new) }
    ensures clock { (H.disk host.old).moment ≤ (H.disk host.new).moment }
    ensures counts { H.faults host.old ≤ H.faults host.new }
    ensures untroubled { OnOk result (H.faults host.new ≡ H.faults host.old) }
    ensures view_count { H.View.faults view.new ≡ H.View.faults view.old }
{
    put_open_block(host, file, block)?;
    put_at_end(host, file, &[*header])?;
    host.renew(file, view)
}

// Puts the open block, if there is one, at the end of the file, and makes sure of the file.
fn put_open_block<H: Host>(host: &mut H, file: u64, block: Option<Block>) -> Result<(), Failed>
    ensures files { IsTrue H.tells → OnOk result ((H.disk host.new).files file ≡ (H.disk host.old).files file ++ listed block) }
    ensures settled { IsTrue H.tells → OnOk result (IsSettled file (H.disk host.new)) }
    ensures begun { IsTrue H.tells → Leaves (IsBegun file (H.disk host.old) (listed block)) (H.disk host.old) (H.disk host.new) }
    ensures aside { IsTrue H.tells → Aside file (H.disk host.old) (H.disk host.new) }
    ensures front { IsTrue H.tells → Begins ((H.disk host.old).files file) ((H.disk host.new).files file) }
    ensures crash { IsTrue H.tells → Grows IsAny file (H.disk host.old) (H.disk host.new) }
    ensures failed { OnErr result (risen (H.faults host.old) ≤ H.faults host.new) }
    ensures clock { (H.disk host.old).moment ≤ (H.disk host.new).moment }
    ensures counts { H.faults host.old ≤ H.faults host.new }
    ensures untroubled { OnOk result (H.faults host.new ≡ H.faults host.old) }
{
    match block {
        Some(block) => put_at_end(host, file, &[block]),
        None => host.sync(file),
    }
}

// Puts blocks at the end of the file, and makes sure of it.
fn put_at_end<H: Host>(host: &mut H, file: u64, blocks: &[Block]) -> Result<(), Failed>
    ensures files { IsTrue H.tells → OnOk result ((H.disk host.new).files file ≡ (H.disk host.old).files file ++ blocks.now) }
    ensures settled { IsTrue H.tells → OnOk result (IsSettled file (H.disk host.new)) }
    ensures begun { IsTrue H.tells → Leaves (IsBegun file (H.disk host.old) blocks.now) (H.disk host.old) (H.disk host.new) }
    ensures aside { IsTrue H.tells → Aside file (H.disk host.old) (H.disk host.new) }
    ensures front { IsTrue H.tells → Begins ((H.disk host.old).files file) ((H.disk host.new).files file) }
    ensures crash { IsTrue H.tells → Grows IsAny file (H.disk host.old) (H.disk host.new) }
    ensures failed { OnErr result (risen (H.faults host.old) ≤ H.faults host.new) }
    ensures clock { (H.disk host.old).moment ≤ (H.disk host.new).moment }
    ensures counts { H.faults host.old ≤ H.faults host.new }
    ensures untroubled { OnOk result (H.faults host.new ≡ H.faults host.old) }
{
    host.append(file, blocks)?;
    host.sync(file)
}
