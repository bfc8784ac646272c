ghost use Rattle.std.specs.Prelude.{◌≡◌, ◌+◌, ◌++◌, ◌≤◌, IsTrue, Some, Err, OnOk, OnErr, nat_lt};
ghost use Rattle.block_host.specs.Disk.{risen};
ghost use Rattle.forest_model.specs.Limits.{is_worn};
ghost use Rattle.forest_model.specs.declared.refusal.Refusal.TheVariants as Refusal;
ghost use Rattle.file_parts.specs.Held.{held};
ghost use Rattle.file_parts.specs.Moment.{Aside, moment};
ghost use Rattle.file_parts.specs.Growing.{AreNoHeaders, Grows, IsAmong};
ghost use Rattle.file_parts.specs.Keeping.{Begins, Keeps, KeepsWith};

use crate::Parts;
use block_host::{Block, Failed, Host};
use forest_model::Refusal;

/// No file has more blocks.
pub const MOST_BLOCKS: u64 = 1 << 32;

const FIRST_WORN: u64 = (1 << 62) - 1;

/// Whether a number may not be drawn any more.
pub fn is_worn(number: u64) -> bool
    ensures { result ≡ is_worn number }
{
    number >= FIRST_WORN
}

/// Whether the number behind this one may not be drawn any more.
pub fn is_next_worn(number: u64) -> bool
    ensures { result ≡ is_worn (number + 1) }
{
    number >= FIRST_WORN - 1
}

/// Whether a number so many above this one may not be drawn any more.
pub fn is_later_worn(number: u64, more: u64) -> bool
    ensures { result ≡ is_worn (number + more) }
{
    number >= FIRST_WORN || more >= FIRST_WORN - number
}

// Whether so many blocks and so many more are above a greatest number.
fn is_over(blocks: u64, more: u64, max: u64) -> bool
    ensures { result ≡ nat_lt max (blocks + more) }
{
    more > max || blocks > max - more
}

/// Whether a file has too few blocks left for so many more: two are kept for the open block and the header of a commit.
pub fn is_full(blocks: u64, needed: u64, max: u64) -> bool
    ensures { result ≡ nat_lt max (blocks + needed + 2) }
{
    max < 2 || is_over(blocks, needed, max - 2)
}

/// Puts blocks of records at the end of the current file and sets the view on it; without any, neither is asked. A host that
/// fails stops the file.
pub fn put_records<H: Host>(parts: &mut Parts<H>, blocks: &[Block]) -> Result<(), Refusal>
    requires no_headers { AreNoHeaders blocks.now }
    ensures files { IsTrue H.tells → OnOk result ((H.disk parts.new.host).files parts.old.revision ≡ (H.disk parts.old.host).files parts.old.revision ++ blocks.now) }
    ensures shown { IsTrue H.tells → OnOk result (H.View.content parts.old.view ≡ (H.disk parts.old.host).files parts.old.revision → H.View.content parts.new.view ≡ (H.disk parts.new.host).files parts.old.revision) }
    ensures kept { OnOk result (held parts.new ≡ held parts.old) }
    ensures stops { OnErr result ((result ≡ Err Refusal.DiskFault) × (held parts.new ≡ record (held parts.old) { stopped = Some (H.faults parts.new.host) })) }
    ensures keeps { Keeps H.tells (moment parts.old) (moment parts.new) result }
{
    grow_or_stop(parts, blocks)
}

/// Puts blocks at the end of the current file and sets the view on it; without any, neither is asked. A host that fails
/// stops the file.
pub fn grow_or_stop<H: Host>(parts: &mut Parts<H>, blocks: &[Block]) -> Result<(), Refusal>
    ensures files { IsTrue H.tells → OnOk result ((H.disk parts.new.host).files parts.old.revision ≡ (H.disk parts.old.host).files parts.old.revision ++ blocks.now) }
    ensures shown { IsTrue H.tells → OnOk result (H.View.content parts.old.view ≡ (H.disk parts.old.host).files parts.old.revision → H.View.content parts.new.view ≡ (H.disk parts.new.host).files parts.old.revision) }
    ensures kept { OnOk result (held parts.new ≡ held parts.old) }
    ensures stops { OnErr result ((result ≡ Err Refusal.DiskFault) × (held parts.new ≡ record (held parts.old) { stopped = Some (H.faults parts.new.host) })) }
    ensures keeps { KeepsWith (IsAmong blocks.now) H.tells (moment parts.old) (moment parts.new) result }
{
    match grow(&mut parts.host, &mut parts.view, parts.revision, blocks) {
        Ok(()) => Ok(()),
        Err(Failed) => {
            parts.stopped = Some(parts.host.faults());
            Err(Refusal::DiskFault)
        }
    }
}

// Puts blocks at the end of a file and sets the view on it; without any, neither is asked. It fails where one of them
// does, whose count of faults rises then.
fn grow<H: Host>(
    host: &mut H,
    view: &mut H::View,
    file: u64,
    blocks: &[Block],
) -> Result<(), Failed>
    ensures files { IsTrue H.tells → OnOk result ((H.disk host.new).files file ≡ (H.disk host.old).files file ++ blocks.now) }
    ensures shown { IsTrue H.tells → OnOk result (H.View.content view.old ≡ (H.disk host.old).files file → H.View.content view.new ≡ (H.disk host.new).files file) }
    ensures kept { IsTrue H.tells → OnErr result (H.View.content view.new ≡ H.View.content view.old) }
    ensures aside { IsTrue H.tells → Aside file (H.disk host.old) (H.disk host.new) }
    ensures front { IsTrue H.tells → Begins ((H.disk host.old).files file) ((H.disk host.new).files file) }
    ensures crash { IsTrue H.tells → Grows (IsAmong blocks.now) file (H.disk host.old) (H.disk host.new) }
    ensures failed { OnErr result (risen (H.faults host.old) ≤ H.faults host.new) }
    ensures clock { (H.disk host.old).moment ≤ (H.disk host.new).moment }
    ensures counts { H.faults host.old ≤ H.faults host.new }
    ensures untroubled { OnOk result (H.faults host.new ≡ H.faults host.old) }
    ensures view_count { H.View.faults view.new ≡ H.View.faults view.old }
{
    if blocks.is_empty() {
        return Ok(());
    }
    put_at_end(host, file, blocks)?;
    host.renew(file, view)
}

// Puts blocks at the end of a file. What was there stays, also where the host fails.
fn put_at_end<H: Host>(host: &mut H, file: u64, blocks: &[Block]) -> Result<(), Failed>
    ensures files { IsTrue H.tells → OnOk result ((H.disk host.new).files file ≡ (H.disk host.old).files file ++ blocks.now) }
    ensures aside { IsTrue H.tells → Aside file (H.disk host.old) (H.disk host.new) }
    ensures front { IsTrue H.tells → Begins ((H.disk host.old).files file) ((H.disk host.new).files file) }
    ensures crash { IsTrue H.tells → Grows (IsAmong blocks.now) file (H.disk host.old) (H.disk host.new) }
    ensures failed { OnErr result (risen (H.faults host.old) ≤ H.faults host.new) }
    ensures clock { (H.disk host.old).moment ≤ (H.disk host.new).moment }
    ensures counts { H.faults host.old ≤ H.faults host.new }
    ensures untroubled { OnOk result (H.faults host.new ≡ H.faults host.old) }
{
    host.append(file, blocks)
}
