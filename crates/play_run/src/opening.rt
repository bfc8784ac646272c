ghost use Rattle.std.specs.Prelude.{◌≡◌, ◌<◌, ◌≤◌, ◌↔◌, IsTrue, IfOk, OnOk, OnErr, length, ◌==◌};
ghost use Rattle.block_host.specs.Disk.{risen};
ghost use Rattle.block_host.specs.Sealed.{IsSealed};
ghost use Rattle.header_block.specs.Layout.{header_bytes};
ghost use Rattle.meta_slots.specs.Slots.{slot_bytes};
ghost use Rattle.file_image.specs.NewStore.{IsNewStore, new_header};
ghost use Rattle.block_host.specs.Calls.{block_at};

use block_host::{Block, Failed, Host, seal};
use forest_model::{Header, Stores};
use header_block::payload_of;

/// The revision of a new store's file, and its number.
const FILE: u64 = 1;

/// Whether the host holds a new store: the meta file with its first slot, and file 1 with the header of commit 0.
pub(crate) fn is_new_store<H: Host>(host: &mut H) -> Result<bool, Failed>
    ensures is { IsTrue H.tells → IfOk result (λ is. IsTrue is ↔ IsNewStore (H.disk host.old).files) }
    ensures files { IsTrue H.tells → (H.disk host.new).files ≡ (H.disk host.old).files }
    ensures silent { IsTrue H.tells → (H.disk host.new).said ≡ (H.disk host.old).said }
    ensures failed { OnErr result (risen (H.faults host.old) ≤ H.faults host.new) }
    ensures untroubled { OnOk result (H.faults host.new ≡ H.faults host.old) }
{
    let header = first_header();
    let meta = has_blocks(host, 0, 2)?;
    let file = has_blocks(host, FILE, 1)?;
    let slot = is_block(host, 0, 0, &first_slot())?;
    let zeros = is_block(host, 0, 1, &Block::zeros())?;
    let first = is_block(host, FILE, 0, &header)?;
    Ok(meta && file && slot && zeros && first)
}

// Whether a file has so many blocks.
fn has_blocks<H: Host>(host: &mut H, file: u64, count: u64) -> Result<bool, Failed>
    ensures is { IsTrue H.tells → IfOk result (λ is. is ≡ length ((H.disk host.old).files file) == count) }
    ensures files { IsTrue H.tells → (H.disk host.new).files ≡ (H.disk host.old).files }
    ensures silent { IsTrue H.tells → (H.disk host.new).said ≡ (H.disk host.old).said }
    ensures failed { OnErr result (risen (H.faults host.old) ≤ H.faults host.new) }
    ensures untroubled { OnOk result (H.faults host.new ≡ H.faults host.old) }
{
    let size = host.size(file)?;
    Ok(size == count)
}

// Whether this block stands at a place of a file.
fn is_block<H: Host>(host: &mut H, file: u64, at: u64, block: &Block) -> Result<bool, Failed>
    ensures is { IsTrue H.tells → IfOk result (λ is. IsTrue is ↔ block_at ((H.disk host.old).files file) at ≡ block.now) }
    ensures files { IsTrue H.tells → (H.disk host.new).files ≡ (H.disk host.old).files }
    ensures silent { IsTrue H.tells → (H.disk host.new).said ≡ (H.disk host.old).said }
    ensures failed { OnErr result (risen (H.faults host.old) ≤ H.faults host.new) }
    ensures untroubled { OnOk result (H.faults host.new ≡ H.faults host.old) }
{
    let mut found = Block::zeros();
    host.read(file, at, &mut found)?;
    Ok(found == *block)
}

// Slot 0 of the meta file, which names revision 1 in generation 1.
pub(crate) fn first_slot() -> Block
    ensures { IsSealed 0 0 5 (slot_bytes 1 1) result }
{
    seal(5, 0, 0, &[0, 0, 0, 0, 0, 0, 0, 1, 0, 0, 0, 0, 0, 0, 0, 1])
}

// The header of commit 0, as the block that a new file begins with.
pub(crate) fn first_header() -> Block
    ensures { IsSealed 1 0 4 (header_bytes new_header) result }
{
    let page = payload_of(&new_header());
    seal(4, FILE, 0, &page.bytes[..page.len as usize])
}

// Commit 0: one store, `default`, and no documents.
fn new_header() -> Header
    ensures { result ≡ new_header }
{
    let mut stores = Stores::new();
    stores.push(0, b"default", 0, 0);
    Header {
        commit: 0,
        next_commit: 1,
        previous: None,
        key: None,
        seq: None,
        wal_from: 1,
        live: 0,
        next_store: 1,
        stores,
    }
}
