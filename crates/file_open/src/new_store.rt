ghost use Rattle.std.specs.Prelude.{◌≡◌, ◌⊎◌, ◌^◌, ◌≤◌, [], IsTrue, IfOk, IfErr, None};
ghost use Rattle.block_host.specs.Calls.{Reads};
ghost use Rattle.block_host.specs.Disk.{risen};
ghost use Rattle.file_parts.specs.Held.{held};
ghost use Rattle.file_core.specs.Updates.{StandsAt, IsFile};
ghost use Rattle.file_parts.specs.Moment.{moment};
ghost use Rattle.file_image.specs.NewStore.{IsNewStore};
ghost use Rattle.file_open.specs.Opened.{new_held};
ghost use Rattle.forest_model.specs.Blocks.{File};
ghost use Rattle.forest_model.specs.State.{new_state};
ghost use Rattle.forest_model.specs.declared.refusal.Refusal.TheVariants.{NoMemory, DiskFault};

use crate::header::{default_alone, new_header};
use block_host::{Failed, Host};
use doc_stream::Tail;
use file_core::{FileState, Parts};
use forest_model::{Limits, Refusal, Roots};
use kvs_names::Names;
use std::alloc::Global;
use wal_index::WalIndex;

// The revision of a new store's file, and its number.
const FILE: u64 = 1;

/// Opens the new store that the host holds, for at most 2^32 blocks. The host isn't looked at: who calls has compared its
/// files. Refused, with the host, for want of memory and where the host fails.
pub fn open_new<H: Host>(
    alloc: Global,
    host: H,
    limits: Limits,
) -> Result<FileState<H>, (Refusal, H)>
    requires limits { limits.max_blocks ≤ 2 ^ 32 }
    ensures stands { IfOk result (λ file. (IsTrue H.tells → IsNewStore (H.disk host).files)
        → StandsAt H.tells (moment file.parts) (new_state limits)) }
    ensures file { IfOk result (λ file. (IsTrue H.tells → IsNewStore (H.disk host).files)
        → (f : File) × IsFile H.tells (held file.parts) (H.View.content file.parts.view) f) }
    ensures held { IfOk result (λ file. held file.parts ≡ new_held limits) }
    ensures running { IfOk result (λ file. file.parts.stopped ≡ None) }
    ensures opened { IfOk result (λ file. file.parts.opened ≡ H.faults file.parts.host) }
    ensures damaged { IfOk result (λ file. file.parts.damaged ≡ None) }
    ensures told { IsTrue H.tells → IfOk result (λ file. Reads (H.disk host) (H.disk file.parts.host)) }
    ensures clock { IfOk result (λ file. (H.disk host).moment ≤ (H.disk file.parts.host).moment) }
    ensures counts { IfOk result (λ file. H.faults host ≤ H.faults file.parts.host) }
    ensures untroubled { IfOk result (λ file. H.faults file.parts.host ≡ H.faults host) }
    ensures view_count { IfOk result (λ file. H.View.faults file.parts.view ≡ 0) }
    ensures greatest { IfOk result (λ file. H.greatest file.parts.host ≡ H.greatest host) }
    ensures refused { IfErr result (λ back. (back.0 ≡ NoMemory) ⊎ ((back.0 ≡ DiskFault) × (risen (H.faults host) ≤ H.faults back.1))) }
    ensures back { IsTrue H.tells → IfErr result (λ back. Reads (H.disk host) (H.disk back.1)) }
    ensures back_clock { IfErr result (λ back. (H.disk host).moment ≤ (H.disk back.1).moment) }
    ensures back_untroubled { IfErr result (λ back. back.0 ≡ NoMemory → H.faults back.1 ≡ H.faults host) }
    ensures back_counts { IfErr result (λ back. H.faults host ≤ H.faults back.1) }
    ensures back_greatest { IfErr result (λ back. H.greatest back.1 ≡ H.greatest host) }
{
    let tail = match Tail::new(alloc, 1) {
        Ok(tail) => tail,
        Err(why) => return Err((why, host)),
    };
    let mut host = host;
    let view = match host.view(FILE) {
        Ok(view) => view,
        Err(Failed) => return Err((Refusal::DiskFault, host)),
    };
    let parts = new_parts(alloc, host, view, tail, limits);
    Ok(FileState::of(alloc, parts))
}

// The parts of a new store.
fn new_parts<H: Host>(alloc: Global, host: H, view: H::View, tail: Tail, limits: Limits) -> Parts<H>
    requires tail { tail ≡ record { number = 1; bytes = [] } }
    ensures held { held result ≡ new_held limits }
    ensures host { result.host ≡ host }
    ensures view { result.view ≡ view }
    ensures opened { result.opened ≡ H.faults host }
    ensures damaged { result.damaged ≡ None }
{
    let opened = host.faults();
    Parts {
        host,
        view,
        revision: FILE,
        generation: 1,
        blocks: 1,
        header: new_header(),
        header_at: 0,
        names: Names::of(&default_alone(), 1),
        wal: WalIndex::new(alloc),
        roots: Roots {
            key: None,
            seq: None,
        },
        tail,
        loose: 0,
        live: 0,
        limits,
        place: 0,
        next_commit: 1,
        next_ticket: 1,
        copying: None,
        floor: 0,
        opened,
        stopped: None,
        damaged: None,
        left: None,
    }
}
