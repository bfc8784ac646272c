ghost use Rattle.std.specs.Prelude.{◌≡◌, ◌+◌, ◌^◌, ◌≤◌, ◌||◌, ◌⊎◌, [], IsTrue, OnOk, false};
ghost use Rattle.block_host.specs.Order.{IsSettled};
ghost use Rattle.file_parts.specs.Held.{held};
ghost use Rattle.file_core.specs.Updates.{Commits};
ghost use Rattle.file_parts.specs.Moment.{moment};
ghost use Rattle.file_parts.specs.Growing.{IsAny};
ghost use Rattle.file_parts.specs.Keeping.{KeepsWith, Outside, StaysStopped};
ghost use Rattle.file_commit.specs.Committing.{is_commit_worn, is_far, CommitAnswers, CommitGives};
ghost use Rattle.file_commit.specs.Ordered.{Ordered};

use crate::disk::put_commit;
use crate::header::{next_header, sealed_header};
use crate::rows::are_same_rows;
use block_host::{Failed, Host};
use doc_stream::{blocks_keep_records, pad_is_scanned, pads_keep_records, pass_is_scanned};
use file_core::{FileState, Parts};
use forest_model::{Header, Refusal, StoreRef, Stores};
use model_laws::{nothing_new, rules};

// No number is drawn from here on.
const FIRST_WORN: u64 = (1 << 62) - 1;

// No file has a block past this one.
const MOST_BLOCKS: u64 = 1 << 40;

/// Commits what is new: the open block, if it has bytes, and once that is on the disk the header of the commit. Answers the
/// commit's number, that of the last one where nothing is new. A crash at any moment leaves the header only behind all
/// records and, once it is put, of the file only what reads give. Refused are a file that has stopped, a reference for
/// reading and a worn number, in this order; then a host that fails, which stops the file. It takes no memory, and is never
/// refused for want of room.
pub fn commit<H: Host>(file: &mut FileState<H>, at: &StoreRef) -> Result<u64, Refusal>
    ensures commits { Commits H.tells at.now (moment file.old.parts) (moment file.new.parts) result }
    ensures stopped { StaysStopped file.old.parts file.new.parts result }
    ensures settled { IsTrue H.tells → OnOk result ((file.new.parts.place ≡ file.old.parts.place) ⊎ IsSettled file.old.parts.revision (H.disk file.new.parts.host)) }
    ensures keeps { KeepsWith IsAny H.tells (moment file.old.parts) (moment file.new.parts) result }
    ensures ordered { IsTrue H.tells → Ordered (moment file.old.parts) (moment file.new.parts) }
{
    rules();
    nothing_new();
    pads_keep_records();
    blocks_keep_records();
    pad_is_scanned();
    pass_is_scanned();
    if let Some(faults) = file.parts.stopped {
        return Err(Refusal::Stopped { faults });
    }
    commit_in(&mut file.parts, at)
}

// Commits in a file that hasn't stopped.
fn commit_in<H: Host>(parts: &mut Parts<H>, at: &StoreRef) -> Result<u64, Refusal>
    ensures answers { CommitAnswers H.tells at.now (moment parts.old) (moment parts.new) result }
    ensures settled { IsTrue H.tells → OnOk result ((parts.new.place ≡ parts.old.place) ⊎ IsSettled parts.old.revision (H.disk parts.new.host)) }
    ensures keeps { KeepsWith IsAny H.tells (moment parts.old) (moment parts.new) result }
    ensures ordered { IsTrue H.tells → Ordered (moment parts.old) (moment parts.new) }
{
    if at.read_only {
        return Err(Refusal::ReadOnly);
    }
    let stores = parts.names.stores();
    if are_same_rows(&stores, &parts.header.stores) {
        return Ok(parts.header.commit);
    }
    if is_used_up(parts) {
        return Err(Refusal::Worn);
    }
    commit_new(parts, stores)
}

// Whether a number that a commit draws is used up: its own, its place, or that of a block, to which no file comes.
fn is_used_up<H: Host>(parts: &Parts<H>) -> bool
    ensures { result ≡ (is_commit_worn (held parts.now) || is_far (held parts.now)) }
{
    parts.next_commit >= FIRST_WORN
        || parts.place >= FIRST_WORN - 1
        || parts.tail.number() > MOST_BLOCKS
        || parts.header_at > MOST_BLOCKS
}

// Commits what is new, as these stores.
fn commit_new<H: Host>(parts: &mut Parts<H>, stores: Stores) -> Result<u64, Refusal>
    requires numbers { is_commit_worn (held parts.old) ≡ false }
    requires near { is_far (held parts.old) ≡ false }
    requires stores { stores ≡ parts.old.names.rows }
    ensures gives { CommitGives H.tells (moment parts.old) (moment parts.new) result }
    ensures settled { IsTrue H.tells → OnOk result ((parts.new.place ≡ parts.old.place) ⊎ IsSettled parts.old.revision (H.disk parts.new.host)) }
    ensures keeps { KeepsWith IsAny H.tells (moment parts.old) (moment parts.new) result }
    ensures ordered { IsTrue H.tells → Ordered (moment parts.old) (moment parts.new) }
{
    let header = next_header(parts, stores);
    let number = header.commit;
    let block = parts.tail.pad(parts.revision);
    let at = parts.tail.number();
    let sealed = sealed_header(&header, parts.revision, at);
    match put_commit(
        &mut parts.host,
        &mut parts.view,
        parts.revision,
        block,
        &sealed,
    ) {
        Ok(()) => {
            enter(parts, header, at);
            Ok(number)
        }
        Err(Failed) => {
            parts.stopped = Some(parts.host.faults());
            Err(Refusal::DiskFault)
        }
    }
}

// Makes the header, which stands in this block now, the last one.
fn enter<H: Host>(parts: &mut Parts<H>, header: Header, at: u64)
    requires numbers { is_commit_worn (held parts.old) ≡ false }
    requires near { at ≤ 2 ^ 40 + 1 }
    ensures held { held parts.new ≡ record (held parts.old) {
      header = header;
      header_at = at;
      blocks = at + 1;
      tail = record { number = at + 1; bytes = [] };
      loose = 0;
      place = parts.old.place + 1;
      next_commit = parts.old.next_commit + 1;
    } }
    ensures outside { Outside parts.old parts.new }
{
    parts.header = header;
    parts.header_at = at;
    parts.blocks = at + 1;
    parts.tail.restart(at + 1);
    parts.loose = 0;
    parts.place += 1;
    parts.next_commit += 1;
}
