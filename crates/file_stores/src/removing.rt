ghost use Rattle.std.specs.Prelude.{◌≡◌, ◌≢◌, ◌<◌, ◌+◌, ◌-◌, ◌^◌, ◌==◌, ◌++◌, ◌∷◌, [], not, length, true, None, Some, Err, IfOk, OnOk};
ghost use Rattle.std.specs.FinMap as finite;
ghost use Rattle.std.specs.Result.{result_err};
ghost use Rattle.file_parts.specs.Held.{held};
ghost use Rattle.file_parts.specs.Moment.{moment};
ghost use Rattle.file_parts.specs.Keeping.{Keeps, Outside};
ghost use Rattle.file_stores.specs.StoreChanges.{id_named, remove_causes, UnmakeGives, RemoveAnswers};
ghost use Rattle.forest_model.specs.Step.{first_cause};
ghost use Rattle.forest_model.specs.declared.refusal.Refusal.TheVariants as Refusal;
ghost use Rattle.kvs_names.specs.Answers.{remove_causes as why_not_removed};
ghost use Rattle.kvs_names.specs.Table.{without};

use crate::opening::id_of;
use block_host::Host;
use file_parts::{Parts, advance, append, is_full, is_next_worn, record_of};
use forest_model::{Refusal, StoreRef};
use std::alloc::Global;

/// Removes the store of a name with its documents from a file that hasn't stopped, and answers its id. Refused are a reference
/// for reading, a name that is none or `default`, a name that no store has, a worn number and a full file, in this order; then
/// want of memory, and a host that fails, which stops the file.
pub fn remove_store<H: Host>(
    alloc: Global,
    parts: &mut Parts<H>,
    at: &StoreRef,
    name: &[u8],
) -> Result<u64, Refusal>
    ensures answers { RemoveAnswers H.tells at.now name.now (moment parts.old) (moment parts.new) result }
    ensures keeps { Keeps H.tells (moment parts.old) (moment parts.new) result }
{
    let id = may_remove(parts, at, name)?;
    unmake(alloc, parts, id)
}

// The id of a name whose store may be removed.
fn may_remove<H: Host>(parts: &Parts<H>, at: &StoreRef, name: &[u8]) -> Result<u64, Refusal>
    ensures refused { result_err result ≡ first_cause (remove_causes (held parts.now) at.now name.now) }
    ensures id { IfOk result (λ id. id_named parts.now.names name.now ≡ Some id) }
    ensures place { OnOk result (parts.now.place + 1 < 2 ^ 62) }
    ensures no_fault { result ≢ Err Refusal.DiskFault }
{
    if at.read_only {
        return Err(Refusal::ReadOnly);
    }
    let id = id_of(&parts.names, name)?;
    if name == b"default".as_slice() {
        return Err(Refusal::NameForm);
    }
    let Some(id) = id else {
        return Err(Refusal::NoStore);
    };
    if is_next_worn(parts.place) {
        return Err(Refusal::Worn);
    }
    let needed = parts.tail.needed(24);
    if is_full(parts.blocks, needed, parts.limits.max_blocks) {
        return Err(Refusal::FileFull {
            used: parts.blocks,
            needed,
            max: parts.limits.max_blocks,
        });
    }
    Ok(id)
}

// Removes a store where nothing is against it.
fn unmake<H: Host>(alloc: Global, parts: &mut Parts<H>, id: u64) -> Result<u64, Refusal>
    requires place { parts.old.place + 1 < 2 ^ 62 }
    ensures gives { UnmakeGives H.tells id (moment parts.old) (moment parts.new) result }
    ensures keeps { Keeps H.tells (moment parts.old) (moment parts.new) result }
{
    let live = parts.wal.live_of(id);
    let rec = record_of(alloc, 4, id, 0, &[], &[], &[])?;
    parts.wal.reserve_gone()?;
    append(alloc, parts, &rec, 24)?;
    forget(parts, id, live);
    Ok(id)
}

// Lets go of a store whose record was put.
fn forget<H: Host>(parts: &mut Parts<H>, id: u64, live: u64)
    requires place { parts.old.place + 1 < 2 ^ 62 }
    requires may_go { parts.old.wal.may_go ≡ true }
    ensures entries { parts.new.wal.entries ≡ finite.retain_keys parts.old.wal.entries (λ k. not (k.store == id)) }
    ensures gone { parts.new.wal.gone ≡ parts.old.wal.gone ++ id ∷ [] }
    ensures names { first_cause (why_not_removed parts.old.names id) ≡ None → parts.new.names ≡ without parts.old.names id }
    ensures rest { held parts.new ≡ record (held parts.old) {
      blocks = parts.old.tail.number;
      names = parts.new.names;
      wal = parts.new.wal;
      loose = length parts.old.tail.bytes;
      live = parts.old.live - live;
      place = parts.old.place + 1;
    } }
    ensures outside { Outside parts.old parts.new }
{
    parts.wal.gone(id);
    let _removed = parts.names.remove(id);
    parts.live = parts.live.saturating_sub(live);
    advance(parts);
}
