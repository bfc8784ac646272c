ghost use Rattle.std.specs.Prelude.{◌≡◌, ◌≢◌, ◌<◌, ◌+◌, ◌^◌, not, length, true, None, Some, Err, IfNone, IfOk, OnOk};
ghost use Rattle.std.specs.Result.{result_err};
ghost use Rattle.file_parts.specs.Held.{held};
ghost use Rattle.file_parts.specs.Moment.{moment};
ghost use Rattle.file_parts.specs.Keeping.{Keeps, Outside};
ghost use Rattle.file_stores.specs.StoreChanges.{id_named, make_causes, open_causes, MakeGives, OpenAnswers};
ghost use Rattle.forest_model.specs.Limits as limits;
ghost use Rattle.forest_model.specs.Step.{◌where_holds◌, first_cause};
ghost use Rattle.forest_model.specs.declared.refusal.Refusal.TheVariants as Refusal;
ghost use Rattle.kvs_names.specs.Answers.{create_causes};
ghost use Rattle.kvs_names.specs.Table.{with_new};

use block_host::Host;
use file_parts::{Parts, advance, append, is_full, is_next_worn, is_worn, record_of};
use forest_model::{Refusal, StoreRef};
use kvs_names::Names;
use std::alloc::Global;

const MOST_STORES: u64 = 64;

/// Opens the store of a name in a file that hasn't stopped, which is made where it isn't there. Refused is a name that is
/// none; and where none has this name a reference for reading, a worn number, the 65th store and a full file, in this order,
/// then want of memory, and a host that fails, which stops the file.
pub fn open_store<H: Host>(
    alloc: Global,
    parts: &mut Parts<H>,
    name: &[u8],
    read_only: bool,
) -> Result<StoreRef, Refusal>
    ensures answers { OpenAnswers H.tells name.now read_only (moment parts.old) (moment parts.new) result }
    ensures keeps { Keeps H.tells (moment parts.old) (moment parts.new) result }
{
    if let Some(store) = may_open(parts, name, read_only)? {
        return Ok(StoreRef { store, read_only });
    }
    let store = make(alloc, parts, name)?;
    Ok(StoreRef {
        store,
        read_only: false,
    })
}

// The id of a name whose store may be opened, or none where it may be made.
fn may_open<H: Host>(parts: &Parts<H>, name: &[u8], read_only: bool) -> Result<Option<u64>, Refusal>
    ensures refused { result_err result ≡ first_cause (open_causes (held parts.now) name.now read_only) }
    ensures id { IfOk result (λ id. id ≡ id_named parts.now.names name.now) }
    ensures create { IfOk result (λ id. IfNone id (first_cause (create_causes parts.now.names name.now) ≡ None)) }
    ensures place { IfOk result (λ id. IfNone id (parts.now.place + 1 < 2 ^ 62)) }
    ensures no_fault { result ≢ Err Refusal.DiskFault }
{
    let id = id_of(&parts.names, name)?;
    if id.is_none() {
        may_make(parts, name, read_only)?;
    }
    Ok(id)
}

// The id of a name.
pub(crate) fn id_of(names: &Names, name: &[u8]) -> Result<Option<u64>, Refusal>
    ensures refused { result_err result ≡ (Refusal.NameForm where_holds not (limits.is_name name.now)) }
    ensures id { IfOk result (λ id. id ≡ id_named names.now name.now) }
{
    match names.find(name) {
        Ok(id) => Ok(Some(id)),
        Err(Refusal::NoStore) => Ok(None),
        Err(why) => Err(why),
    }
}

// Whether a store of this name, which is absent, may be made.
fn may_make<H: Host>(parts: &Parts<H>, name: &[u8], read_only: bool) -> Result<(), Refusal>
    requires name { limits.is_name name.now ≡ true }
    ensures refused { result_err result ≡ first_cause (make_causes (held parts.now) name.now read_only) }
    ensures create { OnOk result (first_cause (create_causes parts.now.names name.now) ≡ None) }
    ensures place { OnOk result (parts.now.place + 1 < 2 ^ 62) }
    ensures no_fault { result ≢ Err Refusal.DiskFault }
{
    if read_only {
        return Err(Refusal::NoStore);
    }
    if is_worn(parts.names.next()) || is_next_worn(parts.place) {
        return Err(Refusal::Worn);
    }
    if parts.names.len() >= MOST_STORES {
        return Err(Refusal::StoreCount);
    }
    let needed = parts.tail.needed(24 + name.len() as u64);
    if is_full(parts.blocks, needed, parts.limits.max_blocks) {
        return Err(Refusal::FileFull {
            used: parts.blocks,
            needed,
            max: parts.limits.max_blocks,
        });
    }
    Ok(())
}

// Makes a store where nothing is against it, and answers its id.
fn make<H: Host>(alloc: Global, parts: &mut Parts<H>, name: &[u8]) -> Result<u64, Refusal>
    requires absent { id_named parts.old.names name.now ≡ None }
    requires free { first_cause (create_causes parts.old.names name.now) ≡ None }
    requires place { parts.old.place + 1 < 2 ^ 62 }
    ensures gives { MakeGives H.tells name.now (moment parts.old) (moment parts.new) result }
    ensures keeps { Keeps H.tells (moment parts.old) (moment parts.new) result }
{
    let id = parts.names.next();
    let rec = record_of(alloc, 3, id, 0, name, &[], &[])?;
    append(alloc, parts, &rec, 24 + name.len() as u64)?;
    enter(parts, name);
    Ok(id)
}

// Makes a store whose record was put known to the table.
fn enter<H: Host>(parts: &mut Parts<H>, name: &[u8])
    requires absent { id_named parts.old.names name.now ≡ None }
    requires free { first_cause (create_causes parts.old.names name.now) ≡ None }
    requires place { parts.old.place + 1 < 2 ^ 62 }
    ensures rest { held parts.new ≡ record (held parts.old) {
      blocks = parts.old.tail.number;
      names = with_new parts.old.names name.now;
      loose = length parts.old.tail.bytes;
      place = parts.old.place + 1;
    } }
    ensures outside { Outside parts.old parts.new }
{
    create(&mut parts.names, name);
    advance(parts);
}

// Makes a store that nothing is against.
fn create(names: &mut Names, name: &[u8])
    requires absent { id_named names.old name.now ≡ None }
    requires free { first_cause (create_causes names.old name.now) ≡ None }
    ensures { names.new ≡ with_new names.old name.now }
{
    let _id = names.create(name);
}
