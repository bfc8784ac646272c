ghost use Rattle.std.specs.Prelude.{◌≡◌, ◌≢◌, ◌≤◌, ◌<◌, ◌+◌, length, Some, None, Err, IfOk};
ghost use Rattle.std.specs.Result.{result_err};
ghost use Rattle.forest_model.specs.Step.{first_cause};
ghost use Rattle.forest_model.specs.declared.refusal.Refusal.TheVariants as Refusal;
ghost use Rattle.file_documents.specs.Batching.{batch_causes, BatchGives, BatchAnswers};
ghost use Rattle.file_parts.specs.Held.{held};
ghost use Rattle.file_parts.specs.Causes.{seq_in, documents_in};
ghost use Rattle.file_parts.specs.Moment.{moment};
ghost use Rattle.file_parts.specs.Keeping.{Keeps};

use crate::batch_puts::{Batched, Drawn, enter_batch, put_batch};
use crate::items::{any_wrong_body, any_wrong_key, items_len, misses_one};
use block_host::Host;
use file_parts::{Parts, is_full, is_later_worn, is_next_worn, put_records};
use forest_model::{Item, Refusal, StoreRef};
use std::alloc::Global;

/// Makes 1 to 1,024 changes in a file that hasn't stopped, in their order and at one place, and answers the last number that
/// they draw. Refused are a reference for reading, a wrong length of a key or of a meta or body, a store that isn't there, a
/// worn number, a deletion of a key without a document and a full file, in this order; then want of memory, and a host that
/// fails, which stops the file.
pub fn batch<H: Host>(
    alloc: Global,
    parts: &mut Parts<H>,
    at: &StoreRef,
    items: &[Item],
) -> Result<u64, Refusal>
    requires some { 1 ≤ length items.now }
    requires few { length items.now ≤ 1024 }
    ensures answers { BatchAnswers H.tells at.now items.now (moment parts.old) (moment parts.new) result }
    ensures keeps { Keeps H.tells (moment parts.old) (moment parts.new) result }
{
    let numbers = may_batch(parts, at, items)?;
    batch_free(alloc, parts, at, numbers, items)
}

// The number of a store and its count of documents, where these changes may be made in it.
fn may_batch<H: Host>(
    parts: &Parts<H>,
    at: &StoreRef,
    items: &[Item],
) -> Result<(u64, u64), Refusal>
    requires few { length items.now ≤ 1024 }
    ensures refused { result_err result ≡ first_cause (batch_causes (held parts.now) at.now items.now) }
    ensures seq { IfOk result (λ n. n.0 ≡ seq_in parts.now.names.rows at.now.store) }
    ensures documents { IfOk result (λ n. n.1 ≡ documents_in parts.now.names.rows at.now.store) }
    ensures no_fault { result ≢ Err Refusal.DiskFault }
{
    if at.read_only {
        return Err(Refusal::ReadOnly);
    }
    if any_wrong_key(items) {
        return Err(Refusal::KeyLength);
    }
    if any_wrong_body(items) {
        return Err(Refusal::BodyLength);
    }
    let Some((seq, documents)) = parts.names.numbers(at.store) else {
        return Err(Refusal::NoStore);
    };
    if is_later_worn(seq, items.len() as u64) || is_next_worn(parts.place) {
        return Err(Refusal::Worn);
    }
    if misses_one(&parts.wal, at.store, items) {
        return Err(Refusal::NotFound);
    }
    let needed = parts.tail.needed(items_len(items));
    if is_full(parts.blocks, needed, parts.limits.max_blocks) {
        return Err(Refusal::FileFull {
            used: parts.blocks,
            needed,
            max: parts.limits.max_blocks,
        });
    }
    Ok((seq, documents))
}

// Makes the changes of a batch where nothing is against it.
fn batch_free<H: Host>(
    alloc: Global,
    parts: &mut Parts<H>,
    at: &StoreRef,
    numbers: (u64, u64),
    items: &[Item],
) -> Result<u64, Refusal>
    requires free { first_cause (batch_causes (held parts.old) at.now items.now) ≡ None }
    requires some { 1 ≤ length items.now }
    requires few { length items.now ≤ 1024 }
    requires seq { numbers.0 ≡ seq_in parts.old.names.rows at.now.store }
    requires documents { numbers.1 ≡ documents_in parts.old.names.rows at.now.store }
    ensures gives { BatchGives H.tells at.now items.now (moment parts.old) (moment parts.new) result }
    ensures keeps { Keeps H.tells (moment parts.old) (moment parts.new) result }
{
    let Batched { tail, out, pending } = put_batch(
        alloc,
        &parts.tail,
        &mut parts.wal,
        parts.revision,
        Drawn {
            store: at.store,
            seq: numbers.0,
        },
        items,
    )?;
    put_records(parts, out.as_slice())?;
    let drawn = Drawn {
        store: at.store,
        seq: numbers.0 + items.len() as u64,
    };
    enter_batch(parts, drawn, tail, pending, numbers.1);
    Ok(drawn.seq)
}
