ghost use Rattle.std.specs.Prelude.{◌≡◌, map, IfOk, OnErr};
ghost use Rattle.forest_model.specs.declared.refusal.Refusal.TheVariants as Refusal;
ghost use Rattle.wal_index.specs.Numbers.{marks};
ghost use Rattle.wal_index.specs.Merged.{AreRows, all_pairs};
ghost use Rattle.wal_index.specs.Index.{key_entry};
ghost use Rattle.wal_index.specs.Rows.{held};

use crate::by_key::RowList;
use crate::by_number::{Numbered, Numbers};
use crate::in_order::InOrder;
use forest_model::{KeyEntry, Refusal};
use std::alloc::Global;

fn copy_of(row: &KeyEntry) -> Result<KeyEntry, Refusal>
    ensures copy { IfOk result (λ copy. copy ≡ row.now) }
    ensures memory { OnErr result (result ≡ Err Refusal.NoMemory) }
{
    Ok(KeyEntry {
        store: row.store,
        key: row.key.clone()?,
        entry: row.entry,
    })
}

// A list of copies of the rows, in order.
pub(crate) fn list_of(
    alloc: Global,
    settled: &[Box<KeyEntry>],
    recent: &[Box<KeyEntry>],
) -> Result<Vec<KeyEntry>, Refusal>
    requires { AreRows settled.now recent.now }
    ensures list { IfOk result (λ list. list.items ≡ map key_entry (all_pairs settled.now recent.now)) }
    ensures memory { OnErr result (result ≡ Err Refusal.NoMemory) }
{
    let mut left = InOrder { settled, recent };
    let count = settled.len() + recent.len();
    let mut list = Vec::with_capacity(alloc, count)?;
    for _ in 0..count {
        list.push(copy_of(left.take_first())?)?;
    }
    Ok(list)
}

// Copies of the rows, in order.
pub(crate) fn rows_of(
    alloc: Global,
    settled: &[Box<KeyEntry>],
    recent: &[Box<KeyEntry>],
) -> Result<RowList, Refusal>
    requires { AreRows settled.now recent.now }
    ensures rows { IfOk result (λ copies. held copies.items ≡ map key_entry (all_pairs settled.now recent.now)) }
    ensures memory { OnErr result (result ≡ Err Refusal.NoMemory) }
{
    let mut left = InOrder { settled, recent };
    let count = settled.len() + recent.len();
    let mut copies = Vec::with_capacity(alloc, count)?;
    for _ in 0..count {
        copies.push(Box::new(alloc, copy_of(left.take_first())?)?)?;
    }
    Ok(copies)
}

// Copies of the numbers.
pub(crate) fn numbers_of(alloc: Global, numbers: &[Box<Numbered>]) -> Result<Numbers, Refusal>
    ensures numbers { IfOk result (λ copies. marks copies.items ≡ marks numbers.now) }
    ensures memory { OnErr result (result ≡ Err Refusal.NoMemory) }
{
    let mut copies = Vec::with_capacity(alloc, numbers.len())?;
    for number in numbers {
        copies.push(Box::new(alloc, copy_of_number(number)?)?)?;
    }
    Ok(copies)
}

fn copy_of_number(number: &Numbered) -> Result<Numbered, Refusal>
    ensures copy { IfOk result (λ copy. copy ≡ number.now) }
    ensures memory { OnErr result (result ≡ Err Refusal.NoMemory) }
{
    Ok(Numbered {
        store: number.store,
        seq: number.seq,
        key: number.key.clone()?,
    })
}
