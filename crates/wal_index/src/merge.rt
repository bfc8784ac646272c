ghost use Rattle.std.specs.Prelude.{◌≡◌, ◌<◌, ◌≤◌, ◌+◌, [], ◌++◌, length, take, drop, reverse, vec_len, vec_capacity, OnErr};
ghost use Rattle.forest_model.specs.declared.refusal.Refusal.TheVariants as Refusal;
ghost use Rattle.wal_index.specs.Merged.{AreRows, IsBelowLast, all_pairs};
ghost use Rattle.wal_index.specs.Rows.{pairs};

use crate::by_key::RowList;
use crate::heads::{Head, place_by};
use forest_model::{KeyEntry, Refusal};
use std::alloc::Global;

// Where the last recent row belongs among the settled ones. There is one.
fn place_of_last(settled: &[Box<KeyEntry>], recent: &[Box<KeyEntry>], heads: &[Head]) -> usize
    requires rows { AreRows settled.now recent.now }
    requires some { 0 < length recent.now }
    ensures { IsBelowLast settled.now recent.now result }
{
    let row = &recent[recent.len() - 1];
    match place_by(settled, heads, row.store, row.key.as_slice()) {
        Ok(at) => at,
        Err(at) => at,
    }
}

// Moves the rows from a place on, the last first. There is capacity for them.
fn move_behind(from: &mut RowList, at: usize, rows: &mut RowList)
    requires within { at ≤ vec_len from.old }
    requires room { vec_len from.old + vec_len rows.old ≤ vec_capacity rows.old + at }
    ensures left { from.new.items ≡ take at from.old.items }
    ensures moved { rows.new.items ≡ rows.old.items ++ reverse (drop at from.old.items) }
    ensures len { vec_len from.new ≡ at }
    ensures moved_len { vec_len rows.new + at ≡ vec_len rows.old + vec_len from.old }
    ensures capacity { vec_capacity rows.new ≡ vec_capacity rows.old }
{
    let count = from.len() - at;
    for _ in 0..count {
        rows.push_reserved(from.take_last());
    }
}

// Moves the rows of both lists, the last first. Of the settled rows it looks only at those that a search looks at.
fn move_all(settled: &mut RowList, recent: &mut RowList, heads: &[Head], rows: &mut RowList)
    requires rows { AreRows settled.old.items recent.old.items }
    requires none { rows.old.items ≡ [] }
    requires room { vec_len settled.old + vec_len recent.old ≤ vec_capacity rows.old }
    ensures moved { all_pairs settled.old.items recent.old.items ≡ reverse (pairs rows.new.items) }
    ensures len { vec_len settled.new + vec_len recent.new ≡ 0 }
    ensures capacity { vec_capacity recent.new ≡ vec_capacity recent.old }
{
    let count = recent.len();
    for _ in 0..count {
        let at = place_of_last(settled.as_slice(), recent.as_slice(), heads);
        move_behind(settled, at, rows);
        rows.push_reserved(recent.take_last());
    }
    move_behind(settled, 0, rows);
}

// Moves the recent rows among the settled ones, whose heads these are, or none. A refusal leaves both.
pub(crate) fn settle(
    alloc: Global,
    settled: &mut RowList,
    recent: &mut RowList,
    heads: &[Head],
) -> Result<(), Refusal>
    requires { AreRows settled.old.items recent.old.items }
    ensures rows { AreRows settled.new.items recent.new.items }
    ensures pairs { all_pairs settled.new.items recent.new.items ≡ all_pairs settled.old.items recent.old.items }
    ensures capacity { vec_capacity recent.new ≡ vec_capacity recent.old }
    ensures len { vec_len recent.new ≤ vec_len recent.old }
    ensures memory { OnErr result (result ≡ Err Refusal.NoMemory) }
{
    let mut rows = Vec::with_capacity(alloc, settled.len() + recent.len())?;
    move_all(settled, recent, heads, &mut rows);
    rows.reverse();
    *settled = rows;
    Ok(())
}
