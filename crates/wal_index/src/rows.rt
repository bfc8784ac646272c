ghost use Rattle.std.specs.Prelude.{◌≡◌, ℕ, List, ◌≤◌, ◌<◌, ◌+◌, ◌-◌, ◌^◌, ◌==◌, not, [], filter, length, min, sum_by, vec_len, vec_capacity, OnOk, OnErr};
ghost use Rattle.std.specs.Option.{option_map};
ghost use Rattle.std.specs.FinMap as finite;
ghost use Rattle.forest_model.specs.Key.{key_cmp};
ghost use Rattle.forest_model.specs.declared.refusal.Refusal.TheVariants as Refusal;
ghost use Rattle.wal_index.specs.Index.{key_at, key_and_entry, key_entry, nearest_of};
ghost use Rattle.wal_index.specs.Live.{own_len};
ghost use Rattle.wal_index.specs.Merged.{AreRows, all_pairs};
ghost use Rattle.wal_index.specs.Rows.{pair_of};

use crate::by_key::{self, RowList};
use crate::heads::{Head, get_by, merged_heads, replace_by};
use crate::live::live_of;
use crate::merge::settle;
use crate::nearest::{nearer, next_in};
use forest_model::{Entry, KeyEntry, Refusal};
use std::alloc::Global;

// The recent rows are settled once they are more than these, and than this share of the settled ones.
const FEW: usize = 1_024;

const SHARE: usize = 32;

/// Rows of keys that are apart, in two lists: new keys go into the short one, which is merged into the other at times, so
/// that a put doesn't move all rows. The heads are those of the settled rows, or none.
#[derive(Drop)]
pub(crate) struct Rows {
    pub(crate) settled: RowList,
    pub(crate) recent: RowList,
    heads: Vec<Head>,
}

impl Rows {
    pub(crate) fn new(alloc: Global) -> Rows
        ensures settled { result.settled.items ≡ [] }
        ensures recent { result.recent.items ≡ [] }
        ensures len { vec_len result.recent ≡ 0 }
    {
        Rows {
            settled: Vec::new(alloc),
            recent: Vec::new(alloc),
            heads: Vec::new(alloc),
        }
    }

    pub(crate) fn of_settled(alloc: Global, settled: RowList) -> Rows
        ensures settled { result.settled.items ≡ settled.items }
        ensures recent { result.recent.items ≡ [] }
        ensures len { vec_len result.recent ≡ 0 }
    {
        Rows {
            settled,
            recent: Vec::new(alloc),
            heads: Vec::new(alloc),
        }
    }

    pub(crate) fn get(&self, store: u64, key: &[u8]) -> Option<Entry>
        requires { AreRows self.now.settled.items self.now.recent.items }
        ensures { result ≡ finite.find key_cmp (key_at store key.now) (all_pairs self.now.settled.items self.now.recent.items) }
    {
        match by_key::get(self.recent.as_slice(), store, key) {
            Some(entry) => Some(entry),
            None => get_by(self.settled.as_slice(), self.heads.as_slice(), store, key),
        }
    }

    // The nearest row of the store behind a key, or before it.
    pub(crate) fn next<'a>(
        &'a self,
        store: u64,
        key: &[u8],
        with: bool,
        up: bool,
    ) -> Option<(&'a [u8], Entry)>
        requires { AreRows self.now.settled.items self.now.recent.items }
        ensures { option_map {U = List ℕ × Entry} (λ r. (r.0.now, r.1)) result ≡ option_map key_and_entry (nearest_of with up (all_pairs self.now.settled.items self.now.recent.items) (key_at store key.now)) }
    {
        let settled = next_in(self.settled.as_slice(), store, key, with, up);
        let recent = next_in(self.recent.as_slice(), store, key, with, up);
        nearer(settled, recent, up)
    }

    pub(crate) fn len(&self) -> u64
        requires { AreRows self.now.settled.items self.now.recent.items }
        ensures { result ≡ length (all_pairs self.now.settled.items self.now.recent.items) }
    {
        self.settled.len() as u64 + self.recent.len() as u64
    }

    // The bytes of the live records of a store's rows, capped at the last value of a u64.
    pub(crate) fn live_of(&self, store: u64) -> u64
        requires { AreRows self.now.settled.items self.now.recent.items }
        ensures { result ≡ min (sum_by (λ e. own_len store (key_entry e)) (all_pairs self.now.settled.items self.now.recent.items)) (2 ^ 64 - 1) }
    {
        let settled = live_of(self.settled.as_slice(), store);
        settled.saturating_add(live_of(self.recent.as_slice(), store))
    }

    // Puts a row in the place of that of its key, whose entry it answers, or where it belongs. There is capacity for it.
    pub(crate) fn put(&mut self, row: Box<KeyEntry>) -> Option<Entry>
        requires rows { AreRows self.old.settled.items self.old.recent.items }
        requires room { vec_len self.old.recent < vec_capacity self.old.recent }
        ensures rows { AreRows self.new.settled.items self.new.recent.items }
        ensures put { all_pairs self.new.settled.items self.new.recent.items ≡ finite.put key_cmp (pair_of row).0 (pair_of row).1 (all_pairs self.old.settled.items self.old.recent.items) }
        ensures capacity { vec_capacity self.old.recent ≤ vec_capacity self.new.recent }
        ensures len { vec_len self.new.recent ≤ vec_len self.old.recent + 1 }
        ensures older { result ≡ finite.find key_cmp (pair_of row).0 (all_pairs self.old.settled.items self.old.recent.items) }
    {
        match replace_by(&mut self.settled, self.heads.as_slice(), row) {
            Ok(older) => Some(older),
            Err(row) => by_key::put(&mut self.recent, row),
        }
    }

    // The heads of the rows of both lists, for which those of the settled rows are made anew where there are none.
    fn heads_with_recent(&self, alloc: Global) -> Result<Vec<Head>, Refusal>
        ensures memory { OnErr result (result ≡ Err Refusal.NoMemory) }
    {
        let recent = self.recent.as_slice();
        if self.heads.len() == self.settled.len() {
            return merged_heads(alloc, self.heads.as_slice(), recent);
        }
        let settled = merged_heads(alloc, &[], self.settled.as_slice())?;
        merged_heads(alloc, settled.as_slice(), recent)
    }

    // Takes memory for so many new keys, and settles the recent rows where they are too many.
    pub(crate) fn reserve(&mut self, alloc: Global, spare: usize) -> Result<(), Refusal>
        requires { AreRows self.old.settled.items self.old.recent.items }
        ensures rows { AreRows self.new.settled.items self.new.recent.items }
        ensures pairs { all_pairs self.new.settled.items self.new.recent.items ≡ all_pairs self.old.settled.items self.old.recent.items }
        ensures room { OnOk result (vec_len self.new.recent + spare ≤ vec_capacity self.new.recent) }
        ensures capacity { vec_capacity self.old.recent ≤ vec_capacity self.new.recent }
        ensures len { vec_len self.new.recent ≤ vec_len self.old.recent }
        ensures memory { OnErr result (result ≡ Err Refusal.NoMemory) }
    {
        let recent = self.recent.len();
        if recent > FEW && recent > self.settled.len() / SHARE {
            let heads = self.heads_with_recent(alloc)?;
            settle(
                alloc,
                &mut self.settled,
                &mut self.recent,
                self.heads.as_slice(),
            )?;
            self.heads = heads;
        }
        self.recent.reserve(spare)?;
        Ok(())
    }

    // Removes the rows of a store.
    pub(crate) fn remove_store(&mut self, store: u64)
        requires { AreRows self.old.settled.items self.old.recent.items }
        ensures rows { AreRows self.new.settled.items self.new.recent.items }
        ensures removed { all_pairs self.new.settled.items self.new.recent.items ≡ filter (λ e. not (e.0.store == store)) (all_pairs self.old.settled.items self.old.recent.items) }
        ensures capacity { vec_capacity self.old.recent ≤ vec_capacity self.new.recent }
        ensures len { vec_len self.new.recent ≤ vec_len self.old.recent }
    {
        self.heads.clear();
        by_key::remove_store(&mut self.settled, store);
        by_key::remove_store(&mut self.recent, store);
    }

    pub(crate) fn clear(&mut self)
        ensures settled { self.new.settled.items ≡ [] }
        ensures recent { self.new.recent.items ≡ [] }
        ensures len { vec_len self.new.recent ≡ 0 }
        ensures capacity { vec_capacity self.old.recent ≤ vec_capacity self.new.recent }
    {
        self.heads.clear();
        self.settled.clear();
        self.recent.clear();
    }
}
