ghost use Rattle.std.specs.Prelude.{◌≡◌, ℕ, List, ◌≤◌, ◌<◌, ◌-◌, ◌^◌, min, [], true, false, IfSome, IfNone, IfOk, OnOk, OnErr};
ghost use Rattle.std.specs.Option.{option_map};
ghost use Rattle.std.specs.FinMap as finite;
ghost use Rattle.forest_model.specs.declared.refusal.Refusal.TheVariants as Refusal;
ghost use Rattle.wal_index.specs.Index.{Index, IsNearestNumber, entry_at, has_number, is_past_number, key_at, key_and_entry, nearest, nothing, with_entry, without_store, in_order};
ghost use Rattle.wal_index.specs.Live.{own_live};

use crate::both::put_both;
use crate::by_number::{Numbers, remove_numbers_of};
use crate::copies::{list_of, numbers_of, rows_of};
use crate::nearest_number::next_number;
use crate::numbered::key_of;
use crate::room::Room;
use crate::rows::Rows;
use forest_model::{Entries, Entry, Refusal, Sequence};
use std::alloc::Global;
use std::marker::Model;

/// The newest entries by store and key, and the stores that are gone.
#[derive(Drop)]
pub struct WalIndex {
    rows: Rows,
    numbers: Numbers,
    gone: Vec<u64>,
    // For how many puts there is room.
    room: u64,
    // Whether there is room for one more store that goes.
    may_go: bool,
    alloc: Global,
}

impl Model for WalIndex {
    ghost use Rattle.std.specs.Prelude.{◌≡◌, ◌+◌, ◌≤◌, ◌<◌, true, vec_len, vec_capacity};
    ghost use Rattle.std.specs.FinMap as finite;
    ghost use Rattle.wal_index.specs.Index.{Index, coded_index};
    ghost use Rattle.wal_index.specs.Numbers.{marks, AreNumbersSorted, Agree};
    ghost use Rattle.wal_index.specs.Merged.{AreRows, all_pairs};

    ghost Value = { Index };

    ghost coded = { coded_index };

    ghost view = { λ x. record { entries = finite.from_sorted (all_pairs x.rows.settled.items x.rows.recent.items); gone = x.gone.items; room = x.room; may_go = x.may_go } };

    ghost invariant = { λ x. AreRows x.rows.settled.items x.rows.recent.items × (vec_len x.rows.recent + x.room ≤ vec_capacity x.rows.recent) × (x.may_go ≡ true → vec_len x.gone < vec_capacity x.gone) × AreNumbersSorted x.numbers.items × (vec_len x.numbers + x.room ≤ vec_capacity x.numbers) × Agree (all_pairs x.rows.settled.items x.rows.recent.items) (marks x.numbers.items) };
}

impl WalIndex {
    /// The empty index. It takes no memory.
    pub fn new(alloc: Global) -> WalIndex
        ensures { result ≡ record { entries = nothing; gone = []; room = 0; may_go = false } }
    {
        WalIndex {
            rows: Rows::new(alloc),
            numbers: Vec::new(alloc),
            gone: Vec::new(alloc),
            room: 0,
            may_go: false,
            alloc,
        }
    }

    /// Takes the memory of a put of this key, after which there is room for so many puts.
    pub fn room(&mut self, key: &[u8], spare: u64) -> Result<Room, Refusal>
        ensures key { IfOk result (λ room. room ≡ key.now) }
        ensures room { OnOk result (spare ≤ self.new.room) }
        ensures entries { self.new.entries ≡ self.old.entries }
        ensures gone { self.new.gone ≡ self.old.gone }
        ensures may_go { self.new.may_go ≡ self.old.may_go }
        ensures no_less { self.old.room ≤ self.new.room }
        ensures memory { OnErr result (result ≡ Err Refusal.NoMemory) }
    {
        let room = Room::of(self.alloc, key)?;
        if self.room < spare {
            self.rows.reserve(self.alloc, spare as usize)?;
            self.numbers.reserve(spare as usize)?;
            self.room = spare;
        }
        Ok(room)
    }

    /// Puts a newer entry of the room's key, and answers the one before, where there is one. It takes no memory.
    pub fn put(&mut self, store: u64, room: Room, entry: Entry) -> Option<Entry>
        requires { 0 < self.old.room }
        ensures put { self.new ≡ with_entry self.old store room entry }
        ensures older { result ≡ entry_at self.old.entries store room }
    {
        let (row, number) = room.into_parts(store, entry);
        let older = put_both(&mut self.rows, &mut self.numbers, row, number);
        self.room -= 1;
        older
    }

    /// The newest entry of a key.
    pub fn get(&self, store: u64, key: &[u8]) -> Option<Entry>
        ensures { result ≡ entry_at self.now.entries store key.now }
    {
        self.rows.get(store, key)
    }

    /// The key of a store whose newest entry has this number.
    pub fn by_seq(&self, store: u64, seq: u64) -> Option<&[u8]>
        ensures found { IfSome result (λ key. has_number self.now.entries store seq key.now ≡ true) }
        ensures absent { IfNone result ((key : List ℕ) → has_number self.now.entries store seq key ≡ false) }
    {
        key_of(self.numbers.as_slice(), store, seq)
    }

    /// The nearest key of a store above or below this one, or this one itself if `with`, and its entry.
    pub fn next<'a>(
        &'a self,
        store: u64,
        key: &[u8],
        with: bool,
        up: bool,
    ) -> Option<(&'a [u8], Entry)>
        ensures { option_map {U = List ℕ × Entry} (λ r. (r.0.now, r.1)) result ≡ option_map key_and_entry (nearest with up self.now.entries (key_at store key.now)) }
    {
        self.rows.next(store, key, with, up)
    }

    /// The nearest number of a newest entry of the store above or below this one, or this one itself if `with`, and a key
    /// that has it (the one key, where no two keys of the store share a number).
    pub fn next_seq(&self, store: u64, seq: u64, with: bool, up: bool) -> Option<(u64, &[u8])>
        ensures found { IfSome result (λ r. IsNearestNumber with up self.now.entries store seq r.0 r.1.now) }
        ensures absent { IfNone result ((n : ℕ) (key : List ℕ) → has_number self.now.entries store n key ≡ true → is_past_number with up seq n ≡ false) }
    {
        next_number(self.numbers.as_slice(), store, seq, with, up)
    }

    /// How many entries there are.
    pub fn len(&self) -> u64
        ensures { result ≡ finite.len self.now.entries }
    {
        self.rows.len()
    }

    /// The bytes of the live records of a store's keys, capped at the last value of a u64.
    pub fn live_of(&self, store: u64) -> u64
        ensures { result ≡ min (own_live store self.now.entries) (2 ^ 64 - 1) }
    {
        self.rows.live_of(store)
    }

    /// Makes room for one store that goes.
    pub fn reserve_gone(&mut self) -> Result<(), Refusal>
        ensures may_go { OnOk result (self.new ≡ record self.old { may_go = true }) }
        ensures kept { OnErr result (self.new ≡ self.old) }
        ensures memory { OnErr result (result ≡ Err Refusal.NoMemory) }
    {
        self.gone.reserve(1)?;
        self.may_go = true;
        Ok(())
    }

    /// Drops the entries of a store, and keeps that it is gone.
    pub fn gone(&mut self, store: u64)
        requires { self.old.may_go ≡ true }
        ensures { self.new ≡ without_store self.old store }
    {
        self.rows.remove_store(store);
        remove_numbers_of(&mut self.numbers, store);
        let _room = self.gone.push(store);
        self.may_go = false;
    }

    /// All entries in the order of store and key, with the stores that are gone.
    pub fn sorted(&self) -> Result<Entries, Refusal>
        ensures keys { IfOk result (λ all. all.keys ≡ in_order self.now.entries) }
        ensures gone { IfOk result (λ all. all.gone ≡ self.now.gone) }
        ensures memory { OnErr result (result ≡ Err Refusal.NoMemory) }
    {
        let keys = list_of(
            self.alloc,
            self.rows.settled.as_slice(),
            self.rows.recent.as_slice(),
        )?;
        let gone = Vec::from_slice(self.alloc, self.gone.as_slice())?;
        Ok(Entries {
            keys: Sequence::from_vec(keys),
            gone: Sequence::from_vec(gone),
        })
    }

    /// An index that holds the same, without room.
    pub fn copy(&mut self) -> Result<WalIndex, Refusal>
        ensures value { IfOk result (λ copy. copy ≡ record self.old { room = 0; may_go = false }) }
        ensures kept { self.new ≡ self.old }
        ensures memory { OnErr result (result ≡ Err Refusal.NoMemory) }
    {
        let settled = rows_of(
            self.alloc,
            self.rows.settled.as_slice(),
            self.rows.recent.as_slice(),
        )?;
        let numbers = numbers_of(self.alloc, self.numbers.as_slice())?;
        let gone = Vec::from_slice(self.alloc, self.gone.as_slice())?;
        Ok(WalIndex {
            rows: Rows::of_settled(self.alloc, settled),
            numbers,
            gone,
            room: 0,
            may_go: false,
            alloc: self.alloc,
        })
    }

    /// The empty index again. It takes no memory.
    pub fn clear(&mut self)
        ensures entries { self.new.entries ≡ nothing }
        ensures gone { self.new.gone ≡ [] }
        ensures room { self.new.room ≡ self.old.room }
        ensures may_go { self.new.may_go ≡ self.old.may_go }
    {
        self.rows.clear();
        self.numbers.clear();
        self.gone.clear();
    }
}
