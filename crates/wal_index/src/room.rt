ghost use Rattle.std.specs.Prelude.{◌≡◌, IfOk, OnErr};
ghost use Rattle.forest_model.specs.declared.refusal.Refusal.TheVariants as Refusal;
ghost use Rattle.wal_index.specs.Numbers.{numbers_at};

use crate::by_number::Numbered;
use forest_model::{Bytes, Entry, KeyEntry, Refusal};
use std::alloc::Global;
use std::marker::Model;

/// The memory of one put, with its key. It is seen as the key.
#[derive(Drop)]
pub struct Room {
    row: Box<KeyEntry>,
    number: Box<Numbered>,
}

impl Model for Room {
    ghost use Rattle.std.specs.Prelude.{◌≡◌, List, ℕ};

    ghost Value = { List ℕ };

    ghost view = { λ r. r.row.value.key };

    ghost invariant = { λ r. r.number.value.key ≡ r.row.value.key };
}

impl Room {
    pub(crate) fn of(alloc: Global, key: &[u8]) -> Result<Room, Refusal>
        ensures key { IfOk result (λ room. room ≡ key.now) }
        ensures memory { OnErr result (result ≡ Err Refusal.NoMemory) }
    {
        let row = KeyEntry {
            store: 0,
            key: Bytes::copy_of(alloc, key)?,
            entry: Entry {
                seq: 0,
                address: 0,
                live: false,
                len: 0,
            },
        };
        let number = Numbered {
            store: 0,
            seq: 0,
            key: Bytes::copy_of(alloc, key)?,
        };
        Ok(Room {
            row: Box::new(alloc, row)?,
            number: Box::new(alloc, number)?,
        })
    }

    // The row of this key with a store and an entry, and its number.
    pub(crate) fn into_parts(self, store: u64, entry: Entry) -> (Box<KeyEntry>, Box<Numbered>)
        ensures row { result.0.value ≡ record { store = store; key = self; entry = entry } }
        ensures number { result.1.value ≡ numbers_at store entry.seq self }
    {
        let Room {
            mut row,
            mut number,
        } = self;
        row.store = store;
        row.entry = entry;
        number.store = store;
        number.seq = entry.seq;
        (row, number)
    }
}
