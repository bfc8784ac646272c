ghost use Rattle.std.specs.Prelude.{◌≡◌, ◌<◌, ◌≤◌, [], ◌∷◌, ◌++◌, length, slice_get, map, MatchOption, IfSome, Some, None};
ghost use Rattle.forest_model.specs.Stored.{row_of};

use crate::bytes::Bytes;
use crate::sequence::Sequence;
use arrayvec::ArrayVec;
use std::marker::Model;

/// One change of a store, as its file keeps it (`docs/FORMAT.md`, records).
#[derive(Debug, Drop, PartialEq, Eq)]
pub struct Rec {
    /// 1 sets a key, 2 deletes one, 3 makes a store, 4 removes one.
    pub kind: u8,
    /// The store's id.
    pub store: u64,
    /// The sequence number that it draws, and 0 where a store is made or removed.
    pub seq: u64,
    /// The key; the name of a store that is made; nothing where one is removed.
    pub key: Bytes,
    pub meta: Bytes,
    pub body: Bytes,
}

/// Records with their addresses, in the order of their file.
pub type Recs = Sequence<(u64, Rec)>;

/// The blocks of the roots of the key trie and of the tree by number, where they have any documents.
#[derive(Clone, Copy, Debug, PartialEq, Eq)]
pub struct Roots {
    pub key: Option<u64>,
    pub seq: Option<u64>,
}

/// What is known in memory of a key's newest record.
#[derive(Clone, Copy, Debug, PartialEq, Eq)]
pub struct Entry {
    /// The sequence number that the record drew.
    pub seq: u64,
    /// The record's address.
    pub address: u64,
    /// Whether it sets the key; else it deletes it.
    pub live: bool,
    /// The bytes of the record.
    pub len: u64,
}

/// A key of a store with what is known of its newest record.
#[derive(Debug, Drop, PartialEq, Eq)]
pub struct KeyEntry {
    pub store: u64,
    pub key: Bytes,
    pub entry: Entry,
}

/// Changes since the last flush: keys by store and key, and the stores that are gone.
#[derive(Debug, Drop, PartialEq, Eq)]
pub struct Entries {
    pub keys: Sequence<KeyEntry>,
    pub gone: Sequence<u64>,
}

/// What the header of a commit says (`docs/FORMAT.md`, headers).
#[derive(Drop)]
pub struct Header {
    /// The commit's number.
    pub commit: u64,
    /// The number of the next commit.
    pub next_commit: u64,
    /// The block of the header before it, if there is one.
    pub previous: Option<u64>,
    /// The block of the key trie's root.
    pub key: Option<u64>,
    /// The block of the root of the tree by number.
    pub seq: Option<u64>,
    /// The first block whose records its trees don't hold.
    pub wal_from: u64,
    /// The bytes of the records of its documents.
    pub live: u64,
    /// The id of the next store.
    pub next_store: u64,
    pub stores: Stores,
}

/// A store in the table of a header, in place.
#[derive(Clone, Debug, Default, Drop)]
pub(crate) struct StoreAt {
    pub(crate) id: u64,
    pub(crate) name: ArrayVec<u8, 31>,
    pub(crate) seq: u64,
    pub(crate) documents: u64,
}

/// The stores of a header by rising id, at most 64. They lie in place and take no memory.
#[derive(Drop)]
pub struct Stores {
    rows: ArrayVec<StoreAt, 64>,
}

impl Model for Stores {
    ghost use Rattle.std.specs.Prelude.{List, map};
    ghost use Rattle.forest_model.specs.Stored.{StoreRow, row_of};

    ghost Value = { List StoreRow };

    ghost view = { λ s. map row_of s.rows.items };
}

impl Stores {
    /// No store.
    pub fn new() -> Stores
        ensures { result ≡ [] }
    {
        Stores {
            rows: ArrayVec::new(),
        }
    }

    /// How many stores there are, 0 to 64.
    pub fn len(&self) -> u64
        ensures value { result ≡ length self.now }
        ensures fits { result ≤ 64 }
    {
        self.rows.len() as u64
    }

    /// Puts a store at the end: its id, its name of at most 31 bytes, its sequence number and how many documents it has.
    pub fn push(&mut self, id: u64, name: &[u8], seq: u64, documents: u64)
        requires room { length self.old < 64 }
        requires name { length name.now ≤ 31 }
        ensures { self.new ≡ self.old ++ record { id = id; name = name.now; seq = seq; documents = documents } ∷ [] }
    {
        let mut kept = ArrayVec::new();
        let _fits = kept.try_extend_from_slice(name);
        self.rows.push(StoreAt {
            id,
            name: kept,
            seq,
            documents,
        });
    }

    /// The store at a place, counted from 0: its id, its name, its sequence number and how many documents it has.
    pub fn at(&self, n: u64) -> Option<(u64, &[u8], u64, u64)>
        ensures row { MatchOption result (slice_get self.now n ≡ None) (λ row. slice_get self.now n ≡ Some (record { id = row.0; name = row.1.now; seq = row.2; documents = row.3 })) }
        ensures name { IfSome result (λ row. length row.1.now ≤ 31) }
    {
        let store = self.rows.as_slice().get(n as usize)?;
        Some((store.id, store.name.as_slice(), store.seq, store.documents))
    }
}
