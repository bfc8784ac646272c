use crate::bytes::Bytes;
use crate::refusal::Refusal;
use crate::sequence::Sequence;

/// How a caller names a store: by its id, and not by a file, so that it serves after a switch too.
#[derive(Clone, Copy, Debug, PartialEq, Eq)]
pub struct StoreRef {
    /// The store's id.
    pub store: u64,
    /// Whether the calls that change something are refused.
    pub read_only: bool,
}

/// One change of a batch.
#[derive(Debug, Drop, PartialEq, Eq)]
pub enum Item {
    /// Sets a key.
    Put {
        key: Bytes,
        meta: Bytes,
        body: Bytes,
    },
    /// Deletes a key.
    Del {
        key: Bytes,
    },
}

/// The changes of a batch, in their order.
pub type Items = Sequence<Item>;

/// Numbers of commits, in order.
pub type Numbers = Sequence<u64>;

/// A document as a read finds it.
#[derive(Debug, Drop, PartialEq, Eq)]
pub struct Found {
    /// Its sequence number in its store.
    pub seq: u64,
    pub key: Bytes,
    pub meta: Bytes,
    pub body: Bytes,
}

/// What a store and the file are at.
#[derive(Clone, Copy, Debug, PartialEq, Eq)]
pub struct Info {
    /// The number of the last commit.
    pub commit: u64,
    /// The store's sequence number.
    pub seq: u64,
    /// How many documents the store has.
    pub documents: u64,
    /// The ticket of the running compaction, and 0 for none.
    pub ticket: u64,
}

/// How large a file may grow, and when a flush is due.
#[derive(Clone, Copy, Debug, PartialEq, Eq)]
pub struct Limits {
    /// The greatest number of blocks of a file, 16 to 2^32.
    pub max_blocks: u64,
    /// The number of entries in memory from which a commit flushes, 1 to 65,536.
    pub threshold: u64,
}

/// A call on a store.
#[derive(Debug, Drop, PartialEq, Eq)]
pub enum Call {
    Set {
        at: StoreRef,
        key: Bytes,
        meta: Bytes,
        body: Bytes,
    },
    Delete {
        at: StoreRef,
        key: Bytes,
    },
    /// The items, 1 to 1,024, take effect in order and at one place.
    Batch {
        at: StoreRef,
        items: Items,
    },
    Get {
        at: StoreRef,
        key: Bytes,
    },
    BySeq {
        at: StoreRef,
        seq: u64,
    },
    Info {
        at: StoreRef,
    },
    Markers,
    StoreOpen {
        name: Bytes,
        read_only: bool,
    },
    StoreRemove {
        at: StoreRef,
        name: Bytes,
    },
    Commit {
        at: StoreRef,
    },
    Rollback {
        at: StoreRef,
        number: u64,
    },
    SnapLatest,
    SnapAt {
        at: StoreRef,
        seq: u64,
    },
    Begin {
        at: StoreRef,
    },
    /// The copier's ticket, 0 without one, and how many documents of its base it hasn't copied.
    Delta {
        ticket: u64,
        left: u64,
    },
    Switch {
        at: StoreRef,
        ticket: u64,
        left: u64,
    },
    Cancel {
        at: StoreRef,
        ticket: u64,
    },
}

/// The answer to a call.
#[derive(Debug, Drop, PartialEq, Eq)]
pub enum Reply {
    Seq { seq: u64 },
    Document { found: Found },
    InfoIs { info: Info },
    MarkersAre { numbers: Numbers },
    Store { at: StoreRef },
    Removed { id: u64 },
    Committed { number: u64 },
    Rolled { number: u64 },
    Snapped,
    Begun { ticket: u64, base: u64 },
    Caught { number: u64 },
    Switched { number: u64 },
    Cancelled,
    Refused { why: Refusal },
}

/// A call of a lane with its answer, at its place.
#[derive(Debug, Drop, PartialEq, Eq)]
pub struct Event {
    pub place: u64,
    /// 0 to 15.
    pub lane: u8,
    pub call: Call,
    pub reply: Reply,
}

/// An answer with the place at which it was given: the number of updates so far, itself among them.
#[derive(Debug, Drop, PartialEq, Eq)]
pub struct Placed<T> {
    pub place: u64,
    pub reply: T,
}
