use crate::bytes::Bytes;
use crate::call::{Found, Info, Items, Numbers};
use crate::refusal::Refusal;
use crate::sequence::Sequence;

/// A line of a script.
#[derive(Debug, Drop, PartialEq, Eq)]
pub struct Line {
    /// 0 to 15.
    pub lane: u8,
    pub verb: Verb,
}

/// What a line asks for. Keys, names and bodies stand for their bytes.
#[derive(Debug, Drop, PartialEq, Eq)]
pub enum Verb {
    UseStore {
        name: Bytes,
        read_only: bool,
    },
    Remove {
        name: Bytes,
    },
    Set {
        key: Bytes,
        meta: Bytes,
        body: Bytes,
    },
    Del {
        key: Bytes,
    },
    /// 1 to 1,024 items.
    Batch {
        items: Items,
    },
    Get {
        key: Bytes,
    },
    BySeq {
        seq: u64,
    },
    Commit,
    Markers,
    Rollback {
        number: u64,
    },
    Info,
    SnapLatest,
    SnapAt {
        seq: u64,
    },
    SnapGet {
        key: Bytes,
    },
    SnapBySeq {
        seq: u64,
    },
    SnapClose,
    /// An empty FROM means no bound; 1 to 65,536 documents at most.
    Scan {
        up: bool,
        from: Bytes,
        count: u64,
    },
    /// A FROM of 0 means no bound; 1 to 65,536 documents at most.
    Seqs {
        up: bool,
        from: u64,
        count: u64,
    },
    CompactBegin,
    /// 1 to 1,000,000 documents at most.
    CompactCopy {
        count: u64,
    },
    CompactDelta,
    CompactSwitch,
    CompactCancel,
    /// The server's one line, in place of the five before it.
    Compact,
}

/// A document's key and sequence number in a list.
#[derive(Debug, Drop, PartialEq, Eq)]
pub struct Row {
    pub key: Bytes,
    pub seq: u64,
}

/// The documents of a list, in its order.
pub type Rows = Sequence<Row>;

/// What a reply line says behind its lane and place.
#[derive(Debug, Drop, PartialEq, Eq)]
pub enum Said {
    Using { id: u64 },
    Removed { id: u64 },
    Done { seq: u64 },
    Gone { seq: u64 },
    Got { found: Found },
    At { found: Found },
    Committed { number: u64 },
    MarkersAre { numbers: Numbers },
    Rolled { number: u64 },
    InfoIs { info: Info },
    SnapOpened,
    SnapClosed,
    Listed { rows: Rows },
    Begun { ticket: u64, base: u64 },
    Copied { count: u64, left: u64 },
    Caught { number: u64 },
    Switched { number: u64 },
    Cancelled,
    Refused { why: Refusal },
}

/// A reply line.
#[derive(Debug, Drop, PartialEq, Eq)]
pub struct Told {
    /// 0 to 15.
    pub lane: u8,
    pub place: u64,
    pub said: Said,
}
