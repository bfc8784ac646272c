use crate::bytes::Bytes;
use crate::call::Limits;
use crate::documents::Documents;
use crate::sequence::Sequence;

/// A named store.
#[derive(Debug, Drop, PartialEq, Eq)]
pub struct Store {
    pub id: u64,
    /// 1 to 31 letters, digits, `_`, `-` and `.`.
    pub name: Bytes,
    /// Its sequence number, which each set and delete raises.
    pub seq: u64,
}

/// Stores by rising id.
pub type StoreList = Sequence<Store>;

/// The stores and documents that a commit has kept.
#[derive(Debug, Drop)]
pub struct Commit {
    pub number: u64,
    pub stores: StoreList,
    pub documents: Documents,
}

/// A running compaction.
#[derive(Clone, Copy, Debug, PartialEq, Eq)]
pub struct Copying {
    /// 1 or more.
    pub ticket: u64,
    /// The number of the commit that it copies.
    pub base: u64,
}

/// The sequential store: what every reply is a function of.
#[derive(Debug, Drop)]
pub struct State {
    /// The stores now.
    pub stores: StoreList,
    /// The documents now, uncommitted ones among them.
    pub documents: Documents,
    /// The last retained commit.
    pub last: Commit,
    /// The retained commits before it, newest first.
    pub earlier: Sequence<Commit>,
    /// The number of the next commit.
    pub next_commit: u64,
    /// The id of the next store.
    pub next_store: u64,
    /// The ticket of the next compaction.
    pub next_ticket: u64,
    /// The running compaction.
    pub copying: Option<Copying>,
    /// The next store id as it stood at the last header.
    pub kept: u64,
    /// The revision of the current file.
    pub revision: u64,
    /// The generation of the current file.
    pub generation: u64,
    /// How many bytes of records stand in the open block.
    pub loose: u64,
    /// The number of updates since opening.
    pub place: u64,
    /// The limits that the store was opened with.
    pub limits: Limits,
}
