ghost use Rattle.std.specs.Prelude.{◌≡◌};

use std::alloc::{AllocError, AllocFailed};
use thiserror::Error;

/// Why a call was refused. A refused call changes nothing.
#[derive(Clone, Copy, Debug, PartialEq, Eq, Error)]
pub enum Refusal {
    /// The key or sequence number isn't in the map asked, or nothing further follows.
    #[error("not found")]
    NotFound,
    /// No retained commit has this number, or the store at this sequence number.
    #[error("no such commit")]
    NoCommit,
    /// The store's reference is for reading alone.
    #[error("the reference is read-only")]
    ReadOnly,
    /// The disk failed in this call.
    #[error("the disk failed")]
    DiskFault,
    /// There is no memory left.
    #[error("out of memory")]
    NoMemory,
    /// The key hasn't 1 to 3,500 bytes.
    #[error("the key's length")]
    KeyLength,
    /// The meta has more than 255 bytes, or the body more than 1,048,576.
    #[error("the length of meta or body")]
    BodyLength,
    /// A compaction with this ticket is running.
    #[error("compaction {ticket} is running")]
    Compacting { ticket: u64 },
    /// No running compaction has the ticket asked for; 0 stands for none.
    #[error("ticket {asked} was asked for and {now} is running")]
    NoTicket { asked: u64, now: u64 },
    /// An earlier call failed, at this count of faults: the store has to be opened again.
    #[error("stopped at {faults} faults")]
    Stopped { faults: u64 },
    /// The file is full: blocks in use, blocks needed, and the greatest number of blocks.
    #[error("{used} blocks in use, {needed} needed, at most {max}")]
    FileFull { used: u64, needed: u64, max: u64 },
    /// There is no such store.
    #[error("no such store")]
    NoStore,
    /// There are 64 stores already.
    #[error("too many stores")]
    StoreCount,
    /// The name isn't 1 to 31 letters, digits, `_`, `-` and `.`, or `default` is to be removed.
    #[error("the form of the name")]
    NameForm,
    /// So many documents of the base aren't copied yet.
    #[error("{left} documents aren't copied")]
    NotCopied { left: u64 },
    /// This block of this file isn't there, or isn't sealed or well-formed.
    #[error("block {block} of file {file} is damaged")]
    Damaged { file: u64, block: u64 },
    /// A number that the call would draw has reached its end, 2^62 - 1.
    #[error("a number is worn out")]
    Worn,
    /// The lane holds no snapshot.
    #[error("no snapshot")]
    NoSnapshot,
    /// There is a store already.
    #[error("the store exists")]
    Exists,
}

impl From<AllocError> for Refusal {
    ghost use Rattle.forest_model.specs.declared.refusal.Refusal.TheVariants.{NoMemory};

    ghost from_gives = { λ _ refusal. refusal ≡ NoMemory };

    fn from(_: AllocError) -> Refusal {
        Refusal::NoMemory
    }
}

impl<T: Drop> From<AllocFailed<T>> for Refusal {
    ghost use Rattle.forest_model.specs.declared.refusal.Refusal.TheVariants.{NoMemory};

    ghost from_gives = { λ _ refusal. refusal ≡ NoMemory };

    fn from(_: AllocFailed<T>) -> Refusal {
        Refusal::NoMemory
    }
}
