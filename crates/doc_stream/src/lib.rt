//! Records in the record blocks of a file (`docs/FORMAT.md`, records).
//!
//! The open block takes records, and whole blocks go out of it as they fill. It promises that the bytes that went out and
//! those that stay are exactly the records put, one behind another.
//!
//! `scan` gives all records of a range of blocks with their addresses, and `read` the one at an address, in the file or in
//! the open block. They promise the very records that the blocks hold, and else a refusal with its cause: a fault of the
//! view, memory, or exactly the block that breaks the records, so that none stand there, whatever lies behind it. The laws
//! say that what was put is what is read, and that what a range holds is one list of records, which stand at their addresses.
#![tactic(auto)]

mod heads;
mod laws;
mod reader;
mod reading;
mod tail;

pub use laws::{
    blocks_keep_records, close_is_scanned, open_is_scanned, pad_is_scanned, pads_keep_records,
    pass_is_scanned, put_is_scanned, put_stands, puts_join, puts_keep_records, scanned_is_one,
    scanned_stays, scanned_there, written_is_read, written_is_scanned,
};
pub use reading::{read, scan};
pub use tail::Tail;

#[cfg(test)]
mod tests;
