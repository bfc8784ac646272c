//! What an open file has in memory, what it looks up there, and how a record is put.
//!
//! It promises that a look-up answers exactly what the index and the table of stores have, that the record of an entry is
//! the one at its address, that a file grows by the very blocks it was given, and that a record which is put stands behind
//! those before it.
#![tactic(auto)]

mod parts;
mod reads;
mod records;
mod writes;

pub use parts::Parts;
pub use reads::{entry_of_key, entry_of_number, find_record, info_of, is_wrong_key};
pub use records::{advance, append, record_of};
pub use writes::{
    MOST_BLOCKS, grow_or_stop, is_full, is_later_worn, is_next_worn, is_worn, put_records,
};
