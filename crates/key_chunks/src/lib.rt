//! The chunk list of a key: how an index by numbers holds keys of bytes.
//!
//! A list begins with the id of the key's store. The key is cut into groups of seven bytes, the last one
//! filled up with zeros, and each group gives one number of 64 bits: its seven bytes, the first of them
//! highest, and a count. The count is 8 where a further group follows, and else how many bytes of the key
//! the group has. So a key of 1 to 3,500 bytes has a list of 2 to 501 numbers.
//!
//! Lists stand in the order of store and key, two keys never have one list, and no list goes on from another.
#![tactic(auto)]

mod group;
mod laws;
mod numbers;
mod reading;
mod writing;

pub use laws::{in_key_order, one_key, prefix_free};
pub use numbers::Numbers64;
pub use reading::key_of;
pub use writing::chunks;

#[cfg(test)]
mod tests;
