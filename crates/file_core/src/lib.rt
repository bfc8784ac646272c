//! The open file: named stores with their documents, which are read back from their records in the file.
//!
//! It promises that what it has in memory stands for a state of the sequential store, and that each call answers and
//! changes what one step of that state does. It has the calls that read, those that set and delete a key, a batch of both,
//! and those that make and remove a store.
#![tactic(auto)]

mod reading;
mod state;
mod stores;
mod updating;

pub use file_parts::Parts;
pub use state::{FileState, Layout};
