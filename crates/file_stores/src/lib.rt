//! What opening and removing stores does to an open file.
//!
//! It promises of each what is left in memory and in the file, the first cause by which it is refused, and that a refusal
//! for its cause or for memory leaves all but how much memory the index has to spare. What that means for the sequential
//! store is said above.
#![tactic(auto)]

mod opening;
mod removing;

pub use opening::open_store;
pub use removing::remove_store;
