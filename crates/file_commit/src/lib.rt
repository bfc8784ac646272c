//! The commit of an open file.
//!
//! It promises that a commit answers and changes what one step of the sequential store does, that it takes no memory and is
//! never refused for want of room, and that only a host that failed keeps it from what it has to do.
#![tactic(auto)]

mod committing;
mod disk;
mod header;
mod rows;

pub use committing::commit;
