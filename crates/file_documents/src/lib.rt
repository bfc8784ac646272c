//! What sets, deletes and batches do to an open file.
//!
//! It promises of each what is left in memory and in the file, the first cause by which it is refused, and that a refusal
//! for its cause or for memory leaves all but how much memory the index has to spare. What that means for the sequential
//! store is said above.
#![tactic(auto)]

mod batch_puts;
mod batching;
mod deleting;
mod items;
mod setting;

pub use batching::batch;
pub use deleting::delete;
pub use setting::set;
