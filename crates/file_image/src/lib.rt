//! What an image of the disk stands for: the commits of its current file (`docs/FORMAT.md`).
//!
//! It has the definitions, which every crate that opens, writes or checks a store cites, and laws: the files of a new store
//! stand for commit 0 alone; an image stands for one durable; it stands for the same where it is the same up to its last
//! header, and for one commit more with one header more that links to it.
#![tactic(auto)]

mod laws;

pub use laws::{adds, keeps, new_store, stands_for_one};
