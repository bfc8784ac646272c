//! The table of store names: which stores there are, and the next store's id.
//!
//! It promises that it is a finite map from names to ids in at most 64 places, that an id once drawn never comes again,
//! and which refusal comes where. It takes no memory.
#![tactic(auto)]

mod form;
mod row;
mod rows;
mod table;

pub use table::Names;
