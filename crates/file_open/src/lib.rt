//! Opens a store.
//!
//! It promises that the files of a new store open as the state of a new store, that opening only reads, and that a refusal,
//! for want of memory or by a host that failed, hands the host back.
#![tactic(auto)]

mod header;
mod new_store;

pub use new_store::open_new;
