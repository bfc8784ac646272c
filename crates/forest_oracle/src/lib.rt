//! The sequential store as a program: slow and plain, over ordered maps and lists.
//!
//! It promises that each step of it is the defined step of the sequential store where no file is full:
//! the same reply, and the same state after it. Nothing is refused beyond that but for want of memory,
//! which leaves the state as it was, and comes only of a call that takes memory, behind the refusals that stand before
//! any is taken. So it is what a faster store is compared with. Its look-ups in the plain data, each exact, are there
//! for what stands on it.
#![tactic(auto)]

mod oracle;

pub use oracle::{
    Oracle, commit_at, copy_of_stores, doc_at, found_of, is_wrong_key, store_of, ticket_of,
};
