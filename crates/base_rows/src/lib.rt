//! Rows of calls on what lies at the bottom, and what each has to answer: the plain data of the store, the table of store
//! names, the list of blocks and the host in memory.
//!
//! The crate has tests and nothing else, through public calls alone. They stand above the crates that they try, so that a
//! change of one of those isn't proved once more for its tests.
#![tactic(auto)]

#[cfg(test)]
mod hosts;
#[cfg(test)]
mod lists;
#[cfg(test)]
mod names;
#[cfg(test)]
mod plain;
