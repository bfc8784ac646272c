//! Rows of calls on a host in a folder, with real files in the folder that the tests run in.
//!
//! The crate has tests and nothing else, through public calls alone. They stand above the host, so that it isn't proved
//! once more for them.
#![tactic(auto)]

#[cfg(test)]
mod tests;
