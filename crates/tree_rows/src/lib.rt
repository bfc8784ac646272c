//! Trees put to the test: long runs of changes beside an ordered map, and trees whose blocks were spoiled.
//!
//! The crate has tests and nothing else. They show that the definitions of `btree_cow` say what was meant: the
//! expected entries are those of the standard library's ordered map, and the form of nodes that of `docs/FORMAT.md`.
#![tactic(auto)]

#[cfg(test)]
mod tests;
