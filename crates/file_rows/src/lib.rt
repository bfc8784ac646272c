//! Rows of calls on an open file over a host in memory, and what each has to answer.
//!
//! The crate has tests and nothing else. They show that the public calls of an open file do together what the contracts
//! say of each, also where the host fails and where the file is full.
#![tactic(auto)]

#[cfg(test)]
mod tests;
