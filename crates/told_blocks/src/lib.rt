//! A file in memory that is told whole: nodes and stems are appended to it and read from it, and the records of the
//! blocks with which it began are read by their addresses. It meets `Pages`, `Docs` and `Appender`, so that what these
//! say of a file's content is met.
#![tactic(auto)]

mod blocks;
mod seen;

pub use blocks::ToldBlocks;

#[cfg(test)]
mod tests;
