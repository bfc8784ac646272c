//! Nodes, stems and records of a real file, for the trees: `FileDocs` reads them through a view and an open block, and
//! `FileAppender` adds nodes and stems through a host.
#![tactic(auto)]

mod appender;
mod docs;
mod reading;

pub use appender::{FileAppender, Room};
pub use docs::FileDocs;

#[cfg(test)]
mod tests;
