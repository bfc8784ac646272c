//! Pages: the payloads of blocks that aren't records, and the codecs of nodes and stems (`docs/FORMAT.md`).
//!
//! A page promises that it is seen as the bytes that it was made of. A codec promises that a node or a stem has one
//! page, that reading it gives the node or stem back, and that nothing else is read as one. None takes memory.
#![tactic(auto)]

mod found;
mod node;
mod page;
mod reading;
mod stem;
mod writing;

pub use found::payload_has_one_page;
pub use node::{NodeHead, entry, leaf_from, node_of};
pub use page::Page;
pub use stem::{skipped, stem_from, stem_of};

#[cfg(test)]
mod tests;
