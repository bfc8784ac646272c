//! The headers of a file, from the last one back along their links (`docs/FORMAT.md`, headers).
//!
//! `last` gives the header in the last block that is sealed as one, and `before` the header that a header links to. They
//! promise that very header, and else a refusal with its cause: a fault of the view, or exactly the block by which there is
//! no such header. The laws say that there is one answer, that links lead down, and what of it stays where a file is
//! extended or cut. They take no memory.
#![tactic(auto)]

mod laws;
mod walk;

pub use laws::{chain_goes_on, last_is_one, last_stays, links_lead_down};
pub use walk::{before, last};

#[cfg(test)]
mod tests;
