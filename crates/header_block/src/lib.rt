//! The codec of headers (`docs/FORMAT.md`, headers).
//!
//! It promises that a header has one payload, that reading it gives the header, and that nothing else is read as one.
//! The laws say that a payload has one header and a file one list of headers, which goes by the blocks up to the last.
//! It takes no memory.
#![tactic(auto)]

mod laws;
mod reader;
mod rules;
mod writer;

pub use laws::{header_is_one, headers_are_one, headers_stay};
pub use reader::header_of;
pub use writer::payload_of;

#[cfg(test)]
mod tests;
