//! A history that only clauses read. It takes no memory, and its methods do nothing when the program runs.
//! A value that must tell what it has been notes itself here before each change.
#![tactic(auto)]

mod past;

pub use past::Past;
