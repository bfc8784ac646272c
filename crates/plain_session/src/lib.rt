//! A session of sixteen lanes over the plain slow store, as a program.
//!
//! It is for the tests of what is told for the lines of a script: they run through it, and so through the definition of
//! sessions itself. It promises that what it tells for a line, and what it is after it, is what the definition says for
//! every session that it stands for, where no file is full. Nothing but want of memory keeps it from that: it leaves the
//! session as it was, and comes only of a line that takes memory, behind the refusals that stand before any is taken.
#![tactic(auto)]

mod asked;
mod lane;
mod lists;
mod session;
mod snapshot;

pub use session::PlainSession;
