//! The run of a script: lines are read, run over an open file, and answered, one after another.
//!
//! `play` promises that what it says is the text of the run of the sequential store over the script's lines, that the
//! file which it leaves is the last file of that run, and that each of its statuses has its cause. A line is run and
//! answered as soon as it is whole.
#![tactic(auto)]

mod opening;
mod player;
mod program;
mod session;
mod verbs;

pub use player::SCRIPT_LIMIT;
pub use program::{Played, play};

#[cfg(test)]
mod listener;
#[cfg(test)]
mod tests;
