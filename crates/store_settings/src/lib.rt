//! The words of the program and the settings of the server: which are taken, and what they ask for.
//!
//! `read_words` promises that words are taken exactly where they are in the profile of words, and what they then ask for;
//! where they aren't, it names the word at fault. `place_of` says where a program's store lies. `settings_of` takes a
//! text exactly where it is TOML with known keys alone, of the right kinds and in their ranges.
#![tactic(auto)]

mod help;
mod number;
mod reader;
mod settings;
mod token;
mod words;

pub use help::usage_text;
pub use settings::{Settings, settings_of};
pub use words::{Asked, Choice, Command, Place, Usage, Where, place_of, read_words};

#[cfg(test)]
mod tests;
