//! A value that threads take in turns, one at a time, and a history of it that all of them agree on.
//! It knows no file: what the value shows, and what it covers, is told by the trait `Held`.
#![tactic(auto)]

mod berth;
mod crossing;
mod pass;
mod passes;
mod plays;
mod sections;
mod slot;
#[cfg(test)]
mod tests;
mod turnstile;

pub use pass::Pass;
pub use passes::SHARES;
pub use turnstile::Turnstile;
