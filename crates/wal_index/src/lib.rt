//! The memory index: the newest entry of each key since the last flush, and the stores that are gone.
//!
//! It promises that it is a finite map from store and key to entry, that it answers the nearest key and the nearest
//! number of a store in both directions and the key of a number, and that want of memory leaves what it holds. `put` and
//! `gone` can't fail: `room` and `reserve_gone` take their memory before. The rows of new keys stand in a short list of
//! their own, which `room` merges into the long one at times: so a put moves few rows. A look-up in the long list is led
//! by the first bytes of its keys, which stand in an array of their own and are never trusted.
#![tactic(auto)]

mod both;
mod by_key;
mod by_number;
mod copies;
mod heads;
mod in_order;
mod index;
mod live;
mod merge;
mod nearest;
mod nearest_number;
mod numbered;
mod room;
mod rows;

pub use index::WalIndex;
pub use room::Room;

#[cfg(test)]
mod head_tests;
#[cfg(test)]
mod many;
#[cfg(test)]
mod tests;
#[cfg(test)]
mod walk;
