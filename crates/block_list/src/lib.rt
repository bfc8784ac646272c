//! A list of blocks in groups of 256, whose copies share what they can.
//!
//! A copy shares the list of the whole groups and, one by one, the blocks behind them, so that it copies no block. It
//! promises that each call gives exactly the blocks that it names: a change of a list changes none of its copies, and a call
//! that is refused, always for want of memory, changes nothing.
#![tactic(auto)]

mod blocks;
mod group;
mod groups;

pub use blocks::Blocks;
