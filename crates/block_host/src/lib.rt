//! The engine's outside: blocks, and the traits through which it reaches files, its input and its output.
//! Each trait says what its calls do to what is there, what a crash may leave at each moment, and that a call
//! fails only where the object's count of faults rose.
#![tactic(auto)]

mod block;
mod failed;
mod found;
mod fresh;
mod gate;
mod host;
mod order;
mod sealing;
mod settled;
mod source;
mod view;

pub use block::Block;
pub use failed::Failed;
pub use found::found_where_sealed;
pub use fresh::Fresh;
pub use gate::Gate;
pub use host::Host;
pub use order::append_in_order;
pub use sealing::{seal, unseal};
pub use settled::Settled;
pub use source::{MemorySource, Source, StdSource};
pub use view::View;

#[cfg(test)]
mod untold;
