//! A host in memory, for tests. It tells all its content.
#![tactic(auto)]

mod change;
mod faults;
mod file;
mod formatted;
mod fresh;
mod memory_host;
mod pick;
mod state;
mod view;

pub use fresh::MemoryFresh;
pub use memory_host::{MemoryHost, fresh_is_send, host_is_send, view_is_send};
pub use pick::Pick;
pub use view::MemoryView;
