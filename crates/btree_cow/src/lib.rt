//! B+-trees from numbers of 64 bits to numbers of 64 bits, whose nodes are blocks of a file that is only appended to
//! (`docs/FORMAT.md`, nodes). A change appends new nodes and touches no old one.
//!
//! It promises that a look-up in blocks that stand for a list of entries answers from this list, and that on any
//! other blocks it ends, naming the block that is wrong. An insert promises a new root that stands for the entries with
//! the value for the chunk, and every node that it adds has at least 126 entries or is the root. A removal promises the
//! same without the chunk, and no root where no entry is left. A run of changes promises what they make of the entries
//! in their order.
//!
//! On any blocks it promises that `find` answers what stands at the end of the chunk's way, and `next` the entry there,
//! else the first one below the sibling nearest to this end, each block on these ways being a node; that behind a change
//! copies of the nodes on its way stand in new blocks, with all their other children, and as many blocks were appended;
//! and that a damaged block is on the way itself, by which it goes no further, or the neighbour of a node that a removal
//! left short. A way leads down by blocks of lower and lower numbers. Whatever a change answers, it has appended at most
//! 21 nodes; an insert that names a damaged block has appended none.
//!
//! `find` asks for at most ten pages, one a level. `next` asks for at most nineteen: ten down the chunk's way, and nine
//! down from the sibling, which stands below the root.
#![tactic(auto)]

mod applying;
mod grown;
mod inserting;
mod joined;
mod laws;
mod look_up;
mod node_search;
mod overfull;
mod pages;
mod removing;
mod shrunk;
mod storing;
mod walk;

pub use applying::apply;
pub use inserting::insert;
pub use laws::{
    blocks_mean_what_is_sealed, changed_entries_rise, entries_rise, later_composes, meanings_stay,
    root_lies_below, tests_may_ask_less, tree_stays, trees_go_by_blocks, values_are_well,
};
pub use look_up::{find, next};
pub use pages::{Appender, Docs, Pages};
pub use removing::remove;

#[cfg(test)]
mod insert_tests;
#[cfg(test)]
mod remove_tests;
#[cfg(test)]
mod tests;
