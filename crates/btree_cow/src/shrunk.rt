use crate::overfull::Node;

/// What stands in place of a node after a removal: nothing new where the chunk is absent, a node in a block, or too few
/// entries for a node, which aren't stored.
#[derive(Drop)]
pub(crate) enum Shrunk {
    Absent,
    Stored(u64),
    Short(Node),
}
