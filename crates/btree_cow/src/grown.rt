/// What stands in place of a node after a change: a node in a block, or two, each with its least chunk and its block.
#[derive(Clone, Copy)]
pub(crate) enum Grown {
    One(u64),
    Two((u64, u64), (u64, u64)),
}
