/// A change of a file that no sync has made sure of.
#[derive(Clone, Copy)]
pub(crate) enum Change {
    /// Blocks were put at the end, from this place on.
    Append { at: u64 },
    /// A slot of the meta file was written.
    Slot { slot: u64 },
    /// The file was shortened to this many blocks; 0 where it was removed.
    Shorten { blocks: u64 },
    /// A settled file took its place.
    Adopt,
}
