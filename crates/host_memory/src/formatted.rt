// The blocks of a new store.
ghost use Rattle.block_host.specs.Sealed.{IsSealed};
ghost use Rattle.host_memory.specs.Formatted.{first_slot, first_header};

use block_host::{Block, seal};

/// The first slot of the meta file, which names file 1 in generation 1.
pub(crate) fn slot() -> Block
    ensures { IsSealed 0 0 5 first_slot result }
{
    seal(5, 0, 0, &[0, 0, 0, 0, 0, 0, 0, 1, 0, 0, 0, 0, 0, 0, 0, 1])
}

/// The header of commit 0, the first block of file 1: one store, `default`, and no documents.
pub(crate) fn header() -> Block
    ensures { IsSealed 1 0 4 first_header result }
{
    seal(
        4,
        1,
        0,
        b"\0\0\0\0\0\0\0\0\0\0\0\0\0\0\0\x01\0\0\0\0\0\0\0\0\0\0\0\0\0\0\0\0\0\0\0\0\0\0\0\0\0\0\0\0\0\0\0\x01\0\0\0\0\0\0\0\0\0\0\0\0\0\0\0\x01\0\0\0\0\0\0\0\x01\0\0\0\0\0\0\0\0\x07default\0\0\0\0\0\0\0\0\0\0\0\0\0\0\0\0\0\0\0\0\0\0\0\0\0\0\0\0\0\0\0\0\0\0\0\0\0\0\0\0",
    )
}
