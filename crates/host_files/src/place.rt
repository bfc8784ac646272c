ghost use Rattle.std.specs.Prelude.{◌≡◌, ◌*◌, ◌^◌, ◌<◌, ◌≤◌, MatchOption};

/// The bytes of a block.
pub(crate) const BLOCK: u64 = 4096;

// So many blocks begin below 2^63, where the places end that the system takes.
const BLOCKS: u64 = 1 << 51;

/// Where a block begins in its file; None where the system takes no such place.
pub(crate) fn place_of(block: u64) -> Option<u64>
    ensures { MatchOption result (2 ^ 51 ≤ block) (λ place. (place ≡ block * 4096) × (place < 2 ^ 63)) }
{
    if block < BLOCKS {
        Some(block * BLOCK)
    } else {
        None
    }
}
