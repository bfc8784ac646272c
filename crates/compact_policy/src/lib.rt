//! When a compaction is due.
//!
//! It promises that `due` answers `true` exactly where no compaction is running, the file has at least 64 blocks, and the
//! part of them that stands above the floor is at least the percentage asked for. It takes no memory and refuses nothing.
#![tactic(auto)]

ghost use Rattle.std.specs.Prelude.{◌≡◌, ◌≤◌, ◌<◌, ◌^◌};
ghost use Rattle.compact_policy.specs.Due.{floor_of, is_due, percentage};

#[cfg(test)]
mod tests;

/// The least number of blocks of a file that is worth a compaction.
pub const LEAST_BLOCKS: u64 = 64;

/// How many bytes of records a block takes.
const RECORD_BYTES: u64 = 4064;

/// What of a file's layout tells whether a compaction is due.
#[derive(Clone, Copy, Debug, PartialEq, Eq)]
pub struct Layout4 {
    /// How many blocks the file has.
    pub blocks: u64,
    /// How many blocks it had just after the last switch of this run, its header among them; 0 before one. An open file
    /// tells its floor in place of the 0, and that gives the same.
    pub floor: u64,
    /// The bytes of the records of all documents.
    pub live: u64,
    /// The number of the file.
    pub revision: u64,
}

/// How many blocks a file would have without anything stale. After a switch those are the blocks that it had just then;
/// before one, as many as the live records fill at 4,064 bytes each, and one for the header.
fn floor_of(file: &Layout4) -> u64
    ensures { result ≡ floor_of file.now }
{
    if file.floor > 0 {
        return file.floor;
    }
    let begun = if file.live % RECORD_BYTES == 0 { 0 } else { 1 };
    file.live / RECORD_BYTES + begun + 1
}

/// How much of a file stands above its floor, in whole percent of its blocks, rounded down: 0 to 99.
fn percentage(file: &Layout4) -> u128
    ensures { result ≡ percentage file.now }
{
    let floor = floor_of(file);
    if file.blocks <= floor {
        return 0;
    }
    u128::from(file.blocks - floor) * 100 / u128::from(file.blocks)
}

/// Whether a compaction of a file is due: none is running (`copying` tells that one is), the file has at least
/// `LEAST_BLOCKS` blocks, and the part of them above its floor is at least `percent` percent of all, rounded down. In the
/// settings `percent` is 1 to 99; at a greater number none is ever due, and at 0 one is wherever the other two hold.
pub fn due(file: &Layout4, percent: u64, copying: bool) -> bool
    ensures { result ≡ is_due file.now percent copying }
{
    !copying && file.blocks >= LEAST_BLOCKS && percentage(file) >= u128::from(percent)
}
