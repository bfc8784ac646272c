ghost use Rattle.forest.specs.Ending.{EndsAs};

/// The status where the words are refused.
pub(crate) const WORDS_REFUSED: u8 = 1;

/// The status where the host has failed, or standard output.
pub(crate) const HOST_FAULT: u8 = 4;

/// The status where there is no memory.
pub(crate) const NO_MEMORY: u8 = 5;

/// How the program ends: whether what was said was written, and the exit status.
#[derive(Clone, Copy, Debug, PartialEq, Eq)]
pub(crate) struct Ending {
    pub(crate) written: bool,
    pub(crate) status: u8,
}

/// The status with which the program ends after a run: whether what was said is written, and how often the
/// host in memory has failed for want of memory.
pub(crate) fn status_at_end(status: u8, written: bool, short: u64) -> u8
    ensures { EndsAs status written short result }
{
    if written && status != HOST_FAULT {
        status
    } else if short > 0 {
        NO_MEMORY
    } else {
        HOST_FAULT
    }
}
