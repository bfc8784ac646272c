/// What waits between two steps of a copy. Both calls are made while no lock is held.
pub trait Gate: Sync {
    /// Between two copy calls, after so many documents were copied.
    fn between(&self, copied: u64);

    /// After the last answer to a line of a lane: its number in the script from 1, and 0 for lane 16.
    fn answered(&self, lane: u8, line: u64);
}
