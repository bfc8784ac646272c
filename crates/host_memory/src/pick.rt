/// Which image a crash leaves of all that is pending.
#[derive(Clone, Copy, Debug, PartialEq, Eq)]
pub enum Pick {
    /// Nothing of it happened.
    Before,
    /// All of it happened.
    Written,
    /// All of it happened, and each block that was written is torn.
    Torn,
}
