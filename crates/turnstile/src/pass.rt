ghost use Rattle.std.specs.Prelude.{◌≡◌};

use crate::berth::{Berth, Knows};
use atomic_table::Seat;

/// The right to enter a turnstile. It is joined to another at the end, or closes the turnstile, and can't be dropped.
pub struct Pass<T> {
    pub(crate) shares: u64,
    pub(crate) seat: Seat<Berth<T>, Knows<T>>,
    ghost counted: { shares ≡ seat.me.0.notes.shares },
}
