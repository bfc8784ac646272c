ghost use Rattle.std.specs.Prelude.{◌≡◌};

use crate::berth::{Berth, Knows};
use crate::plays::Rule;
use atomic_table::Table;
use forest_model::Held;
use std::alloc::Global;
use std::snapshot::Snapshot;

/// A value that threads take in turns. It is closed at the end, and can't be dropped.
pub struct Turnstile<T: Held> {
    pub(crate) table: Table<Berth<T>, Knows<T>, Snapshot<T>, Rule<T>, Global>,
    ghost sized: { (table.shared.table_id.words ≡ 1) × (table.shared.table_id.slots ≡ 1) },
}
