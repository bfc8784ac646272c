ghost use Rattle.std.specs.Prelude.{◌≡◌, ◌<◌, ◌+◌, ◌∷◌, length, slice_index_or};
ghost use Rattle.std.specs.Global.{Box};
ghost use Rattle.std.specs.Ordering.{is_lt};
ghost use Rattle.forest_model.specs.Key.{key_cmp};
ghost use Rattle.forest_model.specs.declared.stored.KeyEntry.{KeyEntry};
ghost use Rattle.wal_index.specs.Merged.{AreRows, all_pairs};
ghost use Rattle.wal_index.specs.Rows.{key_of, pair_of};

use crate::by_key::compare;
use forest_model::KeyEntry;

/// The rows of both lists that are left, to be taken in order.
#[derive(Drop)]
pub(crate) struct InOrder<'a> {
    pub(crate) settled: &'a [Box<KeyEntry>],
    pub(crate) recent: &'a [Box<KeyEntry>],
}

impl<'a> InOrder<'a> {
    // Takes the first row. There is one.
    pub(crate) fn take_first(&mut self) -> &'a Box<KeyEntry>
        requires rows { AreRows self.old.settled.now self.old.recent.now }
        requires some { 0 < length self.old.settled.now + length self.old.recent.now }
        ensures rows { AreRows self.new.settled.now self.new.recent.now }
        ensures first { all_pairs self.old.settled.now self.old.recent.now ≡ pair_of result.now ∷ all_pairs self.new.settled.now self.new.recent.now }
        ensures len { length self.new.settled.now + length self.new.recent.now + 1 ≡ length self.old.settled.now + length self.old.recent.now }
    {
        if self.recent.is_empty() {
            return take(&mut self.settled);
        }
        if self.settled.is_empty() {
            return take(&mut self.recent);
        }
        if is_lower(self.settled, 0, self.recent, 0) {
            take(&mut self.settled)
        } else {
            take(&mut self.recent)
        }
    }
}

// Whether a settled row has a lower key than a recent one.
fn is_lower(
    settled: &[Box<KeyEntry>],
    at: usize,
    recent: &[Box<KeyEntry>],
    recent_at: usize,
) -> bool
    requires within { at < length settled.now }
    requires recent_within { recent_at < length recent.now }
    ensures { (d : Box KeyEntry) → result ≡ is_lt (key_cmp (key_of (slice_index_or settled.now at d)) (key_of (slice_index_or recent.now recent_at d))) }
{
    let row = &settled[at];
    let other = &recent[recent_at];
    compare(row, other.store, other.key.as_slice()).is_lt()
}

// Takes the first of these rows.
fn take<'a>(rows: &mut &'a [Box<KeyEntry>]) -> &'a Box<KeyEntry>
    requires { 0 < length rows.old.now }
    ensures { rows.old.now ≡ result.now ∷ rows.new.now }
{
    let all = *rows;
    *rows = &all[1..];
    &all[0]
}
