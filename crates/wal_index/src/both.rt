ghost use Rattle.std.specs.Prelude.{◌≡◌, ◌≤◌, ◌+◌, ◌<◌, vec_len, vec_capacity};
ghost use Rattle.std.specs.FinMap as finite;
ghost use Rattle.forest_model.specs.Key.{key_cmp};
ghost use Rattle.wal_index.specs.Numbers.{numbers_at, marks, AreNumbersSorted, Agree, without_older};
ghost use Rattle.wal_index.specs.Merged.{AreRows, all_pairs};
ghost use Rattle.wal_index.specs.Rows.{pair_of};

use crate::by_number::{Numbered, Numbers, put_number, remove_number};
use crate::rows::Rows;
use forest_model::{Entry, KeyEntry};

// Removes the number of a key's older entry, where there is one.
fn remove_older(numbers: &mut Numbers, older: Option<Entry>, store: u64, key: &[u8])
    requires { AreNumbersSorted numbers.old.items }
    ensures removed { marks numbers.new.items ≡ without_older older store key.now (marks numbers.old.items) }
    ensures capacity { vec_capacity numbers.old ≤ vec_capacity numbers.new }
    ensures len { vec_len numbers.new ≤ vec_len numbers.old }
{
    if let Some(entry) = older {
        remove_number(numbers, store, entry.seq, key);
    }
}

// Puts a key's newer entry, and its number in the place of the older one's, which it answers. There is capacity for both.
pub(crate) fn put_both(
    rows: &mut Rows,
    numbers: &mut Numbers,
    row: Box<KeyEntry>,
    number: Box<Numbered>,
) -> Option<Entry>
    requires sorted { AreRows rows.old.settled.items rows.old.recent.items }
    requires numbers_sorted { AreNumbersSorted numbers.old.items }
    requires agree { Agree (all_pairs rows.old.settled.items rows.old.recent.items) (marks numbers.old.items) }
    requires room { vec_len rows.old.recent < vec_capacity rows.old.recent }
    requires numbers_room { vec_len numbers.old < vec_capacity numbers.old }
    requires same { number.value ≡ numbers_at row.value.store row.value.entry.seq row.value.key }
    ensures sorted { AreRows rows.new.settled.items rows.new.recent.items }
    ensures put { all_pairs rows.new.settled.items rows.new.recent.items ≡ finite.put key_cmp (pair_of row).0 (pair_of row).1 (all_pairs rows.old.settled.items rows.old.recent.items) }
    ensures capacity { vec_capacity rows.old.recent ≤ vec_capacity rows.new.recent }
    ensures len { vec_len rows.new.recent ≤ vec_len rows.old.recent + 1 }
    ensures numbers_sorted { AreNumbersSorted numbers.new.items }
    ensures numbers_capacity { vec_capacity numbers.old ≤ vec_capacity numbers.new }
    ensures numbers_len { vec_len numbers.new ≤ vec_len numbers.old + 1 }
    ensures agree { Agree (all_pairs rows.new.settled.items rows.new.recent.items) (marks numbers.new.items) }
    ensures older { result ≡ finite.find key_cmp (pair_of row).0 (all_pairs rows.old.settled.items rows.old.recent.items) }
{
    let older = rows.put(row);
    remove_older(numbers, older, number.store, number.key.as_slice());
    put_number(numbers, number);
    older
}
