ghost use Rattle.std.specs.Prelude.{◌≡◌, slice_get, Some};
ghost use Rattle.forest_model.specs.Stored.{StoreRow};
ghost use Rattle.file_commit.specs.Committing.{is_same_row, are_same_rows};

use forest_model::Stores;

// Whether two tables have the same stores at the same sequence numbers.
pub(crate) fn are_same_rows(now: &Stores, before: &Stores) -> bool
    ensures { result ≡ are_same_rows now.now before.now }
{
    if now.len() != before.len() {
        return false;
    }
    for n in 0..now.len() {
        if !is_same_row(now, before, n) {
            return false;
        }
    }
    true
}

fn is_same_row(now: &Stores, before: &Stores, n: u64) -> bool
    ensures { (a b : StoreRow) → slice_get now.now n ≡ Some a → slice_get before.now n ≡ Some b → result ≡ is_same_row a b }
{
    match (now.at(n), before.at(n)) {
        (Some(a), Some(b)) => a.0 == b.0 && a.1 == b.1 && a.2 == b.2,
        _ => false,
    }
}
