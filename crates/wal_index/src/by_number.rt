ghost use Rattle.std.specs.Prelude.{◌≡◌, ◌≤◌, ◌+◌, ◌<◌, not, ◌==◌, filter, IfOk, IfErr, vec_len, vec_capacity};
ghost use Rattle.std.specs.FinMap as finite;
ghost use Rattle.std.specs.Ordering.{is_eq};
ghost use Rattle.forest_model.specs.declared.refusal.Refusal.TheVariants as Refusal;
ghost use Rattle.wal_index.specs.Places.{IsAt, IsGap};
ghost use Rattle.wal_index.specs.Numbers.{number_cmp, numbers_at, marks, number_of, AreNumbersSorted};

use forest_model::Bytes;
use std::cmp::Ordering;

/// The number of a key's newest entry.
#[derive(Debug, Drop)]
pub(crate) struct Numbered {
    pub(crate) store: u64,
    pub(crate) seq: u64,
    pub(crate) key: Bytes,
}

pub(crate) type Numbers = Vec<Box<Numbered>>;

fn compare(number: &Numbered, store: u64, seq: u64, key: &[u8]) -> Ordering
    ensures { result ≡ number_cmp number.now (numbers_at store seq key.now) }
{
    match number.store.cmp(&store) {
        Ordering::Equal => match number.seq.cmp(&seq) {
            Ordering::Equal => number.key.as_slice().cmp(key),
            by_seq => by_seq,
        },
        by_store => by_store,
    }
}

// Where the number of a key stands, and where it would.
pub(crate) fn place(
    numbers: &[Box<Numbered>],
    store: u64,
    seq: u64,
    key: &[u8],
) -> Result<usize, usize>
    requires { AreNumbersSorted numbers.now }
    ensures at { IfOk result (λ i. IsAt number_cmp number_of (numbers_at store seq key.now) numbers.now i) }
    ensures gap { IfErr result (λ i. IsGap number_cmp number_of (numbers_at store seq key.now) numbers.now i) }
{
    numbers.binary_search_by(|number| compare(number, store, seq, key))
}

// The same, quick for a number behind all others.
fn place_late(numbers: &[Box<Numbered>], store: u64, seq: u64, key: &[u8]) -> Result<usize, usize>
    requires { AreNumbersSorted numbers.now }
    ensures at { IfOk result (λ i. IsAt number_cmp number_of (numbers_at store seq key.now) numbers.now i) }
    ensures gap { IfErr result (λ i. IsGap number_cmp number_of (numbers_at store seq key.now) numbers.now i) }
{
    let count = numbers.len();
    if count > 0 {
        if compare(&numbers[count - 1], store, seq, key).is_lt() {
            return Err(count);
        }
    }
    place(numbers, store, seq, key)
}

// Puts a number where it belongs. There is capacity for it.
pub(crate) fn put_number(numbers: &mut Numbers, number: Box<Numbered>)
    requires sorted { AreNumbersSorted numbers.old.items }
    requires room { vec_len numbers.old < vec_capacity numbers.old }
    ensures put { marks numbers.new.items ≡ finite.put number_cmp number.value tt (marks numbers.old.items) }
    ensures capacity { vec_capacity numbers.old ≤ vec_capacity numbers.new }
    ensures len { vec_len numbers.new ≤ vec_len numbers.old + 1 }
{
    match place_late(
        numbers.as_slice(),
        number.store,
        number.seq,
        number.key.as_slice(),
    ) {
        Ok(at) => numbers[at] = number,
        Err(at) => {
            let _room = numbers.insert(at, number);
        }
    }
}

// Removes a number, where it is there.
pub(crate) fn remove_number(numbers: &mut Numbers, store: u64, seq: u64, key: &[u8])
    requires { AreNumbersSorted numbers.old.items }
    ensures removed { marks numbers.new.items ≡ filter (λ e. not (is_eq (number_cmp (numbers_at store seq key.now) e.0))) (marks numbers.old.items) }
    ensures capacity { vec_capacity numbers.old ≤ vec_capacity numbers.new }
    ensures len { vec_len numbers.new ≤ vec_len numbers.old }
{
    match place(numbers.as_slice(), store, seq, key) {
        Ok(at) => {
            let _older = numbers.remove(at);
        }
        Err(_) => {}
    }
}

// Removes the numbers of a store.
pub(crate) fn remove_numbers_of(numbers: &mut Numbers, store: u64)
    ensures removed { marks numbers.new.items ≡ filter (λ e. not (e.0.store == store)) (marks numbers.old.items) }
    ensures capacity { vec_capacity numbers.old ≤ vec_capacity numbers.new }
    ensures len { vec_len numbers.new ≤ vec_len numbers.old }
{
    numbers.retain(|number| number.store != store);
}
