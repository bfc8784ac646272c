ghost use Rattle.std.specs.Prelude.{◌≡◌, ℕ, List, true, false, IfSome, IfNone};
ghost use Rattle.wal_index.specs.Index.{is_past_number};
ghost use Rattle.wal_index.specs.declared.by_number.Numbered.{Numbered};
ghost use Rattle.wal_index.specs.Numbers.{numbers_at, marks, holds, AreNumbersSorted, stands_before, IsNumberBorder, StandsAt, IsNearestMark};

use crate::by_number::Numbered;

// Whether a number stands before this one of the store, or is it, if `through`.
fn is_before(number: &Numbered, store: u64, seq: u64, through: bool) -> bool
    ensures { result ≡ stands_before through store seq number.now }
{
    let is_past = (through && seq == number.seq) || number.seq < seq;
    number.store < store || (number.store == store && is_past)
}

// How many numbers stand before this one of the store, itself among them or not.
fn border(numbers: &[Box<Numbered>], store: u64, seq: u64, through: bool) -> usize
    requires { AreNumbersSorted numbers.now }
    ensures { IsNumberBorder through store seq numbers.now result }
{
    numbers.partition_point(|number| is_before(number, store, seq, through))
}

// The number at a place, where it is one of the store, and its key.
fn number_of_store(numbers: &[Box<Numbered>], at: usize, store: u64) -> Option<(u64, &[u8])>
    ensures found { IfSome result (λ r. StandsAt numbers.now at (numbers_at store r.0 r.1.now)) }
    ensures absent { IfNone result ((n : Numbered) → StandsAt numbers.now at n → n.store ≡ store → ⊥) }
{
    let number = numbers.get(at)?;
    if number.store == store {
        Some((number.seq, number.key.as_slice()))
    } else {
        None
    }
}

fn next_number_up(
    numbers: &[Box<Numbered>],
    store: u64,
    seq: u64,
    with: bool,
) -> Option<(u64, &[u8])>
    requires { AreNumbersSorted numbers.now }
    ensures found { IfSome result (λ r. IsNearestMark with true (marks numbers.now) store seq r.0 r.1.now) }
    ensures absent { IfNone result ((n : ℕ) (key : List ℕ) → holds (marks numbers.now) (numbers_at store n key) ≡ true → is_past_number with true seq n ≡ false) }
{
    let at = border(numbers, store, seq, !with);
    number_of_store(numbers, at, store)
}

fn next_number_down(
    numbers: &[Box<Numbered>],
    store: u64,
    seq: u64,
    with: bool,
) -> Option<(u64, &[u8])>
    requires { AreNumbersSorted numbers.now }
    ensures found { IfSome result (λ r. IsNearestMark with false (marks numbers.now) store seq r.0 r.1.now) }
    ensures absent { IfNone result ((n : ℕ) (key : List ℕ) → holds (marks numbers.now) (numbers_at store n key) ≡ true → is_past_number with false seq n ≡ false) }
{
    let count = border(numbers, store, seq, with);
    if count == 0 {
        return None;
    }
    number_of_store(numbers, count - 1, store)
}

// The nearest number of the store above or below this one, or this one itself if `with`, and its key.
pub(crate) fn next_number(
    numbers: &[Box<Numbered>],
    store: u64,
    seq: u64,
    with: bool,
    up: bool,
) -> Option<(u64, &[u8])>
    requires { AreNumbersSorted numbers.now }
    ensures found { IfSome result (λ r. IsNearestMark with up (marks numbers.now) store seq r.0 r.1.now) }
    ensures absent { IfNone result ((n : ℕ) (key : List ℕ) → holds (marks numbers.now) (numbers_at store n key) ≡ true → is_past_number with up seq n ≡ false) }
{
    if up {
        next_number_up(numbers, store, seq, with)
    } else {
        next_number_down(numbers, store, seq, with)
    }
}
