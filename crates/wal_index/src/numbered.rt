ghost use Rattle.std.specs.Prelude.{◌≡◌, [], List, ℕ, true, false, IfSome, IfNone};
ghost use Rattle.wal_index.specs.Numbers.{numbers_at, marks, holds, AreNumbersSorted, IsStart};

use crate::by_number::{Numbered, place};

// How many numbers are lower than this one of the store.
fn start_of(numbers: &[Box<Numbered>], store: u64, seq: u64) -> usize
    requires { AreNumbersSorted numbers.now }
    ensures { IsStart (numbers_at store seq []) numbers.now result }
{
    match place(numbers, store, seq, b"") {
        Ok(at) => at,
        Err(at) => at,
    }
}

// The key, where it has this number of the store.
fn key_if(number: &Numbered, store: u64, seq: u64) -> Option<&[u8]>
    ensures found { IfSome result (λ key. number.now ≡ numbers_at store seq key.now) }
    ensures absent { IfNone result (number.now.store ≡ store → number.now.seq ≡ seq → ⊥) }
{
    if number.store == store && number.seq == seq {
        Some(number.key.as_slice())
    } else {
        None
    }
}

// The key of a store's number.
pub(crate) fn key_of(numbers: &[Box<Numbered>], store: u64, seq: u64) -> Option<&[u8]>
    requires { AreNumbersSorted numbers.now }
    ensures found { IfSome result (λ key. holds (marks numbers.now) (numbers_at store seq key.now) ≡ true) }
    ensures absent { IfNone result ((key : List ℕ) → holds (marks numbers.now) (numbers_at store seq key) ≡ false) }
{
    let at = start_of(numbers, store, seq);
    match numbers.get(at) {
        None => None,
        Some(number) => key_if(number, store, seq),
    }
}
