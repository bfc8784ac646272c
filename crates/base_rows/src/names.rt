ghost use Rattle.std.specs.Prelude.{◌≡◌, ◌∷◌, []};
ghost use Rattle.kvs_names.specs.Table.{default_row};

use forest_model::{Refusal, Stores};
use kvs_names::Names;

// The table of a new file.
fn first_names() -> Names
    ensures rows { result.rows ≡ default_row ∷ [] }
    ensures next { result.next ≡ 1 }
{
    let mut stores = Stores::new();
    stores.push(0, b"default", 0, 0);
    Names::of(&stores, 1)
}

// The id of a name, whose store is made where it isn't there.
fn open(names: &mut Names, name: &[u8]) -> Result<u64, Refusal> {
    match names.find(name) {
        Err(Refusal::NoStore) => names.create(name),
        found => found,
    }
}

// Whether each of these names is refused so.
fn are_refused(names: &Names, refused: &[&[u8]], why: Refusal) -> bool {
    for name in refused {
        if names.find(name) != Err(why) {
            return false;
        }
    }
    true
}

// Whether two stores get the next ids.
fn two_are_made(names: &mut Names) -> bool {
    (names.next(), names.find(b"default")) == (1, Ok(0))
        && (open(names, b"notes"), open(names, b"No.t_e-5")) == (Ok(1), Ok(2))
        && (names.find(b"notes"), names.find(b"No.t_e-5")) == (Ok(1), Ok(2))
}

// Whether names that aren't there, and texts that are no names, are refused.
fn others_are_refused(names: &Names) -> bool {
    let absent = [b"note".as_slice(), b"notes2", b"Default", b"x", &[b'x'; 31]];
    let wrong = [b"".as_slice(), b"a b", b"n/a", &[0], &[b'x'; 32]];
    are_refused(names, &absent, Refusal::NoStore) && are_refused(names, &wrong, Refusal::NameForm)
}

fn names_are_right(names: &mut Names) -> bool {
    two_are_made(names) && others_are_refused(names)
}

#[test]
fn names_are_found(rt: HostRuntime) {
    assert!(rt; names_are_right(&mut first_names()));
}

// The table of a new file after seven numbers and with three documents.
fn counted_names() -> Names {
    let mut names = first_names();
    names.count(0, 7, 3);
    names
}

// Whether a second store has its row and its numbers.
fn second_is_counted(names: &mut Names) -> bool {
    open(names, b"notes") == Ok(1)
        && (names.numbers(0), names.numbers(1), names.numbers(2))
            == (Some((7, 3)), Some((0, 0)), None)
        && (names.len(), names.stores().len()) == (2, 2)
        && has_two_rows(&names.stores())
}

fn has_two_rows(stores: &Stores) -> bool {
    stores.at(0) == Some((0, b"default".as_slice(), 7, 3))
        && stores.at(1) == Some((1, b"notes".as_slice(), 0, 0))
}

// Whether the store 1 alone is removed, once, and its name then gets the next id.
fn second_is_removed(names: &mut Names) -> bool {
    (names.remove(0), names.remove(2)) == (Err(Refusal::NameForm), Err(Refusal::NoStore))
        && (names.remove(1), names.remove(1)) == (Ok(()), Err(Refusal::NoStore))
        && names.find(b"notes") == Err(Refusal::NoStore)
        && (open(names, b"notes"), names.next()) == (Ok(2), 3)
}

fn second_is_counted_and_removed(names: &mut Names) -> bool {
    second_is_counted(names) && second_is_removed(names)
}

#[test]
fn stores_are_counted_and_removed(rt: HostRuntime) {
    assert!(rt; second_is_counted_and_removed(&mut counted_names()));
}

// Whether the stores 1 to 63 are made.
fn all_are_made(names: &mut Names) -> bool {
    for n in 1..64u8 {
        if open(names, &[b'a' + n % 8, b'a' + n / 8]) != Ok(u64::from(n)) {
            return false;
        }
    }
    true
}

// Whether there is no place for a store until one is removed.
fn is_full(names: &mut Names) -> bool {
    (open(names, b"more"), names.len()) == (Err(Refusal::StoreCount), 64)
        && (names.remove(9), open(names, b"more")) == (Ok(()), Ok(64))
        && names.find(b"aa") == Err(Refusal::NoStore)
}

fn sixty_four_are_made(names: &mut Names) -> bool {
    all_are_made(names) && is_full(names)
}

#[test]
fn there_are_at_most_64_stores(rt: HostRuntime) {
    assert!(rt; sixty_four_are_made(&mut first_names()));
}

// The table of a new file in which one more id can be drawn.
fn worn_names() -> Names {
    let mut stores = Stores::new();
    stores.push(0, b"default", 0, 0);
    Names::of(&stores, (1 << 62) - 2)
}

// Whether one id is drawn and no other.
fn one_is_drawn(names: &mut Names) -> bool {
    open(names, b"last") == Ok((1 << 62) - 2)
        && open(names, b"more") == Err(Refusal::Worn)
        && names.next() == (1 << 62) - 1
}

#[test]
fn worn_ids_are_not_drawn(rt: HostRuntime) {
    assert!(rt; one_is_drawn(&mut worn_names()));
}
