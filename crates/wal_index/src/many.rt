use crate::WalIndex;
use forest_model::{Entry, KeyEntry, Refusal};
use std::test::*;

// So many that rows are settled twice, and some are recent at the end.
const KEYS: u64 = 3_000;

// The numbers below `KEYS` in scattered order. Each is a key's, the even ones of store 0 and the odd ones of store 1.
fn scattered(at: u64) -> u64 {
    at.wrapping_mul(1_741) % KEYS
}

// The number of the key at a place in order.
fn number_at(place: u64) -> u64 {
    if place < KEYS / 2 {
        place.wrapping_mul(2)
    } else {
        place.wrapping_sub(KEYS / 2).wrapping_mul(2).wrapping_add(1)
    }
}

fn entry_of(number: u64, turn: u64) -> Entry {
    Entry {
        seq: number,
        address: turn,
        live: true,
        len: 32,
    }
}

// The newest entry of a key: each seventh was put again.
fn newest(number: u64) -> Entry {
    let is_again = number % 7 == 0;
    entry_of(number, if is_again { 1 } else { 0 })
}

fn put(index: &mut WalIndex, number: u64, turn: u64) -> Result<(), Refusal> {
    let room = index.room(&number.to_be_bytes(), 1)?;
    index.put(number % 2, room, entry_of(number, turn));
    Ok(())
}

fn put_all(index: &mut WalIndex) -> Result<(), Refusal> {
    for at in 0..KEYS {
        put(index, scattered(at), 0)?;
    }
    for at in 0..KEYS {
        let number = scattered(at);
        if number % 7 == 0 {
            put(index, number, 1)?;
        }
    }
    Ok(())
}

fn is_row(row: &KeyEntry, number: u64) -> bool {
    row.store == number % 2
        && row.key.as_slice() == number.to_be_bytes().as_slice()
        && row.entry == newest(number)
}

fn same_list(rows: &[KeyEntry]) -> bool {
    let mut place: u64 = 0;
    for row in rows {
        if !is_row(row, number_at(place)) {
            return false;
        }
        place = place.wrapping_add(1);
    }
    place == KEYS
}

// Whether a look-up found this number's key, or none, where there is no such key.
fn is_at(found: Option<(&[u8], Entry)>, number: u64) -> bool {
    match found {
        None => number >= KEYS,
        Some((key, entry)) => { key == number.to_be_bytes().as_slice() && entry == newest(number) }
    }
}

fn same_around(index: &WalIndex, number: u64) -> bool {
    let store = number % 2;
    let key = number.to_be_bytes();
    index.get(store, &key) == Some(newest(number))
        && is_at(index.next(store, &key, true, true), number)
        && is_at(index.next(store, &key, true, false), number)
        && is_at(index.next(store, &key, false, true), number.wrapping_add(2))
        && is_at(
            index.next(store, &key, false, false),
            number.wrapping_sub(2),
        )
}

fn same_at_hundredths(index: &WalIndex) -> bool {
    for hundredth in 0..KEYS / 100 {
        let number = hundredth.wrapping_mul(100);
        if !same_around(index, number) || !same_around(index, number.wrapping_add(99)) {
            return false;
        }
    }
    true
}

#[test]
fn many_keys(rt: HostRuntime) -> Result<(), Fail> {
    let mut index = WalIndex::new(rt.alloc());
    put_all(&mut index)?;
    let all = index.sorted()?;
    assert_eq!(rt; index.len(), KEYS);
    assert!(rt; same_list(all.keys.as_slice()));
    assert!(rt; same_at_hundredths(&index));
    assert_eq!(rt; index.live_of(1), 32 * KEYS / 2);
    let copy = index.copy()?;
    index.reserve_gone()?;
    index.gone(1);
    assert_eq!(rt; index.len(), KEYS / 2);
    assert_eq!(rt; copy.len(), KEYS);
    assert!(rt; same_at_hundredths(&copy));
    Ok(())
}
