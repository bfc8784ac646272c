use super::*;
use forest_model::{Entry, Refusal};
use std::alloc::Global;
use std::test::*;

fn with_len(seq: u64, live: bool, len: u64) -> Entry {
    Entry {
        seq,
        address: seq,
        live,
        len,
    }
}

fn entry(seq: u64, live: bool) -> Entry {
    with_len(seq, live, 32)
}

fn put(index: &mut WalIndex, store: u64, key: &[u8], entry: Entry) -> Result<(), Refusal> {
    let room = index.room(key, 1)?;
    index.put(store, room, entry);
    Ok(())
}

// Of store 0 the key b, and of store 1 the keys a, which is deleted, ab, and b, which was put twice.
fn filled(alloc: Global) -> Result<WalIndex, Refusal> {
    let mut index = WalIndex::new(alloc);
    put(&mut index, 1, b"b", entry(1, true))?;
    put(&mut index, 0, b"b", entry(1, true))?;
    put(&mut index, 1, b"a", entry(2, false))?;
    put(&mut index, 1, b"b", entry(3, true))?;
    put(&mut index, 1, b"ab", entry(4, true))?;
    Ok(index)
}

#[test]
fn the_newest_entry_is_got(rt: HostRuntime) -> Result<(), Fail> {
    let index = filled(rt.alloc())?;
    assert_eq!(rt; index.len(), 4);
    assert_eq!(rt; index.get(1, b"b"), Some(entry(3, true)));
    assert_eq!(rt; index.get(1, b"a"), Some(entry(2, false)));
    assert_eq!(rt; index.get(0, b"a"), None);
    Ok(())
}

#[test]
fn the_next_entry_up(rt: HostRuntime) -> Result<(), Fail> {
    let index = filled(rt.alloc())?;
    assert_eq!(rt;
        index.next(1, b"a", true, true),
        Some((b"a".as_slice(), entry(2, false)))
    );
    assert_eq!(rt;
        index.next(1, b"a", false, true),
        Some((b"ab".as_slice(), entry(4, true)))
    );
    assert_eq!(rt; index.next(0, b"b", false, true), None);
    Ok(())
}

#[test]
fn the_next_entry_down(rt: HostRuntime) -> Result<(), Fail> {
    let index = filled(rt.alloc())?;
    assert_eq!(rt;
        index.next(1, b"b", false, false),
        Some((b"ab".as_slice(), entry(4, true)))
    );
    assert_eq!(rt; index.next(1, b"a", false, false), None);
    Ok(())
}

#[test]
fn the_key_of_a_number(rt: HostRuntime) -> Result<(), Fail> {
    let index = filled(rt.alloc())?;
    assert_eq!(rt; index.by_seq(1, 3), Some(b"b".as_slice()));
    assert_eq!(rt; index.by_seq(1, 1), None);
    Ok(())
}

// Store 2 has a live and a deleted entry, store 4 a deleted one alone, and store 5 more than a u64 holds.
#[test]
fn the_live_bytes_of_a_store(rt: HostRuntime) -> Result<(), Fail> {
    let mut index = filled(rt.alloc())?;
    put(&mut index, 2, b"a", with_len(1, true, 7))?;
    put(&mut index, 2, b"b", with_len(2, false, 9))?;
    put(&mut index, 4, b"", with_len(1, false, 5))?;
    put(&mut index, 5, b"a", with_len(1, true, u64::MAX))?;
    put(&mut index, 5, b"b", with_len(2, true, 1))?;
    for (store, live) in [
        (0, 32),
        (1, 64),
        (2, 7),
        (3, 0),
        (4, 0),
        (5, u64::MAX),
        (u64::MAX, 0),
    ] {
        assert_eq!(rt; index.live_of(store), live);
    }
    Ok(())
}

#[test]
fn a_store_goes(rt: HostRuntime) -> Result<(), Fail> {
    let mut index = filled(rt.alloc())?;
    index.reserve_gone()?;
    index.gone(1);
    assert_eq!(rt; index.len(), 1);
    assert_eq!(rt; index.get(1, b"b"), None);
    let all = index.sorted()?;
    assert_eq!(rt; all.keys.len(), 1);
    assert_eq!(rt; all.gone.len(), 1);
    Ok(())
}

#[test]
fn a_copy_stays(rt: HostRuntime) -> Result<(), Fail> {
    let mut index = filled(rt.alloc())?;
    let copy = index.copy()?;
    index.clear();
    assert_eq!(rt; index.len(), 0);
    assert_eq!(rt; copy.get(0, b"b"), Some(entry(1, true)));
    Ok(())
}

// Of store 1 the numbers 3 of b, 2 of a, and 4 of ab; of store 0 and of store 2 the number 1.
#[test]
fn the_next_number_up(rt: HostRuntime) -> Result<(), Fail> {
    let mut index = filled(rt.alloc())?;
    put(&mut index, 2, b"c", entry(1, true))?;
    assert_eq!(rt;
        index.next_seq(1, 0, false, true),
        Some((2, b"a".as_slice()))
    );
    assert_eq!(rt;
        index.next_seq(1, 2, true, true),
        Some((2, b"a".as_slice()))
    );
    assert_eq!(rt;
        index.next_seq(1, 2, false, true),
        Some((3, b"b".as_slice()))
    );
    assert_eq!(rt;
        index.next_seq(1, 4, true, true),
        Some((4, b"ab".as_slice()))
    );
    assert_eq!(rt; index.next_seq(1, 4, false, true), None);
    assert_eq!(rt; index.next_seq(0, 1, false, true), None);
    Ok(())
}

#[test]
fn the_next_number_down(rt: HostRuntime) -> Result<(), Fail> {
    let mut index = filled(rt.alloc())?;
    put(&mut index, 2, b"c", entry(1, true))?;
    assert_eq!(rt;
        index.next_seq(1, u64::MAX, true, false),
        Some((4, b"ab".as_slice()))
    );
    assert_eq!(rt;
        index.next_seq(1, 3, true, false),
        Some((3, b"b".as_slice()))
    );
    assert_eq!(rt;
        index.next_seq(1, 3, false, false),
        Some((2, b"a".as_slice()))
    );
    assert_eq!(rt; index.next_seq(1, 2, false, false), None);
    assert_eq!(rt;
        index.next_seq(2, 5, false, false),
        Some((1, b"c".as_slice()))
    );
    assert_eq!(rt; index.next_seq(2, 1, false, false), None);
    Ok(())
}
