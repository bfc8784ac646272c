ghost use Rattle.header_block.specs.Layout.{NamesBlocks};

use super::*;
use forest_model::{Header, Stores};
use std::test::Fail;

// A header of commit 1 with a header in block 0 before it, and one store with one document.
const ONE_STORE: [u8; 128] = [
    0, 0, 0, 0, 0, 0, 0, 1, 0, 0, 0, 0, 0, 0, 0, 2, 0, 0, 0, 0, 0, 0, 0, 1, 0, 0, 0, 0, 0, 0, 0, 0,
    0, 0, 0, 0, 0, 0, 0, 0, 0, 0, 0, 0, 0, 0, 0, 1, 0, 0, 0, 0, 0, 0, 0, 32, 0, 0, 0, 0, 0, 0, 0,
    1, 0, 0, 0, 0, 0, 0, 0, 1, 0, 0, 0, 0, 0, 0, 0, 0, 7, 100, 101, 102, 97, 117, 108, 116, 0, 0,
    0, 0, 0, 0, 0, 0, 0, 0, 0, 0, 0, 0, 0, 0, 0, 0, 0, 0, 0, 0, 0, 0, 0, 0, 0, 0, 0, 0, 0, 1, 0, 0,
    0, 0, 0, 0, 0, 1,
];

fn one_store() -> Header
    ensures { NamesBlocks result }
{
    let mut stores = Stores::new();
    stores.push(0, b"default", 1, 1);
    Header {
        commit: 1,
        next_commit: 2,
        previous: Some(0),
        key: None,
        seq: None,
        wal_from: 1,
        live: 32,
        next_store: 1,
        stores,
    }
}

// The bytes with one of them changed.
fn changed(place: usize, byte: u8) -> [u8; 128] {
    let mut bytes = ONE_STORE;
    if let Some(changed) = bytes.get_mut(place) {
        *changed = byte;
    }
    bytes
}

// The same with a second store.
fn two_stores(id: u8, name: &[u8; 7]) -> [u8; 184] {
    let mut bytes = [0; 184];
    bytes[..128].copy_from_slice(&ONE_STORE);
    bytes[63] = 3;
    bytes[71] = 2;
    bytes[135] = id;
    bytes[136] = 7;
    bytes[137..144].copy_from_slice(name);
    bytes
}

// The bytes of 65 stores, and a count of stores.
fn many_stores(count: u8) -> [u8; 3712] {
    let mut bytes = [0; 3712];
    bytes[..128].copy_from_slice(&ONE_STORE);
    bytes[63] = 65;
    bytes[71] = count;
    for id in 1..65 {
        let row = 72 + 56 * usize::from(id);
        bytes[row + 7] = id;
        bytes[row + 8] = 1;
        bytes[row + 9] = id;
    }
    bytes
}

#[test]
fn writes_the_format(rt: HostRuntime) -> Result<(), Fail> {
    let page = payload_of(&one_store());
    assert_eq!(rt; page.len, 128);
    assert_eq!(rt; &page.bytes[..128], ONE_STORE.as_slice());
    assert_eq!(rt; page.bytes[128], 0);
    Ok(())
}

#[test]
fn reads_the_format(rt: HostRuntime) -> Result<(), Fail> {
    let header = header_of(&ONE_STORE, 1).ok_or("no header")?;
    assert_eq!(rt;
        (header.commit, header.next_commit, header.previous),
        (1, 2, Some(0))
    );
    assert_eq!(rt;
        (header.wal_from, header.live, header.next_store),
        (1, 32, 1)
    );
    assert_eq!(rt; header.stores.at(0), Some((0, b"default".as_slice(), 1, 1)));
    Ok(())
}

#[test]
fn other_lengths_are_no_header(rt: HostRuntime) -> Result<(), Fail> {
    assert!(rt; header_of(&ONE_STORE[..127], 1).is_none());
    assert!(rt; header_of(&ONE_STORE[..72], 1).is_none());
    assert!(rt; header_of(&[0; 129], 1).is_none());
    Ok(())
}

#[test]
fn near_misses_are_no_header(rt: HostRuntime) -> Result<(), Fail> {
    // The commit, its next one, the previous header, both roots, the first block of records, the number of live bytes, the
    // next store, the count of stores, the store's id, the length of its name, the name, and the zeros behind it.
    for (place, byte) in [
        (7, 2),
        (8, 0x40),
        (23, 2),
        (31, 2),
        (39, 2),
        (47, 3),
        (48, 0x40),
        (63, 0),
        (71, 2),
        (71, 65),
        (79, 1),
        (80, 32),
        (80, 6),
        (81, b'D'),
        (100, 1),
    ] {
        assert!(rt; header_of(&changed(place, byte), 1).is_none(), "at {place}");
    }
    Ok(())
}

#[test]
fn ids_rise_and_names_differ(rt: HostRuntime) -> Result<(), Fail> {
    assert!(rt; header_of(&two_stores(2, b"another"), 1).is_some());
    assert!(rt; header_of(&two_stores(0, b"another"), 1).is_none());
    assert!(rt; header_of(&two_stores(2, b"default"), 1).is_none());
    Ok(())
}

#[test]
fn there_are_at_most_64_stores(rt: HostRuntime) -> Result<(), Fail> {
    let most = many_stores(64);
    let without_last = most.get(..3656).ok_or("too short")?;
    assert!(rt; header_of(without_last, 1).is_some());
    assert!(rt; header_of(&many_stores(65), 1).is_none());
    Ok(())
}
