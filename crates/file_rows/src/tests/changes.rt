use super::calls::{
    batch, closed, commit, delete, get, info, opened, set, store_open, store_remove,
};
use super::{DEFAULT, USUAL, found};
use block_host::Host;
use file_core::FileState;
use forest_model::{Bytes, Found, Info, Item, Refusal, StoreRef};
use host_memory::MemoryHost;
use std::alloc::{AllocError, Global};
use std::test::Fail;

const NOTES: StoreRef = StoreRef {
    store: 1,
    read_only: false,
};

fn put(alloc: Global, key: &[u8], body: &[u8]) -> Result<Item, AllocError> {
    Ok(Item::Put {
        key: Bytes::copy_of(alloc, key)?,
        meta: Bytes::new(alloc),
        body: Bytes::copy_of(alloc, body)?,
    })
}

fn del(alloc: Global, key: &[u8]) -> Result<Item, AllocError> {
    Ok(Item::Del {
        key: Bytes::copy_of(alloc, key)?,
    })
}

// What a file answers to a batch, the second of whose items deletes what the first has set, and after it.
#[derive(Debug, Drop, PartialEq, Eq)]
struct Batched {
    number: Result<u64, Refusal>,
    gone: Result<Found, Refusal>,
    there: Result<Found, Refusal>,
    info: Result<Info, Refusal>,
}

fn batch_and_read<H: Host>(file: &mut FileState<H>, items: [Item; 3]) -> Batched {
    Batched {
        number: batch(file, &DEFAULT, items.as_slice()),
        gone: get(file, &DEFAULT, b"a"),
        there: get(file, &DEFAULT, b"b"),
        info: info(file, &DEFAULT),
    }
}

fn batch_told(alloc: Global) -> Result<Batched, Fail> {
    let items = [
        put(alloc, b"a", b"1")?,
        del(alloc, b"a")?,
        put(alloc, b"b", b"2")?,
    ];
    let mut file = opened(alloc, MemoryHost::formatted(alloc)?, USUAL)?;
    let told = batch_and_read(&mut file, items);
    let _host = closed(file);
    Ok(told)
}

#[test]
fn a_batch(rt: HostRuntime) -> Result<(), Fail> {
    let wanted = Batched {
        number: Ok(3),
        gone: Err(Refusal::NotFound),
        there: Ok(found(rt.alloc(), 3, b"b", b"2")?),
        info: Ok(Info {
            commit: 0,
            seq: 3,
            documents: 1,
            ticket: 0,
        }),
    };
    assert_eq!(rt; batch_told(rt.alloc())?, wanted);
    Ok(())
}

// What the calls on a second store answer, and those on the first one after it is removed.
#[derive(Debug, Drop, PartialEq, Eq)]
struct Stored {
    made: Result<StoreRef, Refusal>,
    again: Result<StoreRef, Refusal>,
    absent: Result<StoreRef, Refusal>,
    set: Result<u64, Refusal>,
    deleted: Result<u64, Refusal>,
    missing: Result<u64, Refusal>,
    removed: Result<u64, Refusal>,
    gone: Result<Found, Refusal>,
    first: Result<Found, Refusal>,
    number: Result<u64, Refusal>,
}

fn use_notes<H: Host>(file: &mut FileState<H>) -> Stored {
    let _set = set(file, &DEFAULT, b"k", b"one");
    let made = store_open(file, b"notes", false);
    let again = store_open(file, b"notes", true);
    let absent = store_open(file, b"other", true);
    let set = set(file, &NOTES, b"k", b"two");
    let deleted = delete(file, &NOTES, b"k");
    let missing = delete(file, &NOTES, b"k");
    Stored {
        made,
        again,
        absent,
        set,
        deleted,
        missing,
        removed: store_remove(file, &DEFAULT, b"notes"),
        gone: get(file, &NOTES, b"k"),
        first: get(file, &DEFAULT, b"k"),
        number: commit(file, &DEFAULT),
    }
}

fn stores_told(alloc: Global) -> Result<Stored, Fail> {
    let mut file = opened(alloc, MemoryHost::formatted(alloc)?, USUAL)?;
    let told = use_notes(&mut file);
    let _host = closed(file);
    Ok(told)
}

#[test]
fn a_second_store(rt: HostRuntime) -> Result<(), Fail> {
    let wanted = Stored {
        made: Ok(NOTES),
        again: Ok(StoreRef {
            store: 1,
            read_only: true,
        }),
        absent: Err(Refusal::NoStore),
        set: Ok(1),
        deleted: Ok(2),
        missing: Err(Refusal::NotFound),
        removed: Ok(1),
        gone: Err(Refusal::NoStore),
        first: Ok(found(rt.alloc(), 1, b"k", b"one")?),
        number: Ok(1),
    };
    assert_eq!(rt; stores_told(rt.alloc())?, wanted);
    Ok(())
}
