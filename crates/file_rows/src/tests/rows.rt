use super::calls::{closed, commit, opened, set};
use super::{DEFAULT, Seen, USUAL, found, layout, see};
use block_host::Host;
use file_core::FileState;
use forest_model::{Info, Refusal, StoreRef};
use host_memory::MemoryHost;
use std::alloc::Global;
use std::test::Fail;

// What is told of the one document of a file.
fn one_document(
    alloc: Global,
    key: &[u8],
    body: &[u8],
    committed: u64,
    blocks: u64,
    updates: u64,
) -> Result<Seen, Fail> {
    // a record has 24 bytes, the key, the meta and the body
    let live = (key.len() as u64)
        .saturating_add(body.len() as u64)
        .saturating_add(24);
    Ok(Seen {
        by_key: Ok(found(alloc, 1, key, body)?),
        by_seq: Ok(found(alloc, 1, key, body)?),
        info: Ok(Info {
            commit: committed,
            seq: 1,
            documents: 1,
            ticket: 0,
        }),
        layout: layout(blocks, 1, live),
        updates,
    })
}

// What a set, a commit and another commit answer, and what is told after each.
#[derive(Debug, Drop, PartialEq, Eq)]
struct Told {
    set: Result<u64, Refusal>,
    open: Seen,
    number: Result<u64, Refusal>,
    committed: Seen,
    again: Result<u64, Refusal>,
    still: Seen,
}

fn set_and_commit<H: Host>(file: &mut FileState<H>, key: &[u8], body: &[u8]) -> Told {
    Told {
        set: set(file, &DEFAULT, key, body),
        open: see(file, key, 1),
        number: commit(file, &DEFAULT),
        committed: see(file, key, 1),
        again: commit(file, &DEFAULT),
        still: see(file, key, 1),
    }
}

// The same of a new store, with the host's size of the file in the end, and its count of faults.
fn told_of(alloc: Global, key: &[u8], body: &[u8]) -> Result<(Told, u64, u64), Fail> {
    let mut file = opened(alloc, MemoryHost::formatted(alloc)?, USUAL)?;
    let told = set_and_commit(&mut file, key, body);
    let mut host = closed(file);
    let size = host.size(1)?;
    Ok((told, size, host.faults()))
}

// The answers where the document is in so many blocks before the commit, and in so many after it.
fn wanted(alloc: Global, key: &[u8], body: &[u8], open: u64, after: u64) -> Result<Told, Fail> {
    Ok(Told {
        set: Ok(1),
        open: one_document(alloc, key, body, 0, open, 1)?,
        number: Ok(1),
        committed: one_document(alloc, key, body, 1, after, 2)?,
        again: Ok(1),
        still: one_document(alloc, key, body, 1, after, 2)?,
    })
}

#[test]
fn a_document_is_set_got_and_committed(rt: HostRuntime) -> Result<(), Fail> {
    // the record block and the header
    let wanted = wanted(rt.alloc(), b"apple", b"red", 1, 3)?;
    let (told, size, faults) = told_of(rt.alloc(), b"apple", b"red")?;
    assert_eq!(rt; told, wanted);
    assert_eq!(rt; (size, faults), (3, 0));
    Ok(())
}

// Bytes of which none is as the one before.
fn long_body(alloc: Global, len: u64) -> Result<Vec<u8>, Fail> {
    let mut bytes = Vec::new(alloc);
    for n in 0..len {
        bytes.push((n % 251) as u8)?;
    }
    Ok(bytes)
}

#[test]
fn a_body_over_several_blocks_is_got(rt: HostRuntime) -> Result<(), Fail> {
    let body = long_body(rt.alloc(), 10_000)?;
    // two full blocks of 4,064 bytes behind the first header
    let wanted = wanted(rt.alloc(), b"pi", body.as_slice(), 3, 5)?;
    let (told, size, faults) = told_of(rt.alloc(), b"pi", body.as_slice())?;
    assert!(rt; told == wanted);
    assert_eq!(rt; (size, faults), (5, 0));
    Ok(())
}

// What is refused, and what is told of the file after that.
#[derive(Debug, Drop, PartialEq, Eq)]
struct Refused {
    absent: Seen,
    read_only: (Result<u64, Refusal>, Result<u64, Refusal>),
    no_store: Result<u64, Refusal>,
    long_set: Result<u64, Refusal>,
    after: Seen,
}

fn call_refused<H: Host>(file: &mut FileState<H>, long: &[u8]) -> Refused {
    let reader = StoreRef {
        store: 0,
        read_only: true,
    };
    let other = StoreRef {
        store: 1,
        read_only: false,
    };
    Refused {
        absent: see(file, b"apple", 1),
        read_only: (set(file, &reader, b"apple", b"red"), commit(file, &reader)),
        no_store: set(file, &other, b"apple", b"red"),
        long_set: set(file, &DEFAULT, long, b"red"),
        after: see(file, long, 1),
    }
}

// What is told of a new store, of whose keys this one is refused so.
fn nothing(why: Refusal) -> Seen {
    Seen {
        by_key: Err(why),
        by_seq: Err(Refusal::NotFound),
        info: Ok(Info {
            commit: 0,
            seq: 0,
            documents: 0,
            ticket: 0,
        }),
        layout: layout(1, 0, 0),
        updates: 0,
    }
}

fn refused_in_new(alloc: Global) -> Result<Refused, Fail> {
    let long = long_body(alloc, 3501)?;
    let mut file = opened(alloc, MemoryHost::formatted(alloc)?, USUAL)?;
    let refused = call_refused(&mut file, long.as_slice());
    let _host = closed(file);
    Ok(refused)
}

#[test]
fn refused_calls_leave_the_file(rt: HostRuntime) -> Result<(), Fail> {
    let told = refused_in_new(rt.alloc())?;
    let wanted = Refused {
        absent: nothing(Refusal::NotFound),
        read_only: (Err(Refusal::ReadOnly), Err(Refusal::ReadOnly)),
        no_store: Err(Refusal::NoStore),
        long_set: Err(Refusal::KeyLength),
        after: nothing(Refusal::KeyLength),
    };
    assert_eq!(rt; told, wanted);
    Ok(())
}
