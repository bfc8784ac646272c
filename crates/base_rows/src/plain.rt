use forest_model::{Bytes, Doc, DocKey, Documents, Sequence, Stores};
use std::alloc::Global;
use std::test::Fail;

fn key_at(alloc: Global, store: u64, key: &[u8]) -> Result<DocKey, Fail> {
    Ok(DocKey {
        store,
        key: Bytes::copy_of(alloc, key)?,
    })
}

fn numbered(alloc: Global, seq: u64, body: &[u8]) -> Result<Doc, Fail> {
    Ok(Doc {
        seq,
        meta: Bytes::new(alloc),
        body: Bytes::copy_of(alloc, body)?,
    })
}

// A copy of two bytes and a third.
fn three_bytes(alloc: Global) -> Result<Bytes, Fail> {
    let mut bytes = Bytes::copy_of(alloc, b"ab")?;
    bytes.push(b'c')?;
    Ok(bytes.clone()?)
}

// Two numbers, the greater of which was put first.
fn two_numbers(alloc: Global) -> Result<Sequence<u64>, Fail> {
    let mut numbers = Sequence::new(alloc);
    numbers.push(2)?;
    numbers.push_front(1)?;
    Ok(numbers)
}

#[test]
fn bytes_and_sequences_grow(rt: HostRuntime) -> Result<(), Fail> {
    assert!(rt; three_bytes(rt.alloc())?.as_slice() == b"abc".as_slice());
    assert!(rt; two_numbers(rt.alloc())?.as_slice() == [1, 2].as_slice());
    Ok(())
}

// Whether a document before the set, a document set again, and a copy are as they have to be.
fn is_set_twice(alloc: Global, documents: &mut Documents, apple: &DocKey) -> Result<bool, Fail> {
    let absent = documents
        .insert(apple.clone()?, numbered(alloc, 1, b"red")?)?
        .is_none();
    let before = documents.insert(apple.clone()?, numbered(alloc, 2, b"green")?)?;
    let given = before == Some(numbered(alloc, 1, b"red")?);
    let copied = documents.clone()?.get(apple) == Some(&numbered(alloc, 2, b"green")?);
    Ok(absent && given && copied)
}

#[test]
fn documents_are_set_and_copied(rt: HostRuntime) -> Result<(), Fail> {
    let apple = key_at(rt.alloc(), 0, b"apple")?;
    assert!(rt; is_set_twice(rt.alloc(), &mut Documents::new(rt.alloc()), &apple)?);
    Ok(())
}

// Whether there are the two stores of the test below, and no third.
fn are_two(stores: &Stores) -> bool {
    stores.len() == 2
        && stores.at(1) == Some((4, b"notes".as_slice(), 2, 1))
        && stores.at(2).is_none()
}

#[test]
fn stores_of_a_header(rt: HostRuntime) {
    let mut stores = Stores::new();
    stores.push(0, b"default", 7, 3);
    stores.push(4, b"notes", 2, 1);
    assert!(rt; are_two(&stores));
}
