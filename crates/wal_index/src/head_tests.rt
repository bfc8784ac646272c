use crate::heads::{head_of, merged_heads};
use forest_model::{Bytes, Entry, KeyEntry, Refusal};
use std::alloc::Global;
use std::test::*;

fn row(alloc: Global, store: u64, key: &[u8]) -> Result<Box<KeyEntry>, Refusal> {
    let row = KeyEntry {
        store,
        key: Bytes::copy_of(alloc, key)?,
        entry: Entry {
            seq: 0,
            address: 0,
            live: true,
            len: 0,
        },
    };
    Ok(Box::new(alloc, row)?)
}

#[test]
fn heads_are_merged_in_the_order_of_keys(rt: HostRuntime) -> Result<(), Fail> {
    let alloc = rt.alloc();
    let settled = [head_of(0, b"a"), head_of(0, b"b"), head_of(1, b"")];
    let mut recent = Vec::new(alloc);
    recent.push(row(alloc, 0, b"")?)?;
    recent.push(row(alloc, 0, b"ab")?)?;
    recent.push(row(alloc, 1, b"abcdefghijkl")?)?;
    recent.push(row(alloc, 1, b"abcdefghijklm")?)?;
    let merged = merged_heads(alloc, &settled, recent.as_slice())?;
    let all = [
        head_of(0, b""),
        head_of(0, b"a"),
        head_of(0, b"ab"),
        head_of(0, b"b"),
        head_of(1, b""),
        head_of(1, b"abcdefghijkl"),
        head_of(1, b"abcdefghijkl"),
    ];
    assert!(rt; merged.as_slice() == all.as_slice());
    Ok(())
}
