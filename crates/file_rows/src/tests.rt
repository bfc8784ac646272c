mod calls;
mod changes;
mod failing;
mod full;
mod rows;

use block_host::Host;
use calls::{by_seq, get, info, place};
use file_core::{FileState, Layout};
use forest_model::{Bytes, Found, Info, Limits, Refusal, StoreRef};
use std::alloc::Global;
use std::test::Fail;

// The store `default`.
const DEFAULT: StoreRef = StoreRef {
    store: 0,
    read_only: false,
};

// 2^32 blocks at most, and a flush from 4,096 entries on.
const USUAL: Limits = Limits {
    max_blocks: 1 << 32,
    threshold: 4096,
};

// What the calls that read tell of a file.
#[derive(Debug, Drop, PartialEq, Eq)]
struct Seen {
    by_key: Result<Found, Refusal>,
    by_seq: Result<Found, Refusal>,
    info: Result<Info, Refusal>,
    layout: Layout,
    updates: u64,
}

// What they tell of a key and of a number.
fn see<H: Host>(file: &mut FileState<H>, key: &[u8], seq: u64) -> Seen {
    let (layout, updates) = place(file);
    Seen {
        by_key: get(file, &DEFAULT, key),
        by_seq: by_seq(file, &DEFAULT, seq),
        info: info(file, &DEFAULT),
        layout,
        updates,
    }
}

// A document as it is found.
fn found(alloc: Global, seq: u64, key: &[u8], body: &[u8]) -> Result<Found, Fail> {
    Ok(Found {
        seq,
        key: Bytes::copy_of(alloc, key)?,
        meta: Bytes::new(alloc),
        body: Bytes::copy_of(alloc, body)?,
    })
}

// The layout of the first file with so many blocks, entries in memory and bytes of documents' records.
fn layout(blocks: u64, pending: u64, live: u64) -> Layout {
    Layout {
        revision: 1,
        generation: 1,
        blocks,
        wal_from: 1,
        pending,
        live,
        floor: live.saturating_add(4063) / 4064 + 1,
        left: None,
    }
}
