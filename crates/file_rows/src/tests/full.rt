use super::calls::{closed, commit, opened, place, set};
use super::{DEFAULT, layout};
use block_host::Host;
use file_core::{FileState, Layout};
use forest_model::{Limits, Refusal};
use host_memory::MemoryHost;
use std::alloc::Global;
use std::test::Fail;

// The fewest blocks that a file may have at most.
const SMALL: Limits = Limits {
    max_blocks: 16,
    threshold: 4096,
};

// Sets keys until a set is refused. How many were set, why the next one wasn't, what a commit answers, and the layout.
#[derive(Debug, Drop, PartialEq, Eq)]
struct Filled {
    count: u64,
    why: Option<Refusal>,
    full: Layout,
    number: Result<u64, Refusal>,
    after: Layout,
}

// Sets keys of two bytes to this body until that is refused.
fn fill<H: Host>(file: &mut FileState<H>, body: &[u8]) -> (u64, Option<Refusal>) {
    let mut count: u64 = 0;
    for letter in b"123456789abcdef" {
        match set(file, &DEFAULT, &[b'k', *letter], body) {
            Ok(_number) => count = count.saturating_add(1),
            Err(why) => return (count, Some(why)),
        }
    }
    (count, None)
}

fn fill_and_commit<H: Host>(file: &mut FileState<H>, body: &[u8]) -> Filled {
    let (count, why) = fill(file, body);
    Filled {
        count,
        why,
        full: place(file).0,
        number: commit(file, &DEFAULT),
        after: place(file).0,
    }
}

fn fill_new(alloc: Global) -> Result<Filled, Fail> {
    let body = vec![in alloc; 7; 4038]?;
    let mut file = opened(alloc, MemoryHost::formatted(alloc)?, SMALL)?;
    let filled = fill_and_commit(&mut file, body.as_slice());
    let _host = closed(file);
    Ok(filled)
}

#[test]
fn a_full_file_is_committed(rt: HostRuntime) -> Result<(), Fail> {
    // a record of 24, 2 and 4,038 bytes fills a block, and 13 of them have 52,832 bytes
    let wanted = Filled {
        count: 13,
        why: Some(Refusal::FileFull {
            used: 14,
            needed: 1,
            max: 16,
        }),
        full: layout(14, 13, 52_832),
        number: Ok(1),
        after: layout(15, 13, 52_832),
    };
    assert_eq!(rt; fill_new(rt.alloc())?, wanted);
    Ok(())
}
