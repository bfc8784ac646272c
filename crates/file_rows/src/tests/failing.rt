use super::calls::{by_seq, closed, commit, get, info, opened, place, set};
use super::{DEFAULT, USUAL};
use block_host::Host;
use file_core::FileState;
use forest_model::{Found, Info, Refusal};
use host_memory::MemoryHost;
use std::alloc::Global;
use std::test::Fail;

// What a commit answers whose host fails, and what is told and answered after it.
#[derive(Debug, Drop, PartialEq, Eq)]
struct Stopped {
    number: Result<u64, Refusal>,
    by_key: Result<Found, Refusal>,
    by_seq: Result<Found, Refusal>,
    info: Result<Info, Refusal>,
    set: Result<u64, Refusal>,
    again: Result<u64, Refusal>,
}

fn commit_and_go_on<H: Host>(file: &mut FileState<H>) -> Stopped {
    let _set = set(file, &DEFAULT, b"apple", b"red");
    Stopped {
        number: commit(file, &DEFAULT),
        by_key: get(file, &DEFAULT, b"apple"),
        by_seq: by_seq(file, &DEFAULT, 1),
        info: info(file, &DEFAULT),
        set: set(file, &DEFAULT, b"apple", b"green"),
        again: commit(file, &DEFAULT),
    }
}

// The same where the call of the host with this number fails, with its count of faults in the end. Opening makes the
// first call, and a commit those behind it: an append, a sync, an append, a sync and a renewal of the view.
fn failing(alloc: Global, number: u64) -> Result<(Stopped, u64), Fail> {
    let mut host = MemoryHost::formatted(alloc)?;
    host.fail_calls(&[number], &[], &[])?;
    let mut file = opened(alloc, host, USUAL)?;
    let told = commit_and_go_on(&mut file);
    let host = closed(file);
    Ok((told, Host::faults(&host)))
}

#[test]
fn a_commit_that_fails_stops_the_file(rt: HostRuntime) -> Result<(), Fail> {
    let why = Refusal::Stopped { faults: 1 };
    let wanted = Stopped {
        number: Err(Refusal::DiskFault),
        by_key: Err(why),
        by_seq: Err(why),
        info: Err(why),
        set: Err(why),
        again: Err(why),
    };
    for number in 2..7 {
        let (told, faults) = failing(rt.alloc(), number)?;
        assert_eq!(rt; told, wanted, "{number}");
        assert_eq!(rt; faults, 1);
    }
    Ok(())
}

#[test]
fn a_host_that_fails_at_opening_is_handed_back(rt: HostRuntime) -> Result<(), Fail> {
    let mut host = MemoryHost::formatted(rt.alloc())?;
    host.fail_calls(&[1], &[], &[])?;
    let why = match opened(rt.alloc(), host, USUAL) {
        Ok(file) => {
            let _host = closed(file);
            None
        }
        Err(why) => Some(why),
    };
    assert_eq!(rt; why, Some(Refusal::DiskFault));
    Ok(())
}

// What a read answers, and what is answered after it.
#[derive(Debug, Drop, PartialEq, Eq)]
struct Read {
    found: Result<Found, Refusal>,
    by_key: Result<Found, Refusal>,
    by_seq: Result<Found, Refusal>,
    info: Result<Info, Refusal>,
    set: Result<u64, Refusal>,
    number: Result<u64, Refusal>,
    updates: u64,
}

fn read_and_go_on<H: Host>(file: &mut FileState<H>, by_number: bool) -> Read {
    Read {
        found: if by_number {
            by_seq(file, &DEFAULT, 1)
        } else {
            get(file, &DEFAULT, b"apple")
        },
        by_key: get(file, &DEFAULT, b"apple"),
        by_seq: by_seq(file, &DEFAULT, 1),
        info: info(file, &DEFAULT),
        set: set(file, &DEFAULT, b"apple", b"green"),
        number: commit(file, &DEFAULT),
        updates: place(file).1,
    }
}

// After a read that is refused so, all is refused as stopped. The host hasn't failed, and the set and the commit before the
// read are the two updates.
fn stopped_by(why: Refusal) -> Read {
    let stopped = Refusal::Stopped { faults: 0 };
    Read {
        found: Err(why),
        by_key: Err(stopped),
        by_seq: Err(stopped),
        info: Err(stopped),
        set: Err(stopped),
        number: Err(stopped),
        updates: 2,
    }
}

#[test]
fn a_view_that_fails_stops_the_file(rt: HostRuntime) -> Result<(), Fail> {
    for by_number in [false, true] {
        let mut host = MemoryHost::formatted(rt.alloc())?;
        host.fail_calls(&[], &[1], &[])?;
        let mut file = opened(rt.alloc(), host, USUAL)?;
        let _set = set(&mut file, &DEFAULT, b"apple", b"red");
        let _number = commit(&mut file, &DEFAULT);
        let told = read_and_go_on(&mut file, by_number);
        assert_eq!(rt; told, stopped_by(Refusal::DiskFault), "{by_number}");
        assert_eq!(rt; file.parts.damaged, None);
        // the host counts the view's fault when it takes it back
        assert_eq!(rt; Host::faults(&closed(file)), 1);
    }
    Ok(())
}

#[test]
fn a_damaged_block_stops_the_file(rt: HostRuntime) -> Result<(), Fail> {
    for by_number in [false, true] {
        let mut file = opened(rt.alloc(), MemoryHost::formatted(rt.alloc())?, USUAL)?;
        let _set = set(&mut file, &DEFAULT, b"apple", b"red");
        let _number = commit(&mut file, &DEFAULT);
        // the blocks of file 1 aren't sealed as those of file 2
        file.parts.revision = 2;
        let told = read_and_go_on(&mut file, by_number);
        let why = Refusal::Damaged { file: 2, block: 1 };
        assert_eq!(rt; told, stopped_by(why), "{by_number}");
        assert_eq!(rt; file.parts.damaged, Some((2, 1)));
        assert_eq!(rt; Host::faults(&closed(file)), 0);
    }
    Ok(())
}
