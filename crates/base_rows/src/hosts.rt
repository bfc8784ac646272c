use block_host::{Block, Failed, Fresh, Host, View, seal};
use host_memory::{MemoryHost, Pick};
use std::alloc::Global;
use std::test::Fail;

// A block of file 1 that holds its own number.
fn numbered(at: u64) -> Block {
    seal(1, 1, at, &at.to_be_bytes())
}

// Puts two blocks into file 1, and both on the disk.
fn put_two<H: Host>(host: &mut H) -> Result<(), Failed> {
    host.append(1, &[numbered(0), numbered(1)])?;
    host.sync(1)
}

// A host with these two blocks.
fn two_blocks(alloc: Global) -> Result<MemoryHost, Fail> {
    let mut host = MemoryHost::empty(alloc)?;
    put_two(&mut host)?;
    Ok(host)
}

// The number of blocks of a file, and whether its last is as it was written.
fn shape<H: Host>(host: &mut H, file: u64) -> Result<(u64, bool), Failed> {
    let size = host.size(file)?;
    let mut last = Block::zeros();
    if size > 0 {
        host.read(file, size - 1, &mut last)?;
    }
    Ok((size, last.bytes[4064] != 0))
}

// Makes a file of one block outside the host, and tells whether it reads as it was written.
fn fill<F: Fresh>(fresh: &mut F) -> bool {
    let mut out = Block::zeros();
    (fresh.append(&[numbered(0)]), fresh.size()) == (Ok(()), 1)
        && fresh.read(0, &mut out) == Ok(())
        && out == numbered(0)
}

// Whether the file is settled and adopted.
fn settle<H: Host>(host: &mut H, fresh: H::Fresh) -> Result<bool, Failed> {
    match fresh.sync() {
        Ok(settled) => host.adopt(settled).map(|_| true),
        Err(fresh) => {
            host.absorb_fresh(fresh);
            Ok(false)
        }
    }
}

// Whether a file is cut, and a slot put into the meta file.
fn is_cut_and_put<H: Host>(host: &mut H) -> bool {
    (shape(host, 1), host.next_file(0)) == (Ok((2, true)), Ok(Some(1)))
        && (host.cut(1, 1), host.put(1, &seal(5, 0, 1, b"slot"))) == (Ok(()), Ok(()))
        && (shape(host, 1), shape(host, 0)) == (Ok((1, true)), Ok((2, true)))
}

// Whether file 2 is made and adopted.
fn is_made<H: Host>(host: &mut H) -> Result<bool, Failed> {
    let mut fresh = host.fresh(2)?;
    let filled = fill(&mut fresh);
    let settled = settle(host, fresh);
    Ok(filled && settled == Ok(true))
}

// Whether file 2 is made, and then file 1 removed.
fn is_made_and_removed<H: Host>(host: &mut H) -> bool {
    (is_made(host), host.next_file(1)) == (Ok(true), Ok(Some(2)))
        && (host.remove(1), host.next_file(0)) == (true, Ok(Some(2)))
}

// Whether two texts are said, and nothing has failed.
fn says_two<H: Host>(host: &mut H) -> bool {
    (host.say(b"ab"), host.say(b"c"), host.faults()) == (Ok(()), Ok(()), 0)
}

// Whether what is said is kept, and nothing has failed.
fn has_said(host: &MemoryHost) -> bool {
    host.said() == b"abc".as_slice() && (host.faults(), host.short()) == (0, 0)
}

fn calls_are_right(host: &mut MemoryHost) -> bool {
    is_cut_and_put(host) && is_made_and_removed(host) && says_two(host) && has_said(host)
}

#[test]
fn files_hold_what_calls_leave(rt: HostRuntime) -> Result<(), Fail> {
    assert!(rt; calls_are_right(&mut two_blocks(rt.alloc())?));
    Ok(())
}

// Whether the view gives this block.
fn gives<V: View>(view: &mut V, at: u64, wanted: &Block) -> bool {
    let mut out = Block::zeros();
    view.read(at, &mut out) == Ok(()) && out == *wanted
}

// Whether the view has a new block once it is renewed, and not before.
fn sees_when_renewed<H: Host>(host: &mut H, view: &mut H::View, at: u64) -> bool {
    (host.append(1, &[numbered(at)]), view.size()) == (Ok(()), at)
        && gives(view, at, &Block::zeros())
        && host.renew(1, view) == Ok(())
        && gives(view, at, &numbered(at))
}

// The same for each of the blocks up to 600.
fn sees_each<H: Host>(host: &mut H, view: &mut H::View) -> bool {
    for at in 2..600 {
        if !sees_when_renewed(host, view, at) {
            return false;
        }
    }
    true
}

// Whether the view keeps blocks that are cut and written anew until it is renewed.
fn keeps<H: Host>(host: &mut H, view: &mut H::View) -> bool {
    (
        host.cut(1, 300),
        host.append(1, &[numbered(7), numbered(8)]),
    ) == (Ok(()), Ok(()))
        && gives(view, 300, &numbered(300))
        && (host.renew(1, view), view.size()) == (Ok(()), 302)
        && gives(view, 299, &numbered(299))
        && gives(view, 301, &numbered(8))
}

// Both of a new view.
fn new_view_keeps<H: Host>(host: &mut H) -> Result<bool, Failed> {
    let mut view = host.view(1)?;
    let seen = sees_each(host, &mut view);
    let kept = keeps(host, &mut view);
    host.absorb_view(view);
    Ok(seen && kept)
}

#[test]
fn a_view_keeps_its_blocks_until_it_is_renewed(rt: HostRuntime) -> Result<(), Fail> {
    assert_eq!(rt; new_view_keeps(&mut two_blocks(rt.alloc())?), Ok(true));
    Ok(())
}

#[derive(Clone, Copy, Debug)]
enum Call {
    Size,
    Read,
    Append,
    Put,
    Cut,
    Sync,
    NextFile,
    View,
    Renew,
    Fresh,
    Adopt,
    Remove,
    Say,
}

// A view that is renewed at once.
fn renew<H: Host>(host: &mut H) -> Result<(), Failed> {
    let mut view = host.view(1)?;
    host.renew(1, &mut view)
}

// File 1 made anew with four blocks.
fn adopt<H: Host>(host: &mut H) -> Result<(), Failed> {
    let mut fresh = host.fresh(1)?;
    fresh.append(&[numbered(0), numbered(1), numbered(2), numbered(3)])?;
    match settle(host, fresh)? {
        true => Ok(()),
        false => Err(Failed),
    }
}

// A block put and brought to the disk.
fn sync<H: Host>(host: &mut H) -> Result<(), Failed> {
    host.append(1, &[numbered(2)])?;
    host.sync(1)
}

// The call, on file 1 or on the meta file, and before it what it needs.
fn make<H: Host>(host: &mut H, call: Call) -> Result<(), Failed> {
    match call {
        Call::Size => host.size(1).map(|_| ()),
        Call::Read => host.read(1, 0, &mut Block::zeros()),
        Call::Append => host.append(1, &[numbered(2)]),
        Call::Put => host.put(0, &seal(5, 0, 0, b"slot")),
        Call::Cut => host.cut(1, 1),
        Call::Sync => sync(host),
        Call::NextFile => host.next_file(0).map(|_| ()),
        Call::View => host.view(1).map(|_| ()),
        Call::Renew => renew(host),
        Call::Fresh => host.fresh(1).map(|_| ()),
        Call::Adopt => adopt(host),
        Call::Remove => match host.remove(1) {
            true => Ok(()),
            false => Err(Failed),
        },
        Call::Say => host.say(b"x"),
    }
}

// The host that a crash leaves after a call on two blocks.
fn crashed(alloc: Global, call: Call, pick: Pick) -> Result<MemoryHost, Fail> {
    let mut host = two_blocks(alloc)?;
    make(&mut host, call)?;
    Ok(host.reopen(pick))
}

// Whether a file has this shape, and no tenth block.
fn has_shape(host: &mut MemoryHost, file: u64, wanted: (u64, bool)) -> bool {
    shape(host, file) == Ok(wanted) && host.block(file, 9).is_none()
}

// A call, a file, and its length and whether its last block is whole after a crash, by each pick.
#[derive(Clone, Copy, Debug)]
struct Crash {
    call: Call,
    file: u64,
    before: (u64, bool),
    written: (u64, bool),
    torn: (u64, bool),
}

fn leaves(alloc: Global, row: Crash, pick: Pick, wanted: (u64, bool)) -> Result<bool, Fail> {
    Ok(has_shape(&mut crashed(alloc, row.call, pick)?, row.file, wanted))
}

fn each_leaves(alloc: Global, row: Crash) -> Result<bool, Fail> {
    Ok(
        leaves(alloc, row, Pick::Before, row.before)?
            && leaves(alloc, row, Pick::Written, row.written)?
            && leaves(alloc, row, Pick::Torn, row.torn)?,
    )
}

fn row(
    call: Call,
    file: u64,
    before: (u64, bool),
    written: (u64, bool),
    torn: (u64, bool),
) -> Crash {
    Crash {
        call,
        file,
        before,
        written,
        torn,
    }
}

#[test]
fn a_crash_leaves_what_is_picked(rt: HostRuntime) -> Result<(), Fail> {
    let rows = [
        row(Call::Append, 1, (2, true), (3, true), (3, false)),
        row(Call::Put, 0, (0, false), (2, false), (2, false)),
        row(Call::Cut, 1, (2, true), (1, true), (1, true)),
        row(Call::Sync, 1, (3, true), (3, true), (3, true)),
        row(Call::Adopt, 1, (2, true), (4, true), (4, true)),
        row(Call::Remove, 1, (2, true), (0, false), (0, false)),
        row(Call::Fresh, 1, (2, true), (2, true), (2, true)),
    ];
    for row in rows {
        assert!(rt; each_leaves(rt.alloc(), row)?, "{row:?}");
    }
    Ok(())
}

// Whether the call fails once, with so many faults, and not again.
fn fails_once(host: &mut MemoryHost, call: Call, faults: u64) -> bool {
    make(host, call) == Err(Failed)
        && (host.faults(), host.short()) == (faults, 0)
        && make(host, call) == Ok(())
}

// The same on a host whose call of this number is to fail.
fn fails_by(alloc: Global, call: Call, number: u64, faults: u64) -> Result<bool, Fail> {
    let mut host = MemoryHost::empty(alloc)?;
    host.fail_calls(&[number], &[], &[])?;
    Ok(fails_once(&mut host, call, faults))
}

#[test]
fn each_call_fails_by_its_number(rt: HostRuntime) -> Result<(), Fail> {
    let first = [
        Call::Size,
        Call::Read,
        Call::Append,
        Call::Put,
        Call::Cut,
        Call::NextFile,
        Call::View,
        Call::Fresh,
        Call::Say,
    ];
    for call in first {
        assert!(rt; fails_by(rt.alloc(), call, 1, 1)?, "{call:?}");
    }
    for call in [Call::Sync, Call::Renew, Call::Adopt] {
        assert!(rt; fails_by(rt.alloc(), call, 2, 1)?, "{call:?}");
    }
    // to leave a file where it is is no fault
    assert!(rt; fails_by(rt.alloc(), Call::Remove, 1, 0)?);
    Ok(())
}

// Whether the first read alone fails.
fn first_read_fails<V: View>(view: &mut V) -> bool {
    let mut out = Block::zeros();
    (view.read(0, &mut out), view.read(0, &mut out)) == (Err(Failed), Ok(()))
}

// The same of a new view, which is taken back.
fn new_view_fails<H: Host>(host: &mut H) -> Result<bool, Failed> {
    host.append(1, &[numbered(0)])?;
    let mut view = host.view(1)?;
    let failed = first_read_fails(&mut view);
    host.absorb_view(view);
    Ok(failed)
}

// Whether all calls but the first fail.
fn later_calls_fail<F: Fresh>(fresh: &mut F) -> bool {
    (fresh.append(&[numbered(0)]), fresh.append(&[numbered(1)])) == (Ok(()), Err(Failed))
        && fresh.read(0, &mut Block::zeros()) == Err(Failed)
}

// The same of a new file, which isn't settled either.
fn new_file_fails<H: Host>(host: &mut H) -> Result<bool, Failed> {
    let mut fresh = host.fresh(2)?;
    let failed = later_calls_fail(&mut fresh);
    let settled = settle(host, fresh);
    Ok(failed && settled == Ok(false))
}

// Whether the host counts what fails in a view and in a new file.
fn failures_are_counted<H: Host>(host: &mut H) -> bool {
    (new_view_fails(host), host.faults()) == (Ok(true), 1)
        && (new_file_fails(host), host.faults()) == (Ok(true), 2)
        && host.size(2) == Ok(0)
}

#[test]
fn calls_of_views_and_fresh_files_fail_by_their_numbers(rt: HostRuntime) -> Result<(), Fail> {
    let mut host = MemoryHost::empty(rt.alloc())?;
    host.fail_calls(&[], &[1], &[2, 3, 4])?;
    assert!(rt; failures_are_counted(&mut host));
    Ok(())
}

// Whether one call is done and then no other.
fn one_is_done<H: Host>(host: &mut H) -> bool {
    (host.size(1), host.size(1), host.say(b"x")) == (Ok(2), Err(Failed), Err(Failed))
}

// Whether two calls have failed, and nothing was said.
fn is_silent(host: &MemoryHost) -> bool {
    host.said() == b"".as_slice() && (host.faults(), host.short()) == (2, 0)
}

// Whether both blocks are there, and a block is spoiled and the one behind it not.
fn is_spoiled(host: &mut MemoryHost) -> bool {
    let shape = shape(host, 1);
    host.spoil(1, 0);
    shape == Ok((2, true))
        && host.block(1, 0) == Some(&Block::zeros())
        && host.block(1, 1) == Some(&numbered(1))
}

fn is_stopped(host: &mut MemoryHost) -> bool {
    one_is_done(host) && is_silent(host)
}

// The host with two blocks that makes one call more and then none.
fn stopping(alloc: Global) -> Result<MemoryHost, Fail> {
    let mut host = two_blocks(alloc)?;
    host.stop_after(3);
    Ok(host)
}

#[test]
fn calls_fail_after_the_last_that_is_to_be_done(rt: HostRuntime) -> Result<(), Fail> {
    let mut host = stopping(rt.alloc())?;
    assert!(rt; is_stopped(&mut host));
    assert!(rt; is_spoiled(&mut host.reopen(Pick::Written)));
    Ok(())
}

// Whether the block's last bytes, the first 8 bytes of SHA-256 of those before, are these, which another program computed.
fn has_checksum<H: Host>(host: &mut H, file: u64, sum: &[u8]) -> bool {
    let mut block = Block::zeros();
    host.read(file, 0, &mut block) == Ok(()) && &block.bytes[4088..] == sum
}

// Whether the header has the store's name.
fn has_name<H: Host>(host: &mut H) -> bool {
    let mut block = Block::zeros();
    host.read(1, 0, &mut block) == Ok(()) && &block.bytes[80..88] == b"\x07default".as_slice()
}

// Whether there are the two slots, the header and no other file.
fn is_new<H: Host>(host: &mut H) -> bool {
    (shape(host, 0), host.size(1), host.next_file(1)) == (Ok((2, false)), Ok(1), Ok(None))
}

fn is_formatted(host: &mut MemoryHost) -> bool {
    let slot = [54, 155, 131, 222, 130, 118, 174, 188];
    let header = [165, 43, 72, 45, 100, 190, 186, 132];
    has_checksum(host, 0, &slot)
        && has_checksum(host, 1, &header)
        && has_name(host)
        && is_new(host)
        && host.said() == b"".as_slice()
}

#[test]
fn a_new_store_has_its_slot_and_its_header(rt: HostRuntime) -> Result<(), Fail> {
    assert!(rt; is_formatted(&mut MemoryHost::formatted(rt.alloc())?));
    Ok(())
}
