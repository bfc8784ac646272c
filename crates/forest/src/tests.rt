use crate::answers::play_in_memory;
use crate::ending::Ending;
use crate::tell;
use block_host::MemorySource;
use host_memory::MemoryHost;
use play_run::{Played, play};
use std::alloc::{AllocError, Global};
use std::fmt::Display;
use std::io;
use std::process::Abort;
use std::sync::atomic::{AtomicUsize, Ordering};
use std::test::Fail;

const SCRIPT: &[u8] =
    b"0 set apple red\n0 get apple\n0 commit\n0 commit\n0 set apple green\n0 commit\n0 get apple\n0 get pear\n0 set pear ripe\n0 get pear\n0 commit\n0 get apple\n";

const REPLIES: &[u8] =
    b"0 1 ok 1\n0 1 found 1 red\n0 2 commit 1\n0 2 commit 1\n0 3 ok 2\n0 4 commit 2\n0 4 found 2 green\n0 4 refused not-found\n0 5 ok 3\n0 5 found 3 ripe\n0 6 commit 3\n0 6 found 2 green\n";

// The meta file's blocks, as `bench/usual_file` makes them from the format alone: of each the payload and the last 32 bytes.
const META: [(&[u8], &[u8]); 2] = [
    (
        b"\0\0\0\0\0\0\0\x01\0\0\0\0\0\0\0\x01",
        b"\
            \x05\x01\0\x10\0\0\0\0\0\0\0\0\0\0\0\0\0\0\0\0\0\0\0\0\
            \x36\x9b\x83\xde\x82\x76\xae\xbc",
    ),
    (
        b"",
        b"\0\0\0\0\0\0\0\0\0\0\0\0\0\0\0\0\0\0\0\0\0\0\0\0\0\0\0\0\0\0\0\0",
    ),
];

// Those of file 1 after the script. Each commit adds a block of records and its header.
const FILE: [(&[u8], &[u8]); 7] = [
    (
        b"\
            \0\0\0\0\0\0\0\0\0\0\0\0\0\0\0\x01\0\0\0\0\0\0\0\0\
            \0\0\0\0\0\0\0\0\0\0\0\0\0\0\0\0\
            \0\0\0\0\0\0\0\x01\0\0\0\0\0\0\0\0\
            \0\0\0\0\0\0\0\x01\0\0\0\0\0\0\0\x01\
            \0\0\0\0\0\0\0\0\x07default\0\0\0\0\0\0\0\0\0\0\0\0\0\0\0\0\0\0\0\0\0\0\0\0\
            \0\0\0\0\0\0\0\0\0\0\0\0\0\0\0\0",
        b"\
            \x04\x01\0\x80\0\0\0\0\0\0\0\0\0\0\0\x01\0\0\0\0\0\0\0\0\
            \xa5\x2b\x48\x2d\x64\xbe\xba\x84",
    ),
    (
        b"\
            \x01\0\0\x05\0\0\0\x03\0\0\0\0\0\0\0\0\0\0\0\0\0\0\0\x01\
            applered",
        b"\
            \x01\x01\0\x20\0\0\0\0\0\0\0\0\0\0\0\x01\0\0\0\0\0\0\0\x01\
            \x47\x8b\x77\xc8\xba\x85\xbd\x39",
    ),
    (
        b"\
            \0\0\0\0\0\0\0\x01\0\0\0\0\0\0\0\x02\0\0\0\0\0\0\0\x01\
            \0\0\0\0\0\0\0\0\0\0\0\0\0\0\0\0\
            \0\0\0\0\0\0\0\x01\0\0\0\0\0\0\0\x20\
            \0\0\0\0\0\0\0\x01\0\0\0\0\0\0\0\x01\
            \0\0\0\0\0\0\0\0\x07default\0\0\0\0\0\0\0\0\0\0\0\0\0\0\0\0\0\0\0\0\0\0\0\0\
            \0\0\0\0\0\0\0\x01\0\0\0\0\0\0\0\x01",
        b"\
            \x04\x01\0\x80\0\0\0\0\0\0\0\0\0\0\0\x01\0\0\0\0\0\0\0\x02\
            \x98\x65\xc6\xc6\x88\x21\x93\x60",
    ),
    (
        b"\
            \x01\0\0\x05\0\0\0\x05\0\0\0\0\0\0\0\0\0\0\0\0\0\0\0\x02\
            applegreen",
        b"\
            \x01\x01\0\x22\0\0\0\0\0\0\0\0\0\0\0\x01\0\0\0\0\0\0\0\x03\
            \x24\x4e\x4a\x9c\x76\x02\xbf\x5d",
    ),
    (
        b"\
            \0\0\0\0\0\0\0\x02\0\0\0\0\0\0\0\x03\0\0\0\0\0\0\0\x03\
            \0\0\0\0\0\0\0\0\0\0\0\0\0\0\0\0\
            \0\0\0\0\0\0\0\x01\0\0\0\0\0\0\0\x22\
            \0\0\0\0\0\0\0\x01\0\0\0\0\0\0\0\x01\
            \0\0\0\0\0\0\0\0\x07default\0\0\0\0\0\0\0\0\0\0\0\0\0\0\0\0\0\0\0\0\0\0\0\0\
            \0\0\0\0\0\0\0\x02\0\0\0\0\0\0\0\x01",
        b"\
            \x04\x01\0\x80\0\0\0\0\0\0\0\0\0\0\0\x01\0\0\0\0\0\0\0\x04\
            \xf0\x99\x4d\x76\x74\x47\x9b\x1e",
    ),
    (
        b"\
            \x01\0\0\x04\0\0\0\x04\0\0\0\0\0\0\0\0\0\0\0\0\0\0\0\x03\
            pearripe",
        b"\
            \x01\x01\0\x20\0\0\0\0\0\0\0\0\0\0\0\x01\0\0\0\0\0\0\0\x05\
            \xe7\x51\x5a\x97\x87\x98\xe7\xa8",
    ),
    (
        b"\
            \0\0\0\0\0\0\0\x03\0\0\0\0\0\0\0\x04\0\0\0\0\0\0\0\x05\
            \0\0\0\0\0\0\0\0\0\0\0\0\0\0\0\0\
            \0\0\0\0\0\0\0\x01\0\0\0\0\0\0\0\x42\
            \0\0\0\0\0\0\0\x01\0\0\0\0\0\0\0\x01\
            \0\0\0\0\0\0\0\0\x07default\0\0\0\0\0\0\0\0\0\0\0\0\0\0\0\0\0\0\0\0\0\0\0\0\
            \0\0\0\0\0\0\0\x03\0\0\0\0\0\0\0\x02",
        b"\
            \x04\x01\0\x80\0\0\0\0\0\0\0\0\0\0\0\x01\0\0\0\0\0\0\0\x06\
            \xb4\xae\xff\x55\xc4\xa9\x08\xce",
    ),
];

// In each row the host's call of the first number fails, or the view's read of the second, or the source's read of the
// third, each counted from 1; 0 is none. Wanted are the status, how many replies are said, and how many blocks of `FILE`
// are left.
//
// The host is asked five times for the files of a new store, and then for a view. Each line says its reply. A commit with
// something new first appends its records, syncs, appends its header, syncs and renews the view. The view is read where
// a key is got whose record isn't in the open block: in the seventh and in the last line. The source gives the script's 144
// bytes in 15 reads of ten bytes at most, and one more finds its end; all lines that are whole by then were run. In the
// last row no number is reached.
const FAULTS: [(u64, u64, u64, u8, usize, usize); 52] = [
    (1, 0, 0, 4, 0, 1),
    (2, 0, 0, 4, 0, 1),
    (3, 0, 0, 4, 0, 1),
    (4, 0, 0, 4, 0, 1),
    (5, 0, 0, 4, 0, 1),
    (6, 0, 0, 4, 0, 1),
    (7, 0, 0, 4, 0, 1),
    (8, 0, 0, 4, 1, 1),
    (9, 0, 0, 4, 2, 1),
    (10, 0, 0, 4, 2, 2),
    (11, 0, 0, 4, 2, 2),
    (12, 0, 0, 4, 2, 3),
    (13, 0, 0, 4, 2, 3),
    (14, 0, 0, 4, 2, 3),
    (15, 0, 0, 4, 3, 3),
    (16, 0, 0, 4, 4, 3),
    (17, 0, 0, 4, 5, 3),
    (18, 0, 0, 4, 5, 4),
    (19, 0, 0, 4, 5, 4),
    (20, 0, 0, 4, 5, 5),
    (21, 0, 0, 4, 5, 5),
    (22, 0, 0, 4, 5, 5),
    (23, 0, 0, 4, 6, 5),
    (24, 0, 0, 4, 7, 5),
    (25, 0, 0, 4, 8, 5),
    (26, 0, 0, 4, 9, 5),
    (27, 0, 0, 4, 10, 5),
    (28, 0, 0, 4, 10, 6),
    (29, 0, 0, 4, 10, 6),
    (30, 0, 0, 4, 10, 7),
    (31, 0, 0, 4, 10, 7),
    (32, 0, 0, 4, 10, 7),
    (33, 0, 0, 4, 11, 7),
    (0, 1, 0, 4, 6, 5),
    (0, 2, 0, 4, 11, 7),
    (0, 0, 1, 2, 0, 1),
    (0, 0, 2, 2, 0, 1),
    (0, 0, 3, 2, 1, 1),
    (0, 0, 4, 2, 2, 1),
    (0, 0, 5, 2, 3, 3),
    (0, 0, 6, 2, 4, 3),
    (0, 0, 7, 2, 4, 3),
    (0, 0, 8, 2, 5, 3),
    (0, 0, 9, 2, 6, 5),
    (0, 0, 10, 2, 7, 5),
    (0, 0, 11, 2, 8, 5),
    (0, 0, 12, 2, 8, 5),
    (0, 0, 13, 2, 9, 5),
    (0, 0, 14, 2, 10, 5),
    (0, 0, 15, 2, 11, 7),
    (0, 0, 16, 2, 12, 7),
    (34, 3, 17, 0, 12, 7),
];

fn run(
    alloc: Global,
    source: &mut MemorySource,
    host: MemoryHost,
) -> Result<Played<MemoryHost>, AllocError> {
    let words = vec![in alloc;
        String::from_str(alloc, "play")?,
        String::from_str(alloc, "--memory")?,
    ]?;
    Ok(play(alloc, words.as_slice(), source, host))
}

fn run_with_faults(
    alloc: Global,
    call: u64,
    view: u64,
    read: u64,
) -> Result<Played<MemoryHost>, AllocError> {
    let mut host = MemoryHost::formatted(alloc)?;
    host.fail_calls(&[call], &[view], &[])?;
    let mut source = MemorySource::new(SCRIPT.to_vec(alloc)?).with_step(10);
    source.fail_read(read);
    run(alloc, &mut source, host)
}

// The first of these lines, so many.
fn first_lines(text: &[u8], count: usize) -> &[u8] {
    let mut left = count;
    let mut end: usize = 0;
    for byte in text {
        if left == 0 {
            break;
        }
        if *byte == b'\n' {
            left -= 1;
        }
        end = end.saturating_add(1);
    }
    text.get(..end).unwrap_or_default()
}

// So many replies, and the source's fault where the status tells it.
fn wanted_said(alloc: Global, replies: usize, status: u8) -> Result<Vec<u8>, AllocError> {
    let mut said = first_lines(REPLIES, replies).to_vec(alloc)?;
    if status == 2 {
        said.extend_from_slice(b"source fault\n")?;
    }
    Ok(said)
}

// A block has this payload, zeros behind it, and these last 32 bytes.
fn is_block(host: &MemoryHost, file: u64, at: u64, payload: &[u8], last: &[u8]) -> bool {
    let Some(block) = host.block(file, at) else {
        return false;
    };
    let behind = block.bytes.get(payload.len()..4064).unwrap_or_default();
    block.bytes.get(..payload.len()) == Some(payload)
        && behind.iter().all(|byte| *byte == 0)
        && block.bytes.get(4064..) == Some(last)
}

// A file has these blocks and no others.
fn is_file(host: &MemoryHost, file: u64, blocks: &[(&[u8], &[u8])]) -> bool {
    let mut at: u64 = 0;
    for (payload, last) in blocks {
        if !is_block(host, file, at, payload, last) {
            return false;
        }
        at = at.saturating_add(1);
    }
    host.block(file, at).is_none()
}

// The host has the meta file and the first blocks of `FILE`, so many, and no other file behind these.
fn has_files(host: &MemoryHost, count: usize) -> bool {
    is_file(host, 0, &META)
        && is_file(host, 1, FILE.get(..count).unwrap_or_default())
        && host.block(2, 0).is_none()
}

#[test]
fn each_call_of_the_host_and_each_read_of_the_source_fails(rt: HostRuntime) -> Result<(), Fail> {
    for (call, view, read, status, replies, blocks) in FAULTS {
        let played = run_with_faults(rt.alloc(), call, view, read)?;
        let said = wanted_said(rt.alloc(), replies, status)?;
        assert_eq!(rt;
            played.status,
            status,
            "at call {call}, view {view}, read {read}"
        );
        assert_eq!(rt;
            played.host.said(),
            said.as_slice(),
            "at call {call}, view {view}, read {read}"
        );
        assert!(rt;
            has_files(&played.host, blocks),
            "at call {call}, view {view}, read {read}"
        );
    }
    Ok(())
}

#[test]
fn the_first_sync_of_a_commit_fails(rt: HostRuntime) -> Result<(), Fail> {
    let alloc = rt.alloc();
    let mut host = MemoryHost::formatted(alloc)?;
    host.fail_calls(&[9], &[], &[])?;
    let mut source = MemorySource::new(b"0 set a 1\n0 commit\n".to_vec(alloc)?);
    let played = run(alloc, &mut source, host)?;
    assert_eq!(rt; played.status, 4);
    assert_eq!(rt; played.host.said(), b"0 1 ok 1\n".as_slice());
    Ok(())
}

#[test]
fn the_file_of_usual_use(rt: HostRuntime) -> Result<(), Fail> {
    let alloc = rt.alloc();
    let mut source = MemorySource::new(b"0 set apple red\n0 commit\n0 get apple\n".to_vec(alloc)?);
    let played = run(alloc, &mut source, MemoryHost::formatted(alloc)?)?;
    assert!(rt; has_files(&played.host, 3));
    Ok(())
}

// An output that may be closed. It counts how often it was given just these bytes, and how often the usage was told.
#[derive(Drop)]
struct Output<'a> {
    wanted: &'a [u8],
    closed: bool,
    right: AtomicUsize,
    usage: AtomicUsize,
}

impl Print for Output<'_> {
    fn print<D: Display + Drop>(&self, _value: D) -> io::Result<()> {
        Ok(())
    }

    fn println<D: Display + Drop>(&self, _value: D) -> io::Result<()> {
        Ok(())
    }

    fn write_all(&self, bytes: &[u8]) -> io::Result<()> {
        if self.closed {
            return Err(io::Error::from(io::ErrorKind::BrokenPipe));
        }
        if bytes == self.wanted {
            self.right.fetch_add(1, Ordering::SeqCst);
        }
        Ok(())
    }
}

impl Eprint for Output<'_> {
    fn eprint<D: Display + Drop>(&self, _value: D) -> io::Result<()> {
        self.usage.fetch_add(1, Ordering::SeqCst);
        Ok(())
    }

    fn eprintln<D: Display + Drop>(&self, _value: D) -> io::Result<()> {
        Ok(())
    }
}

// Runs a script by the first of these words, so many.
fn end_of(
    alloc: Global,
    count: usize,
    script: &[u8],
    output: &Output<'_>,
) -> Result<Ending, AllocError> {
    let words = vec![in alloc;
        String::from_str(alloc, "play")?,
        String::from_str(alloc, "--memory")?,
        String::from_str(alloc, "more")?,
    ]?;
    let mut source = MemorySource::new(script.to_vec(alloc)?);
    let host = MemoryHost::formatted(alloc)?;
    let given = words.get(..count).unwrap_or_default();
    let played = play_in_memory(alloc, given, &mut source, host);
    Ok(tell(output, played))
}

// The exit status, how often just these bytes were written, and how often the usage was told.
fn ends(
    alloc: Global,
    count: usize,
    script: &[u8],
    closed: bool,
    wanted: &[u8],
) -> Result<(u8, usize, usize), AllocError> {
    let output = Output {
        wanted,
        closed,
        right: AtomicUsize::new(0),
        usage: AtomicUsize::new(0),
    };
    let ending = end_of(alloc, count, script, &output)?;
    Ok((
        ending.status,
        output.right.load(Ordering::SeqCst),
        output.usage.load(Ordering::SeqCst),
    ))
}

#[test]
fn a_bad_line(rt: HostRuntime) -> Result<(), Fail> {
    let script = b"0 set a 1\n0 fly\n0 get a\n";
    let wanted = b"0 1 ok 1\nline 2: bad line\n";
    assert_eq!(rt; ends(rt.alloc(), 2, script, false, wanted)?, (3, 1, 0));
    Ok(())
}

#[test]
fn a_word_too_many_or_too_few(rt: HostRuntime) -> Result<(), Fail> {
    let wanted = b"words refused\n";
    assert_eq!(rt;
        ends(rt.alloc(), 3, b"0 commit\n", false, wanted)?,
        (1, 1, 1)
    );
    assert_eq!(rt;
        ends(rt.alloc(), 1, b"0 commit\n", false, wanted)?,
        (1, 1, 1)
    );
    Ok(())
}

#[test]
fn an_empty_input(rt: HostRuntime) -> Result<(), Fail> {
    assert_eq!(rt; ends(rt.alloc(), 2, b"", false, b"")?, (0, 1, 0));
    Ok(())
}

#[test]
fn a_closed_output(rt: HostRuntime) -> Result<(), Fail> {
    assert_eq!(rt; ends(rt.alloc(), 2, b"0 set a 1\n", true, b"")?, (4, 0, 0));
    assert_eq!(rt; ends(rt.alloc(), 3, b"0 set a 1\n", true, b"")?, (4, 0, 1));
    Ok(())
}
