ghost use Rattle.script_text.specs.Replies.{CanBeSaid};

use crate::listener::Listener;
use crate::{Played, play};
use block_host::{Failed, Host, MemorySource, Source};
use forest_model::{Refusal, Said};
use script_text::reply_text;
use std::alloc::{AllocError, Global};
use std::sync::Arc;
use std::sync::atomic::{AtomicUsize, Ordering};
use std::test::Fail;

fn words(alloc: Global) -> Result<Vec<String>, AllocError> {
    Ok(vec![in alloc;
        String::from_str(alloc, "play")?,
        String::from_str(alloc, "--memory")?,
    ]?)
}

fn run_from<S: Source>(
    alloc: Global,
    source: &mut S,
    fails_at: u64,
) -> Result<Played<Listener>, AllocError> {
    let mut host = Listener::new(alloc)?;
    host.fails_at = fails_at;
    let words = words(alloc)?;
    Ok(play(alloc, words.as_slice(), source, host))
}

// Gives a piece at each read, and tests that all before it was answered: the bytes said are these so far.
#[derive(Drop)]
struct Asking<'a> {
    pieces: &'a [(&'a [u8], usize)],
    next: usize,
    heard: Arc<AtomicUsize>,
    late: u64,
}

impl Source for Asking<'_> {
    ghost use Rattle.std.specs.Prelude.{[], false};

    ghost tells = { false };

    ghost rest = { λ _. [] };

    ghost faults = { λ _. 0 };

    fn read(&mut self, room: &mut [u8]) -> Result<usize, Failed> {
        let Some((piece, said)) = self.pieces.get(self.next) else {
            return Ok(0);
        };
        if self.heard.load(Ordering::SeqCst) != *said {
            self.late = self.late.saturating_add(1);
        }
        self.next = self.next.saturating_add(1);
        let count = piece.len().min(room.len());
        room[..count].copy_from_slice(&piece[..count]);
        Ok(count)
    }
}

#[test]
fn lines_are_answered_as_they_become_whole(rt: HostRuntime) -> Result<(), Fail> {
    let alloc = rt.alloc();
    let host = Listener::new(alloc)?;
    let heard = host.heard.clone()?;
    // each piece, and how many bytes were said before it is asked for
    let pieces: [(&[u8], usize); 6] = [
        (b"0 set a 1", 0),
        (b"\n", 0),
        (b"0 get a\n0 com", 9),
        (b"mit\n", 23),
        (b"0 get a\n0 get b\n0", 36),
        (b" commit\n", 72),
    ];
    let mut source = Asking {
        pieces: pieces.as_slice(),
        next: 0,
        heard,
        late: 0,
    };
    let words = words(alloc)?;
    let played = play(alloc, words.as_slice(), &mut source, host);
    assert_eq!(rt; played.status, 0);
    assert_eq!(rt; source.next, 6);
    assert_eq!(rt; source.late, 0);
    assert_eq!(rt;
        played.host.said.as_slice(),
        b"0 1 ok 1\n0 1 found 1 1\n0 2 commit 1\n0 2 found 1 1\n0 2 refused not-found\n0 2 commit 1\n".as_slice()
    );
    Ok(())
}

#[test]
fn a_source_and_a_host_that_fail(rt: HostRuntime) -> Result<(), Fail> {
    let alloc = rt.alloc();
    let mut source = MemorySource::new(b"0 set a 1\n0 get a\n".to_vec(alloc)?).with_step(10);
    source.fail_read(2);
    let played = run_from(alloc, &mut source, 0)?;
    assert_eq!(rt; played.status, 2);
    assert_eq!(rt;
        played.host.said.as_slice(),
        b"0 1 ok 1\nsource fault\n".as_slice()
    );
    let mut source = MemorySource::new(b"0 set a 1\n0 get a\n0 commit\n".to_vec(alloc)?);
    let played = run_from(alloc, &mut source, 2)?;
    assert_eq!(rt; played.status, 4);
    assert_eq!(rt; played.host.said.as_slice(), b"0 1 ok 1\n".as_slice());
    assert_eq!(rt; Host::faults(&played.host), 1);
    Ok(())
}

// A run that meets a damaged block, where saying fails at the call of this number; 0 where none does.
fn run_to_damage(alloc: Global, fails_at: u64) -> Result<Played<Listener>, AllocError> {
    let mut host = Listener::new(alloc)?;
    host.spoiled = 1;
    host.fails_at = fails_at;
    let words = words(alloc)?;
    let script = b"0 set a 1\n0 get a\n0 commit\n0 get a\n0 get a\n";
    let mut source = MemorySource::new(script.to_vec(alloc)?);
    Ok(play(alloc, words.as_slice(), &mut source, host))
}

#[test]
fn a_damaged_block_ends_the_run(rt: HostRuntime) -> Result<(), Fail> {
    let played = run_to_damage(rt.alloc(), 0)?;
    assert_eq!(rt; played.status, 6);
    assert_eq!(rt;
        played.host.said.as_slice(),
        b"0 1 ok 1\n0 1 found 1 1\n0 2 commit 1\ndamaged 1 1\n".as_slice()
    );
    assert_eq!(rt; Host::faults(&played.host), 0);
    let played = run_to_damage(rt.alloc(), 4)?;
    assert_eq!(rt; played.status, 4);
    assert_eq!(rt;
        played.host.said.as_slice(),
        b"0 1 ok 1\n0 1 found 1 1\n0 2 commit 1\n".as_slice()
    );
    Ok(())
}

#[test]
fn a_host_without_a_new_store(rt: HostRuntime) -> Result<(), Fail> {
    let alloc = rt.alloc();
    let mut host = Listener::new(alloc)?;
    host.file.clear();
    let words = words(alloc)?;
    let mut source = MemorySource::new(b"0 commit\n".to_vec(alloc)?);
    let played = play(alloc, words.as_slice(), &mut source, host);
    assert_eq!(rt; played.status, 7);
    assert_eq!(rt; played.host.said.as_slice(), b"no store\n".as_slice());
    Ok(())
}

// The same byte for ever.
#[derive(Drop)]
struct Endless;

impl Source for Endless {
    ghost use Rattle.std.specs.Prelude.{[], false};

    ghost tells = { false };

    ghost rest = { λ _. [] };

    ghost faults = { λ _. 0 };

    fn read(&mut self, room: &mut [u8]) -> Result<usize, Failed> {
        for byte in room.iter_mut() {
            *byte = b'a';
        }
        Ok(room.len())
    }
}

#[test]
fn a_script_ends_behind_64_mib(rt: HostRuntime) -> Result<(), Fail> {
    let played = run_from(rt.alloc(), &mut Endless, 0)?;
    assert_eq!(rt; played.status, 3);
    assert_eq!(rt;
        played.host.said.as_slice(),
        b"line 1: bad line\n".as_slice()
    );
    Ok(())
}

// Whether a reply of a lane at a place has this text.
fn says(alloc: Global, lane: u8, place: u64, reply: &Said, text: &str) -> Result<bool, Fail>
    requires { CanBeSaid reply.now }
{
    let said = reply_text(alloc, lane, place, reply)?;
    Ok(said.as_slice() == text.as_bytes())
}

#[test]
fn numbers_that_no_script_comes_to(rt: HostRuntime) -> Result<(), Fail> {
    let alloc = rt.alloc();
    assert!(rt; says(alloc, 0, 0, &Said::Gone { seq: 0 }, "0 0 gone 0")?);
    let most = u64::MAX;
    let last = Said::Rolled { number: most };
    let text = "15 18446744073709551615 rolled 18446744073709551615";
    assert!(rt; says(alloc, 15, most, &last, text)?);
    Ok(())
}

#[test]
fn refusals_that_no_script_meets(rt: HostRuntime) -> Result<(), Fail> {
    let alloc = rt.alloc();
    let why = Refusal::NoTicket { asked: 2, now: 3 };
    let text = "0 4 refused no-ticket 2 3";
    assert!(rt; says(alloc, 0, 4, &Said::Refused { why }, text)?);
    let why = Refusal::FileFull {
        used: 14,
        needed: 1,
        max: 16,
    };
    let text = "0 4 refused full 14 1 16";
    assert!(rt; says(alloc, 0, 4, &Said::Refused { why }, text)?);
    Ok(())
}
