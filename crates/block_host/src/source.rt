ghost use Rattle.std.specs.Prelude.{◌≡◌, ◌+◌, ◌-◌, ◌^◌, ◌<◌, ◌≤◌, ◌==◌, if◌then◌else◌, is_err, min, ℕ, Bool, true, false, IsTrue, List, [], ◌++◌, length, take, drop, IfOk, OnOk, OnErr};
ghost use Rattle.std.specs.Io.KnownBytes.{ReadConsumes};
ghost use Rattle.block_host.specs.Disk.{risen};
ghost use Rattle.block_host.specs.Reader.{left_to_read};

use crate::Failed;
use std::io::Read;
use std::marker::Model;

/// Where input comes from. On nonempty room 0 bytes are the end of the input.
pub trait Source {
    /// Whether the source tells its bytes.
    ghost tells: { Bool };

    /// The bytes that it still has to give.
    ghost rest: { Self → List ℕ };

    /// How often it has failed.
    ghost faults: { Self → ℕ };

    /// Puts the next bytes at the front of the room, and answers how many they are.
    fn read(&mut self, room: &mut [u8]) -> Result<usize, Failed>
        ensures count { IfOk result (λ n. n ≤ length room.old) }
        ensures given { IsTrue tells → IfOk result (λ n. rest self.old ≡ take n room.new ++ rest self.new) }
        ensures end { IsTrue tells → 0 < length room.old → IfOk result (λ n. n ≡ 0 → rest self.old ≡ []) }
        ensures kept { IsTrue tells → OnErr result (rest self.new ≡ rest self.old) }
        ensures counts { faults self.old ≤ faults self.new }
        ensures failed { OnErr result (risen (faults self.old) ≤ faults self.new) }
        ensures untroubled { OnOk result (faults self.new ≡ faults self.old) };
}

/// Any reader of std as a source. It tells nothing of its bytes.
#[derive(Drop)]
pub struct StdSource<R: Read + Drop> {
    reader: R,
    faults: u64,
}

impl<R: Read + Drop> StdSource<R> {
    /// A source of this reader, with a count of 0.
    pub fn new(reader: R) -> StdSource<R>
        ensures count { ⟦<StdSource<R> as Source>⟧.faults result ≡ 0 }
        ensures left { left_to_read R.remaining result ≡ R.remaining reader }
    {
        StdSource { reader, faults: 0 }
    }

    /// How many reads have failed. It stays at its last value.
    pub fn faults(&self) -> u64
        ensures { result ≡ ⟦<StdSource<R> as Source>⟧.faults self.now }
    {
        self.faults
    }
}

impl<R: Read + Drop> Source for StdSource<R> {
    ghost tells = { false };

    ghost rest = { λ _. [] };

    ghost faults = { λ source. source.faults };

    // Where std knows the bytes of the reader, it gives these, and none only at their end.
    fn read(&mut self, room: &mut [u8]) -> Result<usize, Failed>
        ensures reads { ReadConsumes (left_to_read R.remaining self.old) (left_to_read R.remaining self.new) result room.new }
        ensures count { IfOk result (λ n. n ≤ length room.old) }
        ensures counts { ⟦<StdSource<R> as Source>⟧.faults self.old ≤ ⟦<StdSource<R> as Source>⟧.faults self.new }
        ensures failed { OnErr result (risen (⟦<StdSource<R> as Source>⟧.faults self.old) ≤ ⟦<StdSource<R> as Source>⟧.faults self.new) }
        ensures untroubled { OnOk result (⟦<StdSource<R> as Source>⟧.faults self.new ≡ ⟦<StdSource<R> as Source>⟧.faults self.old) }
        ensures counted { OnErr result (⟦<StdSource<R> as Source>⟧.faults self.new ≡ risen (⟦<StdSource<R> as Source>⟧.faults self.old)) }
    {
        match self.reader.read(room) {
            Ok(n) => Ok(n),
            Err(_) => {
                self.faults = self.faults.saturating_add(1);
                Err(Failed)
            }
        }
    }
}

/// A source of bytes in memory, for tests. It tells them.
#[derive(Drop)]
pub struct MemorySource {
    bytes: Vec<u8>,
    taken: usize,
    step: usize,
    fails_at: u64,
    faults: u64,
}

impl Model for MemorySource {
    ghost use Rattle.std.specs.Prelude.{◌<◌, ◌≤◌, drop, vec_len};
    ghost use Rattle.block_host.specs.Supply.{Supply};

    ghost Value = { Supply };

    ghost view = { λ s. record { rest = drop s.taken s.bytes.items; step = s.step; fails_at = s.fails_at; faults = s.faults } };

    ghost invariant = { λ s. (s.taken ≤ vec_len s.bytes) × (0 < s.step) };
}

impl MemorySource {
    /// A source of these bytes, which gives as many as fit and fails at no read.
    pub fn new(bytes: Vec<u8>) -> MemorySource
        ensures { result ≡ record { rest = bytes.items; step = 2 ^ 64 - 1; fails_at = 0; faults = 0 } }
    {
        MemorySource {
            bytes,
            taken: 0,
            step: usize::MAX,
            fails_at: 0,
            faults: 0,
        }
    }

    /// The same source, which gives at most this many bytes in one read.
    pub fn with_step(self, step: usize) -> MemorySource
        requires { 0 < step }
        ensures { result ≡ record self { step = step } }
    {
        let mut source = self;
        source.step = step;
        source
    }

    /// Makes the read of this number fail, counted from 1 for the next; 0 makes none fail.
    pub fn fail_read(&mut self, number: u64)
        ensures { self.new ≡ record self.old { fails_at = number } }
    {
        self.fails_at = number;
    }

    /// How many reads have failed. It stays at its last value.
    pub fn faults(&self) -> u64
        ensures { result ≡ self.now.faults }
    {
        self.faults
    }
}

impl Source for MemorySource {
    ghost tells = { true };

    ghost rest = { λ source. source.rest };

    ghost faults = { λ source. source.faults };

    // It gives as many bytes as it has left, as there is room for and as a step has, whichever is least.
    fn read(&mut self, room: &mut [u8]) -> Result<usize, Failed>
        ensures planned { is_err result ≡ (self.old.fails_at == 1) }
        ensures least { IfOk result (λ n. n ≡ min (min (length self.old.rest) (length room.old)) self.old.step) }
        ensures put { IfOk result (λ n. room.new ≡ take n self.old.rest ++ drop n room.old) }
        ensures taken { IfOk result (λ n. self.new ≡ record self.old { rest = drop n self.old.rest; fails_at = self.old.fails_at - 1 }) }
        ensures fault { OnErr result (self.new ≡ record self.old { fails_at = 0; faults = risen self.old.faults }) }
        ensures nothing { OnErr result (room.new ≡ room.old) }
        ensures count { IfOk result (λ n. n ≤ length room.old) }
        ensures given { IsTrue true → IfOk result (λ n. self.old.rest ≡ take n room.new ++ self.new.rest) }
        ensures end { IsTrue true → 0 < length room.old → IfOk result (λ n. n ≡ 0 → self.old.rest ≡ []) }
        ensures kept { IsTrue true → OnErr result (self.new.rest ≡ self.old.rest) }
        ensures counts { self.old.faults ≤ self.new.faults }
        ensures failed { OnErr result (risen self.old.faults ≤ self.new.faults) }
        ensures untroubled { OnOk result (self.new.faults ≡ self.old.faults) }
    {
        if self.fails_at == 1 {
            self.fails_at = 0;
            self.faults = self.faults.saturating_add(1);
            return Err(Failed);
        }
        self.fails_at = self.fails_at.saturating_sub(1);
        let rest = &self.bytes[self.taken..];
        let count = rest.len().min(room.len()).min(self.step);
        room[..count].copy_from_slice(&rest[..count]);
        self.taken += count;
        Ok(count)
    }
}

#[cfg(test)]
mod tests {
    use super::*;
    use std::io;
    use std::test::Fail;

    #[test]
    fn gives_in_steps_and_fails_where_told(rt: HostRuntime) -> Result<(), Fail> {
        let alloc = rt.alloc();
        let mut source = MemorySource::new(b"abcde".to_vec(alloc)?).with_step(3);
        source.fail_read(2);
        let mut room = [0; 4];
        assert_eq!(rt; source.read(&mut room), Ok(3));
        assert_eq!(rt; room, *b"abc\0");
        assert_eq!(rt; source.read(&mut room), Err(Failed));
        assert_eq!(rt; source.faults(), 1);
        assert_eq!(rt; source.read(&mut room), Ok(2));
        assert_eq!(rt; room, *b"dec\0");
        assert_eq!(rt; source.read(&mut room), Ok(0));
        assert_eq!(rt; source.faults(), 1);
        Ok(())
    }

    #[test]
    fn reads_what_a_reader_has(rt: HostRuntime) -> Result<(), Fail> {
        let text = b"xyz";
        let mut source = StdSource::new(text.as_slice());
        let mut room = [0; 2];
        assert_eq!(rt; source.read(&mut room), Ok(2));
        assert_eq!(rt; room, *b"xy");
        assert_eq!(rt; source.read(&mut room), Ok(1));
        assert_eq!(rt; room, *b"zy");
        assert_eq!(rt; source.read(&mut room), Ok(0));
        assert_eq!(rt; source.faults(), 0);
        Ok(())
    }

    // A reader whose first read fails, and whose next one would give a byte.
    #[derive(Drop)]
    struct Troubled {
        failed: bool,
    }

    impl Read for Troubled {
        fn read(&mut self, room: &mut [u8]) -> io::Result<usize> {
            if !self.failed {
                self.failed = true;
                return Err(io::Error::from(io::ErrorKind::Interrupted));
            }
            match room.first_mut() {
                Some(byte) => {
                    *byte = b'a';
                    Ok(1)
                }
                None => Ok(0),
            }
        }
    }

    #[test]
    fn an_error_of_the_reader_is_told_at_once(rt: HostRuntime) -> Result<(), Fail> {
        let mut source = StdSource::new(Troubled { failed: false });
        let mut room = [0; 2];
        assert_eq!(rt; source.read(&mut room), Err(Failed));
        assert_eq!(rt; source.faults(), 1);
        assert_eq!(rt; room, *b"\0\0");
        assert_eq!(rt; source.read(&mut room), Ok(1));
        assert_eq!(rt; source.faults(), 1);
        assert_eq!(rt; room, *b"a\0");
        Ok(())
    }
}
