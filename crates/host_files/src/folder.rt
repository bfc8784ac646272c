ghost use Rattle.std.specs.Prelude.{◌≡◌, ◌+◌, ◌-◌, ◌^◌, ◌<◌, ◌≤◌, nat_le, ℕ, Bool, true, IsTrue, List, ◌++◌, length, take, replicate, drop, OnOk, IfOk, IfSome};
ghost use Rattle.host_files.specs.Bytes.{overwritten};

use crate::{Name, Trouble};

/// An open file: what a host in a folder needs of it.
pub trait Opened: Drop {
    /// Whether the file tells its bytes.
    ghost tells: { Bool };

    ghost bytes: { Self → List ℕ };

    /// Whether all that was written is on the disk.
    ghost settled: { Self → Bool };

    /// The number of bytes.
    fn len(&self) -> Result<u64, Trouble>
        ensures { IsTrue tells → IfOk result (λ len. len ≡ length (bytes self.now)) };

    /// Fills the room with the bytes from a place on. It answers whether there were as many.
    fn fill(&self, at: u64, room: &mut [u8; 4096]) -> Result<bool, Trouble>
        ensures given { IsTrue tells → IfOk result (λ whole. IsTrue whole → room.new ≡ take 4096 (drop at (bytes self.now))) }
        ensures whole { IsTrue tells → IfOk result (λ whole. whole ≡ nat_le (at + 4096) (length (bytes self.now))) };

    /// Writes bytes over those at a place, or behind the last.
    fn write(&mut self, at: u64, part: &[u8]) -> Result<(), Trouble>
        requires { at + length part.now < 2 ^ 63 }
        ensures { IsTrue tells → at ≤ length (bytes self.old) → OnOk result (bytes self.new ≡ overwritten at part.now (bytes self.old)) };

    /// Cuts the file, or makes it longer by zeros.
    fn resize(&mut self, len: u64) -> Result<(), Trouble>
        requires { len < 2 ^ 63 }
        ensures shorter { IsTrue tells → len ≤ length (bytes self.old) → OnOk result (bytes self.new ≡ take len (bytes self.old)) }
        ensures longer { IsTrue tells → length (bytes self.old) ≤ len → OnOk result (bytes self.new ≡ bytes self.old ++ replicate (len - length (bytes self.old)) 0) };

    /// Makes sure of all that was written.
    fn sync(&mut self) -> Result<(), Trouble>
        ensures kept { IsTrue tells → bytes self.new ≡ bytes self.old }
        ensures settled { OnOk result (settled self.new ≡ true) };

    ghost bounded: { IsTrue tells → (opened : Self) → length (bytes opened) < 2 ^ 63 };
}

/// A folder with files, and an output: what a host in a folder needs of the system.
pub trait Folder: Drop {
    type File: Opened;

    /// Whether the folder is on the disk with the names that it has now.
    ghost settled: { Self → Bool };

    /// Why the folder can't be used, so that each call fails.
    fn trouble(&self) -> Option<Trouble>;

    /// Opens the file of this name, where there is one.
    fn open(&mut self, name: Name) -> Result<Option<Self::File>, Trouble>
        ensures { settled self.new ≡ settled self.old };

    /// Makes a file of this name, where there is none.
    fn make(&mut self, name: Name) -> Result<Self::File, Trouble>;

    /// Gives a file another name, which it takes from any other.
    fn rename(&mut self, from: Name, to: Name) -> Result<(), Trouble>;

    /// Removes the file of this name, where there is one.
    fn remove(&mut self, name: Name) -> Result<(), Trouble>;

    /// Makes sure of the names.
    fn sync(&mut self) -> Result<(), Trouble>
        ensures { OnOk result (settled self.new ≡ true) };

    /// The least number above `after` of a file that has a whole block.
    fn next(&mut self, after: u64) -> Result<Option<u64>, Trouble>
        ensures above { IfOk result (λ next. IfSome next (λ file. after < file)) }
        ensures same { settled self.new ≡ settled self.old };

    /// Says the bytes on the output at once.
    fn say(&mut self, bytes: &[u8]) -> Result<(), Trouble>
        ensures { settled self.new ≡ settled self.old };
}
