ghost use Rattle.std.specs.Prelude.{◌≡◌, ◌+◌, ◌*◌, ◌≤◌, ◌↔◌, IsTrue, drop, length};
ghost use Rattle.node_page.specs.Reading.{AreBytes, long_in, IsZeroFrom};

use crate::Page;

// How many numbers of 8 bytes a page has.
const NUMBERS: usize = 508;

impl Page {
    /// The number in the 8 bytes at this place.
    #[tactic(auto, unfolding(crate::specs::Reading::long_in))]
    pub(crate) fn long_at(&self, at: usize) -> u64
        requires { at + 8 ≤ 4064 }
        ensures { result ≡ long_in (drop at self.now.bytes) }
    {
        let mut number = [0; 8];
        number.copy_from_slice(&self.bytes[at..at + 8]);
        u64::from_be_bytes(number)
    }

    /// Whether a page has nothing but zeros behind so many numbers of 8 bytes.
    pub(crate) fn is_zero_from(&self, used: usize) -> bool
        requires { used ≤ 508 }
        ensures cases { IsTrue result ↔ IsZeroFrom (8 * used) self.now.bytes }
        ensures bytes { AreBytes self.now.bytes }
        ensures whole { length self.now.bytes ≡ 4064 }
    {
        known(&self.bytes);
        for n in used..NUMBERS {
            if self.long_at(8 * n) != 0 {
                return false;
            }
        }
        true
    }
}

// What the type says, for proofs.
fn known(bytes: &[u8])
    ensures { AreBytes bytes.now }
{}
