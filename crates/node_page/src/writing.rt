ghost use Rattle.std.specs.Prelude.{◌≡◌, ◌+◌, ◌≤◌, List, ℕ, ◌++◌, ◌<◌, ◌^◌, length};
ghost use Rattle.node_page.specs.Nodes.{long};
ghost use Rattle.node_page.specs.Pages.{IsPage};

use crate::Page;

impl Page {
    /// Adds a part behind the bytes in use.
    fn add(&mut self, part: &[u8])
        requires { self.old.len + length part.now ≤ 4064 }
        ensures len { self.new.len ≡ self.old.len + length part.now }
        ensures page { (front : List ℕ) → IsPage front self.old → IsPage (front ++ part.now) self.new }
    {
        let from = usize::from(self.len);
        self.bytes[from..from + part.len()].copy_from_slice(part);
        self.len += part.len() as u16;
    }

    /// Adds a number in 8 bytes.
    #[tactic(auto, unfolding(crate::specs::Nodes::long))]
    pub(crate) fn add_long(&mut self, number: u64)
        requires { self.old.len + 8 ≤ 4064 }
        ensures fits { number < 2 ^ 64 }
        ensures len { self.new.len ≡ self.old.len + 8 }
        ensures page { (front : List ℕ) → IsPage front self.old → IsPage (front ++ long number) self.new }
    {
        self.add(&number.to_be_bytes());
    }
}
