ghost use Rattle.std.specs.Prelude.{◌≡◌, ◌≢◌, ◌⊎◌, ◌+◌, ◌/◌, ◌^◌, ◌<◌, ◌≤◌, ℕ, Bool, List, IsTrue, Ok, Err, IfOk, IfErr, OnOk};
ghost use Rattle.forest_model.specs.declared.refusal.Refusal.TheVariants as Refusal;
ghost use Rattle.forest_model.specs.declared.stored.Rec.{Rec};
ghost use Rattle.node_page.specs.Pages.{IsPage};
ghost use Rattle.btree_cow.specs.Shelf.{Shelf, LieBelow, GoesByContent, HasHead, HasRecord, IsUnsealed, Adds, Counted, is_stored};
ghost use Rattle.btree_cow.specs.Causes.{PageFails, AddFails, DocumentFails, is_full};

use forest_model::{Rec, Refusal};
use node_page::Page;

/// Gives the pages of a file's nodes and stems.
pub trait Pages {
    /// Whether it tells what it gives.
    ghost tells: { Bool };

    /// What the file's blocks mean.
    ghost shelf: { Self → Shelf };

    /// How often it has failed.
    ghost faults: { Self → ℕ };

    /// The file's number.
    fn file(&self) -> u64
        ensures { result ≡ (shelf self.now).file };

    /// The page of block `at`, which is of kind 2, a node, or 3, a stem.
    fn page(&mut self, at: u64, kind: u8, out: &mut Page) -> Result<(), Refusal>
        ensures given { IsTrue tells → OnOk result (is_stored (shelf self.old) kind at out.new) }
        ensures reason { IfErr result (PageFails tells (shelf self.old) kind at (faults self.old) (faults self.new)) }
        ensures kept { shelf self.new ≡ shelf self.old }
        ensures counts { faults self.old ≤ faults self.new }
        ensures untroubled { result ≢ Err Refusal.DiskFault → faults self.new ≡ faults self.old };

    ghost lie_below: { IsTrue tells → (pages : Self) → LieBelow (shelf pages) };

    ghost by_content: { IsTrue tells → (pages : Self) → GoesByContent (shelf pages) };
}

/// Gives the records of the file too.
pub trait Docs: Pages {
    /// The record at an address. Memory is taken only behind a whole head, and where the address's own block is neither
    /// open nor sealed this is the answer.
    fn document(&mut self, address: u64) -> Result<Rec, Refusal>
        ensures given { IsTrue Self.tells → IfOk result (HasRecord (Self.shelf self.old) address) }
        ensures exact { IsTrue Self.tells → (rec : Rec) → HasRecord (Self.shelf self.old) address rec → (result ≡ Ok rec) ⊎ (result ≡ Err Refusal.NoMemory) ⊎ (result ≡ Err Refusal.DiskFault) }
        ensures first { IsTrue Self.tells → IsUnsealed (Self.shelf self.old) (address / 4096) → (result ≡ Err (Refusal.Damaged (Self.shelf self.old).file (address / 4096))) ⊎ (result ≡ Err Refusal.DiskFault) }
        ensures memory { IsTrue Self.tells → result ≡ Err Refusal.NoMemory → HasHead (Self.shelf self.old) address }
        ensures reason { IfErr result (DocumentFails Self.tells (Self.shelf self.old) address (Self.faults self.old) (Self.faults self.new)) }
        ensures kept { Self.shelf self.new ≡ Self.shelf self.old }
        ensures counts { Self.faults self.old ≤ Self.faults self.new }
        ensures untroubled { result ≢ Err Refusal.DiskFault → Self.faults self.new ≡ Self.faults self.old };
}

/// Appends nodes and stems to the file.
pub trait Appender: Docs {
    /// Appends a page as a block of kind 2 or 3, and answers its number. It is refused for want of room exactly where
    /// there is none. A refusal, of the disk too, leaves the file as it was.
    fn add(&mut self, kind: u8, page: &Page) -> Result<u64, Refusal>
        requires kind { (kind ≡ 2) ⊎ (kind ≡ 3) }
        requires paged { (payload : List ℕ) × IsPage payload page.now }
        ensures added { IsTrue Self.tells → IfOk result (λ at. Adds kind page.now at (Self.shelf self.old) (Self.shelf self.new)) }
        ensures counted { IfOk result (λ at. Counted at (Self.shelf self.old) (Self.shelf self.new)) }
        ensures low { IfOk result (λ at. at < 2 ^ 41) }
        ensures full { (Self.shelf self.old).most ≤ (Self.shelf self.old).used → result ≡ Err (is_full (Self.shelf self.old)) }
        ensures reason { IfErr result (AddFails (Self.shelf self.old) (Self.shelf self.new) (Self.faults self.old) (Self.faults self.new)) }
        ensures counts { Self.faults self.old ≤ Self.faults self.new }
        ensures untroubled { result ≢ Err Refusal.DiskFault → Self.faults self.new ≡ Self.faults self.old };
}
