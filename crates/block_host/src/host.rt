ghost use Rattle.std.specs.Prelude.{◌≡◌, ◌<◌, ◌≤◌, max, ℕ, Bool, IsTrue, [], OnOk, OnErr, IfOk, IfSome, unwrap_or, length};
ghost use Rattle.block_host.specs.Disk.{Disk, Lawful, Says, risen};
ghost use Rattle.block_host.specs.Calls.{Reads, Appends, Puts, Cuts, Becomes, Removes, Syncs, NextFile, block_at};

use crate::{Block, Failed, Fresh, Settled, View};

/// The files, by number, and what is said on the output. File 0 is the meta file. An absent file is empty, and no
/// argument is a reason to fail.
pub trait Host {
    type View: View + Send;

    type Fresh: Fresh + Send;

    /// Whether the host tells its content. A clause on content holds where it does.
    ghost tells: { Bool };

    /// What the files hold, what a crash may leave of them, and what was said.
    ghost disk: { Self → Disk };

    /// How often the host has failed.
    ghost faults: { Self → ℕ };

    /// The greatest size of a fresh file that was absorbed, 0 at first. Every host tells it.
    ghost greatest: { Self → ℕ };

    /// The number of blocks, 0 for an absent file.
    fn size(&mut self, file: u64) -> Result<u64, Failed>
        ensures told { IsTrue tells → Reads (disk self.old) (disk self.new) }
        ensures size { IsTrue tells → IfOk result (λ size. size ≡ length ((disk self.old).files file)) }
        ensures clock { (disk self.old).moment ≤ (disk self.new).moment }
        ensures counts { faults self.old ≤ faults self.new }
        ensures failed { OnErr result (risen (faults self.old) ≤ faults self.new) }
        ensures untroubled { OnOk result (faults self.new ≡ faults self.old) }
        ensures greatest { greatest self.new ≡ greatest self.old };

    /// Block `at` of the file; past the end a block of zeros.
    fn read(&mut self, file: u64, at: u64, out: &mut Block) -> Result<(), Failed>
        ensures told { IsTrue tells → Reads (disk self.old) (disk self.new) }
        ensures given { IsTrue tells → OnOk result (out.new ≡ block_at ((disk self.old).files file) at) }
        ensures clock { (disk self.old).moment ≤ (disk self.new).moment }
        ensures counts { faults self.old ≤ faults self.new }
        ensures failed { OnErr result (risen (faults self.old) ≤ faults self.new) }
        ensures untroubled { OnOk result (faults self.new ≡ faults self.old) }
        ensures greatest { greatest self.new ≡ greatest self.old };

    /// Puts the blocks at the file's end, in order.
    fn append(&mut self, file: u64, blocks: &[Block]) -> Result<(), Failed>
        ensures told { IsTrue tells → Appends file blocks.now result (disk self.old) (disk self.new) }
        ensures clock { (disk self.old).moment ≤ (disk self.new).moment }
        ensures counts { faults self.old ≤ faults self.new }
        ensures failed { OnErr result (risen (faults self.old) ≤ faults self.new) }
        ensures untroubled { OnOk result (faults self.new ≡ faults self.old) }
        ensures greatest { greatest self.new ≡ greatest self.old };

    /// Overwrites slot 0 or 1 of file 0, the meta file, which has two blocks afterwards.
    fn put(&mut self, slot: u64, block: &Block) -> Result<(), Failed>
        requires { slot < 2 }
        ensures told { IsTrue tells → Puts slot block.now result (disk self.old) (disk self.new) }
        ensures clock { (disk self.old).moment ≤ (disk self.new).moment }
        ensures counts { faults self.old ≤ faults self.new }
        ensures failed { OnErr result (risen (faults self.old) ≤ faults self.new) }
        ensures untroubled { OnOk result (faults self.new ≡ faults self.old) }
        ensures greatest { greatest self.new ≡ greatest self.old };

    /// Shortens the file to this many blocks. A cut to more than there are changes nothing.
    fn cut(&mut self, file: u64, blocks: u64) -> Result<(), Failed>
        ensures told { IsTrue tells → Cuts file blocks result (disk self.old) (disk self.new) }
        ensures clock { (disk self.old).moment ≤ (disk self.new).moment }
        ensures counts { faults self.old ≤ faults self.new }
        ensures failed { OnErr result (risen (faults self.old) ≤ faults self.new) }
        ensures untroubled { OnOk result (faults self.new ≡ faults self.old) }
        ensures greatest { greatest self.new ≡ greatest self.old };

    /// Makes sure of the file: after Ok a crash leaves of it only what reads give.
    fn sync(&mut self, file: u64) -> Result<(), Failed>
        ensures told { IsTrue tells → Syncs file result (disk self.old) (disk self.new) }
        ensures clock { (disk self.old).moment ≤ (disk self.new).moment }
        ensures counts { faults self.old ≤ faults self.new }
        ensures failed { OnErr result (risen (faults self.old) ≤ faults self.new) }
        ensures untroubled { OnOk result (faults self.new ≡ faults self.old) }
        ensures greatest { greatest self.new ≡ greatest self.old };

    /// The least number above `after` of a file that has blocks.
    fn next_file(&mut self, after: u64) -> Result<Option<u64>, Failed>
        ensures told { IsTrue tells → Reads (disk self.old) (disk self.new) }
        ensures next { IsTrue tells → IfOk result (NextFile after (disk self.old).files) }
        ensures above { IfOk result (λ next. IfSome next (λ file. after < file)) }
        ensures clock { (disk self.old).moment ≤ (disk self.new).moment }
        ensures counts { faults self.old ≤ faults self.new }
        ensures failed { OnErr result (risen (faults self.old) ≤ faults self.new) }
        ensures untroubled { OnOk result (faults self.new ≡ faults self.old) }
        ensures greatest { greatest self.new ≡ greatest self.old };

    /// Removes the file. It answers false where the file may still be there, which is no fault.
    fn remove(&mut self, file: u64) -> bool
        ensures told { IsTrue tells → Removes file result (disk self.old) (disk self.new) }
        ensures clock { (disk self.old).moment ≤ (disk self.new).moment }
        ensures untroubled { faults self.new ≡ faults self.old }
        ensures greatest { greatest self.new ≡ greatest self.old };

    /// A view of the blocks that the file has now, with a count of 0.
    fn view(&mut self, file: u64) -> Result<Self::View, Failed>
        ensures told { IsTrue tells → Reads (disk self.old) (disk self.new) }
        ensures content { IsTrue tells → IfOk result (λ view. Self.View.content view ≡ (disk self.old).files file) }
        ensures made { IfOk result (λ view. Self.View.faults view ≡ 0) }
        ensures clock { (disk self.old).moment ≤ (disk self.new).moment }
        ensures counts { faults self.old ≤ faults self.new }
        ensures failed { OnErr result (risen (faults self.old) ≤ faults self.new) }
        ensures untroubled { OnOk result (faults self.new ≡ faults self.old) }
        ensures greatest { greatest self.new ≡ greatest self.old };

    /// Sets the view on the blocks that the file has now. Its count stays, and after a failure the view is as before.
    fn renew(&mut self, file: u64, view: &mut Self::View) -> Result<(), Failed>
        ensures told { IsTrue tells → Reads (disk self.old) (disk self.new) }
        ensures content { IsTrue tells → OnOk result (Self.View.content view.new ≡ (disk self.old).files file) }
        ensures kept { IsTrue tells → OnErr result (Self.View.content view.new ≡ Self.View.content view.old) }
        ensures view_count { Self.View.faults view.new ≡ Self.View.faults view.old }
        ensures clock { (disk self.old).moment ≤ (disk self.new).moment }
        ensures counts { faults self.old ≤ faults self.new }
        ensures failed { OnErr result (risen (faults self.old) ≤ faults self.new) }
        ensures untroubled { OnOk result (faults self.new ≡ faults self.old) }
        ensures greatest { greatest self.new ≡ greatest self.old };

    /// Takes a view back. The host's count rises exactly where the view's count is above 0.
    fn absorb_view(&mut self, view: Self::View)
        ensures told { IsTrue tells → Reads (disk self.old) (disk self.new) }
        ensures clock { (disk self.old).moment ≤ (disk self.new).moment }
        ensures counts { faults self.old ≤ faults self.new }
        ensures failed { 1 ≤ Self.View.faults view → risen (faults self.old) ≤ faults self.new }
        ensures untroubled { Self.View.faults view ≡ 0 → faults self.new ≡ faults self.old }
        ensures greatest { greatest self.new ≡ greatest self.old };

    /// Takes a fresh file back. The host's count rises exactly where the file's count is above 0, and the greatest size
    /// becomes this file's where that is greater.
    fn absorb_fresh(&mut self, fresh: Self::Fresh)
        ensures told { IsTrue tells → Reads (disk self.old) (disk self.new) }
        ensures clock { (disk self.old).moment ≤ (disk self.new).moment }
        ensures counts { faults self.old ≤ faults self.new }
        ensures failed { 1 ≤ Self.Fresh.faults fresh → risen (faults self.old) ≤ faults self.new }
        ensures untroubled { Self.Fresh.faults fresh ≡ 0 → faults self.new ≡ faults self.old }
        ensures greatest { greatest self.new ≡ max (greatest self.old) (Self.Fresh.size fresh) };

    /// An empty file of this number, outside the host's images, with a count of 0.
    fn fresh(&mut self, file: u64) -> Result<Self::Fresh, Failed>
        ensures told { IsTrue tells → Reads (disk self.old) (disk self.new) }
        ensures empty { IsTrue tells → IfOk result (λ fresh. Self.Fresh.content fresh ≡ []) }
        ensures no_blocks { IfOk result (λ fresh. Self.Fresh.size fresh ≡ 0) }
        ensures number { IfOk result (λ fresh. Self.Fresh.file fresh ≡ file) }
        ensures made { IfOk result (λ fresh. Self.Fresh.faults fresh ≡ 0) }
        ensures clock { (disk self.old).moment ≤ (disk self.new).moment }
        ensures counts { faults self.old ≤ faults self.new }
        ensures failed { OnErr result (risen (faults self.old) ≤ faults self.new) }
        ensures untroubled { OnOk result (faults self.new ≡ faults self.old) }
        ensures greatest { greatest self.new ≡ greatest self.old };

    /// Makes the settled file the host's file of its number, in place of any old one.
    fn adopt(&mut self, settled: Settled) -> Result<(), Failed>
        ensures told { IsTrue tells → Becomes settled.file (unwrap_or settled.blocks []) result (disk self.old) (disk self.new) }
        ensures clock { (disk self.old).moment ≤ (disk self.new).moment }
        ensures counts { faults self.old ≤ faults self.new }
        ensures failed { OnErr result (risen (faults self.old) ≤ faults self.new) }
        ensures untroubled { OnOk result (faults self.new ≡ faults self.old) }
        ensures greatest { greatest self.new ≡ greatest self.old };

    /// Says the bytes. On a failure the first of them were said.
    fn say(&mut self, bytes: &[u8]) -> Result<(), Failed>
        ensures told { IsTrue tells → Says bytes.now result (disk self.old) (disk self.new) }
        ensures clock { (disk self.old).moment ≤ (disk self.new).moment }
        ensures counts { faults self.old ≤ faults self.new }
        ensures failed { OnErr result (risen (faults self.old) ≤ faults self.new) }
        ensures untroubled { OnOk result (faults self.new ≡ faults self.old) }
        ensures greatest { greatest self.new ≡ greatest self.old };

    /// The host's count of faults, which stays at its last value.
    fn faults(&self) -> u64
        ensures { result ≡ faults self.now };

    ghost lawful: { IsTrue tells → (host : Self) → Lawful (disk host) };

    ghost views_tell: { IsTrue tells → IsTrue Self.View.tells };

    ghost fresh_files_tell: { IsTrue tells → IsTrue Self.Fresh.tells };
}
