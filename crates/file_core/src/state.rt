ghost use Rattle.std.specs.Prelude.{◌≡◌, ◌≤◌, IsTrue};
ghost use Rattle.block_host.specs.Calls.{Reads};
ghost use Rattle.block_host.specs.Disk.{risen};
ghost use Rattle.file_core.specs.Layout.{floor_in, layout_of};
ghost use Rattle.file_parts.specs.Held.{held};

use block_host::Host;
use file_parts::Parts;
use forest_model::Refusal;
use std::alloc::Global;

/// Where a file stands, as an operator sees it.
#[derive(Clone, Copy, Debug, PartialEq, Eq)]
pub struct Layout {
    /// The number of the current file.
    pub revision: u64,
    /// The generation of the meta slot that names it.
    pub generation: u64,
    /// How many blocks it has.
    pub blocks: u64,
    /// The first block whose records the memory index holds.
    pub wal_from: u64,
    /// How many entries the memory index has.
    pub pending: u64,
    /// The bytes of the records of all documents.
    pub live: u64,
    /// How many blocks the file would have without anything stale: as many as it had just after the last switch; before one
    /// as many as the live records fill, and a header.
    pub floor: u64,
    /// Why a flush that was due was left.
    pub left: Option<Refusal>,
}

// The floor of a file's compaction: what stood there just after the last switch, and before one as many blocks as the live
// records fill, and one for the header.
fn floor_of(floor: u64, live: u64) -> u64
    ensures { result ≡ floor_in floor live }
{
    if floor > 0 {
        return floor;
    }
    let begun = if live % 4064 == 0 { 0 } else { 1 };
    live / 4064 + begun + 1
}

/// An open file. A call that fails by the disk or by a damaged block stops it: every later one but `layout`, `updates` and
/// `close` is refused as stopped, and the file is opened again.
pub struct FileState<H: Host> {
    pub parts: Parts<H>,
    pub(crate) alloc: Global,
}

impl<H: Host> FileState<H> {
    /// An open file that consists of these parts.
    pub fn of(alloc: Global, parts: Parts<H>) -> FileState<H>
        ensures { result.parts ≡ parts }
    {
        FileState { parts, alloc }
    }

    /// Where the file stands.
    pub fn layout(&self) -> Layout
        ensures { result ≡ layout_of (held self.now.parts) }
    {
        let parts = &self.parts;
        Layout {
            revision: parts.revision,
            generation: parts.generation,
            blocks: parts.blocks,
            wal_from: parts.header.wal_from,
            pending: parts.wal.len(),
            live: parts.live,
            floor: floor_of(parts.floor, parts.live),
            left: parts.left,
        }
    }

    /// The number of updates since opening.
    pub fn updates(&self) -> u64
        ensures { result ≡ self.now.parts.place }
    {
        self.parts.place
    }

    /// Gives the host back, which has taken the file's view.
    pub fn close(self) -> H
        ensures told { IsTrue H.tells → Reads (H.disk self.parts.host) (H.disk result) }
        ensures clock { (H.disk self.parts.host).moment ≤ (H.disk result).moment }
        ensures counts { H.faults self.parts.host ≤ H.faults result }
        ensures failed { 1 ≤ H.View.faults self.parts.view → risen (H.faults self.parts.host) ≤ H.faults result }
        ensures untroubled { H.View.faults self.parts.view ≡ 0 → H.faults result ≡ H.faults self.parts.host }
        ensures greatest { H.greatest result ≡ H.greatest self.parts.host }
    {
        let FileState {
            parts,
            alloc: _alloc,
        } = self;
        let Parts { mut host, view, .. } = parts;
        host.absorb_view(view);
        host
    }
}
