ghost use Rattle.std.specs.Prelude.{◌≤◌, IsTrue};

use block_host::Host;
use doc_stream::Tail;
use forest_model::{Header, Limits, Refusal, Roots};
use kvs_names::Names;
use wal_index::WalIndex;

/// What an open file consists of. Only the crates of the engine change it.
#[derive(Drop)]
pub struct Parts<H: Host> {
    pub host: H,
    /// The view through which the current file is read.
    pub view: H::View,
    /// The number of the current file.
    pub revision: u64,
    /// The generation of the meta slot that names it.
    pub generation: u64,
    /// How many blocks the current file has.
    pub blocks: u64,
    /// The header of the last commit, and its block.
    pub header: Header,
    pub header_at: u64,
    /// The stores now.
    pub names: Names,
    /// The newest entry of each key since the last flush.
    pub wal: WalIndex,
    /// The roots of the trees.
    pub roots: Roots,
    /// The open record block.
    pub tail: Tail,
    /// How many bytes of records stand in the open block.
    pub loose: u64,
    /// The bytes of the records of all documents.
    pub live: u64,
    pub limits: Limits,
    /// The number of updates since opening.
    pub place: u64,
    pub next_commit: u64,
    pub next_ticket: u64,
    /// The ticket and the base of the running compaction.
    pub copying: Option<(u64, u64)>,
    /// The blocks that the file had just after the last switch, and 0 before one.
    pub floor: u64,
    /// The host's count of faults at opening.
    pub opened: u64,
    /// The host's count of faults at the call that stopped the file.
    pub stopped: Option<u64>,
    /// The file and block of a stop by a damaged block.
    pub damaged: Option<(u64, u64)>,
    /// Why a flush that was due was left.
    pub left: Option<Refusal>,
    /// Where the host tells its content, so do its views.
    pub ghost views_tell: { IsTrue H.tells → IsTrue H.View.tells },
    /// The host has failed no less often than at opening.
    pub ghost opened_below: { opened ≤ H.faults host },
}
