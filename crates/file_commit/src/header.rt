ghost use Rattle.std.specs.Prelude.{◌≡◌, ◌+◌, ◌<◌, false};
ghost use Rattle.block_host.specs.Sealed.{IsSealed};
ghost use Rattle.file_parts.specs.Held.{held};
ghost use Rattle.header_block.specs.Layout.{NamesBlocks, header_bytes};
ghost use Rattle.file_commit.specs.Committing.{is_commit_worn, is_far, header_after, TellsHeader};

use block_host::{Block, Host, seal};
use file_core::Parts;
use forest_model::{Header, Stores};
use header_block::payload_of;

// The header of the next commit, as these stores.
pub(crate) fn next_header<H: Host>(parts: &Parts<H>, stores: Stores) -> Header
    requires numbers { is_commit_worn (held parts.now) ≡ false }
    requires near { is_far (held parts.now) ≡ false }
    requires stores { stores ≡ parts.now.names.rows }
    ensures header { result ≡ header_after (held parts.now) }
{
    Header {
        commit: parts.next_commit,
        next_commit: parts.next_commit + 1,
        previous: Some(parts.header_at),
        key: None,
        seq: None,
        wal_from: parts.header.wal_from,
        live: parts.live,
        next_store: parts.names.next(),
        stores,
    }
}

// A header as a block of the file, with exactly its bytes.
pub(crate) fn sealed_header(header: &Header, revision: u64, at: u64) -> Block
    requires { NamesBlocks header.now }
    ensures is_sealed { IsSealed revision at 4 (header_bytes header.now) result }
    ensures tells { TellsHeader header.now result.bytes }
{
    let _commit = header.commit;
    let _from = header.wal_from;
    let page = payload_of(header);
    seal(4, revision, at, &page.bytes[..page.len as usize])
}
