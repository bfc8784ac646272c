ghost use Rattle.std.specs.Prelude.{◌≡◌, ◌≢◌, ◌⊎◌, ◌≤◌, ◌<◌, ℕ, [], ◌∷◌, Option, Some, None, IsTrue, IfOk, IfErr, IfSome, MatchOption, Ok, Err};
ghost use Rattle.block_host.specs.Disk.{risen};
ghost use Rattle.forest_model.specs.declared.refusal.Refusal.TheVariants as Refusal;
ghost use Rattle.forest_model.specs.declared.stored.Header.{Header};
ghost use Rattle.header_block.specs.Headers.{IsHeaderAt, LinksTo, Placed};
ghost use Rattle.header_block.specs.Layout.{is_well_formed};
ghost use Rattle.header_chain.specs.Chain.{BreaksLink, HasNoLast, IsBefore, IsLastHeader, IsSealedAt, Reason};

use block_host::{Block, View, unseal};
use forest_model::{Header, Refusal};
use header_block::{header_is_one, header_of};

/// The kind of a header's block.
const HEADER: u8 = 4;

/// The last header of a file's revision with its block: that in the last block that is sealed as a header. Damaged of this
/// block where it has no well-formed one, and of block 0 where no block is sealed as a header. The blocks are read once
/// each, from the file's end down to that one.
pub fn last<V: View>(view: &mut V, rev: u64) -> Result<(u64, Header), Refusal>
    ensures last { IsTrue V.tells → IfOk result (IsLastHeader rev (V.content view.old)) }
    ensures formed { IfOk result (λ last. IsTrue (is_well_formed last.0 last.1)) }
    ensures exact { IsTrue V.tells → (last : Placed) → IsLastHeader rev (V.content view.old) last → (result ≡ Ok last) ⊎ (result ≡ Err Refusal.DiskFault) }
    ensures damaged { IsTrue V.tells → (block : ℕ) → HasNoLast rev (V.content view.old) block → (result ≡ Err (Refusal.Damaged rev block)) ⊎ (result ≡ Err Refusal.DiskFault) }
    ensures reason { IfErr result (Reason rev (λ block. IsTrue V.tells → HasNoLast rev (V.content view.old) block) (V.faults view.old) (V.faults view.new)) }
    ensures content { IsTrue V.tells → V.content view.new ≡ V.content view.old }
    ensures counts { V.faults view.old ≤ V.faults view.new }
    ensures untroubled { result ≢ Err Refusal.DiskFault → V.faults view.new ≡ V.faults view.old }
{
    header_is_one();
    let mut left = view.size();
    while left > 0 {
        left -= 1;
        if let Some(header) = header_at(view, rev, left)? {
            return Ok((left, header));
        }
    }
    Err(Refusal::Damaged {
        file: rev,
        block: 0,
    })
}

/// The header that a header of a file's revision links to, with its block; None exactly where it links to none. Damaged of
/// the block that it links to where no header stands there that may be before it: with a lower commit number and no greater
/// next store id. One block is read, and none where it links to none.
pub fn before<V: View>(
    view: &mut V,
    rev: u64,
    header: &Header,
) -> Result<Option<(u64, Header)>, Refusal>
    ensures before { IsTrue V.tells → IfOk result (IsBefore rev (V.content view.old) header.now) }
    ensures links { IfOk result (λ found. MatchOption found (header.now.previous ≡ None) (λ before. LinksTo header.now (before ∷ []) × IsTrue (is_well_formed before.0 before.1))) }
    ensures none { header.now.previous ≡ None → (result ≡ Ok None) × (view.new ≡ view.old) }
    ensures exact { IsTrue V.tells → (found : Option Placed) → IsBefore rev (V.content view.old) header.now found → (result ≡ Ok found) ⊎ (result ≡ Err Refusal.DiskFault) }
    ensures damaged { IsTrue V.tells → (block : ℕ) → BreaksLink rev (V.content view.old) header.now block → (result ≡ Err (Refusal.Damaged rev block)) ⊎ (result ≡ Err Refusal.DiskFault) }
    ensures reason { IfErr result (Reason rev (λ block. (header.now.previous ≡ Some block) × (IsTrue V.tells → BreaksLink rev (V.content view.old) header.now block)) (V.faults view.old) (V.faults view.new)) }
    ensures content { IsTrue V.tells → V.content view.new ≡ V.content view.old }
    ensures counts { V.faults view.old ≤ V.faults view.new }
    ensures untroubled { result ≢ Err Refusal.DiskFault → V.faults view.new ≡ V.faults view.old }
{
    header_is_one();
    let Some(at) = header.previous else {
        return Ok(None);
    };
    let damaged = Refusal::Damaged {
        file: rev,
        block: at,
    };
    let Some(before) = header_at(view, rev, at)? else {
        return Err(damaged);
    };
    if !may_precede(&before, header) {
        return Err(damaged);
    }
    Ok(Some((at, before)))
}

// Whether a header may stand before another by their numbers.
fn may_precede(before: &Header, header: &Header) -> bool
    ensures yes { IsTrue result → (before.now.commit < header.now.commit) × (before.now.next_store ≤ header.now.next_store) }
    ensures only { before.now.commit < header.now.commit → before.now.next_store ≤ header.now.next_store → IsTrue result }
{
    before.commit < header.commit && before.next_store <= header.next_store
}

// The header of a block; None where the block isn't sealed as one. Damaged of the block where it is, and has no well-formed
// one.
fn header_at<V: View>(view: &mut V, rev: u64, at: u64) -> Result<Option<Header>, Refusal>
    ensures here { IsTrue V.tells → IfOk result (λ found. MatchOption found (IsSealedAt rev (V.content view.old) at → ⊥) (IsHeaderAt rev (V.content view.old) at)) }
    ensures formed { IfOk result (λ found. IfSome found (λ header. IsTrue (is_well_formed at header))) }
    ensures reason { IfErr result (λ why. ((why ≡ Refusal.DiskFault) × (risen (V.faults view.old) ≤ V.faults view.new)) ⊎ ((why ≡ Refusal.Damaged rev at) × (IsTrue V.tells → IsSealedAt rev (V.content view.old) at × ((h : Header) → IsHeaderAt rev (V.content view.old) at h → ⊥)))) }
    ensures content { IsTrue V.tells → V.content view.new ≡ V.content view.old }
    ensures counts { V.faults view.old ≤ V.faults view.new }
    ensures untroubled { result ≢ Err Refusal.DiskFault → V.faults view.new ≡ V.faults view.old }
{
    let mut block = Block::zeros();
    let Ok(()) = view.read(at, &mut block) else {
        return Err(Refusal::DiskFault);
    };
    let Some((kind, payload)) = unseal(&block, rev, at) else {
        return Ok(None);
    };
    if kind != HEADER {
        return Ok(None);
    }
    let Some(header) = header_of(payload, at) else {
        return Err(Refusal::Damaged {
            file: rev,
            block: at,
        });
    };
    Ok(Some(header))
}
