ghost use Rattle.std.specs.Prelude.{◌≡◌, ◌<◌, ◌+◌, ℕ, List, [], ◌∷◌, ◌++◌, length, take, slice_get, Some, None, IsTrue};
ghost use Rattle.block_host.specs.Sealed.{IsSealed};
ghost use Rattle.block_host.specs.declared.block.Block.{Block};
ghost use Rattle.forest_model.specs.declared.stored.Header.{Header};
ghost use Rattle.header_block.specs.Headers.{AreHeadersOf, AreLinked, IsHeaderAt, IsLast, LinksTo, Placed, SameUpTo};
ghost use Rattle.header_block.specs.Layout.{header_bytes, is_well_formed};
ghost use Rattle.header_chain.specs.Chain.{HasNoLast, IsBefore, IsLastHeader};

use header_block::header_is_one;

/// A file has one last header, or else one block by which it has none.
pub fn last_is_one()
    ensures header { (revision : ℕ) (file : List Block) (last other : Placed) → IsLastHeader revision file last → IsLastHeader revision file other → last ≡ other }
    ensures block { (revision : ℕ) (file : List Block) (block other : ℕ) → HasNoLast revision file block → HasNoLast revision file other → block ≡ other }
    ensures either { (revision : ℕ) (file : List Block) (last : Placed) (block : ℕ) → IsLastHeader revision file last → HasNoLast revision file block → ⊥ }
{
    header_is_one();
}

/// A header links to a block below its own.
pub fn links_lead_down()
    ensures { (at : ℕ) (h : Header) (before : Placed) (older : List Placed) → IsTrue (is_well_formed at h) → LinksTo h (before ∷ older) → before.0 < at }
{}

/// What stands before a header is the next one of its file's list, and the last header is the first of it.
pub fn chain_goes_on()
    ensures first { (revision : ℕ) (file : List Block) (last : Placed) (older : List Placed) → IsLastHeader revision file last → AreLinked revision file (last ∷ older) → AreHeadersOf revision file last older }
    ensures last { (revision : ℕ) (file : List Block) (last : Placed) (older : List Placed) → AreHeadersOf revision file last older → IsLastHeader revision file last }
    ensures next { (revision : ℕ) (file : List Block) (h before : Placed) (older : List Placed) → AreLinked revision file (h ∷ before ∷ older) → IsBefore revision file h.1 (Some before) }
    ensures oldest { (revision : ℕ) (file : List Block) (h : Placed) → AreLinked revision file (h ∷ []) → IsBefore revision file h.1 None }
{}

/// The last header goes by the blocks up to it, as long as no later one is sealed as a header; a header that is appended
/// is the last one, and a cut behind the last one leaves it.
pub fn last_stays()
    ensures same { (revision : ℕ) (old new : List Block) (last : Placed) → IsLastHeader revision old last → SameUpTo last.0 old new → IsLast revision new last.0 → IsLastHeader revision new last }
    ensures added { (revision : ℕ) (file : List Block) (block : Block) (h : Header) → IsSealed revision (length file) 4 (header_bytes h) block → IsTrue (is_well_formed (length file) h) → IsLastHeader revision (file ++ block ∷ []) (length file, h) }
    ensures cut { (revision : ℕ) (file : List Block) (last : Placed) (blocks : ℕ) → IsLastHeader revision file last → last.0 < blocks → IsLastHeader revision (take blocks file) last }
{}
