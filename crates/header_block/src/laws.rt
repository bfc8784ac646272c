ghost use Rattle.std.specs.Prelude.{◌≡◌, ◌<◌, ℕ, List, ◌∷◌, IsTrue};
ghost use Rattle.block_host.specs.declared.block.Block.{Block};
ghost use Rattle.forest_model.specs.declared.stored.Header.{Header};
ghost use Rattle.header_block.specs.Headers.{AreHeadersOf, AreLinked, Placed, SameUpTo};
ghost use Rattle.header_block.specs.Layout.{header_bytes, is_well_formed};

/// A payload has one header.
pub fn header_is_one()
    ensures { (at : ℕ) (h g : Header) → IsTrue (is_well_formed at h) → IsTrue (is_well_formed at g) → header_bytes h ≡ header_bytes g → h ≡ g }
{}

/// A file has one list of headers.
pub fn headers_are_one()
    ensures { (revision : ℕ) (file : List Block) (last last' : Placed) (older older' : List Placed) → AreHeadersOf revision file last older → AreHeadersOf revision file last' older' → last ∷ older ≡ last' ∷ older' }
{}

/// Headers stand where a file is the same up to the newest of them, and each lies above the one that it links to.
pub fn headers_stay()
    ensures fall { (revision : ℕ) (file : List Block) (h g : Placed) (older : List Placed) → AreLinked revision file (h ∷ g ∷ older) → g.0 < h.0 }
    ensures stay { (revision : ℕ) (old new : List Block) (last : Placed) (older : List Placed) → SameUpTo last.0 old new → AreLinked revision old (last ∷ older) → AreLinked revision new (last ∷ older) }
{}
