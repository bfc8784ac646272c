ghost use Rattle.std.specs.Prelude.{◌≡◌, ℕ, List, Some};
ghost use Rattle.block_host.specs.Found.{found_in};
ghost use Rattle.block_host.specs.Sealed.{IsSealed};
ghost use Rattle.block_host.specs.declared.block.Block.{Block};

/// A block in which something is found is sealed so, and in a sealed one just that is found.
pub fn found_where_sealed()
    ensures sealed { (revision at kind : ℕ) (payload : List ℕ) (block : Block) → found_in revision at block ≡ Some (kind, payload) → IsSealed revision at kind payload block }
    ensures found { (revision at kind : ℕ) (payload : List ℕ) (block : Block) → IsSealed revision at kind payload block → found_in revision at block ≡ Some (kind, payload) }
{}
