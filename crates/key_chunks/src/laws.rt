ghost use Rattle.std.specs.Prelude.{◌≡◌, ℕ, List, [], ◌++◌};
ghost use Rattle.std.specs.Ordering.{nat_cmp, ordering_then};
ghost use Rattle.std.specs.Cmp.Lexicographic.{slice_cmp};
ghost use Rattle.key_chunks.specs.Chunks.{IsKey, chunks_of};

/// Different pairs of a store and a key have different lists.
#[tactic(auto, using(crate::proofs::GroupBytes::one_list))]
pub fn one_key()
    ensures { (s t : ℕ) (x y : List ℕ) → IsKey x → IsKey y → chunks_of s x ≡ chunks_of t y → (s ≡ t) × (x ≡ y) }
{}

/// No list is a proper prefix of another.
#[tactic(auto, using(crate::proofs::GroupBytes::no_longer_list))]
pub fn prefix_free()
    ensures { (s t : ℕ) (x y more : List ℕ) → IsKey x → IsKey y → chunks_of s x ++ more ≡ chunks_of t y → more ≡ [] }
{}

/// The order of lists is the order of store and key.
#[tactic(auto, using(crate::proofs::GroupOrder::lists_order))]
pub fn in_key_order()
    ensures { (s t : ℕ) (x y : List ℕ) → IsKey x → IsKey y → slice_cmp nat_cmp (chunks_of s x) (chunks_of t y) ≡ ordering_then (nat_cmp s t) (slice_cmp nat_cmp x y) }
{}
