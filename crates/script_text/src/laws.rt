ghost use Rattle.std.specs.Prelude.{◌≡◌, ℕ, Bool, List};
ghost use Rattle.forest_model.specs.declared.line.Line.{Line};
ghost use Rattle.script_text.specs.Grammar.{IsLine};

/// Two texts of one line are equal, and one text has at most one line, for the server and for play.
#[tactic(auto, using(crate::proofs::Lines::one_text, crate::proofs::Lines::one_line))]
pub fn one_spelling()
    ensures one_text { (server : Bool) (line : Line) (a b : List ℕ) → IsLine server line a → IsLine server line b → a ≡ b }
    ensures one_line { (server : Bool) (a b : Line) (text : List ℕ) → IsLine server a text → IsLine server b text → a ≡ b }
{}
