use forest_model::{Deed, Notes};
use ghost_past::Past;

/// The one slot. While a pass is inside it is out with that pass, and has no value.
pub struct Berth<T> {
    pub value: Option<T>,
    /// What was done with the value since it was taken, for clauses alone.
    pub deed: Past<Deed>,
}

/// What a pass knows. No value of it is made.
pub struct Knows<T> {
    /// The value at place 0. A pass that was joined to another has none.
    pub first: Option<T>,
    /// The value that it has taken and not put back.
    pub taken: Option<T>,
    pub notes: Notes,
}
