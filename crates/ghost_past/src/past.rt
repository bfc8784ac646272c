ghost use Rattle.std.specs.Prelude.{◌≡◌, List, [], ◌∷◌};
ghost use Rattle.std.specs.Borrow.{ftrue};

use std::marker::{Model, PhantomData};

/// The values that something has had, the newest first. A clause reads them as `items`.
#[derive(Drop)]
pub struct Past<T> {
    of: PhantomData<T>,
    pub ghost items: { List T },
}

impl<T> Model for Past<T> {
    ghost also_owns = { λ _. ftrue };
}

// It owns nothing.
unsafe impl<T: Send> Send for Past<T> {}

impl<T> Past<T> {
    /// A history of nothing.
    pub fn new() -> Past<T>
        ensures { result.items ≡ [] }
    {
        Past { of: PhantomData }
    }

    /// This history, and that value as the newest.
    pub fn and(&self, newest: &T) -> Past<T>
        ensures { result.items ≡ newest.now ∷ self.now.items }
    {
        Past { of: PhantomData }
    }
}

impl<A, B> Past<(A, B)> {
    /// This history, and these two as the newest.
    pub fn and_pair(&self, first: &A, second: &B) -> Past<(A, B)>
        ensures { result.items ≡ (first.now, second.now) ∷ self.now.items }
    {
        Past { of: PhantomData }
    }
}
