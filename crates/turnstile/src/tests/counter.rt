use forest_model::Held;

/// A value whose file tells nothing. Its count is its place.
#[derive(Drop)]
pub struct Counter {
    pub count: u64,
}

impl Held for Counter {
    ghost use Rattle.turnstile.specs.Counting.{counted};

    ghost shows = { λ c. counted c.count };

    ghost is_sound = { λ c. ⊥ };

    ghost covers = { λ c since list. Unit {0} };

    ghost weakens = { λ c. record { later = λ _ _ _ _ _. tt; longer = λ _ _ _ _ _. tt } };
}
