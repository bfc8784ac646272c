use forest_model::Held;

/// A sound value: a store in which a compaction runs that is switched, a second one is begun, and its switch stops the value.
#[derive(Drop)]
pub struct Turner {
    /// How many of the three steps were made.
    pub steps: u64,
}

impl Held for Turner {
    ghost use Rattle.turnstile.specs.Turning.{turning, covers_told, told_weakens};

    ghost shows = { λ t. turning t.steps };

    ghost is_sound = { λ t. Unit {0} };

    ghost covers = { λ t. covers_told t.steps };

    ghost weakens = { λ t. told_weakens t.steps };
}
