ghost use Rattle.std.specs.Prelude.{◌≤◌, ◌<◌};

// A linear congruential generator, which gives the same numbers in each run.
#[derive(Drop)]
pub(super) struct Numbers {
    state: u64,
}

impl Numbers {
    pub(super) fn new() -> Numbers {
        Numbers { state: 1 }
    }

    // A number below a limit.
    pub(super) fn below(&mut self, limit: u64) -> u64
        requires { 1 ≤ limit }
        ensures { result < limit }
    {
        self.state = self
            .state
            .wrapping_mul(6_364_136_223_846_793_005)
            .wrapping_add(1_442_695_040_888_963_407);
        (self.state >> 33) % limit
    }
}
