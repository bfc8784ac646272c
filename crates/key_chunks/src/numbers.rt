ghost use Rattle.std.specs.Prelude.{◌≡◌};

use std::marker::Model;

/// Numbers that are owned, such as a chunk list. They are seen as a list.
#[derive(Debug, Drop)]
pub struct Numbers64 {
    numbers: Vec<u64>,
}

impl Model for Numbers64 {
    ghost use Rattle.std.specs.Prelude.{List, ℕ};

    ghost Value = { List ℕ };

    ghost view = { λ n. n.numbers.items };
}

impl Numbers64 {
    /// The numbers of a vector. It takes no memory.
    pub fn from_vec(numbers: Vec<u64>) -> Numbers64
        ensures { result ≡ numbers.items }
    {
        Numbers64 { numbers }
    }

    /// The vector of these numbers. It takes no memory.
    pub fn into_vec(self) -> Vec<u64>
        ensures { result.items ≡ self }
    {
        let Numbers64 { numbers } = self;
        numbers
    }

    /// The numbers.
    pub fn as_slice(&self) -> &[u64]
        ensures { result.now ≡ self.now }
    {
        self.numbers.as_slice()
    }
}
