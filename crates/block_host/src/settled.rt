use crate::Block;
use std::marker::Model;

/// A file whose blocks are on the disk, to be adopted by a host. Only the crates of hosts make one.
#[derive(Drop)]
pub struct Settled {
    file: u64,
    blocks: Option<Vec<Block>>,
}

impl Model for Settled {
    ghost use Rattle.std.specs.Prelude.{option_map};
    ghost use Rattle.block_host.specs.Settled.{SettledFile};

    ghost Value = { SettledFile };

    ghost view = { λ s. record { file = s.file; blocks = option_map (λ v. v.items) s.blocks } };
}

impl Settled {
    ghost use Rattle.std.specs.Prelude.{◌≡◌, option_map};

    /// A settled file of this number with, where they are told, these blocks.
    pub fn new(file: u64, blocks: Option<Vec<Block>>) -> Settled
        ensures { result ≡ record { file = file; blocks = option_map (λ v. v.items) blocks } }
    {
        Settled { file, blocks }
    }

    /// The file's number.
    pub fn file(&self) -> u64
        ensures { result ≡ self.now.file }
    {
        self.file
    }

    /// The blocks, where they are told.
    pub fn blocks(self) -> Option<Vec<Block>>
        ensures { option_map (λ v. v.items) result ≡ self.blocks }
    {
        self.blocks
    }
}
