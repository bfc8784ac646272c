ghost use Rattle.std.specs.Prelude.{true};

use block_host::{Block, Failed, View};

/// The blocks from which records are read.
#[derive(Drop)]
pub(crate) struct Seen {
    pub(crate) blocks: Vec<Block>,
}

impl View for Seen {
    ghost tells = { true };

    ghost content = { λ s. s.blocks.items };

    ghost faults = { λ _. 0 };

    fn size(&self) -> u64 {
        self.blocks.len() as u64
    }

    fn read(&mut self, at: u64, out: &mut Block) -> Result<(), Failed> {
        *out = match self.blocks.get(at as usize) {
            Some(block) => *block,
            None => Block::zeros(),
        };
        Ok(())
    }
}
