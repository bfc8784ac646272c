// A host that tells nothing of its content meets the traits with no proof file, as a real directory does.
ghost use Rattle.std.specs.Prelude.{◌≡◌, ◌≤◌, [], false, IfOk, OnOk, OnErr};
ghost use Rattle.block_host.specs.Disk.{untold, not_told, risen};

use crate::{Block, Failed, Fresh, Host, Settled, View};

#[derive(Drop)]
struct Quiet {
    failing: bool,
    faults: u64,
    greatest: u64,
}

impl Quiet {
    fn answer<T: Drop>(&mut self, value: T) -> Result<T, Failed>
        ensures ok { OnOk result (self.new.faults ≡ self.old.faults) }
        ensures err { OnErr result (risen self.old.faults ≤ self.new.faults) }
        ensures counts { self.old.faults ≤ self.new.faults }
        ensures greatest { self.new.greatest ≡ self.old.greatest }
        ensures value { IfOk result (λ x. x ≡ value) }
    {
        if self.failing {
            self.faults = self.faults.saturating_add(1);
            return Err(Failed);
        }
        Ok(value)
    }
}

#[derive(Drop)]
struct QuietView {
    faults: u64,
}

#[derive(Drop)]
struct QuietFresh {
    file: u64,
    blocks: u64,
    faults: u64,
}

impl View for QuietView {
    ghost tells = { false };

    ghost content = { λ _. [] };

    ghost faults = { λ view. view.faults };

    fn size(&self) -> u64 {
        0
    }

    fn read(&mut self, _at: u64, out: &mut Block) -> Result<(), Failed> {
        *out = Block::zeros();
        Ok(())
    }
}

impl Fresh for QuietFresh {
    ghost tells = { false };

    ghost content = { λ _. [] };

    ghost size = { λ fresh. fresh.blocks };

    ghost file = { λ fresh. fresh.file };

    ghost faults = { λ fresh. fresh.faults };

    ghost sized = { λ told. not_told told };

    fn size(&self) -> u64 {
        self.blocks
    }

    fn append(&mut self, blocks: &[Block]) -> Result<(), Failed> {
        match self.blocks.checked_add(blocks.len() as u64) {
            Some(blocks) => {
                self.blocks = blocks;
                Ok(())
            }
            None => {
                self.faults = self.faults.saturating_add(1);
                Err(Failed)
            }
        }
    }

    fn read(&mut self, _at: u64, _out: &mut Block) -> Result<(), Failed> {
        Ok(())
    }

    fn sync(self) -> Result<Settled, Self> {
        Ok(Settled::new(self.file, None))
    }
}

impl Host for Quiet {
    type View = QuietView;

    type Fresh = QuietFresh;

    ghost tells = { false };

    ghost disk = { λ _. untold };

    ghost faults = { λ host. host.faults };

    ghost greatest = { λ host. host.greatest };

    ghost lawful = { λ told. not_told told };

    ghost views_tell = { λ told. not_told told };

    ghost fresh_files_tell = { λ told. not_told told };

    fn size(&mut self, _file: u64) -> Result<u64, Failed> {
        self.answer(0)
    }

    fn read(&mut self, _file: u64, _at: u64, _out: &mut Block) -> Result<(), Failed> {
        self.answer(())
    }

    fn append(&mut self, _file: u64, _blocks: &[Block]) -> Result<(), Failed> {
        self.answer(())
    }

    fn put(&mut self, _slot: u64, _block: &Block) -> Result<(), Failed> {
        self.answer(())
    }

    fn cut(&mut self, _file: u64, _blocks: u64) -> Result<(), Failed> {
        self.answer(())
    }

    fn sync(&mut self, _file: u64) -> Result<(), Failed> {
        self.answer(())
    }

    fn next_file(&mut self, after: u64) -> Result<Option<u64>, Failed> {
        self.answer(after.checked_add(1))
    }

    fn remove(&mut self, _file: u64) -> bool {
        !self.failing
    }

    fn view(&mut self, _file: u64) -> Result<QuietView, Failed> {
        self.answer(QuietView { faults: 0 })
    }

    fn renew(&mut self, _file: u64, _view: &mut QuietView) -> Result<(), Failed> {
        self.answer(())
    }

    fn absorb_view(&mut self, view: QuietView) {
        if view.faults > 0 {
            self.faults = self.faults.saturating_add(1);
        }
    }

    fn absorb_fresh(&mut self, fresh: QuietFresh) {
        if fresh.faults > 0 {
            self.faults = self.faults.saturating_add(1);
        }
        self.greatest = self.greatest.max(fresh.blocks);
    }

    fn fresh(&mut self, file: u64) -> Result<QuietFresh, Failed> {
        self.answer(QuietFresh {
            file,
            blocks: 0,
            faults: 0,
        })
    }

    fn adopt(&mut self, _settled: Settled) -> Result<(), Failed> {
        self.answer(())
    }

    fn say(&mut self, _bytes: &[u8]) -> Result<(), Failed> {
        self.answer(())
    }

    fn faults(&self) -> u64 {
        self.faults
    }
}

#[cfg(test)]
mod tests {
    use super::*;
    use std::test::Fail;

    #[test]
    fn counts_each_failure(rt: HostRuntime) -> Result<(), Fail> {
        let mut host = Quiet {
            failing: true,
            faults: u64::MAX - 1,
            greatest: 0,
        };
        assert_eq!(rt; host.say(b"x"), Err(Failed));
        assert_eq!(rt; Host::faults(&host), u64::MAX);
        assert_eq!(rt; host.sync(3), Err(Failed));
        assert_eq!(rt; Host::faults(&host), u64::MAX);
        assert!(rt; !host.remove(3));
        Ok(())
    }

    #[test]
    fn keeps_the_greatest_size(rt: HostRuntime) -> Result<(), Fail> {
        let mut host = Quiet {
            failing: false,
            faults: 0,
            greatest: 1,
        };
        let mut fresh = host.fresh(7)?;
        fresh.append(&[Block::zeros(), Block::zeros()])?;
        assert_eq!(rt; fresh.size(), 2);
        host.absorb_fresh(fresh);
        assert_eq!(rt; host.greatest, 2);
        assert_eq!(rt; host.next_file(u64::MAX), Ok(None));
        Ok(())
    }
}
