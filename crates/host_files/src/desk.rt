ghost use Rattle.std.specs.Prelude.{◌≡◌, ◌<◌, ℕ, Bool, true, false, ⊤, IsTrue, IfOk, IfSome, OnOk};
ghost use Rattle.host_files.specs.Bytes.{KnowsNames};

use crate::blocks::{append_blocks, cut_blocks, put_slot, read_block, size_of};
use crate::{DirFresh, DirView, Folder, Name, Opened, Trouble};
use block_host::Block;

/// The files of a folder by number, and which of its names aren't known to be on the disk.
#[derive(Drop)]
pub(crate) struct Desk<F: Folder> {
    folder: F,
    kept: Option<Kept<F::File>>,
    // whether a name may have changed since the folder was last made sure of
    named: bool,
    // how often names have been changed
    names: u64,
}

// The file that was last used stays open.
#[derive(Drop)]
struct Kept<O: Opened> {
    file: u64,
    opened: O,
}

impl<F: Folder> Desk<F> {
    /// The files of this folder. What was done to its names before isn't known.
    pub(crate) fn new(folder: F) -> Desk<F>
        ensures { KnowsNames result.named (F.settled result.folder) }
    {
        Desk {
            folder,
            kept: None,
            named: true,
            names: 0,
        }
    }

    /// The number of blocks of a file.
    pub(crate) fn size(&mut self, file: u64) -> Result<u64, Trouble>
        ensures { KnowsNames self.old.named (F.settled self.old.folder) → KnowsNames self.new.named (F.settled self.new.folder) }
    {
        let Some(opened) = self.take(file)? else {
            return Ok(0);
        };
        let size = size_of(&opened);
        self.keep(file, opened);
        size
    }

    /// Block `at` of a file.
    pub(crate) fn read(&mut self, file: u64, at: u64, out: &mut Block) -> Result<(), Trouble>
        ensures { KnowsNames self.old.named (F.settled self.old.folder) → KnowsNames self.new.named (F.settled self.new.folder) }
    {
        let Some(opened) = self.take(file)? else {
            *out = Block::zeros();
            return Ok(());
        };
        let read = read_block(&opened, at, out);
        self.keep(file, opened);
        read
    }

    /// Puts blocks at the end of a file.
    pub(crate) fn append(&mut self, file: u64, blocks: &[Block]) -> Result<(), Trouble>
        ensures { KnowsNames self.old.named (F.settled self.old.folder) → KnowsNames self.new.named (F.settled self.new.folder) }
    {
        let mut opened = self.take_or_make(file)?;
        let appended = append_blocks(&mut opened, blocks);
        self.keep(file, opened);
        appended
    }

    /// Writes a slot of file 0.
    pub(crate) fn put(&mut self, slot: u64, block: &Block) -> Result<(), Trouble>
        requires { slot < 2 }
        ensures { KnowsNames self.old.named (F.settled self.old.folder) → KnowsNames self.new.named (F.settled self.new.folder) }
    {
        let mut opened = self.take_or_make(0)?;
        let written = put_slot(&mut opened, slot, block);
        self.keep(0, opened);
        written
    }

    /// Cuts a file to so many blocks.
    pub(crate) fn cut(&mut self, file: u64, blocks: u64) -> Result<(), Trouble>
        ensures { KnowsNames self.old.named (F.settled self.old.folder) → KnowsNames self.new.named (F.settled self.new.folder) }
    {
        let Some(mut opened) = self.take(file)? else {
            return Ok(());
        };
        let cut = cut_blocks(&mut opened, blocks);
        self.keep(file, opened);
        cut
    }

    /// Makes sure of a file, and of the names where one may have changed.
    pub(crate) fn sync(&mut self, file: u64) -> Result<(), Trouble>
        ensures keeps { KnowsNames self.old.named (F.settled self.old.folder) → KnowsNames self.new.named (F.settled self.new.folder) }
        ensures names { KnowsNames self.old.named (F.settled self.old.folder) → OnOk result (F.settled self.new.folder ≡ true) }
        ensures file { OnOk result (IfSome self.new.kept (λ kept. kept.file ≡ file → F.File.settled kept.opened ≡ true)) }
    {
        self.sync_file(file)?;
        self.sync_names()
    }

    fn sync_file(&mut self, file: u64) -> Result<(), Trouble>
        ensures keeps { KnowsNames self.old.named (F.settled self.old.folder) → KnowsNames self.new.named (F.settled self.new.folder) }
        ensures file { OnOk result (IfSome self.new.kept (λ kept. kept.file ≡ file → F.File.settled kept.opened ≡ true)) }
    {
        let Some(mut opened) = self.take(file)? else {
            return Ok(());
        };
        let synced = opened.sync();
        self.keep(file, opened);
        synced
    }

    fn sync_names(&mut self) -> Result<(), Trouble>
        ensures keeps { KnowsNames self.old.named (F.settled self.old.folder) → KnowsNames self.new.named (F.settled self.new.folder) }
        ensures names { KnowsNames self.old.named (F.settled self.old.folder) → OnOk result (F.settled self.new.folder ≡ true) }
        ensures kept { self.new.kept ≡ self.old.kept }
    {
        if self.named {
            let synced = self.folder.sync();
            self.named = synced.is_err();
            synced?;
        }
        Ok(())
    }

    /// The least number above `after` of a file that has a block.
    pub(crate) fn next(&mut self, after: u64) -> Result<Option<u64>, Trouble>
        ensures above { IfOk result (λ next. IfSome next (λ file. after < file)) }
        ensures keeps { KnowsNames self.old.named (F.settled self.old.folder) → KnowsNames self.new.named (F.settled self.new.folder) }
    {
        self.folder.next(after)
    }

    /// Removes a file.
    pub(crate) fn remove(&mut self, file: u64) -> Result<(), Trouble>
        ensures noted { self.new.named ≡ true }
    {
        self.change_name(file);
        self.folder.remove(Name { file, fresh: false })
    }

    /// A view of the blocks that a file has now.
    pub(crate) fn view(&mut self, file: u64) -> Result<DirView<F::File>, Trouble>
        ensures count { IfOk result (λ view. view.faults ≡ 0) }
        ensures keeps { KnowsNames self.old.named (F.settled self.old.folder) → KnowsNames self.new.named (F.settled self.new.folder) }
    {
        let opened = self.folder.open(Name { file, fresh: false })?;
        DirView::new(opened, file, self.names)
    }

    /// Sets a view on the blocks that a file has now.
    pub(crate) fn renew(&mut self, file: u64, view: &mut DirView<F::File>) -> Result<(), Trouble>
        ensures count { view.new.faults ≡ view.old.faults }
        ensures keeps { KnowsNames self.old.named (F.settled self.old.folder) → KnowsNames self.new.named (F.settled self.new.folder) }
    {
        if view.is_of(file, self.names) {
            return view.grow();
        }
        let other = self.view(file)?;
        view.turn_to(other);
        Ok(())
    }

    /// An empty file that is to take this number, in place of any older one of the same name.
    pub(crate) fn fresh(&mut self, file: u64) -> Result<DirFresh<F::File>, Trouble>
        ensures number { IfOk result (λ fresh. fresh.file ≡ file) }
        ensures blocks { IfOk result (λ fresh. fresh.blocks ≡ 0) }
        ensures count { IfOk result (λ fresh. fresh.faults ≡ 0) }
        ensures noted { self.new.named ≡ true }
    {
        let name = Name { file, fresh: true };
        self.named = true;
        self.folder.remove(name)?;
        let opened = self.folder.make(name)?;
        Ok(DirFresh::new(opened, file))
    }

    /// Gives a fresh file the name that it is to have, and makes sure of the names.
    pub(crate) fn adopt(&mut self, file: u64) -> Result<(), Trouble>
        ensures names { OnOk result (F.settled self.new.folder ≡ true) }
        ensures keeps { KnowsNames self.new.named (F.settled self.new.folder) }
    {
        self.change_name(file);
        let from = Name { file, fresh: true };
        self.folder.rename(from, Name { file, fresh: false })?;
        self.sync_names()
    }

    /// Says bytes.
    pub(crate) fn say(&mut self, bytes: &[u8]) -> Result<(), Trouble>
        ensures { KnowsNames self.old.named (F.settled self.old.folder) → KnowsNames self.new.named (F.settled self.new.folder) }
    {
        self.folder.say(bytes)
    }

    // The file, where there is one.
    fn take(&mut self, file: u64) -> Result<Option<F::File>, Trouble>
        ensures keeps { KnowsNames self.old.named (F.settled self.old.folder) → KnowsNames self.new.named (F.settled self.new.folder) }
        ensures none { self.new.kept ≡ None }
    {
        if let Some(kept) = self.kept.take() {
            let Kept {
                file: number,
                opened,
            } = kept;
            if number == file {
                return Ok(Some(opened));
            }
        }
        self.folder.open(Name { file, fresh: false })
    }

    // The file, which is made where there is none.
    fn take_or_make(&mut self, file: u64) -> Result<F::File, Trouble>
        ensures { KnowsNames self.old.named (F.settled self.old.folder) → KnowsNames self.new.named (F.settled self.new.folder) }
    {
        if let Some(opened) = self.take(file)? {
            return Ok(opened);
        }
        self.change_name(file);
        self.folder.make(Name { file, fresh: false })
    }

    fn keep(&mut self, file: u64, opened: F::File)
        ensures folder { self.new.folder ≡ self.old.folder }
        ensures named { self.new.named ≡ self.old.named }
        ensures kept { self.new.kept ≡ Some (record { file = file; opened = opened }) }
    {
        self.kept = Some(Kept { file, opened });
    }

    // Notes that the name of this file is about to change.
    fn change_name(&mut self, file: u64)
        ensures noted { self.new.named ≡ true }
        ensures folder { self.new.folder ≡ self.old.folder }
    {
        self.named = true;
        self.names = self.names.saturating_add(1);
        if let Some(kept) = self.kept.take() {
            if kept.file != file {
                self.kept = Some(kept);
            }
        }
    }
}
