ghost use Rattle.std.specs.Prelude.{◌≡◌, ◌+◌, ◌-◌, ◌^◌, ◌≤◌, false, Ok, Some, IfOk, IfErr, OnOk, OnErr};
ghost use Rattle.block_host.specs.Disk.{untold, not_told, risen};

use crate::desk::Desk;
use crate::{DirFolder, DirFresh, DirView, Folder, Trouble};
use block_host::{Block, Failed, Fresh, Host, Settled, View};
use std::alloc::AllocError;
use std::fs::File;
use std::rt::Files;

/// A host whose files lie in a folder.
#[derive(Drop)]
pub struct FolderHost<F: Folder> {
    desk: Desk<F>,
    faults: u64,
    trouble: Option<Trouble>,
    greatest: u64,
}

/// A host whose files lie in a folder of the system.
pub type DirHost<R> = FolderHost<DirFolder<R>>;

impl<R: Files<File = File> + Print + AllocGlobal + Drop> FolderHost<DirFolder<R>> {
    /// The host of a folder, which it locks for as long as it lives. Where that can't be, `trouble` says why, and each
    /// call is a fault.
    pub fn open(rt: R, dir: &str) -> Result<FolderHost<DirFolder<R>>, AllocError>
        ensures faults { IfOk result (λ host. host.faults ≡ 0) }
        ensures greatest { IfOk result (λ host. host.greatest ≡ 0) }
    {
        Ok(FolderHost::of(DirFolder::open(rt, dir)?))
    }

    /// The same, of a folder that is made where it isn't there.
    pub fn new(rt: R, dir: &str) -> Result<FolderHost<DirFolder<R>>, AllocError>
        ensures faults { IfOk result (λ host. host.faults ≡ 0) }
        ensures greatest { IfOk result (λ host. host.greatest ≡ 0) }
    {
        Ok(FolderHost::of(DirFolder::new(rt, dir)?))
    }
}

impl<F: Folder> FolderHost<F> {
    /// The host of this folder.
    pub fn of(folder: F) -> FolderHost<F>
        ensures faults { result.faults ≡ 0 }
        ensures greatest { result.greatest ≡ 0 }
    {
        let trouble = folder.trouble();
        FolderHost {
            desk: Desk::new(folder),
            faults: 0,
            trouble,
            greatest: 0,
        }
    }

    /// Why the folder can't be used, or else why the last call that failed did.
    pub fn trouble(&self) -> Option<Trouble>
        ensures { result ≡ self.now.trouble }
    {
        self.trouble
    }

    // The answer to a call, which counts where it failed.
    fn answer<T: Drop>(&mut self, answer: Result<T, Trouble>) -> Result<T, Failed>
        ensures value { IfOk result (λ value. answer ≡ Ok value) }
        ensures ok { OnOk result (self.new ≡ self.old) }
        ensures counts { self.old.faults ≤ self.new.faults }
        ensures count { OnErr result (self.new.faults ≡ risen self.old.faults) }
        ensures trouble { IfErr answer (λ trouble. self.new.trouble ≡ Some trouble) }
        ensures greatest { self.new.greatest ≡ self.old.greatest }
    {
        match answer {
            Ok(value) => Ok(value),
            Err(trouble) => {
                self.faults = self.faults.saturating_add(1);
                self.trouble = Some(trouble);
                Err(Failed)
            }
        }
    }
}

impl<F: Folder> Host for FolderHost<F>
where
    F::File: Send,
{
    type View = DirView<F::File>;

    type Fresh = DirFresh<F::File>;

    ghost tells = { false };

    ghost disk = { λ _. untold };

    ghost faults = { λ host. host.faults };

    ghost greatest = { λ host. host.greatest };

    ghost lawful = { λ told. not_told told };

    ghost views_tell = { λ told. not_told told };

    ghost fresh_files_tell = { λ told. not_told told };

    fn size(&mut self, file: u64) -> Result<u64, Failed> {
        let size = self.desk.size(file);
        self.answer(size)
    }

    fn read(&mut self, file: u64, at: u64, out: &mut Block) -> Result<(), Failed> {
        let read = self.desk.read(file, at, out);
        self.answer(read)
    }

    fn append(&mut self, file: u64, blocks: &[Block]) -> Result<(), Failed> {
        let appended = self.desk.append(file, blocks);
        self.answer(appended)
    }

    fn put(&mut self, slot: u64, block: &Block) -> Result<(), Failed> {
        let written = self.desk.put(slot, block);
        self.answer(written)
    }

    fn cut(&mut self, file: u64, blocks: u64) -> Result<(), Failed> {
        let cut = self.desk.cut(file, blocks);
        self.answer(cut)
    }

    fn sync(&mut self, file: u64) -> Result<(), Failed> {
        let synced = self.desk.sync(file);
        self.answer(synced)
    }

    fn next_file(&mut self, after: u64) -> Result<Option<u64>, Failed> {
        let next = self.desk.next(after);
        self.answer(next)
    }

    fn remove(&mut self, file: u64) -> bool {
        self.desk.remove(file).is_ok()
    }

    fn view(&mut self, file: u64) -> Result<DirView<F::File>, Failed> {
        let view = self.desk.view(file);
        self.answer(view)
    }

    fn renew(&mut self, file: u64, view: &mut DirView<F::File>) -> Result<(), Failed> {
        let renewed = self.desk.renew(file, view);
        self.answer(renewed)
    }

    fn absorb_view(&mut self, view: DirView<F::File>) {
        if view.faults() > 0 {
            self.faults = self.faults.saturating_add(1);
        }
    }

    fn absorb_fresh(&mut self, fresh: DirFresh<F::File>) {
        if fresh.faults() > 0 {
            self.faults = self.faults.saturating_add(1);
        }
        self.greatest = self.greatest.max(Fresh::size(&fresh));
    }

    fn fresh(&mut self, file: u64) -> Result<DirFresh<F::File>, Failed> {
        let fresh = self.desk.fresh(file);
        self.answer(fresh)
    }

    fn adopt(&mut self, settled: Settled) -> Result<(), Failed> {
        let adopted = self.desk.adopt(settled.file());
        self.answer(adopted)
    }

    fn say(&mut self, bytes: &[u8]) -> Result<(), Failed> {
        let said = self.desk.say(bytes);
        self.answer(said)
    }

    fn faults(&self) -> u64 {
        self.faults
    }
}

fn is_send<T: Send>(_value: &T) {}

/// The host can be sent to another thread.
pub fn host_is_send(host: &DirHost<HostRuntime>) {
    is_send(host);
}

/// A view of the host can be sent to another thread.
pub fn view_is_send(view: &DirView<File>) {
    is_send(view);
}

/// A fresh file of the host can be sent to another thread.
pub fn fresh_is_send(fresh: &DirFresh<File>) {
    is_send(fresh);
}
