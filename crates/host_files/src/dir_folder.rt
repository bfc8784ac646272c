ghost use Rattle.std.specs.Prelude.{◌≡◌, ◌<◌, ◌++◌, ◌∷◌, [], true, false, IfOk, IfSome, OnOk};
ghost use Rattle.std.specs.String.{string_bytes};
ghost use Rattle.block_host.specs.Disk.{not_told};
ghost use Rattle.host_files.specs.Names.{text_of};

use crate::name::{LONGEST, file_of, push_name};
use crate::place::BLOCK;
use crate::{Folder, Name, Opened, Trouble};
use std::alloc::AllocError;
use std::fs::{File, OpenOptions, TryLockError};
use std::io::{ErrorKind, Read};
use std::os::unix::fs::FileExt;
use std::path::Path;
use std::rt::Files;

/// A folder of the system, locked for as long as this value lives.
#[derive(Drop)]
pub struct DirFolder<R: Files<File = File> + Print + Drop> {
    rt: R,
    // the folder's name with a slash behind it
    dir: String,
    // room for the names of files
    path: String,
    other: String,
    locked: Result<File, Trouble>,
}

impl<R: Files<File = File> + Print + AllocGlobal + Drop> DirFolder<R> {
    /// A folder that has to be there.
    pub(crate) fn open(rt: R, dir: &str) -> Result<DirFolder<R>, AllocError> {
        let locked = lock(&rt, dir);
        DirFolder::with(rt, dir, locked)
    }

    /// A folder that is made where it isn't there.
    pub(crate) fn new(rt: R, dir: &str) -> Result<DirFolder<R>, AllocError> {
        let locked = match make_folder(&rt, dir) {
            Ok(()) => lock(&rt, dir),
            Err(trouble) => Err(trouble),
        };
        DirFolder::with(rt, dir, locked)
    }

    fn with(rt: R, dir: &str, locked: Result<File, Trouble>) -> Result<DirFolder<R>, AllocError> {
        let room = dir.len().saturating_add(LONGEST);
        let mut slashed = String::with_capacity(rt.alloc(), room)?;
        slashed.push_str(dir)?;
        slashed.push('/')?;
        let path = String::with_capacity(rt.alloc(), room)?;
        let other = String::with_capacity(rt.alloc(), room)?;
        Ok(DirFolder {
            rt,
            dir: slashed,
            path,
            other,
            locked,
        })
    }
}

// Makes a folder where there is none, and makes sure of its name.
fn make_folder<R: Files<File = File>>(rt: &R, dir: &str) -> Result<(), Trouble> {
    match rt.create_dir(dir) {
        Ok(()) => {
            let above = match Path::new(dir).parent() {
                Some(above) if !above.as_str().is_empty() => above.as_str(),
                _ => ".",
            };
            File::open(rt, above)?.sync_all()?;
            Ok(())
        }
        Err(error) if error.kind() == ErrorKind::AlreadyExists => Ok(()),
        Err(error) => Err(Trouble::from(error)),
    }
}

// Opens a folder and takes its lock, which nobody else then gets.
fn lock<R: Files<File = File>>(rt: &R, dir: &str) -> Result<File, Trouble> {
    let folder = File::open(rt, dir)?;
    if !folder.metadata()?.is_dir() {
        return Err(Trouble::NoFolder);
    }
    match folder.try_lock() {
        Ok(()) => Ok(folder),
        Err(TryLockError::WouldBlock) => Err(Trouble::InUse),
        Err(TryLockError::Error(error)) => Err(Trouble::from(error)),
    }
}

// Writes the path of a name in a folder.
fn write_path(path: &mut String, dir: &str, name: Name) -> Result<(), AllocError>
    ensures { OnOk result (string_bytes path.new ≡ dir.now ++ text_of name) }
{
    path.clear();
    path.push_str(dir)?;
    push_name(path, name)
}

impl<R: Files<File = File> + Print + Drop> DirFolder<R> {
    fn usable(&self) -> Result<&File, Trouble> {
        match &self.locked {
            Ok(folder) => Ok(folder),
            Err(trouble) => Err(*trouble),
        }
    }

    fn write_path(&mut self, name: Name) -> Result<(), AllocError>
        ensures { OnOk result (string_bytes self.new.path ≡ string_bytes self.old.dir ++ text_of name) }
    {
        write_path(&mut self.path, self.dir.as_str(), name)
    }

    // The least of a file's number, if it is above `after` and has a whole block, and another.
    fn least(&mut self, name: &[u8], after: u64, least: Option<u64>) -> Result<Option<u64>, Trouble>
        requires { IfSome least (λ file. after < file) }
        ensures { IfOk result (λ least. IfSome least (λ file. after < file)) }
    {
        match file_of(name) {
            Some(file) if file > after && least.is_none_or(|other| file < other) => {
                if self.has_blocks(file)? {
                    Ok(Some(file))
                } else {
                    Ok(least)
                }
            }
            _ => Ok(least),
        }
    }

    fn has_blocks(&mut self, file: u64) -> Result<bool, Trouble> {
        self.write_path(Name { file, fresh: false })?;
        let found = self.rt.metadata(self.path.as_str())?;
        Ok(found.is_file() && found.len() >= BLOCK)
    }

    // The least of the files that these names are of, each ended by a zero byte, and another.
    fn least_of(
        &mut self,
        names: &[u8],
        after: u64,
        least: Option<u64>,
    ) -> Result<Option<u64>, Trouble>
        requires { IfSome least (λ file. after < file) }
        ensures { IfOk result (λ least. IfSome least (λ file. after < file)) }
    {
        let mut least = least;
        let mut begin = 0;
        for (at, byte) in names.iter().enumerate() {
            if *byte == 0 {
                least = self.least(&names[begin..at], after, least)?;
                begin = at + 1;
            }
        }
        Ok(least)
    }
}

impl<R: Files<File = File> + Print + Drop> Folder for DirFolder<R> {
    type File = File;

    ghost settled = { λ _. true };

    fn trouble(&self) -> Option<Trouble> {
        self.usable().err()
    }

    fn open(&mut self, name: Name) -> Result<Option<File>, Trouble> {
        self.usable()?;
        self.write_path(name)?;
        match OpenOptions::new()
            .read(true)
            .write(true)
            .open(&self.rt, self.path.as_str())
        {
            Ok(file) => Ok(Some(file)),
            Err(error) if error.kind() == ErrorKind::NotFound => Ok(None),
            Err(error) => Err(Trouble::from(error)),
        }
    }

    fn make(&mut self, name: Name) -> Result<File, Trouble> {
        self.usable()?;
        self.write_path(name)?;
        Ok(File::create_new(&self.rt, self.path.as_str())?)
    }

    fn rename(&mut self, from: Name, to: Name) -> Result<(), Trouble> {
        self.usable()?;
        self.write_path(from)?;
        write_path(&mut self.other, self.dir.as_str(), to)?;
        self.rt.rename(self.path.as_str(), self.other.as_str())?;
        Ok(())
    }

    fn remove(&mut self, name: Name) -> Result<(), Trouble> {
        self.usable()?;
        self.write_path(name)?;
        match self.rt.remove_file(self.path.as_str()) {
            Ok(()) => Ok(()),
            Err(error) if error.kind() == ErrorKind::NotFound => Ok(()),
            Err(error) => Err(Trouble::from(error)),
        }
    }

    fn sync(&mut self) -> Result<(), Trouble> {
        self.usable()?.sync_all()?;
        Ok(())
    }

    fn next(&mut self, after: u64) -> Result<Option<u64>, Trouble> {
        self.usable()?;
        let mut names = self.rt.open_dir(self.dir.as_str())?;
        let mut room = [0; 4096];
        let mut least = None;
        for _ in 0..u64::MAX {
            let used = names.read(&mut room)?;
            if used == 0 {
                return Ok(least);
            }
            least = self.least_of(&room[..used], after, least)?;
        }
        Err(Trouble::Other)
    }

    fn say(&mut self, bytes: &[u8]) -> Result<(), Trouble> {
        self.usable()?;
        self.rt.write_all(bytes)?;
        Ok(())
    }
}

impl Opened for File {
    ghost tells = { false };

    ghost bytes = { λ _. [] };

    ghost settled = { λ _. true };

    ghost bounded = { λ told. not_told told };

    fn len(&self) -> Result<u64, Trouble> {
        Ok(self.metadata()?.len())
    }

    fn fill(&self, at: u64, room: &mut [u8; 4096]) -> Result<bool, Trouble> {
        match self.read_exact_at(room, at) {
            Ok(()) => Ok(true),
            Err(error) if error.kind() == ErrorKind::UnexpectedEof => Ok(false),
            Err(error) => Err(Trouble::from(error)),
        }
    }

    fn write(&mut self, at: u64, part: &[u8]) -> Result<(), Trouble> {
        self.write_all_at(part, at)?;
        Ok(())
    }

    fn resize(&mut self, len: u64) -> Result<(), Trouble> {
        self.set_len(len)?;
        Ok(())
    }

    fn sync(&mut self) -> Result<(), Trouble> {
        self.sync_data()?;
        Ok(())
    }
}
