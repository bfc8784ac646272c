use std::alloc::AllocError;
use std::fmt;
use std::io::{Error, ErrorKind};

/// Why a call failed.
#[derive(Clone, Copy, Debug, PartialEq, Eq)]
pub enum Trouble {
    /// Another host has the folder.
    InUse,
    /// There is no folder of this name.
    NoFolder,
    NoPermission,
    FullDisk,
    NoMemory,
    /// The file would be longer than the system takes.
    TooLarge,
    Other,
}

impl From<Error> for Trouble {
    fn from(error: Error) -> Trouble {
        match error.kind() {
            ErrorKind::NotFound | ErrorKind::NotADirectory => Trouble::NoFolder,
            ErrorKind::PermissionDenied | ErrorKind::ReadOnlyFilesystem => Trouble::NoPermission,
            ErrorKind::StorageFull | ErrorKind::QuotaExceeded => Trouble::FullDisk,
            ErrorKind::OutOfMemory => Trouble::NoMemory,
            ErrorKind::FileTooLarge => Trouble::TooLarge,
            _ => Trouble::Other,
        }
    }
}

impl From<AllocError> for Trouble {
    fn from(_error: AllocError) -> Trouble {
        Trouble::NoMemory
    }
}

impl fmt::Display for Trouble {
    fn fmt<W: fmt::Write>(&self, f: &mut fmt::Formatter<W>) -> fmt::Result {
        f.write_str(match self {
            Trouble::InUse => "the store is in use",
            Trouble::NoFolder => "there is no such folder",
            Trouble::NoPermission => "the folder may not be used",
            Trouble::FullDisk => "the disk is full",
            Trouble::NoMemory => "out of memory",
            Trouble::TooLarge => "the file is too large",
            Trouble::Other => "the system refused a call",
        })
    }
}
