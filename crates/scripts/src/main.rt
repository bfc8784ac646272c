//! The program `scripts`. It runs the cases of the files of a folder, the one where it is started or the one named: scripts
//! with what is said for them and their status, and texts that are lines or none. It tells each case that fails on standard
//! error, and ends with status 1 then. `docs/CASES.md` says how a case is written.
#![tactic(auto)]

mod case;
mod plain;
mod rows;
mod spelling;
mod unfolded;

use rows::Rows;
use std::process::ExitCode;
use std::test::Fail;
use std::{env, fs, io};

fn main(rt: HostRuntime) -> Result<ExitCode, Fail> {
    let mut rows = Rows::new(rt.alloc());
    read_files(&rt, &mut rows)?;
    let failed = rows.failed()?;
    rt.eprint(failed)?;
    Ok(ExitCode::from(!failed.is_empty() as u8))
}

/// Runs the cases of each file of the folder.
fn read_files(rt: &HostRuntime, rows: &mut Rows) -> Result<(), Fail> {
    for name in file_names(rt)? {
        let text = fs::read_to_string(rt, name.as_str())?;
        rows.read(name.as_str(), text.as_str())?;
    }
    Ok(())
}

/// The paths of the folder's files, in order.
fn file_names(rt: &HostRuntime) -> io::Result<Vec<String>> {
    match env::args(rt)?.nth(1) {
        Some(folder) => names_in(rt, folder.as_str()),
        None => names_in(rt, "."),
    }
}

fn names_in(rt: &HostRuntime, folder: &str) -> io::Result<Vec<String>> {
    let mut names = Vec::new(rt.alloc());
    for entry in fs::read_dir(rt, folder)? {
        names.push(String::from_str(rt.alloc(), entry?.path().as_str())?)?;
    }
    names.sort()?;
    Ok(names)
}
