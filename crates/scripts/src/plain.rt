ghost use Rattle.std.specs.Prelude.{IfSome};
ghost use Rattle.script_text.specs.Replies.{CanBeSaid};

use crate::case::Ended;
use forest_model::{Bytes, Line, Refusal, Said, Sequence, Store, Told};
use forest_oracle::Oracle;
use plain_session::PlainSession;
use script_text::{line_of, reply_text};
use std::alloc::Global;
use std::str;
use std::test::Fail;

// A refusal that has a text.
fn refused(why: Refusal) -> Option<Said>
    ensures { IfSome result CanBeSaid }
{
    match why {
        Refusal::NoMemory
        | Refusal::DiskFault
        | Refusal::Exists
        | Refusal::Stopped { .. }
        | Refusal::Damaged { .. } => None,
        why => Some(Said::Refused { why }),
    }
}

// What is said, where it has a text.
fn with_text(said: Said) -> Option<Said>
    ensures { IfSome result CanBeSaid }
{
    match said {
        Said::Refused { why } => refused(why),
        said => Some(said),
    }
}

// A new store whose `default` has drawn this number last.
fn oracle_from(alloc: Global, seq: u64) -> Result<Oracle, Fail> {
    let mut stores = Sequence::new(alloc);
    stores.push(Store {
        id: 0,
        name: Bytes::copy_of(alloc, b"default")?,
        seq,
    })?;
    let mut oracle = Oracle::new(alloc)?;
    oracle.state.stores = stores;
    Ok(oracle)
}

// Says what is told.
fn say(alloc: Global, said: &mut String, told: Told) -> Result<(), Fail> {
    let answer = with_text(told.said).ok_or("no text")?;
    let text = reply_text(alloc, told.lane, told.place, &answer)?;
    said.push_str(str::from_utf8(text.as_slice())?)?;
    said.push('\n')?;
    Ok(())
}

fn tell(session: &mut PlainSession, line: Line) -> Result<Told, Fail> {
    if line.lane >= 16 {
        return Err(Fail::new("no lane"));
    }
    Ok(session.tell(line)?.ok_or("nothing is told")?)
}

// Runs the lines of a script up to the first bad one, and gives the status.
fn run_lines(
    alloc: Global,
    session: &mut PlainSession,
    script: &str,
    said: &mut String,
) -> Result<u8, Fail> {
    let mut number: u64 = 0;
    for text in script.split('\n') {
        number = number.saturating_add(1);
        let Some(line) = line_of(alloc, text.as_bytes(), false)? else {
            write!(said, "line {number}: bad line\n")?;
            return Ok(3);
        };
        say(alloc, said, tell(session, line)?)?;
    }
    Ok(0)
}

/// Runs a script by the plain session, over a new store whose `default` has drawn this number last.
pub(crate) fn plain_run(alloc: Global, seq: u64, script: &str) -> Result<Ended, Fail> {
    let mut session = PlainSession::new(alloc, oracle_from(alloc, seq)?)?;
    let mut said = String::new(alloc);
    let lines = script.strip_suffix('\n').unwrap_or(script);
    let status = match script.is_empty() {
        true => 0,
        false => run_lines(alloc, &mut session, lines, &mut said)?,
    };
    Ok(Ended { status, said })
}
