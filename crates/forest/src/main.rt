//! The program `forest`. It runs the script of its standard input over a new store in memory, and writes the
//! reply lines to its standard output. It ends with the status of the run, with 4 where the replies can't be
//! written, and with 5 where there is no memory for the run or in the host.
#![tactic(auto)]

ghost use Rattle.std.specs.Prelude.{◌≡◌, ◌≤◌, ℕ, IfOk};
ghost use Rattle.host_memory.specs.Memory.{memory_short};
ghost use Rattle.forest.specs.Ending.{EndsAs};

mod answers;
mod ending;
#[cfg(test)]
mod tests;
mod words;

use answers::{new_host, play_in_memory};
use block_host::StdSource;
use ending::{Ending, NO_MEMORY, WORDS_REFUSED, status_at_end};
use host_memory::MemoryHost;
use play_run::Played;
use std::alloc::AllocError;
use std::process::ExitCode;

/// What is told on standard error where the words are refused.
const USAGE: &str = "\
usage: forest play --memory

Runs the script of standard input over a new store in memory, and says one reply line per line.
A line is a lane from 0 to 15 and one of `use NAME`, `use NAME ro`, `remove NAME`, `set KEY BODY`, `set KEY BODY META`,
`del KEY`, `batch ITEM ..`, `get KEY`, `byseq SEQ`, `commit` and `info`.
";

fn main(rt: HostRuntime) -> ExitCode {
    match run(&rt) {
        Ok(ending) => ExitCode::from(ending.status),
        Err(AllocError) => ExitCode::from(NO_MEMORY),
    }
}

/// Runs the script of standard input over a new store in memory, as the words ask.
fn run(rt: &HostRuntime) -> Result<Ending, AllocError>
    ensures { IfOk result (λ ending. (status : ℕ) × (short : ℕ) × (status ≤ 5) × EndsAs status ending.written short ending.status) }
{
    let words = words::given(rt)?;
    let mut source = StdSource::new(rt.stdin());
    let host = new_host(rt.alloc())?;
    let played = play_in_memory(rt.alloc(), words.as_slice(), &mut source, host);
    Ok(tell(rt, played))
}

/// Writes what was said to standard output and, where the words are refused, a usage text to standard error.
fn tell(rt: &(impl Print + Eprint), played: Played<MemoryHost>) -> Ending
    ensures { EndsAs played.status result.written (memory_short played.host) result.status }
{
    let Played { status, host } = played;
    let written = rt.write_all(host.said()).is_ok();
    if status == WORDS_REFUSED {
        let _unheard = rt.eprint(USAGE);
    }
    Ending {
        written,
        status: status_at_end(status, written, host.short()),
    }
}
