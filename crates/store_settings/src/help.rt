use crate::words::Usage;
use clap::{Arg, ArgAction, Command};
use std::alloc::{AllocError, Global};

/// The usage of `forest play`.
fn play_help(alloc: Global) -> Result<String, AllocError> {
    let dir = Arg::new(alloc, "DIR").help("The folder of the store");
    let memory = Arg::new(alloc, "memory")
        .long("memory")
        .action(ArgAction::SetTrue)
        .help("A new store in memory, in place of DIR");
    let max = Arg::new(alloc, "N")
        .long("max")
        .help("A file has at most N blocks, 16 to 4294967296");
    Command::new(alloc, "forest play")
        .about("Runs the script of standard input, and says one reply line per line.")
        .disable_help_flag(true)
        .arg(dir)?
        .arg(memory)?
        .arg(max)?
        .render_help()
}

/// The usage of `forest new`.
fn new_help(alloc: Global) -> Result<String, AllocError> {
    let dir = Arg::new(alloc, "DIR")
        .required(true)
        .help("The folder of the store");
    Command::new(alloc, "forest new")
        .about("Formats an empty store.")
        .disable_help_flag(true)
        .arg(dir)?
        .render_help()
}

/// The line that names the word at fault.
fn fault_line(alloc: Global, words: &[String], usage: Usage) -> Result<String, AllocError> {
    let mut text = String::new(alloc);
    match usage {
        Usage::Word(index) => {
            text.push_str("refused: ")?;
            if let Some(word) = words.get(index) {
                text.push_str(word.as_str())?;
            }
        }
        Usage::Missing => text.push_str("a word is missing")?,
    }
    text.push_str("\n\n")?;
    Ok(text)
}

/// What is told of refused words on standard error: the word at fault, and what is taken.
pub fn usage_text(alloc: Global, words: &[String], usage: Usage) -> Result<String, AllocError> {
    let mut text = fault_line(alloc, words, usage)?;
    let play = play_help(alloc)?;
    text.push_str(play.as_str())?;
    text.push_str("\n")?;
    let new = new_help(alloc)?;
    text.push_str(new.as_str())?;
    Ok(text)
}
