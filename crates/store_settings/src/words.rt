ghost use Rattle.std.specs.Prelude.{◌≡◌, ◌+◌, ◌<◌, ◌++◌, ℕ, List, [], None, Ok, Err, map, take, length, IfOk, IfErr, IsErr, IsSome, IsOkAnd, OnErr};
ghost use Rattle.std.specs.String.{string_bytes};
ghost use Rattle.store_settings.specs.declared.words.Usage.TheVariants.{Word};
ghost use Rattle.store_settings.specs.declared.words.Where.TheVariants.{Nowhere};
ghost use Rattle.forest_model.specs.declared.refusal.Refusal.TheVariants.{NoMemory};
ghost use Rattle.store_settings.specs.Profile.{AreWords, AskFor, Request, Text, dir_of, limits_of, request_of, takes, where_of};
ghost use Rattle.store_settings.specs.Reading.{read, start, state_of};

use crate::reader::Reader;
use crate::token::command_of;
use forest_model::{Bytes, Limits, Refusal};
use std::alloc::Global;

/// What the program does.
#[derive(Clone, Copy, Debug, PartialEq, Eq)]
pub enum Command {
    /// Runs a script.
    Play,
    /// Formats an empty store.
    New,
}

/// An option.
#[derive(Clone, Copy, Debug, PartialEq, Eq)]
pub enum Choice {
    /// `--memory`: the store is in memory.
    Memory,
    /// `--max N`: a file has at most N blocks, 16 to 2^32.
    Max,
}

impl Command {
    /// Whether the subcommand has this option.
    pub(crate) fn takes(self, choice: Choice) -> bool
        ensures { result ≡ takes self choice }
    {
        match (self, choice) {
            (Command::Play, Choice::Memory | Choice::Max) => true,
            (Command::New, _) => false,
        }
    }
}

/// Where the store lies.
#[derive(Clone, Copy, Debug, PartialEq, Eq)]
pub enum Place<'a> {
    Memory,
    Dir(&'a [u8]),
}

/// What words ask for.
#[derive(Clone, Copy, Debug, PartialEq, Eq)]
pub struct Asked<'a> {
    pub command: Command,
    pub place: Place<'a>,
    /// The number of `--max`, where it is given.
    pub max: Option<u64>,
}

impl<'a> Asked<'a> {
    /// The limits that the words give: 2^32 blocks where they don't say, and a flush from 4,096 entries on.
    pub fn limits(&self) -> Limits
        ensures { result ≡ limits_of self.now.max }
    {
        Limits {
            max_blocks: self.max.unwrap_or(1 << 32),
            threshold: 4096,
        }
    }
}

/// Why words are refused.
#[derive(Clone, Copy, Debug, PartialEq, Eq)]
pub enum Usage {
    /// The word with this number, counted from 0, can't stand where it does.
    Word(usize),
    /// A word is missing at the end.
    Missing,
}

/// Reads the words behind a subcommand. The error is the number of the word that can't stand there.
fn read_behind<'a>(command: Command, words: &'a [String]) -> Result<Reader<'a>, usize>
    ensures ok { IfOk result (λ r. read (state_of r) [] ≡ read (start command) (map string_bytes words.now)) }
    ensures err { IfErr result (λ i. (i < length words.now) × ((more : List Text) → read (start command) (take (i + 1) (map string_bytes words.now) ++ more) ≡ None)) }
{
    let mut reader = Reader::new(command);
    for index in 0..words.len() {
        match reader.with(words[index].as_bytes()) {
            Some(next) => reader = next,
            None => return Err(index),
        }
    }
    Ok(reader)
}

/// What words ask for. It takes no memory.
pub fn read_words<'a>(words: &'a [String]) -> Result<Asked<'a>, Usage>
    // Words are taken exactly where they are in the profile, and give then what they ask for.
    ensures taken { IfOk result (λ a. AskFor (map string_bytes words.now) (request_of a)) }
    ensures all { (request : Request) → AskFor (map string_bytes words.now) request → IsOkAnd result (λ a. request_of a ≡ request) }

    // No words that begin with those up to the one at fault are in the profile.
    ensures word { (index : ℕ) → result ≡ Err (Word index) → (index < length words.now) × ((more : List Text) → ¬ (AreWords (take (index + 1) (map string_bytes words.now) ++ more))) }
{
    let [first, rest @ ..] = words else {
        return Err(Usage::Missing);
    };
    let Some(command) = command_of(first.as_bytes()) else {
        return Err(Usage::Word(0));
    };
    match read_behind(command, rest) {
        Ok(reader) => reader.end().ok_or(Usage::Missing),
        Err(index) => Err(Usage::Word(index + 1)),
    }
}

/// Where the store lies of which a program's words speak.
#[derive(Debug, Drop, PartialEq, Eq)]
pub enum Where {
    /// In memory.
    Memory,
    /// In this folder.
    Dir(Bytes),
    /// The words are refused.
    Nowhere,
}

/// The same, for words that are taken.
fn where_of(alloc: Global, place: Place<'_>) -> Result<Where, Refusal>
    ensures ok { IfOk result (λ w. w ≡ where_of (dir_of place.entry)) }
    ensures memory { OnErr result (result ≡ Err NoMemory) }
    ensures free { IsErr result → IsSome (dir_of place.entry) }
{
    match place {
        Place::Memory => Ok(Where::Memory),
        Place::Dir(word) => match Bytes::copy_of(alloc, word) {
            Ok(bytes) => Ok(Where::Dir(bytes)),
            Err(_) => Err(Refusal::NoMemory),
        },
    }
}

/// Where the store lies: in memory, in DIR, or nowhere where the words are refused.
pub fn place_of(words: &[String]) -> Result<Where, Refusal>
    ensures place { (request : Request) → AskFor (map string_bytes words.now) request → IfOk result (λ w. w ≡ where_of request.dir) }
    ensures nowhere { ¬ (AreWords (map string_bytes words.now)) → IsOkAnd result (λ w. w ≡ Nowhere) }

    // It is refused for want of memory alone, and takes memory only for DIR.
    ensures memory { OnErr result (result ≡ Err NoMemory) }
    ensures free { IsErr result → (request : Request) × AskFor (map string_bytes words.now) request × IsSome request.dir }
{
    let [first, ..] = words else {
        return Ok(Where::Nowhere);
    };
    match read_words(words) {
        Ok(asked) => where_of(*first.allocator(), asked.place),
        Err(_) => Ok(Where::Nowhere),
    }
}
