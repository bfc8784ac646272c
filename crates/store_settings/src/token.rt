ghost use Rattle.std.specs.Prelude.{◌≡◌, nat_eq};
ghost use Rattle.std.specs.Cmp.Lexicographic.{pointwise};
ghost use Rattle.std.specs.Prelude.{codes, option_map};
ghost use Rattle.store_settings.specs.Profile.{is_operand};
ghost use Rattle.store_settings.specs.Reading.{behind_of, command_of, joined_or, look_at, look_of, plain_or_stray};

use crate::words::Command;

/// What a word that stands before `--` looks like.
#[derive(Clone, Copy, Debug, PartialEq, Eq)]
pub enum Token<'a> {
    /// `--`.
    Dashes,
    /// `--memory`.
    Memory,
    /// `--max`, whose value is the next word.
    Max,
    /// `--max=` with its value.
    MaxIs(&'a [u8]),
    /// Anything else that begins with `-`, and the empty word.
    Stray,
    /// What may be an operand.
    Plain,
}

/// Whether a word is this text.
fn is_text(word: &[u8], text: &str) -> bool
    ensures { result ≡ pointwise nat_eq word.now text.now }
{
    word == text.as_bytes()
}

/// The subcommand of this name.
pub(crate) fn command_of(word: &[u8]) -> Option<Command>
    ensures { result ≡ command_of word.now }
{
    if is_text(word, "play") {
        return Some(Command::Play);
    }
    if is_text(word, "new") {
        return Some(Command::New);
    }
    None
}

/// Whether a word is neither empty nor `-` alone.
pub(crate) fn is_operand(word: &[u8]) -> bool
    ensures { result ≡ is_operand word.now }
{
    match word {
        [] => false,
        [only] => *only != b'-',
        _ => true,
    }
}

/// A word that is no option: `Plain` where it isn't empty and doesn't begin with `-`.
fn plain_or_stray<'a>(word: &[u8]) -> Token<'a>
    ensures { look_at result ≡ plain_or_stray word.now }
{
    match word {
        [] => Token::Stray,
        [first, ..] if *first == b'-' => Token::Stray,
        _ => Token::Plain,
    }
}

/// The value behind `--max=`.
fn value_of_max<'a>(word: &'a [u8]) -> Option<&'a [u8]>
    ensures { option_map (λ v. v.now) result ≡ behind_of (codes "--max=") word.now }
{
    word.strip_prefix(b"--max=")
}

/// What a word looks like.
pub(crate) fn token_of<'a>(word: &'a [u8]) -> Token<'a>
    ensures { look_at result ≡ look_of word.now }
{
    if is_text(word, "--") {
        return Token::Dashes;
    }
    if is_text(word, "--memory") {
        return Token::Memory;
    }
    if is_text(word, "--max") {
        return Token::Max;
    }
    match value_of_max(word) {
        Some(value) => Token::MaxIs(value),
        None => plain_or_stray(word),
    }
}
