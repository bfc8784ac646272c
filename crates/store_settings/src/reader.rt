ghost use Rattle.std.specs.Prelude.{◌≡◌, option_map};
ghost use Rattle.store_settings.specs.Profile.{request_of};
ghost use Rattle.store_settings.specs.Reading.{end, look_of, mixed, start, state_of, step, takes_max, with_dir, with_max, with_memory};

use crate::number::max_of;
use crate::token::{Token, is_operand, token_of};
use crate::words::{Asked, Choice, Command, Place};

/// What the next word may be.
#[derive(Clone, Copy, Debug, PartialEq, Eq)]
pub enum Mode {
    /// An option or an operand.
    Mixed,
    /// The value of `--max`.
    Value,
    /// An operand, since `--` has come.
    Operands,
}

/// What was read so far of the words behind a subcommand.
#[derive(Clone, Copy, Debug)]
pub struct Reader<'a> {
    command: Command,
    mode: Mode,
    in_memory: bool,
    dir: Option<&'a [u8]>,
    max: Option<u64>,
}

impl<'a> Reader<'a> {
    /// Nothing yet.
    pub(crate) fn new(command: Command) -> Reader<'a>
        ensures { state_of result ≡ start command }
    {
        Reader {
            command,
            mode: Mode::Mixed,
            in_memory: false,
            dir: None,
            max: None,
        }
    }

    /// With one word more, where it may stand here.
    pub(crate) fn with(self, word: &'a [u8]) -> Option<Reader<'a>>
        ensures { option_map state_of result ≡ step (state_of self.entry) word.now }
    {
        match self.mode {
            Mode::Mixed => self.with_mixed(word),
            Mode::Value => self.with_max(word),
            Mode::Operands if is_operand(word) => self.with_dir(word),
            Mode::Operands => None,
        }
    }

    /// With an option or operand more.
    fn with_mixed(self, word: &'a [u8]) -> Option<Reader<'a>>
        ensures { option_map state_of result ≡ mixed (look_of word.now) (state_of self.entry) word.now }
    {
        match token_of(word) {
            Token::Dashes => Some(Reader {
                mode: Mode::Operands,
                ..self
            }),
            Token::Memory => self.with_memory(),
            Token::Max if self.takes_max() => Some(Reader {
                mode: Mode::Value,
                ..self
            }),
            Token::MaxIs(value) if self.takes_max() => self.with_max(value),
            Token::Max | Token::MaxIs(_) | Token::Stray => None,
            Token::Plain => self.with_dir(word),
        }
    }

    /// With `--memory`, where nothing says yet where the store lies.
    fn with_memory(self) -> Option<Reader<'a>>
        ensures { option_map state_of result ≡ with_memory (state_of self.entry) }
    {
        if self.command.takes(Choice::Memory) && !self.in_memory && self.dir.is_none() {
            return Some(Reader {
                in_memory: true,
                ..self
            });
        }
        None
    }

    /// With DIR, where nothing says yet where the store lies.
    fn with_dir(self, word: &'a [u8]) -> Option<Reader<'a>>
        ensures { option_map state_of result ≡ with_dir (state_of self.entry) word.now }
    {
        if self.in_memory || self.dir.is_some() {
            return None;
        }
        Some(Reader {
            dir: Some(word),
            ..self
        })
    }

    /// Whether `--max` may be given here.
    fn takes_max(self) -> bool
        ensures { result ≡ takes_max (state_of self.entry) }
    {
        self.command.takes(Choice::Max) && self.max.is_none()
    }

    /// With the value of `--max`.
    fn with_max(self, word: &[u8]) -> Option<Reader<'a>>
        ensures { option_map state_of result ≡ with_max (state_of self.entry) word.now }
    {
        match max_of(word) {
            Some(number) => Some(Reader {
                mode: Mode::Mixed,
                max: Some(number),
                ..self
            }),
            None => None,
        }
    }

    /// What is asked for, where the words end here.
    pub(crate) fn end(self) -> Option<Asked<'a>>
        ensures { option_map request_of result ≡ end (state_of self.entry) }
    {
        if self.mode == Mode::Value {
            return None;
        }
        let place = match self.dir {
            _ if self.in_memory => Place::Memory,
            Some(word) => Place::Dir(word),
            None => return None,
        };
        Some(Asked {
            command: self.command,
            place,
            max: self.max,
        })
    }
}
