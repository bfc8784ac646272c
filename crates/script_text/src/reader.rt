ghost use Rattle.std.specs.Prelude.{◌≡◌, ◌∷◌, [], IsTrue, OnErr};
ghost use Rattle.std.specs.Option.{option_map_or};
ghost use Rattle.script_text.specs.Reading.{Gives, GivesBy, count_at, end_at, keyword_at, none_left, number_at, text_at, text_takes_memory, word_at, words_in};

use crate::bytes::bytes_of;
use crate::keyword::Keyword;
use crate::number::number_of;
use crate::unread::Unread;
use forest_model::Bytes;
use std::alloc::Global;
use std::marker::Model;

/// The words of a line that aren't read yet.
#[derive(Drop)]
pub(crate) struct Reader<'a> {
    left: Option<&'a [u8]>,
}

impl<'a> Model for Reader<'a> {
    ghost use Rattle.std.specs.Prelude.{List, ℕ, []};
    ghost use Rattle.std.specs.Option.{option_map_or};
    ghost use Rattle.script_text.specs.Reading.{words_in};

    ghost Value = { List (List ℕ) };

    ghost view = { λ r. option_map_or (λ text. words_in text.now) r.left [] };
}

/// The word before the first space, and what follows that space.
fn first_word(text: &[u8]) -> (&[u8], Option<&[u8]>)
    ensures { words_in text.now ≡ result.0.now ∷ option_map_or (λ rest. words_in rest.now) result.1 [] }
{
    for (i, byte) in text.iter().enumerate() {
        if *byte == b' ' {
            return (&text[..i], Some(&text[i + 1..]));
        }
    }
    (text, None)
}

impl<'a> Reader<'a> {
    /// All words of a text.
    pub(crate) fn new(text: &'a [u8]) -> Reader<'a>
        ensures { result ≡ words_in text.now }
    {
        Reader { left: Some(text) }
    }

    /// Whether each word is read.
    pub(crate) fn is_done(&self) -> bool
        ensures { result ≡ none_left self.now }
    {
        self.left.is_none()
    }

    /// The end.
    #[tactic(auto, unfolding(crate::specs::Reading::end_at))]
    pub(crate) fn end(&mut self) -> Result<(), Unread>
        ensures gives { Gives result self.new (end_at self.old) }
        ensures never_memory { OnErr result (result ≡ Err Unread.NotALine) }
    {
        if !self.is_done() {
            return Err(Unread::NotALine);
        }
        Ok(())
    }

    #[tactic(auto, unfolding(crate::specs::Reading::word_at))]
    fn word(&mut self) -> Result<&'a [u8], Unread>
        ensures gives { GivesBy (λ w. w.now) result self.new (word_at self.old) }
        ensures never_memory { OnErr result (result ≡ Err Unread.NotALine) }
    {
        let text = self.left.ok_or(Unread::NotALine)?;
        let (word, rest) = first_word(text);
        self.left = rest;
        Ok(word)
    }

    /// A word of the language.
    #[tactic(auto, unfolding(crate::specs::Reading::keyword_at))]
    pub(crate) fn keyword(&mut self) -> Result<Keyword, Unread>
        ensures gives { Gives result self.new (keyword_at self.old) }
        ensures never_memory { OnErr result (result ≡ Err Unread.NotALine) }
    {
        Keyword::of(self.word()?).ok_or(Unread::NotALine)
    }

    /// The bytes of a text word.
    #[tactic(auto, unfolding(crate::specs::Reading::text_at, crate::specs::Reading::text_takes_memory))]
    pub(crate) fn text(&mut self, alloc: Global) -> Result<Bytes, Unread>
        ensures gives { Gives result self.new (text_at self.old) }
        ensures memory { result ≡ Err Unread.NoMemory → IsTrue (text_takes_memory self.old) }
    {
        bytes_of(alloc, self.word()?)
    }

    /// A number below 2^64.
    #[tactic(auto, unfolding(crate::specs::Reading::number_at))]
    pub(crate) fn number(&mut self) -> Result<u64, Unread>
        ensures gives { Gives result self.new (number_at self.old) }
        ensures never_memory { OnErr result (result ≡ Err Unread.NotALine) }
    {
        number_of(self.word()?).ok_or(Unread::NotALine)
    }

    /// A number of things, at least one and at most so many.
    #[tactic(auto, unfolding(crate::specs::Reading::count_at))]
    pub(crate) fn count(&mut self, most: u64) -> Result<u64, Unread>
        ensures gives { Gives result self.new (count_at most self.old) }
        ensures never_memory { OnErr result (result ≡ Err Unread.NotALine) }
    {
        let count = self.number()?;
        if 1 <= count && count <= most {
            return Ok(count);
        }
        Err(Unread::NotALine)
    }
}
