ghost use Rattle.std.specs.Prelude.{◌≡◌, ◌++◌, ◌∷◌, [], List, ℕ, OnOk, OnErr, IfOk, ◌<◌};
ghost use Rattle.std.specs.Fmt.{decimal};
ghost use Rattle.script_text.specs.Words.{word_of, spaced, is_plain, hex_digit, byte_spelling};
ghost use Rattle.std.specs.String.{string_bytes};
ghost use Rattle.std.specs.List.{flat_map};
ghost use Rattle.script_text.specs.Grammar.{meta_words};

use crate::bytes::is_plain;
use forest_model::{Bytes, Refusal};
use std::alloc::Global;
use std::marker::Model;

/// The words of a line or a reply that are written so far, as text.
#[derive(Drop)]
pub(crate) struct Writer {
    text: String,
}

impl Model for Writer {
    ghost use Rattle.std.specs.Prelude.{List, ℕ};
    ghost use Rattle.std.specs.String.{string_bytes};

    ghost Value = { List ℕ };

    ghost view = { λ w. string_bytes w.text };
}

impl Writer {
    /// The first word, the lane's.
    pub(crate) fn new(alloc: Global, lane: u8) -> Result<Writer, Refusal>
        ensures ok { IfOk result (λ w. w ≡ decimal lane) }
        ensures memory { OnErr result (result ≡ Err Refusal.NoMemory) }
    {
        Ok(Writer {
            text: format!(in alloc; "{lane}")?,
        })
    }

    /// A further word.
    pub(crate) fn word(&mut self, word: &str) -> Result<(), Refusal>
        ensures ok { OnOk result (self.new ≡ self.old ++ spaced (word.now ∷ [])) }
        ensures memory { OnErr result (result ≡ Err Refusal.NoMemory) }
    {
        self.text.push(' ')?;
        self.text.push_str(word)?;
        Ok(())
    }

    /// A number.
    pub(crate) fn number(&mut self, number: u64) -> Result<(), Refusal>
        ensures ok { OnOk result (self.new ≡ self.old ++ spaced (decimal number ∷ [])) }
        ensures memory { OnErr result (result ≡ Err Refusal.NoMemory) }
    {
        write!(self.text, " {number}")?;
        Ok(())
    }

    /// Bytes as a text word.
    pub(crate) fn text(&mut self, bytes: &[u8]) -> Result<(), Refusal>
        ensures ok { OnOk result (self.new ≡ self.old ++ spaced (word_of bytes.now ∷ [])) }
        ensures memory { OnErr result (result ≡ Err Refusal.NoMemory) }
    {
        if bytes.is_empty() {
            return self.word("-");
        }
        if bytes == b"-".as_slice() {
            return self.word("%2D");
        }
        self.text.push(' ')?;
        push_bytes(&mut self.text, bytes)?;
        Ok(())
    }

    /// The meta at the end, where there is any.
    #[tactic(auto, using(crate::proofs::Splitting::spaced_nil), unfolding(crate::specs::Grammar::meta_words))]
    pub(crate) fn meta(&mut self, meta: &[u8]) -> Result<(), Refusal>
        ensures ok { OnOk result (self.new ≡ self.old ++ spaced (meta_words meta.now)) }
        ensures memory { OnErr result (result ≡ Err Refusal.NoMemory) }
    {
        if meta.is_empty() {
            return Ok(());
        }
        self.text(meta)
    }

    /// A word and a number.
    #[tactic(auto, using(crate::proofs::Splitting::spaced_cons))]
    pub(crate) fn named(&mut self, name: &str, number: u64) -> Result<(), Refusal>
        ensures ok { OnOk result (self.new ≡ self.old ++ spaced (name.now ∷ decimal number ∷ [])) }
        ensures memory { OnErr result (result ≡ Err Refusal.NoMemory) }
    {
        self.word(name)?;
        self.number(number)
    }

    /// A word and bytes as a text word.
    #[tactic(auto, using(crate::proofs::Splitting::spaced_cons))]
    pub(crate) fn keyed(&mut self, name: &str, bytes: &[u8]) -> Result<(), Refusal>
        ensures ok { OnOk result (self.new ≡ self.old ++ spaced (name.now ∷ word_of bytes.now ∷ [])) }
        ensures memory { OnErr result (result ≡ Err Refusal.NoMemory) }
    {
        self.word(name)?;
        self.text(bytes)
    }

    /// A word and two numbers.
    #[tactic(auto, using(crate::proofs::Splitting::spaced_cons))]
    pub(crate) fn counted(&mut self, name: &str, first: u64, second: u64) -> Result<(), Refusal>
        ensures ok { OnOk result (self.new ≡ self.old ++ spaced (name.now ∷ decimal first ∷ decimal second ∷ [])) }
        ensures memory { OnErr result (result ≡ Err Refusal.NoMemory) }
    {
        self.named(name, first)?;
        self.number(second)
    }

    /// Two words.
    #[tactic(auto, using(crate::proofs::Splitting::spaced_cons))]
    pub(crate) fn pair(&mut self, first: &str, second: &str) -> Result<(), Refusal>
        ensures ok { OnOk result (self.new ≡ self.old ++ spaced (first.now ∷ second.now ∷ [])) }
        ensures memory { OnErr result (result ≡ Err Refusal.NoMemory) }
    {
        self.word(first)?;
        self.word(second)
    }

    /// The text as bytes.
    pub(crate) fn into_bytes(self) -> Bytes
        ensures { result ≡ self }
    {
        let Writer { text } = self;
        Bytes::from_vec(text.into_bytes())
    }
}

/// An upper-case hexadecimal digit.
fn hex_digit(digit: u8) -> char
    requires { digit < 16 }
    ensures { result ≡ hex_digit digit }
{
    if digit < 10 {
        (b'0' + digit) as char
    } else {
        (b'A' + (digit - 10)) as char
    }
}

/// Adds a byte as it is spelled in a text word.
fn push_byte(out: &mut String, byte: u8) -> Result<(), Refusal>
    ensures ok { OnOk result (string_bytes out.new ≡ string_bytes out.old ++ byte_spelling byte) }
    ensures memory { OnErr result (result ≡ Err Refusal.NoMemory) }
{
    if is_plain(byte) {
        out.push(byte as char)?;
        return Ok(());
    }
    out.push('%')?;
    out.push(hex_digit(byte / 16))?;
    out.push(hex_digit(byte % 16))?;
    Ok(())
}

fn push_bytes(out: &mut String, bytes: &[u8]) -> Result<(), Refusal>
    ensures ok { OnOk result (string_bytes out.new ≡ string_bytes out.old ++ flat_map byte_spelling bytes.now) }
    ensures memory { OnErr result (result ≡ Err Refusal.NoMemory) }
{
    for byte in bytes {
        push_byte(out, *byte)?;
    }
    Ok(())
}
