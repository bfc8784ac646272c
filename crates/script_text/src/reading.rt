ghost use Rattle.std.specs.Prelude.{◌≡◌, IsTrue, IfOk, IfSome, IfNone, OnErr};
ghost use Rattle.forest_model.specs.declared.line.Line.{Line};
ghost use Rattle.script_text.specs.Grammar.{IsLine};
ghost use Rattle.script_text.specs.Reading.{GivesFirst, line_at, takes_memory, words_in};

use crate::reader::Reader;
use crate::unread::Unread;
use forest_model::{Line, Refusal};
use std::alloc::Global;

fn read(alloc: Global, text: &[u8], server: bool) -> Result<Line, Unread>
    ensures gives { GivesFirst result (line_at server (words_in text.now)) }
    ensures memory { result ≡ Err Unread.NoMemory → IsTrue (takes_memory (words_in text.now)) }
{
    Reader::new(text).line(alloc, server)
}

/// The line that a text without its newline is, in a script for the server or for play, and `None`
/// exactly where it is none. The only refusal is `NoMemory`, and it comes only of a text that begins with a lane
/// and with a verb that takes memory: for a word in a text's place, unless it is `-`, or for an item of a batch.
pub fn line_of(alloc: Global, text: &[u8], server: bool) -> Result<Option<Line>, Refusal>
    ensures found { IfOk result (λ found. IfSome found (λ line. IsLine server line text.now)) }
    ensures none { IfOk result (λ found. IfNone found ((line : Line) → ¬ (IsLine server line text.now))) }
    ensures memory { OnErr result (result ≡ Err Refusal.NoMemory) }
    ensures memory_needed { OnErr result (IsTrue (takes_memory (words_in text.now))) }
{
    match read(alloc, text, server) {
        Ok(line) => Ok(Some(line)),
        Err(Unread::NotALine) => Ok(None),
        Err(Unread::NoMemory) => Err(Refusal::NoMemory),
    }
}
