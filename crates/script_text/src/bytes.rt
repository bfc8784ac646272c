ghost use Rattle.std.specs.Prelude.{◌≡◌, ◌<◌, ◌==◌, length, Option, IsTrue, IfSome, option_map, nat_eq, codes};
ghost use Rattle.script_text.specs.Words.{is_plain};
ghost use Rattle.script_text.specs.Reading.{GivesWhole, byte_at, bytes_at, bytes_of, escape_at, has_bytes, hex_of};

use crate::unread::Unread;
use forest_model::Bytes;
use std::alloc::Global;

/// Whether a byte stands for itself in a text word.
pub(crate) fn is_plain(byte: u8) -> bool
    ensures { result ≡ is_plain byte }
{
    (33..=126).contains(&byte) && byte != b'%'
}

/// The value of an upper-case hexadecimal digit.
#[tactic(auto, unfolding(crate::specs::Reading::hex_of))]
fn hex_of(digit: u8) -> Option<u8>
    ensures value { result ≡ hex_of digit }
    ensures small { IfSome result (λ value. value < 16) }
{
    if 48 <= digit && digit <= 57 {
        return Some(digit - 48);
    }
    if 65 <= digit && digit <= 70 {
        return Some(digit - 55);
    }
    None
}

/// The byte that two digits at the front stand for, if it needs them, and what follows.
#[tactic(auto, unfolding(crate::specs::Reading::escape_at))]
fn escaped(digits: &[u8]) -> Option<(u8, &[u8])>
    ensures value { option_map (λ x. (x.0, x.1.now)) result ≡ escape_at digits.now }
    ensures shorter { IfSome result (λ x. length x.1.now < length digits.now) }
{
    let [high, low, rest @ ..] = digits else {
        return None;
    };
    let high = hex_of(*high)?;
    let low = hex_of(*low)?;
    let byte = 16 * high + low;
    if is_plain(byte) {
        return None;
    }
    Some((byte, rest))
}

/// The byte that is spelled at the front, and what follows.
#[tactic(auto, unfolding(crate::specs::Reading::byte_at))]
fn first_byte(word: &[u8]) -> Option<(u8, &[u8])>
    ensures value { option_map (λ x. (x.0, x.1.now)) result ≡ byte_at word.now }
    ensures shorter { IfSome result (λ x. length x.1.now < length word.now) }
{
    let (byte, rest) = word.split_first()?;
    if is_plain(*byte) {
        return Some((*byte, rest));
    }
    if *byte == b'%' {
        return escaped(rest);
    }
    None
}

fn spelled_bytes(alloc: Global, word: &[u8]) -> Result<Bytes, Unread>
    ensures { GivesWhole result (bytes_at (length word.now) word.now) }
{
    let mut bytes = Vec::with_capacity(alloc, word.len())?;
    let mut rest = word;
    while !rest.is_empty() {
        let Some((byte, after)) = first_byte(rest) else {
            return Err(Unread::NotALine);
        };
        bytes.push(byte)?;
        rest = after;
    }
    Ok(Bytes::from_vec(bytes))
}

/// The bytes that a text word stands for.
#[tactic(auto, unfolding(crate::specs::Reading::bytes_of, crate::specs::Reading::has_bytes))]
pub(crate) fn bytes_of(alloc: Global, word: &[u8]) -> Result<Bytes, Unread>
    ensures gives { GivesWhole result (bytes_of word.now) }
    ensures memory { result ≡ Err Unread.NoMemory → IsTrue (has_bytes word.now) }
{
    if word.is_empty() {
        return Err(Unread::NotALine);
    }
    if word == b"-".as_slice() {
        return Ok(Bytes::new(alloc));
    }
    if word == b"%2D".as_slice() {
        return Ok(Bytes::copy_of(alloc, b"-")?);
    }
    spelled_bytes(alloc, word)
}
