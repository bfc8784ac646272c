ghost use Rattle.std.specs.Prelude.{◌≡◌};
ghost use Rattle.script_text.specs.Reading.{is_padded, number_of};

/// Whether digits begin with a sign, or with a zero that isn't the only digit.
fn is_padded(word: &[u8]) -> bool
    ensures { result ≡ is_padded word.now }
{
    match word {
        [] => false,
        [only] => *only == b'+',
        [first, ..] => *first == b'+' || *first == b'0',
    }
}

/// The number below 2^64 whose decimal digits a word is, without leading zeros.
pub(crate) fn number_of(word: &[u8]) -> Option<u64>
    ensures { result ≡ number_of word.now }
{
    if is_padded(word) {
        return None;
    }
    match std::str::from_utf8(word) {
        Ok(digits) => digits.parse::<u64>().ok(),
        Err(_) => None,
    }
}
