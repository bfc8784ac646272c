ghost use Rattle.std.specs.Prelude.{◌≡◌};
ghost use Rattle.store_settings.specs.Numbers.{is_padded, is_within, max_of, number_of};

/// Whether digits begin with a sign, or with a zero that isn't the only digit.
fn is_padded(word: &[u8]) -> bool
    ensures { result ≡ is_padded word.now }
{
    match word {
        [] => false,
        [only] => *only == b'+',
        [first, ..] => *first == b'+' || *first == b'0',
    }
}

/// The number below 2^64 whose decimal digits a word is, without leading zeros.
fn number_of(word: &[u8]) -> Option<u64>
    ensures { result ≡ number_of word.now }
{
    if is_padded(word) {
        return None;
    }
    match std::str::from_utf8(word) {
        Ok(digits) => digits.parse::<u64>().ok(),
        Err(_) => None,
    }
}

/// Whether a number lies in a range, both ends included.
pub(crate) fn is_within(least: u64, most: u64, number: u64) -> bool
    ensures { result ≡ is_within least most number }
{
    least <= number && number <= most
}

/// The number of `--max` that a word spells: 16 to 2^32.
pub(crate) fn max_of(word: &[u8]) -> Option<u64>
    ensures { result ≡ max_of word.now }
{
    match number_of(word) {
        Some(number) if is_within(16, 1 << 32, number) => Some(number),
        _ => None,
    }
}
