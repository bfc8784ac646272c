ghost use Rattle.std.specs.Prelude.{◌≡◌, ◌≢◌, ◌<◌, ◌^◌, ◌++◌, ◌∷◌, [], ℕ, List, if◌then◌else◌, OnOk, MatchOption};
ghost use Rattle.std.specs.String.{string_bytes};
ghost use Rattle.std.specs.Fmt.{decimal};
ghost use Rattle.host_files.specs.Names.{file_text, text_of, is_padded, number_of};

use std::alloc::AllocError;

/// A name in the folder: a file's, or that of the fresh file which is to take its place.
#[derive(Clone, Copy)]
pub struct Name {
    pub file: u64,
    pub fresh: bool,
}

/// The length of the longest name, with a slash in front.
pub(crate) const LONGEST: usize = 26;

/// Puts the name at the end of a path.
pub(crate) fn push_name(path: &mut String, name: Name) -> Result<(), AllocError>
    ensures { OnOk result (string_bytes path.new ≡ string_bytes path.old ++ text_of name) }
{
    push_file(path, name.file)?;
    if name.fresh {
        path.push_str(".new")?;
    }
    Ok(())
}

fn push_file(path: &mut String, file: u64) -> Result<(), AllocError>
    ensures { OnOk result (string_bytes path.new ≡ string_bytes path.old ++ file_text file) }
{
    if file == 0 {
        path.push_str("meta")
    } else {
        write!(path, "r{file}")
    }
}

/// The file above 0 that has this name; None where no file has it.
pub(crate) fn file_of(name: &[u8]) -> Option<u64>
    ensures { MatchOption result ((file : ℕ) → 0 < file → file < 2 ^ 64 → name.now ≢ file_text file) (λ file. (0 < file) × (name.now ≡ file_text file)) }
{
    let Some(digits) = digits_of(name) else {
        return None;
    };
    match number_of(digits) {
        Some(file) if file > 0 => Some(file),
        _ => None,
    }
}

/// What stands behind an `r` in front.
fn digits_of(name: &[u8]) -> Option<&[u8]>
    ensures { MatchOption result ((digits : List ℕ) → name.now ≢ 114 ∷ digits) (λ digits. name.now ≡ 114 ∷ digits.now) }
{
    match name.split_first() {
        Some((first, digits)) if *first == b'r' => Some(digits),
        _ => None,
    }
}

/// Whether digits begin with a sign, or with a zero that isn't the only digit.
fn is_padded(word: &[u8]) -> bool
    ensures { result ≡ is_padded word.now }
{
    match word {
        [] => false,
        [only] => *only == b'+',
        [first, ..] => *first == b'+' || *first == b'0',
    }
}

/// The number below 2^64 whose decimal digits a word is, without leading zeros.
fn number_of(word: &[u8]) -> Option<u64>
    ensures { result ≡ number_of word.now }
{
    if is_padded(word) {
        return None;
    }
    match std::str::from_utf8(word) {
        Ok(digits) => digits.parse::<u64>().ok(),
        Err(_) => None,
    }
}
