ghost use Rattle.std.specs.Prelude.{◌≡◌};
ghost use Rattle.std.specs.List.{list_all};
ghost use Rattle.forest_model.specs.Limits as limits;

const FIRST_WORN: u64 = (1 << 62) - 1;

fn is_name_byte(byte: u8) -> bool
    ensures { result ≡ limits.is_name_byte byte }
{
    byte.is_ascii_alphanumeric() || byte == b'_' || byte == b'-' || byte == b'.'
}

fn all_name_bytes(name: &[u8]) -> bool
    ensures { result ≡ list_all limits.is_name_byte name.now }
{
    name.iter().all(|byte| is_name_byte(*byte))
}

// Whether it is a name: 1 to 31 letters, digits, `_`, `-` and `.`.
pub(crate) fn is_name(name: &[u8]) -> bool
    ensures { result ≡ limits.is_name name.now }
{
    !name.is_empty() && name.len() <= 31 && all_name_bytes(name)
}

// Whether a number may not be drawn any more.
pub(crate) fn is_worn(number: u64) -> bool
    ensures { result ≡ limits.is_worn number }
{
    number >= FIRST_WORN
}
