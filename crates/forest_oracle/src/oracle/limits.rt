ghost use Rattle.std.specs.Prelude.{◌≡◌, ◌+◌};
ghost use Rattle.std.specs.List.{list_all, list_any};
ghost use Rattle.forest_model.specs.Limits as limits;

use forest_model::{Bytes, Item, Items};

const FIRST_WORN: u64 = 0x3fff_ffff_ffff_ffff;

/// Whether a key hasn't 1 to 3,500 bytes.
pub fn is_wrong_key(key: &Bytes) -> bool
    ensures { result ≡ limits.is_wrong_key key.now }
{
    key.is_empty() || key.len() > 3500
}

pub(super) fn is_wrong_body(meta: &Bytes, body: &Bytes) -> bool
    ensures { result ≡ limits.is_wrong_body meta.now body.now }
{
    meta.len() > 255 || body.len() > 1_048_576
}

fn has_wrong_key(item: &Item) -> bool
    ensures { result ≡ limits.has_wrong_key item.now }
{
    match item {
        Item::Put { key, .. } => is_wrong_key(key),
        Item::Del { key } => is_wrong_key(key),
    }
}

fn has_wrong_body(item: &Item) -> bool
    ensures { result ≡ limits.has_wrong_body item.now }
{
    match item {
        Item::Put { meta, body, .. } => is_wrong_body(meta, body),
        Item::Del { .. } => false,
    }
}

pub(super) fn any_wrong_key(items: &Items) -> bool
    ensures { result ≡ list_any limits.has_wrong_key items.now }
{
    items.as_slice().iter().any(|item| has_wrong_key(item))
}

pub(super) fn any_wrong_body(items: &Items) -> bool
    ensures { result ≡ list_any limits.has_wrong_body items.now }
{
    items.as_slice().iter().any(|item| has_wrong_body(item))
}

fn is_name_byte(byte: u8) -> bool
    ensures { result ≡ limits.is_name_byte byte }
{
    byte.is_ascii_alphanumeric() || byte == b'_' || byte == b'-' || byte == b'.'
}

fn all_name_bytes(name: &[u8]) -> bool
    ensures { result ≡ list_all limits.is_name_byte name.now }
{
    name.iter().all(|byte| is_name_byte(*byte))
}

pub(super) fn is_name(name: &Bytes) -> bool
    ensures { result ≡ limits.is_name name.now }
{
    !name.is_empty() && name.len() <= 31 && all_name_bytes(name.as_slice())
}

// A number so many above another may not be drawn.
pub(super) fn is_worn(number: u64, more: u64) -> bool
    ensures { result ≡ limits.is_worn (number + more) }
{
    number >= FIRST_WORN || more >= FIRST_WORN - number
}
