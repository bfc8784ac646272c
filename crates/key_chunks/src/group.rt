ghost use Rattle.std.specs.Prelude.{◌≡◌, [], ◌∷◌, ◌++◌, OnOk};
ghost use Rattle.key_chunks.specs.Chunks.{bytes_in, count_byte, first_chunk, first_group};

use std::alloc::AllocError;

/// 8 where a further group follows the one at the front of a key, and else how many bytes it has.
fn count_byte(key: &[u8]) -> u8
    ensures { result ≡ count_byte key.now }
{
    if key.len() > 7 { 8 } else { key.len() as u8 }
}

/// The bytes of the group at the front of a key, with zeros behind them, and the count.
fn group_bytes(key: &[u8]) -> [u8; 8]
    ensures { result ≡ first_group key.now ++ count_byte key.now ∷ [] }
{
    let used = key.len().min(7);
    let mut bytes = [0; 8];
    bytes[..used].copy_from_slice(&key[..used]);
    bytes[7] = count_byte(key);
    bytes
}

/// The chunk of the group at the front of a key.
#[tactic(auto, unfolding(crate::specs::Chunks::first_chunk))]
pub(crate) fn first_chunk(key: &[u8]) -> u64
    ensures { result ≡ first_chunk key.now }
{
    u64::from_be_bytes(group_bytes(key))
}

/// Adds the bytes of the key that a chunk has.
pub(crate) fn push_group(key: &mut Vec<u8>, chunk: u64) -> Result<(), AllocError>
    ensures { OnOk result (key.new.items ≡ key.old.items ++ bytes_in chunk) }
{
    let bytes = chunk.to_be_bytes();
    let used = bytes[7].min(7) as usize;
    key.extend_from_slice(&bytes[..used])
}
