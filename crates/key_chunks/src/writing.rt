ghost use Rattle.std.specs.Prelude.{◌≡◌, ◌+◌, ◌/◌, ◌≤◌, length, IfOk};
ghost use Rattle.key_chunks.specs.Chunks.{HasKeyLength, chunks_of};

use crate::group::first_chunk;
use crate::numbers::Numbers64;
use std::alloc::{AllocError, Global};

/// The chunk list of a key in a store: the store's id and one number for each 7 bytes of the key, so at most 501.
pub fn chunks(alloc: Global, store: u64, key: &[u8]) -> Result<Numbers64, AllocError>
    requires { HasKeyLength key.now }
    ensures list { IfOk result (λ list. list ≡ chunks_of store key.now) }
    ensures count { IfOk result (λ list. length list ≡ 1 + (length key.now + 6) / 7) }
    ensures most { IfOk result (λ list. length list ≤ 501) }
{
    let mut list = Vec::with_capacity(alloc, key.len().div_ceil(7) + 1)?;
    list.push(store)?;
    let mut rest = key;
    while rest.len() > 7 {
        list.push(first_chunk(rest))?;
        rest = rest.split_at(7).1;
    }
    list.push(first_chunk(rest))?;
    Ok(Numbers64::from_vec(list))
}
