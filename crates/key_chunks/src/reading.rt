ghost use Rattle.std.specs.Prelude.{◌≡◌, ℕ, List, ◌*◌, ◌≤◌, length, nat_eq, IfOk, IfSome, IfNone, OnErr};
ghost use Rattle.std.specs.List.{flat_map};
ghost use Rattle.std.specs.Cmp.Lexicographic.{pointwise};
ghost use Rattle.key_chunks.specs.Chunks.{IsChunkList, bytes_in, groups_of};

use crate::group::{first_chunk, push_group};
use std::alloc::{AllocError, Global};

/// The most groups that a key has.
const MOST_GROUPS: usize = 500;

/// The store and the key of a chunk list, and `None` exactly where the numbers are none. Memory is taken for the key
/// alone, and not for fewer than 2 or for more than 501 numbers.
pub fn key_of(alloc: Global, chunks: &[u64]) -> Result<Option<(u64, Vec<u8>)>, AllocError>
    ensures found { IfOk result (λ found. IfSome found (λ pair. IsChunkList pair.0 pair.1.items chunks.now)) }
    ensures none { IfOk result (λ found. IfNone found ((store : ℕ) (key : List ℕ) → ¬ (IsChunkList store key chunks.now))) }
    ensures memory_needed { OnErr result ((2 ≤ length chunks.now) × (length chunks.now ≤ 501)) }
{
    let Some((store, groups)) = chunks.split_first() else {
        return Ok(None);
    };
    if groups.len() > MOST_GROUPS {
        return Ok(None);
    }
    let key = bytes_of(alloc, groups)?;
    let read = key.as_slice();
    if read.is_empty() || !is_cut_so(read, groups) {
        return Ok(None);
    }
    Ok(Some((*store, key)))
}

/// The bytes that chunks have together.
fn bytes_of(alloc: Global, groups: &[u64]) -> Result<Vec<u8>, AllocError>
    requires { length groups.now ≤ 500 }
    ensures bytes { IfOk result (λ key. key.items ≡ flat_map bytes_in groups.now) }
    ensures few { IfOk result (λ key. length key.items ≤ 7 * length groups.now) }
    ensures memory_needed { OnErr result (1 ≤ length groups.now) }
{
    let mut key = Vec::with_capacity(alloc, 7 * groups.len())?;
    for group in groups {
        push_group(&mut key, *group)?;
    }
    Ok(key)
}

/// Whether these are the chunks of a key's groups.
fn is_cut_so(key: &[u8], groups: &[u64]) -> bool
    ensures { result ≡ pointwise nat_eq (groups_of key.now) groups.now }
{
    let mut rest = key;
    let mut left = groups;
    while rest.len() > 7 {
        let Some((first, others)) = left.split_first() else {
            return false;
        };
        if *first != first_chunk(rest) {
            return false;
        }
        rest = rest.split_at(7).1;
        left = others;
    }
    [first_chunk(rest)].as_slice() == left
}
