ghost use Rattle.std.specs.Prelude.{◌≡◌, ◌+◌, ◌≤◌, ℕ, IsTrue, List, [], ◌∷◌, ◌++◌, length, take, nat_lt, slice_index, MatchOption};
ghost use Rattle.std.specs.List.{list_all};
ghost use Rattle.std.specs.Int.{w16, from_be_bytes};
ghost use Rattle.sha2.specs.Sha256.{sha256};
ghost use Rattle.block_host.specs.Sealed.{IsSealed, IsTorn, zero_block, padded};

use crate::Block;
use sha2::{Digest, Sha256};

impl Block {
    /// The block of zeros, which isn't sealed.
    pub fn zeros() -> Block
        ensures value { result ≡ zero_block }
        ensures torn { (file at : ℕ) → IsTorn file at result }
    {
        Block { bytes: [0; 4096] }
    }
}

/// Seals a payload of at most 4,064 bytes as a block of this kind (1 to 5), file revision and block number.
pub fn seal(kind: u8, rev: u64, at: u64, payload: &[u8]) -> Block
    requires least { 1 ≤ kind }
    requires greatest { kind ≤ 5 }
    requires fits { length payload.now ≤ 4064 }
    ensures { IsSealed rev at kind payload.now result }
{
    let mut bytes = Block::zeros().bytes;
    put(&mut bytes, 0, payload);
    put(&mut bytes, 4064, &[kind, 1]);
    put(&mut bytes, 4066, &(payload.len() as u16).to_be_bytes());
    put(&mut bytes, 4072, &rev.to_be_bytes());
    put(&mut bytes, 4080, &at.to_be_bytes());
    let checksum = checksum_of(&bytes);
    put(&mut bytes, 4088, &checksum);
    known(&bytes);
    Block { bytes }
}

// Writes bytes at a place, up to which all is written and past which all is zero.
fn put(bytes: &mut [u8; 4096], at: usize, part: &[u8])
    requires { at + length part.now ≤ 4096 }
    ensures { (front : List ℕ) → length front ≤ at → bytes.old ≡ padded 4096 front → bytes.new ≡ padded 4096 (padded at front ++ part.now) }
{
    bytes[at..at + part.len()].copy_from_slice(part);
}

// What the type says, for proofs.
fn known(bytes: &[u8])
    ensures { IsTrue (list_all (λ b. nat_lt b 256) bytes.now) }
{}

// The first 8 bytes of SHA-256 of the bytes before the checksum.
fn checksum_of(bytes: &[u8; 4096]) -> [u8; 8]
    ensures value { result ≡ take 8 (sha256 (take 4088 bytes.now)) }
    ensures length { length result ≡ 8 }
{
    let digest = Sha256::digest(&bytes[..4088]);
    let mut checksum = [0; 8];
    checksum.copy_from_slice(&digest[..8]);
    checksum
}

/// The kind and the payload of a block that is sealed for this file revision and block number; None exactly where it
/// isn't sealed for them.
pub fn unseal(block: &Block, rev: u64, at: u64) -> Option<(u8, &[u8])>
    ensures { MatchOption result (IsTorn rev at block.now) (λ found. IsSealed rev at found.0 found.1.now block.now) }
{
    let (kind, used) = tag_of(block);
    if kind == 0 || kind > 5 || used > 4064 {
        return None;
    }
    let payload = &block.bytes[..used as usize];
    let again = seal(kind, rev, at, payload);
    if again.bytes == block.bytes {
        Some((kind, payload))
    } else {
        None
    }
}

// The kind and the length in use that stand in a block.
fn tag_of(block: &Block) -> (u8, u16)
    ensures kind { result.0 ≡ slice_index block.now.bytes 4064 }
    ensures used { result.1 ≡ from_be_bytes w16 (slice_index block.now.bytes 4066 ∷ slice_index block.now.bytes 4067 ∷ []) }
{
    let bytes = &block.bytes;
    (bytes[4064], u16::from_be_bytes([bytes[4066], bytes[4067]]))
}

#[cfg(test)]
mod tests {
    use super::*;
    use std::test::Fail;

    // The last bytes of blocks that another program sealed.
    const TAG_AND_CHECKSUM: [u8; 32] = [
        0x01, 0x01, 0x00, 0x03, 0x00, 0x00, 0x00, 0x00, 0x00, 0x00, 0x00, 0x00, 0x00, 0x00, 0x00,
        0x01, 0x00, 0x00, 0x00, 0x00, 0x00, 0x00, 0x00, 0x00, 0x99, 0x55, 0x8a, 0xe4, 0xcd, 0x44,
        0xcc, 0x85,
    ];

    #[test]
    fn seals_as_the_format_says(rt: HostRuntime) -> Result<(), Fail> {
        // the first example of FIPS 180-4
        assert_eq!(rt;
            &Sha256::digest(b"abc")[..8],
            [186, 120, 22, 191, 143, 1, 207, 234].as_slice()
        );
        let block = seal(1, 1, 0, b"abc");
        assert_eq!(rt; &block.bytes[..3], b"abc".as_slice());
        assert_eq!(rt; &block.bytes[4064..], TAG_AND_CHECKSUM.as_slice());
        assert_eq!(rt; unseal(&block, 1, 0).map(|found| found.0), Some(1));
        assert!(rt; unseal(&block, 2, 0).is_none());
        assert!(rt; unseal(&block, 1, 1).is_none());
        Ok(())
    }

    #[test]
    fn a_changed_block_is_not_sealed(rt: HostRuntime) -> Result<(), Fail> {
        let mut block = seal(2, 7, 9, b"node");
        assert!(rt; unseal(&block, 7, 9).is_some());
        block.bytes[100] = 1;
        assert!(rt; unseal(&block, 7, 9).is_none());
        assert!(rt; unseal(&Block::zeros(), 0, 0).is_none());
        Ok(())
    }
}
