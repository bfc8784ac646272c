//! The two slots of the meta file (`docs/FORMAT.md`, the meta file): which of them counts, and the one to write next.
//!
//! It promises that the sealed slot with the greater generation counts, and that none counts exactly where none is
//! sealed. It takes no memory.
#![tactic(auto)]

ghost use Rattle.std.specs.Prelude.{◌≡◌, ◌≢◌, ◌<◌, ◌-◌, ◌^◌, length, MatchOption, Option, Some};
ghost use Rattle.std.specs.Int.{w64, to_be_bytes};
ghost use Rattle.block_host.specs.declared.block.Block.{Block};
ghost use Rattle.meta_slots.specs.Slots.{IsCurrent, IsFollowing, IsSlot, Says, Slot, is_second, slot_bytes};

use block_host::{Block, seal, unseal};

/// The kind of a slot's block.
const META: u8 = 5;

/// The generation and the revision of the current file; None exactly where neither slot is sealed.
pub fn current(slot0: &Block, slot1: &Block) -> Option<(u64, u64)>
    ensures counts { IsCurrent slot0.now slot1.now result }
    ensures only { (now : Option Slot) → IsCurrent slot0.now slot1.now now → now ≡ result }
{
    let first = said_by(slot0, 0);
    let second = said_by(slot1, 1);
    if counts_second(first, second) {
        second
    } else {
        first
    }
}

/// The slot to write next, 0 or 1, and its block, which names this revision in the next generation; None exactly where
/// neither slot is sealed. The generation that counts is below the last value of a u64.
pub fn following(slot0: &Block, slot1: &Block, revision: u64) -> Option<(u64, Block)>
    requires { (now : Slot) → IsCurrent slot0.now slot1.now (Some now) → now.0 < 2 ^ 64 - 1 }
    ensures { IsFollowing slot0.now slot1.now revision result }
{
    let first = said_by(slot0, 0);
    let second = said_by(slot1, 1);
    let (now, other) = if counts_second(first, second) {
        (second, 0)
    } else {
        (first, 1)
    };
    let (generation, _) = now?;
    Some((other, block_of(other, generation + 1, revision)))
}

/// Of two blocks one thing counts.
pub fn current_is_one()
    ensures { (slot0 slot1 : Block) (a b : Option Slot) → IsCurrent slot0 slot1 a → IsCurrent slot0 slot1 b → a ≡ b }
{}

// Whether slot 1 counts, of what the two slots say.
fn counts_second(first: Option<(u64, u64)>, second: Option<(u64, u64)>) -> bool
    ensures { result ≡ is_second first second }
{
    match (first, second) {
        (None, _) => true,
        (Some(_), None) => false,
        (Some(a), Some(b)) => a.0 < b.0,
    }
}

// What the block says as the slot of this number.
fn said_by(block: &Block, n: u64) -> Option<(u64, u64)>
    ensures { Says n block.now result }
{
    let (kind, payload) = unseal(block, 0, n)?;
    if kind == META {
        numbers_of(payload)
    } else {
        None
    }
}

// The block of the slot of this number.
fn block_of(n: u64, generation: u64, revision: u64) -> Block
    ensures { IsSlot n (generation, revision) result }
{
    let mut payload = [0; 16];
    payload[..8].copy_from_slice(&generation.to_be_bytes());
    payload[8..].copy_from_slice(&revision.to_be_bytes());
    seal(META, 0, n, &payload)
}

// The two numbers of a slot's payload.
fn numbers_of(payload: &[u8]) -> Option<(u64, u64)>
    ensures { MatchOption result (length payload.now ≢ 16) (λ slot. (slot.0 < 2 ^ 64) × (slot.1 < 2 ^ 64) × (payload.now ≡ slot_bytes slot.0 slot.1)) }
{
    if payload.len() != 16 {
        return None;
    }
    let (generation, revision) = payload.split_at(8);
    Some((number_of(generation), number_of(revision)))
}

// The number of 8 bytes.
fn number_of(bytes: &[u8]) -> u64
    requires { length bytes.now ≡ 8 }
    ensures { bytes.now ≡ to_be_bytes w64 result }
{
    let mut number = [0; 8];
    number.copy_from_slice(bytes);
    u64::from_be_bytes(number)
}

#[cfg(test)]
mod tests {
    use super::*;
    use std::test::Fail;

    // The last bytes of slot 0 with two numbers, and of slot 1 with 2 and 7, by another program.
    const FIRST: [u8; 32] = [
        0x05, 0x01, 0x00, 0x10, 0x00, 0x00, 0x00, 0x00, 0x00, 0x00, 0x00, 0x00, 0x00, 0x00, 0x00,
        0x00, 0x00, 0x00, 0x00, 0x00, 0x00, 0x00, 0x00, 0x00, 0x36, 0x9b, 0x83, 0xde, 0x82, 0x76,
        0xae, 0xbc,
    ];

    const SECOND: [u8; 32] = [
        0x05, 0x01, 0x00, 0x10, 0x00, 0x00, 0x00, 0x00, 0x00, 0x00, 0x00, 0x00, 0x00, 0x00, 0x00,
        0x00, 0x00, 0x00, 0x00, 0x00, 0x00, 0x00, 0x00, 0x01, 0x87, 0x3a, 0x1c, 0x8e, 0x31, 0x55,
        0xb1, 0x69,
    ];

    // A block that ends in these bytes.
    fn slot(generation: u8, revision: u8, tail: &[u8; 32]) -> Block {
        let mut block = Block::zeros();
        block.bytes[7] = generation;
        block.bytes[15] = revision;
        block.bytes[4064..].copy_from_slice(tail);
        block
    }

    #[test]
    fn the_greater_generation_counts(rt: HostRuntime) -> Result<(), Fail> {
        let first = slot(1, 1, &FIRST);
        let second = slot(2, 7, &SECOND);
        assert_eq!(rt; current(&first, &second), Some((2, 7)));
        assert_eq!(rt; current(&first, &Block::zeros()), Some((1, 1)));
        assert_eq!(rt; current(&Block::zeros(), &second), Some((2, 7)));
        Ok(())
    }

    #[test]
    fn what_is_no_slot_does_not_count(rt: HostRuntime) -> Result<(), Fail> {
        let first = slot(1, 1, &FIRST);
        let none = Block::zeros();
        assert_eq!(rt; current(&none, &first), None);
        assert_eq!(rt; current(&seal(4, 0, 0, &[0; 16]), &none), None);
        assert_eq!(rt; current(&seal(5, 0, 0, &[0; 15]), &none), None);
        Ok(())
    }

    // What follows, unless no generation does.
    fn after(slot0: &Block, slot1: &Block, revision: u64) -> Option<(u64, Block)> {
        let (generation, _) = current(slot0, slot1)?;
        if generation == u64::MAX {
            None
        } else {
            following(slot0, slot1, revision)
        }
    }

    #[test]
    fn the_other_slot_follows(rt: HostRuntime) -> Result<(), Fail> {
        let first = slot(1, 1, &FIRST);
        let second = slot(2, 7, &SECOND);
        assert!(rt; after(&first, &Block::zeros(), 7) == Some((1, second)));
        assert!(rt; after(&second, &first, 7).is_none());
        assert_eq!(rt; after(&first, &second, 8).map(|next| next.0), Some(0));
        Ok(())
    }
}
