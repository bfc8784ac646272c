ghost use Rattle.std.specs.Prelude.{◌≡◌, ◌+◌, ◌-◌, ◌*◌, ◌/◌, ◌^◌, ◌<◌, ◌≤◌, ◌++◌, min, IsTrue, IfSome, length, take, replicate, OnOk, IfOk};
ghost use Rattle.host_files.specs.Bytes.{bytes_of, overwritten, whole_part, two_blocks, IsBlockAt};

use crate::place::{BLOCK, place_of};
use crate::{Opened, Trouble};
use block_host::Block;

// So many blocks go out in one write at most.
const GROUP: usize = 16;

/// The number of whole blocks.
pub(crate) fn size_of<O: Opened>(opened: &O) -> Result<u64, Trouble>
    ensures { IsTrue O.tells → IfOk result (λ size. size ≡ length (O.bytes opened.now) / 4096) }
{
    Ok(opened.len()? / BLOCK)
}

/// Block `at`; where no whole block is there, a block of zeros.
pub(crate) fn read_block<O: Opened>(opened: &O, at: u64, out: &mut Block) -> Result<(), Trouble>
    ensures { IsTrue O.tells → OnOk result (IsBlockAt (O.bytes opened.now) at out.new) }
{
    let Some(place) = place_of(at) else {
        *out = Block::zeros();
        return Ok(());
    };
    if !opened.fill(place, &mut out.bytes)? {
        *out = Block::zeros();
    }
    Ok(())
}

/// Puts blocks behind the last whole one. A torn tail is cut off first.
pub(crate) fn append_blocks<O: Opened>(opened: &mut O, blocks: &[Block]) -> Result<(), Trouble>
    ensures { IsTrue O.tells → OnOk result (O.bytes opened.new ≡ whole_part (O.bytes opened.old) ++ bytes_of blocks.now) }
{
    let whole = cut_tail(opened)?;
    write_blocks(opened, whole, blocks)?;
    Ok(())
}

// Cuts a torn tail off, and gives the number of whole blocks.
fn cut_tail<O: Opened>(opened: &mut O) -> Result<u64, Trouble>
    ensures cut { IsTrue O.tells → OnOk result (O.bytes opened.new ≡ whole_part (O.bytes opened.old)) }
    ensures whole { IsTrue O.tells → IfOk result (λ whole. whole ≡ length (O.bytes opened.old) / 4096) }
{
    let len = opened.len()?;
    let whole = len / BLOCK;
    if len % BLOCK != 0 {
        resize_to(opened, whole)?;
    }
    Ok(whole)
}

// Cuts the file to so many blocks, or makes it longer by blocks of zeros.
fn resize_to<O: Opened>(opened: &mut O, blocks: u64) -> Result<(), Trouble>
    ensures shorter { IsTrue O.tells → blocks * 4096 ≤ length (O.bytes opened.old) → OnOk result (O.bytes opened.new ≡ take (blocks * 4096) (O.bytes opened.old)) }
    ensures longer { IsTrue O.tells → length (O.bytes opened.old) ≤ blocks * 4096 → OnOk result (O.bytes opened.new ≡ O.bytes opened.old ++ replicate (blocks * 4096 - length (O.bytes opened.old)) 0) }
{
    match place_of(blocks) {
        Some(place) => opened.resize(place),
        None => Err(Trouble::TooLarge),
    }
}

/// Writes blocks behind so many, which are all that the file has, and gives the number behind the last.
pub(crate) fn write_blocks<O: Opened>(
    opened: &mut O,
    at: u64,
    blocks: &[Block],
) -> Result<u64, Trouble>
    ensures written { IsTrue O.tells → length (O.bytes opened.old) ≡ at * 4096 → OnOk result (O.bytes opened.new ≡ O.bytes opened.old ++ bytes_of blocks.now) }
    ensures end { IfOk result (λ end. end ≡ at + length blocks.now) }
{
    if blocks.is_empty() {
        return Ok(at);
    }
    let (first, rest) = blocks.split_at(blocks.len().min(GROUP));
    let end = write_group(opened, at, first)?;
    write_blocks(opened, end, rest)
}

// Writes at most 16 blocks in one write behind so many, and gives the number behind the last.
fn write_group<O: Opened>(opened: &mut O, at: u64, blocks: &[Block]) -> Result<u64, Trouble>
    requires { length blocks.now ≤ 16 }
    ensures written { IsTrue O.tells → length (O.bytes opened.old) ≡ at * 4096 → OnOk result (O.bytes opened.new ≡ O.bytes opened.old ++ bytes_of blocks.now) }
    ensures end { IfOk result (λ end. end ≡ at + length blocks.now) }
    ensures long { IsTrue O.tells → length (O.bytes opened.old) ≡ at * 4096 → OnOk result (length (O.bytes opened.new) ≡ (at + length blocks.now) * 4096) }
{
    let Some(end) = end_of(at, blocks.len()) else {
        return Err(Trouble::TooLarge);
    };
    if let [only] = blocks {
        opened.write(at * BLOCK, &only.bytes)?;
        return Ok(end);
    }
    let mut bytes = [0; GROUP * 4096];
    let used = gather(&mut bytes, blocks);
    opened.write(at * BLOCK, &bytes[..used])?;
    Ok(end)
}

// The number behind so many blocks, where the system takes its place.
fn end_of(at: u64, count: usize) -> Option<u64>
    ensures { IfSome result (λ end. (end ≡ at + count) × (end < 2 ^ 51)) }
{
    let end = at.checked_add(count as u64)?;
    place_of(end)?;
    Some(end)
}

// Puts the bytes of blocks one after another, and gives their number.
fn gather(bytes: &mut [u8; GROUP * 4096], blocks: &[Block]) -> usize
    requires { length blocks.now ≤ 16 }
    ensures used { result ≡ length blocks.now * 4096 }
    ensures bytes { take result bytes.new ≡ bytes_of blocks.now }
    ensures long { length (bytes_of blocks.now) ≡ length blocks.now * 4096 }
{
    let mut used = 0;
    for block in blocks {
        used = put_bytes(bytes, used, block);
    }
    used
}

fn put_bytes(bytes: &mut [u8; GROUP * 4096], used: usize, block: &Block) -> usize
    requires { used + 4096 ≤ 65536 }
    ensures used { result ≡ used + 4096 }
    ensures bytes { take result bytes.new ≡ take used bytes.old ++ block.now.bytes }
    ensures long { length block.now.bytes ≡ 4096 }
{
    bytes[used..used + 4096].copy_from_slice(&block.bytes);
    used + 4096
}

/// Writes a slot of a file that has two blocks afterwards. A block that wasn't there is of zeros.
pub(crate) fn put_slot<O: Opened>(opened: &mut O, slot: u64, block: &Block) -> Result<(), Trouble>
    requires { slot < 2 }
    ensures { IsTrue O.tells → OnOk result (O.bytes opened.new ≡ overwritten (slot * 4096) block.now.bytes (two_blocks (O.bytes opened.old))) }
{
    make_two(opened)?;
    opened.write(slot * BLOCK, &block.bytes)
}

// Makes a file one of two blocks.
fn make_two<O: Opened>(opened: &mut O) -> Result<(), Trouble>
    ensures { IsTrue O.tells → OnOk result (O.bytes opened.new ≡ two_blocks (O.bytes opened.old)) }
{
    let whole = cut_tail(opened)?;
    if whole == 2 {
        return Ok(());
    }
    resize_to(opened, 2)
}

/// Cuts a file to so many blocks, where it has more.
pub(crate) fn cut_blocks<O: Opened>(opened: &mut O, blocks: u64) -> Result<(), Trouble>
    ensures { IsTrue O.tells → OnOk result (O.bytes opened.new ≡ take (blocks * 4096) (O.bytes opened.old)) }
{
    let len = opened.len()?;
    match place_of(blocks) {
        Some(place) if place < len => opened.resize(place),
        _ => Ok(()),
    }
}
