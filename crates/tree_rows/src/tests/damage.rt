ghost use Rattle.std.specs.Prelude.{◌<◌};

use super::blocks::Stored;
use node_page::{Page, entry};

// What is done to a block of a tree.
#[derive(Clone, Copy)]
pub(super) enum Damage {
    // an inner node over itself
    Cycle,
    // an inner node over a block above it
    HighChild,
    // an inner node over the leaf of block 0, at any height
    OtherDepth,
    // a node without entries
    Empty,
    // the first chunk twice
    Unsorted,
    // neither a leaf nor an inner node
    NoNode,
    // a stem
    Stem,
    // a leaf for an inner node, and an inner node for a leaf, with the same entries
    OtherLevel,
}

pub(super) fn damage_of(number: u64) -> Damage {
    match number {
        0 => Damage::Cycle,
        1 => Damage::HighChild,
        2 => Damage::OtherDepth,
        3 => Damage::Empty,
        4 => Damage::Unsorted,
        5 => Damage::NoNode,
        6 => Damage::Stem,
        _ => Damage::OtherLevel,
    }
}

impl Damage {
    // Whether the way to the block's first chunk has to end there.
    pub(super) fn is_found_out(self) -> bool {
        !matches!(self, Damage::OtherDepth | Damage::OtherLevel)
    }

    // The block of a number, spoiled.
    pub(super) fn spoil(self, at: u64, stored: &Stored) -> Stored {
        let mut page = stored.page;
        let mut kind = stored.kind;
        match self {
            Damage::Cycle => lead_to(&mut page, at),
            Damage::HighChild => lead_to(&mut page, at.saturating_add(1)),
            Damage::OtherDepth => lead_to(&mut page, 0),
            Damage::Empty => {
                page.bytes[3] = 0;
                page.len = 16;
            }
            Damage::Unsorted => {
                let (chunk, _) = entry(&page, 0);
                set_number(&mut page, 32, chunk);
            }
            Damage::NoNode => page.bytes[0] = 3,
            Damage::Stem => kind = 3,
            Damage::OtherLevel => page.bytes[0] = if page.bytes[0] == 1 { 2 } else { 1 },
        }
        Stored { kind, page }
    }
}

// Makes a page an inner node whose first child is a block.
fn lead_to(page: &mut Page, child: u64) {
    page.bytes[0] = 2;
    set_number(page, 24, child);
}

// Writes a number at an offset.
pub(super) fn set_number(page: &mut Page, at: usize, number: u64)
    requires { at < 4057 }
{
    page.bytes[at..at + 8].copy_from_slice(&number.to_be_bytes());
}
