ghost use Rattle.std.specs.Prelude.{IsTrue};
ghost use Rattle.node_page.specs.Nodes.{rises};

use super::*;
use std::test::Fail;

// A leaf of two entries.
const LEAF: [u8; 48] = [
    1, 0, 0, 2, 0, 0, 0, 0, 0, 0, 0, 0, 0, 0, 0, 0, 0, 0, 0, 0, 0, 0, 0, 5, 1, 2, 3, 4, 5, 6, 7, 8,
    0x61, 0, 0, 0, 0, 0, 0, 1, 0, 0, 0, 0, 0, 0, 0, 7,
];

// An inner node of one entry.
const INNER: [u8; 32] = [
    2, 0, 0, 1, 0, 0, 0, 0, 0, 0, 0, 0, 0, 0, 0, 0, 0, 0, 0, 0, 0, 0, 0, 0, 0, 0, 0, 0, 0, 0, 1, 4,
];

// A stem that skips two chunks.
const STEM: [u8; 32] = [
    0, 0, 0, 0, 0, 0, 1, 2, 0, 0, 0, 0, 0, 0, 0, 2, 0, 0, 0, 0, 0, 0, 0, 9, 0x61, 0, 0, 0, 0, 0, 0,
    1,
];

// The page with one byte changed.
fn changed(page: &Page, place: usize, byte: u8) -> Page {
    let mut other = *page;
    if let Some(changed) = other.bytes.get_mut(place) {
        *changed = byte;
    }
    other
}

// The same bytes under another length.
fn resized(page: &Page, len: u16) -> Page {
    Page {
        bytes: page.bytes,
        len,
    }
}

// The chunks 0, 3, 6, .. and the values 7, 8, 9, ..
fn most_entries() -> [(u64, u64); 253]
    ensures { IsTrue (rises result) }
{
    let mut entries = [(0, 0); 253];
    for n in 0..253 {
        entries[n] = (3 * n as u64, 7 + n as u64);
    }
    entries
}

#[test]
fn a_leaf_has_its_format(rt: HostRuntime) -> Result<(), Fail> {
    let page = leaf_from(
        &[(5, 0x0102_0304_0506_0708), (0x6100_0000_0000_0001, 7)],
        true,
    );
    assert_eq!(rt; page.len, 48);
    assert_eq!(rt; &page.bytes[..48], LEAF.as_slice());
    assert_eq!(rt; page.bytes[48], 0);
    Ok(())
}

#[test]
fn an_inner_node_has_its_format(rt: HostRuntime) -> Result<(), Fail> {
    let page = leaf_from(&[(0, 260)], false);
    assert_eq!(rt; page.len, 32);
    assert_eq!(rt; &page.bytes[..32], INNER.as_slice());
    Ok(())
}

#[test]
fn nodes_are_read(rt: HostRuntime) -> Result<(), Fail> {
    let leaf = Page::of(&LEAF);
    assert_eq!(rt;
        node_of(&leaf),
        Some(NodeHead {
            leaf: true,
            count: 2
        })
    );
    assert_eq!(rt; entry(&leaf, 0), (5, 0x0102_0304_0506_0708));
    assert_eq!(rt; entry(&leaf, 1), (0x6100_0000_0000_0001, 7));
    let inner = Page::of(&INNER);
    assert_eq!(rt;
        node_of(&inner),
        Some(NodeHead {
            leaf: false,
            count: 1
        })
    );
    assert_eq!(rt; entry(&inner, 0), (0, 260));
    Ok(())
}

#[test]
fn the_largest_node(rt: HostRuntime) -> Result<(), Fail> {
    let page = leaf_from(&most_entries(), true);
    assert_eq!(rt; page.len, 4064);
    assert_eq!(rt;
        node_of(&page),
        Some(NodeHead {
            leaf: true,
            count: 253
        })
    );
    assert_eq!(rt; (entry(&page, 0), entry(&page, 252)), ((0, 7), (756, 259)));
    Ok(())
}

#[test]
fn near_misses_are_no_node(rt: HostRuntime) -> Result<(), Fail> {
    let leaf = Page::of(&LEAF);
    // The kind, the zero behind it, the count, the zeros of the head, a second chunk that falls, and the zeros behind.
    for (place, byte) in [
        (0, 0),
        (0, 3),
        (1, 1),
        (2, 1),
        (3, 1),
        (3, 3),
        (4, 1),
        (15, 1),
        (32, 0),
        (48, 1),
        (4063, 1),
    ] {
        assert!(rt;
            node_of(&changed(&leaf, place, byte)).is_none(),
            "at {place}"
        );
    }
    Ok(())
}

#[test]
fn equal_chunks_are_no_node(rt: HostRuntime) -> Result<(), Fail> {
    let leaf = Page::of(&LEAF);
    let equal = changed(&changed(&leaf, 32, 0), 39, 5);
    let risen = changed(&equal, 39, 6);
    assert!(rt; node_of(&equal).is_none());
    assert!(rt; node_of(&risen).is_some());
    Ok(())
}

#[test]
fn other_lengths_are_no_node(rt: HostRuntime) -> Result<(), Fail> {
    let leaf = Page::of(&LEAF);
    for len in [0, 16, 47, 49, 64, 4064] {
        assert!(rt; node_of(&resized(&leaf, len)).is_none(), "with {len}");
    }
    Ok(())
}

#[test]
fn counts_of_a_node_have_bounds(rt: HostRuntime) -> Result<(), Fail> {
    let empty = Page::of(&[1, 0, 0, 0, 0, 0, 0, 0, 0, 0, 0, 0, 0, 0, 0, 0]);
    let most = leaf_from(&most_entries(), true);
    let more = resized(&changed(&most, 3, 254), 4080);
    assert!(rt; node_of(&empty).is_none());
    assert!(rt; node_of(&more).is_none());
    Ok(())
}

#[test]
fn a_stem_has_its_format(rt: HostRuntime) -> Result<(), Fail> {
    let page = stem_from(258, &[9, 0x6100_0000_0000_0001]);
    assert_eq!(rt; page.len, 32);
    assert_eq!(rt; &page.bytes[..32], STEM.as_slice());
    assert_eq!(rt; page.bytes[32], 0);
    Ok(())
}

#[test]
fn stems_are_read(rt: HostRuntime) -> Result<(), Fail> {
    let page = Page::of(&STEM);
    assert_eq!(rt; stem_of(&page), Some((258, 2)));
    assert_eq!(rt;
        (skipped(&page, 0), skipped(&page, 1)),
        (9, 0x6100_0000_0000_0001)
    );
    Ok(())
}

#[test]
fn the_smallest_and_the_largest_stem(rt: HostRuntime) -> Result<(), Fail> {
    let least = stem_from(7, &[]);
    assert_eq!(rt; (least.len, stem_of(&least)), (16, Some((7, 0))));
    let most = stem_from(7, &[8; 504]);
    assert_eq!(rt; (most.len, stem_of(&most)), (4048, Some((7, 504))));
    assert_eq!(rt; skipped(&most, 503), 8);
    Ok(())
}

#[test]
fn near_misses_are_no_stem(rt: HostRuntime) -> Result<(), Fail> {
    let stem = Page::of(&STEM);
    // The count, and the zeros behind.
    for (place, byte) in [(8, 1), (15, 1), (15, 3), (32, 1), (4063, 1)] {
        assert!(rt;
            stem_of(&changed(&stem, place, byte)).is_none(),
            "at {place}"
        );
    }
    Ok(())
}

#[test]
fn other_lengths_are_no_stem(rt: HostRuntime) -> Result<(), Fail> {
    let stem = Page::of(&STEM);
    for len in [0, 16, 31, 33, 40, 4064] {
        assert!(rt; stem_of(&resized(&stem, len)).is_none(), "with {len}");
    }
    Ok(())
}

#[test]
fn a_stem_skips_at_most_504_chunks(rt: HostRuntime) -> Result<(), Fail> {
    let most = stem_from(7, &[8; 504]);
    let more = resized(&changed(&most, 15, 249), 4056);
    assert!(rt; stem_of(&more).is_none());
    Ok(())
}
