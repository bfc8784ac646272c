use super::*;
use std::test::*;

/// A file of so many blocks, before any switch of the run.
fn never_switched(blocks: u64, live: u64) -> Layout4 {
    Layout4 {
        blocks,
        floor: 0,
        live,
        revision: 1,
    }
}

/// A file of so many blocks, which had `floor` blocks just after the last switch.
fn switched(blocks: u64, floor: u64) -> Layout4 {
    Layout4 {
        blocks,
        floor,
        live: 1_000_000,
        revision: 2,
    }
}

#[test]
fn above_the_blocks_of_the_last_switch(rt: HostRuntime) {
    // Blocks, floor, the greatest percentage at which a compaction is due.
    for (blocks, floor, most) in [
        (64, 44, 31),
        (64, 45, 29),
        (64, 63, 1),
        (100, 70, 30),
        (100, 71, 29),
        (100, 1, 99),
        (1 << 32, 3_006_477_108, 29),
        (1 << 32, 3_006_477_107, 30),
    ] {
        let file = switched(blocks, floor);
        assert!(rt; due(&file, most, false), "{blocks} blocks above {floor}");
        assert!(rt;
            !due(&file, most + 1, false),
            "{blocks} blocks above {floor}, one percent more"
        );
        assert!(rt;
            !due(&file, most, true),
            "{blocks} blocks above {floor}, one is running"
        );
    }
}

#[test]
fn above_the_blocks_of_the_live_records(rt: HostRuntime) {
    // Blocks, live bytes, the greatest percentage at which a compaction is due.
    for (blocks, live, most) in [
        (100, 0, 99),
        (100, 1, 98),
        (100, 4064, 98),
        (100, 4065, 97),
        (64, 32, 96),
        (64, 174_752, 31),
        (64, 174_753, 29),
    ] {
        let file = never_switched(blocks, live);
        assert!(rt; due(&file, most, false), "{blocks} blocks, {live} bytes");
        assert!(rt;
            !due(&file, most + 1, false),
            "{blocks} blocks, {live} bytes, one percent more"
        );
    }
}

#[test]
fn never_due(rt: HostRuntime) {
    // A small file, one at its floor, one below it, and the greatest numbers.
    assert!(rt; !due(&switched(63, 1), 1, false));
    assert!(rt; !due(&switched(64, 64), 1, false));
    assert!(rt; !due(&switched(64, 65), 1, false));
    assert!(rt; !due(&never_switched(64, u64::MAX), 1, false));
    assert!(rt; due(&never_switched(u64::MAX, u64::MAX), 99, false));
    assert!(rt; due(&switched(64, 64), 0, false));
}
