ghost use Rattle.std.specs.Prelude.{◌<◌};

use crate::WalIndex;
use forest_model::{Entry, Refusal};
use std::alloc::Global;
use std::collections::BTreeMap;
use std::test::*;

const OPERATIONS: u64 = 2_000;

const STORES: u64 = 3;

const KEYS: u64 = 7;

// The keys in their order: some begin others, and there are bytes from both ends.
fn key_at(place: u64) -> &'static [u8] {
    match place {
        0 => b"",
        1 => b"\0",
        2 => b"a",
        3 => b"a\0",
        4 => b"ab",
        5 => b"b",
        _ => b"\xff",
    }
}

// A linear congruential generator.
#[derive(Drop)]
struct Draws {
    state: u64,
}

impl Draws {
    fn below(&mut self, end: u64) -> u64
        requires { 0 < end }
        ensures { result < end }
    {
        self.state = self
            .state
            .wrapping_mul(6_364_136_223_846_793_005)
            .wrapping_add(1_442_695_040_888_963_407);
        (self.state >> 33) % end
    }

    fn flip(&mut self) -> bool {
        self.below(2) == 1
    }
}

// A key of a store, by its place among the keys.
#[derive(Clone, Copy, PartialEq, Eq, PartialOrd, Ord)]
struct Spot {
    store: u64,
    key: u64,
}

fn is_past(from: u64, to: u64, with: bool, up: bool) -> bool {
    (with && from == to) || (if up { from < to } else { to < from })
}

// The index beside an ordered map of the same entries.
#[derive(Drop)]
struct Pair {
    index: WalIndex,
    map: BTreeMap<Spot, Entry>,
    gone: Vec<u64>,
    // the last number of each store
    last: [u64; 3],
}

impl Pair {
    fn new(alloc: Global) -> Pair {
        Pair {
            index: WalIndex::new(alloc),
            map: BTreeMap::new(alloc),
            gone: Vec::new(alloc),
            last: [0; 3],
        }
    }

    fn last_of(&self, store: u64) -> u64 {
        self.last.get(store as usize).copied().unwrap_or(0)
    }

    // A number above all that the store drew before.
    fn new_number(&mut self, store: u64, skipped: u64) -> u64 {
        let Some(last) = self.last.get_mut(store as usize) else {
            return 0;
        };
        *last = last.saturating_add(1).saturating_add(skipped);
        *last
    }

    // Puts an entry, and tells whether both have the same one before it.
    fn same_put(&mut self, spot: Spot, live: bool, skipped: u64) -> Result<bool, Refusal> {
        let seq = self.new_number(spot.store, skipped);
        let entry = Entry {
            seq,
            address: seq.wrapping_mul(8),
            live,
            len: 32,
        };
        let older = self.map.insert(spot, entry)?;
        let room = self.index.room(key_at(spot.key), 1)?;
        Ok(self.index.put(spot.store, room, entry) == older)
    }

    fn go(&mut self, store: u64) -> Result<(), Refusal> {
        self.gone.push(store)?;
        retain_others(&mut self.map, store);
        self.index.reserve_gone()?;
        self.index.gone(store);
        Ok(())
    }

    fn same_next(&self, spot: Spot, with: bool, up: bool) -> bool {
        let nearest = nearest_key(&self.map, spot, with, up);
        let want = nearest.map(|(key, entry)| (key_at(key), entry));
        self.index.next(spot.store, key_at(spot.key), with, up) == want
    }

    fn same_next_seq(&self, store: u64, seq: u64, with: bool, up: bool) -> bool {
        let nearest = nearest_number(&self.map, store, seq, with, up);
        let want = nearest.map(|(number, key)| (number, key_at(key)));
        self.index.next_seq(store, seq, with, up) == want
    }

    fn same_by_seq(&self, store: u64, seq: u64) -> bool {
        let want = number_in(&self.map, store, seq).map(key_at);
        self.index.by_seq(store, seq) == want
    }

    fn same_get(&self, spot: Spot) -> bool {
        self.index.get(spot.store, key_at(spot.key)) == self.map.get(&spot).copied()
    }

    // Whether the index lists the entries of the map, and the stores that are gone.
    fn same_list(&self) -> Result<bool, Refusal> {
        let all = self.index.sorted()?;
        let mut rows = all.keys.as_slice().iter();
        for (spot, entry) in self.map.iter() {
            let Some(row) = rows.next() else {
                return Ok(false);
            };
            if row.store != spot.store
                || row.key.as_slice() != key_at(spot.key)
                || row.entry != *entry
            {
                return Ok(false);
            }
        }
        let is_end = rows.next().is_none() && self.index.len() == self.map.len() as u64;
        Ok(is_end && all.gone.as_slice() == self.gone.as_slice())
    }

    // Does one operation on both, and tells whether they agree.
    fn step(&mut self, draws: &mut Draws) -> Result<bool, Refusal> {
        let spot = Spot {
            store: draws.below(STORES),
            key: draws.below(KEYS),
        };
        let with = draws.flip();
        let up = draws.flip();
        let seq = self
            .last_of(spot.store)
            .saturating_add(1)
            .saturating_sub(draws.below(20));
        match draws.below(32) {
            0 => self.go(spot.store)?,
            1..=11 => {
                if !self.same_put(spot, draws.flip(), draws.below(3))? {
                    return Ok(false);
                }
            }
            12..=14 => return Ok(self.same_get(spot)),
            15..=17 => return Ok(self.same_by_seq(spot.store, seq)),
            18..=24 => return Ok(self.same_next(spot, with, up)),
            _ => return Ok(self.same_next_seq(spot.store, seq, with, up)),
        }
        self.same_list()
    }
}

fn retain_others(map: &mut BTreeMap<Spot, Entry>, store: u64) {
    map.retain(|spot, _| spot.store != store);
}

fn nearest_key(
    map: &BTreeMap<Spot, Entry>,
    at: Spot,
    with: bool,
    up: bool,
) -> Option<(u64, Entry)> {
    let mut nearest = None;
    for (spot, entry) in map.iter() {
        let is_there = spot.store == at.store && is_past(at.key, spot.key, with, up);
        if is_there && (!up || nearest.is_none()) {
            nearest = Some((spot.key, *entry));
        }
    }
    nearest
}

fn nearest_number(
    map: &BTreeMap<Spot, Entry>,
    store: u64,
    seq: u64,
    with: bool,
    up: bool,
) -> Option<(u64, u64)> {
    let mut nearest: Option<(u64, u64)> = None;
    for (spot, entry) in map.iter() {
        let is_there = spot.store == store && is_past(seq, entry.seq, with, up);
        let is_nearer = nearest.is_none_or(|best| is_past(entry.seq, best.0, false, up));
        if is_there && is_nearer {
            nearest = Some((entry.seq, spot.key));
        }
    }
    nearest
}

fn number_in(map: &BTreeMap<Spot, Entry>, store: u64, seq: u64) -> Option<u64> {
    for (spot, entry) in map.iter() {
        if spot.store == store && entry.seq == seq {
            return Some(spot.key);
        }
    }
    None
}

#[test]
fn a_random_walk(rt: HostRuntime) -> Result<(), Fail> {
    let mut draws = Draws { state: 1 };
    let mut pair = Pair::new(rt.alloc());
    for at in 0..OPERATIONS {
        let agrees = pair.step(&mut draws)?;
        assert!(rt; agrees, "operation {at}");
    }
    Ok(())
}
