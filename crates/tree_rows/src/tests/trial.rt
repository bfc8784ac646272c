use super::blocks::Blocks;
use super::shape::is_tree;
use btree_cow::{find, insert, next, remove};
use forest_model::Refusal;
use std::alloc::Global;
use std::collections::BTreeMap;
use std::ops::Bound;

// A tree, and beside it an ordered map in which the same changes were made.
#[derive(Drop)]
pub(super) struct Trial {
    blocks: Blocks,
    root: Option<u64>,
    map: BTreeMap<u64, u64>,
}

impl Trial {
    pub(super) fn new(alloc: Global) -> Trial {
        Trial {
            blocks: Blocks::new(alloc),
            root: None,
            map: BTreeMap::new(alloc),
        }
    }

    pub(super) fn count(&self) -> usize {
        self.map.len()
    }

    pub(super) fn put(&mut self, chunk: u64, value: u64) -> Result<(), Refusal> {
        let root = insert(&mut self.blocks, self.root, chunk, value)?;
        self.root = Some(root);
        self.map.insert(chunk, value)?;
        Ok(())
    }

    pub(super) fn cancel(&mut self, chunk: u64) -> Result<(), Refusal> {
        self.root = remove(&mut self.blocks, self.root, chunk)?;
        self.map.remove(&chunk);
        Ok(())
    }

    // The first chunk from one on that is present, else this one.
    pub(super) fn first_from(&self, chunk: u64) -> u64 {
        match self.map.range(chunk..).next() {
            Some((present, _)) => *present,
            None => chunk,
        }
    }

    // Whether `next` from 0 upwards gives exactly the entries of the map.
    pub(super) fn is_listed(&mut self) -> bool {
        let mut last: u64 = 0;
        let mut with = true;
        for (chunk, value) in &self.map {
            if next(&mut self.blocks, self.root, last, with, true) != Ok(Some((*chunk, *value))) {
                return false;
            }
            last = *chunk;
            with = false;
        }
        next(&mut self.blocks, self.root, last, with, true) == Ok(None)
    }

    // Whether a chunk and its neighbours are those of the map.
    pub(super) fn agrees_near(&mut self, chunk: u64) -> bool {
        let value = self.map.get(&chunk).copied();
        let here = value.map(|value| (chunk, value));
        let above = above(&self.map, chunk);
        let below = below(&self.map, chunk);
        find(&mut self.blocks, self.root, chunk) == Ok(value)
            && next(&mut self.blocks, self.root, chunk, true, true) == Ok(here.or(above))
            && next(&mut self.blocks, self.root, chunk, true, false) == Ok(here.or(below))
            && next(&mut self.blocks, self.root, chunk, false, true) == Ok(above)
            && next(&mut self.blocks, self.root, chunk, false, false) == Ok(below)
    }

    pub(super) fn is_well_formed(&self) -> bool {
        match self.root {
            Some(root) => is_tree(&self.blocks, root),
            None => self.map.len() == 0,
        }
    }
}

fn above(map: &BTreeMap<u64, u64>, chunk: u64) -> Option<(u64, u64)> {
    let (chunk, value) = map
        .range((Bound::Excluded(chunk), Bound::Unbounded))
        .next()?;
    Some((*chunk, *value))
}

fn below(map: &BTreeMap<u64, u64>, chunk: u64) -> Option<(u64, u64)> {
    let (chunk, value) = map.range(..chunk).next_back()?;
    Some((*chunk, *value))
}
