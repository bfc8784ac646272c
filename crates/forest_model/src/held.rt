use crate::bytes::Bytes;
use crate::call::{Call, Reply};
use crate::sequence::Sequence;
use crate::state::State;
use std::collections::LinkedList;

/// What a value that threads take in turns shows at one moment. No value of it is made.
pub struct Point {
    /// The state that it stands for. The number of updates so far is the state's place.
    pub state: State,
    /// The blocks of the current file.
    pub blocks: Sequence<Bytes>,
    /// The number of blocks just after the last switch of this run, 0 before one.
    pub base: u64,
    /// How often its host has failed.
    pub host_faults: u64,
    /// How often its held view has failed.
    pub view_faults: u64,
    /// The count that was kept when it stopped.
    pub stopped: Option<u64>,
    /// Its host's clock.
    pub clock: u64,
}

/// What was done with the value in one section. No value of it is kept.
#[derive(Drop)]
pub enum Deed {
    /// An update, with its reply.
    Changed { call: Call, reply: Reply },
    /// Nothing that changes the state.
    Same,
    /// A call that stopped the value.
    Stopped { call: Call },
}

/// One section: the value as it was taken and as it was put back. No value of it is made.
pub struct Section {
    pub entered: Point,
    pub left: Point,
    pub deed: Deed,
}

/// What a pass knows and has made. No value of it is made.
pub struct Notes {
    /// Its shares of the right to close.
    pub shares: u64,
    /// The value at place 0.
    pub start: Point,
    /// What it was told when it was split off or when others were joined to it.
    pub told: LinkedList<Point>,
    /// Its own sections.
    pub sections: LinkedList<Section>,
}

/// A value that threads take in turns.
pub trait Held {
    ghost use Rattle.std.specs.Prelude.{ℕ, List};
    ghost use Rattle.forest_model.specs.State.{Durable};
    ghost use Rattle.forest_model.specs.declared.held.Point.{Point};
    ghost use Rattle.forest_model.specs.Covers.{Weakens};

    /// What it shows now.
    ghost shows: { Self → Point };

    /// Its file tells what it holds, and every image of it stands for something.
    ghost is_sound: { Self → Type 0 };

    /// Every image of every moment from this value of the clock on stands for a member of the list.
    ghost covers: { Self → ℕ → List Durable → Type 0 };

    ghost weakens: { (value : Self) → Weakens (covers value) };
}
