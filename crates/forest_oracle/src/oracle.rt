ghost use Rattle.std.specs.Prelude.{◌≡◌, None, IsTrue, IfOk, OnErr};
ghost use Rattle.forest_model.specs.State as states;
ghost use Rattle.forest_model.specs.Step.{causes, first_cause, step_with_room};
ghost use Rattle.forest_oracle.specs.Memory.{takes_memory};

use forest_model::{
    Bytes, Call, Commit, Documents, Limits, Refusal, Reply, Sequence, State, Store, StoreList,
};
use std::alloc::Global;

mod commits;
mod copies;
mod limits;
mod reads;
mod stores;
mod tables;
mod turns;
mod writes;

pub use limits::is_wrong_key;
pub use reads::{found_of, ticket_of};
pub use tables::{commit_at, copy_of_stores, doc_at, store_of};

/// The sequential store over ordered maps: slow and plain.
#[derive(Drop)]
pub struct Oracle {
    /// Its state now.
    pub state: State,
    alloc: Global,
}

fn first_stores(alloc: Global) -> Result<StoreList, Refusal>
    ensures stores { IfOk result (λ stores. stores ≡ states.first_stores) }
    ensures memory { OnErr result (result ≡ Err Refusal.NoMemory) }
{
    let mut stores = Sequence::new(alloc);
    stores.push(Store {
        id: 0,
        name: Bytes::copy_of(alloc, b"default")?,
        seq: 0,
    })?;
    Ok(stores)
}

fn new_state(alloc: Global, limits: Limits) -> Result<State, Refusal>
    ensures state { IfOk result (λ state. state ≡ states.new_state limits) }
    ensures memory { OnErr result (result ≡ Err Refusal.NoMemory) }
{
    Ok(State {
        stores: first_stores(alloc)?,
        documents: Documents::new(alloc),
        last: Commit {
            number: 0,
            stores: first_stores(alloc)?,
            documents: Documents::new(alloc),
        },
        earlier: Sequence::new(alloc),
        next_commit: 1,
        next_store: 1,
        next_ticket: 1,
        copying: None,
        kept: 1,
        revision: 1,
        generation: 1,
        loose: 0,
        place: 0,
        limits,
    })
}

impl Oracle {
    /// A new store with the usual limits. An `Err` is want of memory.
    pub fn new(alloc: Global) -> Result<Oracle, Refusal>
        ensures new { IfOk result (λ oracle. oracle.state ≡ states.new_state states.usual_limits) }
        ensures memory { OnErr result (result ≡ Err Refusal.NoMemory) }
    {
        let limits = Limits {
            max_blocks: 1 << 32,
            threshold: 4096,
        };
        Ok(Oracle {
            state: new_state(alloc, limits)?,
            alloc,
        })
    }

    /// One step where no file is full. A refused call is answered so; an `Err` is want of memory, leaves the state,
    /// and comes only of a call that takes memory and that nothing refuses.
    pub fn step(&mut self, call: &Call) -> Result<Reply, Refusal>
        ensures step { IfOk result (λ reply. (reply, self.new.state) ≡ step_with_room self.old.state call.now) }
        ensures err { OnErr result (self.new.state ≡ self.old.state) }
        ensures memory { OnErr result (result ≡ Err Refusal.NoMemory) }
        ensures memory_needed { OnErr result (IsTrue (takes_memory self.old.state call.now)) }
        ensures answered { OnErr result (first_cause (causes self.old.state call.now) ≡ None) }
    {
        let alloc = self.alloc;
        let state = &mut self.state;
        match call {
            Call::Set {
                at,
                key,
                meta,
                body,
            } => writes::set(alloc, state, *at, key, meta, body),
            Call::Delete { at, key } => writes::delete(alloc, state, *at, key),
            Call::Batch { at, items } => writes::batch(alloc, state, *at, items),
            Call::Get { at, key } => reads::get(state, *at, key),
            Call::BySeq { at, seq } => reads::by_seq(state, *at, *seq),
            Call::Info { at } => Ok(reads::info(state, *at)),
            Call::Markers => reads::markers(alloc, state),
            Call::StoreOpen { name, read_only } => stores::open(state, name, *read_only),
            Call::StoreRemove { at, name } => Ok(stores::remove(alloc, state, *at, name)),
            Call::Commit { at } => commits::commit(alloc, state, *at),
            Call::Rollback { at, number } => commits::roll_back(alloc, state, *at, *number),
            Call::SnapLatest => Ok(Reply::Snapped),
            Call::SnapAt { at, seq } => Ok(reads::snap_at(state, *at, *seq)),
            Call::Begin { at } => Ok(copies::begin(state, *at)),
            Call::Delta { ticket, left } => Ok(copies::delta(state, *ticket, *left)),
            Call::Switch { at, ticket, left } => {
                Ok(copies::switch(alloc, state, *at, *ticket, *left))
            }
            Call::Cancel { at, ticket } => Ok(copies::cancel(state, *at, *ticket)),
        }
    }
}
