ghost use Rattle.std.specs.Prelude.{◌≡◌, is_none, IsTrue, IfOk, OnErr};
ghost use Rattle.std.specs.Option.{option_map};
ghost use Rattle.forest_model.specs.Session as sessions;
ghost use Rattle.forest_model.specs.Stores.{store_of};
ghost use Rattle.forest_model.specs.declared.call.Reply.TheVariants as Reply;
ghost use Rattle.forest_model.specs.declared.line.Said.TheVariants as Said;
ghost use Rattle.forest_model.specs.declared.line.Verb.TheVariants as Verb;
ghost use Rattle.plain_session.specs.Memory.{is_copy};
ghost use Rattle.plain_session.specs.Plain.{snapshot_shown};

use crate::lists::{by_key, by_seq};
use forest_model::{
    Bytes, Call, Commit, Documents, Refusal, Reply, Said, State, StoreList, StoreRef, Verb,
};
use forest_oracle::{commit_at, copy_of_stores, doc_at, found_of, is_wrong_key, store_of};
use std::alloc::{AllocError, Global};

/// What a lane's snapshot shows for good, with the place at which it was taken and its last commit.
#[derive(Drop)]
pub(crate) struct Snapshot {
    pub(crate) place: u64,
    pub(crate) stores: StoreList,
    pub(crate) documents: Documents,
    pub(crate) commit: u64,
}

fn refused(why: Refusal) -> Said
    ensures { result ≡ Said.Refused why }
{
    Said::Refused { why }
}

/// What a line on a snapshot is told where the lane has none.
pub(crate) fn not_shown(verb: &Verb) -> Said
    ensures { result ≡ sessions.not_shown verb.now }
{
    match verb {
        Verb::SnapGet { key } if is_wrong_key(key) => refused(Refusal::KeyLength),
        Verb::Scan { from, .. } if from.len() > 3500 => refused(Refusal::KeyLength),
        _ => refused(Refusal::NoSnapshot),
    }
}

impl Snapshot {
    // Of the state now.
    fn latest(alloc: Global, state: &State) -> Result<Snapshot, AllocError>
        ensures { IfOk result (λ s. snapshot_shown s ≡ sessions.latest state.now) }
    {
        Ok(Snapshot {
            place: state.place,
            stores: copy_of_stores(alloc, state.stores.as_slice())?,
            documents: state.documents.clone()?,
            commit: state.last.number,
        })
    }

    // Of a commit.
    fn of_commit(alloc: Global, state: &State, commit: &Commit) -> Result<Snapshot, AllocError>
        ensures { IfOk result (λ s. snapshot_shown s ≡ sessions.snapshot_of state.now commit.now) }
    {
        Ok(Snapshot {
            place: state.place,
            stores: copy_of_stores(alloc, commit.stores.as_slice())?,
            documents: commit.documents.clone()?,
            commit: commit.number,
        })
    }

    fn has_no_store(&self, at: StoreRef) -> bool
        ensures { result ≡ is_none (store_of self.now.stores at.store) }
    {
        store_of(self.stores.as_slice(), at.store).is_none()
    }

    fn get(&self, at: StoreRef, key: &Bytes) -> Result<Said, AllocError>
        ensures said { IfOk result (λ said. said ≡ sessions.shown (snapshot_shown self.now) at (Verb.SnapGet key.now)) }
        ensures copies { OnErr result (IsTrue (is_copy (sessions.shown (snapshot_shown self.now) at (Verb.SnapGet key.now)))) }
    {
        if is_wrong_key(key) {
            return Ok(refused(Refusal::KeyLength));
        }
        if self.has_no_store(at) {
            return Ok(refused(Refusal::NoStore));
        }
        match doc_at(&self.documents, at.store, key) {
            Some(doc) => Ok(Said::Got {
                found: found_of(key, doc)?,
            }),
            None => Ok(refused(Refusal::NotFound)),
        }
    }

    fn numbered(&self, at: StoreRef, seq: u64) -> Result<Said, AllocError>
        ensures said { IfOk result (λ said. said ≡ sessions.shown (snapshot_shown self.now) at (Verb.SnapBySeq seq)) }
        ensures copies { OnErr result (IsTrue (is_copy (sessions.shown (snapshot_shown self.now) at (Verb.SnapBySeq seq)))) }
    {
        if self.has_no_store(at) {
            return Ok(refused(Refusal::NoStore));
        }
        match self.documents.numbered(at.store, seq) {
            Some((place, doc)) => Ok(Said::At {
                found: found_of(&place.key, doc)?,
            }),
            None => Ok(refused(Refusal::NotFound)),
        }
    }

    fn scan(
        &self,
        alloc: Global,
        at: StoreRef,
        up: bool,
        from: &Bytes,
        count: u64,
    ) -> Result<Said, AllocError>
        ensures said { IfOk result (λ said. said ≡ sessions.shown (snapshot_shown self.now) at (Verb.Scan up from.now count)) }
        ensures copies { OnErr result (IsTrue (is_copy (sessions.shown (snapshot_shown self.now) at (Verb.Scan up from.now count)))) }
    {
        if from.len() > 3500 {
            return Ok(refused(Refusal::KeyLength));
        }
        if self.has_no_store(at) {
            return Ok(refused(Refusal::NoStore));
        }
        Ok(Said::Listed {
            rows: by_key(alloc, &self.documents, at.store, up, from, count)?,
        })
    }

    fn seqs(
        &self,
        alloc: Global,
        at: StoreRef,
        up: bool,
        from: u64,
        count: u64,
    ) -> Result<Said, AllocError>
        ensures said { IfOk result (λ said. said ≡ sessions.shown (snapshot_shown self.now) at (Verb.Seqs up from count)) }
        ensures copies { OnErr result (IsTrue (is_copy (sessions.shown (snapshot_shown self.now) at (Verb.Seqs up from count)))) }
    {
        if self.has_no_store(at) {
            return Ok(refused(Refusal::NoStore));
        }
        Ok(Said::Listed {
            rows: by_seq(alloc, &self.documents, at.store, up, from, count)?,
        })
    }

    /// What a line of a lane at a store is told.
    pub(crate) fn shows(&self, alloc: Global, at: StoreRef, verb: &Verb) -> Result<Said, AllocError>
        ensures said { IfOk result (λ said. said ≡ sessions.shown (snapshot_shown self.now) at verb.now) }
        ensures copies { OnErr result (IsTrue (is_copy (sessions.shown (snapshot_shown self.now) at verb.now))) }
    {
        match verb {
            Verb::SnapGet { key } => self.get(at, key),
            Verb::SnapBySeq { seq } => self.numbered(at, *seq),
            Verb::Scan { up, from, count } => self.scan(alloc, at, *up, from, *count),
            Verb::Seqs { up, from, count } => self.seqs(alloc, at, *up, *from, *count),
            _ => Ok(Said::SnapClosed),
        }
    }
}

// The snapshot that a call opens: of the commit that it names, or of the state now.
fn opened(alloc: Global, state: &State, call: &Call) -> Result<Option<Snapshot>, AllocError>
    ensures { IfOk result (λ opened. option_map snapshot_shown opened ≡ sessions.opened_snapshot call.now state.now) }
{
    let Call::SnapAt { at, seq } = call else {
        return Ok(Some(Snapshot::latest(alloc, state)?));
    };
    match commit_at(&state.last, state.earlier.as_slice(), at.store, *seq) {
        Some(commit) => Ok(Some(Snapshot::of_commit(alloc, state, commit)?)),
        None => Ok(None),
    }
}

/// The snapshot that a reply says to be open, as its call opens it.
pub(crate) fn opened_for(
    alloc: Global,
    state: &State,
    call: &Call,
    reply: &Reply,
) -> Result<Option<Snapshot>, AllocError>
    ensures ok { IfOk result (λ opened. reply.now ≡ Reply.Snapped → option_map snapshot_shown opened ≡ sessions.opened_snapshot call.now state.now) }
    ensures err { OnErr result (reply.now ≡ Reply.Snapped) }
{
    match reply {
        Reply::Snapped => opened(alloc, state, call),
        _ => Ok(None),
    }
}
