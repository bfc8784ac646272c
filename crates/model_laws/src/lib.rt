//! Laws of the sequential store, in words of their own: each is the contract of a function that does nothing.
//!
//! A step could be wrong and still be met by every program above it; so what a user of a store relies on
//! is proved here of the very definitions that the engine's contracts cite.
#![tactic(auto)]

ghost use Rattle.model_laws.specs.Laws.{RefusedLeaves, ReadsLeave, PlaceTells, RulesStay, SetIsGot, OthersStay, NothingNewMeans, DrawnStay, SeqStays, CommitDraws, BeginDraws, StoreDraws, DurableStays, OpenedIs, RecordsKeepHeader};
ghost use Rattle.model_laws.specs.Answered.{AnsweredExactly};
ghost use Rattle.model_laws.specs.Refusals.{RefusedExactly};
ghost use Rattle.model_laws.specs.Writes.{SetDraws, DeleteTakes, BatchIsItems};
ghost use Rattle.model_laws.specs.Tables.{OpenFinds, OpenMakes, RemoveTakes};
ghost use Rattle.model_laws.specs.Commits.{CommitKeeps, CommitAgain, RollbackReturns, RollbackAgain, BeginNames, DeltaTells, SwitchKeeps, CancelEnds};
ghost use Rattle.model_laws.specs.Copies.{CopiesOf};
ghost use Rattle.model_laws.specs.Reads.{GetTells, BySeqTells, OneDocument, InfoTells, MarkersTell, SnapsTell, SnapAtShows, SnapLatestShows};

/// A refused call and a call that reads leave the state. Every call raises the place by one, or changes nothing at all.
pub fn refusals_and_reads()
    ensures refused { RefusedLeaves }
    ensures reads { ReadsLeave }
    ensures place { PlaceTells }
{}

/// A step keeps the rules of a state.
pub fn rules()
    ensures { RulesStay }
{}

/// A call is answered exactly where no cause of a refusal holds, and else refused by the first that does.
pub fn answers()
    ensures answered { AnsweredExactly }
    ensures refused { RefusedExactly }
{}

/// A set draws the store's next number for its key. A document just set is got, and no other key's reply moves.
pub fn sets()
    ensures draws { SetDraws }
    ensures got { SetIsGot }
    ensures others { OthersStay }
{}

/// A delete takes exactly its key away.
pub fn deletes()
    ensures { DeleteTakes }
{}

/// A batch is its items one after another, at one place.
pub fn batches()
    ensures { BatchIsItems }
{}

/// Opening a name answers its store or makes one, and a removal takes one with its documents.
pub fn tables()
    ensures found { OpenFinds }
    ensures made { OpenMakes }
    ensures removed { RemoveTakes }
{}

/// A commit keeps exactly the present stores and documents.
pub fn new_commits()
    ensures kept { CommitKeeps }
    ensures again { CommitAgain }
{}

/// What the calls of a compaction before its switch answer and change.
pub fn compactions()
    ensures begun { BeginNames }
    ensures delta { DeltaTells }
    ensures cancelled { CancelEnds }
{}

/// What the calls that read answer.
pub fn reads()
    ensures got { GetTells }
    ensures numbered { BySeqTells }
    ensures one { OneDocument }
    ensures info { InfoTells }
    ensures markers { MarkersTell }
{}

/// What a snapshot shows that is taken.
pub fn snapshots()
    ensures told { SnapsTell }
    ensures commit { SnapAtShows }
    ensures latest { SnapLatestShows }
{}

/// Nothing is new exactly where stores and documents equal those of the last commit.
pub fn nothing_new()
    ensures { NothingNewMeans }
{}

/// A rollback gives the named commit's stores and documents, and the commits up to it.
pub fn rollbacks()
    ensures returned { RollbackReturns }
    ensures again { RollbackAgain }
{}

/// A commit number, a store id and a ticket that was drawn never comes again, and a sequence number only behind a rollback.
pub fn draws()
    ensures stay { DrawnStay }
    ensures seqs { SeqStays }
    ensures commits { CommitDraws }
    ensures tickets { BeginDraws }
    ensures stores { StoreDraws }
{}

/// What a switch drops and keeps.
pub fn switches()
    ensures { SwitchKeeps }
{}

/// Only a commit, a rollback and a switch change what is durable.
pub fn durable()
    ensures { DurableStays }
{}

/// At opening the durable is what it was, nothing is new and no compaction runs.
pub fn openings()
    ensures { OpenedIs }
{}

/// Record blocks that are put behind a file leave its last header.
pub fn record_blocks()
    ensures { RecordsKeepHeader }
{}

/// A rollback copies the record blocks below its commit's header, from the block on that this header names.
pub fn rollback_copies()
    ensures { CopiesOf }
{}
