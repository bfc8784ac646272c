ghost use Rattle.std.specs.Prelude.{◌≡◌, ◌≢◌, ◌≤◌, ℕ, List, IsTrue, IfOk, IfErr, Some, Err};
ghost use Rattle.doc_stream.specs.Causes.{BreaksRecord};
ghost use Rattle.file_core.specs.Reads.{ReadsFrom, read_leaves, read_notes, refused_leaves, refused_notes};
ghost use Rattle.file_core.specs.Stands.{Stands};
ghost use Rattle.file_parts.specs.Held.{held};
ghost use Rattle.file_parts.specs.Lookup.{FindsRecord, IsNumbered};
ghost use Rattle.file_parts.specs.Keeping.{StaysStopped};
ghost use Rattle.forest_model.specs.Step.{step_with_room};
ghost use Rattle.forest_model.specs.declared.call.Call.TheVariants as Call;
ghost use Rattle.forest_model.specs.declared.call.Reply.TheVariants as Reply;
ghost use Rattle.forest_model.specs.declared.refusal.Refusal.TheVariants as Refusal;
ghost use Rattle.forest_model.specs.declared.state.State.{State};
ghost use Rattle.forest_model.specs.declared.stored.Entry.{Entry};
ghost use Rattle.wal_index.specs.Index.{entry_at};

use crate::FileState;
use block_host::Host;
use file_parts::{entry_of_key, entry_of_number, find_record, info_of};
use forest_model::{Entry, Found, Info, Refusal, StoreRef};

impl<H: Host> FileState<H> {
    /// The document of a key. Refused are a file that has stopped, a key that hasn't 1 to 3,500 bytes, a store that isn't
    /// there and a key without a document, in this order; then want of memory, and a view that fails or a damaged block of
    /// the document's record, which stop the file.
    pub fn get(&mut self, at: &StoreRef, key: &[u8]) -> Result<Found, Refusal>
        ensures reads { ReadsFrom H.tells (held self.old.parts) (H.disk self.old.parts.host)
            (H.View.content self.old.parts.view) (H.View.faults self.old.parts.view) (H.View.faults self.new.parts.view)
            (Call.Get at.now key.now) result }
        ensures stopped { StaysStopped self.old.parts self.new.parts result }
        ensures damaged { (block : ℕ) → result ≡ Err (Refusal.Damaged self.old.parts.revision block) → IsTrue H.tells
            → (e : Entry) × (entry_at self.old.parts.wal.entries at.now.store key.now ≡ Some e)
            × BreaksRecord self.old.parts.revision (H.View.content self.old.parts.view) self.old.parts.tail e.address block }
        ensures left { held self.new.parts ≡ read_leaves (H.faults self.old.parts.host) (held self.old.parts) result }
        ensures noted { self.new.parts.damaged ≡ read_notes self.old.parts.damaged result }
        ensures opened { self.new.parts.opened ≡ self.old.parts.opened }
        ensures host { self.new.parts.host ≡ self.old.parts.host }
        ensures content { IsTrue H.tells → H.View.content self.new.parts.view ≡ H.View.content self.old.parts.view }
        ensures counts { H.View.faults self.old.parts.view ≤ H.View.faults self.new.parts.view }
        ensures untroubled { result ≢ Err Refusal.DiskFault → H.View.faults self.new.parts.view ≡ H.View.faults self.old.parts.view }
    {
        let entry = entry_of_key(&self.parts, at, key)?;
        self.document(entry)
    }

    /// The document of a store's number. Refused are a file that has stopped, a store that isn't there and a number without a
    /// document, in this order; then want of memory, and a view that fails or a damaged block of the document's record,
    /// which stop the file.
    pub fn by_seq(&mut self, at: &StoreRef, seq: u64) -> Result<Found, Refusal>
        ensures reads { ReadsFrom H.tells (held self.old.parts) (H.disk self.old.parts.host)
            (H.View.content self.old.parts.view) (H.View.faults self.old.parts.view) (H.View.faults self.new.parts.view)
            (Call.BySeq at.now seq) result }
        ensures stopped { StaysStopped self.old.parts self.new.parts result }
        ensures damaged { (block : ℕ) → result ≡ Err (Refusal.Damaged self.old.parts.revision block) → IsTrue H.tells
            → (key : List ℕ) × (e : Entry) × IsNumbered self.old.parts.wal.entries at.now.store seq key e
            × BreaksRecord self.old.parts.revision (H.View.content self.old.parts.view) self.old.parts.tail e.address block }
        ensures left { held self.new.parts ≡ read_leaves (H.faults self.old.parts.host) (held self.old.parts) result }
        ensures noted { self.new.parts.damaged ≡ read_notes self.old.parts.damaged result }
        ensures opened { self.new.parts.opened ≡ self.old.parts.opened }
        ensures host { self.new.parts.host ≡ self.old.parts.host }
        ensures content { IsTrue H.tells → H.View.content self.new.parts.view ≡ H.View.content self.old.parts.view }
        ensures counts { H.View.faults self.old.parts.view ≤ H.View.faults self.new.parts.view }
        ensures untroubled { result ≢ Err Refusal.DiskFault → H.View.faults self.new.parts.view ≡ H.View.faults self.old.parts.view }
    {
        let entry = entry_of_number(&self.parts, at, seq)?;
        self.document(entry)
    }

    // The document of an entry.
    fn document(&mut self, entry: Entry) -> Result<Found, Refusal>
        ensures finds { FindsRecord H.View.tells self.old.parts.revision (H.View.content self.old.parts.view) self.old.parts.tail
            entry (H.View.faults self.old.parts.view) (H.View.faults self.new.parts.view) result }
        ensures left { held self.new.parts ≡ read_leaves (H.faults self.old.parts.host) (held self.old.parts) result }
        ensures noted { self.new.parts.damaged ≡ read_notes self.old.parts.damaged result }
        ensures opened { self.new.parts.opened ≡ self.old.parts.opened }
        ensures host { self.new.parts.host ≡ self.old.parts.host }
        ensures content { IsTrue H.View.tells → H.View.content self.new.parts.view ≡ H.View.content self.old.parts.view }
        ensures counts { H.View.faults self.old.parts.view ≤ H.View.faults self.new.parts.view }
        ensures untroubled { result ≢ Err Refusal.DiskFault → H.View.faults self.new.parts.view ≡ H.View.faults self.old.parts.view }
    {
        let parts = &mut self.parts;
        let found = find_record(
            self.alloc,
            &mut parts.view,
            &parts.tail,
            parts.revision,
            entry,
        );
        match found {
            Ok(found) => Ok(found),
            Err(why) => {
                self.stop_by(why);
                Err(why)
            },
        }
    }

    // Notes the stop, where this refusal of a read stops the file.
    fn stop_by(&mut self, why: Refusal)
        ensures left { held self.new.parts ≡ refused_leaves (H.faults self.old.parts.host) (held self.old.parts) why }
        ensures noted { self.new.parts.damaged ≡ refused_notes self.old.parts.damaged why }
        ensures opened { self.new.parts.opened ≡ self.old.parts.opened }
        ensures host { self.new.parts.host ≡ self.old.parts.host }
        ensures view { self.new.parts.view ≡ self.old.parts.view }
    {
        match why {
            Refusal::DiskFault => self.parts.stopped = Some(self.parts.host.faults()),
            Refusal::Damaged { file, block } => {
                self.parts.stopped = Some(self.parts.host.faults());
                self.parts.damaged = Some((file, block));
            },
            _ => {},
        }
    }

    /// What a store and the file are at. Refused are a file that has stopped and a store that isn't there, in this order. It
    /// reads memory alone.
    pub fn info(&mut self, at: &StoreRef) -> Result<Info, Refusal>
        ensures told { (s : State)
            → Stands H.tells (held self.old.parts) (H.disk self.old.parts.host) (H.View.content self.old.parts.view) s
            → IfOk result (λ info. step_with_room s (Call.Info at.now) ≡ (Reply.InfoIs info, s)) }
        ensures refused { (s : State)
            → Stands H.tells (held self.old.parts) (H.disk self.old.parts.host) (H.View.content self.old.parts.view) s
            → IfErr result (λ why. step_with_room s (Call.Info at.now) ≡ (Reply.Refused why, s)) }
        ensures stopped { StaysStopped self.old.parts self.new.parts result }
        ensures held { held self.new.parts ≡ held self.old.parts }
        ensures host { self.new.parts.host ≡ self.old.parts.host }
        ensures view { self.new.parts.view ≡ self.old.parts.view }
    {
        info_of(&self.parts, at)
    }
}
