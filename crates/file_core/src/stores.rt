ghost use Rattle.file_core.specs.Updates.{Updates};
ghost use Rattle.file_parts.specs.Moment.{moment};
ghost use Rattle.file_parts.specs.Keeping.{Keeps, StaysStopped};
ghost use Rattle.forest_model.specs.declared.call.Call.TheVariants as Call;
ghost use Rattle.forest_model.specs.declared.call.Reply.TheVariants as Reply;

use crate::FileState;
use block_host::Host;
use doc_stream::{put_is_scanned, puts_keep_records};
use file_stores::{open_store, remove_store};
use forest_model::{Refusal, StoreRef};
use model_laws::{record_blocks, rules};

impl<H: Host> FileState<H> {
    /// Opens the store of a name, which is made where it isn't there. Refused are a file that has stopped and a name that is
    /// none; and where no store has this name a reference for reading, a worn number, the 65th store and a full file, in this
    /// order, then want of memory, and a host that fails, which stops the file.
    pub fn store_open(&mut self, name: &[u8], read_only: bool) -> Result<StoreRef, Refusal>
        ensures updates { Updates H.tells Reply.Store (Call.StoreOpen name.now read_only) (moment self.old.parts) (moment self.new.parts) result }
        ensures stopped { StaysStopped self.old.parts self.new.parts result }
        ensures keeps { Keeps H.tells (moment self.old.parts) (moment self.new.parts) result }
    {
        rules();
        record_blocks();
        puts_keep_records();
        put_is_scanned();
        if let Some(faults) = self.parts.stopped {
            return Err(Refusal::Stopped { faults });
        }
        open_store(self.alloc, &mut self.parts, name, read_only)
    }

    /// Removes the store of a name with its documents, and answers its id. Refused are a file that has stopped, a reference
    /// for reading, a name that is none or `default`, a name that no store has, a worn number and a full file, in this order;
    /// then want of memory, and a host that fails, which stops the file.
    pub fn store_remove(&mut self, at: &StoreRef, name: &[u8]) -> Result<u64, Refusal>
        ensures updates { Updates H.tells Reply.Removed (Call.StoreRemove at.now name.now) (moment self.old.parts) (moment self.new.parts) result }
        ensures stopped { StaysStopped self.old.parts self.new.parts result }
        ensures keeps { Keeps H.tells (moment self.old.parts) (moment self.new.parts) result }
    {
        rules();
        record_blocks();
        puts_keep_records();
        put_is_scanned();
        if let Some(faults) = self.parts.stopped {
            return Err(Refusal::Stopped { faults });
        }
        remove_store(self.alloc, &mut self.parts, at, name)
    }
}
