ghost use Rattle.std.specs.Prelude.{◌≤◌, length};
ghost use Rattle.file_core.specs.Updates.{Updates};
ghost use Rattle.file_parts.specs.Moment.{moment};
ghost use Rattle.file_parts.specs.Keeping.{Keeps, StaysStopped};
ghost use Rattle.forest_model.specs.declared.call.Call.TheVariants as Call;
ghost use Rattle.forest_model.specs.declared.call.Reply.TheVariants as Reply;

use crate::FileState;
use block_host::Host;
use doc_stream::{put_is_scanned, put_stands, puts_join, puts_keep_records};
use file_documents::{batch, delete, set};
use forest_model::{Item, Refusal, StoreRef};
use model_laws::{record_blocks, rules};

impl<H: Host> FileState<H> {
    /// Sets a key, and answers the number that its document draws. Refused are a file that has stopped, a reference for
    /// reading, a key that hasn't 1 to 3,500 bytes, more than 255 bytes of meta or 1,048,576 of body, a store that isn't
    /// there, a worn number and a full file, in this order; then want of memory, and a host that fails, which stops the file.
    pub fn set(
        &mut self,
        at: &StoreRef,
        key: &[u8],
        meta: &[u8],
        body: &[u8],
    ) -> Result<u64, Refusal>
        ensures updates { Updates H.tells Reply.Seq (Call.Set at.now key.now meta.now body.now) (moment self.old.parts) (moment self.new.parts) result }
        ensures stopped { StaysStopped self.old.parts self.new.parts result }
        ensures keeps { Keeps H.tells (moment self.old.parts) (moment self.new.parts) result }
    {
        rules();
        record_blocks();
        put_stands();
        puts_keep_records();
        put_is_scanned();
        let stop = self.parts.stopped;
        if let Some(faults) = stop {
            return Err(Refusal::Stopped { faults });
        }
        set(self.alloc, &mut self.parts, at, key, meta, body)
    }

    /// Deletes a key, and answers the number that its deletion draws. Refused are a file that has stopped, a reference for
    /// reading, a key that hasn't 1 to 3,500 bytes, a store that isn't there, a worn number, a key without a document and a
    /// full file, in this order; then want of memory, and a host that fails, which stops the file.
    pub fn delete(&mut self, at: &StoreRef, key: &[u8]) -> Result<u64, Refusal>
        ensures updates { Updates H.tells Reply.Seq (Call.Delete at.now key.now) (moment self.old.parts) (moment self.new.parts) result }
        ensures stopped { StaysStopped self.old.parts self.new.parts result }
        ensures keeps { Keeps H.tells (moment self.old.parts) (moment self.new.parts) result }
    {
        rules();
        record_blocks();
        puts_keep_records();
        put_is_scanned();
        if let Some(faults) = self.parts.stopped {
            return Err(Refusal::Stopped { faults });
        }
        delete(self.alloc, &mut self.parts, at, key)
    }

    /// Makes 1 to 1,024 changes in their order and at one place, and answers the last number that they draw. If one of them
    /// is refused, nothing is changed. Refused are a file that has stopped, a reference for reading, a wrong length of a key,
    /// or of a meta or body, a store that isn't there, a worn number, a deletion of a key without a document and a full file,
    /// in this order; then want of memory, and a host that fails, which stops the file.
    pub fn batch(&mut self, at: &StoreRef, items: &[Item]) -> Result<u64, Refusal>
        requires some { 1 ≤ length items.now }
        requires few { length items.now ≤ 1024 }
        ensures updates { Updates H.tells Reply.Seq (Call.Batch at.now items.now) (moment self.old.parts) (moment self.new.parts) result }
        ensures stopped { StaysStopped self.old.parts self.new.parts result }
        ensures keeps { Keeps H.tells (moment self.old.parts) (moment self.new.parts) result }
    {
        rules();
        record_blocks();
        put_stands();
        puts_keep_records();
        put_is_scanned();
        puts_join();
        if let Some(faults) = self.parts.stopped {
            return Err(Refusal::Stopped { faults });
        }
        batch(self.alloc, &mut self.parts, at, items)
    }
}
