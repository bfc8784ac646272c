ghost use Rattle.std.specs.Prelude.{◌≡◌, ◌⊎◌, ◌+◌, ◌-◌, ◌<◌, ◌≤◌, ℕ, List, [], ◌∷◌, ◌++◌, length, slice_get, Some, IsTrue};
ghost use Rattle.block_host.specs.Sealed.{IsSealed};
ghost use Rattle.block_host.specs.declared.block.Block.{Block};
ghost use Rattle.forest_model.specs.declared.stored.Rec.{Rec};
ghost use Rattle.doc_stream.specs.OpenBlock.{OpenBlock, PutsBytes, address_of};
ghost use Rattle.doc_stream.specs.Reading.{RecordAt};
ghost use Rattle.forest_model.specs.Records.{is_record, record_bytes};
ghost use Rattle.doc_stream.specs.Runs.{RecordsOf};
ghost use Rattle.doc_stream.specs.Scanned.{IsScanned};
ghost use Rattle.doc_stream.specs.Writing.{Writing, Begins, AreOthers, Wrote};

/// Whatever was put, padded, passed and restarted, in any order: once nothing is open, the records of the range are those
/// that were put, at their addresses.
pub fn written_is_scanned()
    ensures { (revision : ℕ) (first last : Writing) (steps : List Writing) → Begins first → Wrote revision first steps last → last.tail.bytes ≡ []
        → RecordsOf revision last.file last.start (length last.file - last.start) last.records }
{}

/// At every moment the record at each of these addresses is the one that was put there.
pub fn written_is_read()
    ensures { (revision : ℕ) (first last : Writing) (steps : List Writing) → Begins first → Wrote revision first steps last
        → (n : ℕ) (address : ℕ) (r : Rec) → slice_get last.records n ≡ Some (address, r) → RecordAt revision last.file last.tail address r }
{}

/// A record that was put stands at the address at which the open block was, and the open block is right behind the file again.
pub fn put_stands()
    ensures stands { (revision : ℕ) (r : Rec) (before after : OpenBlock) (file grown : List Block) → before.number ≡ length file → length before.bytes < 4064 → IsTrue (is_record r)
        → PutsBytes revision (record_bytes r) before after file grown → RecordAt revision grown after (address_of before.number (length before.bytes)) r }
    ensures behind { (revision : ℕ) (bytes : List ℕ) (before after : OpenBlock) (file grown : List Block) → before.number ≡ length file → length before.bytes < 4064
        → PutsBytes revision bytes before after file grown → (after.number ≡ length grown) × (length after.bytes < 4064) }
{}

/// A record that stands at an address stays there when bytes are put.
pub fn puts_keep_records()
    ensures { (revision : ℕ) (bytes : List ℕ) (before after : OpenBlock) (file grown : List Block) (address : ℕ) (r : Rec) → before.number ≡ length file
        → length before.bytes < 4064 → length after.bytes < 4064 → PutsBytes revision bytes before after file grown → RecordAt revision file before address r → RecordAt revision grown after address r }
{}

/// Nor does it go when the open block is padded out.
pub fn pads_keep_records()
    ensures { (revision : ℕ) (before : OpenBlock) (file : List Block) (block : Block) (address : ℕ) (r : Rec) → before.number ≡ length file → IsSealed revision before.number 1 before.bytes block
        → RecordAt revision file before address r → RecordAt revision (file ++ block ∷ []) (record { number = before.number + 1; bytes = [] }) address r }
{}

/// Nor when blocks are appended where nothing is open, wherever behind them the next one is opened.
pub fn blocks_keep_records()
    ensures { (revision : ℕ) (before after : OpenBlock) (file more : List Block) (address : ℕ) (r : Rec) → before.number ≡ length file → before.bytes ≡ [] → length file ≤ after.number
        → RecordAt revision file before address r → RecordAt revision (file ++ more) after address r }
{}

/// Bytes put one after another are put as one.
pub fn puts_join()
    ensures join { (revision : ℕ) (first second : List ℕ) (a b c : OpenBlock) (o p q : List Block) → length c.bytes < 4064
        → PutsBytes revision first a b o p → PutsBytes revision second b c p q → PutsBytes revision (first ++ second) a c o q }
    ensures none { (revision : ℕ) (a : OpenBlock) (o : List Block) → length a.bytes < 4064 → PutsBytes revision [] a a o o }
{}

/// What a range of blocks holds as records stands at the addresses, wherever outside the range a block is open.
pub fn scanned_there()
    ensures { (revision : ℕ) (file : List Block) (tail : OpenBlock) (start count : ℕ) (records : List (ℕ × Rec)) → RecordsOf revision file start count records → (tail.number < start) ⊎ (start + count ≤ tail.number)
        → (n : ℕ) (address : ℕ) (r : Rec) → slice_get records n ≡ Some (address, r) → RecordAt revision file tail address r }
{}

/// A range of blocks holds one list of records.
pub fn scanned_is_one()
    ensures { (revision : ℕ) (file : List Block) (start count : ℕ) (records others : List (ℕ × Rec)) → RecordsOf revision file start count records → RecordsOf revision file start count others → records ≡ others }
{}

/// It goes by these blocks alone.
pub fn scanned_stays()
    ensures { (revision : ℕ) (old new : List Block) (start count : ℕ) (records : List (ℕ × Rec)) → ((at : ℕ) → start ≤ at → at < start + count → slice_get new at ≡ slice_get old at)
        → RecordsOf revision old start count records → RecordsOf revision new start count records }
{}

/// A record that is put stands behind those that the file and its open block have.
pub fn put_is_scanned()
    ensures { (revision : ℕ) (r : Rec) (before after : OpenBlock) (file grown : List Block) (start : ℕ) (records : List (ℕ × Rec)) → IsTrue (is_record r) → IsScanned revision file before start records
        → PutsBytes revision (record_bytes r) before after file grown → IsScanned revision grown after start (records ++ (address_of before.number (length before.bytes), r) ∷ []) }
{}

/// The records stay when the open block is appended as it is, and an empty one is open behind it.
pub fn pad_is_scanned()
    ensures { (revision : ℕ) (file : List Block) (tail : OpenBlock) (start : ℕ) (records : List (ℕ × Rec)) (block : Block) → IsScanned revision file tail start records → IsSealed revision tail.number 1 tail.bytes block
        → IsScanned revision (file ++ block ∷ []) (record { number = tail.number + 1; bytes = [] }) start records }
{}

/// Blocks of other kinds that are appended where nothing is open are passed over.
pub fn pass_is_scanned()
    ensures { (revision : ℕ) (file others : List Block) (tail : OpenBlock) (start : ℕ) (records : List (ℕ × Rec)) → IsScanned revision file tail start records → tail.bytes ≡ [] → AreOthers revision tail.number others
        → IsScanned revision (file ++ others) (record { number = tail.number + length others; bytes = [] }) start records }
{}

/// Where nothing is open, the blocks alone hold the records.
pub fn close_is_scanned()
    ensures { (revision : ℕ) (file : List Block) (tail : OpenBlock) (start : ℕ) (records : List (ℕ × Rec)) → tail.bytes ≡ [] → IsScanned revision file tail start records → RecordsOf revision file start (length file - start) records }
{}

/// What the blocks up to a file's end hold, they hold with an empty open block behind them.
pub fn open_is_scanned()
    ensures { (revision : ℕ) (file : List Block) (start count : ℕ) (records : List (ℕ × Rec)) → start + count ≡ length file → RecordsOf revision file start count records
        → IsScanned revision file (record { number = length file; bytes = [] }) start records }
{}
