ghost use Rattle.std.specs.Prelude.{◌≡◌, ◌+◌, ◌<◌, ◌≤◌, ◌^◌, List, ℕ, [], ◌++◌, length, IfSome, IsTrue, MatchOption, take, drop, Option, Some};
ghost use Rattle.std.specs.List.{flat_map, list_all};
ghost use Rattle.forest_model.specs.Stored.{StoreRow};
ghost use Rattle.forest_model.specs.declared.stored.Header.{Header};
ghost use Rattle.header_block.specs.Layout.{fields, header_bytes, is_well_formed, is_row, long, optional, store_bytes};

use crate::rules::is_well_formed;
use crate::writer::payload_of;
use forest_model::{Header, Stores};

/// The header of a payload that stands in block `at`; None exactly where there is no well-formed one.
pub fn header_of(payload: &[u8], at: u64) -> Option<Header>
    ensures cases { MatchOption result ((h : Header) → payload.now ≡ header_bytes h → IsTrue (is_well_formed at h) → ⊥) (λ h. (payload.now ≡ header_bytes h) × IsTrue (is_well_formed at h)) }
    ensures only { (h : Header) → payload.now ≡ header_bytes h → IsTrue (is_well_formed at h) → result ≡ Some h }
{
    let header = read(payload)?;
    if !is_well_formed(&header, at) {
        return None;
    }
    let written = payload_of(&header);
    if &written.bytes[..usize::from(written.len)] == payload {
        Some(header)
    } else {
        None
    }
}

// The header of a payload, if it has one: what is read is still to be compared with what the header is written as.
fn read(payload: &[u8]) -> Option<Header>
    ensures { (h : Header) (at : ℕ) → IsTrue (is_well_formed at h) → payload.now ≡ header_bytes h → result ≡ Some h }
{
    if payload.len() < 72 {
        return None;
    }
    let mut reader = Reader { rest: payload };
    let (header, count) = reader.fields();
    let stores = reader.stores(count)?;
    Some(Header { stores, ..header })
}

// The bytes that are still to be read.
#[derive(Drop)]
struct Reader<'a> {
    rest: &'a [u8],
}

impl<'a> Reader<'a> {
    fn bytes(&mut self, count: usize) -> &'a [u8]
        requires { count ≤ length self.old.rest.now }
        ensures front { result.now ≡ take count self.old.rest.now }
        ensures rest { self.new.rest.now ≡ drop count self.old.rest.now }
        ensures front_len { length result.now ≡ count }
        ensures rest_len { length self.new.rest.now + count ≡ length self.old.rest.now }
    {
        let (front, rest) = self.rest.split_at(count);
        self.rest = rest;
        front
    }

    #[tactic(auto, unfolding(crate::specs::Layout::long))]
    fn long(&mut self) -> u64
        requires { 8 ≤ length self.old.rest.now }
        ensures len { length self.new.rest.now + 8 ≡ length self.old.rest.now }
        ensures back { (n : ℕ) (rest : List ℕ) → n < 2 ^ 64 → self.old.rest.now ≡ long n ++ rest → (result ≡ n) × (self.new.rest.now ≡ rest) }
    {
        let mut number = [0; 8];
        number.copy_from_slice(self.bytes(8));
        u64::from_be_bytes(number)
    }

    fn optional(&mut self) -> Option<u64>
        requires { 8 ≤ length self.old.rest.now }
        ensures len { length self.new.rest.now + 8 ≡ length self.old.rest.now }
        ensures back { (block : Option ℕ) (rest : List ℕ) → IfSome block (λ b. b < 2 ^ 62) → self.old.rest.now ≡ optional block ++ rest → (result ≡ block) × (self.new.rest.now ≡ rest) }
    {
        match self.long() {
            0 => None,
            number => Some(number - 1),
        }
    }

    // The fields of a header that has no store yet, and how many stores there are.
    fn fields(&mut self) -> (Header, u64)
        requires { 72 ≤ length self.old.rest.now }
        ensures { (h : Header) (at : ℕ) (rest : List ℕ) → IsTrue (is_well_formed at h) → self.old.rest.now ≡ fields h ++ rest
            → (result.0 ≡ record h { stores = [] }) × (result.1 ≡ length h.stores) × (self.new.rest.now ≡ rest) }
    {
        let header = Header {
            commit: self.long(),
            next_commit: self.long(),
            previous: self.optional(),
            key: self.optional(),
            seq: self.optional(),
            wal_from: self.long(),
            live: self.long(),
            next_store: self.long(),
            stores: Stores::new(),
        };
        let count = self.long();
        (header, count)
    }

    // This many stores, if nothing else is left.
    fn stores(&mut self, count: u64) -> Option<Stores>
        ensures { (next : ℕ) (rows : List StoreRow) → next < 2 ^ 62 → length rows ≡ count → length rows ≤ 64 → IsTrue (list_all (is_row next) rows) → self.old.rest.now ≡ flat_map store_bytes rows → result ≡ Some rows }
    {
        if count > 64 || self.rest.len() as u64 != 56 * count {
            return None;
        }
        let mut stores = Stores::new();
        for _ in 0..count {
            let (id, name, seq, documents) = self.store();
            stores.push(id, name, seq, documents);
        }
        Some(stores)
    }

    // A store. A name that is too long for one is cut.
    fn store(&mut self) -> (u64, &'a [u8], u64, u64)
        requires { 56 ≤ length self.old.rest.now }
        ensures len { length self.new.rest.now + 56 ≡ length self.old.rest.now }
        ensures name { length result.1.now ≤ 31 }
        ensures back { (next : ℕ) (s : StoreRow) (rest : List ℕ) → next < 2 ^ 62 → IsTrue (is_row next s) → self.old.rest.now ≡ store_bytes s ++ rest
            → (record { id = result.0; name = result.1.now; seq = result.2; documents = result.3 } ≡ s) × (self.new.rest.now ≡ rest) }
    {
        let id = self.long();
        let len = self.bytes(1)[0];
        let field = self.bytes(31);
        let seq = self.long();
        let documents = self.long();
        (id, &field[..usize::from(len).min(31)], seq, documents)
    }
}
