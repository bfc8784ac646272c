ghost use Rattle.std.specs.Prelude.{◌≡◌, IfOk, OnOk, OnErr, ◌==◌, not, filter, find, count_by};
ghost use Rattle.std.specs.Option.{option_copied, option_map};
ghost use Rattle.std.specs.Cmp.{nat_eq_equiv, on_equiv, and_equiv, partial_equiv_from_equiv};
ghost use Rattle.std.specs.Cmp.Lexicographic.{nat_list_eq_equiv, lists_equiv};
ghost use Rattle.std.specs.FinMap as finite;
ghost use Rattle.forest_model.specs.Documents.{is_of, is_numbered, doc_numbered, count_of, without_store, is_same_map};

use crate::bytes::Bytes;
use std::alloc::{AllocError, Global};
use std::collections::BTreeMap;
use std::collections::btree_map::Iter;
use std::marker::Model;

/// Where a document stands: its store and its key.
#[derive(Clone, Debug, Drop, PartialEq, Eq, PartialOrd, Ord)]
pub struct DocKey {
    /// The store's id.
    pub store: u64,
    /// 1 to 3,500 bytes.
    pub key: Bytes,
}

/// A document's number and content.
#[derive(Clone, Debug, Drop, PartialEq, Eq)]
pub struct Doc {
    /// Its sequence number in its store, from 1.
    pub seq: u64,
    /// At most 255 bytes.
    pub meta: Bytes,
    /// At most 1,048,576 bytes.
    pub body: Bytes,
}

/// The documents of all stores, by store and key. They are seen as a finite map.
#[derive(Debug, Drop)]
pub struct Documents {
    entries: BTreeMap<DocKey, Doc>,
}

impl Model for Documents {
    ghost use Rattle.std.specs.FinMap as finite;
    ghost use Rattle.forest_model.specs.declared.documents.Doc.{Doc};
    ghost use Rattle.forest_model.specs.Key.{key_cmp, coded_key, coded_doc};

    ghost Value = { finite.FinMap key_cmp Doc };

    ghost coded = { finite.code coded_key coded_doc };

    ghost view = { λ d. finite.from_entries d.entries.entries };
}

impl Documents {
    /// No documents. It takes no memory.
    pub fn new(alloc: Global) -> Documents
        ensures { result ≡ finite.empty }
    {
        Documents {
            entries: BTreeMap::new(alloc),
        }
    }

    /// The document at a key.
    pub fn get(&self, key: &DocKey) -> Option<&Doc>
        ensures { option_copied result ≡ finite.get self.now key.now }
    {
        self.entries.get(key)
    }

    /// Whether there is a document at a key.
    pub fn contains(&self, key: &DocKey) -> bool
        ensures { result ≡ finite.contains_key self.now key.now }
    {
        self.entries.contains_key(key)
    }

    /// How many documents there are.
    pub fn len(&self) -> usize
        ensures { result ≡ finite.len self.now }
    {
        self.entries.len()
    }

    /// The documents in the order of their keys.
    pub fn iter(&self) -> Iter<'_, DocKey, Doc>
        ensures { result ≡ finite.entries self.now }
    {
        self.entries.iter()
    }

    /// Sets the document at a key, and answers the one before. A refusal for memory leaves the documents as they are.
    pub fn insert(&mut self, key: DocKey, doc: Doc) -> Result<Option<Doc>, AllocError>
        ensures before { IfOk result (λ before. before ≡ finite.get self.old key) }
        ensures ok { OnOk result (self.new ≡ finite.insert self.old key doc) }
        ensures err { OnErr result (self.new ≡ self.old) }
    {
        Ok(self.entries.insert(key, doc)?)
    }

    /// Removes the document at a key, and answers it.
    pub fn remove(&mut self, key: &DocKey) -> Option<Doc>
        ensures before { result ≡ finite.get self.old key.now }
        ensures removed { self.new ≡ finite.remove self.old key.now }
    {
        self.entries.remove(key)
    }

    /// Removes all documents of a store.
    pub fn remove_store(&mut self, store: u64)
        ensures { self.new ≡ without_store self.old store }
    {
        retain_others(&mut self.entries, store);
    }

    /// How many documents a store has.
    pub fn count_of(&self, store: u64) -> usize
        ensures { result ≡ count_of self.now store }
    {
        let _ordered = self.entries.len();
        count_in(&self.entries, store)
    }

    /// The document of a store with a sequence number, with where it stands.
    pub fn numbered(&self, store: u64, seq: u64) -> Option<(&DocKey, &Doc)>
        ensures { option_map (λ e. (e.0.now, e.1.now)) result ≡ doc_numbered self.now store seq }
    {
        let _ordered = self.entries.len();
        numbered_in(&self.entries, store, seq)
    }
}

impl Clone for Documents {
    ghost is_clone = { λ from copy. copy ≡ from };

    fn clone(&self) -> Result<Documents, AllocError> {
        Ok(Documents {
            entries: self.entries.clone()?,
        })
    }
}

impl PartialEq for Documents {
    ghost eq = { is_same_map };

    ghost laws = { partial_equiv_from_equiv (on_equiv finite.entries (lists_equiv (and_equiv
        (on_equiv (λ e. e.0) (and_equiv (on_equiv (λ k. k.store) nat_eq_equiv) (on_equiv (λ k. k.key) nat_list_eq_equiv)))
        (on_equiv (λ e. e.1) (and_equiv (and_equiv (on_equiv (λ d. d.seq) nat_eq_equiv) (on_equiv (λ d. d.meta) nat_list_eq_equiv)) (on_equiv (λ d. d.body) nat_list_eq_equiv)))))) };

    fn eq(&self, other: &Documents) -> bool {
        let _here = self.entries.len();
        let _there = other.entries.len();
        self.entries == other.entries
    }
}

impl Eq for Documents {
    ghost laws = { on_equiv finite.entries (lists_equiv (and_equiv
        (on_equiv (λ e. e.0) (and_equiv (on_equiv (λ k. k.store) nat_eq_equiv) (on_equiv (λ k. k.key) nat_list_eq_equiv)))
        (on_equiv (λ e. e.1) (and_equiv (and_equiv (on_equiv (λ d. d.seq) nat_eq_equiv) (on_equiv (λ d. d.meta) nat_list_eq_equiv)) (on_equiv (λ d. d.body) nat_list_eq_equiv))))) };
}

fn retain_others(entries: &mut BTreeMap<DocKey, Doc>, store: u64)
    ensures { entries.new.entries ≡ filter (λ e. not (e.0.store == store)) entries.old.entries }
{
    entries.retain(|key, _| key.store != store);
}

fn count_in(entries: &BTreeMap<DocKey, Doc>, store: u64) -> usize
    ensures { result ≡ count_by (is_of store) entries.now.entries }
{
    entries.iter().filter(|e| e.0.store == store).count()
}

fn numbered_in(entries: &BTreeMap<DocKey, Doc>, store: u64, seq: u64) -> Option<(&DocKey, &Doc)>
    ensures { option_map (λ e. (e.0.now, e.1.now)) result ≡ find (is_numbered store seq) entries.now.entries }
{
    for (key, doc) in entries {
        if key.store == store && doc.seq == seq {
            return Some((key, doc));
        }
    }
    None
}
