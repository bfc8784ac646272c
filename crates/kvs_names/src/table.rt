ghost use Rattle.std.specs.Prelude.{◌≡◌, Some, is_some, is_none, true, ◌^◌, ◌<◌, length, IfNone, IfOk, OnOk, OnErr};
ghost use Rattle.std.specs.Option.{option_map};
ghost use Rattle.std.specs.Result.{result_err};
ghost use Rattle.forest_model.specs.Step.{first_cause};
ghost use Rattle.kvs_names.specs.Answers.{find_causes, create_causes, remove_causes};
ghost use Rattle.kvs_names.specs.Table.{BeginsWithDefault, AreApart, AreBelow, IsTable, row_with_id, row_named, with_new, without, counted};

use crate::form::{is_name, is_worn};
use crate::row::Row;
use crate::rows::{Rows, count_in, from_stores, has_id, id_of, numbers_of, remove_from, to_stores};
use forest_model::{Refusal, Stores};
use std::marker::Model;

/// The stores by rising id with the id of the next one, at most 64. They lie in place and take no memory.
#[derive(Drop)]
pub struct Names {
    rows: Rows,
    next: u64,
}

impl Model for Names {
    ghost use Rattle.std.specs.Prelude.{map};
    ghost use Rattle.kvs_names.specs.Row.{row_of};
    ghost use Rattle.kvs_names.specs.Table.{Table, IsTable};

    ghost Value = { Table };

    ghost view = { λ n. record { rows = map row_of n.rows.items; next = n.next } };

    ghost invariant = { λ n. IsTable (map row_of n.rows.items) n.next };
}

impl Names {
    /// The table of these stores with the next id.
    pub fn of(stores: &Stores, next: u64) -> Names
        requires default { BeginsWithDefault stores.now }
        requires apart { AreApart stores.now }
        requires below { AreBelow next stores.now }
        ensures rows { result.rows ≡ stores.now }
        ensures next { result.next ≡ next }
    {
        Names {
            rows: from_stores(stores),
            next,
        }
    }

    /// The stores.
    pub fn stores(&self) -> Stores
        ensures rows { result ≡ self.now.rows }
        ensures table { IsTable self.now.rows self.now.next }
    {
        to_stores(&self.rows)
    }

    /// How many stores there are.
    pub fn len(&self) -> u64
        ensures { result ≡ length self.now.rows }
    {
        self.rows.len() as u64
    }

    /// The id of the next store.
    pub fn next(&self) -> u64
        ensures { result ≡ self.now.next }
    {
        self.next
    }

    /// The sequence number of the store of an id, and how many documents it has.
    pub fn numbers(&self, id: u64) -> Option<(u64, u64)>
        ensures { result ≡ option_map (λ s. (s.seq, s.documents)) (row_with_id self.now.rows id) }
    {
        numbers_of(self.rows.as_slice(), id)
    }

    /// Gives a store, which is there, a new sequence number and a new count of documents.
    pub fn count(&mut self, id: u64, seq: u64, documents: u64)
        requires { is_some (row_with_id self.old.rows id) ≡ true }
        ensures { self.new ≡ counted self.old id seq documents }
    {
        count_in(&mut self.rows, id, seq, documents);
    }

    /// The id of a name.
    pub fn find(&self, name: &[u8]) -> Result<u64, Refusal>
        ensures refused { result_err result ≡ first_cause (find_causes self.now name.now) }
        ensures found { IfOk result (λ id. option_map (λ s. s.id) (row_named self.now.rows name.now) ≡ Some id) }
    {
        if !is_name(name) {
            return Err(Refusal::NameForm);
        }
        match id_of(self.rows.as_slice(), name) {
            Some(id) => Ok(id),
            None => Err(Refusal::NoStore),
        }
    }

    /// Makes a store of a name that is absent, and answers its id.
    pub fn create(&mut self, name: &[u8]) -> Result<u64, Refusal>
        requires { is_none (row_named self.old.rows name.now) ≡ true }
        ensures refused { result_err result ≡ first_cause (create_causes self.old name.now) }
        ensures id { IfOk result (λ id. id ≡ self.old.next) }
        ensures created { OnOk result (self.new ≡ with_new self.old name.now) }
        ensures kept { OnErr result (self.new ≡ self.old) }
    {
        if let Some(why) = self.why_not_create(name) {
            return Err(why);
        }
        let id = self.next;
        self.rows.push(Row::new(id, name, 0, 0));
        self.next = id + 1;
        Ok(id)
    }

    // Why a store of this name can't be made.
    fn why_not_create(&self, name: &[u8]) -> Option<Refusal>
        ensures why { result ≡ first_cause (create_causes self.now name.now) }
        ensures room { IfNone result (length self.now.rows < 64) }
        ensures more { IfNone result (self.now.next < 2 ^ 62) }
    {
        if !is_name(name) {
            return Some(Refusal::NameForm);
        }
        if is_worn(self.next) {
            return Some(Refusal::Worn);
        }
        if self.rows.len() >= 64 {
            return Some(Refusal::StoreCount);
        }
        None
    }

    /// Removes the store of an id.
    pub fn remove(&mut self, id: u64) -> Result<(), Refusal>
        ensures refused { result_err result ≡ first_cause (remove_causes self.old id) }
        ensures removed { OnOk result (self.new ≡ without self.old id) }
        ensures kept { OnErr result (self.new ≡ self.old) }
    {
        if id == 0 {
            return Err(Refusal::NameForm);
        }
        if !has_id(self.rows.as_slice(), id) {
            return Err(Refusal::NoStore);
        }
        remove_from(&mut self.rows, id);
        Ok(())
    }
}
