ghost use Rattle.std.specs.Prelude.{◌≡◌, ◌≤◌, length};
ghost use Rattle.kvs_names.specs.Row.{row_of};
ghost use Rattle.kvs_names.specs.Table.{with_numbers};

use arrayvec::ArrayVec;

/// A store of the table, in place.
#[derive(Clone, Debug, Default, Drop)]
pub(crate) struct Row {
    pub(crate) id: u64,
    pub(crate) name: ArrayVec<u8, 31>,
    pub(crate) seq: u64,
    pub(crate) documents: u64,
}

impl Row {
    pub(crate) fn new(id: u64, name: &[u8], seq: u64, documents: u64) -> Row
        requires { length name.now ≤ 31 }
        ensures { row_of result ≡ record { id = id; name = name.now; seq = seq; documents = documents } }
    {
        let mut kept = ArrayVec::new();
        let _fits = kept.try_extend_from_slice(name);
        Row {
            id,
            name: kept,
            seq,
            documents,
        }
    }

    // Gives the store of this id other numbers.
    pub(crate) fn count(&mut self, id: u64, seq: u64, documents: u64)
        ensures { row_of self.new ≡ with_numbers id seq documents (row_of self.old) }
    {
        if self.id == id {
            self.seq = seq;
            self.documents = documents;
        }
    }
}
