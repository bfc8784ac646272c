ghost use Rattle.std.specs.Prelude.{◌≡◌, ◌+◌, ◌<◌, ◌≤◌, ◌^◌, List, ℕ, [], ◌++◌, length, slice_get, IfSome, Some};
ghost use Rattle.forest_model.specs.Stored.{StoreRow};
ghost use Rattle.node_page.specs.Pages.{IsPage};
ghost use Rattle.header_block.specs.Layout.{NamesBlocks, header_bytes, long, optional, store_bytes};

use forest_model::{Header, Stores};
use node_page::Page;

/// The payload of a header (`docs/FORMAT.md`, headers). The blocks that it names are at most 2^41.
pub fn payload_of(header: &Header) -> Page
    requires { NamesBlocks header.now }
    ensures { IsPage (header_bytes header.now) result }
{
    let mut writer = Writer::new();
    writer.long(header.commit);
    writer.long(header.next_commit);
    writer.optional(header.previous);
    writer.optional(header.key);
    writer.optional(header.seq);
    writer.long(header.wal_from);
    writer.long(header.live);
    writer.long(header.next_store);
    writer.long(header.stores.len());
    for n in 0..header.stores.len() {
        writer.store_at(&header.stores, n);
    }
    writer.page
}

// A page of which the front is written.
#[derive(Drop)]
struct Writer {
    page: Page,
}

impl Writer {
    fn new() -> Writer
        ensures { IsPage [] result.page }
    {
        Writer {
            page: Page::of(&[]),
        }
    }

    fn bytes(&mut self, part: &[u8])
        requires { self.old.page.len + length part.now ≤ 4064 }
        ensures len { self.new.page.len ≡ self.old.page.len + length part.now }
        ensures page { (front : List ℕ) → IsPage front self.old.page → IsPage (front ++ part.now) self.new.page }
    {
        let from = usize::from(self.page.len);
        self.page.bytes[from..from + part.len()].copy_from_slice(part);
        self.page.len += part.len() as u16;
    }

    #[tactic(auto, unfolding(crate::specs::Layout::long))]
    fn long(&mut self, number: u64)
        requires { self.old.page.len + 8 ≤ 4064 }
        ensures len { self.new.page.len ≡ self.old.page.len + 8 }
        ensures page { (front : List ℕ) → IsPage front self.old.page → IsPage (front ++ long number) self.new.page }
    {
        self.bytes(&number.to_be_bytes());
    }

    // A block of at most 2^41, or 0 for none.
    fn optional(&mut self, block: Option<u64>)
        requires room { self.old.page.len + 8 ≤ 4064 }
        requires fits { IfSome block (λ b. b ≤ 2 ^ 41) }
        ensures len { self.new.page.len ≡ self.old.page.len + 8 }
        ensures page { (front : List ℕ) → IsPage front self.old.page → IsPage (front ++ optional block) self.new.page }
    {
        self.long(match block {
            None => 0,
            Some(block) => block + 1,
        });
    }

    // The store of this place.
    fn store_at(&mut self, stores: &Stores, n: u64)
        requires room { self.old.page.len + 56 ≤ 4064 }
        requires within { n < length stores.now }
        ensures len { self.new.page.len ≡ self.old.page.len + 56 }
        ensures page { (s : StoreRow) (front : List ℕ) → slice_get stores.now n ≡ Some s → IsPage front self.old.page → IsPage (front ++ store_bytes s) self.new.page }
    {
        if let Some((id, name, seq, documents)) = stores.at(n) {
            self.long(id);
            self.bytes(&[name.len() as u8]);
            self.bytes(name);
            self.bytes(&[0; 31][name.len()..]);
            self.long(seq);
            self.long(documents);
        }
    }
}
