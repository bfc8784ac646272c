ghost use Rattle.std.specs.Prelude.{◌≡◌, ◌≢◌, ◌⊎◌, ◌+◌, ◌≤◌, ◌/◌, ℕ, List, IsTrue, Some, Ok, Err, OnOk, IfOk, IfErr};
ghost use Rattle.forest_model.specs.declared.refusal.Refusal.TheVariants as Refusal;
ghost use Rattle.forest_model.specs.declared.stored.Rec.{Rec};
ghost use Rattle.block_host.specs.declared.block.Block.{Block};
ghost use Rattle.block_host.specs.Calls.{block_at};
ghost use Rattle.block_host.specs.Disk.{risen};
ghost use Rattle.doc_stream.specs.Causes.{BreaksRecord, longest_run};
ghost use Rattle.doc_stream.specs.Memory.{HasHeadAt};
ghost use Rattle.doc_stream.specs.Reading.{RecordAt};
ghost use Rattle.doc_stream.specs.Shown.{Unsealed, open_file};
ghost use Rattle.btree_cow.specs.Shelf.{stored_in};
ghost use Rattle.file_pages.specs.Files.{told, NoPage, IsPageIn};

use block_host::{Block, View, found_where_sealed, unseal};
use btree_cow::blocks_mean_what_is_sealed;
use doc_stream::{Tail, read};
use forest_model::{Rec, Refusal};
use node_page::Page;
use std::alloc::Global;

// The page of a block, if it is sealed for the file and its number as one of this kind.
pub(crate) fn page_in(block: &Block, file: u64, at: u64, kind: u8) -> Option<Page>
    ensures { (content : List Block) → block.now ≡ block_at content at → IsPageIn file content at kind result }
{
    blocks_mean_what_is_sealed();
    found_where_sealed();
    let _zeros = Block::zeros();
    let (there, payload) = unseal(block, file, at)?;
    if there == kind {
        Some(Page::of(payload))
    } else {
        None
    }
}

// The page of a view's block, if it is one of this kind.
pub(crate) fn page_of_view<V: View>(
    view: &mut V,
    file: u64,
    at: u64,
    kind: u8,
    out: &mut Page,
) -> Result<(), Refusal>
    ensures given { IsTrue V.tells → OnOk result (stored_in file (told V.tells (V.content view.old)) at ≡ Some (record { kind = kind; page = out.new })) }
    ensures reason { IfErr result (λ why. ((why ≡ Refusal.DiskFault) × (risen (V.faults view.old) ≤ V.faults view.new)) ⊎ ((why ≡ Refusal.Damaged file at) × (IsTrue V.tells → NoPage file (told V.tells (V.content view.old)) at kind))) }
    ensures kept { told V.tells (V.content view.new) ≡ told V.tells (V.content view.old) }
    ensures counts { V.faults view.old ≤ V.faults view.new }
    ensures untroubled { result ≢ Err Refusal.DiskFault → V.faults view.new ≡ V.faults view.old }
{
    let mut block = Block::zeros();
    let Ok(()) = view.read(at, &mut block) else {
        return Err(Refusal::DiskFault);
    };
    match page_in(&block, file, at, kind) {
        Some(page) => {
            *out = page;
            Ok(())
        }
        None => Err(Refusal::Damaged { file, block: at }),
    }
}

// The record at an address of what a view shows.
pub(crate) fn record_of_view<V: View>(
    alloc: Global,
    view: &mut V,
    tail: &Tail,
    file: u64,
    address: u64,
) -> Result<Rec, Refusal>
    ensures given { IsTrue V.tells → IfOk result (RecordAt file (told V.tells (V.content view.old)) tail.now address) }
    ensures exact { IsTrue V.tells → (rec : Rec) → RecordAt file (told V.tells (V.content view.old)) tail.now address rec → (result ≡ Ok rec) ⊎ (result ≡ Err Refusal.NoMemory) ⊎ (result ≡ Err Refusal.DiskFault) }
    ensures first { IsTrue V.tells → Unsealed (open_file file tail.now) (told V.tells (V.content view.old)) (address / 4096) → (result ≡ Err (Refusal.Damaged file (address / 4096))) ⊎ (result ≡ Err Refusal.DiskFault) }
    ensures memory { IsTrue V.tells → result ≡ Err Refusal.NoMemory → HasHeadAt (open_file file tail.now) (told V.tells (V.content view.old)) address }
    ensures reason { IfErr result (λ why. (why ≡ Refusal.NoMemory) ⊎ ((why ≡ Refusal.DiskFault) × (risen (V.faults view.old) ≤ V.faults view.new)) ⊎ ((block : ℕ) × (why ≡ Refusal.Damaged file block) × (address / 4096 ≤ block) × (block ≤ address / 4096 + longest_run) × (IsTrue V.tells → BreaksRecord file (told V.tells (V.content view.old)) tail.now address block))) }
    ensures kept { told V.tells (V.content view.new) ≡ told V.tells (V.content view.old) }
    ensures counts { V.faults view.old ≤ V.faults view.new }
    ensures untroubled { result ≢ Err Refusal.DiskFault → V.faults view.new ≡ V.faults view.old }
{
    read(alloc, view, tail, file, address)
}
