ghost use Rattle.std.specs.Prelude.{◌≢◌, ◌<◌, ◌⊎◌, slice_get, option_copied, OnOk, OnErr, ◌≡◌, ◌≤◌, ◌∷◌, true, ℕ, [], unwrap_or, IsOk, IfOk};
ghost use Rattle.host_memory.specs.Held.{held, Becomes as StateBecomes, Stays};
ghost use Rattle.host_memory.specs.Pending.{no_file, appended, slot_written, cut_to, emptied, adopted, made_sure, zeroed_at};
ghost use Rattle.host_memory.specs.Faults.{listed_of, numbered, only_listed};

use crate::faults::Faults;
use crate::state::State;
use crate::{MemoryFresh, MemoryView, Pick, formatted};
use block_host::{Block, Failed, Fresh, Host, Settled};
use ghost_past::Past;
use std::alloc::{AllocError, Global};
use std::sync::Arc;

/// A host whose files lie in memory, and that tells all its content.
#[derive(Drop)]
pub struct MemoryHost {
    alloc: Global,
    state: State,
    past: Past<State>,
    own: Faults,
    greatest: u64,
    views: Option<Arc<Vec<u64>>>,
    fresh: Option<Arc<Vec<u64>>>,
}

impl MemoryHost {
    ghost use Rattle.block_host.specs.Disk.{Image, Elapses};
    ghost use Rattle.block_host.specs.Sealed.{IsSealed, zero_block};
    ghost use Rattle.block_host.specs.declared.block.Block.{Block};
    ghost use Rattle.host_memory.specs.Formatted.{first_slot, first_header};
    ghost use Rattle.host_memory.specs.Pending.{picked};
    ghost use Rattle.host_memory.specs.Memory.{memory_disk, memory_faults, memory_short, memory_file, memory_plan, memory_greatest, no_plan, HasRunShort, Untouched, Unmoved, Became};

    /// A host without files that has said nothing and not failed. No memory is taken before a call needs some.
    pub fn empty(alloc: Global) -> Result<MemoryHost, AllocError>
        ensures made { IsOk result }
        ensures files { IfOk result (λ host. (file : ℕ) → (memory_disk host).files file ≡ []) }
        ensures settled { IfOk result (λ host. (image : Image) → (memory_disk host).may_leave image → image ≡ (memory_disk host).files) }
        ensures moment { IfOk result (λ host. (memory_disk host).moment ≡ 0) }
        ensures said { IfOk result (λ host. (memory_disk host).said ≡ []) }
        ensures faults { IfOk result (λ host. memory_faults host ≡ 0) }
        ensures short { IfOk result (λ host. memory_short host ≡ 0) }
        ensures plan { IfOk result (λ host. memory_plan host ≡ no_plan) }
        ensures greatest { IfOk result (λ host. memory_greatest host ≡ 0) }
    {
        Ok(MemoryHost {
            alloc,
            state: State::new(alloc),
            past: Past::new(),
            own: Faults::new(None),
            greatest: 0,
            views: None,
            fresh: None,
        })
    }

    /// A host with a new store: the meta file, whose slot 0 names revision 1 in generation 1 and whose slot 1 is
    /// zeros, and file 1 with the header of commit 0. Nothing is pending, nothing was said and nothing has failed.
    pub fn formatted(alloc: Global) -> Result<MemoryHost, AllocError>
        ensures meta { IfOk result (λ host. (slot : Block) × IsSealed 0 0 5 first_slot slot × ((memory_disk host).files 0 ≡ slot ∷ zero_block ∷ [])) }
        ensures file { IfOk result (λ host. (header : Block) × IsSealed 1 0 4 first_header header × ((memory_disk host).files 1 ≡ header ∷ [])) }
        ensures others { IfOk result (λ host. (file : ℕ) → 1 < file → (memory_disk host).files file ≡ []) }
        ensures settled { IfOk result (λ host. (image : Image) → (memory_disk host).may_leave image → image ≡ (memory_disk host).files) }
        ensures moment { IfOk result (λ host. (memory_disk host).moment ≡ 0) }
        ensures said { IfOk result (λ host. (memory_disk host).said ≡ []) }
        ensures faults { IfOk result (λ host. (memory_faults host ≡ 0) × (memory_short host ≡ 0)) }
        ensures plan { IfOk result (λ host. memory_plan host ≡ no_plan) }
        ensures greatest { IfOk result (λ host. memory_greatest host ≡ 0) }
    {
        let mut host = MemoryHost::empty(alloc)?;
        host.state.put(alloc, 0, &formatted::slot())?;
        host.state.append(alloc, 1, &[formatted::header()])?;
        Ok(host.reopen(Pick::Written))
    }

    /// The bytes said.
    pub fn said(&self) -> &[u8]
        ensures { result.now ≡ (memory_disk self.now).said }
    {
        self.state.said()
    }

    /// How often the host has failed. It stays at its last value.
    pub fn faults(&self) -> u64
        ensures { result ≡ memory_faults self.now }
    {
        self.own.count()
    }

    /// How many calls failed for want of memory. It stays at its last value.
    pub fn short(&self) -> u64
        ensures { result ≡ memory_short self.now }
    {
        self.own.short()
    }

    /// Makes calls fail by their numbers, counted from 1: the host's, and those of each view and each fresh file that is
    /// made from now on.
    pub fn fail_calls(
        &mut self,
        host: &[u64],
        views: &[u64],
        fresh: &[u64],
    ) -> Result<(), AllocError>
        ensures ok { OnOk result (memory_plan self.new ≡ record (memory_plan self.old) { host = host.now; views = views.now; fresh = fresh.now }) }
        ensures err { OnErr result (memory_plan self.new ≡ memory_plan self.old) }
        ensures untouched { Untouched self.old self.new }
    {
        let host = Arc::new(self.alloc, host.to_vec(self.alloc)?)?;
        let views = Arc::new(self.alloc, views.to_vec(self.alloc)?)?;
        let fresh = Arc::new(self.alloc, fresh.to_vec(self.alloc)?)?;
        self.own.list(Some(host));
        self.views = Some(views);
        self.fresh = Some(fresh);
        Ok(())
    }

    /// Makes each call of the host that can fail do so after this many of them, counted from the host's first.
    pub fn stop_after(&mut self, calls: u64)
        ensures plan { memory_plan self.new ≡ record (memory_plan self.old) { stop = calls } }
        ensures untouched { Untouched self.old self.new }
    {
        self.own.stop_after(calls);
    }

    /// A host with the image that a crash now leaves. Nothing is pending, nothing has failed and no call is to fail; what
    /// was said stays said.
    pub fn reopen(self, pick: Pick) -> MemoryHost
        ensures image { (memory_disk self).may_leave (memory_disk result).files }
        ensures picked { (file : ℕ) → (memory_disk result).files file ≡ picked pick (memory_file self file) }
        ensures settled { (image : Image) → (memory_disk result).may_leave image → image ≡ (memory_disk result).files }
        ensures said { (memory_disk result).said ≡ (memory_disk self).said }
        ensures moment { (memory_disk result).moment ≡ 0 }
        ensures faults { (memory_faults result ≡ 0) × (memory_short result ≡ 0) }
        ensures plan { memory_plan result ≡ no_plan }
        ensures greatest { memory_greatest result ≡ 0 }
    {
        let mut host = self;
        host.state.crash(pick);
        host.past = Past::new();
        host.own = Faults::new(None);
        host.greatest = 0;
        host.views = None;
        host.fresh = None;
        host
    }

    /// A block of a file, where there is one.
    pub fn block(&self, file: u64, at: u64) -> Option<&Block>
        ensures { option_copied result ≡ slice_get ((memory_disk self.now).files file) at }
    {
        self.state.block(file, at)
    }

    /// Zeroes a block of a file, all of which is on the disk then; or raises `short` and changes nothing else.
    pub fn spoil(&mut self, file: u64, at: u64)
        ensures done { ((memory_short self.new ≡ memory_short self.old) × Became file (zeroed_at at (memory_file self.old file)) self.old self.new) ⊎ (HasRunShort self.old self.new × Unmoved self.old self.new) }
        ensures others { (other : ℕ) → other ≢ file → memory_file self.new other ≡ memory_file self.old other }
        ensures said { (memory_disk self.new).said ≡ (memory_disk self.old).said }
        ensures clock { (memory_disk self.old).moment ≤ (memory_disk self.new).moment }
        ensures time { Elapses (λ said. said ≡ (memory_disk self.new).said) (memory_disk self.old) (memory_disk self.new) }
        ensures faults { memory_faults self.new ≡ memory_faults self.old }
        ensures plan { memory_plan self.new ≡ memory_plan self.old }
        ensures greatest { memory_greatest self.new ≡ memory_greatest self.old }
    {
        self.past = self.past.and(&self.state);
        if self.state.spoil(self.alloc, file, at).is_err() {
            self.own.lack();
        }
    }

    // A view on these blocks.
    fn view_of(&self, file: u64) -> Result<MemoryView, AllocError>
        ensures content { IfOk result (λ view. view.blocks ≡ (memory_disk self.now).files file) }
        ensures own { IfOk result (λ view. (numbered view.own ≡ only_listed (memory_plan self.now).views) × (view.own.count ≡ 0) × (view.own.short ≡ 0)) }
    {
        let blocks = self.state.share(self.alloc, file)?;
        Ok(MemoryView::new(blocks, Faults::new(again(&self.views)?)))
    }

    // An empty fresh file.
    fn fresh_of(&self, file: u64) -> Result<MemoryFresh, AllocError>
        ensures content { IfOk result (λ fresh. fresh.blocks.items ≡ []) }
        ensures number { IfOk result (λ fresh. fresh.file ≡ file) }
        ensures own { IfOk result (λ fresh. (numbered fresh.own ≡ only_listed (memory_plan self.now).fresh) × (fresh.own.count ≡ 0) × (fresh.own.short ≡ 0)) }
    {
        let own = Faults::new(again(&self.fresh)?);
        Ok(MemoryFresh::new(file, Vec::new(self.alloc), own))
    }
}

impl Host for MemoryHost {
    type View = MemoryView;

    type Fresh = MemoryFresh;

    ghost use Rattle.std.proofs.Common.{refl};
    ghost use Rattle.std.specs.Prelude.{◌≡◌, ◌+◌, ◌-◌, ◌^◌, ◌<◌, ◌≤◌, ◌⊎◌, [], min, max, not, nat_lt, is_err, if◌then◌else◌, true, ℕ, IsTrue, IsErr, IfOk, IfSome, OnOk, OnErr, unwrap_or, length};
    ghost use Rattle.std.specs.Bool.{OnTrue, OnFalse};
    ghost use Rattle.block_host.specs.Disk.{Says, risen};
    ghost use Rattle.block_host.specs.Calls.{Reads, Appends, Puts, Cuts, Becomes, Removes, Syncs, NextFile, block_at};
    ghost use Rattle.host_memory.specs.Faults.{only_listed};
    ghost use Rattle.host_memory.specs.Memory.{memory_disk, memory_faults, memory_due, memory_short, memory_lawful, memory_file, memory_plan, HasRunShort, Unmoved, Became, Counted, Tried, view_plan, view_short, fresh_plan, fresh_short};

    ghost tells = { true };

    ghost disk = { memory_disk };

    ghost faults = { memory_faults };

    ghost greatest = { λ host. host.greatest };

    ghost lawful = { λ _ host. memory_lawful host };

    ghost views_tell = { λ _. refl };

    ghost fresh_files_tell = { λ _. refl };

    fn size(&mut self, file: u64) -> Result<u64, Failed>
        ensures told { IsTrue true → Reads (memory_disk self.old) (memory_disk self.new) }
        ensures size { IsTrue true → IfOk result (λ size. size ≡ length ((memory_disk self.old).files file)) }
        ensures clock { (memory_disk self.old).moment ≤ (memory_disk self.new).moment }
        ensures counts { memory_faults self.old ≤ memory_faults self.new }
        ensures failed { OnErr result (risen (memory_faults self.old) ≤ memory_faults self.new) }
        ensures untroubled { OnOk result (memory_faults self.new ≡ memory_faults self.old) }
        ensures greatest { self.new.greatest ≡ self.old.greatest }
        ensures due { is_err result ≡ memory_due self.old }
        ensures short { memory_short self.new ≡ memory_short self.old }
        ensures tried { Tried result self.old self.new }
        ensures unmoved { Unmoved self.old self.new }
    {
        self.own.admit()?;
        Ok(self.state.size(file))
    }

    fn read(&mut self, file: u64, at: u64, out: &mut Block) -> Result<(), Failed>
        ensures told { IsTrue true → Reads (memory_disk self.old) (memory_disk self.new) }
        ensures given { IsTrue true → OnOk result (out.new ≡ block_at ((memory_disk self.old).files file) at) }
        ensures clock { (memory_disk self.old).moment ≤ (memory_disk self.new).moment }
        ensures counts { memory_faults self.old ≤ memory_faults self.new }
        ensures failed { OnErr result (risen (memory_faults self.old) ≤ memory_faults self.new) }
        ensures untroubled { OnOk result (memory_faults self.new ≡ memory_faults self.old) }
        ensures greatest { self.new.greatest ≡ self.old.greatest }
        ensures unread { OnErr result (out.new ≡ out.old) }
        ensures due { is_err result ≡ memory_due self.old }
        ensures short { memory_short self.new ≡ memory_short self.old }
        ensures tried { Tried result self.old self.new }
        ensures unmoved { Unmoved self.old self.new }
    {
        self.own.admit()?;
        *out = self.state.at(file, at);
        Ok(())
    }

    fn append(&mut self, file: u64, blocks: &[Block]) -> Result<(), Failed>
        ensures told { IsTrue true → Appends file blocks.now result (memory_disk self.old) (memory_disk self.new) }
        ensures clock { (memory_disk self.old).moment ≤ (memory_disk self.new).moment }
        ensures counts { memory_faults self.old ≤ memory_faults self.new }
        ensures failed { OnErr result (risen (memory_faults self.old) ≤ memory_faults self.new) }
        ensures untroubled { OnOk result (memory_faults self.new ≡ memory_faults self.old) }
        ensures greatest { self.new.greatest ≡ self.old.greatest }
        ensures due { IsTrue (memory_due self.old) → IsErr result }
        ensures cause { OnErr result (IsTrue (memory_due self.old) ⊎ HasRunShort self.old self.new) }
        ensures tried { Tried result self.old self.new }
        ensures file { OnOk result (Became file (appended blocks.now (memory_file self.old file)) self.old self.new) }
        ensures nothing { OnErr result (Unmoved self.old self.new) }
    {
        self.own.admit()?;
        self.past = self.past.and(&self.state);
        let done = self.state.append(self.alloc, file, blocks);
        self.own.outcome(done)
    }

    fn put(&mut self, slot: u64, block: &Block) -> Result<(), Failed>
        requires { slot < 2 }
        ensures told { IsTrue true → Puts slot block.now result (memory_disk self.old) (memory_disk self.new) }
        ensures clock { (memory_disk self.old).moment ≤ (memory_disk self.new).moment }
        ensures counts { memory_faults self.old ≤ memory_faults self.new }
        ensures failed { OnErr result (risen (memory_faults self.old) ≤ memory_faults self.new) }
        ensures untroubled { OnOk result (memory_faults self.new ≡ memory_faults self.old) }
        ensures greatest { self.new.greatest ≡ self.old.greatest }
        ensures due { IsTrue (memory_due self.old) → IsErr result }
        ensures cause { OnErr result (IsTrue (memory_due self.old) ⊎ HasRunShort self.old self.new) }
        ensures tried { Tried result self.old self.new }
        ensures file { OnOk result (Became 0 (slot_written slot block.now (memory_file self.old 0)) self.old self.new) }
        ensures nothing { OnErr result (Unmoved self.old self.new) }
    {
        self.own.admit()?;
        self.past = self.past.and(&self.state);
        let done = self.state.put(self.alloc, slot, block);
        self.own.outcome(done)
    }

    fn cut(&mut self, file: u64, blocks: u64) -> Result<(), Failed>
        ensures told { IsTrue true → Cuts file blocks result (memory_disk self.old) (memory_disk self.new) }
        ensures clock { (memory_disk self.old).moment ≤ (memory_disk self.new).moment }
        ensures counts { memory_faults self.old ≤ memory_faults self.new }
        ensures failed { OnErr result (risen (memory_faults self.old) ≤ memory_faults self.new) }
        ensures untroubled { OnOk result (memory_faults self.new ≡ memory_faults self.old) }
        ensures greatest { self.new.greatest ≡ self.old.greatest }
        ensures due { IsTrue (memory_due self.old) → IsErr result }
        ensures cause { OnErr result (IsTrue (memory_due self.old) ⊎ HasRunShort self.old self.new) }
        ensures tried { Tried result self.old self.new }
        ensures file { OnOk result (Became file (cut_to blocks (memory_file self.old file)) self.old self.new) }
        ensures nothing { OnErr result (Unmoved self.old self.new) }
    {
        self.own.admit()?;
        self.past = self.past.and(&self.state);
        let done = self.state.cut(self.alloc, file, blocks);
        self.own.outcome(done)
    }

    fn sync(&mut self, file: u64) -> Result<(), Failed>
        ensures told { IsTrue true → Syncs file result (memory_disk self.old) (memory_disk self.new) }
        ensures clock { (memory_disk self.old).moment ≤ (memory_disk self.new).moment }
        ensures counts { memory_faults self.old ≤ memory_faults self.new }
        ensures failed { OnErr result (risen (memory_faults self.old) ≤ memory_faults self.new) }
        ensures untroubled { OnOk result (memory_faults self.new ≡ memory_faults self.old) }
        ensures greatest { self.new.greatest ≡ self.old.greatest }
        ensures due { is_err result ≡ memory_due self.old }
        ensures short { memory_short self.new ≡ memory_short self.old }
        ensures tried { Tried result self.old self.new }
        ensures file { OnOk result (Became file (made_sure (memory_file self.old file)) self.old self.new) }
        ensures nothing { OnErr result (Unmoved self.old self.new) }
    {
        self.own.admit()?;
        self.past = self.past.and(&self.state);
        self.state.sync(file);
        Ok(())
    }

    fn next_file(&mut self, after: u64) -> Result<Option<u64>, Failed>
        ensures told { IsTrue true → Reads (memory_disk self.old) (memory_disk self.new) }
        ensures next { IsTrue true → IfOk result (NextFile after (memory_disk self.old).files) }
        ensures above { IfOk result (λ next. IfSome next (λ file. after < file)) }
        ensures clock { (memory_disk self.old).moment ≤ (memory_disk self.new).moment }
        ensures counts { memory_faults self.old ≤ memory_faults self.new }
        ensures failed { OnErr result (risen (memory_faults self.old) ≤ memory_faults self.new) }
        ensures untroubled { OnOk result (memory_faults self.new ≡ memory_faults self.old) }
        ensures greatest { self.new.greatest ≡ self.old.greatest }
        ensures due { is_err result ≡ memory_due self.old }
        ensures short { memory_short self.new ≡ memory_short self.old }
        ensures tried { Tried result self.old self.new }
        ensures unmoved { Unmoved self.old self.new }
    {
        self.own.admit()?;
        Ok(self.state.next(after))
    }

    fn remove(&mut self, file: u64) -> bool
        ensures told { IsTrue true → Removes file result (memory_disk self.old) (memory_disk self.new) }
        ensures clock { (memory_disk self.old).moment ≤ (memory_disk self.new).moment }
        ensures untroubled { memory_faults self.new ≡ memory_faults self.old }
        ensures greatest { self.new.greatest ≡ self.old.greatest }
        ensures due { result ≡ not (memory_due self.old) }
        ensures file { OnTrue result (Became file (emptied (memory_file self.old file)) self.old self.new ⊎ ((memory_file self.old file ≡ no_file) × Unmoved self.old self.new)) }
        ensures nothing { OnFalse result (Unmoved self.old self.new) }
        ensures counted { Counted self.old self.new }
        ensures short { memory_short self.new ≡ memory_short self.old }
    {
        if self.own.admit_quietly() {
            self.past = self.past.and(&self.state);
            self.state.remove(file);
            true
        } else {
            false
        }
    }

    fn view(&mut self, file: u64) -> Result<MemoryView, Failed>
        ensures told { IsTrue true → Reads (memory_disk self.old) (memory_disk self.new) }
        ensures content { IsTrue true → IfOk result (λ view. ⟦<MemoryView as block_host::View>⟧.content view ≡ (memory_disk self.old).files file) }
        ensures made { IfOk result (λ view. ⟦<MemoryView as block_host::View>⟧.faults view ≡ 0) }
        ensures plan { IfOk result (λ view. view_plan view ≡ only_listed (memory_plan self.old).views) }
        ensures short { IfOk result (λ view. view_short view ≡ 0) }
        ensures clock { (memory_disk self.old).moment ≤ (memory_disk self.new).moment }
        ensures counts { memory_faults self.old ≤ memory_faults self.new }
        ensures failed { OnErr result (risen (memory_faults self.old) ≤ memory_faults self.new) }
        ensures untroubled { OnOk result (memory_faults self.new ≡ memory_faults self.old) }
        ensures greatest { self.new.greatest ≡ self.old.greatest }
        ensures due { IsTrue (memory_due self.old) → IsErr result }
        ensures cause { OnErr result (IsTrue (memory_due self.old) ⊎ HasRunShort self.old self.new) }
        ensures tried { Tried result self.old self.new }
        ensures unmoved { Unmoved self.old self.new }
    {
        self.own.admit()?;
        match self.view_of(file) {
            Ok(view) => Ok(view),
            Err(_) => Err(self.own.run_short()),
        }
    }

    fn renew(&mut self, file: u64, view: &mut MemoryView) -> Result<(), Failed>
        ensures told { IsTrue true → Reads (memory_disk self.old) (memory_disk self.new) }
        ensures content { IsTrue true → OnOk result (⟦<MemoryView as block_host::View>⟧.content view.new ≡ (memory_disk self.old).files file) }
        ensures kept { IsTrue true → OnErr result (⟦<MemoryView as block_host::View>⟧.content view.new ≡ ⟦<MemoryView as block_host::View>⟧.content view.old) }
        ensures view_count { ⟦<MemoryView as block_host::View>⟧.faults view.new ≡ ⟦<MemoryView as block_host::View>⟧.faults view.old }
        ensures view_plan { (view_plan view.new ≡ view_plan view.old) × (view_short view.new ≡ view_short view.old) }
        ensures clock { (memory_disk self.old).moment ≤ (memory_disk self.new).moment }
        ensures counts { memory_faults self.old ≤ memory_faults self.new }
        ensures failed { OnErr result (risen (memory_faults self.old) ≤ memory_faults self.new) }
        ensures untroubled { OnOk result (memory_faults self.new ≡ memory_faults self.old) }
        ensures greatest { self.new.greatest ≡ self.old.greatest }
        ensures due { IsTrue (memory_due self.old) → IsErr result }
        ensures cause { OnErr result (IsTrue (memory_due self.old) ⊎ HasRunShort self.old self.new) }
        ensures tried { Tried result self.old self.new }
        ensures unmoved { Unmoved self.old self.new }
    {
        self.own.admit()?;
        match self.state.share(self.alloc, file) {
            Ok(blocks) => {
                view.renew(blocks);
                Ok(())
            }
            Err(_) => Err(self.own.run_short()),
        }
    }

    fn absorb_view(&mut self, view: MemoryView)
        ensures told { IsTrue true → Reads (memory_disk self.old) (memory_disk self.new) }
        ensures clock { (memory_disk self.old).moment ≤ (memory_disk self.new).moment }
        ensures counts { memory_faults self.old ≤ memory_faults self.new }
        ensures failed { 1 ≤ ⟦<MemoryView as block_host::View>⟧.faults view → risen (memory_faults self.old) ≤ memory_faults self.new }
        ensures untroubled { ⟦<MemoryView as block_host::View>⟧.faults view ≡ 0 → memory_faults self.new ≡ memory_faults self.old }
        ensures greatest { self.new.greatest ≡ self.old.greatest }
        ensures short { memory_short self.new ≡ min (memory_short self.old + view_short view) (2 ^ 64 - 1) }
        ensures faults { memory_faults self.new ≡ (if nat_lt 0 (⟦<MemoryView as block_host::View>⟧.faults view) then risen (memory_faults self.old) else memory_faults self.old) }
        ensures unmoved { Unmoved self.old self.new }
        ensures plan { memory_plan self.new ≡ memory_plan self.old }
    {
        self.own.absorb(view.own());
    }

    fn absorb_fresh(&mut self, fresh: MemoryFresh)
        ensures told { IsTrue true → Reads (memory_disk self.old) (memory_disk self.new) }
        ensures clock { (memory_disk self.old).moment ≤ (memory_disk self.new).moment }
        ensures counts { memory_faults self.old ≤ memory_faults self.new }
        ensures failed { 1 ≤ ⟦<MemoryFresh as block_host::Fresh>⟧.faults fresh → risen (memory_faults self.old) ≤ memory_faults self.new }
        ensures untroubled { ⟦<MemoryFresh as block_host::Fresh>⟧.faults fresh ≡ 0 → memory_faults self.new ≡ memory_faults self.old }
        ensures greatest { self.new.greatest ≡ max (self.old.greatest) (⟦<MemoryFresh as block_host::Fresh>⟧.size fresh) }
        ensures short { memory_short self.new ≡ min (memory_short self.old + fresh_short fresh) (2 ^ 64 - 1) }
        ensures faults { memory_faults self.new ≡ (if nat_lt 0 (⟦<MemoryFresh as block_host::Fresh>⟧.faults fresh) then risen (memory_faults self.old) else memory_faults self.old) }
        ensures unmoved { Unmoved self.old self.new }
        ensures plan { memory_plan self.new ≡ memory_plan self.old }
    {
        self.own.absorb(fresh.own());
        self.greatest = self.greatest.max(fresh.size());
    }

    fn fresh(&mut self, file: u64) -> Result<MemoryFresh, Failed>
        ensures told { IsTrue true → Reads (memory_disk self.old) (memory_disk self.new) }
        ensures empty { IsTrue true → IfOk result (λ fresh. ⟦<MemoryFresh as block_host::Fresh>⟧.content fresh ≡ []) }
        ensures no_blocks { IfOk result (λ fresh. ⟦<MemoryFresh as block_host::Fresh>⟧.size fresh ≡ 0) }
        ensures number { IfOk result (λ fresh. ⟦<MemoryFresh as block_host::Fresh>⟧.file fresh ≡ file) }
        ensures made { IfOk result (λ fresh. ⟦<MemoryFresh as block_host::Fresh>⟧.faults fresh ≡ 0) }
        ensures plan { IfOk result (λ fresh. fresh_plan fresh ≡ only_listed (memory_plan self.old).fresh) }
        ensures short { IfOk result (λ fresh. fresh_short fresh ≡ 0) }
        ensures clock { (memory_disk self.old).moment ≤ (memory_disk self.new).moment }
        ensures counts { memory_faults self.old ≤ memory_faults self.new }
        ensures failed { OnErr result (risen (memory_faults self.old) ≤ memory_faults self.new) }
        ensures untroubled { OnOk result (memory_faults self.new ≡ memory_faults self.old) }
        ensures greatest { self.new.greatest ≡ self.old.greatest }
        ensures due { IsTrue (memory_due self.old) → IsErr result }
        ensures cause { OnErr result (IsTrue (memory_due self.old) ⊎ HasRunShort self.old self.new) }
        ensures tried { Tried result self.old self.new }
        ensures unmoved { Unmoved self.old self.new }
    {
        self.own.admit()?;
        match self.fresh_of(file) {
            Ok(fresh) => Ok(fresh),
            Err(_) => Err(self.own.run_short()),
        }
    }

    fn adopt(&mut self, settled: Settled) -> Result<(), Failed>
        ensures told { IsTrue true → Becomes settled.file (unwrap_or settled.blocks []) result (memory_disk self.old) (memory_disk self.new) }
        ensures clock { (memory_disk self.old).moment ≤ (memory_disk self.new).moment }
        ensures counts { memory_faults self.old ≤ memory_faults self.new }
        ensures failed { OnErr result (risen (memory_faults self.old) ≤ memory_faults self.new) }
        ensures untroubled { OnOk result (memory_faults self.new ≡ memory_faults self.old) }
        ensures greatest { self.new.greatest ≡ self.old.greatest }
        ensures due { IsTrue (memory_due self.old) → IsErr result }
        ensures cause { OnErr result (IsTrue (memory_due self.old) ⊎ HasRunShort self.old self.new) }
        ensures tried { Tried result self.old self.new }
        ensures file { OnOk result (Became settled.file (adopted (unwrap_or settled.blocks []) (memory_file self.old settled.file)) self.old self.new) }
        ensures nothing { OnErr result (Unmoved self.old self.new) }
    {
        self.own.admit()?;
        self.past = self.past.and(&self.state);
        let done = take_place(&mut self.state, self.alloc, settled);
        self.own.outcome(done)
    }

    fn say(&mut self, bytes: &[u8]) -> Result<(), Failed>
        ensures told { IsTrue true → Says bytes.now result (memory_disk self.old) (memory_disk self.new) }
        ensures clock { (memory_disk self.old).moment ≤ (memory_disk self.new).moment }
        ensures counts { memory_faults self.old ≤ memory_faults self.new }
        ensures failed { OnErr result (risen (memory_faults self.old) ≤ memory_faults self.new) }
        ensures untroubled { OnOk result (memory_faults self.new ≡ memory_faults self.old) }
        ensures greatest { self.new.greatest ≡ self.old.greatest }
        ensures due { IsTrue (memory_due self.old) → IsErr result }
        ensures cause { OnErr result (IsTrue (memory_due self.old) ⊎ HasRunShort self.old self.new) }
        ensures nothing_to_say { bytes.now ≡ [] → is_err result ≡ memory_due self.old }
        ensures tried { Tried result self.old self.new }
        ensures files { (file : ℕ) → memory_file self.new file ≡ memory_file self.old file }
        ensures nothing { OnErr result (Unmoved self.old self.new) }
    {
        self.own.admit()?;
        self.past = self.past.and(&self.state);
        let done = self.state.say(bytes);
        self.own.outcome(done)
    }

    fn faults(&self) -> u64 {
        self.own.count()
    }
}

// Puts a settled file in the place of the file of its number; it has no blocks where they are not told.
fn take_place(state: &mut State, alloc: Global, settled: Settled) -> Result<(), AllocError>
    ensures ok { OnOk result (StateBecomes settled.file (adopted (unwrap_or settled.blocks []) (held state.old settled.file)) state.old state.new) }
    ensures err { OnErr result (Stays state.old state.new) }
{
    let file = settled.file();
    match settled.blocks() {
        Some(blocks) => state.adopt(alloc, file, &blocks),
        None => state.adopt(alloc, file, &[]),
    }
}

fn is_send<T: Send>(_value: &T) {}

/// The host can be sent to another thread.
pub fn host_is_send(host: &MemoryHost) {
    is_send(host);
}

/// A view of the host can be sent to another thread.
pub fn view_is_send(view: &MemoryView) {
    is_send(view);
}

/// A fresh file of the host can be sent to another thread.
pub fn fresh_is_send(fresh: &MemoryFresh) {
    is_send(fresh);
}

// The same list once more.
fn again(list: &Option<Arc<Vec<u64>>>) -> Result<Option<Arc<Vec<u64>>>, AllocError>
    ensures { IfOk result (λ other. listed_of other ≡ listed_of list.now) }
{
    match list {
        Some(numbers) => Ok(Some(Arc::try_clone(numbers)?)),
        None => Ok(None),
    }
}
