ghost use Rattle.std.specs.Prelude.{◌≡◌, ◌+◌, ◌-◌, ◌^◌, ◌≤◌, min, nat_lt, not, if◌then◌else◌, OnOk, OnErr};
ghost use Rattle.std.specs.Result.{is_err};
ghost use Rattle.std.specs.List.{list_any};
ghost use Rattle.std.specs.Prelude.{◌==◌};
ghost use Rattle.block_host.specs.Disk.{risen};

use block_host::Failed;
use std::alloc::AllocError;
use std::sync::Arc;

/// Which calls of an object are to fail, and how many failed. Calls are numbered from 1.
#[derive(Drop)]
pub(crate) struct Faults {
    listed: Option<Arc<Vec<u64>>>,
    stop: u64,
    calls: u64,
    count: u64,
    short: u64,
}

impl Faults {
    ghost use Rattle.host_memory.specs.Faults.{is_due, no_calls, listed_of};

    /// No call has been made; those of these numbers are to fail.
    pub(crate) fn new(listed: Option<Arc<Vec<u64>>>) -> Faults
        ensures { result ≡ no_calls listed }
    {
        Faults {
            listed,
            stop: u64::MAX,
            calls: 0,
            count: 0,
            short: 0,
        }
    }

    // Whether a call's number is listed.
    fn lists(&self, number: u64) -> bool
        ensures { result ≡ list_any (λ other. other == number) (listed_of self.now.listed) }
    {
        match &self.listed {
            Some(numbers) => numbers.contains(&number),
            None => false,
        }
    }

    /// From now on the calls of these numbers are to fail.
    pub(crate) fn list(&mut self, listed: Option<Arc<Vec<u64>>>)
        ensures { self.new ≡ record self.old { listed = listed } }
    {
        self.listed = listed;
    }

    /// Each call after this many is to fail.
    pub(crate) fn stop_after(&mut self, calls: u64)
        ensures { self.new ≡ record self.old { stop = calls } }
    {
        self.stop = calls;
    }

    /// Counts a call, which fails where it is to fail.
    pub(crate) fn admit(&mut self) -> Result<(), Failed>
        ensures due { is_err result ≡ is_due self.old }
        ensures counted { self.new.calls ≡ risen self.old.calls }
        ensures count { self.new.count ≡ (if is_due self.old then risen self.old.count else self.old.count) }
        ensures counts { self.old.count ≤ self.new.count }
        ensures same { (self.new.listed ≡ self.old.listed) × (self.new.stop ≡ self.old.stop) × (self.new.short ≡ self.old.short) }
    {
        self.calls = self.calls.saturating_add(1);
        if self.lists(self.calls) || self.calls > self.stop {
            self.count = self.count.saturating_add(1);
            return Err(Failed);
        }
        Ok(())
    }

    /// Counts a call whose failure is no fault, and answers whether it may be done.
    pub(crate) fn admit_quietly(&mut self) -> bool
        ensures due { result ≡ not (is_due self.old) }
        ensures same { self.new ≡ record self.old { calls = risen self.old.calls } }
    {
        self.calls = self.calls.saturating_add(1);
        !self.lists(self.calls) && self.calls <= self.stop
    }

    /// How many calls have failed.
    pub(crate) fn count(&self) -> u64
        ensures { result ≡ self.now.count }
    {
        self.count
    }

    /// How many calls have failed for want of memory.
    pub(crate) fn short(&self) -> u64
        ensures { result ≡ self.now.short }
    {
        self.short
    }

    /// Counts a failure for want of memory.
    pub(crate) fn run_short(&mut self) -> Failed
        ensures rises { self.new ≡ record self.old { count = risen self.old.count; short = risen self.old.short } }
        ensures counts { self.old.count ≤ self.new.count }
    {
        self.short = self.short.saturating_add(1);
        self.count = self.count.saturating_add(1);
        Failed
    }

    /// Counts a failure for want of memory, where this is one.
    pub(crate) fn outcome(&mut self, done: Result<(), AllocError>) -> Result<(), Failed>
        ensures same { is_err result ≡ is_err done }
        ensures ok { OnOk result (self.new ≡ self.old) }
        ensures err { OnErr result (self.new ≡ record self.old { count = risen self.old.count; short = risen self.old.short }) }
        ensures counts { self.old.count ≤ self.new.count }
    {
        match done {
            Ok(()) => Ok(()),
            Err(_) => Err(self.run_short()),
        }
    }

    /// Counts a want of memory that is no fault.
    pub(crate) fn lack(&mut self)
        ensures { self.new ≡ record self.old { short = risen self.old.short } }
    {
        self.short = self.short.saturating_add(1);
    }

    /// Takes over the counts of an object that is given back.
    pub(crate) fn absorb(&mut self, other: &Faults)
        ensures counts { self.old.count ≤ self.new.count }
        ensures absorbs { self.new ≡ record self.old { count = (if nat_lt 0 other.now.count then risen self.old.count else self.old.count); short = min (self.old.short + other.now.short) (2 ^ 64 - 1) } }
    {
        self.short = self.short.saturating_add(other.short);
        if other.count > 0 {
            self.count = self.count.saturating_add(1);
        }
    }
}
