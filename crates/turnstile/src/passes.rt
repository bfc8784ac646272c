//! How a turnstile and its passes are made, and how they end.
ghost use Rattle.std.specs.Prelude.{◌≡◌, ◌<◌, OnOk, IfOk, IfErr, IsOk};
ghost use Rattle.forest_model.specs.History.{Starts, Closes, all_shares};
ghost use Rattle.forest_model.specs.declared.refusal.Refusal.TheVariants.{NoMemory};
ghost use Rattle.turnstile.specs.Noting.{first_notes, without_share, told_all, joined};
ghost use Rattle.turnstile.specs.Passes.{first_of, IsPassOf, notes_of, shares_of, IsOutside};

use crate::pass::Pass;
use crate::plays::{Both, Look, OneShare};
use crate::slot::{berth_of, only_value, value_of};
use crate::turnstile::Turnstile;
use atomic_table::{Refused, Table};
use forest_model::{Deed, Held, Refusal};
use std::alloc::{AllocFailed, Global};
use std::snapshot::Snapshot;

/// The shares of all passes together.
pub const SHARES: u64 = 65_536;

impl<T: Held> Turnstile<T> {
    /// The value at place 0, with the one pass, which has all shares. The one refusal is for memory, and gives the value back.
    pub fn new(alloc: Global, value: T) -> Result<(Turnstile<T>, Pass<T>), (Refusal, T)>
        requires { Starts T.shows T.is_sound T.covers value }
        ensures first { IfOk result (λ r. first_of r.0 ≡ value) }
        ensures pass { IfOk result (λ r. IsPassOf r.0 r.1 × IsOutside r.1) }
        ensures notes { IfOk result (λ r. notes_of r.1 ≡ first_notes (T.shows value)) }
        ensures memory { IfErr result (λ r. r.0 ≡ NoMemory) }
        ensures value_returned { IfErr result (λ r. r.1 ≡ value) }
    {
        let about = Snapshot::of(&value);
        let mut berths = Vec::new(alloc);
        if let Err(failed) = berths.push(berth_of(value, &Deed::Same)) {
            let AllocFailed { value: berth } = failed;
            berths.destroy_empty();
            return Err((Refusal::NoMemory, value_of(berth)));
        }
        match Table::new(alloc, &[0], berths, &about) {
            Ok((table, seat)) => Ok((
                Turnstile { table },
                Pass {
                    shares: SHARES,
                    seat,
                },
            )),
            Err(Refused { slots }) => Err((Refusal::NoMemory, only_value(slots))),
        }
    }

    /// A further pass with one of this one's shares. It knows what this one knows, and has made nothing. It takes no memory, and is never refused.
    pub fn split(&self, pass: &mut Pass<T>) -> Result<Pass<T>, Refusal>
        requires own { IsPassOf self.now pass.old }
        requires outside { IsOutside pass.old }
        requires shares { 1 < shares_of pass.old }
        ensures never_refused { IsOk result }
        ensures own { IsPassOf self.now pass.new × IfOk result (IsPassOf self.now) }
        ensures outside { IsOutside pass.new × IfOk result IsOutside }
        ensures kept { notes_of pass.new ≡ without_share (notes_of pass.old) }
        ensures given { IfOk result (λ r. notes_of r ≡ told_all (notes_of pass.old)) }
    {
        let seat = self.table.shared.split_seat::<OneShare>(&mut pass.seat);
        pass.shares -= 1;
        Ok(Pass { shares: 1, seat })
    }

    /// Takes in the other's shares, and all that it knew and made.
    pub fn join(&self, pass: &mut Pass<T>, other: Pass<T>)
        requires own { IsPassOf self.now pass.old × IsPassOf self.now other }
        requires outside { IsOutside pass.old × IsOutside other }
        ensures own { IsPassOf self.now pass.new }
        ensures outside { IsOutside pass.new }
        ensures notes { notes_of pass.new ≡ joined (notes_of pass.old) (notes_of other) }
    {
        let Pass { shares, seat } = other;
        self.table.shared.join_seat::<Both>(&mut pass.seat, seat);
        self.table.shared.load::<Look<T>>(&mut pass.seat, 0);
        pass.shares += shares;
    }

    /// The value, once every other pass was joined.
    pub fn close(self, pass: Pass<T>) -> T
        requires own { IsPassOf self pass }
        requires outside { IsOutside pass }
        requires all { shares_of pass ≡ all_shares }
        ensures told { Closes T.shows T.is_sound T.covers (first_of self) result (notes_of pass) }
    {
        let Turnstile { table } = self;
        let Pass { shares: _, seat } = pass;
        let mut closed = table.close_with(seat);
        let berth = closed.take(0);
        closed.free();
        value_of(berth)
    }
}

impl<T> Pass<T> {
    /// Its shares: 65,536 of the first pass, and of all passes together.
    pub fn shares(&self) -> u64
        ensures { result ≡ shares_of self.now }
    {
        self.shares
    }
}
