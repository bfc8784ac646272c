//! A section: a pass enters, has the value alone, and leaves.
ghost use Rattle.std.specs.Prelude.{◌≡◌, ◌%◌, Some, None, MatchBool};
ghost use Rattle.forest_model.specs.Notes.{place_of};
ghost use Rattle.forest_model.specs.History.{Enters, Updates, UpdatesSoundly, Keeps, KeepsSoundly, Stops, StopsSoundly};
ghost use Rattle.forest_model.specs.declared.held.Deed.TheVariants.{Changed, Same, Stopped};
ghost use Rattle.turnstile.specs.Noting.{section, noted};
ghost use Rattle.turnstile.specs.Passes.{first_of, IsPassOf, notes_of, taken_of, OfTaken, HasSlot, HasFilled, IsOutside, IsInside};
ghost use Rattle.turnstile.specs.Rule.{Entered};

use crate::pass::Pass;
use crate::plays::{Enter, Leave};
use crate::slot::{berth_of, discard, empty_berth, value_of};
use crate::turnstile::Turnstile;
use crossbeam_utils::Backoff;
use forest_model::{Call, Deed, Held, Reply};
use std::sync::Wait;

impl<T: Held> Turnstile<T> {
    /// Waits until nobody is inside, and takes the value.
    pub fn enter<R: Wait>(&self, rt: &R, pass: &mut Pass<T>) -> T
        requires own { IsPassOf self.now pass.old }
        requires outside { IsOutside pass.old }
        ensures own { IsPassOf self.now pass.new }
        ensures inside { IsInside pass.new result }
        ensures notes { notes_of pass.new ≡ notes_of pass.old }
        ensures told { Enters T.shows T.is_sound T.covers (first_of self.now) result (notes_of pass.old) }
    {
        self.mark_busy(rt, pass);
        self.take_out(pass)
    }

    // Looks until the word is even, and makes it odd.
    fn mark_busy<R: Wait>(&self, rt: &R, pass: &mut Pass<T>)
        requires own { IsPassOf self.now pass.old }
        requires outside { IsOutside pass.old }
        ensures own { pass.new.seat.table_id ≡ pass.old.seat.table_id }
        ensures entered { Entered T.shows T.is_sound T.covers pass.old.seat.me pass.new.seat.me }
    {
        let backoff = Backoff::new();
        for _ in rt.forever() {
            let word = self.table.shared.peek(0);
            if word % 2 == 0 && self.try_mark(pass, word) {
                return;
            }
            backoff.snooze();
        }
        unreachable!()
    }

    // Whether the word was this one, and the value is taken.
    fn try_mark(&self, pass: &mut Pass<T>, word: u64) -> bool
        requires own { IsPassOf self.now pass.old }
        requires outside { IsOutside pass.old }
        requires even { word % 2 ≡ 0 }
        ensures own { pass.new.seat.table_id ≡ pass.old.seat.table_id }
        ensures marked { MatchBool result (Entered T.shows T.is_sound T.covers pass.old.seat.me pass.new.seat.me) (pass.new.seat.me ≡ pass.old.seat.me) }
    {
        let found = self
            .table
            .shared
            .compare_exchange::<Enter<T>>(&mut pass.seat, 0, word, word + 1);
        found == word
    }

    // The slot's exchange after entering.
    fn take_out(&self, pass: &mut Pass<T>) -> T
        requires own { IsPassOf self.now pass.old }
        requires full { OfTaken (taken_of pass.old) (λ taken. HasSlot pass.old (Some taken)) }
        ensures own { pass.new.seat.table_id ≡ pass.old.seat.table_id }
        ensures inside { IsInside pass.new result }
        ensures same { pass.new.seat.me.0 ≡ pass.old.seat.me.0 }
    {
        value_of(self.table.shared.exchange(&mut pass.seat, 0, empty_berth()))
    }

    // The slot's exchange before leaving.
    fn put_in(&self, pass: &mut Pass<T>, value: T, deed: &Deed)
        requires own { IsPassOf self.now pass.old }
        requires inside { HasSlot pass.old None }
        ensures own { pass.new.seat.table_id ≡ pass.old.seat.table_id }
        ensures filled { HasFilled pass.new value deed.now }
        ensures same { pass.new.seat.me.0 ≡ pass.old.seat.me.0 }
    {
        let empty = self
            .table
            .shared
            .exchange(&mut pass.seat, 0, berth_of(value, deed));
        discard(empty);
    }

    /// Puts the value back after an update, and answers its place.
    pub fn leave_changed(&self, pass: &mut Pass<T>, value: T, call: Call, reply: Reply) -> u64
        requires own { IsPassOf self.now pass.old }
        requires inside { HasSlot pass.old None }
        requires updates { OfTaken (taken_of pass.old) (λ taken. Updates T.shows T.is_sound T.covers taken value) }
        requires sound { T.is_sound (first_of self.now) → OfTaken (taken_of pass.old) (λ taken. UpdatesSoundly T.shows T.is_sound T.covers taken value call reply) }
        ensures place { result ≡ place_of (T.shows value) }
        ensures own { IsPassOf self.now pass.new }
        ensures outside { IsOutside pass.new }
        ensures noted { OfTaken (taken_of pass.old) (λ taken. notes_of pass.new ≡ noted (notes_of pass.old) (section (T.shows taken) (T.shows value) (Changed call reply))) }
    {
        let deed = Deed::Changed { call, reply };
        self.put_in(pass, value, &deed);
        let found = self
            .table
            .shared
            .fetch_add::<Leave<T>>(&mut pass.seat, 0, 1);
        found / 2 + 1
    }

    /// Puts the value back with its state as it was, and answers its place.
    pub fn leave_same(&self, pass: &mut Pass<T>, value: T) -> u64
        requires own { IsPassOf self.now pass.old }
        requires inside { HasSlot pass.old None }
        requires keeps { OfTaken (taken_of pass.old) (λ taken. Keeps T.shows T.is_sound T.covers taken value) }
        requires sound { T.is_sound (first_of self.now) → OfTaken (taken_of pass.old) (λ taken. KeepsSoundly T.shows T.is_sound T.covers taken value) }
        ensures place { result ≡ place_of (T.shows value) }
        ensures own { IsPassOf self.now pass.new }
        ensures outside { IsOutside pass.new }
        ensures noted { OfTaken (taken_of pass.old) (λ taken. notes_of pass.new ≡ noted (notes_of pass.old) (section (T.shows taken) (T.shows value) Same)) }
    {
        self.put_in(pass, value, &Deed::Same);
        let found = self
            .table
            .shared
            .fetch_sub::<Leave<T>>(&mut pass.seat, 0, 1);
        found / 2
    }

    /// Puts the value back after a call that stopped it, and answers its place.
    pub fn leave_stopped(&self, pass: &mut Pass<T>, value: T, call: Call) -> u64
        requires own { IsPassOf self.now pass.old }
        requires inside { HasSlot pass.old None }
        requires stops { OfTaken (taken_of pass.old) (λ taken. Stops T.shows T.is_sound T.covers taken value) }
        requires sound { T.is_sound (first_of self.now) → OfTaken (taken_of pass.old) (λ taken. StopsSoundly T.shows T.is_sound T.covers taken value call) }
        ensures place { result ≡ place_of (T.shows value) }
        ensures own { IsPassOf self.now pass.new }
        ensures outside { IsOutside pass.new }
        ensures noted { OfTaken (taken_of pass.old) (λ taken. notes_of pass.new ≡ noted (notes_of pass.old) (section (T.shows taken) (T.shows value) (Stopped call))) }
    {
        let deed = Deed::Stopped { call };
        self.put_in(pass, value, &deed);
        let found = self
            .table
            .shared
            .fetch_sub::<Leave<T>>(&mut pass.seat, 0, 1);
        found / 2
    }
}
