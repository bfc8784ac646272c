//! The rule, and what each kind of step tells.
use crate::berth::{Berth, Knows};
use atomic_table::{Join, Play, Split, TableRule};
use forest_model::Held;
use std::marker::PhantomData;
use std::snapshot::Snapshot;

/// What holds between any two steps.
pub(crate) struct Rule<T> {
    of: PhantomData<T>,
}

impl<T: Held> TableRule<Berth<T>, Knows<T>, Snapshot<T>> for Rule<T> {
    ghost use Rattle.turnstile.specs.Rule.{Kept, first_knows};

    ghost holds = { λ key. Kept T.shows T.is_sound T.covers key.value };

    ghost first = { λ key. first_knows T.shows T.is_sound T.covers key.value };
}

/// A load.
pub(crate) struct Look<T> {
    of: PhantomData<T>,
}

impl<T: Held> Play<Berth<T>, Knows<T>> for Look<T> {
    ghost use Rattle.turnstile.specs.Rule.{Looks};

    ghost then = { Looks T.shows T.is_sound T.covers };
}

/// A compare and exchange that marks the value as taken, or fails.
pub(crate) struct Enter<T> {
    of: PhantomData<T>,
}

impl<T: Held> Play<Berth<T>, Knows<T>> for Enter<T> {
    ghost use Rattle.turnstile.specs.Rule.{EntersOrLooks};

    ghost then = { EntersOrLooks T.shows T.is_sound T.covers };
}

/// One of the three ways to leave.
pub(crate) struct Leave<T> {
    of: PhantomData<T>,
}

impl<T: Held> Play<Berth<T>, Knows<T>> for Leave<T> {
    ghost use Rattle.turnstile.specs.Rule.{Leaves};

    ghost then = { Leaves T.shows T.is_sound T.covers };
}

/// How a pass is cut in two.
pub(crate) struct OneShare;

impl<T> Split<Knows<T>> for OneShare {
    ghost use Rattle.turnstile.specs.Rule.{gives_share, has_share};

    ghost left = { gives_share };

    ghost right = { has_share };
}

/// How two passes are made one.
pub(crate) struct Both;

impl<T> Join<Knows<T>> for Both {
    ghost use Rattle.turnstile.specs.Rule.{takes_in, nothing_left};

    ghost both = { takes_in };

    ghost spent = { nothing_left };
}
