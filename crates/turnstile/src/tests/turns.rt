//! A sound value meets what a turnstile asks: its updates are steps of the sequential store, and it covers what is durable.
ghost use Rattle.std.specs.Prelude.{◌≡◌};
ghost use Rattle.turnstile.specs.Passes.{IsPassOf, IsOutside, IsInside, shares_of};
ghost use Rattle.forest_model.specs.History.{all_shares};

use super::turner::Turner;
use crate::{Pass, Turnstile};
use forest_model::{Call, Reply, StoreRef};
use std::alloc::Global;
use std::sync::Wait;
use std::test::Fail;

const DEFAULT: StoreRef = StoreRef {
    store: 0,
    read_only: false,
};

// The first step: the running compaction is switched.
fn switch(turnstile: &Turnstile<Turner>, pass: &mut Pass<Turner>, value: Turner) -> u64
    requires own { IsPassOf turnstile.now pass.old }
    requires inside { IsInside pass.old value }
    requires steps { value.steps ≡ 0 }
    ensures own { IsPassOf turnstile.now pass.new }
    ensures outside { IsOutside pass.new }
    ensures shares { shares_of pass.new ≡ shares_of pass.old }
    ensures place { result ≡ 1 }
{
    let next = Turner {
        steps: value.steps + 1,
    };
    let call = Call::Switch {
        at: DEFAULT,
        ticket: 1,
        left: 0,
    };
    turnstile.leave_changed(pass, next, call, Reply::Switched { number: 0 })
}

// The second step: a second compaction is begun.
fn begin(turnstile: &Turnstile<Turner>, pass: &mut Pass<Turner>, value: Turner) -> u64
    requires own { IsPassOf turnstile.now pass.old }
    requires inside { IsInside pass.old value }
    requires steps { value.steps ≡ 1 }
    ensures own { IsPassOf turnstile.now pass.new }
    ensures outside { IsOutside pass.new }
    ensures shares { shares_of pass.new ≡ shares_of pass.old }
    ensures place { result ≡ 2 }
{
    let next = Turner {
        steps: value.steps + 1,
    };
    let reply = Reply::Begun { ticket: 2, base: 0 };
    turnstile.leave_changed(pass, next, Call::Begin { at: DEFAULT }, reply)
}

// The third step: the second switch stops the value.
fn stop(turnstile: &Turnstile<Turner>, pass: &mut Pass<Turner>, value: Turner) -> u64
    requires own { IsPassOf turnstile.now pass.old }
    requires inside { IsInside pass.old value }
    requires steps { value.steps ≡ 2 }
    ensures own { IsPassOf turnstile.now pass.new }
    ensures outside { IsOutside pass.new }
    ensures shares { shares_of pass.new ≡ shares_of pass.old }
    ensures place { result ≡ 2 }
{
    let next = Turner {
        steps: value.steps + 1,
    };
    let call = Call::Switch {
        at: DEFAULT,
        ticket: 2,
        left: 0,
    };
    turnstile.leave_stopped(pass, next, call)
}

fn leave_as_it_was(turnstile: &Turnstile<Turner>, pass: &mut Pass<Turner>, value: Turner) -> u64
    requires own { IsPassOf turnstile.now pass.old }
    requires inside { IsInside pass.old value }
    ensures own { IsPassOf turnstile.now pass.new }
    ensures outside { IsOutside pass.new }
    ensures shares { shares_of pass.new ≡ shares_of pass.old }
{
    turnstile.leave_same(pass, value)
}

// One section, which makes the next step where there is one; its place is answered.
fn turn<R: Wait>(rt: &R, turnstile: &Turnstile<Turner>, pass: &mut Pass<Turner>, reads: bool) -> u64
    requires own { IsPassOf turnstile.now pass.old }
    requires outside { IsOutside pass.old }
    ensures own { IsPassOf turnstile.now pass.new }
    ensures outside { IsOutside pass.new }
    ensures shares { shares_of pass.new ≡ shares_of pass.old }
{
    let value = turnstile.enter(rt, pass);
    match value.steps {
        0 if !reads => switch(turnstile, pass, value),
        1 if !reads => begin(turnstile, pass, value),
        2 if !reads => stop(turnstile, pass, value),
        _ => leave_as_it_was(turnstile, pass, value),
    }
}

// Each of the three ways to leave, and then the end: the places, and the steps that were made.
fn turns<R: Wait>(rt: &R, turnstile: Turnstile<Turner>, mut pass: Pass<Turner>) -> ([u64; 5], u64)
    requires own { IsPassOf turnstile pass }
    requires outside { IsOutside pass }
    requires all { shares_of pass ≡ all_shares }
{
    let places = [
        turn(rt, &turnstile, &mut pass, false),
        turn(rt, &turnstile, &mut pass, true),
        turn(rt, &turnstile, &mut pass, false),
        turn(rt, &turnstile, &mut pass, false),
        turn(rt, &turnstile, &mut pass, true),
    ];
    let Turner { steps } = turnstile.close(pass);
    (places, steps)
}

fn turned<R: Wait>(rt: &R, alloc: Global) -> Option<([u64; 5], u64)> {
    match Turnstile::new(alloc, Turner { steps: 0 }) {
        Ok((turnstile, pass)) => Some(turns(rt, turnstile, pass)),
        Err(_) => None,
    }
}

#[test]
fn sound_value_takes_turns(rt: HostRuntime) -> Result<(), Fail> {
    assert_eq!(rt; turned(&rt, rt.alloc()), Some(([1, 1, 2, 2, 2], 3)));
    Ok(())
}
