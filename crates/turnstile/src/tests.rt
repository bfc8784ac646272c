//! Threads take turns with a counter.
mod counter;
mod turner;
mod turns;

ghost use Rattle.std.specs.Prelude.{◌≡◌, ◌≤◌, ◌+◌, ◌<◌};
ghost use Rattle.std.specs.Thread.{IsSync};
ghost use Rattle.turnstile.specs.Passes.{IsPassOf, IsOutside, shares_of};

use crate::{Pass, Turnstile};
use counter::Counter;
use forest_model::{Call, Reply};
use std::alloc::Global;
use std::sync::Wait;
use std::test::Fail;
use std::thread::{Threads, join_mut};

// No test counts so far.
const MOST: u64 = 1 << 40;

// One section that counts, and answers its place.
fn count_once<R: Wait>(rt: &R, turnstile: &Turnstile<Counter>, pass: &mut Pass<Counter>) -> u64
    requires own { IsPassOf turnstile.now pass.old }
    requires outside { IsOutside pass.old }
    ensures own { IsPassOf turnstile.now pass.new }
    ensures outside { IsOutside pass.new }
    ensures shares { shares_of pass.new ≡ shares_of pass.old }
{
    let value = turnstile.enter(rt, pass);
    if value.count >= MOST {
        return turnstile.leave_same(pass, value);
    }
    let next = Counter {
        count: value.count + 1,
    };
    turnstile.leave_changed(pass, next, Call::Markers, Reply::Snapped)
}

// One section that reads.
fn read_once<R: Wait>(rt: &R, turnstile: &Turnstile<Counter>, pass: &mut Pass<Counter>) -> u64
    requires own { IsPassOf turnstile.now pass.old }
    requires outside { IsOutside pass.old }
    ensures own { IsPassOf turnstile.now pass.new }
    ensures outside { IsOutside pass.new }
    ensures shares { shares_of pass.new ≡ shares_of pass.old }
{
    let value = turnstile.enter(rt, pass);
    turnstile.leave_same(pass, value)
}

// 100 sections, of which each second one counts.
fn work<R: Wait>(rt: &R, turnstile: &Turnstile<Counter>, pass: &mut Pass<Counter>)
    requires own { IsPassOf turnstile.now pass.old }
    requires outside { IsOutside pass.old }
    ensures own { IsPassOf turnstile.now pass.new }
    ensures outside { IsOutside pass.new }
    ensures shares { shares_of pass.new ≡ shares_of pass.old }
{
    for _ in 0..50u32 {
        count_once(rt, turnstile, pass);
        read_once(rt, turnstile, pass);
    }
}

fn in_two<R: Threads + Wait + Sync>(
    rt: &R,
    turnstile: &Turnstile<Counter>,
    a: &mut Pass<Counter>,
    b: &mut Pass<Counter>,
)
    requires own { IsPassOf turnstile.now a.old × IsPassOf turnstile.now b.old }
    requires outside { IsOutside a.old × IsOutside b.old }
    ensures own { IsPassOf turnstile.now a.new × IsPassOf turnstile.now b.new }
    ensures outside { IsOutside a.new × IsOutside b.new }
    ensures shares { (shares_of a.new ≡ shares_of a.old) × (shares_of b.new ≡ shares_of b.old) }
{
    join_mut(
        rt,
        &mut ||
            requires { IsPassOf turnstile.now a.now × IsOutside a.now }
            ensures { IsPassOf turnstile.entry.now a.exit.now × IsOutside a.exit.now × (shares_of a.exit.now ≡ shares_of a.entry.now) }
        { work(rt, turnstile, a) },
        &mut ||
            requires { IsPassOf turnstile.now b.now × IsOutside b.now }
            ensures { IsPassOf turnstile.entry.now b.exit.now × IsOutside b.exit.now × (shares_of b.exit.now ≡ shares_of b.entry.now) }
        { work(rt, turnstile, b) },
    );
}

fn in_four<R: Threads + Wait + Sync>(
    rt: &R,
    turnstile: &Turnstile<Counter>,
    a: &mut Pass<Counter>,
    b: &mut Pass<Counter>,
    c: &mut Pass<Counter>,
    d: &mut Pass<Counter>,
)
    requires first { IsPassOf turnstile.now a.old × IsPassOf turnstile.now b.old × IsOutside a.old × IsOutside b.old }
    requires second { IsPassOf turnstile.now c.old × IsPassOf turnstile.now d.old × IsOutside c.old × IsOutside d.old }
    ensures first { IsPassOf turnstile.now a.new × IsPassOf turnstile.now b.new × IsOutside a.new × IsOutside b.new }
    ensures second { IsPassOf turnstile.now c.new × IsPassOf turnstile.now d.new × IsOutside c.new × IsOutside d.new }
    ensures shares { (shares_of a.new ≡ shares_of a.old) × (shares_of b.new ≡ shares_of b.old) × (shares_of c.new ≡ shares_of c.old) × (shares_of d.new ≡ shares_of d.old) }
{
    join_mut(
        rt,
        &mut ||
            requires { IsSync R.row × IsPassOf turnstile.now a.now × IsPassOf turnstile.now b.now × IsOutside a.now × IsOutside b.now }
            ensures { IsPassOf turnstile.entry.now a.exit.now × IsPassOf turnstile.entry.now b.exit.now × IsOutside a.exit.now × IsOutside b.exit.now × (shares_of a.exit.now ≡ shares_of a.entry.now) × (shares_of b.exit.now ≡ shares_of b.entry.now) }
        { in_two(rt, turnstile, a, b) },
        &mut ||
            requires { IsSync R.row × IsPassOf turnstile.now c.now × IsPassOf turnstile.now d.now × IsOutside c.now × IsOutside d.now }
            ensures { IsPassOf turnstile.entry.now c.exit.now × IsPassOf turnstile.entry.now d.exit.now × IsOutside c.exit.now × IsOutside d.exit.now × (shares_of c.exit.now ≡ shares_of c.entry.now) × (shares_of d.exit.now ≡ shares_of d.entry.now) }
        { in_two(rt, turnstile, c, d) },
    );
}

// The count after four threads, at the same time or one after the other.
fn counted_by_four<R: Threads + Wait + Sync>(
    rt: &R,
    turnstile: Turnstile<Counter>,
    mut a: Pass<Counter>,
    together: bool,
) -> Option<u64>
    requires own { IsPassOf turnstile a }
    requires outside { IsOutside a }
    requires all { shares_of a ≡ 65536 }
{
    let (mut b, mut c, mut d) = three(&turnstile, &mut a);
    if together {
        in_four(rt, &turnstile, &mut a, &mut b, &mut c, &mut d);
    } else {
        work(rt, &turnstile, &mut a);
        work(rt, &turnstile, &mut b);
        work(rt, &turnstile, &mut c);
        work(rt, &turnstile, &mut d);
    }
    turnstile.join(&mut a, b);
    turnstile.join(&mut a, c);
    turnstile.join(&mut a, d);
    let Counter { count } = turnstile.close(a);
    Some(count)
}

fn another(turnstile: &Turnstile<Counter>, pass: &mut Pass<Counter>) -> Pass<Counter>
    requires own { IsPassOf turnstile.now pass.old }
    requires outside { IsOutside pass.old }
    requires shares { 1 < shares_of pass.old }
    ensures own { IsPassOf turnstile.now pass.new × IsPassOf turnstile.now result }
    ensures outside { IsOutside pass.new × IsOutside result }
    ensures shares { (shares_of pass.new + 1 ≡ shares_of pass.old) × (shares_of result ≡ 1) }
{
    let split = turnstile.split(pass);
    let Ok(other) = split else { unreachable!() };
    other
}

fn three(
    turnstile: &Turnstile<Counter>,
    pass: &mut Pass<Counter>,
) -> (Pass<Counter>, Pass<Counter>, Pass<Counter>)
    requires own { IsPassOf turnstile.now pass.old }
    requires outside { IsOutside pass.old }
    requires all { shares_of pass.old ≡ 65536 }
    ensures own { IsPassOf turnstile.now pass.new × IsPassOf turnstile.now result.0 × IsPassOf turnstile.now result.1 × IsPassOf turnstile.now result.2 }
    ensures outside { IsOutside pass.new × IsOutside result.0 × IsOutside result.1 × IsOutside result.2 }
    ensures shares { (shares_of pass.new ≡ 65533) × (shares_of result.0 ≡ 1) × (shares_of result.1 ≡ 1) × (shares_of result.2 ≡ 1) }
{
    let b = another(turnstile, pass);
    let c = another(turnstile, pass);
    let d = another(turnstile, pass);
    (b, c, d)
}

fn counts<R: Threads + Wait + Sync>(rt: &R, alloc: Global, together: bool) -> Option<u64> {
    match Turnstile::new(alloc, Counter { count: 0 }) {
        Ok((turnstile, pass)) => counted_by_four(rt, turnstile, pass, together),
        Err(_) => None,
    }
}

#[test]
fn four_threads_together(rt: HostRuntime) -> Result<(), Fail> {
    assert_eq!(rt; counts(&rt, rt.alloc(), true), Some(200));
    Ok(())
}

#[test]
fn four_passes_in_turn(rt: HostRuntime) -> Result<(), Fail> {
    assert_eq!(rt; counts(&rt, rt.alloc(), false), Some(200));
    Ok(())
}
