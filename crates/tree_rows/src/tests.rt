mod blocks;
mod damage;
mod hostile;
mod numbers;
mod shape;
mod trial;

use forest_model::Refusal;
use numbers::Numbers;
use std::alloc::Global;
use std::test::Fail;
use trial::Trial;

// Whether the tree lists its chunks after each of 1,000 insertions.
fn grows(trial: &mut Trial) -> Result<bool, Refusal> {
    let mut right = true;
    for chunk in 1..1001_u64 {
        trial.put(chunk, 10 * chunk)?;
        right = trial.is_listed() && right;
    }
    Ok(right)
}

// Whether the tree lists its chunks after each removal of an odd one of 1,000.
fn shrinks(trial: &mut Trial) -> Result<bool, Refusal> {
    let mut right = true;
    for half in 0..500_u64 {
        trial.cancel(2 * half + 1)?;
        right = trial.is_listed() && right;
    }
    Ok(right)
}

#[test]
fn each_step_leaves_the_chunks_in_order(rt: HostRuntime) -> Result<(), Fail> {
    let mut trial = Trial::new(rt.alloc());
    assert!(rt; grows(&mut trial)?);
    assert!(rt; shrinks(&mut trial)?);
    assert_eq!(rt; trial.count(), 500);
    Ok(())
}

// A change of a chunk below 2,000: mostly insertions and replacements, or mostly removals. A chunk that is removed is
// the first one from there up that is present.
fn change(trial: &mut Trial, numbers: &mut Numbers, is_growing: bool) -> Result<u64, Refusal> {
    let chunk = numbers.below(2000);
    let is_rare = numbers.below(8) == 0;
    if is_rare == is_growing {
        let present = trial.first_from(chunk);
        trial.cancel(present)?;
        Ok(present)
    } else {
        trial.put(chunk, numbers.below(1_000_000))?;
        Ok(chunk)
    }
}

// Whether so many changes leave what an ordered map has, in a tree of the right form.
fn wanders(
    trial: &mut Trial,
    numbers: &mut Numbers,
    steps: u64,
    is_growing: bool,
) -> Result<bool, Refusal> {
    let mut right = true;
    for step in 0..steps {
        let chunk = change(trial, numbers, is_growing)?;
        right = trial.agrees_near(chunk) && right;
        if step % 100 == 99 {
            right = trial.is_listed() && trial.is_well_formed() && right;
        }
    }
    Ok(right)
}

#[test]
fn changes_are_those_of_an_ordered_map(rt: HostRuntime) -> Result<(), Fail> {
    let mut trial = Trial::new(rt.alloc());
    let mut numbers = Numbers::new();
    assert!(rt; wanders(&mut trial, &mut numbers, 1500, true)?);
    // more than two leaves have
    assert!(rt; trial.count() > 506);
    assert!(rt; wanders(&mut trial, &mut numbers, 800, false)?);
    assert!(rt; trial.count() < 253);
    assert!(rt; wanders(&mut trial, &mut numbers, 700, true)?);
    assert!(rt; trial.count() > 506);
    Ok(())
}

#[test]
fn spoiled_trees_are_answered_or_damaged(rt: HostRuntime) -> Result<(), Fail> {
    let mut numbers = Numbers::new();
    let mut tree = hostile::good_tree(rt.alloc())?;
    assert!(rt; hostile::is_good(&mut tree));
    for trial in 0..200_u64 {
        assert!(rt; hostile::is_answered(&mut tree, &mut numbers), "{trial}");
    }
    assert!(rt; hostile::is_good(&mut tree));
    Ok(())
}
