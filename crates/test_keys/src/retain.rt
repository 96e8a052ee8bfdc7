//! Items of a set that stay, and items that are taken out.
use fc_base::TryReserveError;
use fc_set::set::BTreeSet;
use std::alloc::Global;
use std::test::Fail;

// Whether the set has the even numbers below the end, and nothing else.
fn has_even_ones(set: &BTreeSet<u64>, end: u64) -> bool {
    let mut next = 0u64;
    for number in set {
        if *number != next {
            return false;
        }
        next = next.wrapping_add(2);
    }
    next == end
}

// Of the numbers below 200 the even ones stay, and of these the fifty below 100 are taken out, which are 2450 together.
fn are_right(set: &mut BTreeSet<u64>) -> Result<bool, TryReserveError> {
    set.try_extend(0..200u64)?;
    set.retain(|number| number & 1 == 0);
    let is_left = has_even_ones(set, 200) && set.len() == 100;
    let mut taken = 0u64;
    set.extract_if(
        |number| *number < 100,
        |number| taken = taken.wrapping_add(number),
    );
    Ok(is_left && taken == 2450 && set.len() == 50 && set.contains(&100) && !set.contains(&98))
}

fn are_right_in_a_set(alloc: Global) -> Result<bool, TryReserveError> {
    let mut set = BTreeSet::new(alloc);
    are_right(&mut set)
}

#[test]
fn even_ones_stay_and_small_ones_are_taken_out(rt: HostRuntime) -> Result<(), Fail> {
    assert!(rt; are_right_in_a_set(rt.alloc())?);
    Ok(())
}
