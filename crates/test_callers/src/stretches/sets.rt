//! Items of a range of a set: which were asked, which were handed on, and what is left.
use super::rules::{Rule, count_gone, count_within, goes, lies_within, rule_of};
use fc_base::TryReserveError;
use fc_set::set::BTreeSet;
use std::alloc::Global;
use std::test::Fail;

// The numbers below the end.
fn numbers(alloc: Global, end: u64) -> Result<BTreeSet<u64>, TryReserveError> {
    let mut set = BTreeSet::new(alloc);
    for number in 0..end {
        if let Err((_number, error)) = set.try_insert(number) {
            return Err(error);
        }
    }
    Ok(set)
}

// Whether the set has what the rule leaves of the numbers below the end, and nothing else.
fn has_what_is_left(set: &BTreeSet<u64>, rule: Rule, end: u64) -> bool {
    for number in 0..end {
        let is_gone = lies_within(rule, number) && goes(rule, number);
        if set.contains(&number) == is_gone {
            return false;
        }
    }
    set.len().wrapping_add(count_gone(rule, end)) as u64 == end
}

fn retains(alloc: Global, rule: Rule, end: u64) -> Result<bool, TryReserveError> {
    let mut set = numbers(alloc, end)?;
    let mut asked = 0usize;
    set.retain_range(rule.first..rule.last, |number| {
        asked = asked.wrapping_add(1);
        !goes(rule, *number)
    });
    Ok(asked == count_within(rule, end) && has_what_is_left(&set, rule, end))
}

fn extracts(alloc: Global, rule: Rule, end: u64) -> Result<bool, TryReserveError> {
    let mut set = numbers(alloc, end)?;
    let mut given = 0usize;
    let mut least = 0u64;
    let mut in_order = true;
    set.extract_range_if(
        rule.first..rule.last,
        |number| goes(rule, *number),
        |number| {
            in_order = in_order && least <= number && lies_within(rule, number);
            least = number.wrapping_add(1);
            given = given.wrapping_add(1);
        },
    );
    Ok(in_order && given == count_gone(rule, end) && has_what_is_left(&set, rule, end))
}

#[test]
fn the_items_of_a_range_alone_are_asked(rt: HostRuntime) -> Result<(), Fail> {
    for end in [0, 1, 16, 90, 300] {
        for kind in 0..4 {
            let rule = rule_of(end / 4, end.wrapping_sub(end / 3), kind);
            assert!(rt; retains(rt.alloc(), rule, end)?);
            assert!(rt; extracts(rt.alloc(), rule, end)?);
        }
    }
    Ok(())
}
