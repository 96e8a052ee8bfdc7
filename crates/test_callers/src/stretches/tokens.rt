//! Tokens within a range: each that goes is dropped once, and no other.
use super::rules::{Rule, count_gone, goes, rule_of};
use fc_base::TryReserveError;
use fc_map::map::BTreeMap;
use std::alloc::Global;
use std::test::Fail;
use test_values::{Tally, Token};

// The numbers below the end, each with a token.
fn tokens<'a>(
    alloc: Global,
    end: u64,
    tally: &'a Tally,
) -> Result<BTreeMap<u64, Token<'a>>, TryReserveError> {
    let mut map = BTreeMap::new(alloc);
    for number in 0..end {
        if let Err((_number, _token, error)) = map.try_insert(number, Token::new(number, tally)) {
            return Err(error);
        }
    }
    Ok(map)
}

// Whether those that go are dropped once each, then all from the first number on, and the others with the map.
fn drops_each_once(alloc: Global, rule: Rule, end: u64) -> Result<bool, TryReserveError> {
    let tally = Tally::new();
    let mut map = tokens(alloc, end, &tally)?;
    map.retain_range(rule.first..rule.last, |number, _token| !goes(rule, *number));
    let stay = end.wrapping_sub(count_gone(rule, end) as u64);
    let some_went = tally.living() == stay && map.len() as u64 == stay;
    let gone = map.remove_range(rule.first..) as u64;
    let all_went = gone == stay.wrapping_sub(rule.first) && tally.living() == rule.first;
    drop(map);
    Ok(some_went && all_went && tally.living() == 0)
}

#[test]
fn tokens_of_a_range_are_dropped_once(rt: HostRuntime) -> Result<(), Fail> {
    for kind in 0..4 {
        assert!(rt; drops_each_once(rt.alloc(), rule_of(40, 90, kind), 170)?);
        assert!(rt; drops_each_once(rt.alloc(), rule_of(0, 170, kind), 170)?);
        assert!(rt; drops_each_once(rt.alloc(), rule_of(3, 5, kind), 9)?);
    }
    Ok(())
}
