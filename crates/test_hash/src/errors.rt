//! Keys and values whose copies are refused by either error: a copy of the map passes it on as it is, and not as the other one, and drops what was made.
use fc_base::{TryClone, TryReserveError};
use fc_hash::TryHashMap;
use std::alloc::Global;
use test_values::{Tally, Token};

fn one_pair<'a>(
    alloc: Global,
    tally: &'a Tally,
) -> Result<TryHashMap<Token<'a>, Token<'a>>, TryReserveError> {
    let mut made = TryHashMap::default(alloc);
    drop(made.insert(Token::new(1, tally), Token::new(2, tally))?);
    Ok(made)
}

fn copied<'a>(
    map: &TryHashMap<Token<'a>, Token<'a>>,
) -> Result<TryHashMap<Token<'a>, Token<'a>>, TryReserveError> {
    map.try_clone()
}

// With no copy the key's is refused, with one the value's, and with two none.
fn is_passed_on(alloc: Global, given: u64, own: TryReserveError) -> bool {
    let tally = Tally::of_copies(given, own);
    let Ok(map) = one_pair(alloc, &tally) else {
        return false;
    };
    let is_right = match copied(&map) {
        Ok(copy) => given == 2 && copy.len() == 1 && tally.living() == 4,
        Err(error) => given < 2 && error == own,
    };
    let left = tally.living();
    drop(map);
    is_right && left == 2 && tally.living() == 0
}

#[test]
fn each_error_is_passed_on(rt: HostRuntime) {
    for given in 0..3u64 {
        assert!(rt; is_passed_on(rt.alloc(), given, TryReserveError::AllocError));
        assert!(rt; is_passed_on(rt.alloc(), given, TryReserveError::CapacityOverflow));
    }
}
