//! The texts of vectors by `{:?}`.
use fc_base::TryReserveError;
use fc_vec::{TryCollect, TryVec};
use std::alloc::{AllocError, Global};
use std::test::Fail;

const BELOW_100: &str =
    "[0, 1, 2, 3, 4, 5, 6, 7, 8, 9, 10, 11, 12, 13, 14, 15, 16, 17, 18, 19, 20, 21, 22, 23, 24, \
    25, 26, 27, 28, 29, 30, 31, 32, 33, 34, 35, 36, 37, 38, 39, 40, 41, 42, 43, 44, 45, 46, 47, 48, 49, \
    50, 51, 52, 53, 54, 55, 56, 57, 58, 59, 60, 61, 62, 63, 64, 65, 66, 67, 68, 69, 70, 71, 72, 73, 74, \
    75, 76, 77, 78, 79, 80, 81, 82, 83, 84, 85, 86, 87, 88, 89, 90, 91, 92, 93, 94, 95, 96, 97, 98, 99]";

pub(crate) fn numbers(alloc: Global, start: u64, end: u64) -> Result<Vec<u64>, TryReserveError> {
    TryCollect::try_collect(start..end, alloc)
}

fn printed(alloc: Global, v: &TryVec<u64>) -> Result<String, AllocError> {
    format!(in alloc; "{v:?}")
}

// Whether a vector of the numbers from `start` on and below `end` has the text.
fn prints(alloc: Global, start: u64, end: u64, wanted: &str) -> bool {
    match numbers(alloc, start, end) {
        Ok(made) => match printed(alloc, &TryVec::from(made)) {
            Ok(text) => text.as_str() == wanted,
            Err(_refused) => false,
        },
        Err(_refused) => false,
    }
}

#[test]
fn a_vector_prints_its_items_in_order(rt: HostRuntime) {
    assert!(rt; prints(rt.alloc(), 0, 0, "[]") && prints(rt.alloc(), 0, 1, "[0]"));
    assert!(rt; prints(rt.alloc(), 1, 3, "[1, 2]") && prints(rt.alloc(), 0, 100, BELOW_100));
}

fn prints_rest(
    alloc: Global,
    v: &TryVec<u64>,
    given: usize,
    wanted: &str,
) -> Result<bool, AllocError> {
    let mut walk = v.iter();
    for _ in 0..given {
        walk.next();
    }
    let text = format!(in alloc; "{walk:?}")?;
    Ok(text.as_str() == wanted)
}

#[test]
fn a_walk_prints_what_is_still_to_come(rt: HostRuntime) -> Result<(), Fail> {
    let v = TryVec::from(numbers(rt.alloc(), 7, 9)?);
    assert!(rt; prints_rest(rt.alloc(), &v, 0, "Iter([7, 8])")?);
    assert!(rt; prints_rest(rt.alloc(), &v, 1, "Iter([8])")?);
    assert!(rt; prints_rest(rt.alloc(), &v, 3, "Iter([])")?);
    Ok(())
}
