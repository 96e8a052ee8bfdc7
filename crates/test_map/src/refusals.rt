//! Copies of maps that are refused by a key's or a value's own error, which is passed on as it is.
use fc_base::{TryClone, TryReserveError};
use fc_map::map::BTreeMap;
use std::alloc::Global;
use std::test::Fail;
use test_values::Stubborn;

// What refuses the copy of a map of the numbers below 30, whose key and value at 17 refuse theirs with these errors.
fn refusal(
    alloc: Global,
    of_key: Option<TryReserveError>,
    of_value: Option<TryReserveError>,
) -> Result<Option<TryReserveError>, TryReserveError> {
    let mut map = BTreeMap::new(alloc);
    for number in 0..30u64 {
        let is_there = number == 17;
        let key = Stubborn {
            number,
            refusal: if is_there { of_key } else { None },
        };
        let value = Stubborn {
            number,
            refusal: if is_there { of_value } else { None },
        };
        map.try_insert(key, value)?;
    }
    Ok(map.try_clone().err())
}

fn is_no_memory(refusal: Option<TryReserveError>) -> bool {
    matches!(refusal, Some(TryReserveError::AllocError))
}

fn is_overflow(refusal: Option<TryReserveError>) -> bool {
    matches!(refusal, Some(TryReserveError::CapacityOverflow))
}

// A body that renames one error into the other is proved by the clause, which allows `AllocError` always, and any error of an item.
#[test]
fn a_refused_copy_passes_the_items_error_on(rt: HostRuntime) -> Result<(), Fail> {
    let no_memory = Some(TryReserveError::AllocError);
    let overflow = Some(TryReserveError::CapacityOverflow);
    assert!(rt; refusal(rt.alloc(), None, None)?.is_none());
    assert!(rt; is_overflow(refusal(rt.alloc(), overflow, None)?));
    assert!(rt; is_no_memory(refusal(rt.alloc(), no_memory, None)?));
    assert!(rt; is_overflow(refusal(rt.alloc(), None, overflow)?));
    assert!(rt; is_no_memory(refusal(rt.alloc(), None, no_memory)?));
    assert!(rt; is_overflow(refusal(rt.alloc(), overflow, no_memory)?));
    Ok(())
}
