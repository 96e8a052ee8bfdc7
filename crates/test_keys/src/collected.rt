//! What an iterator gives, collected into sets and maps.
use crate::few::is_set;
use fc_base::TryReserveError;
use fc_map::map::BTreeMap;
use fc_set::set::BTreeSet;
use fc_vec::TryCollect;
use std::alloc::Global;
use std::test::Fail;

// The numbers 3, 1 and 2 as a set: in order.
fn is_collected_set(alloc: Global) -> Result<bool, TryReserveError> {
    let items = vec![in alloc; 3u64, 1, 2]?;
    let set: BTreeSet<u64> = TryCollect::try_collect(items, alloc)?;
    Ok(is_set(&set, &[1, 2, 3]))
}

// Two pairs of one key as a map: the last value.
fn is_collected_map(alloc: Global) -> Result<bool, TryReserveError> {
    let pairs = vec![in alloc; (1u64, 'a'), (1, 'b')]?;
    let map: BTreeMap<u64, char> = TryCollect::try_collect(pairs, alloc)?;
    Ok(map.len() == 1 && matches!(map.get(&1), Some('b')))
}

#[test]
fn an_iterator_is_collected_into_a_set_and_a_map(rt: HostRuntime) -> Result<(), Fail> {
    assert!(rt; is_collected_set(rt.alloc())? && is_collected_map(rt.alloc())?);
    Ok(())
}
