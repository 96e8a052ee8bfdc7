//! Clones of keys that are not equal to them.
use fc_base::TryReserveError;
use fc_map::map::BTreeMap;
use std::alloc::{AllocError, Global};
use std::test::Fail;

// A number whose clone is zero, as std's `Clone` lets it be.
#[derive(Drop, PartialEq, Eq, PartialOrd, Ord)]
struct Forgotten(u64);

impl Clone for Forgotten {
    fn clone(&self) -> Result<Forgotten, AllocError> {
        Ok(Forgotten(0))
    }
}

type Map = BTreeMap<Forgotten, u64>;

fn clone_has_zero(map: &mut Map) -> Result<bool, TryReserveError> {
    map.try_insert(Forgotten(1), 1)?;
    let clone = map.clone()?;
    Ok(matches!(clone.get(&Forgotten(0)), Some(1)))
}

fn one_is_cloned(alloc: Global) -> Result<bool, TryReserveError> {
    let mut map = Map::new(alloc);
    clone_has_zero(&mut map)
}

fn clone_is_refused(map: &mut Map) -> Result<bool, TryReserveError> {
    map.try_insert(Forgotten(1), 1)?;
    map.try_insert(Forgotten(2), 2)?;
    let is_refused = map.clone().is_err();
    Ok(is_refused && map.len() == 2)
}

fn two_are_refused(alloc: Global) -> Result<bool, TryReserveError> {
    let mut map = Map::new(alloc);
    clone_is_refused(&mut map)
}

#[test]
fn clones_that_do_not_ascend_are_refused(rt: HostRuntime) -> Result<(), Fail> {
    assert!(rt; one_is_cloned(rt.alloc())?);
    assert!(rt; two_are_refused(rt.alloc())?);
    Ok(())
}
