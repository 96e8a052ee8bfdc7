//! A few pairs and items that are put in, and how a set of a few numbers is judged. A loop that inserts is dear, so one of each kind serves all modules.
use fc_base::TryReserveError;
use fc_map::map::BTreeMap;
use fc_set::set::BTreeSet;

pub(crate) fn put_pairs<K: Ord + Copy + Drop, V: Copy + Drop>(
    map: &mut BTreeMap<K, V>,
    pairs: &[(K, V)],
) -> Result<(), TryReserveError> {
    for (key, value) in pairs {
        map.try_insert(*key, *value)?;
    }
    Ok(())
}

pub(crate) fn put_items<T: Ord + Copy + Drop>(
    set: &mut BTreeSet<T>,
    items: &[T],
) -> Result<(), TryReserveError> {
    for item in items {
        set.try_insert(*item)?;
    }
    Ok(())
}

pub(crate) fn is_number(found: Option<&u64>, wanted: u64) -> bool {
    match found {
        Some(number) => *number == wanted,
        None => false,
    }
}

// Whether the set has these numbers, in this order, and nothing else.
pub(crate) fn is_set(set: &BTreeSet<u64>, numbers: &[u64]) -> bool {
    let mut walk = set.iter();
    for number in numbers {
        if !is_number(walk.next(), *number) {
            return false;
        }
    }
    walk.next().is_none() && set.len() == numbers.len()
}
