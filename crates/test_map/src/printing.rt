//! The texts of writing and owned walks and of insertions made ready by `{:?}`: what is still to come, and it stays where it is.
use crate::numbers::{Numbers, multiples};
use fc_base::TryReserveError;
use fc_map::map::Entry;
use std::alloc::{AllocError, Global};
use std::fmt::Debug;
use std::ops::Bound;
use std::test::Fail;

fn prints<D: Debug>(alloc: Global, shown: &D, wanted: &str) -> Result<bool, AllocError> {
    let text = format!(in alloc; "{shown:?}")?;
    Ok(text.as_str() == wanted)
}

// Whether a walk that lent as many values from the front and from the back has this text.
fn prints_rest(
    alloc: Global,
    map: &mut Numbers,
    front: usize,
    back: usize,
    wanted: &str,
) -> Result<bool, AllocError> {
    let mut walk = map.iter_mut();
    for _ in 0..front {
        walk.next();
    }
    for _ in 0..back {
        walk.next_back();
    }
    prints(alloc, &walk, wanted)
}

#[test]
fn a_writing_walk_prints_the_pairs_that_are_left(rt: HostRuntime) -> Result<(), Fail> {
    let mut map = multiples(rt.alloc(), 1, 5, 10)?;
    assert!(rt;
        prints_rest(
            rt.alloc(),
            &mut map,
            0,
            0,
            "[(1, 10), (2, 20), (3, 30), (4, 40)]"
        )?
    );
    assert!(rt; prints_rest(rt.alloc(), &mut map, 1, 1, "[(2, 20), (3, 30)]")?);
    assert!(rt; prints_rest(rt.alloc(), &mut map, 0, 3, "[(1, 10)]")?);
    assert!(rt; prints_rest(rt.alloc(), &mut map, 2, 2, "[]")?);
    Ok(())
}

// Of 300 pairs, which stand on three levels.
#[test]
fn a_writing_walk_of_a_large_map_prints_its_middle(rt: HostRuntime) -> Result<(), Fail> {
    let mut map = multiples(rt.alloc(), 0, 300, 1)?;
    assert!(rt; prints_rest(rt.alloc(), &mut map, 150, 148, "[(150, 150), (151, 151)]")?);
    Ok(())
}

// Whether a range is printed whole; and the rest of it, and where none is left.
fn range_is_printed(alloc: Global, map: &mut Numbers) -> Result<(bool, bool), AllocError> {
    let mut walk = map.range_mut((Bound::Included(&17), Bound::Excluded(&20)));
    let whole = prints(alloc, &walk, "[(17, 170), (18, 180), (19, 190)]")?;
    walk.next();
    let rest = prints(alloc, &walk, "[(18, 180), (19, 190)]")?;
    walk.next_back();
    walk.next_back();
    let none = prints(alloc, &walk, "[]")?;
    Ok((whole, rest && none))
}

#[test]
fn a_writing_walk_over_a_range_prints_the_pairs_that_are_left(rt: HostRuntime) -> Result<(), Fail> {
    let mut map = multiples(rt.alloc(), 1, 100, 10)?;
    let (whole, rest) = range_is_printed(rt.alloc(), &mut map)?;
    assert!(rt; whole);
    assert!(rt; rest);
    Ok(())
}

fn keys_are_printed(alloc: Global, map: Numbers) -> Result<bool, AllocError> {
    let mut keys = map.into_keys();
    keys.next();
    prints(alloc, &keys, "IntoKeys { pairs: [(2, 20), (3, 30)] }")
}

fn values_are_printed(alloc: Global, map: Numbers) -> Result<bool, AllocError> {
    let mut values = map.into_values();
    values.next_back();
    prints(alloc, &values, "IntoValues { pairs: [(1, 10), (2, 20)] }")
}

#[test]
fn owned_walks_print_the_pairs_that_are_left(rt: HostRuntime) -> Result<(), Fail> {
    assert!(rt; keys_are_printed(rt.alloc(), multiples(rt.alloc(), 1, 4, 10)?)?);
    assert!(rt; values_are_printed(rt.alloc(), multiples(rt.alloc(), 1, 4, 10)?)?);
    Ok(())
}

fn printed_ready(
    alloc: Global,
    map: &mut Numbers,
    key: u64,
) -> Result<Option<String>, TryReserveError> {
    match map.try_entry(key)? {
        Entry::Vacant(entry) => {
            let ready = entry.try_ready()?;
            Ok(Some(format!(in alloc; "{ready:?}")?))
        }
        Entry::Occupied(_entry) => Ok(None),
    }
}

#[test]
fn an_insertion_made_ready_prints_its_key(rt: HostRuntime) -> Result<(), Fail> {
    let mut map = multiples(rt.alloc(), 1, 4, 10)?;
    match printed_ready(rt.alloc(), &mut map, 7)? {
        Some(text) => assert!(rt; text.as_str() == "ReadyEntry(7)"),
        None => assert!(rt; false),
    }
    Ok(())
}
