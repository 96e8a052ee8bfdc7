//! What a Rust programmer writes on collections: groups, ranges and copies.
use callers_in_pages::idioms::{
    Account, copied, copied_index, count_pair, count_word, counts, extend, greatest, group,
    has_between, second, squares, taken, united,
};
use fallible_collections::btree::{BTreeMap, BTreeSet};
use fallible_collections::{TryHashMap, TryReserveError, TryVec};
use std::alloc::Global;
use std::test::Fail;

// A map of each number to itself, below an end.
fn numbers(alloc: Global, end: u64) -> Result<BTreeMap<u64, u64>, TryReserveError> {
    let mut map = BTreeMap::new(alloc);
    for number in 0..end {
        map.try_insert(number, number)?;
    }
    Ok(map)
}

// A set of texts.
fn words(alloc: Global, texts: &[&str]) -> Result<BTreeSet<String>, TryReserveError> {
    let mut set = BTreeSet::new(alloc);
    for text in texts {
        set.try_insert(String::from_str(alloc, text)?)?;
    }
    Ok(set)
}

#[test]
fn values_are_grouped_by_their_keys(rt: HostRuntime) -> Result<(), Fail> {
    let mut groups = BTreeMap::new(rt.alloc());
    for number in 0..10u64 {
        group(&mut groups, number % 3, number)?;
    }
    assert!(rt; groups.len() == 3);
    assert!(rt;
        matches!(groups.get(&0), Some(group) if group.as_slice() == [0, 3, 6, 9].as_slice())
    );
    assert!(rt; matches!(groups.get(&1), Some(group) if group.as_slice() == [1, 4, 7].as_slice()));
    let mut table = BTreeMap::new(rt.alloc());
    count_pair(&mut table, 1, 2)?;
    count_pair(&mut table, 1, 2)?;
    count_pair(&mut table, 3, 4)?;
    assert!(rt; matches!(table.get(&1), Some(row) if matches!(row.get(&2), Some(2))));
    assert!(rt; table.len() == 2);
    Ok(())
}

#[test]
fn ranges_are_written_as_in_rust(rt: HostRuntime) -> Result<(), Fail> {
    let map = numbers(rt.alloc(), 10)?;
    let [half_open, closed, from, below, to, all] = counts(&map);
    assert!(rt; half_open == 4 && closed == 5 && from == 7);
    assert!(rt; below == 7 && to == 8 && all == 10);
    assert!(rt; map.range(7..3).next().is_none());
    let mut doubled = numbers(rt.alloc(), 10)?;
    doubled.range_mut(8..).for_each(|_key, value| *value = 0);
    assert!(rt; matches!((doubled.get(&7), doubled.get(&8)), (Some(7), Some(0))));
    let mut set = BTreeSet::new(rt.alloc());
    set.try_insert(5)?;
    assert!(rt; has_between(&set, 5, 6) && !has_between(&set, 6, 9));
    Ok(())
}

// A range that was walked to its end holds nothing more, and one that was walked in part what is left of it.
#[test]
fn a_range_holds_what_is_left_of_it(rt: HostRuntime) -> Result<(), Fail> {
    let map = numbers(rt.alloc(), 10)?;
    let mut range = 3..=4u64;
    let _first = range.next();
    assert!(rt; map.range(range).count() == 1);
    let mut spent = 3..=4u64;
    let _both = (spent.next(), spent.next());
    assert!(rt; map.range(spent).count() == 0);
    Ok(())
}

#[test]
fn maps_and_sets_of_texts_are_copied(rt: HostRuntime) -> Result<(), Fail> {
    let mut map = BTreeMap::new(rt.alloc());
    map.try_insert(
        String::from_str(rt.alloc(), "b")?,
        String::from_str(rt.alloc(), "2")?,
    )?;
    map.try_insert(
        String::from_str(rt.alloc(), "a")?,
        String::from_str(rt.alloc(), "1")?,
    )?;
    let copy = copied(&map)?;
    assert!(rt; copy == map);
    let mut index = BTreeMap::new(rt.alloc());
    index.try_insert((1, 2), ('x', 3))?;
    assert!(rt; matches!(copied_index(&index)?.get(&(1, 2)), Some(('x', 3))));
    let both = united(
        &words(rt.alloc(), &["b", "a"])?,
        &words(rt.alloc(), &["b", "c"])?,
    )?;
    assert!(rt; both == words(rt.alloc(), &["a", "b", "c"])?);
    Ok(())
}

#[test]
fn what_holds_maps_is_copied_as_a_whole(rt: HostRuntime) -> Result<(), Fail> {
    let mut tags = BTreeSet::new(rt.alloc());
    tags.try_insert(3)?;
    let mut account = Account {
        orders: numbers(rt.alloc(), 40)?,
        tags,
    };
    let copy = second(&account)?;
    assert!(rt; copy.orders == account.orders && copy.tags == account.tags);
    let orders = taken(&mut account.orders)?;
    assert!(rt; orders == copy.orders && account.orders.is_empty());
    Ok(())
}

// What lies in a stretch goes, and is counted.
#[test]
fn stretches_are_dropped(rt: HostRuntime) -> Result<(), Fail> {
    let mut map = numbers(rt.alloc(), 40)?;
    assert!(rt; map.remove_range(3..30) == 27 && map.len() == 13);
    assert!(rt; map.remove_range(..2) == 2 && map.remove_range(30..=30) == 1);
    assert!(rt; map.remove_range(7..3) == 0 && map.len() == 10);
    let mut set = BTreeSet::new(rt.alloc());
    for item in 0..20u64 {
        set.try_insert(item)?;
    }
    assert!(rt; set.remove_range(5..) == 15 && set.len() == 5);
    Ok(())
}

// Collections of other kinds: by a hash, of texts, of values that hold their like, of what an iterator gives.
#[test]
fn collections_of_other_kinds_are_used_as_in_rust(rt: HostRuntime) -> Result<(), Fail> {
    let mut counts = TryHashMap::new(rt.alloc());
    count_word(&mut counts, 7)?;
    count_word(&mut counts, 7)?;
    assert!(rt; matches!(counts.get(&7), Some(2)));
    let sorted = TryVec::try_from_slice(rt.alloc(), &[1u64, 4, 9])?;
    assert!(rt;
        matches!(
            (greatest(&sorted, 4), greatest(&sorted, 5)),
            (Some(9), None)
        )
    );
    let mut map = squares(rt.alloc(), &[3, 2])?;
    extend(&mut map, numbers(rt.alloc(), 2)?)?;
    assert!(rt; matches!((map.get(&3), map.get(&1)), (Some(9), Some(1))));
    Ok(())
}
