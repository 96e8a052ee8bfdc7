//! Hashed sets: insertions, the calls of std's set, two sets together, copies.
ghost use Rattle.std.specs.Iterator.{IsFinite};

use fc_base::{TryClone, TryReserveError};
use fc_hash::TryHashSet;
use fc_vec::TryCollect;
use std::alloc::Global;
use std::process::Abort;
use std::test::Fail;
use test_values::{Tagged, is_ample};

// The numbers from `start` below `end`.
fn numbers(alloc: Global, start: u64, end: u64) -> Result<TryHashSet<u64>, TryReserveError> {
    let mut set = TryHashSet::new(alloc);
    set.try_extend(start..end)?;
    Ok(set)
}

// How many numbers there are, and their sum.
fn counted<'x, I: Iterator<Item = &'x u64> + Drop>(walk: I) -> (u64, u64)
    requires { I.can_next walk × IsFinite (I.remaining walk) }
{
    let mut count = 0u64;
    let mut sum = 0u64;
    for number in walk {
        count = count.wrapping_add(1);
        sum = sum.wrapping_add(*number);
    }
    (count, sum)
}

#[test]
fn the_calls_on_one_item(rt: HostRuntime) -> Result<(), Fail> {
    let mut set: TryHashSet<u64> = TryHashSet::default(rt.alloc());
    assert!(rt; set.is_empty() && !set.contains(&1) && !set.remove(&1));
    assert!(rt; set.insert(1)?);
    assert!(rt; !set.insert(1)?);
    assert!(rt; set.len() == 1 && set.contains(&1) && set.get(&1).copied() == Some(1));
    assert!(rt; set.take(&1) == Some(1) && set.take(&1).is_none());
    assert!(rt; set.replace(2)?.is_none() && set.replace(2)? == Some(2));
    set.clear();
    assert!(rt; set.is_empty());
    Ok(())
}

// An equal item stays at an insertion, and goes at a replacement.
#[test]
fn an_equal_item_stays_or_is_replaced(rt: HostRuntime) -> Result<(), Fail> {
    let mut set = TryHashSet::new(rt.alloc());
    assert!(rt; set.insert(Tagged::new(1, 'x'))? && !set.insert(Tagged::new(1, 'y'))?);
    match set.replace(Tagged::new(1, 'z'))? {
        Some(old) => assert!(rt; old.letter == 'x'),
        None => assert!(rt; false),
    }
    for item in set.iter() {
        assert!(rt; item.letter == 'z');
    }
    Ok(())
}

#[test]
fn texts_are_found_by_texts(rt: HostRuntime) -> Result<(), Fail> {
    let mut words: TryHashSet<String> = TryHashSet::new(rt.alloc());
    assert!(rt; words.insert(String::from_str(rt.alloc(), "one")?)?);
    assert!(rt; words.contains("one") && !words.contains("two"));
    assert!(rt; words.remove("one") && words.is_empty());
    Ok(())
}

fn are_walked_over(rt: &impl Abort, alloc: Global, first: &TryHashSet<u64>) -> Result<(), Fail> {
    let second = numbers(alloc, 5, 15)?;
    assert!(rt; counted(first.union(&second)) == (15, 105));
    assert!(rt; counted(first.intersection(&second)) == (5, 35));
    assert!(rt; counted(first.difference(&second)) == (5, 10));
    assert!(rt; counted(first.symmetric_difference(&second)) == (10, 70));
    Ok(())
}

// 0 .. 9 and 5 .. 14: 5 .. 9 are in both.
#[test]
fn two_sets_are_walked_over(rt: HostRuntime) -> Result<(), Fail> {
    let first = numbers(rt.alloc(), 0, 10)?;
    are_walked_over(&rt, rt.alloc(), &first)
}

// Two sets of numbers, each from one on and below another, and whether ours lies in theirs, holds it, has nothing in common with it, and is the same.
struct Row {
    ours: (u64, u64),
    theirs: (u64, u64),
    wanted: (bool, bool, bool, bool),
}

const ROWS: [Row; 4] = [
    Row {
        ours: (3, 6),
        theirs: (0, 10),
        wanted: (true, false, false, false),
    },
    Row {
        ours: (0, 10),
        theirs: (3, 6),
        wanted: (false, true, false, false),
    },
    Row {
        ours: (0, 10),
        theirs: (10, 12),
        wanted: (false, false, true, false),
    },
    Row {
        ours: (0, 10),
        theirs: (0, 10),
        wanted: (true, true, false, true),
    },
];

fn is_answered(alloc: Global, row: &Row) -> Result<bool, TryReserveError> {
    let ours = numbers(alloc, row.ours.0, row.ours.1)?;
    let theirs = numbers(alloc, row.theirs.0, row.theirs.1)?;
    let (is_subset, is_superset, is_disjoint, is_same) = row.wanted;
    Ok(
        ours.is_subset(&theirs) == is_subset
            && ours.is_superset(&theirs) == is_superset
            && ours.is_disjoint(&theirs) == is_disjoint
            && (ours == theirs) == is_same
            && (ours != theirs) != is_same,
    )
}

#[test]
fn two_sets_are_compared(rt: HostRuntime) -> Result<(), Fail> {
    for row in &ROWS {
        assert!(rt; is_answered(rt.alloc(), row)?);
    }
    Ok(())
}

#[test]
fn items_are_drained_retained_and_given(rt: HostRuntime) -> Result<(), Fail> {
    let mut set: TryHashSet<u64> = TryCollect::try_collect([4u64, 5, 4, 6], rt.alloc())?;
    assert!(rt; set.len() == 3);
    set.retain(|item| *item > 4);
    assert!(rt; counted(set.iter()) == (2, 11));
    let mut sum = 0u64;
    for item in set.drain() {
        sum = sum.wrapping_add(item);
    }
    assert!(rt; sum == 11 && set.is_empty());
    for item in numbers(rt.alloc(), 0, 4)? {
        sum = sum.wrapping_add(item);
    }
    assert!(rt; sum == 17);
    Ok(())
}

#[derive(Clone, Drop)]
struct Tags {
    tags: TryHashSet<u64>,
}

fn is_copied(set: &TryHashSet<u64>) -> Result<bool, TryReserveError> {
    let copy = set.try_clone()?;
    Ok(copy == *set)
}

fn is_cloned(set: &TryHashSet<u64>) -> Result<bool, Fail> {
    let clone = set.clone()?;
    Ok(clone == *set)
}

fn are_cloned(tags: &Tags) -> Result<bool, Fail> {
    let clone = tags.clone()?;
    Ok(clone.tags == tags.tags)
}

#[test]
fn copies_of_sets_have_the_same_items(rt: HostRuntime) -> Result<(), Fail> {
    let set = numbers(rt.alloc(), 0, 100)?;
    assert!(rt; is_copied(&set)?);
    assert!(rt; is_cloned(&set)?);
    let tags = Tags { tags: set };
    assert!(rt; are_cloned(&tags)?);
    Ok(())
}

// The sweep refuses the requests in turn.
#[test]
fn a_refused_insertion_keeps_the_items(rt: HostRuntime) {
    let mut set: TryHashSet<u64> = TryHashSet::new(rt.alloc());
    for item in 0..40u64 {
        match set.insert(item) {
            Ok(new) => assert!(rt; new),
            Err((back, error)) => {
                assert!(rt; back == item && matches!(error, TryReserveError::AllocError));
                assert!(rt; set.len() as u64 == item && !set.contains(&item));
                return;
            }
        }
    }
    assert!(rt; matches!(set.insert(7), Ok(false)));
}

// Three insertions into room for three are Ok. The sweep refuses the requests in turn.
#[test]
fn reserved_room_is_for_so_many_items(rt: HostRuntime) {
    let mut set: TryHashSet<u64> = TryHashSet::new(rt.alloc());
    if set.reserve(3).is_err() && set.reserve(3).is_err() {
        assert!(rt; !is_ample(rt.alloc()));
        return;
    }
    for item in 0..3u64 {
        assert!(rt; matches!(set.insert(item), Ok(true)));
    }
    assert!(rt;
        matches!(
            set.reserve(usize::MAX),
            Err(TryReserveError::CapacityOverflow)
        )
    );
    assert!(rt; set.len() == 3);
}
