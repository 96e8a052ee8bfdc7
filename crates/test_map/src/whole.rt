//! Appends and splits of a few pairs, with ample memory and with none. The keys have a letter by which none is compared, the values are letters.
use crate::map::take_all_memory;
use fc_base::TryReserveError;
use fc_map::map::BTreeMap;
use std::alloc::Global;
use std::test::Fail;
use test_values::{Tagged, is_ample};

type Letters = BTreeMap<Tagged, char>;

fn key(number: u64) -> Tagged {
    Tagged::new(number, '?')
}

// Puts in these numbers, each with the letter of the map and the letter at its place.
fn put_letters(
    map: &mut Letters,
    numbers: &[u64],
    letter: char,
    values: &str,
) -> Result<(), TryReserveError> {
    for (number, value) in numbers.iter().zip(values.chars()) {
        let number = *number;
        map.try_insert(Tagged::new(number, letter), value)?;
    }
    Ok(())
}

// Whether a walk gives these numbers with these letters, of keys and of values, and nothing else.
fn reads(map: &Letters, numbers: &[u64], of_keys: &str, values: &str) -> bool {
    let mut walk = map.iter();
    let mut letters = of_keys.chars();
    let mut held = values.chars();
    for number in numbers {
        match walk.next() {
            Some((there, value)) => {
                if there.number != *number
                    || letters.next() != Some(there.letter)
                    || held.next() != Some(*value)
                {
                    return false;
                }
            }
            None => return false,
        }
    }
    walk.next().is_none() && map.len() == numbers.len()
}

fn append(map: &mut Letters, other: &mut Letters) -> Result<(), TryReserveError> {
    map.append(other)
}

fn put_two(map: &mut Letters, other: &mut Letters) -> Result<(), TryReserveError> {
    put_letters(map, &[1, 2, 3], 'x', "abc")?;
    put_letters(other, &[3, 4, 5], 'y', "def")
}

// Of the pairs 1a, 2b, 3c and 3d, 4e, 5f the key 3 and its value are the other's.
fn are_joined(map: &mut Letters, other: &mut Letters) -> Result<bool, TryReserveError> {
    put_two(map, other)?;
    append(map, other)?;
    Ok(reads(map, &[1, 2, 3, 4, 5], "xxyyy", "abdef") && reads(other, &[], "", ""))
}

fn joins(alloc: Global) -> Result<bool, TryReserveError> {
    let mut map = Letters::new(alloc);
    let mut other = Letters::new(alloc);
    are_joined(&mut map, &mut other)
}

// Whether a split leaves so many of the numbers, and answers the others.
fn is_cut(
    map: &mut Letters,
    numbers: &[u64],
    at: u64,
    left: usize,
) -> Result<bool, TryReserveError> {
    if left > numbers.len() || left > 12 {
        return Ok(false);
    }
    let all = "abcdefghijkl";
    put_letters(map, numbers, 'x', all)?;
    let rest = map.split_off(&key(at))?;
    Ok(
        reads(map, &numbers[..left], "xxxxxxxxxxxx", all)
            && reads(&rest, &numbers[left..], "xxxxxxxxxxxx", after(all, left)),
    )
}

fn splits(alloc: Global, numbers: &[u64], at: u64, left: usize) -> Result<bool, TryReserveError> {
    let mut map = Letters::new(alloc);
    is_cut(&mut map, numbers, at, left)
}

fn after(text: &str, place: usize) -> &str {
    text.get(place..).unwrap_or("?")
}

#[test]
fn a_few_pairs_are_joined_and_cut(rt: HostRuntime) -> Result<(), Fail> {
    assert!(rt; joins(rt.alloc())?);
    assert!(rt; splits(rt.alloc(), &[1, 2, 3, 17, 41], 3, 2)?);
    assert!(rt; splits(rt.alloc(), &[1, 2, 3, 17, 41], 0, 0)?);
    assert!(rt; splits(rt.alloc(), &[1, 2, 3, 4, 5, 6, 7, 8, 9, 10, 11, 12], 7, 6)?);
    Ok(())
}

fn is_refused(done: Result<(), TryReserveError>) -> bool {
    matches!(done, Err(TryReserveError::AllocError))
}

// Whether two maps that have pairs are not joined and stay, and one of them is joined with an empty one, on either side.
fn only_two_with_pairs_are_refused(
    map: &mut Letters,
    other: &mut Letters,
    none: &mut Letters,
) -> bool {
    is_refused(append(map, other))
        && reads(map, &[1, 2, 3], "xxx", "abc")
        && reads(other, &[3, 4, 5], "yyy", "def")
        && append(map, none).is_ok()
        && reads(map, &[1, 2, 3], "xxx", "abc")
        && append(none, map).is_ok()
        && reads(none, &[1, 2, 3], "xxx", "abc")
        && map.is_empty()
}

// Whether an empty map is cut, and one that has pairs is not and stays.
fn only_one_with_pairs_is_refused(none: &mut Letters, other: &mut Letters) -> bool {
    let is_cut = match none.split_off(&key(3)) {
        Ok(rest) => rest.is_empty() && none.is_empty(),
        Err(_refused) => false,
    };
    let is_refused = match other.split_off(&key(4)) {
        Ok(_rest) => false,
        Err(e) => matches!(e, TryReserveError::AllocError),
    };
    is_cut && is_refused && reads(other, &[3, 4, 5], "yyy", "def")
}

fn are_refused(
    alloc: Global,
    map: &mut Letters,
    other: &mut Letters,
    none: &mut Letters,
) -> Result<bool, TryReserveError> {
    put_two(map, other)?;
    let held = take_all_memory(alloc)?;
    let is_right = !is_ample(alloc)
        && only_two_with_pairs_are_refused(map, other, none)
        && only_one_with_pairs_is_refused(map, other);
    drop(held);
    Ok(is_right)
}

fn are_refused_without_memory(alloc: Global) -> Result<bool, TryReserveError> {
    let mut map = Letters::new(alloc);
    let mut other = Letters::new(alloc);
    let mut none = Letters::new(alloc);
    are_refused(alloc, &mut map, &mut other, &mut none)
}

// A run that gets its memory from elsewhere, as one without proof does, would show nothing, and fails.
#[test]
fn with_all_memory_refused_only_pairs_are_joined_or_cut_in_vain_not_in_a_trial(
    rt: HostRuntime,
) -> Result<(), Fail> {
    assert!(rt; are_refused_without_memory(rt.alloc())?);
    Ok(())
}
