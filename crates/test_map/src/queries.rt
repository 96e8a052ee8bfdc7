//! Look-ups by borrowed forms of a key, and by keys of several parts.
use crate::map::take_all_memory;
use crate::numbers::{is_lent, is_number};
use fc_base::TryReserveError;
use fc_map::map::BTreeMap;
use std::alloc::Global;
use std::test::Fail;
use test_values::is_ample;

// A prefix of each text but the first is there, too, and twenty texts stand on two levels of nodes.
const TEXTS: [&str; 20] = [
    "", "a", "ab", "abc", "b", "c", "d", "e", "f", "g", "h", "i", "j", "k", "l", "m", "w", "wo",
    "wor", "word",
];

// The texts, each with its place.
fn words(alloc: Global) -> Result<BTreeMap<String, u64>, TryReserveError> {
    let mut map = BTreeMap::new(alloc);
    for (place, text) in TEXTS.iter().enumerate() {
        map.try_insert(String::from_str(alloc, text)?, place as u64)?;
    }
    Ok(map)
}

// Whether each text is found at its place.
fn finds_each(map: &BTreeMap<String, u64>) -> bool {
    for (place, text) in TEXTS.iter().enumerate() {
        if !is_lent(map.get(*text), place as u64) {
            return false;
        }
    }
    true
}

// Whether nothing is found at texts that are between those of the map, after them, or longer.
fn finds_no_other(map: &BTreeMap<String, u64>) -> bool {
    for text in ["abcd", "aa", "words", "wa", "A", "zz", "\u{ff}"] {
        if map.contains_key(text) || map.get(text).is_some() {
            return false;
        }
    }
    true
}

fn write_text(map: &mut BTreeMap<String, u64>, text: &str, number: u64) -> bool {
    match map.get_mut(text) {
        Some(held) => {
            *held = number;
            true
        }
        None => false,
    }
}

// Whether the last text is found by a `String` and by an index.
fn finds_the_last(alloc: Global, map: &BTreeMap<String, u64>) -> Result<bool, TryReserveError> {
    let text = String::from_str(alloc, "word")?;
    Ok(is_lent(map.get(&text), 19) && map.contains_key("word") && map["word"] == 19)
}

#[test]
fn a_string_is_found_by_its_text(rt: HostRuntime) -> Result<(), Fail> {
    let map = words(rt.alloc())?;
    assert!(rt; finds_each(&map) && finds_no_other(&map));
    assert!(rt; finds_the_last(rt.alloc(), &map)?);
    Ok(())
}

// Whether the text's number is taken out, once.
fn takes_out(map: &mut BTreeMap<String, u64>, text: &str, number: u64) -> bool {
    is_number(map.remove(text), number) && map.remove(text).is_none()
}

#[test]
fn a_text_is_written_at_and_removed(rt: HostRuntime) -> Result<(), Fail> {
    let mut map = words(rt.alloc())?;
    assert!(rt; write_text(&mut map, "word", 70) && !write_text(&mut map, "words", 70));
    assert!(rt; takes_out(&mut map, "word", 70) && takes_out(&mut map, "", 0) && map.len() == 18);
    Ok(())
}

fn is_found_without_memory(
    alloc: Global,
    map: &mut BTreeMap<String, u64>,
) -> Result<bool, TryReserveError> {
    let held = take_all_memory(alloc)?;
    let is_right = !is_ample(alloc)
        && String::from_str(alloc, "word").is_err()
        && finds_each(map)
        && finds_no_other(map)
        && write_text(map, "word", 70)
        && takes_out(map, "word", 70);
    drop(held);
    Ok(is_right)
}

// A run that gets its memory from elsewhere, as one without proof does, would show nothing, and fails.
#[test]
fn with_all_memory_refused_a_text_is_found_not_in_a_trial(rt: HostRuntime) -> Result<(), Fail> {
    let mut map = words(rt.alloc())?;
    assert!(rt; is_found_without_memory(rt.alloc(), &mut map)?);
    Ok(())
}

// Whether the map holds under the bytes of each number the number itself, and nothing under a prefix of them or more.
fn finds_bytes(map: &BTreeMap<Vec<u8>, u64>) -> bool {
    for byte in 1..100u8 {
        let bytes = [byte, byte / 2, 0];
        let is_right = is_lent(map.get(&bytes[..2]), u64::from(byte))
            && map.get(&bytes[..1]).is_none()
            && map.get(&bytes[..]).is_none();
        if !is_right {
            return false;
        }
    }
    map.get(&[][..]).is_none()
}

// The bytes of each number, with it.
fn bytes(alloc: Global) -> Result<BTreeMap<Vec<u8>, u64>, TryReserveError> {
    let mut map = BTreeMap::new(alloc);
    for byte in 1..100u8 {
        let key = Vec::from_slice(alloc, &[byte, byte / 2])?;
        map.try_insert(key, u64::from(byte))?;
    }
    Ok(map)
}

#[test]
fn a_vec_is_found_by_its_items(rt: HostRuntime) -> Result<(), Fail> {
    let mut map = bytes(rt.alloc())?;
    assert!(rt; map.len() == 99 && finds_bytes(&map));
    assert!(rt; is_number(map.remove(&[7, 3][..]), 7) && map.len() == 98);
    Ok(())
}

// Two dates are equal where all their parts are.
#[derive(Clone, Copy, PartialEq, Eq, PartialOrd, Ord, Debug)]
struct Date {
    year: u32,
    day: u32,
}

fn dates(alloc: Global) -> Result<BTreeMap<Date, u64>, TryReserveError> {
    let mut map = BTreeMap::new(alloc);
    for number in 0..40u32 {
        let date = Date {
            year: number / 8,
            day: number % 8,
        };
        map.try_insert(date, u64::from(number))?;
    }
    Ok(map)
}

fn pairs(alloc: Global) -> Result<BTreeMap<(u32, u32), u64>, TryReserveError> {
    let mut map = BTreeMap::new(alloc);
    for number in 0..40u32 {
        map.try_insert((number / 8, number % 8), u64::from(number))?;
    }
    Ok(map)
}

fn finds_by_pair(by_pair: &BTreeMap<(u32, u32), u64>) -> bool {
    is_lent(by_pair.get(&(3, 5)), 29) && by_pair.get(&(3, 8)).is_none()
}

#[test]
fn keys_of_several_parts_are_found_by_a_reference(rt: HostRuntime) -> Result<(), Fail> {
    assert!(rt; finds_by_pair(&pairs(rt.alloc())?));
    let by_date = dates(rt.alloc())?;
    assert!(rt; is_lent(by_date.get(&Date { year: 3, day: 5 }), 29));
    assert!(rt; !by_date.contains_key(&Date { year: 5, day: 0 }));
    Ok(())
}
