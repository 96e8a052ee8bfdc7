//! Keys that are texts of the program, `&str`, looked up by a bare literal: each call of a map that looks a key up, and each of an entry.
use crate::few::put_pairs;
use fc_base::TryReserveError;
use fc_map::map::{BTreeMap, Entry};
use std::alloc::Global;
use std::test::Fail;

type Words = BTreeMap<&'static str, u64>;

fn is_value(found: Option<&u64>, wanted: u64) -> bool {
    match found {
        Some(value) => *value == wanted,
        None => false,
    }
}

fn is_answer(answer: Option<u64>, wanted: u64) -> bool {
    match answer {
        Some(value) => value == wanted,
        None => false,
    }
}

// Words that are put in in another order, each with its place in the alphabet.
fn words(alloc: Global) -> Result<Words, TryReserveError> {
    let mut map = Words::new(alloc);
    put_pairs(
        &mut map,
        &[("dill", 4), ("anise", 1), ("cress", 3), ("basil", 2)],
    )?;
    Ok(map)
}

// A text that is not one of the program finds a key as well as a literal does.
fn finds_by_text(map: &Words, text: &str, wanted: u64) -> bool {
    is_value(map.get(text), wanted) && map.contains_key(text)
}

fn finds(alloc: Global, map: &Words) -> Result<bool, TryReserveError> {
    let text = String::from_str(alloc, "cress")?;
    let pair = match map.get_key_value("anise") {
        Some((key, value)) => *key == "anise" && *value == 1,
        None => false,
    };
    Ok(
        pair && is_value(map.get("basil"), 2)
            && is_value(map.get(&"basil"), 2)
            && map.get("mint").is_none()
            && map.contains_key("dill")
            && !map.contains_key("dil")
            && finds_by_text(map, text.as_str(), 3),
    )
}

// The index asks its caller to show that the key is there: a new map of one word.
fn is_at_its_index(alloc: Global) -> Result<bool, TryReserveError> {
    let mut map = BTreeMap::new(alloc);
    map.try_insert("anise", 1)?;
    Ok(map["anise"] == 1)
}

fn write(map: &mut Words, word: &str, value: u64) -> bool {
    match map.get_mut(word) {
        Some(held) => {
            *held = value;
            true
        }
        None => false,
    }
}

fn changes(map: &mut Words) -> bool {
    let is_written = write(map, "basil", 20) && !write(map, "mint", 5);
    let is_there = is_value(map.get("basil"), 20);
    let is_removed = is_answer(map.remove("basil"), 20) && map.remove("basil").is_none();
    let pair = match map.remove_entry("dill") {
        Some((key, value)) => key == "dill" && value == 4,
        None => false,
    };
    is_written && is_there && is_removed && pair && map.len() == 2
}

// The first call at a word makes its value, and the second writes to it.
fn are_counted(map: &mut Words) -> Result<bool, TryReserveError> {
    let count = map.try_entry("mint")?.or_try_insert(12)?;
    *count = count.wrapping_add(10);
    let first = map
        .try_entry("mint")?
        .and_modify(|value| *value = value.wrapping_add(1))
        .or_try_insert(42)?;
    let is_first = *first == 23;
    let made = *map.try_entry("sage")?.or_try_insert_with(|| 7)?;
    let sized = *map
        .try_entry("thyme")?
        .or_try_insert_with_key(|key| key.len() as u64)?;
    let empty = *map.try_entry("yarrow")?.or_default()?;
    Ok(is_first && made == 7 && sized == 5 && empty == 0)
}

// Of an entry at a word that is there: its key and value, written twice, and the pair taken out.
fn is_taken_by_entry(map: &mut Words) -> Result<bool, TryReserveError> {
    match map.try_entry("anise")? {
        Entry::Vacant(_entry) => Ok(false),
        Entry::Occupied(mut entry) => {
            let is_shown = *entry.key() == "anise" && *entry.get() == 1;
            *entry.get_mut() = 10;
            let is_old = entry.insert(11) == 10;
            let (key, value) = entry.remove_entry();
            Ok(is_shown && is_old && key == "anise" && value == 11)
        }
    }
}

// Of an entry at a new word: its key, which comes back, and then a value that is put there.
fn is_put_by_entry(map: &mut Words) -> Result<bool, TryReserveError> {
    let is_back = match map.try_entry("anise")? {
        Entry::Vacant(entry) => *entry.key() == "anise" && entry.into_key() == "anise",
        Entry::Occupied(_entry) => false,
    };
    let is_put = match map.try_entry("anise")? {
        Entry::Vacant(entry) => *entry.try_insert(37)? == 37,
        Entry::Occupied(_entry) => false,
    };
    Ok(is_back && is_put && is_value(map.get("anise"), 37))
}

// Whether words are found, counted by entries, and taken out and put in by them.
fn are_looked_up(alloc: Global, map: &mut Words) -> Result<(bool, bool, bool), TryReserveError> {
    let is_found = finds(alloc, map)? && is_at_its_index(alloc)?;
    let is_counted = are_counted(map)?;
    let is_entered = is_taken_by_entry(map)? && is_put_by_entry(map)?;
    Ok((is_found, is_counted, is_entered))
}

fn words_are_looked_up(alloc: Global) -> Result<(bool, bool, bool), TryReserveError> {
    let mut map = words(alloc)?;
    are_looked_up(alloc, &mut map)
}

#[test]
fn words_are_looked_up_by_a_literal(rt: HostRuntime) -> Result<(), Fail> {
    let (is_found, is_counted, is_entered) = words_are_looked_up(rt.alloc())?;
    assert!(rt; is_found);
    assert!(rt; is_counted);
    assert!(rt; is_entered);
    Ok(())
}

fn words_are_changed(alloc: Global) -> Result<bool, TryReserveError> {
    let mut map = words(alloc)?;
    Ok(changes(&mut map))
}

#[test]
fn words_are_written_and_taken_out_by_a_literal(rt: HostRuntime) -> Result<(), Fail> {
    assert!(rt; words_are_changed(rt.alloc())?);
    Ok(())
}
