//! Entries next to a text, in a map of `String`s that is asked by slices.
use fc_base::TryReserveError;
use fc_map::map::BTreeMap;
use std::alloc::Global;
use std::test::Fail;

type Texts = BTreeMap<String, u64>;

fn texts(alloc: Global) -> Result<Texts, TryReserveError> {
    let mut map = BTreeMap::new(alloc);
    for text in [
        "a", "ab", "b", "c", "e", "f", "g", "h", "i", "j", "k", "l", "m", "n", "o", "word",
    ] {
        map.try_insert(String::from_str(alloc, text)?, 1)?;
    }
    Ok(map)
}

fn is_first_from(map: &mut Texts, text: &str, wanted: &str) -> bool {
    match map.first_entry_at_or_after(text) {
        Some(entry) => entry.key().as_str() == wanted,
        None => wanted == "-",
    }
}

fn is_first_after(map: &mut Texts, text: &str, wanted: &str) -> bool {
    match map.first_entry_after(text) {
        Some(entry) => entry.key().as_str() == wanted,
        None => wanted == "-",
    }
}

fn is_last_to(map: &mut Texts, text: &str, wanted: &str) -> bool {
    match map.last_entry_at_or_before(text) {
        Some(entry) => entry.key().as_str() == wanted,
        None => wanted == "-",
    }
}

fn is_last_before(map: &mut Texts, text: &str, wanted: &str) -> bool {
    match map.last_entry_before(text) {
        Some(entry) => entry.key().as_str() == wanted,
        None => wanted == "-",
    }
}

fn are_next(map: &mut Texts, text: &str, wanted: [&str; 4]) -> bool {
    is_last_before(map, text, wanted[0])
        && is_last_to(map, text, wanted[1])
        && is_first_from(map, text, wanted[2])
        && is_first_after(map, text, wanted[3])
}

// A text comes after its own beginnings. Sixteen texts stand on two levels of nodes.
#[test]
fn entries_beside_a_text_are_found_by_slices(rt: HostRuntime) -> Result<(), Fail> {
    let mut map = texts(rt.alloc())?;
    assert!(rt; are_next(&mut map, "", ["-", "-", "a", "a"]));
    assert!(rt; are_next(&mut map, "a", ["-", "a", "a", "ab"]));
    assert!(rt; are_next(&mut map, "aa", ["a", "a", "ab", "ab"]));
    assert!(rt; are_next(&mut map, "d", ["c", "c", "e", "e"]));
    assert!(rt; are_next(&mut map, "word", ["o", "word", "word", "-"]));
    assert!(rt; are_next(&mut map, "words", ["word", "word", "-", "-"]));
    Ok(())
}
