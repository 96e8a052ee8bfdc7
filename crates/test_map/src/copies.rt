//! Copies of maps whose memory is refused: what they leave, and what is dropped.
use crate::map::{Drops, fresh_drops, pair};
use fc_base::{TryClone, TryReserveError};
use fc_map::map::BTreeMap;
use std::alloc::{AllocError, Global};
use std::process::Abort;
use std::test::Fail;
use test_values::{Tally, Token, is_ample};

type CountedMap<'a> = BTreeMap<Token<'a>, Token<'a>>;

// A map of as many pairs as there are lives, of the numbers from 1 on, each with itself. What came back where it was refused goes in once more.
fn counted_map<'a>(alloc: Global, all: &'a [Drops]) -> Result<CountedMap<'a>, TryReserveError> {
    let mut map = BTreeMap::new(alloc);
    for (below, lives) in all.iter().enumerate() {
        let (key, value) = pair(below.wrapping_add(1) as u64, lives);
        if let Err((key, value, _refused)) = map.try_insert(key, value) {
            map.try_insert(key, value)?;
        }
    }
    Ok(map)
}

// Whether the map has the numbers from 1 to `count`, each with itself.
fn counts_up(map: &CountedMap<'_>, count: usize) -> bool {
    let mut number = 0u64;
    for (key, value) in map {
        number = number.wrapping_add(1);
        if key.number != number || value.number != number {
            return false;
        }
    }
    number == count as u64 && map.len() == count
}

// Whether it was copied at most once, and the copy dropped once, and it itself not.
fn is_copy_dropped(lives: &Tally) -> bool {
    let copies = lives.made.get();
    copies <= 1 && lives.dropped.get() == copies
}

fn are_copies_dropped(all: &[Drops]) -> bool {
    for i in 0..all.len() {
        if !is_copy_dropped(&all[i].key) || !is_copy_dropped(&all[i].value) {
            return false;
        }
    }
    true
}

// Whether it was copied and dropped so often.
fn has_lived(lives: &Tally, copies: u64, drops: u64) -> bool {
    lives.made.get() == copies && lives.dropped.get() == drops
}

fn have_lived(all: &[Drops], copies: u64, drops: u64) -> bool {
    for i in 0..all.len() {
        if !has_lived(&all[i].key, copies, drops) || !has_lived(&all[i].value, copies, drops) {
            return false;
        }
    }
    true
}

fn forget_all(all: &[Drops]) {
    for i in 0..all.len() {
        all[i].key.forget();
        all[i].value.forget();
    }
}

// Whether a copy has the pairs of its source, each key and each value copied once and none dropped. The copy is then dropped.
fn is_copied(map: &CountedMap<'_>, all: &[Drops]) -> Result<bool, TryReserveError> {
    forget_all(all);
    let copy = map.try_clone()?;
    Ok(copy == *map && counts_up(&copy, all.len()) && have_lived(all, 1, 0))
}

// Whether the source is as it was, and all that was made is dropped.
fn is_undone(map: &CountedMap<'_>, all: &[Drops]) -> bool {
    counts_up(map, all.len()) && are_copies_dropped(all)
}

// What became of a copy.
#[derive(Clone, Copy)]
enum Fate {
    Copied,
    // And undone; where memory is there again, the map is then copied.
    Refused,
    Wrong,
}

fn fate_of(alloc: Global, map: &CountedMap<'_>, all: &[Drops]) -> Fate {
    match is_copied(map, all) {
        Ok(copied) if copied && have_lived(all, 1, 1) => Fate::Copied,
        Err(TryReserveError::AllocError)
            if is_undone(map, all) && (!is_ample(alloc) || is_copied_at_last(map, all)) => {
            Fate::Refused
        }
        _ => Fate::Wrong,
    }
}

fn is_copied_at_last(map: &CountedMap<'_>, all: &[Drops]) -> bool {
    matches!(is_copied(map, all), Ok(true)) && have_lived(all, 1, 1)
}

// Copies a map of so many pairs, whose own drops are then each counted once. Nothing where there is no memory for it.
fn copy_of(alloc: Global, count: usize) -> Option<Fate> {
    let Ok(all) = fresh_drops(alloc, count) else {
        return None;
    };
    let fate = match counted_map(alloc, &all) {
        Ok(map) => {
            let fate = fate_of(alloc, &map, &all);
            forget_all(&all);
            fate
        }
        Err(_refused) => return None,
    };
    Some(if have_lived(&all, 0, 1) {
        fate
    } else {
        Fate::Wrong
    })
}

// The sweep refuses each request in turn, of the map and of its copy, and counts the copies that were refused.
fn copies(rt: &(impl Abort + Print), alloc: Global, count: usize) -> Result<(), Fail> {
    match copy_of(alloc, count) {
        Some(Fate::Refused) => Ok(println!(rt; "refused")?),
        Some(Fate::Wrong) => {
            assert!(rt; false);
            Ok(())
        }
        Some(Fate::Copied) => Ok(()),
        None => {
            assert!(rt; !is_ample(alloc));
            Ok(())
        }
    }
}

// The map has three levels.
#[test]
fn a_refused_copy_is_dropped_and_leaves_its_source(rt: HostRuntime) -> Result<(), Fail> {
    copies(&rt, rt.alloc(), 170)
}

// Ten leaves below a root.
#[test]
fn a_refused_copy_of_89_pairs_is_dropped(rt: HostRuntime) -> Result<(), Fail> {
    copies(&rt, rt.alloc(), 89)
}
