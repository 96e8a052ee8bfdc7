use callers_in_pages::count_word;
use fallible_collections::btree::BTreeMap;
use fallible_collections::{TryReserveError, TryVec};
use std::alloc::{AllocError, Global};
use std::test::Fail;

// The most pairs of a map that is one leaf.
const LEAF: u64 = 15;

// Takes blocks of this size, until one is refused.
fn take_all(alloc: Global, size: usize, held: &mut Vec<Vec<u8>>) {
    for _ in 0..20_000 {
        let Ok(block) = Vec::with_capacity(alloc, size) else {
            return;
        };
        if held.push(block).is_err() {
            return;
        }
    }
}

// Takes all memory that the allocator gives, in ever smaller blocks. No block is written, so the machine has as much as before.
fn all_memory(alloc: Global) -> Result<Vec<Vec<u8>>, AllocError> {
    let mut held = Vec::with_capacity(alloc, 60_000)?;
    let mut size = 1 << 46;
    for _ in 0..44 {
        take_all(alloc, size, &mut held);
        size /= 2;
    }
    take_all(alloc, 24, &mut held);
    Ok(held)
}

#[test]
fn an_insertion_without_memory_leaves_the_map_not_in_a_trial(rt: HostRuntime) -> Result<(), Fail> {
    let mut map = BTreeMap::new(rt.alloc());
    for key in 0..LEAF {
        map.try_insert(key, key)?;
    }
    let held = all_memory(rt.alloc())?;
    assert!(rt; Vec::<u8>::with_capacity(rt.alloc(), 24).is_err()); // else nothing is shown below, as by `rt try`
    assert!(rt;
        matches!(
            map.try_insert(LEAF, 16),
            Err((LEAF, 16, TryReserveError::AllocError))
        )
    );
    assert!(rt; map.len() as u64 == LEAF && map.get(&LEAF).is_none());
    drop(held);
    assert!(rt; matches!(map.try_insert(LEAF, 16), Ok(None)));
    Ok(())
}

#[test]
fn a_refused_word_comes_back_and_is_counted_once_there_is_room_not_in_a_trial(
    rt: HostRuntime,
) -> Result<(), Fail> {
    let mut counts = BTreeMap::new(rt.alloc());
    let mut set_aside = TryVec::with_capacity(rt.alloc(), 65_536)?;
    let one_text = Vec::<u8>::with_capacity(rt.alloc(), 24)?;
    let held = all_memory(rt.alloc())?;
    assert!(rt; Vec::<u8>::with_capacity(rt.alloc(), 24).is_err());
    drop(one_text); // room for the word, and for no place in the map
    assert!(rt; count_word(&mut counts, &mut set_aside, rt.alloc(), "tea").is_ok());
    assert!(rt; counts.get("tea").copied() == Some(1));
    drop(held);
    Ok(())
}

// Under the sweep each of its requests is refused in turn.
#[test]
fn each_word_is_counted_or_the_counts_stay(rt: HostRuntime) -> Result<(), Fail> {
    let mut counts = BTreeMap::new(rt.alloc());
    let mut set_aside = TryVec::new(rt.alloc());
    for word in [
        "a", "b", "c", "d", "e", "f", "g", "h", "i", "j", "k", "l", "m", "n", "o", "p",
    ] {
        let before = counts.len();
        let is_counted = count_word(&mut counts, &mut set_aside, rt.alloc(), word).is_ok();
        assert!(rt; (counts.len() > before) == is_counted);
    }
    Ok(())
}

#[test]
fn a_request_of_too_many_bytes_is_refused(rt: HostRuntime) -> Result<(), Fail> {
    assert!(rt; TryVec::<u64>::with_capacity(rt.alloc(), usize::MAX).is_err());
    Ok(())
}
