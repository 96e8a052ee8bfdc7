//! The texts of hashed maps by `{:?}`.
use fc_base::TryReserveError;
use fc_hash::TryHashMap;
use std::alloc::{AllocError, Global};
use std::test::Fail;

// The numbers from `start` to below `end`, each with 700 more as its value.
fn raised(alloc: Global, start: u64, end: u64) -> Result<TryHashMap<u64, u64>, TryReserveError> {
    let mut map = TryHashMap::default(alloc);
    for key in start..end {
        map.insert(key, key.wrapping_add(700))?;
    }
    Ok(map)
}

fn printed(alloc: Global, map: &TryHashMap<u64, u64>) -> Result<String, AllocError> {
    format!(in alloc; "{map:?}")
}

fn prints(alloc: Global, start: u64, end: u64, wanted: &str) -> Result<bool, TryReserveError> {
    let map = raised(alloc, start, end)?;
    Ok(printed(alloc, &map)?.as_str() == wanted)
}

#[test]
fn a_short_map_prints_its_pairs(rt: HostRuntime) -> Result<(), Fail> {
    assert!(rt; prints(rt.alloc(), 5, 5, "{}")?);
    assert!(rt; prints(rt.alloc(), 5, 6, "{5: 705}")?);
    Ok(())
}

// The pairs come in an order that is left open, each of eight bytes, with two bytes between two pairs, and the braces. So a text of that
// length in which each pair stands has nothing else.
#[test]
fn a_long_map_prints_each_pair_once(rt: HostRuntime) -> Result<(), Fail> {
    let text = printed(rt.alloc(), &raised(rt.alloc(), 100, 200)?)?;
    let text = text.as_str();
    assert!(rt; text.len() == 100 * 8 + 99 * 2 + 2);
    assert!(rt; text.starts_with("{1") && text.ends_with("}"));
    for key in 100..200u64 {
        let value = key.wrapping_add(700);
        let pair = format!(in rt.alloc(); "{key}: {value}")?;
        assert!(rt; text.contains(pair.as_str()));
    }
    Ok(())
}
