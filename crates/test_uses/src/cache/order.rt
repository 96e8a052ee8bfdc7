//! Calls one after another, beside a plain list of the entries in the order of use.
use fc_cache::Cache;
use std::alloc::{AllocError, Global};
use std::test::Fail;

// The entries from the least to the most lately used: key, value and cost.
type Row = Vec<(u64, u64, usize)>;

// The next of a row of numbers that look as if drawn at random.
fn next(state: u64) -> u64 {
    state
        .wrapping_mul(6364136223846793005)
        .wrapping_add(1442695040888963407)
}

fn cost_of(row: &Row) -> usize {
    let mut sum = 0usize;
    for (_key, _value, cost) in row {
        sum = sum.wrapping_add(*cost);
    }
    sum
}

// Takes the entry at a key out of the row.
fn take(row: &mut Row, key: u64) -> Option<(u64, u64, usize)> {
    let place = row.iter().position(|entry| entry.0 == key)?;
    Some(row.remove(place))
}

// Takes entries out, from the least lately used on, until a cost fits beside the others.
fn make_room(row: &mut Row, cost: usize, budget: usize) {
    for _ in 0..row.len() {
        if row.is_empty() || cost_of(row).wrapping_add(cost) <= budget {
            return;
        }
        let _oldest = row.remove(0);
    }
}

fn put(row: &mut Row, key: u64, value: u64, cost: usize, budget: usize) -> Result<(), AllocError> {
    let _old = take(row, key);
    make_room(row, cost, budget);
    row.push((key, value, cost))?;
    Ok(())
}

// One call that a number tells, on the cache and on the row. Whether they answer alike.
fn change(cache: &mut Cache<u64, u64>, row: &mut Row, drawn: u64) -> Result<bool, AllocError> {
    let key = (drawn >> 33) % 12;
    match drawn >> 61 {
        0 => Ok(cache.remove(&key) == take(row, key).map(|entry| entry.1)),
        1 | 2 => {
            let answer = cache.get(&key).copied();
            match take(row, key) {
                Some(entry) => {
                    row.push(entry)?;
                    Ok(answer == Some(entry.1))
                }
                None => Ok(answer.is_none()),
            }
        }
        _ => {
            let cost = ((drawn >> 40) % 20) as usize;
            put(row, key, drawn, cost, cache.budget())?;
            Ok(cache.try_put(key, drawn, cost).is_ok())
        }
    }
}

// Whether cache and row answer alike after each of so many calls, and the cache then gives the entries in the order of the row.
fn follows(alloc: Global, seed: u64, changes: u64) -> Result<bool, AllocError> {
    let mut cache = Cache::new(alloc, 50);
    let mut row = Vec::new(alloc);
    let mut drawn = seed;
    for _ in 0..changes {
        drawn = next(drawn);
        if !change(&mut cache, &mut row, drawn)? {
            return Ok(false);
        }
        if cache.used() != cost_of(&row) || cache.len() != row.len() || 50 < cache.used() {
            return Ok(false);
        }
    }
    Ok(gives_row(&mut cache, &row))
}

fn gives_row(cache: &mut Cache<u64, u64>, row: &Row) -> bool {
    for (key, value, _cost) in row {
        if cache.pop_oldest() != Some((*key, *value)) {
            return false;
        }
    }
    cache.pop_oldest().is_none()
}

#[test]
fn follows_a_row_in_the_order_of_use(rt: HostRuntime) -> Result<(), Fail> {
    for changes in 0..100u64 {
        assert!(rt; follows(rt.alloc(), changes, changes)?);
    }
    Ok(())
}
