//! Jobs over ordered sets.
use super::{mark, mixed};
use fc_set::set::BTreeSet;
use std::alloc::Global;

type Numbers = BTreeSet<u64>;

// Adds each item; `None` where memory was refused.
fn add_all(set: &mut Numbers, items: &[u64]) -> Option<u64> {
    let mut checksum = 0;
    for item in items {
        match set.try_insert(*item) {
            Ok(is_new) => checksum = mixed(checksum, Some(u64::from(is_new))),
            Err(_) => return None,
        }
    }
    Some(checksum)
}

fn find_all(set: &Numbers, items: &[u64], start: u64) -> u64 {
    let mut checksum = start;
    for item in items {
        checksum = mixed(checksum, Some(u64::from(set.contains(item))));
    }
    checksum
}

fn get_all(set: &Numbers, items: &[u64], start: u64) -> u64 {
    let mut checksum = start;
    for item in items {
        checksum = mixed(checksum, set.get(item).copied());
    }
    checksum
}

// Replaces each item; `None` where memory was refused.
fn replace_all(set: &mut Numbers, items: &[u64], start: u64) -> Option<u64> {
    let mut checksum = start;
    for item in items {
        match set.replace(*item) {
            Ok(old) => checksum = mixed(checksum, old),
            Err(_) => return None,
        }
    }
    Some(checksum)
}

fn take_all(set: &mut Numbers, items: &[u64], start: u64) -> u64 {
    let mut checksum = start;
    for item in items {
        checksum = mixed(checksum, set.take(item));
    }
    checksum
}

fn remove_all(set: &mut Numbers, items: &[u64], start: u64) -> u64 {
    let mut checksum = start;
    for item in items {
        checksum = mixed(checksum, Some(u64::from(set.remove(item))));
    }
    checksum
}

/// Adds `items` to a new set, looks `sought` up by `contains`, then by `get`, replaces `items`, takes `taken` out and removes `removed`. Each of
/// the six is a phase. The checksum of all answers goes to `checksum`. False where memory was refused.
#[unsafe(no_mangle)]
pub extern "C" fn bench_set_run(
    alloc: Global,
    items: &[u64],
    sought: &[u64],
    taken: &[u64],
    removed: &[u64],
    checksum: &mut u64,
) -> bool {
    let mut set = BTreeSet::new(alloc);
    let started = mark(alloc);
    let Some(added) = add_all(&mut set, items) else {
        return false;
    };
    let filled = mark(alloc);
    let found = find_all(&set, sought, added);
    let searched = mark(alloc);
    let got = get_all(&set, sought, found);
    let read = mark(alloc);
    let Some(replaced) = replace_all(&mut set, items, got) else {
        return false;
    };
    let renewed = mark(alloc);
    let thinned = take_all(&mut set, taken, replaced);
    let halved = mark(alloc);
    *checksum = remove_all(&mut set, removed, thinned);
    let emptied = mark(alloc);
    started && filled && searched && read && renewed && halved && emptied
}

fn walk_all(set: &Numbers, start: u64) -> u64 {
    let mut checksum = start;
    for item in set {
        checksum = mixed(checksum, Some(*item));
    }
    checksum
}

fn walk_difference(set: &Numbers, other: &Numbers, start: u64) -> u64 {
    let mut checksum = start;
    let mut walk = set.difference(other);
    for _ in 0..u64::MAX {
        let Some(item) = walk.next() else { break };
        checksum = mixed(checksum, Some(*item));
    }
    checksum
}

fn walk_symmetric_difference(set: &Numbers, other: &Numbers, start: u64) -> u64 {
    let mut checksum = start;
    let mut walk = set.symmetric_difference(other);
    for _ in 0..u64::MAX {
        let Some(item) = walk.next() else { break };
        checksum = mixed(checksum, Some(*item));
    }
    checksum
}

fn walk_intersection(set: &Numbers, other: &Numbers, start: u64) -> u64 {
    let mut checksum = start;
    let mut walk = set.intersection(other);
    for _ in 0..u64::MAX {
        let Some(item) = walk.next() else { break };
        checksum = mixed(checksum, Some(*item));
    }
    checksum
}

fn walk_union(set: &Numbers, other: &Numbers, start: u64) -> u64 {
    let mut checksum = start;
    let mut walk = set.union(other);
    for _ in 0..u64::MAX {
        let Some(item) = walk.next() else { break };
        checksum = mixed(checksum, Some(*item));
    }
    checksum
}

// A set that an operator makes of both, and how many items it has; `None` where memory was refused.
fn build(set: &Numbers, other: &Numbers, way: u64, start: u64) -> Option<u64> {
    let made = match way {
        5 => set.bitor(other),
        6 => set.sub(other),
        7 => set.bitxor(other),
        _ => set.bitand(other),
    };
    let Ok(made) = made else {
        return None;
    };
    Some(mixed(start, Some(made.len() as u64)))
}

// One walk, or one set built.
fn walk(set: &Numbers, other: &Numbers, way: u64, start: u64) -> Option<u64> {
    match way {
        0 => Some(walk_all(set, start)),
        1 => Some(walk_difference(set, other, start)),
        2 => Some(walk_symmetric_difference(set, other, start)),
        3 => Some(walk_intersection(set, other, start)),
        4 => Some(walk_union(set, other, start)),
        _ => build(set, other, way, start),
    }
}

/// Makes a set of `items` and one of `others`, and walks as often as `times` says: 0 over all items of the first, 1 over the difference, 2
/// over the symmetric difference, 3 over the intersection, 4 over the union; 5 builds the union as a set, 6 the difference, 7 the symmetric
/// difference, 8 the intersection. All together are a phase. The checksum of what was seen goes to `checksum`. False where memory was refused.
#[unsafe(no_mangle)]
pub extern "C" fn bench_set_walk(
    alloc: Global,
    items: &[u64],
    others: &[u64],
    way: u64,
    times: u64,
    checksum: &mut u64,
) -> bool {
    let (mut set, mut other) = (BTreeSet::new(alloc), BTreeSet::new(alloc));
    let Some(mut seen) = add_all(&mut set, items) else {
        return false;
    };
    if add_all(&mut other, others).is_none() {
        return false;
    }
    let started = mark(alloc);
    for _ in 0..times {
        match walk(&set, &other, way, seen) {
            Some(next) => seen = next,
            None => return false,
        }
    }
    let walked = mark(alloc);
    *checksum = seen;
    started && walked
}
