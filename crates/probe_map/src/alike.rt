//! Calls that answer alike and make as many comparisons.
use crate::Map;
use crate::answer::{Answer, whether};
use crate::pairs::insert;
use fc_base::{Count, TryReserveError};
use probe_rows::items::{Item, World};

/// What a call found, and how many comparisons it made.
#[derive(Clone, Copy)]
struct Seen {
    found: Option<u64>,
    made: u64,
}

// The comparisons since the last call are forgotten.
fn is_alike(world: World<'_>, found: Option<u64>, expected: Seen) -> bool {
    world.counts.comparisons.replace(0) == expected.made && found == expected.found
}

pub(crate) fn number_of(value: Option<&Item<'_>>) -> Option<u64> {
    match value {
        Some(value) => Some(value.counted.number),
        None => None,
    }
}

fn number_of_pair(pair: Option<(&Item<'_>, &Item<'_>)>) -> Option<u64> {
    match pair {
        Some((_key, value)) => Some(value.counted.number),
        None => None,
    }
}

fn look_up<'a>(map: &Map<'a>, world: World<'a>, key: &Item<'a>) -> Seen {
    world.counts.comparisons.set(0);
    let found = number_of(map.get(key));
    Seen {
        found,
        made: world.counts.comparisons.replace(0),
    }
}

/// Whether all calls that look for a key or its value answer alike.
pub(crate) fn look_ups_are_alike<'a>(map: &Map<'a>, world: World<'a>, number: u64) -> bool {
    let key = world.sought(number);
    let expected = look_up(map, world, &key);
    finds_alike(map, world, &key, expected) && is_there_alike(map, world, &key, expected)
}

fn finds_alike<'a>(map: &Map<'a>, world: World<'a>, key: &Item<'a>, expected: Seen) -> bool {
    let mut count = Count::new();
    let counted = number_of(map.get_counted(key, &mut count));
    if !is_alike(world, counted, expected) {
        return false;
    }
    let pair = number_of_pair(map.get_key_value(key));
    if !is_alike(world, pair, expected) {
        return false;
    }
    let counted_pair = number_of_pair(map.get_key_value_counted(key, &mut count));
    is_alike(world, counted_pair, expected)
}

fn is_there_alike<'a>(map: &Map<'a>, world: World<'a>, key: &Item<'a>, expected: Seen) -> bool {
    let comparisons = &world.counts.comparisons;
    let is_there = map.contains_key(key);
    let made = comparisons.replace(0);
    let is_counted_there = map.contains_key_counted(key, &mut Count::new());
    is_there == expected.found.is_some()
        && is_counted_there == is_there
        && made == expected.made
        && comparisons.get() == made
}

fn remove_alike<'a>(
    map: &mut Map<'a>,
    other: &mut Map<'a>,
    world: World<'a>,
    key: &Item<'a>,
    expected: Seen,
) -> bool {
    let plain = number_of(map.remove(key).as_ref());
    let is_plain_alike = is_alike(world, plain, expected);
    let counted = number_of(other.remove_counted(key, &mut Count::new()).as_ref());
    is_plain_alike && is_alike(world, counted, expected)
}

fn insert_counted<'a>(
    map: &mut Map<'a>,
    world: World<'a>,
    number: u64,
    value: u64,
) -> Result<Option<u64>, TryReserveError> {
    let (key, value) = (world.key(number, 0), world.value(number, value));
    let old = map.try_insert_counted(key, value, &mut Count::new())?;
    Ok(number_of(old.as_ref()))
}

fn is_inserted_alike(
    world: World<'_>,
    old: Result<Option<u64>, TryReserveError>,
    expected: Seen,
) -> bool {
    match old {
        Ok(found) => is_alike(world, found, expected),
        Err(_refused) => false,
    }
}

fn next_random(world: World<'_>) -> u64 {
    let random = world
        .counts
        .random
        .get()
        .wrapping_mul(6364136223846793005)
        .wrapping_add(1442695040888963407);
    world.counts.random.set(random);
    random
}

/// One step of a random run on two like maps, by the plain and the counted call: whether both answer as a look-up and make as many
/// comparisons. So many steps of ten are removals.
pub(crate) fn step<'a>(
    map: &mut Map<'a>,
    other: &mut Map<'a>,
    world: World<'a>,
    removals: u64,
) -> Answer {
    let random = next_random(world);
    let number = (random >> 33) % 300;
    let key = world.sought(number);
    let expected = look_up(map, world, &key);
    let are_alike = if (random >> 20) % 10 < removals {
        remove_alike(map, other, world, &key, expected)
    } else {
        let plain = insert(map, world, number, random, 0);
        is_inserted_alike(world, plain, expected)
            && is_inserted_alike(
                world,
                insert_counted(other, world, number, random),
                expected,
            )
    };
    whether(are_alike && map.len() == other.len())
}
