//! Calls at one key, and at the ends.
use crate::Map;
use crate::alike::{look_ups_are_alike, number_of};
use crate::answer::{Answer, NONE, UNKNOWN, handed_back, number_or_none, whether};
use fc_base::TryReserveError;
use probe_rows::items::{Item, Number, World};
use probe_rows::row::Row;

pub(crate) fn run<'a>(map: &mut Map<'a>, world: World<'a>, row: &Row) -> Answer {
    let number = row.number(0);
    match row.place {
        0 => put(map, world, number, row.number(1), row.number(2)),
        1 => number_or_none(number_of(map.get(&world.sought(number)))),
        2 => pair_of(map.get_key_value(&world.sought(number))),
        3 => index(map, &world.sought(number)),
        4 => set(map, &world.sought(number), row.number(1)),
        5 => number_or_none(remove(map, world, number)),
        6 => whether(remove(map, world, number) == Some(number.wrapping_mul(10))),
        13 => whether(look_ups_are_alike(map, world, number)),
        place => by_query_or_end(map, place, number),
    }
}

fn by_query_or_end(map: &mut Map<'_>, place: usize, number: u64) -> Answer {
    match place {
        7 => number_or_none(number_of(map.get(Number(number)))),
        8 => number_or_none(number_of(map.remove(Number(number)).as_ref())),
        9 => pair_of(map.first_key_value()),
        10 => pair_of(map.last_key_value()),
        11 => owned_pair(map.pop_first()),
        12 => owned_pair(map.pop_last()),
        _ => UNKNOWN,
    }
}

/// Inserts a pair: the number of the value that was there.
pub(crate) fn insert<'a>(
    map: &mut Map<'a>,
    world: World<'a>,
    number: u64,
    value: u64,
    tag: u64,
) -> Result<Option<u64>, TryReserveError> {
    let old = map.try_insert(world.key(number, tag), world.value(number, value))?;
    Ok(number_of(old.as_ref()))
}

// Inserts a pair: the number of the value that was there, or the pair itself, where it was refused.
fn put<'a>(map: &mut Map<'a>, world: World<'a>, number: u64, value: u64, tag: u64) -> Answer {
    match map.try_insert(world.key(number, tag), world.value(number, value)) {
        Ok(old) => number_or_none(number_of(old.as_ref())),
        Err(back) => handed_back(back),
    }
}

fn remove<'a>(map: &mut Map<'a>, world: World<'a>, number: u64) -> Option<u64> {
    number_of(map.remove(&world.sought(number)).as_ref())
}

fn index<'a>(map: &Map<'a>, key: &Item<'a>) -> Answer {
    if map.contains_key(key) {
        Answer::Number(map[key].counted.number)
    } else {
        NONE
    }
}

// Writes over the value, and answers the old one.
fn set<'a>(map: &mut Map<'a>, key: &Item<'a>, new: u64) -> Answer {
    match map.get_mut(key) {
        Some(value) => {
            let old = value.counted.number;
            value.counted.number = new;
            Answer::Number(old)
        }
        None => NONE,
    }
}

fn pair_of(found: Option<(&Item<'_>, &Item<'_>)>) -> Answer {
    match found {
        Some((key, value)) => Answer::Pair([key.counted.number, key.tag, value.counted.number]),
        None => NONE,
    }
}

fn owned_pair(found: Option<(Item<'_>, Item<'_>)>) -> Answer {
    match &found {
        Some((key, value)) => pair_of(Some((key, value))),
        None => NONE,
    }
}
