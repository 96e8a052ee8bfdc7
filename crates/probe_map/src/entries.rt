//! Entries: what a search found is written or filled.
use crate::Map;
use crate::answer::{Answer, DONE, UNKNOWN, handed_back, refused};
use fc_base::TryReserveError;
use probe_rows::items::{Item, World};
use probe_rows::row::Row;
use test_values::add_one;

pub(crate) fn run<'a>(map: &mut Map<'a>, world: World<'a>, row: &Row) -> Answer {
    let number = row.number(0);
    match row.place {
        0 => tally(map, world, number),
        1 => modify(map, world, number),
        2 => or_with(map, world, number, row.number(1)),
        3 => entry_dropped(map, world, number),
        _ => UNKNOWN,
    }
}

fn value_of<'a>(lent: Result<&mut Item<'a>, (Item<'a>, Item<'a>, TryReserveError)>) -> Answer {
    match lent {
        Ok(value) => Answer::Number(value.counted.number),
        Err(back) => handed_back(back),
    }
}

// One more than the value, which is 0 where there is none.
fn tally<'a>(map: &mut Map<'a>, world: World<'a>, number: u64) -> Answer {
    let entry = match map.try_entry(world.key(number, 0)) {
        Ok(entry) => entry,
        Err(e) => return refused(e),
    };
    match entry.or_try_insert(world.value(number, 0)) {
        Ok(value) => {
            value.counted.number = value.counted.number.wrapping_add(1);
            Answer::Number(value.counted.number)
        }
        Err(back) => handed_back(back),
    }
}

// One more where there is a value, and else 42.
fn modify<'a>(map: &mut Map<'a>, world: World<'a>, number: u64) -> Answer {
    match map.try_entry(world.key(number, 0)) {
        Ok(entry) => value_of(
            entry
                .and_modify(|value| value.counted.number = value.counted.number.wrapping_add(1))
                .or_try_insert(world.value(number, 42)),
        ),
        Err(e) => refused(e),
    }
}

// The value that is there, or else that of a closure whose calls are counted.
fn or_with<'a>(map: &mut Map<'a>, world: World<'a>, number: u64, new: u64) -> Answer {
    match map.try_entry(world.key(number, 0)) {
        Ok(entry) => value_of(entry.or_try_insert_with(|| {
            add_one(&world.counts.calls);
            world.value(number, new)
        })),
        Err(e) => refused(e),
    }
}

fn entry_dropped<'a>(map: &mut Map<'a>, world: World<'a>, number: u64) -> Answer {
    match map.try_entry(world.key(number, 0)) {
        Ok(entry) => {
            drop(entry);
            DONE
        }
        Err(e) => refused(e),
    }
}
