//! Pairs that stay by a random rule, those that are taken out, and insertions by room that was taken before, against plain arithmetic.
use crate::Map;
use crate::alike::number_of;
use crate::answer::{Answer, UNKNOWN, refused, whether};
use crate::walks::is_pair;
use crate::whole::is_fresh;
use fc_base::TryReserveError;
use fc_map::map::Reservation;
use probe_rows::items::{Item, Number, World};
use probe_rows::row::Row;
use probe_rows::stretch::{Stretch, stretch_in};
use std::cell::Cell;

/// Which numbers stay: so many of ten, at random by the salt, and each so many in a row alike.
#[derive(Clone, Copy)]
struct Rule {
    tenths: u64,
    run: u64,
    salt: u64,
}

pub(crate) fn run<'a>(map: &mut Map<'a>, world: World<'a>, row: &Row) -> Answer {
    let all = stretch_in(row, 0);
    let rule = Rule {
        tenths: row.number(3),
        run: row.number(4),
        salt: row.number(5),
    };
    match row.place {
        0 => whether(is_made(map, world, all, rule.salt) && retains(map, world, all, rule)),
        1 => whether(is_made(map, world, all, rule.salt) && extracts(map, world, all, rule)),
        2 => match puts_reserved(map, world, all, row.number(3), row.number(4)) {
            Ok(is_right) => whether(is_right),
            Err(e) => refused(e),
        },
        _ => UNKNOWN,
    }
}

// Whether a new map is made of the numbers, which come in ascending order where the salt is even, and else in descending order.
fn is_made<'a>(map: &mut Map<'a>, world: World<'a>, all: Stretch, salt: u64) -> bool {
    let back = Stretch {
        first: all.end(false),
        count: all.count,
        distance: 0u64.wrapping_sub(all.distance),
    };
    let is_made = is_fresh(map, world, if salt % 2 == 0 { all } else { back });
    world.forget();
    is_made
}

fn stays(rule: Rule, number: u64) -> bool {
    let place = if rule.run == 0 {
        number
    } else {
        number / rule.run
    };
    let mixed = place
        .wrapping_add(rule.salt.wrapping_mul(6364136223846793005))
        .wrapping_mul(11400714819323198485);
    let random = (mixed ^ (mixed >> 29)).wrapping_mul(13787848793156543929);
    (random >> 33) % 10 < rule.tenths
}

// Whether the map has the numbers that stay and nothing else, each with one more than its tenfold, where it is looked up too; and whether the others
// were dropped once.
fn has_those(map: &Map<'_>, world: World<'_>, all: Stretch, rule: Rule) -> bool {
    let mut walk = map.iter();
    let mut count = 0u64;
    for place in 0..all.count {
        let number = all.number(place);
        let found = number_of(map.get(Number(number)));
        if stays(rule, number) {
            let value = number.wrapping_mul(10).wrapping_add(1);
            if !is_pair(walk.next(), number, 1) || found != Some(value) {
                return false;
            }
            count = count.wrapping_add(1);
        } else if found.is_some() {
            return false;
        }
        if !world.were_dropped(number, 1, u64::from(!stays(rule, number))) {
            return false;
        }
    }
    walk.next().is_none() && map.len() as u64 == count
}

// Whether each pair is asked of once, in order, with no comparison, and those are left that are to stay.
fn retains<'a>(map: &mut Map<'a>, world: World<'a>, all: Stretch, rule: Rule) -> bool {
    let mut place = 0u64;
    let mut right = true;
    map.retain(|key, value| {
        right = right && is_pair(Some((key, &*value)), all.number(place), 0);
        place = place.wrapping_add(1);
        value.counted.number = value.counted.number.wrapping_add(1);
        stays(rule, key.counted.number)
    });
    right
        && place == all.count
        && world.counts.comparisons.get() == 0
        && has_those(map, world, all, rule)
}

// The same, where each pair that does not stay is handed on before the next one is asked of.
fn extracts<'a>(map: &mut Map<'a>, world: World<'a>, all: Stretch, rule: Rule) -> bool {
    let asked = Cell::new(0u64);
    let handed = Cell::new(0u64);
    let right = Cell::new(true);
    map.extract_if(
        |key, value| {
            let number = all.number(asked.get());
            right.set(right.get() && is_pair(Some((key, &*value)), number, 0));
            asked.set(asked.get().wrapping_add(1));
            value.counted.number = value.counted.number.wrapping_add(1);
            !stays(rule, number)
        },
        |key, value| {
            let number = all.number(asked.get().wrapping_sub(1));
            right.set(
                right.get() && is_pair(Some((&key, &value)), number, 1) && !stays(rule, number),
            );
            handed.set(handed.get().wrapping_add(1));
        },
    );
    right.get()
        && asked.get() == all.count
        && handed.get().wrapping_add(map.len() as u64) == all.count
        && world.counts.comparisons.get() == 0
        && has_those(map, world, all, rule)
}

// Puts the number in with its tenfold by the room, where it serves the map: whether it did, and the number was new or not, as told.
fn puts<'a>(
    map: &mut Map<'a>,
    reservation: &mut Reservation<Item<'a>, Item<'a>>,
    world: World<'a>,
    number: u64,
    is_new: bool,
) -> bool {
    if reservation.places() == 0 || map.len() >= reservation.pairs() {
        return false;
    }
    let places = reservation.places();
    let value = number.wrapping_mul(10);
    let old = map.insert_reserved(
        reservation,
        world.key(number, 0),
        world.value(number, value),
    );
    let used = usize::from(is_new);
    number_of(old.as_ref()) == if is_new { None } else { Some(value) }
        && reservation.places().wrapping_add(used) == places
}

// Whether room for so many new numbers, each one more than one of the numbers or of those after them, serves them in an order that jumps by the
// factor, and the numbers that are there beside them.
fn puts_reserved<'a>(
    map: &mut Map<'a>,
    world: World<'a>,
    all: Stretch,
    count: u64,
    factor: u64,
) -> Result<bool, TryReserveError> {
    let is_made = is_made(map, world, all, factor);
    let mut reservation = map.try_reserve_nodes(count as usize)?;
    let mut right = is_made && reservation.places() as u64 == count;
    for turn in 0..count {
        let place = turn.wrapping_mul(factor) % count;
        if place < all.count {
            right = right && puts(map, &mut reservation, world, all.number(place), false);
        }
        right = right
            && puts(
                map,
                &mut reservation,
                world,
                all.number(place).wrapping_add(1),
                true,
            );
    }
    Ok(
        right
            && reservation.places() == 0
            && reservation.pairs() == map.len()
            && has_both(map, all, count),
    )
}

// Whether the map has the numbers, and one more than each of so many from the first on.
fn has_both(map: &Map<'_>, all: Stretch, count: u64) -> bool {
    let mut walk = map.iter();
    for place in 0..all.count.max(count) {
        let number = all.number(place);
        if place < all.count && !is_pair(walk.next(), number, 0) {
            return false;
        }
        let next = number.wrapping_add(1);
        if place < count && !is_pair(walk.next(), next, 0) {
            return false;
        }
    }
    walk.next().is_none()
}
