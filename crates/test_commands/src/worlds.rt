//! A world of numbers, and what tests see of it: by commands alone, for maps and for sets alike.
use fc_command::command::{Command, Reply, Side, World};
use std::alloc::Global;

/// One step, of which the tests know only what they see of its reply.
pub(crate) fn step(world: &mut World<u64, u64>, command: Command<u64, u64>) -> Reply<u64, u64> {
    world.step(command)
}

/// What the numbers are in: the maps, each with its tenfold, or the sets.
#[derive(Clone, Copy)]
pub(crate) enum Kind {
    Maps,
    Sets,
}

fn tenfold(number: u64) -> u64 {
    number.wrapping_mul(10)
}

fn put(kind: Kind, side: Side, number: u64) -> Command<u64, u64> {
    match kind {
        Kind::Maps => Command::Insert(side, number, tenfold(number)),
        Kind::Sets => Command::AddItem(side, number),
    }
}

fn look_up(kind: Kind, side: Side, number: u64) -> Command<u64, u64> {
    match kind {
        Kind::Maps => Command::Get(side, number),
        Kind::Sets => Command::ContainsItem(side, number),
    }
}

fn is_put(reply: &Reply<u64, u64>) -> bool {
    matches!(reply, Reply::Value(None) | Reply::Flag(true))
}

fn is_absent(reply: &Reply<u64, u64>) -> bool {
    matches!(reply, Reply::Value(None) | Reply::Flag(false))
}

fn is_there(reply: &Reply<u64, u64>, value: u64) -> bool {
    match reply {
        Reply::Value(Some(found)) => *found == value,
        Reply::Flag(found) => *found,
        _ => false,
    }
}

pub(crate) fn is_len(reply: &Reply<u64, u64>, wanted: usize) -> bool {
    matches!(reply, Reply::Len(len) if *len == wanted)
}

/// Whether the number is new and is put in, by a second command where the first is refused.
pub(crate) fn puts(world: &mut World<u64, u64>, kind: Kind, side: Side, number: u64) -> bool {
    is_put(&step(world, put(kind, side, number))) || is_put(&step(world, put(kind, side, number)))
}

/// Whether the number is there, in a map with that value.
pub(crate) fn has_value(
    world: &mut World<u64, u64>,
    kind: Kind,
    side: Side,
    number: u64,
    value: u64,
) -> bool {
    is_there(&step(world, look_up(kind, side, number)), value)
}

pub(crate) fn has(world: &mut World<u64, u64>, kind: Kind, side: Side, number: u64) -> bool {
    has_value(world, kind, side, number, tenfold(number))
}

pub(crate) fn lacks(world: &mut World<u64, u64>, kind: Kind, side: Side, number: u64) -> bool {
    is_absent(&step(world, look_up(kind, side, number)))
}

pub(crate) fn counts(world: &mut World<u64, u64>, kind: Kind, side: Side, wanted: usize) -> bool {
    let count = match kind {
        Kind::Maps => Command::Len(side),
        Kind::Sets => Command::SetLen(side),
    };
    is_len(&step(world, count), wanted)
}

/// Puts the numbers in; whether all were new and none was refused.
pub(crate) fn puts_all(
    world: &mut World<u64, u64>,
    kind: Kind,
    side: Side,
    numbers: &[u64],
) -> bool {
    for number in numbers {
        if !puts(world, kind, side, *number) {
            return false;
        }
    }
    true
}

/// Whether these numbers are there and no other.
pub(crate) fn has_just(
    world: &mut World<u64, u64>,
    kind: Kind,
    side: Side,
    numbers: &[u64],
) -> bool {
    for number in numbers {
        if !has(world, kind, side, *number) {
            return false;
        }
    }
    counts(world, kind, side, numbers.len())
}

/// Whether both sides have just these numbers.
pub(crate) fn holds(
    world: &mut World<u64, u64>,
    kind: Kind,
    first: &[u64],
    second: &[u64],
) -> bool {
    has_just(world, kind, Side::First, first) && has_just(world, kind, Side::Second, second)
}

fn side_of(number: u64) -> Side {
    if number % 2 == 0 {
        Side::First
    } else {
        Side::Second
    }
}

/// How many numbers a divided world has, in two halves: so many that either half, extended by all of them, gets a third level.
pub(crate) const NUMBERS: u64 = 170;

pub(crate) const HALF: usize = 85;

/// The numbers of a divided world, the even ones on the first side and the odd ones on the second; or nothing, where one was refused.
pub(crate) fn divided(alloc: Global, kind: Kind) -> Option<World<u64, u64>> {
    let mut world = World::new(alloc);
    for number in 0..NUMBERS {
        if !puts(&mut world, kind, side_of(number), number) {
            return None;
        }
    }
    Some(world)
}

pub(crate) fn is_divided(world: &mut World<u64, u64>, kind: Kind) -> bool {
    for number in 0..NUMBERS {
        if !has(world, kind, side_of(number), number) {
            return false;
        }
    }
    counts(world, kind, Side::First, HALF) && counts(world, kind, Side::Second, HALF)
}
