//! What refused commands leave of a world: the sweep refuses each request of these tests in turn. What they begin with is put in by a second command where
//! the first is refused, so that it is lacking only where there is no memory.
use crate::worlds::{
    HALF, Kind, NUMBERS, counts, divided, has_value, holds, is_divided, lacks, puts, puts_all, step,
};
use fc_base::TryReserveError;
use fc_command::command::{Command, Items, Reply, SetOp, Side, World};
use std::alloc::{AllocError, Global};
use test_values::is_ample;

// What became of a command that is done or refused.
#[derive(Clone, Copy)]
enum Fate {
    Carried,
    Refused,
    Wrong,
}

fn outcome(world: &mut World<u64, u64>, command: Command<u64, u64>) -> Fate {
    match step(world, command) {
        Reply::Done => Fate::Carried,
        Reply::Refused(TryReserveError::AllocError) => Fate::Refused,
        _ => Fate::Wrong,
    }
}

const NO_VALUE: u64 = 0;

// The most pairs of a map that is one leaf.
const LEAF: u64 = 15;

// Whether the command puts 1 in, or is refused and hands it back, with this value if it is of a map.
fn is_put_in_or_handed_back(alloc: Global, command: Command<u64, u64>, value: u64) -> bool {
    let mut world = World::new(alloc);
    match step(&mut world, command) {
        Reply::Value(None) | Reply::Key(None) | Reply::Flag(_) => true,
        Reply::GivenBack(1, found, TryReserveError::AllocError) => {
            found == value && value != NO_VALUE
        }
        Reply::ItemGivenBack(1, TryReserveError::AllocError) => value == NO_VALUE,
        _ => false,
    }
}

// Of the two values of an entry the second is the one that would have been put in.
#[test]
fn a_refused_insertion_hands_back_what_it_was_given(rt: HostRuntime) {
    let (insert, entry) = (
        Command::Insert(Side::First, 1, 7),
        Command::Entry(Side::First, 1, 8, 9),
    );
    assert!(rt; is_put_in_or_handed_back(rt.alloc(), insert, 7));
    assert!(rt; is_put_in_or_handed_back(rt.alloc(), entry, 9));
    let (add, replace) = (
        Command::AddItem(Side::First, 1),
        Command::ReplaceItem(Side::Second, 1),
    );
    assert!(rt; is_put_in_or_handed_back(rt.alloc(), add, NO_VALUE));
    assert!(rt; is_put_in_or_handed_back(rt.alloc(), replace, NO_VALUE));
}

fn have(world: &mut World<u64, u64>, kind: Kind, first: usize, second: usize) -> bool {
    counts(world, kind, Side::First, first) && counts(world, kind, Side::Second, second)
}

// Whether the command is done on a divided world, or refused and leaves it as it was; or there is no memory for the world.
fn is_done_or_undone(
    alloc: Global,
    kind: Kind,
    command: Command<u64, u64>,
    first: usize,
    second: usize,
) -> bool {
    let Some(mut world) = divided(alloc, kind) else {
        return !is_ample(alloc);
    };
    match outcome(&mut world, command) {
        Fate::Carried => have(&mut world, kind, first, second),
        Fate::Refused => is_divided(&mut world, kind),
        Fate::Wrong => false,
    }
}

#[test]
fn a_refused_append_split_or_copy_changes_neither_map(rt: HostRuntime) {
    let maps = Kind::Maps;
    assert!(rt; is_done_or_undone(rt.alloc(), maps, Command::Append(Side::First), 2 * HALF, 0));
    assert!(rt; is_done_or_undone(rt.alloc(), maps, Command::SplitOff(Side::First, 51), 26, 59));
    assert!(rt; is_done_or_undone(rt.alloc(), maps, Command::TryClone(Side::First), HALF, HALF));
}

#[test]
fn a_refused_append_split_or_copy_changes_neither_set(rt: HostRuntime) {
    let sets = Kind::Sets;
    assert!(rt;
        is_done_or_undone(
            rt.alloc(),
            sets,
            Command::SetAppend(Side::First),
            2 * HALF,
            0
        )
    );
    assert!(rt;
        is_done_or_undone(
            rt.alloc(),
            sets,
            Command::SetSplitOff(Side::First, 51),
            26,
            59
        )
    );
    assert!(rt; is_done_or_undone(rt.alloc(), sets, Command::SetClone(Side::First), HALF, HALF));
}

// A world whose maps have the keys from 1 up to those; or nothing, where one was refused.
fn filled(alloc: Global, first: u64, second: u64) -> Option<World<u64, u64>> {
    let mut world = World::new(alloc);
    for (side, len) in [(Side::First, first), (Side::Second, second)] {
        for place in 0..len {
            if !puts(&mut world, Kind::Maps, side, place.wrapping_add(1)) {
                return None;
            }
        }
    }
    Some(world)
}

// Whether 7 is put at the key in both maps, or all four numbers come back and neither map changes.
fn is_put_in_both_or_in_neither(alloc: Global, len: u64, key: u64) -> bool {
    let Some(mut world) = filled(alloc, len, len) else {
        return !is_ample(alloc);
    };
    let maps = Kind::Maps;
    match step(&mut world, Command::InsertBoth(key, 7, key, 8)) {
        Reply::Both(None, None) => {
            has_value(&mut world, maps, Side::First, key, 7)
                && has_value(&mut world, maps, Side::Second, key, 8)
                && have(&mut world, maps, key as usize, key as usize)
        }
        Reply::BothGivenBack(k, 7, l, 8, TryReserveError::AllocError) => {
            k == key && l == key && have(&mut world, maps, len as usize, len as usize)
        }
        _ => false,
    }
}

// Both maps are empty, or each is a full leaf.
#[test]
fn a_pair_for_each_map_is_put_in_both_or_in_neither(rt: HostRuntime) {
    assert!(rt; is_put_in_both_or_in_neither(rt.alloc(), 0, 1));
    assert!(rt; is_put_in_both_or_in_neither(rt.alloc(), LEAF, LEAF + 1));
}

// Whether the pairs are put in where none takes memory, though one that takes it was refused just before.
fn is_refused_where_it_takes_memory(alloc: Global) -> bool {
    let Some(mut world) = filled(alloc, LEAF - 1, LEAF) else {
        return !is_ample(alloc);
    };
    let was_refused = match step(&mut world, Command::InsertBoth(LEAF, 7, LEAF + 1, 8)) {
        Reply::Both(None, None) => false,
        Reply::BothGivenBack(LEAF, 7, _, 8, TryReserveError::AllocError) => true,
        _ => return false,
    };
    let is_as_before = lacks(&mut world, Kind::Maps, Side::First, LEAF)
        && lacks(&mut world, Kind::Maps, Side::Second, LEAF + 1);
    match step(&mut world, Command::InsertBoth(LEAF, 9, 5, 6)) {
        Reply::Both(None, Some(50)) => was_refused && is_as_before,
        Reply::Both(Some(7), Some(50)) => !was_refused,
        _ => false,
    }
}

// One map has room in its leaf, and the other is a full one.
#[test]
fn a_pair_for_each_map_is_refused_just_where_one_takes_memory(rt: HostRuntime) {
    assert!(rt; is_refused_where_it_takes_memory(rt.alloc()));
}

// The numbers of a divided world, from 0 on, always 37 on, and round.
fn scattered(place: u64) -> u64 {
    place.wrapping_mul(37) % NUMBERS
}

// The scattered numbers, each with itself.
fn more_pairs(alloc: Global) -> Result<Command<u64, u64>, AllocError> {
    let mut items = Vec::with_capacity(alloc, 2 * HALF)?;
    for place in 0..NUMBERS {
        items.push((scattered(place), scattered(place)))?;
    }
    Ok(Command::Extend(Side::First, Items::from(items)))
}

fn more_items(alloc: Global) -> Result<Command<u64, u64>, AllocError> {
    let mut items = Vec::with_capacity(alloc, 2 * HALF)?;
    for place in 0..NUMBERS {
        items.push(scattered(place))?;
    }
    Ok(Command::SetExtend(Side::First, Items::from(items)))
}

// Whether a number on the first side that no extension came to is as it was.
fn is_untouched(world: &mut World<u64, u64>, kind: Kind, number: u64) -> bool {
    if number % 2 == 0 {
        has_value(world, kind, Side::First, number, number.wrapping_mul(10))
    } else {
        lacks(world, kind, Side::First, number)
    }
}

// How many of the scattered numbers the first side has, each with itself, before one that is not there so.
fn put_in(world: &mut World<u64, u64>, kind: Kind) -> u64 {
    for place in 0..NUMBERS {
        let number = scattered(place);
        if !has_value(world, kind, Side::First, number, number) {
            return place;
        }
    }
    NUMBERS
}

// Whether the first side of a divided world was extended by a front of the scattered numbers and by nothing else.
fn is_extended_by_a_front(world: &mut World<u64, u64>, kind: Kind) -> bool {
    let front = put_in(world, kind);
    for place in front..NUMBERS {
        if !is_untouched(world, kind, scattered(place)) {
            return false;
        }
    }
    true
}

// Whether the second side of a divided world is as it was.
fn has_odd_ones(world: &mut World<u64, u64>, kind: Kind) -> bool {
    for half in 0..HALF as u64 {
        let number = 2 * half + 1;
        if !has_value(world, kind, Side::Second, number, number * 10) {
            return false;
        }
    }
    counts(world, kind, Side::Second, HALF)
}

// Whether the divided world is extended by all of the scattered numbers, or refused at one of them.
fn is_extended_or_refused(alloc: Global, kind: Kind, command: Command<u64, u64>) -> bool {
    let Some(mut world) = divided(alloc, kind) else {
        return !is_ample(alloc);
    };
    let is_answered = match outcome(&mut world, command) {
        Fate::Carried => counts(&mut world, kind, Side::First, 2 * HALF),
        Fate::Refused => !counts(&mut world, kind, Side::First, 2 * HALF),
        Fate::Wrong => false,
    };
    is_answered && is_extended_by_a_front(&mut world, kind) && has_odd_ones(&mut world, kind)
}

// The scattered numbers for the maps or the sets, once more where their room is refused.
fn more(alloc: Global, kind: Kind) -> Result<Command<u64, u64>, AllocError> {
    match kind {
        Kind::Maps => match more_pairs(alloc) {
            Ok(command) => Ok(command),
            Err(_refused) => more_pairs(alloc),
        },
        Kind::Sets => match more_items(alloc) {
            Ok(command) => Ok(command),
            Err(_refused) => more_items(alloc),
        },
    }
}

fn is_extended_if_there_is_memory(alloc: Global, kind: Kind) -> bool {
    match more(alloc, kind) {
        Ok(command) => is_extended_or_refused(alloc, kind, command),
        Err(_refused) => !is_ample(alloc),
    }
}

#[test]
fn a_refused_extension_keeps_the_pairs_before(rt: HostRuntime) {
    assert!(rt; is_extended_if_there_is_memory(rt.alloc(), Kind::Maps));
}

#[test]
fn a_refused_extension_keeps_the_items_before(rt: HostRuntime) {
    assert!(rt; is_extended_if_there_is_memory(rt.alloc(), Kind::Sets));
}

const FIRST: &[u64] = &[1, 2, 3];

const SECOND: &[u64] = &[2, 3, 4];

fn overlaps(world: &mut World<u64, u64>) -> bool {
    puts_all(world, Kind::Sets, Side::First, FIRST)
        && puts_all(world, Kind::Sets, Side::Second, SECOND)
}

// Whether the named one of two sets that overlap keeps these items or stays, and the other one stays.
fn keeps(alloc: Global, op: SetOp, side: Side, wanted: &[u64]) -> bool {
    let mut world = World::new(alloc);
    if !overlaps(&mut world) {
        return !is_ample(alloc);
    }
    let (first, second) = match outcome(&mut world, Command::Keep(op, side)) {
        Fate::Carried => match side {
            Side::First => (wanted, SECOND),
            Side::Second => (FIRST, wanted),
        },
        Fate::Refused => (FIRST, SECOND),
        Fate::Wrong => return false,
    };
    holds(&mut world, Kind::Sets, first, second)
}

#[test]
fn a_refused_operation_changes_neither_set(rt: HostRuntime) {
    assert!(rt; keeps(rt.alloc(), SetOp::Difference, Side::First, &[1]));
    assert!(rt; keeps(rt.alloc(), SetOp::Difference, Side::Second, &[4]));
    assert!(rt;
        keeps(
            rt.alloc(),
            SetOp::SymmetricDifference,
            Side::Second,
            &[1, 4]
        )
    );
    assert!(rt; keeps(rt.alloc(), SetOp::Intersection, Side::First, &[2, 3]));
    assert!(rt; keeps(rt.alloc(), SetOp::Union, Side::Second, &[1, 2, 3, 4]));
}
