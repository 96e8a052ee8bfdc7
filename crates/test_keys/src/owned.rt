//! Calls on sets whose items own memory. No clause says that what is let go is given back; `tools/sweep` sees each block that is left after a test, with ample memory,
//! and of those that it lists also with each request refused in turn.
//!
//! Of ascending numbers 15 fill a leaf, 16 to 150 stand on two levels, and more on three.
use fc_base::{TryClone, TryReserveError};
use fc_map::map::Reservation;
use fc_set::set::{BTreeSet, IntoIter};
use fc_vec::TryFromIterator;
use std::alloc::Global;
use test_values::Owned;

type Owners = BTreeSet<Owned>;

const MANY: u64 = 300;

const FEW: u64 = 20;

// Puts in the numbers below `end`, each so many on.
fn put_owners(alloc: Global, set: &mut Owners, end: u64, step: u64) -> Result<(), TryReserveError> {
    for number in 0..end {
        if step > 0 && number % step == 0 {
            let item = Owned::try_new(alloc, number)?;
            set.try_insert(item)?;
        }
    }
    Ok(())
}

// Whether the answer is right, or a request was refused: what is then left is for the sweep to see.
fn is_right(answer: Result<bool, TryReserveError>) -> bool {
    match answer {
        Ok(is_right) => is_right,
        Err(e) => matches!(e, TryReserveError::AllocError),
    }
}

fn is_number(taken: Option<Owned>, number: u64) -> bool {
    match taken {
        Some(item) => item.number == number,
        None => false,
    }
}

// The first number, the end, the step and the rest of those that stay, and how many they are.
type Rule = (u64, u64, u64, u64, usize);

// None stays, one in ten, the first hundred, the last, one in three, and one alone.
const RULES: [Rule; 6] = [
    (0, 0, 1, 0, 0),
    (0, MANY, 10, 0, 30),
    (0, 100, 1, 0, 100),
    (200, MANY, 1, 0, 100),
    (0, MANY, 3, 1, 100),
    (150, 151, 1, 0, 1),
];

fn stays(rule: Rule, number: u64) -> bool {
    let (first, end, step, rest, _count) = rule;
    first <= number && number < end && step > 0 && number % step == rest
}

fn keeps(alloc: Global, set: &mut Owners, rule: Rule) -> Result<bool, TryReserveError> {
    put_owners(alloc, set, MANY, 1)?;
    set.retain(|item| stays(rule, item.number));
    Ok(set.len() == rule.4)
}

fn retains(alloc: Global, rule: Rule) -> Result<bool, TryReserveError> {
    let mut set = Owners::new(alloc);
    keeps(alloc, &mut set, rule)
}

#[test]
fn retain_gives_up_each_item_and_each_node_that_it_empties(rt: HostRuntime) {
    for rule in RULES {
        assert!(rt; is_right(retains(rt.alloc(), rule)));
    }
}

// Each second one that is taken out goes into another set, and the others are dropped.
fn hands_on(
    alloc: Global,
    set: &mut Owners,
    others: &mut Owners,
    rule: Rule,
) -> Result<bool, TryReserveError> {
    put_owners(alloc, set, MANY, 1)?;
    let mut is_refused = false;
    set.extract_if(
        |item| !stays(rule, item.number),
        |item| {
            if item.number % 2 == 0 {
                is_refused = others.try_insert(item).is_err() || is_refused;
            }
        },
    );
    Ok(is_refused || set.len() == rule.4 && set.len().wrapping_add(others.len()) <= MANY as usize)
}

fn extracts(alloc: Global, rule: Rule) -> Result<bool, TryReserveError> {
    let mut set = Owners::new(alloc);
    let mut others = Owners::new(alloc);
    hands_on(alloc, &mut set, &mut others, rule)
}

#[test]
fn extract_if_hands_each_item_on_and_gives_up_each_node_that_it_empties(rt: HostRuntime) {
    for rule in RULES {
        assert!(rt; is_right(extracts(rt.alloc(), rule)));
    }
}

// The number that is last once so many after it are taken.
fn back_of(taken: u64) -> u64 {
    MANY.wrapping_sub(1).wrapping_sub(taken)
}

fn gives_first(walk: &mut IntoIter<Owned>, fronts: u64) -> bool {
    for taken in 0..fronts {
        if !is_number(walk.next(), taken) {
            return false;
        }
    }
    true
}

fn gives_last(walk: &mut IntoIter<Owned>, backs: u64) -> bool {
    for taken in 0..backs {
        if !is_number(walk.next_back(), back_of(taken)) {
            return false;
        }
    }
    true
}

// Takes so many items from the front of an owned walk and then so many from its back, and drops the rest with it.
fn gives_each(set: Owners, fronts: u64, backs: u64) -> bool {
    let mut walk = set.into_iter();
    gives_first(&mut walk, fronts)
        && gives_last(&mut walk, backs)
        && (walk.len() as u64).wrapping_add(fronts).wrapping_add(backs) == MANY
}

fn walks(alloc: Global, fronts: u64, backs: u64) -> Result<bool, TryReserveError> {
    let mut set = Owners::new(alloc);
    put_owners(alloc, &mut set, MANY, 1)?;
    Ok(gives_each(set, fronts, backs))
}

#[test]
fn an_owned_walk_gives_up_each_leaf_from_both_ends_and_when_it_is_dropped(rt: HostRuntime) {
    for (fronts, backs) in [(0, MANY), (MANY, 0), (100, 200), (0, 150), (70, 80)] {
        assert!(rt; is_right(walks(rt.alloc(), fronts, backs)));
    }
}

// Takes items from both ends in turns until none is left.
fn pops_each(set: &mut Owners) -> bool {
    for taken in 0..MANY / 2 {
        let is_first = is_number(set.pop_first(), taken);
        if !is_first || !is_number(set.pop_last(), back_of(taken)) {
            return false;
        }
    }
    set.is_empty()
}

fn pops_and_clears(alloc: Global, set: &mut Owners) -> Result<bool, TryReserveError> {
    put_owners(alloc, set, MANY, 1)?;
    let is_popped = pops_each(set);
    put_owners(alloc, set, MANY, 1)?;
    set.clear();
    Ok(is_popped && set.is_empty())
}

fn pops(alloc: Global) -> Result<bool, TryReserveError> {
    let mut set = Owners::new(alloc);
    pops_and_clears(alloc, &mut set)
}

#[test]
fn popped_and_cleared_items_give_up_each_node(rt: HostRuntime) {
    assert!(rt; is_right(pops(rt.alloc())));
}

fn is_there(alloc: Global, set: &mut Owners, number: u64) -> Result<bool, TryReserveError> {
    let item = Owned::try_new(alloc, number)?;
    Ok(!set.try_insert(item)?)
}

fn is_replaced(alloc: Global, set: &mut Owners, number: u64) -> Result<bool, TryReserveError> {
    let item = Owned::try_new(alloc, number)?;
    Ok(is_number(set.replace(item)?, number))
}

fn is_removed(alloc: Global, set: &mut Owners, number: u64) -> Result<bool, TryReserveError> {
    let sought = Owned::try_new(alloc, number)?;
    Ok(set.remove(&sought))
}

fn is_taken(alloc: Global, set: &mut Owners, number: u64) -> Result<bool, TryReserveError> {
    let sought = Owned::try_new(alloc, number)?;
    Ok(is_number(set.take(&sought), number))
}

fn takes_out(alloc: Global, set: &mut Owners, place: u64) -> Result<bool, TryReserveError> {
    let number = place.wrapping_mul(7) % MANY;
    if !is_there(alloc, set, number)? || !is_replaced(alloc, set, number)? {
        Ok(false)
    } else if place % 2 == 0 {
        is_removed(alloc, set, number)
    } else {
        is_taken(alloc, set, number)
    }
}

// Takes each number out, 7 on each time and round, dropped or handed out; and equal items replace one another or do not.
fn takes_each_out(alloc: Global, set: &mut Owners) -> Result<bool, TryReserveError> {
    put_owners(alloc, set, MANY, 1)?;
    for place in 0..MANY {
        if !takes_out(alloc, set, place)? {
            return Ok(false);
        }
    }
    Ok(set.is_empty())
}

fn takes_each(alloc: Global) -> Result<bool, TryReserveError> {
    let mut set = Owners::new(alloc);
    takes_each_out(alloc, &mut set)
}

#[test]
fn removed_taken_and_replaced_items_are_given_up_in_any_order(rt: HostRuntime) {
    assert!(rt; is_right(takes_each(rt.alloc())));
}

// Of the even numbers below 40 and the multiples of three below 42, 7 are in both: sets of copies, of 13, 20, 7 and 27.
fn are_copied(
    alloc: Global,
    ours: &mut Owners,
    theirs: &mut Owners,
) -> Result<bool, TryReserveError> {
    put_owners(alloc, ours, 40, 2)?;
    put_owners(alloc, theirs, 42, 3)?;
    let of_sub = ours.sub(theirs)?.len();
    let of_bitxor = ours.bitxor(theirs)?.len();
    let of_bitand = ours.bitand(theirs)?.len();
    let of_bitor = ours.bitor(theirs)?.len();
    let of_clone = ours.try_clone()?.len();
    Ok(of_sub == 13 && of_bitxor == 20 && of_bitand == 7 && of_bitor == 27 && of_clone == 20)
}

fn operates(alloc: Global) -> Result<bool, TryReserveError> {
    let mut ours = Owners::new(alloc);
    let mut theirs = Owners::new(alloc);
    are_copied(alloc, &mut ours, &mut theirs)
}

#[test]
fn an_operation_that_is_refused_gives_up_the_items_it_copied(rt: HostRuntime) {
    assert!(rt; is_right(operates(rt.alloc())));
}

fn cut(alloc: Global, set: &mut Owners) -> Result<Owners, TryReserveError> {
    let sought = Owned::try_new(alloc, 15)?;
    set.try_split_off(&sought)
}

// Of the same numbers one set takes the other's in, and is then cut: 10 are below 15.
fn is_joined_and_cut(
    alloc: Global,
    set: &mut Owners,
    other: &mut Owners,
) -> Result<bool, TryReserveError> {
    put_owners(alloc, set, 40, 2)?;
    put_owners(alloc, other, 42, 3)?;
    set.append(other)?;
    let is_joined = set.len() == 27 && other.is_empty();
    let of_rest = cut(alloc, set)?.len();
    Ok(is_joined && set.len() == 10 && of_rest == 17)
}

fn joins_and_cuts(alloc: Global) -> Result<bool, TryReserveError> {
    let mut set = Owners::new(alloc);
    let mut other = Owners::new(alloc);
    is_joined_and_cut(alloc, &mut set, &mut other)
}

#[test]
fn an_append_and_a_split_that_are_refused_give_up_their_nodes(rt: HostRuntime) {
    assert!(rt; is_right(joins_and_cuts(rt.alloc())));
}

fn items(alloc: Global) -> Result<Vec<Owned>, TryReserveError> {
    let mut all = Vec::with_capacity(alloc, FEW as usize)?;
    for place in 0..FEW {
        all.push(Owned::try_new(alloc, place.wrapping_mul(7) % FEW)?)?;
    }
    Ok(all)
}

fn is_made(alloc: Global, set: &Owners) -> Result<bool, TryReserveError> {
    let given = items(alloc)?;
    let made: Owners = BTreeSet::try_from_iterator(alloc, given)?;
    Ok(*set == made)
}

fn is_extended_and_made(alloc: Global, set: &mut Owners) -> Result<bool, TryReserveError> {
    put_owners(alloc, set, 15, 1)?;
    let given = items(alloc)?;
    set.try_extend(given)?;
    Ok(is_made(alloc, set)? && set.len() as u64 == FEW)
}

fn extends_and_makes(alloc: Global) -> Result<bool, TryReserveError> {
    let mut set = Owners::new(alloc);
    is_extended_and_made(alloc, &mut set)
}

#[test]
fn an_extension_and_a_made_set_that_are_refused_give_up_their_items(rt: HostRuntime) {
    assert!(rt; is_right(extends_and_makes(rt.alloc())));
}

fn put(set: &mut Owners, reservation: &mut Reservation<Owned, ()>, item: Owned) {
    if reservation.places() > 0 && set.len() < reservation.pairs() {
        set.insert_reserved(reservation, item);
    }
}

fn put_reserved(
    alloc: Global,
    set: &mut Owners,
    reservation: &mut Reservation<Owned, ()>,
    used: u64,
) -> Result<(), TryReserveError> {
    for number in 15..used.wrapping_add(15) {
        let item = Owned::try_new(alloc, number)?;
        put(set, reservation, item);
    }
    Ok(())
}

// Takes room for two more in a full leaf, and puts so many in.
fn is_reserved(alloc: Global, set: &mut Owners, used: u64) -> Result<bool, TryReserveError> {
    put_owners(alloc, set, 15, 1)?;
    let mut reservation = set.try_reserve_nodes(2)?;
    put_reserved(alloc, set, &mut reservation, used)?;
    let left = reservation.places() as u64;
    Ok(set.len() as u64 == used.wrapping_add(15) && left.wrapping_add(used) == 2)
}

fn has_reserved(alloc: Global, used: u64) -> Result<bool, TryReserveError> {
    let mut set = Owners::new(alloc);
    is_reserved(alloc, &mut set, used)
}

#[test]
fn a_reservation_for_items_that_is_used_or_not_is_given_up(rt: HostRuntime) {
    for used in [0, 1, 2] {
        assert!(rt; is_right(has_reserved(rt.alloc(), used)));
    }
}
