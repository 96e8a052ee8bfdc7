//! Insertions, appends, splits and maps made of an iterator where each request is refused in turn by the sweep: what a refused call leaves, the same
//! call once more, and that each key and value is dropped once.
use crate::tracked::{Key, Ledger, Map, NUMBERS, Value, holds, is_pair, make_key, map_of, pair};
use fc_base::TryReserveError;
use fc_map::map::BTreeMap;
use fc_tree_node::node::CAPACITY;
use fc_vec::TryFromIterator;
use std::alloc::{AllocError, Global};
use std::process::Abort;
use std::test::Fail;
use test_values::is_ample;

// What became of a call that is made, and made again where it was refused.
#[derive(Clone, Copy)]
enum Fate {
    Done,
    // And then done; or refused again, where there was no memory.
    Refused,
    // There was no memory for what the call is given.
    NotMade,
    Wrong,
}

fn fate_of(turn: usize, is_right: bool) -> Fate {
    if !is_right {
        Fate::Wrong
    } else if turn == 0 {
        Fate::Done
    } else {
        Fate::Refused
    }
}

fn if_no_memory(alloc: Global, fate: Fate) -> Fate {
    if is_ample(alloc) { Fate::Wrong } else { fate }
}

// The sweep counts the calls that were refused. By now all that the call was given and gave is dropped.
fn ends(rt: &(impl Abort + Print), fate: Fate, ledger: &Ledger) -> Result<(), Fail> {
    if matches!(fate, Fate::Refused) {
        println!(rt; "refused")?;
    }
    assert!(rt; !matches!(fate, Fate::Wrong) && ledger.are_living(&[], &[]));
    Ok(())
}

// The numbers from 0 on.
fn numbers() -> [usize; NUMBERS] {
    let mut all = [0; NUMBERS];
    for i in 0..NUMBERS {
        all[i] = i;
    }
    all
}

// The multiples of the factor, from 0 on.
fn multiples(factor: usize) -> [usize; 60] {
    let mut all = [0; 60];
    for i in 0..60usize {
        all[i] = i.wrapping_mul(factor);
    }
    all
}

fn is_no_memory(e: TryReserveError) -> bool {
    matches!(e, TryReserveError::AllocError)
}

// Whether the pair is new, where it is put in; and else the pair that came back.
fn insert<'a>(
    map: &mut Map<'a>,
    given: (Key<'a>, Value<'a>),
) -> Result<bool, (Key<'a>, Value<'a>, TryReserveError)> {
    let (key, value) = given;
    Ok(map.try_insert(key, value)?.is_none())
}

// How many comparisons a look-up of the number makes. The keys that are sought are told apart from those of the map.
fn comparisons_of<'a>(map: &Map<'a>, number: usize, ledgers: [&'a Ledger; 2]) -> u64 {
    forget_comparisons(ledgers);
    let is_there = map.contains_key(&make_key(number, ledgers[1]));
    if is_there { comparisons_in(ledgers) } else { 0 }
}

fn forget_comparisons(ledgers: [&Ledger; 2]) {
    ledgers[0].comparisons.set(0);
    ledgers[1].comparisons.set(0);
}

fn comparisons_in(ledgers: [&Ledger; 2]) -> u64 {
    let first = ledgers[0].comparisons.get();
    first.saturating_add(ledgers[1].comparisons.get())
}

// Of ascending 1 to 151 the root holds 81 alone, and 151 is sought among 81, then 90, 99, .. 144, and then 145 to 151.
fn has_three_levels<'a>(map: &Map<'a>, ledgers: [&'a Ledger; 2]) -> bool {
    comparisons_of(map, 81, ledgers) == 1 && comparisons_of(map, 151, ledgers) == 15
}

// Puts 151 after ascending 1 to 150.
fn inserts<'a>(alloc: Global, ledgers: [&'a Ledger; 2]) -> Fate {
    let ledger = ledgers[0];
    let all = numbers();
    let Some(mut map) = map_of(alloc, &all[1..151], ledger) else {
        return if_no_memory(alloc, Fate::NotMade);
    };
    let mut given = pair(151, ledger);
    for turn in 0..2 {
        match insert(&mut map, given) {
            Ok(is_new) => {
                let is_put = is_new && holds(&map, &all[1..152]) && has_three_levels(&map, ledgers);
                return fate_of(turn, is_put);
            }
            Err((key, value, e)) => {
                let is_back = key.number() == 151 && value.number == 151 && is_no_memory(e);
                if !is_back || !holds(&map, &all[1..151]) || !ledger.are_living(&all[1..152], &[]) {
                    return Fate::Wrong;
                }
                given = (key, value);
            }
        }
    }
    if_no_memory(alloc, Fate::Refused)
}

#[test]
fn a_refused_insertion_leaves_two_levels(rt: HostRuntime) -> Result<(), Fail> {
    let (ledger, sought) = (Ledger::new(), Ledger::new());
    let fate = inserts(rt.alloc(), [&ledger, &sought]);
    ends(&rt, fate, &ledger)
}

// Whether the map holds the numbers of both.
fn is_joined(map: &Map<'_>, ours: &[usize], theirs: &[usize]) -> bool {
    let mut walk = map.iter();
    let mut count = 0usize;
    for number in 0..NUMBERS {
        if ours.contains(&number) || theirs.contains(&number) {
            count = count.wrapping_add(1);
            if !is_pair(walk.next(), number) {
                return false;
            }
        }
    }
    walk.next().is_none() && map.len() == count
}

// Whether the append is done, by at most twice as many comparisons as there are pairs, or refused.
fn append<'a>(map: &mut Map<'a>, other: &mut Map<'a>, ledgers: [&Ledger; 2]) -> Option<bool> {
    let pairs = map.len().saturating_add(other.len()) as u64;
    forget_comparisons(ledgers);
    match map.append(other) {
        Ok(()) if comparisons_in(ledgers) <= pairs.saturating_mul(2) => Some(true),
        Err(TryReserveError::AllocError) => Some(false),
        _ => None,
    }
}

// Of equal keys theirs stays, and ours is dropped.
fn appends(alloc: Global, ours: &[usize], theirs: &[usize], ledgers: [&Ledger; 2]) -> Fate {
    let Some(mut map) = map_of(alloc, ours, ledgers[0]) else {
        return if_no_memory(alloc, Fate::NotMade);
    };
    let Some(mut other) = map_of(alloc, theirs, ledgers[1]) else {
        return if_no_memory(alloc, Fate::NotMade);
    };
    for turn in 0..2 {
        let Some(is_done) = append(&mut map, &mut other, ledgers) else {
            return Fate::Wrong;
        };
        if is_done {
            let are_kept = ledgers[0].are_living(ours, theirs)
                && ledgers[1].are_living(theirs, &[]);
            let is_right = are_kept && is_joined(&map, ours, theirs) && holds(&other, &[]);
            return fate_of(turn, is_right);
        }
        let are_whole = ledgers[0].are_living(ours, &[]) && ledgers[1].are_living(theirs, &[]);
        if !are_whole || !holds(&map, ours) || !holds(&other, theirs) {
            return Fate::Wrong;
        }
    }
    if_no_memory(alloc, Fate::Refused)
}

// Some keys are in both maps.
#[test]
fn a_refused_append_leaves_both_maps(rt: HostRuntime) -> Result<(), Fail> {
    let (ours, theirs) = (Ledger::new(), Ledger::new());
    let (even, thirds) = (multiples(2), multiples(3));
    let fate = appends(rt.alloc(), &even, &thirds[0..40], [&ours, &theirs]);
    assert!(rt; theirs.are_living(&[], &[]));
    ends(&rt, fate, &ours)
}

#[test]
fn a_refused_append_leaves_two_full_leaves(rt: HostRuntime) -> Result<(), Fail> {
    let (ours, theirs) = (Ledger::new(), Ledger::new());
    let all = numbers();
    let (first, second) = (&all[1..CAPACITY + 1], &all[CAPACITY + 1..2 * CAPACITY + 1]);
    let fate = appends(rt.alloc(), first, second, [&ours, &theirs]);
    assert!(rt; theirs.are_living(&[], &[]));
    ends(&rt, fate, &ours)
}

// Eleven and eleven pairs are more than one node holds, so that both leaves stay below a new root.
#[test]
fn a_refused_append_leaves_two_leaves_that_do_not_fit(rt: HostRuntime) -> Result<(), Fail> {
    let (ours, theirs) = (Ledger::new(), Ledger::new());
    let all = numbers();
    let fate = appends(rt.alloc(), &all[1..12], &all[12..23], [&ours, &theirs]);
    assert!(rt; theirs.are_living(&[], &[]));
    ends(&rt, fate, &ours)
}

fn split<'a>(
    map: &mut Map<'a>,
    number: usize,
    sought: &'a Ledger,
) -> Result<Map<'a>, TryReserveError> {
    map.split_off(&make_key(number, sought))
}

// Splits the numbers off from this one on, which has so many below it.
fn splits<'a>(
    alloc: Global,
    all: &[usize],
    number: usize,
    cut: usize,
    ledgers: [&'a Ledger; 2],
) -> Fate {
    let ledger = ledgers[0];
    let Some(mut map) = map_of(alloc, all, ledger) else {
        return if_no_memory(alloc, Fate::NotMade);
    };
    let (below, above) = all.split_at(cut.min(all.len()));
    for turn in 0..2 {
        match split(&mut map, number, ledgers[1]) {
            Ok(rest) => {
                let is_cut = holds(&map, below) && holds(&rest, above);
                let are_kept = ledger.are_living(all, &[]);
                drop(rest);
                return fate_of(turn, is_cut && are_kept && ledger.are_living(below, &[]));
            }
            Err(e) => {
                if !is_no_memory(e) || !holds(&map, all) || !ledger.are_living(all, &[]) {
                    return Fate::Wrong;
                }
            }
        }
    }
    if_no_memory(alloc, Fate::Refused)
}

// 160 ascending numbers stand on three levels.
#[test]
fn a_refused_split_leaves_the_map(rt: HostRuntime) -> Result<(), Fail> {
    let (ledger, sought) = (Ledger::new(), Ledger::new());
    let all = numbers();
    let fate = splits(rt.alloc(), &all[0..160], 59, 59, [&ledger, &sought]);
    ends(&rt, fate, &ledger)
}

#[test]
fn a_refused_split_leaves_all_five(rt: HostRuntime) -> Result<(), Fail> {
    let (ledger, sought) = (Ledger::new(), Ledger::new());
    let fate = splits(rt.alloc(), &[1, 2, 3, 17, 41], 3, 2, [&ledger, &sought]);
    ends(&rt, fate, &ledger)
}

fn pairs<'a>(
    alloc: Global,
    all: &[usize],
    ledger: &'a Ledger,
) -> Result<Vec<(Key<'a>, Value<'a>)>, AllocError> {
    let mut pairs = match Vec::with_capacity(alloc, all.len()) {
        Ok(pairs) => pairs,
        Err(_refused) => Vec::with_capacity(alloc, all.len())?,
    };
    for number in all {
        pairs.push(pair(*number, ledger))?;
    }
    Ok(pairs)
}

fn made<'a>(alloc: Global, pairs: Vec<(Key<'a>, Value<'a>)>) -> Result<Map<'a>, TryReserveError> {
    BTreeMap::try_from_iterator(alloc, pairs)
}

// Makes a map of the numbers. Where it is refused, the pairs that it had by then are dropped, the one that was refused, and those still to come.
fn makes(alloc: Global, all: &[usize], ledger: &Ledger) -> Fate {
    for turn in 0..2 {
        let Ok(pairs) = pairs(alloc, all, ledger) else {
            return if_no_memory(alloc, Fate::NotMade);
        };
        match made(alloc, pairs) {
            Ok(map) => return fate_of(turn, holds(&map, all) && ledger.are_living(all, &[])),
            Err(e) => {
                if !is_no_memory(e) || !ledger.are_living(&[], &[]) {
                    return Fate::Wrong;
                }
            }
        }
    }
    if_no_memory(alloc, Fate::Refused)
}

#[test]
fn a_refused_map_of_an_iterator_is_dropped(rt: HostRuntime) -> Result<(), Fail> {
    let ledger = Ledger::new();
    let all = numbers();
    let fate = makes(rt.alloc(), &all[0..160], &ledger);
    ends(&rt, fate, &ledger)
}

#[test]
fn a_refused_map_of_thirty_pairs_is_dropped(rt: HostRuntime) -> Result<(), Fail> {
    let ledger = Ledger::new();
    let all = numbers();
    let fate = makes(rt.alloc(), &all[1..31], &ledger);
    ends(&rt, fate, &ledger)
}
