//! Appends of maps of many lengths, by keys that tell whose they are and count their comparisons.
use fc_base::{Count, TryReserveError};
use fc_map::map::{BTreeMap, Iter};
use std::alloc::Global;
use std::cell::Cell;
use std::test::Fail;
use test_values::CountingKey;

// Which of the two maps a pair comes from.
const OURS: u64 = 0;

const THEIRS: u64 = 1;

// A number as a key, with the map that it comes from, of which its order knows nothing.
#[derive(Clone, Copy)]
#[derive_where(PartialEq, Eq, PartialOrd, Ord)]
struct Key<'a> {
    counted: CountingKey<'a>,
    #[derive_where(skip(EqHashOrd))]
    side: u64,
}

// As many numbers from `first` on, one after another, or each second one.
#[derive(Clone, Copy)]
struct Run {
    first: u64,
    has_gaps: bool,
    len: u64,
}

impl Run {
    // Above all of its numbers.
    fn end(self) -> u64 {
        self.number(self.len)
    }

    fn number(self, i: u64) -> u64 {
        let step = if self.has_gaps { 2 } else { 1 };
        self.first.wrapping_add(i.wrapping_mul(step))
    }

    fn has(self, number: u64) -> bool {
        if number < self.first {
            return false;
        }
        let above = number - self.first;
        if self.has_gaps {
            above % 2 == 0 && above / 2 < self.len
        } else {
            above < self.len
        }
    }
}

// How the numbers of two maps lie.
#[derive(Clone, Copy)]
enum Layout {
    // Theirs are above ours.
    Above,
    // Theirs are below ours.
    Below,
    // Theirs and ours take turns.
    Interleaved,
    // Theirs begin with our first one.
    Equal,
    // Their first one is our last one.
    TouchAbove,
    // Their last one is our first one.
    TouchBelow,
}

fn numbers_from(first: u64, has_gaps: bool, len: u64) -> Run {
    Run {
        first,
        has_gaps,
        len,
    }
}

// Our numbers, of which there are a, and theirs, of which there are b.
fn laid_out(layout: Layout, a: u64, b: u64) -> (Run, Run) {
    match layout {
        Layout::Above => (numbers_from(0, false, a), numbers_from(a, false, b)),
        Layout::Below => (numbers_from(b, false, a), numbers_from(0, false, b)),
        Layout::Interleaved => (numbers_from(0, true, a), numbers_from(1, true, b)),
        Layout::Equal => (numbers_from(0, false, a), numbers_from(0, false, b)),
        Layout::TouchAbove => (
            numbers_from(0, false, a),
            numbers_from(a.saturating_sub(1), false, b),
        ),
        Layout::TouchBelow => (
            numbers_from(b.saturating_sub(1), false, a),
            numbers_from(0, false, b),
        ),
    }
}

fn value_of(number: u64, side: u64) -> u64 {
    number.wrapping_mul(2).wrapping_add(side)
}

fn map_of<'a>(
    alloc: Global,
    numbers: Run,
    side: u64,
    comparisons: &'a Cell<u64>,
) -> Result<BTreeMap<Key<'a>, u64>, TryReserveError> {
    let mut map = BTreeMap::new(alloc);
    for i in 0..numbers.len {
        let number = numbers.number(i);
        let counted = CountingKey {
            number,
            comparisons,
        };
        let key = Key { counted, side };
        map.try_insert(key, value_of(number, side))?;
    }
    Ok(map)
}

// Whether the pair is of this number, and of theirs where they have it, else of ours.
fn is_joined_pair(item: Option<(&Key<'_>, &u64)>, number: u64, theirs: Run) -> bool {
    let side = if theirs.has(number) { THEIRS } else { OURS };
    match item {
        Some((key, value)) => {
            key.counted.number == number && key.side == side && *value == value_of(number, side)
        }
        None => false,
    }
}

fn is_in_one(number: u64, ours: Run, theirs: Run) -> bool {
    ours.has(number) || theirs.has(number)
}

// Above all numbers of both.
fn end_of(ours: Run, theirs: Run) -> u64 {
    ours.end().max(theirs.end())
}

// Whether the walk's next pair is that of this number.
fn gives_next(walk: &mut Iter<'_, Key<'_>, u64>, number: u64, theirs: Run) -> bool {
    is_joined_pair(walk.next(), number, theirs)
}

fn gives_forward(map: &BTreeMap<Key<'_>, u64>, ours: Run, theirs: Run) -> bool {
    let mut walk = map.iter();
    for number in 0..end_of(ours, theirs) {
        if !is_in_one(number, ours, theirs) {
            continue;
        }
        if !gives_next(&mut walk, number, theirs) {
            return false;
        }
    }
    walk.next().is_none()
}

fn gives_backward(map: &BTreeMap<Key<'_>, u64>, ours: Run, theirs: Run) -> bool {
    let mut walk = map.iter();
    let end = end_of(ours, theirs);
    for below in 0..end {
        let number = end.wrapping_sub(1).wrapping_sub(below);
        if !is_in_one(number, ours, theirs) {
            continue;
        }
        if !is_joined_pair(walk.next_back(), number, theirs) {
            return false;
        }
    }
    walk.next_back().is_none()
}

// How many numbers there are in both together.
fn joined_len(ours: Run, theirs: Run) -> usize {
    let mut len = 0usize;
    for number in 0..end_of(ours, theirs) {
        if is_in_one(number, ours, theirs) {
            len = len.wrapping_add(1);
        }
    }
    len
}

// Whether the map holds the pairs of both, and of equal keys theirs, as its length tells and walks from both ends.
fn is_joined(map: &BTreeMap<Key<'_>, u64>, ours: Run, theirs: Run) -> bool {
    map.len() == joined_len(ours, theirs)
        && gives_forward(map, ours, theirs)
        && gives_backward(map, ours, theirs)
}

fn is_emptied(map: &BTreeMap<Key<'_>, u64>) -> bool {
    map.len() == 0
        && map.is_empty()
        && map.iter().next().is_none()
        && map.iter().next_back().is_none()
}

// How many comparisons there are at most: none where either map is empty, one where their keys lie after ours, else one a pair.
fn most_comparisons(layout: Layout, a: u64, b: u64) -> u64 {
    if a == 0 || b == 0 {
        return 0;
    }
    match layout {
        Layout::Above => 1,
        _ => a.saturating_add(b),
    }
}

// Whether an append, of the form that counts or of the plain one, gives the joined map by no more comparisons.
fn appends(
    alloc: Global,
    ours: Run,
    theirs: Run,
    most: u64,
    is_counted: bool,
) -> Result<bool, TryReserveError> {
    let made = Cell::new(0);
    let mut map = map_of(alloc, ours, OURS, &made)?;
    let mut other = map_of(alloc, theirs, THEIRS, &made)?;
    made.set(0);
    if is_counted {
        map.append_counted(&mut other, &mut Count::new())?;
    } else {
        map.append(&mut other)?;
    }
    Ok(made.get() <= most && is_joined(&map, ours, theirs) && is_emptied(&other))
}

// The most numbers of each of the two maps. From 70 on, put in one after another, the root of a tree has the fewest pairs of an inner node or more.
const MOST: u64 = 72;

// Whether maps of so many numbers are tried: those of one leaf or two, each fourth length above them, and the last ones.
fn is_tried(len: u64) -> bool {
    len < 34 || len % 4 == 0 || len > 68
}

// Whether a map of `a` numbers takes all pairs of each of the maps that are tried.
fn appends_each(alloc: Global, layout: Layout, a: u64) -> Result<bool, TryReserveError> {
    for b in 0..MOST + 1 {
        if !is_tried(b) {
            continue;
        }
        let (ours, theirs) = laid_out(layout, a, b);
        let most = most_comparisons(layout, a, b);
        if !appends(alloc, ours, theirs, most, false)? {
            return Ok(false);
        }
        if !appends(alloc, ours, theirs, most, true)? {
            return Ok(false);
        }
    }
    Ok(true)
}

// Whether each of the maps that are tried takes all pairs of each.
fn appends_all(alloc: Global, layout: Layout) -> Result<bool, TryReserveError> {
    for a in 0..MOST + 1 {
        if is_tried(a) && !appends_each(alloc, layout, a)? {
            return Ok(false);
        }
    }
    Ok(true)
}

#[test]
fn keys_above_or_below(rt: HostRuntime) -> Result<(), Fail> {
    assert!(rt; appends_all(rt.alloc(), Layout::Above)?);
    assert!(rt; appends_all(rt.alloc(), Layout::Below)?);
    Ok(())
}

#[test]
fn keys_that_take_turns(rt: HostRuntime) -> Result<(), Fail> {
    assert!(rt; appends_all(rt.alloc(), Layout::Interleaved)?);
    Ok(())
}

// One insertion after another would make some eight comparisons a pair or more.
#[test]
fn a_hundred_and_fifty_keys_take_turns_with_as_many(rt: HostRuntime) -> Result<(), Fail> {
    let (ours, theirs) = laid_out(Layout::Interleaved, 150, 150);
    let most = most_comparisons(Layout::Interleaved, 150, 150);
    assert!(rt; appends(rt.alloc(), ours, theirs, most, true)?);
    Ok(())
}

#[test]
fn equal_keys(rt: HostRuntime) -> Result<(), Fail> {
    assert!(rt; appends_all(rt.alloc(), Layout::Equal)?);
    Ok(())
}

#[test]
fn one_key_in_common(rt: HostRuntime) -> Result<(), Fail> {
    assert!(rt; appends_all(rt.alloc(), Layout::TouchAbove)?);
    assert!(rt; appends_all(rt.alloc(), Layout::TouchBelow)?);
    Ok(())
}
