//! The first use of each call of maps and sets, on a few pairs and items: what the pages of the Rust crate show of them, in one place.
use crate::few::{is_number, is_set, put_items, put_pairs};
use fc_base::TryReserveError;
use fc_map::map::BTreeMap;
use fc_set::set::BTreeSet;
use std::alloc::Global;
use std::ops::Bound;
use std::test::Fail;

type Named = BTreeMap<u64, &'static str>;

type Numbered = BTreeMap<&'static str, u64>;

type Numbers = BTreeSet<u64>;

fn is_name(found: Option<&&'static str>, wanted: &str) -> bool {
    match found {
        Some(name) => *name == wanted,
        None => false,
    }
}

fn is_pair(found: Option<(&u64, &&'static str)>, key: u64, name: &str) -> bool {
    match found {
        Some((number, value)) => *number == key && *value == name,
        None => false,
    }
}

// Whether the map has these pairs, in this order, and nothing else.
fn is_all(map: &Named, pairs: &[(u64, &'static str)]) -> bool {
    let mut walk = map.iter();
    for (number, name) in pairs {
        if !is_pair(walk.next(), *number, *name) {
            return false;
        }
    }
    walk.next().is_none() && map.len() == pairs.len()
}

// A new map is empty; a pair that was put in is found, shown, written and taken out once; and a map is cleared.
fn is_one_pair(map: &mut Named) -> Result<bool, TryReserveError> {
    let is_new = map.is_empty() && map.len() == 0;
    let first = map.try_insert(37, "ash")?.is_none() && !map.is_empty() && map.len() == 1;
    map.try_insert(37, "elm")?;
    let second = map.try_insert(37, "oak")? == Some("elm");
    let is_found = is_name(map.get(&37), "oak") && map.get(&2).is_none();
    let is_shown = is_pair(map.get_key_value(&37), 37, "oak") && map.get_key_value(&2).is_none();
    let is_there = map.contains_key(&37) && !map.contains_key(&2);
    if let Some(name) = map.get_mut(&37) {
        *name = "fir";
    }
    let is_taken = map.remove(&37) == Some("fir") && map.remove(&37).is_none();
    map.try_insert(1, "ash")?;
    map.clear();
    Ok(is_new && first && second && is_found && is_shown && is_there && is_taken && map.is_empty())
}

fn one_pair(alloc: Global) -> Result<bool, TryReserveError> {
    let mut map = Named::new(alloc);
    is_one_pair(&mut map)
}

// Of two maps that are joined, the second's value stands at a key of both.
fn are_joined(ours: &mut Named, theirs: &mut Named) -> Result<bool, TryReserveError> {
    put_pairs(ours, &[(1, "ash"), (2, "elm"), (3, "fir")])?;
    put_pairs(theirs, &[(3, "oak"), (4, "yew"), (5, "box")])?;
    ours.append(theirs)?;
    let joined = [(1, "ash"), (2, "elm"), (3, "oak"), (4, "yew"), (5, "box")];
    Ok(theirs.is_empty() && is_all(ours, &joined))
}

fn joined_maps(alloc: Global) -> Result<bool, TryReserveError> {
    let mut ours = Named::new(alloc);
    let mut theirs = Named::new(alloc);
    are_joined(&mut ours, &mut theirs)
}

// A cut leaves what is below its key.
fn is_cut(low: &mut Named) -> Result<bool, TryReserveError> {
    let pairs = [(41, "box"), (2, "elm"), (17, "yew"), (1, "ash"), (3, "oak")];
    put_pairs(low, &pairs)?;
    let high = low.split_off(&3)?;
    let is_low = is_all(low, &[(1, "ash"), (2, "elm")]);
    Ok(is_low && is_all(&high, &[(3, "oak"), (17, "yew"), (41, "box")]))
}

fn cut_map(alloc: Global) -> Result<bool, TryReserveError> {
    let mut low = Named::new(alloc);
    is_cut(&mut low)
}

// Walks over pairs, keys and values go in order of the keys, and a range gives those within its bounds.
fn is_walked(map: &mut Named) -> Result<bool, TryReserveError> {
    put_pairs(map, &[(8, "oak"), (5, "elm"), (3, "ash")])?;
    let mut keys = map.keys();
    let mut values = map.values();
    let mut middle = map.range((Bound::Included(&4), Bound::Included(&8)));
    let mut from = map.range((Bound::Included(&4), Bound::Unbounded));
    Ok(
        is_pair(map.iter().next(), 3, "ash")
            && is_number(keys.next(), 3)
            && is_number(keys.next(), 5)
            && is_number(keys.next(), 8)
            && keys.next().is_none()
            && is_name(values.next(), "ash")
            && is_name(values.next(), "elm")
            && is_name(values.next(), "oak")
            && values.next().is_none()
            && is_pair(middle.next(), 5, "elm")
            && is_pair(middle.next(), 8, "oak")
            && middle.next().is_none()
            && is_pair(from.next(), 5, "elm"),
    )
}

fn walks(alloc: Global) -> Result<bool, TryReserveError> {
    let mut map = Named::new(alloc);
    is_walked(&mut map)
}

// All values but one are written by a walk, and those of a range of texts.
fn is_written(map: &mut Numbered) -> Result<bool, TryReserveError> {
    put_pairs(
        map,
        &[("Alice", 1), ("Bob", 2), ("Carol", 3), ("Cheryl", 4)],
    )?;
    map.iter_mut().for_each(|key, value| {
        if *key != "Alice" {
            *value = value.wrapping_add(10);
        }
    });
    map.range_mut((Bound::Included("B"), Bound::Excluded("Cheryl")))
        .for_each(|_key, value| *value = value.wrapping_add(100));
    Ok(
        is_number(map.get("Alice"), 1)
            && is_number(map.get("Bob"), 112)
            && is_number(map.get("Carol"), 113)
            && is_number(map.get("Cheryl"), 14),
    )
}

fn writes(alloc: Global) -> Result<bool, TryReserveError> {
    let mut map = Numbered::new(alloc);
    is_written(&mut map)
}

type Texts = BTreeMap<u64, String>;

fn is_text(found: Option<&String>, wanted: &str) -> bool {
    match found {
        Some(text) => text.as_str() == wanted,
        None => false,
    }
}

fn put_texts(alloc: Global, map: &mut Texts) -> Result<(), TryReserveError> {
    let text = String::from_str(alloc, "hello")?;
    map.try_insert(1, text)?;
    let made = String::from_str(alloc, "goodbye")?;
    let _lent = map.try_entry(2)?.or_try_insert_with(|| made)?;
    Ok(())
}

fn end_each(map: &mut Texts) -> Result<(), TryReserveError> {
    let mut walk = map.values_mut();
    for _ in 0..walk.len() {
        if let Some(text) = walk.next() {
            text.push('!')?;
        }
    }
    Ok(())
}

// Texts are written by a walk that may be refused, and those of two entries are made of what is at hand.
fn are_ended(alloc: Global, map: &mut Texts) -> Result<bool, TryReserveError> {
    put_texts(alloc, map)?;
    end_each(map)?;
    let mut values = map.values();
    let first = is_text(values.next(), "hello!");
    let second = is_text(values.next(), "goodbye!");
    Ok(first && second && values.next().is_none())
}

fn texts(alloc: Global) -> Result<bool, TryReserveError> {
    let mut map = Texts::new(alloc);
    are_ended(alloc, &mut map)
}

// Letters are counted by entries.
fn count_letters(counts: &mut Numbered) -> Result<(), TryReserveError> {
    for letter in ["a", "b", "a", "c", "a", "b"] {
        let count = counts.try_entry(letter)?.or_try_insert(0)?;
        *count = count.wrapping_add(1);
    }
    Ok(())
}

fn are_counted(counts: &mut Numbered) -> Result<bool, TryReserveError> {
    count_letters(counts)?;
    Ok(
        is_number(counts.get("a"), 3)
            && is_number(counts.get("b"), 2)
            && is_number(counts.get("c"), 1),
    )
}

fn entries(alloc: Global) -> Result<bool, TryReserveError> {
    let mut counts = Numbered::new(alloc);
    are_counted(&mut counts)
}

// An optional value begins as none.
fn begins_as_none(
    options: &mut BTreeMap<&'static str, Option<u64>>,
) -> Result<bool, TryReserveError> {
    Ok(options.try_entry("a")?.or_default()?.is_none())
}

fn options(alloc: Global) -> Result<bool, TryReserveError> {
    let mut options = BTreeMap::new(alloc);
    begins_as_none(&mut options)
}

#[test]
fn each_call_of_a_map_is_used(rt: HostRuntime) -> Result<(), Fail> {
    assert!(rt;
        one_pair(rt.alloc())?
            && joined_maps(rt.alloc())?
            && cut_map(rt.alloc())?
            && walks(rt.alloc())?
    );
    assert!(rt;
        writes(rt.alloc())? && texts(rt.alloc())? && entries(rt.alloc())? && options(rt.alloc())?
    );
    Ok(())
}

// Titles are kept, counted, taken out and walked in order.
fn are_titles(books: &mut BTreeSet<&'static str>) -> Result<bool, TryReserveError> {
    let is_new = books.try_insert("Walden")? && !books.try_insert("Walden")?;
    books.try_insert("Emma")?;
    books.try_insert("Utopia")?;
    let is_kept = books.len() == 3 && !books.contains("Ulysses") && books.contains("Emma");
    let is_taken = books.remove("Walden") && !books.remove("Walden");
    let mut walk = books.iter();
    let first = is_name(walk.next(), "Emma");
    let second = is_name(walk.next(), "Utopia");
    Ok(is_new && is_kept && is_taken && first && second && walk.next().is_none())
}

fn titles(alloc: Global) -> Result<bool, TryReserveError> {
    let mut books = BTreeSet::new(alloc);
    are_titles(&mut books)
}

fn is_one_item(set: &mut Numbers) -> Result<bool, TryReserveError> {
    put_items(set, &[3, 1, 2])?;
    let is_walked = is_set(set, &[1, 2, 3]);
    let is_found = is_number(set.get(&2), 2) && set.get(&4).is_none();
    let is_taken = set.take(&2) == Some(2) && set.take(&2).is_none();
    let mut from = set.range((Bound::Included(&2), Bound::Unbounded));
    let is_next = is_number(from.next(), 3) && from.next().is_none();
    set.clear();
    Ok(is_walked && is_found && is_taken && is_next && set.is_empty() && set.len() == 0)
}

fn one_item(alloc: Global) -> Result<bool, TryReserveError> {
    let mut set = Numbers::new(alloc);
    is_one_item(&mut set)
}

type Lists = BTreeSet<Vec<u64>>;

fn has_room(found: Option<&Vec<u64>>, least: usize, most: usize) -> bool {
    match found {
        Some(items) => least <= items.capacity() && items.capacity() <= most,
        None => false,
    }
}

// An equal item with more room takes the place of the one that is there.
fn is_replaced(alloc: Global, set: &mut Lists) -> Result<bool, TryReserveError> {
    set.try_insert(Vec::new(alloc))?;
    let none: &[u64] = &[];
    let is_small = has_room(set.get(none), 0, 0);
    let large = Vec::with_capacity(alloc, 10)?;
    set.replace(large)?;
    Ok(is_small && has_room(set.get(none), 10, usize::MAX) && set.len() == 1)
}

fn replaced(alloc: Global) -> Result<bool, TryReserveError> {
    let mut set = Lists::new(alloc);
    is_replaced(alloc, &mut set)
}

fn are_joined_sets(ours: &mut Numbers, theirs: &mut Numbers) -> Result<bool, TryReserveError> {
    put_items(ours, &[1, 2, 3])?;
    put_items(theirs, &[3, 4, 5])?;
    ours.append(theirs)?;
    Ok(theirs.is_empty() && is_set(ours, &[1, 2, 3, 4, 5]))
}

fn joined_sets(alloc: Global) -> Result<bool, TryReserveError> {
    let mut ours = Numbers::new(alloc);
    let mut theirs = Numbers::new(alloc);
    are_joined_sets(&mut ours, &mut theirs)
}

fn is_cut_set(low: &mut Numbers) -> Result<bool, TryReserveError> {
    put_items(low, &[41, 2, 17, 1, 3])?;
    let high = low.try_split_off(&3)?;
    Ok(is_set(low, &[1, 2]) && is_set(&high, &[3, 17, 41]))
}

fn cut_set(alloc: Global) -> Result<bool, TryReserveError> {
    let mut low = Numbers::new(alloc);
    is_cut_set(&mut low)
}

// What two sets have in common or apart, by walks.
fn are_walked(a: &mut Numbers, b: &mut Numbers) -> Result<bool, TryReserveError> {
    put_items(a, &[1, 2])?;
    put_items(b, &[2, 3])?;
    let mut apart = a.difference(b);
    let mut either = a.symmetric_difference(b);
    let mut both = a.intersection(b);
    let mut all = a.union(b);
    Ok(
        is_number(apart.next(), 1)
            && apart.next().is_none()
            && is_number(either.next(), 1)
            && is_number(either.next(), 3)
            && either.next().is_none()
            && is_number(both.next(), 2)
            && both.next().is_none()
            && is_number(all.next(), 1)
            && is_number(all.next(), 2)
            && is_number(all.next(), 3)
            && all.next().is_none(),
    )
}

fn operations(alloc: Global) -> Result<bool, TryReserveError> {
    let mut a = Numbers::new(alloc);
    let mut b = Numbers::new(alloc);
    are_walked(&mut a, &mut b)
}

fn sub_is(a: &Numbers, b: &Numbers, wanted: &[u64]) -> Result<bool, TryReserveError> {
    let made = a.sub(b)?;
    Ok(is_set(&made, wanted))
}

fn bitxor_is(a: &Numbers, b: &Numbers, wanted: &[u64]) -> Result<bool, TryReserveError> {
    let made = a.bitxor(b)?;
    Ok(is_set(&made, wanted))
}

fn bitand_is(a: &Numbers, b: &Numbers, wanted: &[u64]) -> Result<bool, TryReserveError> {
    let made = a.bitand(b)?;
    Ok(is_set(&made, wanted))
}

fn bitor_is(a: &Numbers, b: &Numbers, wanted: &[u64]) -> Result<bool, TryReserveError> {
    let made = a.bitor(b)?;
    Ok(is_set(&made, wanted))
}

// The same as new sets.
fn make_sets(a: &mut Numbers, b: &mut Numbers, c: &mut Numbers) -> Result<bool, TryReserveError> {
    put_items(a, &[1, 2, 3])?;
    put_items(b, &[3, 4, 5])?;
    put_items(c, &[2, 3, 4])?;
    Ok(
        sub_is(a, b, &[1, 2])?
            && bitxor_is(a, c, &[1, 4])?
            && bitand_is(a, c, &[2, 3])?
            && bitor_is(a, b, &[1, 2, 3, 4, 5])?,
    )
}

fn operators(alloc: Global) -> Result<bool, TryReserveError> {
    let mut a = Numbers::new(alloc);
    let mut b = Numbers::new(alloc);
    let mut c = Numbers::new(alloc);
    make_sets(&mut a, &mut b, &mut c)
}

// Two sets, and whether they have nothing in common, the first lies in the second, and the second in the first.
struct Row {
    ours: &'static [u64],
    theirs: &'static [u64],
    wanted: (bool, bool, bool),
}

// So many rows, by number.
const ROWS: [Row; 8] = [
    Row {
        ours: &[1, 2, 3],
        theirs: &[],
        wanted: (true, false, true),
    },
    Row {
        ours: &[1, 2, 3],
        theirs: &[4],
        wanted: (true, false, false),
    },
    Row {
        ours: &[1, 2, 3],
        theirs: &[2],
        wanted: (false, false, true),
    },
    Row {
        ours: &[],
        theirs: &[1, 2, 3],
        wanted: (true, true, false),
    },
    Row {
        ours: &[2],
        theirs: &[1, 2, 3],
        wanted: (false, true, false),
    },
    Row {
        ours: &[2, 4],
        theirs: &[1, 2, 3],
        wanted: (false, false, false),
    },
    Row {
        ours: &[],
        theirs: &[2],
        wanted: (true, true, false),
    },
    Row {
        ours: &[4],
        theirs: &[2],
        wanted: (true, false, false),
    },
];

fn lie_as(a: &mut Numbers, b: &mut Numbers, row: &Row) -> Result<bool, TryReserveError> {
    put_items(a, row.ours)?;
    put_items(b, row.theirs)?;
    let (is_disjoint, is_subset, is_superset) = row.wanted;
    Ok(
        a.is_disjoint(b) == is_disjoint
            && a.is_subset(b) == is_subset
            && a.is_superset(b) == is_superset,
    )
}

fn is_answered(alloc: Global, row: &Row) -> Result<bool, TryReserveError> {
    let mut a = Numbers::new(alloc);
    let mut b = Numbers::new(alloc);
    lie_as(&mut a, &mut b, row)
}

fn predicates(alloc: Global) -> Result<bool, TryReserveError> {
    for row in &ROWS {
        if !is_answered(alloc, row)? {
            return Ok(false);
        }
    }
    Ok(true)
}

#[test]
fn each_call_of_a_set_is_used(rt: HostRuntime) -> Result<(), Fail> {
    assert!(rt; titles(rt.alloc())? && one_item(rt.alloc())? && replaced(rt.alloc())?);
    assert!(rt; joined_sets(rt.alloc())? && cut_set(rt.alloc())? && operations(rt.alloc())?);
    assert!(rt; operators(rt.alloc())? && predicates(rt.alloc())?);
    Ok(())
}
