//! What a call of the map drops of what it was given. No clause speaks of that: a body that leaves a value to `mem::forget` is proved too.
use super::*;

fn put_one<'a>(map: &mut Tracked<'a>, kept: &'a Drops) -> Result<(), TryReserveError> {
    let (key, value) = pair(1, kept);
    map.try_insert(key, value)?;
    Ok(())
}

fn one_pair<'a>(alloc: Global, kept: &'a Drops) -> Result<Tracked<'a>, TryReserveError> {
    let mut map = BTreeMap::new(alloc);
    put_one(&mut map, kept)?;
    Ok(map)
}

// Whether the old value is answered, and the key that was put in is dropped.
fn answers_its_old_value<'a>(
    map: &mut Tracked<'a>,
    kept: &Drops,
    given: &'a Drops,
) -> Result<bool, TryReserveError> {
    let (key, value) = pair(1, given);
    let old = map.try_insert(key, value)?;
    Ok(old.is_some() && were_dropped(given, 1, 0) && were_dropped(kept, 0, 0))
}

// The key that is there stays, and its old value is answered.
fn an_insertion_drops_its_key<'a>(
    alloc: Global,
    kept: &'a Drops,
    given: &'a Drops,
) -> Result<bool, TryReserveError> {
    let mut map = one_pair(alloc, kept)?;
    let is_right = answers_its_old_value(&mut map, kept, given)?;
    drop(map);
    Ok(is_right && were_dropped(given, 1, 1) && were_dropped(kept, 1, 1))
}

fn an_occupied_entry_drops_key_and_value<'a>(
    alloc: Global,
    kept: &'a Drops,
    given: &'a Drops,
) -> Result<bool, TryReserveError> {
    let mut map = one_pair(alloc, kept)?;
    let (key, value) = pair(1, given);
    let _lent = map.try_entry(key)?.or_try_insert(value)?;
    Ok(were_dropped(given, 1, 1) && were_dropped(kept, 0, 0))
}

fn a_vacant_entry_keeps_key_and_value<'a>(
    alloc: Global,
    kept: &'a Drops,
    given: &'a Drops,
) -> Result<bool, TryReserveError> {
    let mut map = one_pair(alloc, kept)?;
    let (key, value) = pair(2, given);
    let _lent = map.try_entry(key)?.or_try_insert(value)?;
    let is_kept = were_dropped(given, 0, 0) && were_dropped(kept, 0, 0);
    drop(map);
    Ok(is_kept && were_dropped(given, 1, 1) && were_dropped(kept, 1, 1))
}

// Where a value is there, the closure is not called, and what it holds is dropped with it.
fn an_occupied_entry_drops_its_closure<'a>(
    alloc: Global,
    kept: &'a Drops,
    given: &'a Drops,
) -> Result<bool, TryReserveError> {
    let mut map = one_pair(alloc, kept)?;
    let (key, value) = pair(1, given);
    let _lent = map.try_entry(key)?.or_try_insert_with(|| value)?;
    Ok(were_dropped(given, 1, 1) && were_dropped(kept, 0, 0))
}

fn two_pairs<'a>(
    alloc: Global,
    given: &'a Drops,
) -> Result<Vec<(Token<'a>, Token<'a>)>, TryReserveError> {
    let mut items = Vec::new(alloc);
    items.push(pair(1, given))?;
    items.push(pair(2, given))?;
    Ok(items)
}

// Of two equal keys the old one stays, and the old value goes.
fn an_extension_drops_old_values<'a>(
    alloc: Global,
    kept: &'a Drops,
    given: &'a Drops,
) -> Result<bool, TryReserveError> {
    let mut map = one_pair(alloc, kept)?;
    map.try_extend(two_pairs(alloc, given)?)?;
    Ok(were_dropped(given, 1, 0) && were_dropped(kept, 0, 1))
}

// Of two equal keys that of the other map stays, with its value.
fn takes_the_others_pair<'a>(
    map: &mut Tracked<'a>,
    other: &mut Tracked<'a>,
    kept: &'a Drops,
    given: &'a Drops,
) -> Result<bool, TryReserveError> {
    put_one(map, kept)?;
    put_one(other, given)?;
    map.append(other)?;
    Ok(were_dropped(given, 0, 0) && were_dropped(kept, 1, 1))
}

fn an_append_drops_our_pair<'a>(
    alloc: Global,
    kept: &'a Drops,
    given: &'a Drops,
) -> Result<bool, TryReserveError> {
    let mut map = BTreeMap::new(alloc);
    let mut other = BTreeMap::new(alloc);
    takes_the_others_pair(&mut map, &mut other, kept, given)
}

fn is_cleared<'a>(alloc: Global, kept: &'a Drops) -> Result<bool, TryReserveError> {
    let mut map = one_pair(alloc, kept)?;
    map.clear();
    Ok(were_dropped(kept, 1, 1))
}

fn is_walked_over<'a>(alloc: Global, given: &'a Drops) -> Result<bool, TryReserveError> {
    let mut walk = one_pair(alloc, given)?.into_iter();
    let first = walk.next();
    let is_kept = first.is_some() && were_dropped(given, 0, 0);
    drop(walk);
    drop(first);
    Ok(is_kept && were_dropped(given, 1, 1))
}

// A map that is emptied, or that a walk of its pairs leaves, drops them.
fn each_pair_goes_with_its_map<'a>(
    alloc: Global,
    kept: &'a Drops,
    given: &'a Drops,
) -> Result<bool, TryReserveError> {
    Ok(is_cleared(alloc, kept)? && is_walked_over(alloc, given)?)
}

#[test]
fn an_insertion_drops_what_it_does_not_keep(rt: HostRuntime) -> Result<(), Fail> {
    let (kept, given) = (no_drops(), no_drops());
    assert!(rt; an_insertion_drops_its_key(rt.alloc(), &kept, &given)?);
    let (kept, given) = (no_drops(), no_drops());
    assert!(rt; an_extension_drops_old_values(rt.alloc(), &kept, &given)?);
    Ok(())
}

#[test]
fn a_map_drops_what_it_does_not_keep(rt: HostRuntime) -> Result<(), Fail> {
    let (kept, given) = (no_drops(), no_drops());
    assert!(rt; an_append_drops_our_pair(rt.alloc(), &kept, &given)?);
    let (kept, given) = (no_drops(), no_drops());
    assert!(rt; each_pair_goes_with_its_map(rt.alloc(), &kept, &given)?);
    Ok(())
}

#[test]
fn an_entry_drops_what_it_does_not_keep(rt: HostRuntime) -> Result<(), Fail> {
    let (kept, given) = (no_drops(), no_drops());
    assert!(rt; an_occupied_entry_drops_key_and_value(rt.alloc(), &kept, &given)?);
    let (kept, given) = (no_drops(), no_drops());
    assert!(rt; a_vacant_entry_keeps_key_and_value(rt.alloc(), &kept, &given)?);
    let (kept, given) = (no_drops(), no_drops());
    assert!(rt; an_occupied_entry_drops_its_closure(rt.alloc(), &kept, &given)?);
    Ok(())
}
