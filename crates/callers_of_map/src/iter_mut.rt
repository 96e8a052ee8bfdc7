//! What callers prove of writing walks through their public clauses alone.
ghost use Rattle.std.specs.Prelude.{◌≡◌, ◌+◌, ◌-◌, ◌<◌, length, map, min, slice_get, IsTrue, MatchOption, Some};
ghost use Rattle.std.specs.Option.{option_map};
ghost use Rattle.fc_base.specs.Ranges.{bound_now, is_range};
ghost use Rattle.fc_map.specs.Entries.{entries};
ghost use Rattle.fc_map.specs.Writing.{set_value, starting, whole, wrote_all};

use fc_map::map::BTreeMap;
use std::ops::Bound;

/// Writes over the first value.
pub fn write_first<K: Ord, V: Drop>(map: &mut BTreeMap<K, V>, value: V)
    requires { 0 < length (entries map.old) }
    ensures { entries map.new ≡ set_value (entries map.old) 0 value }
{
    let mut walk = map.iter_mut();
    if let Some(v) = walk.next() {
        *v = value;
    }
}

/// The first key, as the walk shows it before it lends the value. Neither key nor value has to be of a type that can be dropped.
pub fn first_key_to_write<K: Ord + Copy, V>(map: &mut BTreeMap<K, V>) -> Option<K>
    ensures key { MatchOption result (length (entries map.old) ≡ 0) (λ key. option_map (λ p. p.0) (slice_get (entries map.old) 0) ≡ Some key) }
    ensures unchanged { entries map.new ≡ entries map.old }
{
    let walk = map.iter_mut();
    match walk.peek() {
        Some((key, _value)) => Some(*key),
        None => None,
    }
}

/// Raises each value by one, as far as its numbers go.
pub fn raise_each<K: Ord>(counts: &mut BTreeMap<K, u64>)
    ensures { entries counts.new ≡ map (λ e. (e.0, min (e.1 + 1) u64.MAX)) (entries counts.old) }
{
    counts
        .iter_mut()
        .for_each(|_key, value| *value = value.saturating_add(1));
}

/// Writes over values from both ends, in turn.
pub fn write_all<K: Ord, V: Copy>(map: &mut BTreeMap<K, V>, writes: &[(bool, V)])
    ensures { entries map.new ≡ (wrote_all (whole (entries map.old)) writes.now).list }
{
    let mut walk = map.iter_mut();
    for write in writes {
        if write.0 {
            if let Some(v) = walk.next() {
                *v = write.1;
            }
        } else if let Some(v) = walk.next_back() {
            *v = write.1;
        }
    }
}

/// Writes over values of a range from both ends, in turn, and answers how many were written.
pub fn write_range<K: Ord, V: Copy>(
    map: &mut BTreeMap<K, V>,
    bounds: (Bound<&K>, Bound<&K>),
    writes: &[(bool, V)],
) -> usize
    requires { IsTrue (is_range K.cmp (bound_now bounds.0) (bound_now bounds.1)) }
    ensures written { entries map.new ≡ (wrote_all (starting K.cmp (bound_now bounds.entry.0) (bound_now bounds.entry.1) (entries map.old)) writes.now).list }
    ensures count { result ≡ min (length writes.now) ((starting K.cmp (bound_now bounds.entry.0) (bound_now bounds.entry.1) (entries map.old)).back - (starting K.cmp (bound_now bounds.entry.0) (bound_now bounds.entry.1) (entries map.old)).front) }
{
    let mut walk = map.range_mut(bounds);
    let mut count = 0;
    for write in writes {
        if write.0 {
            if let Some(v) = walk.next() {
                *v = write.1;
                count += 1;
            }
        } else if let Some(v) = walk.next_back() {
            *v = write.1;
            count += 1;
        }
    }
    count
}
