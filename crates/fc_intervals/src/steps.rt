//! The steps of the calls, on the map that holds stretches by their starts.
ghost use Rattle.std.specs.Prelude.{◌≡◌, ◌+◌, ◌<◌, ◌++◌, true, cond, length, None, Some, IfOk, IfErr, OnOk, OnErr, IsErr};
ghost use Rattle.std.specs.Ordering.{is_le};
ghost use Rattle.std.specs.declared.cmp.Ordering.TheVariants.{Less};
ghost use Rattle.std.specs.declared.ops.Bound.TheVariants.{Included, Excluded};
ghost use Rattle.fc_base.specs.Halves.{not_below};
ghost use Rattle.fc_base.specs.OneKey.{cut, put as with_pair};
ghost use Rattle.fc_base.specs.Parts.{below};
ghost use Rattle.fc_base.specs.Ranges.{within};
ghost use Rattle.fc_map.specs.Entries.{entries, now_pair};
ghost use Rattle.fc_map.specs.Ranged.{outside};
ghost use Rattle.fc_laws.specs.Words.{last_item};
ghost use Rattle.fc_intervals.specs.Handed.{MayRefuseCopy};
ghost use Rattle.fc_intervals.specs.Put.{IsPut};
ghost use Rattle.fc_intervals.specs.Refusals.{MayRefuseAt, MayRefusePut, MayRefuseRest, parted_length, put_length, starts_at};
ghost use Rattle.fc_intervals.specs.Stretches.{AreApart, IsLookUp, IsWritten, overlapping, stretch_at};
ghost use Rattle.fc_intervals.specs.Steps.{before, EndsBy, IsCut, IsParted, IsRest};

use crate::stretch::Stretch;
use fc_base::{Count, Handle, TryClone, TryReserveError, compare};
use fc_map::map::BTreeMap;
use std::ops::Bound;

pub(crate) mod handed;

/// The stretch that covers a point, if one does.
pub(crate) fn covering<'a, K: Ord, V, A: Handle>(
    map: &'a BTreeMap<K, Stretch<K, V>, A>,
    at: &K,
    count: &mut Count,
) -> Option<(&'a K, &'a Stretch<K, V>)>
    requires { AreApart K.cmp (entries map.now) }
    ensures pair { now_pair result ≡ stretch_at K.cmp (entries map.now) at.now }
    ensures look_up { IsLookUp (length (entries map.now)) count.old count.new }
{
    let (start, stretch) = map.last_at_or_before_counted(at, count)?;
    if compare(at, &stretch.end, count).is_lt() {
        Some((start, stretch))
    } else {
        None
    }
}

/// Where the walk over the stretches that have a point in common with a range starts: at the stretch that covers its start, or there.
pub(crate) fn start_within<K: Ord + Copy, V, A: Handle>(
    map: &BTreeMap<K, Stretch<K, V>, A>,
    from: K,
    to: K,
    count: &mut Count,
) -> K
    requires { AreApart K.cmp (entries map.now) }
    ensures { within K.cmp (Included result) (Excluded to) (entries map.now) ≡ overlapping K.cmp (entries map.now) from to }
{
    if !compare(&from, &to, count).is_lt() {
        return from;
    }
    match covering(map, &from, count) {
        Some((start, _stretch)) => *start,
        None => from,
    }
}

/// What goes on after a point, of the last stretch that starts before it: its end, and a copy of its value.
pub(crate) fn rest_after<K: Ord + Copy, V: TryClone, A: Handle>(
    map: &BTreeMap<K, Stretch<K, V>, A>,
    at: K,
) -> Result<Option<Stretch<K, V>>, TryReserveError>
    requires { V.can_clone }
    ensures rest { IfOk result (λ rest. IsRest K.cmp V.same (entries map.now) at rest) }
    ensures error { IfErr result (MayRefuseRest K.cmp V.may_refuse (entries map.now) at) }
    ensures copy { IfErr result (MayRefuseCopy K.cmp V.may_refuse (entries map.now) at) }
{
    let Some((_, stretch)) = map.last_before(&at) else {
        return Ok(None);
    };
    if !at.cmp(&stretch.end).is_lt() {
        return Ok(None);
    }
    let value = stretch.value.try_clone()?;
    Ok(Some(Stretch {
        end: stretch.end,
        value,
    }))
}

// Whether no stretch has a point in common with a range that is not empty.
fn is_free<K: Ord + Copy, V, A: Handle>(map: &BTreeMap<K, Stretch<K, V>, A>, from: K, to: K) -> bool
    ensures { result ≡ true → EndsBy K.cmp from (last_item (below K.cmp (entries map.now) to)) }
{
    match map.last_before(&to) {
        Some((_, stretch)) => !from.cmp(&stretch.end).is_lt(),
        None => true,
    }
}

// Puts a stretch in at a point.
fn put_in<K: Ord + Copy + Drop, V: Drop, A: Handle>(
    map: &mut BTreeMap<K, Stretch<K, V>, A>,
    at: K,
    stretch: Stretch<K, V>,
) -> Result<(), (V, TryReserveError)>
    ensures put { OnOk result (entries map.new ≡ with_pair K.cmp (entries map.old) at stretch) }
    ensures unchanged { OnErr result (entries map.new ≡ entries map.old) }
    ensures back { IfErr result (λ e. e.0 ≡ stretch.value) }
    ensures error { IfErr result (λ e. MayRefuseAt K.cmp (entries map.old) at (length (entries map.old)) e.1) }
    ensures full { usize.MAX < length (entries map.old) + cond (starts_at K.cmp (entries map.old) at) 0 1 → IsErr result }
{
    // Shows that the number of stretches is a usize.
    let _len = map.len();
    match map.try_insert(at, stretch) {
        Ok(old) => {
            drop(old);
            Ok(())
        }
        Err((_, stretch, error)) => Err((stretch.value, error)),
    }
}

// Has what goes on after a point start there too, and answers whether something does.
fn part<K: Ord + Copy + Drop, V: TryClone, A: Handle>(
    map: &mut BTreeMap<K, Stretch<K, V>, A>,
    at: K,
) -> Result<bool, TryReserveError>
    requires can { V.can_clone }
    requires apart { AreApart K.cmp (entries map.old) }
    ensures parted { IfOk result (λ is_parted. IsParted K.cmp V.same at is_parted (entries map.old) (entries map.new)) }
    ensures unchanged { OnErr result (entries map.new ≡ entries map.old) }
    ensures error { IfErr result (MayRefuseRest K.cmp V.may_refuse (entries map.old) at) }
    ensures full { usize.MAX < parted_length K.cmp (entries map.old) at → IsErr result }
{
    // Shows that the number of stretches is a usize.
    let _len = map.len();
    let Some(rest) = rest_after(map, at)? else {
        return Ok(false);
    };
    if let Err((_, error)) = put_in(map, at, rest) {
        return Err(error);
    }
    Ok(true)
}

// Has the last stretch that starts before a point end there, where it goes on after it.
fn end_at<K: Ord + Copy, V, A: Handle>(map: &mut BTreeMap<K, Stretch<K, V>, A>, at: K)
    requires { AreApart K.cmp (below K.cmp (entries map.old) at) }
    ensures ended { entries map.new ≡ before K.cmp (entries map.old) at ++ not_below K.cmp (entries map.old) at }
{
    if let Some(mut entry) = map.last_entry_before(&at) {
        if at.cmp(&entry.get().end).is_lt() {
            entry.get_mut().end = at;
        }
    }
}

// Puts a stretch in at a point, and leaves no other in its range. Where that was refused, what was parted at its end is one again.
fn put_parted<K: Ord + Copy + Drop, V: Drop, A: Handle>(
    map: &mut BTreeMap<K, Stretch<K, V>, A>,
    from: K,
    stretch: Stretch<K, V>,
    is_parted: bool,
) -> Result<(), (V, TryReserveError)>
    requires { AreApart K.cmp (below K.cmp (entries map.old) from) }
    ensures put { OnOk result (let s = with_pair K.cmp (entries map.old) from stretch in entries map.new ≡ outside K.cmp (Excluded from) (Excluded stretch.end) (before K.cmp s from ++ not_below K.cmp s from)) }
    ensures undone { OnErr result (entries map.new ≡ cond is_parted (cut K.cmp (entries map.old) stretch.end) (entries map.old)) }
    ensures back { IfErr result (λ e. e.0 ≡ stretch.value) }
    ensures error { IfErr result (λ e. MayRefuseAt K.cmp (entries map.old) from (length (entries map.old)) e.1) }
    ensures full { usize.MAX < length (entries map.old) + cond (starts_at K.cmp (entries map.old) from) 0 1 → IsErr result }
{
    let to = stretch.end;
    if let Err(refused) = put_in(map, from, stretch) {
        if is_parted {
            map.remove(&to);
        }
        return Err(refused);
    }
    end_at(map, from);
    map.remove_range((Bound::Excluded(&from), Bound::Excluded(&to)));
    Ok(())
}

// Puts a stretch in over others. What goes on after it is put in first: no stretch is cut or dropped before all memory was taken.
fn put_across<K: Ord + Copy + Drop, V: TryClone, A: Handle>(
    map: &mut BTreeMap<K, Stretch<K, V>, A>,
    from: K,
    stretch: Stretch<K, V>,
) -> Result<(), (V, TryReserveError)>
    requires can { V.can_clone }
    requires apart { AreApart K.cmp (entries map.old) }
    requires range { K.cmp from stretch.end ≡ Less }
    ensures apart { OnOk result (AreApart K.cmp (entries map.new)) }
    ensures put { OnOk result (IsPut K.cmp V.same from stretch.end stretch.value (entries map.old) (entries map.new)) }
    ensures written { OnOk result (IsWritten K.cmp V.same from stretch.end (Some stretch.value) (entries map.old) (entries map.new)) }
    ensures unchanged { OnErr result (entries map.new ≡ entries map.old) }
    ensures back { IfErr result (λ e. e.0 ≡ stretch.value) }
    ensures error { IfErr result (λ e. MayRefusePut K.cmp V.may_refuse (entries map.old) from stretch.end e.1) }
    ensures full { usize.MAX < put_length K.cmp (entries map.old) from stretch.end → IsErr result }
{
    match part(map, stretch.end) {
        Ok(is_parted) => put_parted(map, from, stretch, is_parted),
        Err(error) => Err((stretch.value, error)),
    }
}

/// Gives all points of a range that is not empty a value: those from a point to the end of the stretch.
pub(crate) fn put<K: Ord + Copy + Drop, V: TryClone, A: Handle>(
    map: &mut BTreeMap<K, Stretch<K, V>, A>,
    from: K,
    stretch: Stretch<K, V>,
) -> Result<(), (V, TryReserveError)>
    requires can { V.can_clone }
    requires apart { AreApart K.cmp (entries map.old) }
    requires range { K.cmp from stretch.end ≡ Less }
    ensures apart { OnOk result (AreApart K.cmp (entries map.new)) }
    ensures put { OnOk result (IsPut K.cmp V.same from stretch.end stretch.value (entries map.old) (entries map.new)) }
    ensures written { OnOk result (IsWritten K.cmp V.same from stretch.end (Some stretch.value) (entries map.old) (entries map.new)) }
    ensures unchanged { OnErr result (entries map.new ≡ entries map.old) }
    ensures back { IfErr result (λ e. e.0 ≡ stretch.value) }
    ensures error { IfErr result (λ e. MayRefusePut K.cmp V.may_refuse (entries map.old) from stretch.end e.1) }
    ensures full { usize.MAX < put_length K.cmp (entries map.old) from stretch.end → IsErr result }
{
    if is_free(map, from, stretch.end) {
        put_in(map, from, stretch)
    } else {
        put_across(map, from, stretch)
    }
}

/// Leaves no stretch in a range: one that goes on into it ends there, those that start in it are dropped, and what goes on after it
/// starts there.
pub(crate) fn clear<K: Ord + Copy + Drop, V: TryClone, A: Handle>(
    map: &mut BTreeMap<K, Stretch<K, V>, A>,
    from: K,
    to: K,
) -> Result<(), TryReserveError>
    requires can { V.can_clone }
    requires apart { AreApart K.cmp (entries map.old) }
    requires range { is_le (K.cmp from to) ≡ true }
    ensures cut { OnOk result (IsCut K.cmp V.same from to (entries map.old) (entries map.new)) }
    ensures apart { OnOk result (AreApart K.cmp (entries map.new)) }
    ensures written { OnOk result (IsWritten K.cmp V.same from to None (entries map.old) (entries map.new)) }
    ensures unchanged { OnErr result (entries map.new ≡ entries map.old) }
    ensures error { IfErr result (MayRefuseRest K.cmp V.may_refuse (entries map.old) to) }
    ensures full { usize.MAX < parted_length K.cmp (entries map.old) to → IsErr result }
{
    part(map, to)?;
    end_at(map, from);
    map.remove_range(from..to);
    Ok(())
}
