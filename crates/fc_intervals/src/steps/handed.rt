//! Stretches that are cut out of a range and handed over, on the map that holds stretches by their starts.
ghost use Rattle.std.specs.Prelude.{◌≡◌, ◌⊎◌, ◌<◌, ◌∷◌, [], List, map as mapped, None, IfSome, IfNone, IfErr, OnOk, OnErr, IsErr};
ghost use Rattle.std.specs.declared.cmp.Ordering.TheVariants.{Less};
ghost use Rattle.std.specs.declared.ops.Bound.TheVariants.{Included, Excluded};
ghost use Rattle.fc_base.specs.Ranges.{within};
ghost use Rattle.fc_map.specs.Entries.{entries};
ghost use Rattle.fc_map.specs.Ranged.{outside};
ghost use Rattle.fc_intervals.specs.Handed.{GivenStretch, HandsInTurn, IsCutOut, MayRefuseCopy};
ghost use Rattle.fc_intervals.specs.Refusals.{MayRefuseRest, parted_length};
ghost use Rattle.fc_intervals.specs.Steps.{ended, IsCut, starting};
ghost use Rattle.fc_intervals.specs.Stretches.{AreApart, IsWritten};
ghost use Rattle.fc_intervals.specs.declared.stretch.Stretch.{Stretch as Held};

use super::{end_at, part, rest_after};
use crate::stretch::Stretch;
use fc_base::{Handle, TryClone, TryReserveError};
use fc_map::map::BTreeMap;
use std::ops::Range;

// Takes the first of the stretches that start in a range out.
fn take_first<K: Ord + Copy + Drop, V: Drop, A: Handle>(
    map: &mut BTreeMap<K, Stretch<K, V>, A>,
    from: K,
    to: K,
) -> Option<(K, Stretch<K, V>)>
    ensures taken { IfSome result (λ e. within K.cmp (Included from) (Excluded to) (entries map.old) ≡ e ∷ within K.cmp (Included from) (Excluded to) (entries map.new)) }
    ensures none { IfNone result (within K.cmp (Included from) (Excluded to) (entries map.new) ≡ []) }
    ensures rest { outside K.cmp (Included from) (Excluded to) (entries map.new) ≡ outside K.cmp (Included from) (Excluded to) (entries map.old) }
    ensures unchanged { IfNone result (entries map.new ≡ entries map.old) }
{
    let (start, _stretch) = map.range(from..to).next()?;
    let start = *start;
    map.remove_entry(&start)
}

// Hands what goes on after a point over, up to a later one, where something does.
fn hand_rest<K: Ord + Drop, V, F: FnMut(Range<K>, V)>(
    from: K,
    rest: Option<Stretch<K, V>>,
    to: K,
    f: &mut F,
)
    requires callable { F.IsAlwaysCallable f.old }
    ensures handed { HandsInTurn (GivenStretch F.FnMut) f.old (mapped (ended K.cmp to) (starting from rest)) f.new }
    ensures callable { F.IsAlwaysCallable f.new }
{
    if let Some(stretch) = rest {
        f(from..stretch.end.min(to), stretch.value);
    }
}

// Takes the stretches that start in a range out, and hands each over, up to the range's end.
fn hand_starting<K: Ord + Copy + Drop, V: Drop, A: Handle, F: FnMut(Range<K>, V)>(
    map: &mut BTreeMap<K, Stretch<K, V>, A>,
    from: K,
    to: K,
    f: &mut F,
)
    requires callable { F.IsAlwaysCallable f.old }
    ensures rest { entries map.new ≡ outside K.cmp (Included from) (Excluded to) (entries map.old) }
    ensures handed { HandsInTurn (GivenStretch F.FnMut) f.old (mapped (ended K.cmp to) (within K.cmp (Included from) (Excluded to) (entries map.old))) f.new }
{
    'stretches: while let Some((start, stretch)) = take_first(map, from, to) {
        f(start..stretch.end.min(to), stretch.value);
    }
}

/// `clear` over a range that is not empty, which hands what it takes out over, in ascending order.
pub(crate) fn clear_with<K: Ord + Copy + Drop, V: TryClone, A: Handle, F: FnMut(Range<K>, V)>(
    map: &mut BTreeMap<K, Stretch<K, V>, A>,
    from: K,
    to: K,
    mut f: F,
) -> Result<(), TryReserveError>
    requires can { V.can_clone }
    requires callable { F.IsAlwaysCallable f }
    requires apart { AreApart K.cmp (entries map.old) }
    requires range { K.cmp from to ≡ Less }
    ensures cut { OnOk result (IsCut K.cmp V.same from to (entries map.old) (entries map.new)) }
    ensures apart { OnOk result (AreApart K.cmp (entries map.new)) }
    ensures written { OnOk result (IsWritten K.cmp V.same from to None (entries map.old) (entries map.new)) }
    ensures handed { OnOk result ((out : List (K × Held K V)) × (last : F) × IsCutOut K.cmp V.same from to (entries map.old) out × HandsInTurn (GivenStretch F.FnMut) f out last) }
    ensures unchanged { OnErr result (entries map.new ≡ entries map.old) }
    ensures error { IfErr result (λ e. MayRefuseCopy K.cmp V.may_refuse (entries map.old) from e ⊎ MayRefuseRest K.cmp V.may_refuse (entries map.old) to e) }
    ensures full { usize.MAX < parted_length K.cmp (entries map.old) to → IsErr result }
{
    // Copies are made and memory is taken before anything is handed over.
    let first = rest_after(map, from)?;
    part(map, to)?;
    end_at(map, from);
    hand_rest(from, first, to, &mut f);
    hand_starting(map, from, to, &mut f);
    Ok(())
}
