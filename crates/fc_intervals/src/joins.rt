//! Two stretches that touch, made one, on the map that holds stretches by their starts.
ghost use Rattle.std.specs.Prelude.{◌≡◌, ◌⊎◌, [], IfSome, IfNone};
ghost use Rattle.fc_base.specs.Parts.{below};
ghost use Rattle.fc_map.specs.Entries.{entries};
ghost use Rattle.fc_intervals.specs.Joined.{AreJoint, IsDrawnOut, NoneJoint};
ghost use Rattle.fc_intervals.specs.declared.stretch.Stretch.{Stretch as Held};

use crate::stretch::Stretch;
use fc_base::Handle;
use fc_map::map::BTreeMap;

/// The end of the stretch that starts at a point, where one ends there and both hold equal values.
pub(crate) fn joint_end<K: Ord + Copy, V: PartialEq, A: Handle>(
    map: &BTreeMap<K, Stretch<K, V>, A>,
    at: K,
) -> Option<K>
    ensures joint { IfSome result (λ end. (y : K × Held K V) × (z : Held K V) × AreJoint K.cmp V.eq at (entries map.now) y z × (end ≡ z.end)) }
    ensures none { IfNone result (NoneJoint K.cmp V.eq at (entries map.now)) }
{
    let (_, first) = map.last_before(&at)?;
    let second = map.get(&at)?;
    if first.end.cmp(&at).is_eq() && first.value.eq(&second.value) {
        Some(second.end)
    } else {
        None
    }
}

/// Has the last stretch that starts before a point end at another.
pub(crate) fn draw_out<K: Ord + Copy, V, A: Handle>(
    map: &mut BTreeMap<K, Stretch<K, V>, A>,
    at: K,
    end: K,
)
    ensures ended { (below K.cmp (entries map.old) at ≡ []) ⊎ IsDrawnOut K.cmp at (entries map.old) end (entries map.new) }
{
    if let Some(mut entry) = map.last_entry_before(&at) {
        entry.get_mut().end = end;
    }
}
