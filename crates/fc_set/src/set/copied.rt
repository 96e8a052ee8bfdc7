//! Sets made of copies of what a walk lends, in one pass and without a search.
ghost use Rattle.std.specs.Prelude.{◌≡◌, ◌<◌, ◌≤◌, ◌⊎◌, true, List, [], length, Any, IfOk, IfErr, IsErr};
ghost use Rattle.std.specs.Iterator.{IsFinite};
ghost use Rattle.std.specs.List.{AllZip};
ghost use Rattle.fc_map.specs.Entries.{IsSoundMap};
ghost use Rattle.fc_set.specs.Copied.{Lends, MayCopyRefuse};
ghost use Rattle.fc_set.specs.Items.{items, AreAscending};

use super::BTreeSet;
use fc_base::{Asked, Handle, TryClone, TryReserveError};
use fc_map::map::for_sets;
use fc_tree_build::growing::GrowingBuilder;

// A set of copies of the items that the walk lends, which ascend, and the call is told whether they are known to be at most `usize::MAX`.
// Where they are not, a second walk counts them first.
pub(super) fn try_copied<
    'a,
    T: Ord + TryClone + 'a,
    I: Iterator<Item = &'a T> + Clone + Drop,
    A: Handle,
>(alloc: A, few: bool, walk: I) -> Result<BTreeSet<T, A>, TryReserveError>
    requires copies { T.can_clone }
    requires equal { (a b : T) → T.same a b → T.eq a b ≡ true }
    requires ends { I.can_next walk × IsFinite (I.remaining walk) }
    requires again { I.is_infallible walk × ((other : I) → I.is_clone walk other → other ≡ walk) }
    requires gives { (all : List T) × Lends I.next_gives walk all × AreAscending T.cmp all × (few ≡ true → length all ≤ usize.MAX) }
    ensures copied { (all : List T) → Lends I.next_gives walk all → IfOk result (λ made. AllZip T.same all (items made)) }
    ensures error { (all : List T) → Lends I.next_gives walk all → (few ≡ true → length all ≤ usize.MAX) → IfErr result (MayCopyRefuse T.may_refuse all) }
    ensures full { (all : List T) → Lends I.next_gives walk all → usize.MAX < length all → IsErr result }
    ensures ascending { IfOk result (λ made. AreAscending T.cmp (items made)) }
    ensures sound { IfOk result (λ made. IsSoundMap made) }
{
    if few {
        return try_filled(alloc, walk);
    }
    let _count = try_count(walk.clone()?)?;
    try_filled(alloc, walk)
}

// How many items the walk gives.
fn try_count<'a, T: 'a, I: Iterator<Item = &'a T> + Drop>(walk: I) -> Result<usize, TryReserveError>
    requires ends { I.can_next walk × IsFinite (I.remaining walk) }
    ensures count { IfOk result (λ count. (all : List T) → Lends I.next_gives walk all → count ≡ length all) }
    ensures error { IfErr result (λ e. (e ≡ TryReserveError.CapacityOverflow) × ((all : List T) → Lends I.next_gives walk all → usize.MAX < length all)) }
{
    let mut count = 0usize;
    for _item in walk {
        if count == usize::MAX {
            return Err(TryReserveError::CapacityOverflow);
        }
        count += 1;
    }
    Ok(count)
}

// A set of copies of the items that the walk lends, which ascend.
fn try_filled<'a, T: Ord + TryClone + 'a, I: Iterator<Item = &'a T> + Drop, A: Handle>(
    alloc: A,
    walk: I,
) -> Result<BTreeSet<T, A>, TryReserveError>
    requires copies { T.can_clone }
    requires equal { (a b : T) → T.same a b → T.eq a b ≡ true }
    requires ends { I.can_next walk × IsFinite (I.remaining walk) }
    requires gives { (all : List T) × Lends I.next_gives walk all × AreAscending T.cmp all × (length all ≤ usize.MAX) }
    ensures copied { IfOk result (λ made. (all : List T) → Lends I.next_gives walk all → AllZip T.same all (items made)) }
    ensures fits { IfOk result (λ _. (all : List T) → Lends I.next_gives walk all → length all ≤ usize.MAX) }
    ensures some { IsErr result → (all : List T) → Lends I.next_gives walk all → 0 < length all }
    ensures error { IfErr result (λ e. (all : List T) → Lends I.next_gives walk all → (e ≡ TryReserveError.AllocError) ⊎ Any (λ x. T.may_refuse x e) all) }
    ensures ascending { IfOk result (λ made. AreAscending T.cmp (items made)) }
    ensures sound { IfOk result (λ made. IsSoundMap made) }
{
    let asked = &mut Asked::new();
    let mut builder = GrowingBuilder::new(alloc);
    for item in walk {
        let copy = item.try_clone()?;
        match builder.push((copy, ()), asked) {
            Ok(()) => (),
            Err((_pair, error)) => return Err(error),
        }
    }
    Ok(BTreeSet {
        map: for_sets::from_grown(alloc, builder),
    })
}
