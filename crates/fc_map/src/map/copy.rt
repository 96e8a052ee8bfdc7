//! Copies of maps.
ghost use Rattle.std.specs.Prelude.{◌≡◌, true, IfOk, MatchResult};
ghost use Rattle.std.specs.List.{AllZip};
ghost use Rattle.fc_base.specs.Ascending.{IsAscending};
ghost use Rattle.fc_base.specs.Copies.{MayRefuseCopies, MayRefusePair};
ghost use Rattle.fc_tree_copy.specs.Copy.{AreSame};
ghost use Rattle.fc_map.specs.Entries.{entries, IsSoundMap};

use super::BTreeMap;
use fc_base::{Asked, Handle, TryClone, TryReserveError};

/// A copy of a map has a copy of each pair, in order, made by the `try_clone` of key and value, in a tree of the same nodes; it takes its
/// memory where the map does. Copies of keys have to be equal to them, so that they ascend as the keys do. Upstream:
/// `BTreeMap::try_clone`.
///
/// # Errors
/// `AllocError` where a node was refused, or the error of a key or a value whose copy was, as it is; never where the map is empty. What
/// was made by then is dropped.
impl<K: Ord + TryClone, V: TryClone, A: Handle> TryClone for BTreeMap<K, V, A> {
    ghost same = { λ source copy. AllZip (AreSame K.same V.same) (entries source) (entries copy) };

    ghost can_clone = { K.can_clone × V.can_clone × ((a b : K) → K.same a b → K.eq a b ≡ true) };

    ghost may_refuse = { λ source. MayRefuseCopies (MayRefusePair K.may_refuse V.may_refuse) (entries source) };

    fn try_clone(&self) -> Result<BTreeMap<K, V, A>, TryReserveError>
        requires { K.can_clone × V.can_clone × ((a b : K) → K.same a b → K.eq a b ≡ true) }
        ensures copied { MatchResult result (λ copy. AllZip (AreSame K.same V.same) (entries self.now) (entries copy)) (MayRefuseCopies (MayRefusePair K.may_refuse V.may_refuse) (entries self.now)) }
        ensures ascending { IfOk result (λ copy. IsAscending K.cmp (entries copy)) }
        ensures sound { IfOk result (λ copy. IsSoundMap copy) }
    {
        self.try_clone_asked(&mut Asked::new())
    }
}
