//! Pairs put after all others, once their keys were asked.
ghost use Rattle.std.specs.Prelude.{◌≡◌, ◌+◌, ◌≤◌, length, IsTrue, IfOk, IfErr, None};
ghost use Rattle.std.specs.List.{AllByRecursion};
ghost use Rattle.std.specs.declared.cmp.Ordering.TheVariants.{Less};
ghost use Rattle.fc_base.specs.Ascending.{IsAscending};
ghost use Rattle.fc_base.specs.Growth.{MayGrowRefuse};
ghost use Rattle.fc_base.specs.OneKey.{put};
ghost use Rattle.fc_base.specs.Parts.{at};
ghost use Rattle.fc_tree_build.specs.Loads.{load_requests};

use crate::growing::GrowingBuilder;
use fc_base::{Asked, Handle, TryReserveError};

/// Whether the key lies after all keys of the tree: it is compared with the last one.
pub fn is_after_all<K: Ord, V, A: Handle>(tree: &GrowingBuilder<K, V, A>, key: &K) -> bool
    requires { IsAscending K.cmp tree.now.pairs }
    ensures { IsTrue result → AllByRecursion (λ e. K.cmp e.0 key.now ≡ Less) tree.now.pairs }
{
    match tree.last() {
        None => true,
        Some(last) => last.0.cmp(key).is_lt(),
    }
}

/// Puts a pair after all others. It is not inlined, since the pairs that a leaf has room for would then pay for its locals. Requests for memory
/// are added to `asked`.
///
/// # Errors
/// `CapacityOverflow` where the tree has `usize::MAX` pairs, and else as `GrowingBuilder::push`. The pair is dropped, and the tree is as before.
#[inline(never)]
pub fn push_after<K: Ord + Drop, V: Drop, A: Handle>(
    tree: &mut GrowingBuilder<K, V, A>,
    key: K,
    value: V,
    asked: &mut Asked,
) -> Result<(), TryReserveError>
    requires ascending { IsAscending K.cmp tree.old.pairs }
    requires after { AllByRecursion (λ e. K.cmp e.0 key ≡ Less) tree.old.pairs }
    ensures put { IfOk result (λ _. tree.new.pairs ≡ put K.cmp tree.old.pairs key value) }
    ensures ascending { IsAscending K.cmp tree.new.pairs }
    ensures unchanged { IfErr result (λ _. tree.new ≡ tree.old) }
    ensures new_key { IfErr result (λ _. at K.cmp tree.old.pairs key ≡ None) }
    ensures error { IfErr result (λ e. MayGrowRefuse (length tree.old.pairs) e) }
    ensures at_most { asked.new.requests + load_requests (length tree.old.pairs) ≤ asked.old.requests + load_requests (length tree.old.pairs + 1) }
{
    if tree.len() == usize::MAX {
        return Err(TryReserveError::CapacityOverflow);
    }
    match tree.push((key, value), asked) {
        Ok(()) => Ok(()),
        Err((_pair, error)) => Err(error),
    }
}
