//! A copy of the tree of a map, which may be empty.
ghost use Rattle.std.specs.Prelude.{◌≡◌, ◌+◌, ◌≤◌, true, IfOk, MatchResult};
ghost use Rattle.std.specs.List.{AllZip};
ghost use Rattle.fc_base.specs.Ascending.{IsAscending};
ghost use Rattle.fc_base.specs.Copies.{MayRefuseCopies, MayRefusePair};
ghost use Rattle.fc_tree_node.specs.Tree.{entries, IsSoundMap};
ghost use Rattle.fc_tree_node.specs.Blocks.{blocks_in};
ghost use Rattle.fc_tree_copy.specs.Copy.{AreSame};

use crate::copy::try_copy;
use fc_base::{Asked, Handle, TryClone, TryReserveError};
use fc_tree_node::node::Node;

/// The root of a copy of the tree, node by node, if there is one. Copies of keys are equal to them, so that they ascend as the keys do. A
/// request for memory is added to `asked` for each block that the tree has.
///
/// # Errors
/// As `try_copy`; never where there is no root.
pub fn try_copy_tree<K: Ord + TryClone, V: TryClone, A: Handle>(
    alloc: A,
    root: &Option<Node<K, V, A>>,
    asked: &mut Asked,
) -> Result<Option<Node<K, V, A>>, TryReserveError>
    requires copies { K.can_clone × V.can_clone × ((a b : K) → K.same a b → K.eq a b ≡ true) }
    requires order { IsAscending K.cmp (entries root.now) }
    requires sound { IsSoundMap root.now }
    ensures copied { MatchResult result (λ copy. AllZip (AreSame K.same V.same) (entries root.now) (entries copy)) (MayRefuseCopies (MayRefusePair K.may_refuse V.may_refuse) (entries root.now)) }
    ensures order { IfOk result (λ copy. IsAscending K.cmp (entries copy)) }
    ensures sound { IfOk result (λ copy. IsSoundMap copy) }
    ensures blocks { IfOk result (λ copy. blocks_in copy ≡ blocks_in root.now) }
    ensures requests { IfOk result (λ _. asked.new.requests ≡ asked.old.requests + blocks_in root.now) }
    ensures at_most { asked.new.requests ≤ asked.old.requests + blocks_in root.now }
{
    let Some(root) = root else {
        return Ok(None);
    };
    let copy = try_copy(alloc, root, asked)?;
    Ok(Some(copy))
}
