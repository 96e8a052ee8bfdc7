//! A tree of clones of the pairs that a walk gives, by std's `Clone`.
ghost use Rattle.std.specs.Prelude.{◌≡◌, [], ◌∷◌, ◌++◌, IfOk};
ghost use Rattle.std.specs.List.{AllZip};
ghost use Rattle.fc_base.specs.Ascending.{IsAscending};
ghost use Rattle.fc_tree_node.specs.Tree.{entries, IsSoundMap};
ghost use Rattle.fc_tree_copy.specs.Copy.{AreSame};

use fc_base::{Asked, Handle};
use fc_map_iter::iter::Iter;
use fc_tree_build::growing::GrowingBuilder;
use fc_tree_build::ordered::is_after_all;
use fc_tree_node::node::Node;
use std::alloc::AllocError;

/// The root of a tree of a clone of each pair of the walk, in order; none where it gives none.
///
/// # Errors
/// `AllocError` where a node or a clone of a key or a value was refused, and where clones of keys do not ascend, which std's `Clone` lets a type do.
pub fn try_cloned<K: Ord + Clone, V: Clone, A: Handle>(
    alloc: A,
    pairs: Iter<'_, K, V, A>,
) -> Result<Option<Node<K, V, A>>, AllocError>
    ensures cloned { IfOk result (λ made. AllZip (AreSame K.is_clone V.is_clone) pairs.entry (entries made)) }
    ensures ascending { IfOk result (λ made. IsAscending K.cmp (entries made)) }
    ensures sound { IfOk result (λ made. IsSoundMap made) }
{
    let asked = &mut Asked::new();
    let mut clones = GrowingBuilder::new(alloc);
    for (key, value) in pairs {
        let key = key.clone()?;
        let value = value.clone()?;
        push_if_after(&mut clones, key, value, asked)?;
    }
    Ok(clones.finish())
}

// Puts the pair after the others; an error where its key doesn't lie after theirs, or a node was refused. Requests for memory are added to `asked`.
fn push_if_after<K: Ord + Drop, V: Drop, A: Handle>(
    tree: &mut GrowingBuilder<K, V, A>,
    key: K,
    value: V,
    asked: &mut Asked,
) -> Result<(), AllocError>
    requires { IsAscending K.cmp tree.old.pairs }
    ensures put { IfOk result (λ _. tree.new.pairs ≡ tree.old.pairs ++ (key, value) ∷ []) }
    ensures ascending { IfOk result (λ _. IsAscending K.cmp tree.new.pairs) }
{
    if !is_after_all(tree, &key) {
        return Err(AllocError);
    }
    match tree.push((key, value), asked) {
        Ok(()) => Ok(()),
        Err((_pair, _refused)) => Err(AllocError),
    }
}
