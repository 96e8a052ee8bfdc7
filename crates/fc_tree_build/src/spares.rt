//! How many nodes a tree takes, and one of those that were made ahead.
ghost use Rattle.std.specs.Prelude.{◌≡◌, ℕ, ◌^◌, ◌<◌, ◌≤◌, [], ◌∷◌, ◌++◌, length, vec_capacity};
ghost use Rattle.fc_base.specs.Sizes.{most_children};
ghost use Rattle.fc_tree_build.specs.Spares.{leaves_for, inner_above, inner_for};

use fc_base::Handle;
use fc_tree_node::node::{CAPACITY, Node};

/// Takes one of the nodes out.
pub(crate) fn take_spare<K, V, A: Handle>(spares: &mut Vec<Node<K, V, A>, A>) -> Node<K, V, A>
    requires { 0 < length spares.old.items }
    ensures items { spares.old.items ≡ spares.new.items ++ result ∷ [] }
    ensures capacity { vec_capacity spares.new ≡ vec_capacity spares.old }
{
    let Some(node) = spares.pop() else {
        unreachable!()
    };
    node
}

/// How many leaves `n` pairs need at most.
pub(crate) fn leaf_count(n: usize) -> usize
    ensures { result ≡ leaves_for n }
{
    if n == 0 { 0 } else { n / (CAPACITY + 1) + 1 }
}

/// How many inner nodes a tree of `n` pairs has that is made of them in order.
pub(crate) fn inner_count(n: usize) -> usize
    ensures { result ≡ inner_for n }
{
    nodes_above(n / (CAPACITY + 1))
}

// How many inner nodes so many subtrees take that are put one after another at the end of a tree, each with the pair after it.
fn nodes_above(subtrees: usize) -> usize
    ensures value { (d : ℕ) → subtrees < most_children ^ d → result ≡ inner_above d subtrees }
    ensures few { result ≤ subtrees }
{
    if subtrees == 0 {
        return 0;
    }
    let above = subtrees / (CAPACITY + 1);
    above + 1 + nodes_above(above)
}
