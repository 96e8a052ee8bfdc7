//! A child of a node, lent for writing.
ghost use Rattle.std.specs.Prelude.{◌≡◌, ◌<◌, length, slice_index_or, IsSome, Some};
ghost use Rattle.std.specs.Borrow.{sem};
ghost use Rattle.fc_tree_node.specs.Node.{items_or_none};
ghost use Rattle.fc_tree_node.specs.Lends.{lends_content, lends_child_in};

use fc_base::Handle;
use fc_tree_slots::children::Children;

// What is in `Some`.
fn content<T>(holder: &mut Option<T>) -> &mut T
    requires { IsSome holder.old }
    ensures* writes_back { sem 𝓛 (lends_content T.row holder.entry result) }
    ensures value { holder.old ≡ Some result.now }
{
    match holder {
        None => unreachable!(),
        Some(item) => item,
    }
}

/// The child at `index` out of the children of a node, which ends with what is written in its place. A call on the node can't lend
/// it, since a node is lent out of a node only with a proof by hand.
#[inline(always)]
pub fn child_in<T, A: Handle>(children: &mut Option<Children<T, A>>, index: usize) -> &mut T
    requires { index < length (items_or_none children.old) }
    ensures* writes_back { sem 𝓛 (lends_child_in T.row A.row A.Allocator children.entry index result) }
    ensures value { result.now ≡ slice_index_or (items_or_none children.old) index result.now }
{
    content(children).get_mut(index)
}
