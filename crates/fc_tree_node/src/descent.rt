//! The pairs of a node further down a tree, lent for writing.
ghost use Rattle.std.specs.Prelude.{◌≡◌, ℕ, suc, ◌<◌, ◌≤◌, length};
ghost use Rattle.std.specs.Borrow.{sem};
ghost use Rattle.fc_base.specs.Sizes.{most_levels};
ghost use Rattle.fc_tree_node.specs.Node.{own_pairs};
ghost use Rattle.fc_tree_node.specs.Place.{IsDescent, node_at};
ghost use Rattle.fc_tree_node.specs.Way.{lends_pairs};

use crate::lend::child_in;
use crate::node::{CAPACITY, Node};
use fc_base::Handle;
use fc_tree_slots::slots::Slots;
use std::alloc::Allocator;
use std::marker::PhantomData;

// A descent along a way of at most so many steps.
trait Descend {
    ghost steps: { ℕ };

    // The own pairs of the node that the way leads to.
    fn pairs_at<'a, K, V, A: Handle>(
        node: &'a mut Node<K, V, A>,
        way: &[u8],
    ) -> &'a mut Slots<(K, V), CAPACITY, A>
        requires way { IsDescent way.now node.old }
        requires bounded { length way.now ≤ steps }
        ensures* writes_back { sem 𝓛 (lends_pairs K.row V.row A.row A.Allocator node.entry way.now result) }
        ensures value { result.now ≡ own_pairs (node_at way.now node.old) };
}

// To the node itself.
struct Here;

impl Descend for Here {
    ghost steps = { 0 };

    #[inline(always)]
    fn pairs_at<'a, K, V, A: Handle>(
        node: &'a mut Node<K, V, A>,
        way: &[u8],
    ) -> &'a mut Slots<(K, V), CAPACITY, A> {
        &mut node.pairs
    }
}

// One step further than D goes.
struct Below<D: Descend> {
    rest: PhantomData<D>,
}

impl<D: Descend> Descend for Below<D> {
    ghost steps = { suc D.steps };

    #[inline(always)]
    fn pairs_at<'a, K, V, A: Handle>(
        node: &'a mut Node<K, V, A>,
        way: &[u8],
    ) -> &'a mut Slots<(K, V), CAPACITY, A> {
        if way.len() == 0 {
            &mut node.pairs
        } else {
            let step = way[0] as usize;
            D::pairs_at(child_in(&mut node.children, step), &way[1..])
        }
    }
}

type SevenBelow<D> = Below<Below<Below<Below<Below<Below<Below<D>>>>>>>;

// As many steps as lead to the node of a path's last step, which no constant can tell a type: one too few is refused. A type for
// each level stands for a recursion, of which nothing can be lent without a proof by hand. All of them are inlined, so that what is
// done at the end is done in place.
type Down = SevenBelow<SevenBelow<SevenBelow<Here>>>;

/// The own pairs of the node that the way leads to, lent for writing: the tree ends with what is left there in their place. The node
/// itself can't be lent so, as it is of the root's own type.
#[inline(always)]
pub fn pairs_mut<'a, K, V, A: Handle>(
    root: &'a mut Node<K, V, A>,
    way: &[u8],
) -> &'a mut Slots<(K, V), CAPACITY, A>
    requires way { IsDescent way.now root.old }
    requires bounded { length way.now < most_levels }
    ensures* writes_back { sem 𝓛 (lends_pairs K.row V.row A.row A.Allocator root.entry way.now result) }
    ensures value { result.now ≡ own_pairs (node_at way.now root.old) }
{
    Down::pairs_at(root, way)
}
