//! Items in any order put into a tree at once, all or none.
ghost use Rattle.std.specs.Prelude.{◌≡◌, List, length, IsTrue, IfOk, IfErr, OnErr, false};
ghost use Rattle.fc_base.specs.Ascending.{IsAscending};
ghost use Rattle.fc_base.specs.Extended.{extended};
ghost use Rattle.fc_tree_node.specs.Tree.{entries, IsSoundMap};
ghost use Rattle.fc_tree_append.specs.Rising.{IsRising};

use crate::items::merge;
use fc_base::Handle;
use fc_tree_build::builder::Builder;
use fc_tree_node::node::Node;
use std::cmp::Ordering;

/// Puts all items into the tree, in turn: of equal keys the first stays, with the last value. Answers how many pairs there are then. All nodes of the new
/// tree are made first, and the room to sort is taken: then nothing can be refused.
///
/// # Errors
/// The items, in their order, if a node or that room is refused, or if there are more than `usize::MAX`. The tree is then as before.
pub fn try_merge<K: Ord + Drop, V: Drop, A: Handle>(
    alloc: A,
    root: &mut Option<Node<K, V, A>>,
    len: usize,
    items: Vec<(K, V), A>,
) -> Result<usize, Vec<(K, V), A>>
    requires sound { IsSoundMap root.old }
    requires order { IsAscending K.cmp (entries root.old) }
    requires len { len ≡ length (entries root.old) }
    ensures merged { IfOk result (λ _. entries root.new ≡ extended K.cmp (entries root.old) items.items) }
    ensures len { IfOk result (λ len. len ≡ length (entries root.new)) }
    ensures sound { IsSoundMap root.new }
    ensures order { IsAscending K.cmp (entries root.new) }
    ensures unchanged { OnErr result (root.new ≡ root.old) }
    ensures back { IfErr result (λ back. back.items ≡ items.items) }
{
    let mut items = items;
    let Some(room) = len.checked_add(items.len()) else {
        return Err(items);
    };
    let Ok(builder) = Builder::try_new(alloc, room) else {
        return Err(items);
    };
    if !sort(&mut items) {
        return Err(items);
    }
    let (tree, len) = merge(root.take(), items, builder);
    *root = tree;
    Ok(len)
}

// Sorts the items by their keys, those of equal keys in the order in which they are, and answers whether it did: else no memory was there, and they stay
// as they are.
fn sort<K: Ord + Drop, V: Drop, A: Handle>(items: &mut Vec<(K, V), A>) -> bool
    ensures rising { IsTrue result → IsRising K.cmp items.new.items }
    ensures length { length items.new.items ≡ length items.old.items }
    ensures same { IsTrue result → (s : List (K × V)) → IsAscending K.cmp s → extended K.cmp s items.new.items ≡ extended K.cmp s items.old.items }
    ensures unchanged { result ≡ false → items.new.items ≡ items.old.items }
{
    items.sort_by(by_key).is_ok()
}

// How the keys of two items compare.
fn by_key<K: Ord, V>(first: &(K, V), second: &(K, V)) -> Ordering
    ensures { result ≡ K.cmp first.now.0 second.now.0 }
{
    first.0.cmp(&second.0)
}
