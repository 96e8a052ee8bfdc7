//! The owned walk: all pairs given out in ascending order, from both ends.
ghost use Rattle.std.specs.Prelude.{◌≡◌, ◌^◌, ◌<◌, length, IfSome, Some};
ghost use Rattle.std.specs.Iterator.{YieldsFirst, YieldsLast, item_count, at_most, UpTo};
ghost use Rattle.std.specs.Iterator.SizeHint.{IsWithinCount};
ghost use Rattle.fc_tree_node.specs.Tree.{entries, IsSoundMap};

mod debug;

use fc_base::Handle;
use fc_tree_drain::drain::IntoPairs;
use fc_tree_node::node::Node;
use std::alloc::Global;
use std::iter::FusedIterator;
use std::marker::Model;

/// The pairs of a map by value, seen as the list of those that are left. It compares nothing, takes no memory, and drops what is
/// left. Upstream: `btree_map::IntoIter`.
pub struct IntoIter<K, V, A: Handle = Global> {
    drain: IntoPairs<K, V, A>,
    left: usize,
}

impl<K, V, A: Handle> Model for IntoIter<K, V, A> {
    ghost use Rattle.std.specs.Prelude.{◌≡◌, List, length};

    ghost Value = { List (K × V) };

    ghost view = { λ a. a.drain };

    ghost invariant = { λ a. a.left ≡ length a.drain };
}

// By hand, so that who drops a walk owes its size for the types there, and not for any allocator.
impl<K: Drop, V: Drop, A: Handle> Drop for IntoIter<K, V, A> {
    fn drop(self) {
        let IntoIter { drain, left: _ } = self;
        drop(drain);
    }
}

impl<K, V, A: Handle> IntoIter<K, V, A> {
    /// The number of pairs that are left. Upstream: `IntoIter::len`.
    pub fn len(&self) -> usize
        ensures { result ≡ length self.now }
    {
        self.left
    }
}

impl<K: Drop, V: Drop, A: Handle> IntoIter<K, V, A> {
    /// A walk that takes a tree apart, of which there are `len` pairs.
    pub fn over(root: Option<Node<K, V, A>>, len: usize) -> IntoIter<K, V, A>
        requires sound { IsSoundMap root }
        requires all { len ≡ length (entries root) }
        ensures { result ≡ entries root }
    {
        IntoIter {
            drain: IntoPairs::over(root),
            left: len,
        }
    }
}

impl<K: Drop, V: Drop, A: Handle> Iterator for IntoIter<K, V, A> {
    type Item = (K, V);

    ghost next_gives = { YieldsFirst (λ s. s) };

    ghost remaining = { item_count (λ s. s) };

    fn next(&mut self) -> Option<(K, V)> {
        if self.left == 0 {
            return None;
        }
        self.left -= 1;
        Some(self.drain.next())
    }

    fn size_hint(&self) -> (usize, Option<usize>)
        ensures lower { IsWithinCount result.0 (at_most (length self.now)) }
        ensures upper { IfSome result.1 (UpTo (at_most (length self.now))) }
        ensures exact { result ≡ (length self.now, Some (length self.now)) }
    {
        (self.left, Some(self.left))
    }
}

impl<K: Drop, V: Drop, A: Handle> DoubleEndedIterator for IntoIter<K, V, A> {
    ghost next_back_gives = { YieldsLast (λ s. s) };

    fn next_back(&mut self) -> Option<(K, V)> {
        if self.left == 0 {
            return None;
        }
        self.left -= 1;
        Some(self.drain.next_back())
    }
}

impl<K: Drop, V: Drop, A: Handle> ExactSizeIterator for IntoIter<K, V, A> {
    fn len(&self) -> usize {
        self.left
    }
}

impl<K: Drop, V: Drop, A: Handle> FusedIterator for IntoIter<K, V, A> {}
