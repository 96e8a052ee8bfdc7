//! Reading walks over all pairs of a map, from both ends.
ghost use Rattle.std.specs.Prelude.{◌≡◌, ◌≤◌, ⊤, length, Some, IfSome};
ghost use Rattle.fc_tree_node.specs.Tree.{entries, IsSoundMap};
ghost use Rattle.std.specs.Iterator.{YieldsFirstBy, YieldsLastBy, UpTo, at_most, item_count};

mod keys;
mod values;

use fc_base::Handle;
use fc_tree_cursor::span::Span;
use fc_tree_node::node::Node;
pub use keys::Keys;
use std::alloc::{AllocError, Global};
use std::iter::FusedIterator;
use std::marker::Model;
pub use values::Values;

/// The pairs that are still to come, in ascending order of their keys. `next` gives the first of them and `next_back` the last;
/// once there is none, both answer `None` ever after. No call compares keys or takes memory. Upstream: `btree_map::Iter`.
#[derive(Drop)]
pub struct Iter<'a, K, V, A: Handle = Global> {
    span: Span<'a, K, V, A>,
    left: usize,
}

impl<'a, K, V, A: Handle> Model for Iter<'a, K, V, A> {
    ghost use Rattle.std.specs.Prelude.{◌≡◌, List, length};

    ghost Value = { List (K × V) };

    ghost view = { λ w. w.span };

    ghost invariant = { λ w. w.left ≡ length w.span };
}

impl<'a, K, V, A: Handle> Iter<'a, K, V, A> {
    /// A walk over all pairs of a tree, of which there are `len`.
    pub fn over(root: &'a Option<Node<K, V, A>>, len: usize) -> Iter<'a, K, V, A>
        requires sound { IsSoundMap root.now }
        requires all { len ≡ length (entries root.now) }
        ensures { result ≡ entries root.now }
    {
        Iter {
            span: Span::whole(root),
            left: len,
        }
    }

    /// The number of pairs still to come. Upstream: `Iter::len`.
    pub fn len(&self) -> usize
        ensures { result ≡ length self.now }
    {
        self.left
    }
}

impl<'a, K, V, A: Handle> Clone for Iter<'a, K, V, A> {
    ghost is_clone = { λ s r. r ≡ s };

    ghost is_infallible = { λ _. ⊤ };

    /// A second walk over the pairs still to come, which takes no memory.
    fn clone(&self) -> Result<Iter<'a, K, V, A>, AllocError> {
        Ok(Iter {
            span: self.span.copied(),
            left: self.left,
        })
    }
}

impl<'a, K, V, A: Handle> Iterator for Iter<'a, K, V, A> {
    ghost use Rattle.fc_map_iter.specs.Walks.{deref_pair};

    type Item = (&'a K, &'a V);

    ghost next_gives = { YieldsFirstBy deref_pair (λ s. s) };

    ghost remaining = { item_count (λ s. s) };

    fn next(&mut self) -> Option<(&'a K, &'a V)> {
        if self.left == 0 {
            return None;
        }
        self.left -= 1;
        let pair = self.span.next();
        Some((&pair.0, &pair.1))
    }

    /// The number of pairs still to come, twice.
    fn size_hint(&self) -> (usize, Option<usize>)
        ensures lower { result.0 ≤ length self.now }
        ensures upper { IfSome result.1 (UpTo (at_most (length self.now))) }
        ensures exact { result ≡ (length self.now, Some (length self.now)) }
    {
        (self.left, Some(self.left))
    }
}

impl<'a, K, V, A: Handle> DoubleEndedIterator for Iter<'a, K, V, A> {
    ghost use Rattle.fc_map_iter.specs.Walks.{deref_pair};

    ghost next_back_gives = { YieldsLastBy deref_pair (λ s. s) };

    fn next_back(&mut self) -> Option<(&'a K, &'a V)> {
        if self.left == 0 {
            return None;
        }
        self.left -= 1;
        let pair = self.span.next_back();
        Some((&pair.0, &pair.1))
    }
}

impl<'a, K, V, A: Handle> ExactSizeIterator for Iter<'a, K, V, A> {
    fn len(&self) -> usize {
        self.left
    }
}

impl<'a, K, V, A: Handle> FusedIterator for Iter<'a, K, V, A> {}
