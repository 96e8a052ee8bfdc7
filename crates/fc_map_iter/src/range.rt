//! Reading walks over the pairs of a map within two bounds, from both ends.
ghost use Rattle.std.specs.Prelude.{◌≡◌, ◌≤◌, ⊤, length, IfSome, None};
ghost use Rattle.fc_base.specs.Ascending.{IsAscending};
ghost use Rattle.fc_base.specs.Ranges.{within};
ghost use Rattle.fc_tree_node.specs.Tree.{entries, IsSoundMap};
ghost use Rattle.std.specs.Iterator.{YieldsFirstBy, YieldsLastBy, item_count, UpTo, at_most};

use fc_base::Handle;
use fc_tree_cursor::key_range::KeyRange;
use fc_tree_cursor::span::Span;
use fc_tree_node::node::Node;
use std::alloc::{AllocError, Global};
use std::iter::FusedIterator;
use std::marker::Model;

/// The pairs of a range that are still to come, in ascending order of their keys. `next` gives the first of them and `next_back`
/// the last; once there is none, both answer `None` ever after. No call compares keys or takes memory. Upstream:
/// `btree_map::Range`.
#[derive(Drop)]
pub struct Range<'a, K, V, A: Handle = Global> {
    span: Span<'a, K, V, A>,
}

impl<'a, K, V, A: Handle> Model for Range<'a, K, V, A> {
    ghost use Rattle.std.specs.Prelude.{List};

    ghost Value = { List (K × V) };

    ghost view = { λ w. w.span };
}

impl<'a, K: Ord, V, A: Handle> Range<'a, K, V, A> {
    /// A walk over the pairs of a tree whose keys lie within a range.
    pub fn within<R: KeyRange<K>>(root: &'a Option<Node<K, V, A>>, range: &R) -> Range<'a, K, V, A>
        requires sound { IsSoundMap root.now }
        requires ascending { IsAscending K.cmp (entries root.now) }
        ensures { result ≡ within R.order (R.start range.now) (R.end range.now) (entries root.now) }
    {
        Range {
            span: range.span_in(root),
        }
    }
}

impl<'a, K, V, A: Handle> Clone for Range<'a, K, V, A> {
    ghost is_clone = { λ s r. r ≡ s };

    ghost is_infallible = { λ _. ⊤ };

    /// A second walk over the pairs still to come, which takes no memory.
    fn clone(&self) -> Result<Range<'a, K, V, A>, AllocError> {
        Ok(Range {
            span: self.span.copied(),
        })
    }
}

impl<'a, K, V, A: Handle> Iterator for Range<'a, K, V, A> {
    ghost use Rattle.fc_map_iter.specs.Walks.{deref_pair};

    type Item = (&'a K, &'a V);

    ghost next_gives = { YieldsFirstBy deref_pair (λ s. s) };

    ghost remaining = { item_count (λ s. s) };

    fn next(&mut self) -> Option<(&'a K, &'a V)> {
        if self.span.is_empty() {
            return None;
        }
        let pair = self.span.next();
        Some((&pair.0, &pair.1))
    }

    /// Nothing is known without a walk to the end: `(0, None)`.
    fn size_hint(&self) -> (usize, Option<usize>)
        ensures lower { result.0 ≤ length self.now }
        ensures upper { IfSome result.1 (UpTo (at_most (length self.now))) }
        ensures exact { result ≡ (0, None) }
    {
        (0, None)
    }
}

impl<'a, K, V, A: Handle> DoubleEndedIterator for Range<'a, K, V, A> {
    ghost use Rattle.fc_map_iter.specs.Walks.{deref_pair};

    ghost next_back_gives = { YieldsLastBy deref_pair (λ s. s) };

    fn next_back(&mut self) -> Option<(&'a K, &'a V)> {
        if self.span.is_empty() {
            return None;
        }
        let pair = self.span.next_back();
        Some((&pair.0, &pair.1))
    }
}

impl<'a, K, V, A: Handle> FusedIterator for Range<'a, K, V, A> {}
