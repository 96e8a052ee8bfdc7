//! What a range of keys is given by: a pair of bounds, or one of Rust's own ranges.
ghost use Rattle.std.specs.Prelude.{◌≡◌, ◌+◌, ◌&&◌, length, filter};
ghost use Rattle.std.specs.Range.{range_inclusive_start};
ghost use Rattle.std.specs.declared.cmp.Ordering.{Ordering};
ghost use Rattle.std.specs.declared.ops.Bound.{Bound};
ghost use Rattle.std.specs.declared.ops.Bound.TheVariants.{Included, Excluded, Unbounded};
ghost use Rattle.fc_base.specs.Ascending.{IsAscending};
ghost use Rattle.fc_base.specs.Query.{IsQueryOrder};
ghost use Rattle.fc_base.specs.Viewed.{own_order};
ghost use Rattle.fc_base.specs.Ranges.{bound_by, bound_now, starts, stops, within};
ghost use Rattle.fc_tree_node.specs.Tree.{entries, IsSoundMap};
ghost use Rattle.fc_tree_node.specs.TreePlace.{before_gap_in};
ghost use Rattle.fc_tree_cursor.specs.Gap.{AreEndsIn};
ghost use Rattle.fc_tree_cursor.specs.KeyRanges.{last_of};

use crate::ends::range_gaps_in;
use crate::span::Span;
use fc_base::{Handle, Query};
use fc_tree_node::node::Node;
use fc_tree_node::path::Path;
use std::ops::{Bound, Range, RangeFrom, RangeFull, RangeInclusive, RangeTo, RangeToInclusive};

/// What a map's calls on a range take: Rust's own ranges of keys, as `3..7`, `3..=7`, `3..`, `..7`, `..=7` and `..`, or a pair of
/// bounds by a `Query`, as `(Bound::Included("a"), Bound::Unbounded)`. Std: `RangeBounds`.
pub trait KeyRange<K: Ord>: Drop {
    // What the bounds are by, as contracts see it.
    ghost Sought: { Type 0 };
    // How a key stands to what a bound is by.
    ghost order: { K → Sought → Ordering };

    ghost start: { Self → Bound Sought };

    ghost end: { Self → Bound Sought };

    /// The pairs below a root whose keys lie within the range.
    fn span_in<'a, V, A: Handle>(&self, root: &'a Option<Node<K, V, A>>) -> Span<'a, K, V, A>
        requires sound { IsSoundMap root.now }
        requires ascending { IsAscending K.cmp (entries root.now) }
        ensures { result ≡ within order (start self.now) (end self.now) (entries root.now) };

    /// The gaps between which those pairs lie. Where no key can lie within the range, both are one gap.
    fn gaps_in<V, A: Handle>(&self, root: &Option<Node<K, V, A>>) -> (Path, Path)
        requires sound { IsSoundMap root.now }
        requires ascending { IsAscending K.cmp (entries root.now) }
        ensures ends { AreEndsIn root.now result.0 result.1 }
        ensures front { length (before_gap_in root.now result.0) + length (filter (λ e. starts order (start self.now) e.0) (entries root.now)) ≡ length (entries root.now) }
        ensures back { length (before_gap_in root.now result.1) ≡ length (before_gap_in root.now result.0) + length (within order (start self.now) (end self.now) (entries root.now)) };

    // The keys before a bound come first, then those at it, then those after it.
    ghost fits: { IsQueryOrder K.cmp order };
}

impl<K: Ord, Q: Query<K>> KeyRange<K> for (Bound<Q>, Bound<Q>) {
    ghost Sought = { Q.Sought };

    ghost order = { Q.order };

    ghost fits = { Q.fits };

    ghost start = { λ r. bound_by Q.sought r.0 };

    ghost end = { λ r. bound_by Q.sought r.1 };

    fn span_in<'a, V, A: Handle>(&self, root: &'a Option<Node<K, V, A>>) -> Span<'a, K, V, A> {
        Span::within(root, &self.0, &self.1)
    }

    fn gaps_in<V, A: Handle>(&self, root: &Option<Node<K, V, A>>) -> (Path, Path) {
        range_gaps_in(root, &self.0, &self.1)
    }
}

impl<K: Ord + Drop> KeyRange<K> for Range<K> {
    ghost Sought = { K };

    ghost order = { K.cmp };

    ghost fits = { own_order K.total };

    ghost start = { λ r. Included r.start };

    ghost end = { λ r. Excluded r.end };

    fn span_in<'a, V, A: Handle>(&self, root: &'a Option<Node<K, V, A>>) -> Span<'a, K, V, A> {
        Span::within(
            root,
            &Bound::Included(&self.start),
            &Bound::Excluded(&self.end),
        )
    }

    fn gaps_in<V, A: Handle>(&self, root: &Option<Node<K, V, A>>) -> (Path, Path) {
        range_gaps_in(
            root,
            &Bound::Included(&self.start),
            &Bound::Excluded(&self.end),
        )
    }
}

impl<K: Ord + Drop> KeyRange<K> for RangeInclusive<K> {
    ghost Sought = { K };

    ghost order = { K.cmp };

    ghost fits = { own_order K.total };

    ghost start = { λ r. Included (range_inclusive_start r) };

    ghost end = { last_of };

    #[tactic(auto, using(crate::proofs::KeyRanges::within_end))]
    fn span_in<'a, V, A: Handle>(&self, root: &'a Option<Node<K, V, A>>) -> Span<'a, K, V, A> {
        Span::within(root, &Bound::Included(self.start()), &end_of(self))
    }

    #[tactic(auto, using(crate::proofs::KeyRanges::within_end))]
    fn gaps_in<V, A: Handle>(&self, root: &Option<Node<K, V, A>>) -> (Path, Path) {
        range_gaps_in(root, &Bound::Included(self.start()), &end_of(self))
    }
}

impl<K: Ord + Drop> KeyRange<K> for RangeFrom<K> {
    ghost Sought = { K };

    ghost order = { K.cmp };

    ghost fits = { own_order K.total };

    ghost start = { λ r. Included r.start };

    ghost end = { λ _. Unbounded };

    fn span_in<'a, V, A: Handle>(&self, root: &'a Option<Node<K, V, A>>) -> Span<'a, K, V, A> {
        Span::within(root, &Bound::Included(&self.start), &Bound::Unbounded)
    }

    fn gaps_in<V, A: Handle>(&self, root: &Option<Node<K, V, A>>) -> (Path, Path) {
        range_gaps_in(root, &Bound::Included(&self.start), &Bound::Unbounded)
    }
}

impl<K: Ord + Drop> KeyRange<K> for RangeTo<K> {
    ghost Sought = { K };

    ghost order = { K.cmp };

    ghost fits = { own_order K.total };

    ghost start = { λ _. Unbounded };

    ghost end = { λ r. Excluded r.end };

    fn span_in<'a, V, A: Handle>(&self, root: &'a Option<Node<K, V, A>>) -> Span<'a, K, V, A> {
        Span::within(root, &Bound::Unbounded, &Bound::Excluded(&self.end))
    }

    fn gaps_in<V, A: Handle>(&self, root: &Option<Node<K, V, A>>) -> (Path, Path) {
        range_gaps_in(root, &Bound::Unbounded, &Bound::Excluded(&self.end))
    }
}

impl<K: Ord + Drop> KeyRange<K> for RangeToInclusive<K> {
    ghost Sought = { K };

    ghost order = { K.cmp };

    ghost fits = { own_order K.total };

    ghost start = { λ _. Unbounded };

    ghost end = { λ r. Included r.end };

    fn span_in<'a, V, A: Handle>(&self, root: &'a Option<Node<K, V, A>>) -> Span<'a, K, V, A> {
        Span::within(root, &Bound::Unbounded, &Bound::Included(&self.end))
    }

    fn gaps_in<V, A: Handle>(&self, root: &Option<Node<K, V, A>>) -> (Path, Path) {
        range_gaps_in(root, &Bound::Unbounded, &Bound::Included(&self.end))
    }
}

impl<K: Ord> KeyRange<K> for RangeFull {
    ghost Sought = { K };

    ghost order = { K.cmp };

    ghost fits = { own_order K.total };

    ghost start = { λ _. Unbounded };

    ghost end = { λ _. Unbounded };

    fn span_in<'a, V, A: Handle>(&self, root: &'a Option<Node<K, V, A>>) -> Span<'a, K, V, A> {
        let open: Bound<&K> = Bound::Unbounded;
        Span::within(root, &open, &open)
    }

    fn gaps_in<V, A: Handle>(&self, root: &Option<Node<K, V, A>>) -> (Path, Path) {
        let open: Bound<&K> = Bound::Unbounded;
        range_gaps_in(root, &open, &open)
    }
}

// The end of an inclusive range, as a bound by a reference. A range that has no value left ends before its end.
#[tactic(auto, using(crate::proofs::KeyRanges::empty_end))]
fn end_of<K: Ord>(range: &RangeInclusive<K>) -> Bound<&K>
    ensures { (k : K) → (starts K.cmp (Included (range_inclusive_start range.now)) k && stops K.cmp (bound_now result) k) ≡ (starts K.cmp (Included (range_inclusive_start range.now)) k && stops K.cmp (last_of range.now) k) }
{
    if range.is_empty() {
        Bound::Excluded(range.end())
    } else {
        Bound::Included(range.end())
    }
}
