//! The gaps at the ends of a map, and those at the bounds of a range.
//!
//! Both ends of a range are found in one way down, until they part: in each node the end's place is looked for from the start's on. So the
//! bounds need be no range: where no key can lie within them, both ends come to one gap.
ghost use Rattle.std.specs.Prelude.{◌≡◌, ℕ, ◌+◌, ◌-◌, ◌<◌, ◌↔◌, [], length, filter, IsTrue};
ghost use Rattle.fc_base.specs.Ascending.{IsAscending};
ghost use Rattle.fc_base.specs.Ranges.{bound_by, starts, within};
ghost use Rattle.fc_base.specs.Sizes.{most_levels};
ghost use Rattle.fc_tree_node.specs.Leaf.{leaf_at};
ghost use Rattle.fc_tree_node.specs.LeafGap.{IsLeafGap};
ghost use Rattle.fc_tree_node.specs.Node.{own_pairs, pairs_of, IsLevelled, IsTree};
ghost use Rattle.fc_tree_node.specs.Path.{before_gap};
ghost use Rattle.fc_tree_node.specs.Tree.{entries, IsSoundMap};
ghost use Rattle.fc_tree_node.specs.TreePlace.{before_gap_in};
ghost use Rattle.fc_tree_cursor.specs.Cut.{leads, before, amid, TurnsAt};
ghost use Rattle.fc_tree_cursor.specs.Gap.{AreEndsIn, IsGapIn, GoesOn, EndsIn};
ghost use Rattle.fc_tree_cursor.specs.Span.{IsPart};

use crate::cuts::{Cut, place_in, start_of, stop_of};
use crate::gaps::{first_leaf_edge, last_leaf_edge};
use fc_base::{Handle, Query};
use fc_tree_node::node::Node;
use fc_tree_node::path::Path;
use std::ops::Bound;

/// The gap before all pairs: no step where there is no root.
pub fn first_gap_in<K, V, A: Handle>(root: &Option<Node<K, V, A>>) -> Path
    requires { IsSoundMap root.now }
    ensures gap { IsGapIn root.now result }
    ensures front { length (before_gap_in root.now result) ≡ 0 }
{
    let mut gap = Path::new();
    if let Some(root) = root {
        first_leaf_edge(root, &mut gap);
    }
    gap
}

/// The gap after all pairs: no step where there is no root.
pub fn last_gap_in<K, V, A: Handle>(root: &Option<Node<K, V, A>>) -> Path
    requires { IsSoundMap root.now }
    ensures gap { IsGapIn root.now result }
    ensures back { length (before_gap_in root.now result) ≡ length (entries root.now) }
{
    let mut gap = Path::new();
    if let Some(root) = root {
        last_leaf_edge(root, &mut gap);
    }
    gap
}

/// The gaps between which the pairs lie whose keys are within two bounds. Where no key can lie within them, both are one gap.
pub fn range_gaps_in<K: Ord, V, Q: Query<K>, A: Handle>(
    root: &Option<Node<K, V, A>>,
    lo: &Bound<Q>,
    hi: &Bound<Q>,
) -> (Path, Path)
    requires sound { IsSoundMap root.now }
    requires order { IsAscending K.cmp (entries root.now) }
    ensures ends { AreEndsIn root.now result.0 result.1 }
    ensures front { length (before_gap_in root.now result.0) + length (filter (λ e. starts Q.order (bound_by Q.sought lo.now) e.0) (entries root.now)) ≡ length (entries root.now) }
    ensures back { length (before_gap_in root.now result.1) ≡ length (before_gap_in root.now result.0) + length (within Q.order (bound_by Q.sought lo.now) (bound_by Q.sought hi.now) (entries root.now)) }
{
    let mut front = Path::new();
    let mut back = Path::new();
    let Some(root) = root else {
        return (front, back);
    };
    push_ends(root, lo, hi, &mut front, &mut back);
    (front, back)
}

/// Fills two paths of no step with the ways to the gaps between which the pairs of a range lie, and answers the leaf of the first.
pub(crate) fn push_ends<'a, K: Ord, V, Q: Query<K>, A: Handle>(
    root: &'a Node<K, V, A>,
    lo: &Bound<Q>,
    hi: &Bound<Q>,
    front: &mut Path,
    back: &mut Path,
) -> &'a Node<K, V, A>
    requires levels { IsTree root.now }
    requires order { IsAscending K.cmp (pairs_of root.now) }
    requires start { (front.old ≡ []) × (back.old ≡ []) }
    ensures gaps { IsLeafGap front.new root.now × IsLeafGap back.new root.now }
    ensures leaf { result.now ≡ leaf_at front.new root.now }
    ensures front { length (before_gap front.new root.now) + length (filter (λ e. starts Q.order (bound_by Q.sought lo.now) e.0) (pairs_of root.now)) ≡ length (pairs_of root.now) }
    ensures back { length (before_gap back.new root.now) ≡ length (before_gap front.new root.now) + length (within Q.order (bound_by Q.sought lo.now) (bound_by Q.sought hi.now) (pairs_of root.now)) }
{
    push_both(root, &start_of(lo), &stop_of(hi), front, back)
}

// Goes on to the gaps at two cuts below the node, the second not before the first, and answers the leaf of the first.
#[tactic(auto, using(crate::proofs::Turns::turn_first, crate::proofs::Turns::turn_later))]
fn push_both<'a, K: Ord, V, Q: Query<K>, A: Handle>(
    node: &'a Node<K, V, A>,
    lo: &Cut<Q>,
    hi: &Cut<Q>,
    front: &mut Path,
    back: &mut Path,
) -> &'a Node<K, V, A>
    requires levels { (h : ℕ) × IsLevelled h node.now × (length front.old + h < most_levels) × (length back.old + h < most_levels) }
    requires order { IsAscending K.cmp (pairs_of node.now) }
    ensures front { GoesOn front.old front.new node.now (before Q.order Q.sought lo.now (pairs_of node.now)) }
    ensures back { GoesOn back.old back.new node.now (before Q.order Q.sought lo.now (pairs_of node.now) + amid Q.order Q.sought lo.now hi.now (pairs_of node.now)) }
    ensures leaf { EndsIn front.old front.new node.now result.now }
{
    let start = place_in(node, lo, 0);
    let stop = place_in(node, hi, start);
    if start < stop {
        push_cut(node, stop, hi, back);
        return push_cut(node, start, lo, front);
    }
    front.push(start);
    back.push(start);
    if node.is_leaf() {
        return node;
    }
    push_both(node.child(start), lo, hi, front, back)
}

// Goes on to the gap at a cut below the node, whose own pairs are cut at the place, and answers its leaf.
fn push_cut<'a, K: Ord, V, Q: Query<K>, A: Handle>(
    node: &'a Node<K, V, A>,
    place: usize,
    cut: &Cut<Q>,
    gap: &mut Path,
) -> &'a Node<K, V, A>
    requires levels { (h : ℕ) × IsLevelled h node.now × (length gap.old + h < most_levels) }
    requires order { IsAscending K.cmp (pairs_of node.now) }
    requires place { TurnsAt (λ e. leads Q.order Q.sought cut.now e.0) (own_pairs node.now) place }
    ensures gap { GoesOn gap.old gap.new node.now (before Q.order Q.sought cut.now (pairs_of node.now)) }
    ensures leaf { EndsIn gap.old gap.new node.now result.now }
{
    gap.push(place);
    if node.is_leaf() {
        return node;
    }
    let child = node.child(place);
    push_cut(child, place_in(child, cut, 0), cut, gap)
}

// Whether a child is the outermost of its level on a side, as its node is where the child's place is the last one on that side.
fn is_outer(is_node_outer: bool, place: usize, edge: usize) -> bool
    ensures { IsTrue result ↔ (IsTrue is_node_outer × (place ≡ edge)) }
{
    is_node_outer && place == edge
}

/// Goes on below the node to the end of the leaf where the cut is, and takes the leaf's pairs after the cut. The flag says whether the
/// node is the last of its level, and then whether the leaf is, so that no pair is after what is taken.
///
/// Run and flag are written where they belong, and not answered: of calls that answer nothing a compiler makes a loop.
pub(crate) fn lower_bound_edge<'a, K: Ord, V, Q: Query<K>, A: Handle>(
    node: &'a Node<K, V, A>,
    cut: &Cut<Q>,
    gap: &mut Path,
    run: &mut &'a [(K, V)],
    is_last: &mut bool,
)
    requires levels { (h : ℕ) × IsLevelled h node.now × (length gap.old + h < most_levels) }
    requires order { IsAscending K.cmp (pairs_of node.now) }
    ensures gap { GoesOn gap.old gap.new node.now (before Q.order Q.sought cut.now (pairs_of node.now) + length run.new.now) }
    ensures run { IsPart run.new.now (pairs_of node.now) (before Q.order Q.sought cut.now (pairs_of node.now)) (before Q.order Q.sought cut.now (pairs_of node.now) + length run.new.now) }
    ensures last { IsTrue is_last.new ↔ (IsTrue is_last.old × (before Q.order Q.sought cut.now (pairs_of node.now) + length run.new.now ≡ length (pairs_of node.now))) }
{
    let place = place_in(node, cut, 0);
    let end = node.len();
    if node.is_leaf() {
        gap.push(end);
        *run = &node.pairs()[place..end];
        return;
    }
    gap.push(place);
    *is_last = is_outer(*is_last, place, end);
    lower_bound_edge(node.child(place), cut, gap, run, is_last);
}

/// Goes on below the node to the start of the leaf where the cut is, and takes the leaf's pairs before the cut. The flag says
/// whether the node is the first of its level, and then whether the leaf is.
pub(crate) fn upper_bound_edge<'a, K: Ord, V, Q: Query<K>, A: Handle>(
    node: &'a Node<K, V, A>,
    cut: &Cut<Q>,
    gap: &mut Path,
    run: &mut &'a [(K, V)],
    is_first: &mut bool,
)
    requires levels { (h : ℕ) × IsLevelled h node.now × (length gap.old + h < most_levels) }
    requires order { IsAscending K.cmp (pairs_of node.now) }
    ensures gap { GoesOn gap.old gap.new node.now (before Q.order Q.sought cut.now (pairs_of node.now) - length run.new.now) }
    ensures run { IsPart run.new.now (pairs_of node.now) (before Q.order Q.sought cut.now (pairs_of node.now) - length run.new.now) (before Q.order Q.sought cut.now (pairs_of node.now)) }
    ensures first { IsTrue is_first.new ↔ (IsTrue is_first.old × (before Q.order Q.sought cut.now (pairs_of node.now) - length run.new.now ≡ 0)) }
{
    let place = place_in(node, cut, 0);
    if node.is_leaf() {
        gap.push(0);
        *run = &node.pairs()[0..place];
        return;
    }
    gap.push(place);
    *is_first = is_outer(*is_first, place, 0);
    upper_bound_edge(node.child(place), cut, gap, run, is_first);
}
