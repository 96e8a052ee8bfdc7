//! Steps of a walk's ends from leaf to leaf: each takes all pairs of its leaf at once, as far as the other end.
ghost use Rattle.std.specs.Prelude.{option_copied, ◌≡◌, ◌+◌, ◌-◌, ◌<◌, ◌≤◌, ◌↔◌, [], ◌∷◌, ◌++◌, length, take, Some, IsTrue, IsFalse, slice_get, slice_index, slice_range, if◌then◌else◌};
ghost use Rattle.fc_tree_node.specs.Leaf.{leaf_at};
ghost use Rattle.fc_tree_node.specs.LeafGap.{IsLeafGap};
ghost use Rattle.fc_tree_node.specs.Node.{own_pairs, pairs_of, IsLevelled, IsTree};
ghost use Rattle.fc_tree_node.specs.Path.{before_gap};
ghost use Rattle.fc_tree_node.specs.Place.{before_own};
ghost use Rattle.fc_tree_node.specs.Tree.{entries, IsSoundMap};
ghost use Rattle.fc_tree_node.specs.TreePlace.{before_gap_in};
ghost use Rattle.fc_tree_cursor.specs.Gap.{IsGapIn, AreEndsIn, IsLeafEnd, IsLeafStart, GoesOn, LeadsTo, IsBeside, IsAboveAt, IsAbove};
ghost use Rattle.fc_tree_cursor.specs.Span.{between};

use fc_base::Handle;
use fc_tree_node::node::Node;
use fc_tree_node::path::Path;

// The leaf of a gap, and the node above it, if there is one.
#[tactic(auto, using(crate::proofs::Ways::leaf_node))]
fn leaf_of<'a, K, V, A: Handle>(
    root: &'a Node<K, V, A>,
    gap: &Path,
) -> (Option<&'a Node<K, V, A>>, &'a Node<K, V, A>)
    requires levels { IsTree root.now }
    requires gap { IsLeafGap gap.now root.now }
    ensures above { IsAboveAt gap.now root.now (length gap.now - 1) (option_copied result.0) }
    ensures leaf { result.1.now ≡ leaf_at gap.now root.now }
{
    let last = gap.len() - 1;
    let mut above = None;
    let mut node = root;
    for level in 0..last {
        above = Some(node);
        node = node.child(gap.step(level));
    }
    (above, node)
}

// The pairs of a leaf between two places.
fn part<'a, K, V, A: Handle>(leaf: &'a Node<K, V, A>, start: usize, end: usize) -> &'a [(K, V)]
    requires order { start ≤ end }
    requires fits { end ≤ length (own_pairs leaf.now) }
    ensures { result.now ≡ slice_range (own_pairs leaf.now) start end }
{
    &leaf.pairs()[start..end]
}

// Whether two gaps of one tree are of the same leaf.
fn is_same_leaf(a: &Path, b: &Path) -> bool
    requires some { 0 < length a.now }
    requires long { length a.now ≡ length b.now }
    ensures { IsTrue result ↔ (take (length a.now - 1) a.now ≡ take (length a.now - 1) b.now) }
{
    for i in 0..a.len() - 1 {
        if a.step(i) != b.step(i) {
            return false;
        }
    }
    true
}

// How far an end of a walk may go in its leaf: to the other end, where that is in the leaf too, or else to the leaf's end. And whether it is there.
fn reach(end: &Path, other: &Path, leaf_end: usize) -> (usize, bool)
    requires some { 0 < length end.now }
    requires long { length end.now ≡ length other.now }
    ensures met { IsTrue result.1 ↔ (take (length end.now - 1) end.now ≡ take (length end.now - 1) other.now) }
    ensures place { result.0 ≡ (if result.1 then slice_index other.now (length end.now - 1) else leaf_end) }
{
    if is_same_leaf(end, other) {
        return (other.step(end.len() - 1), true);
    }
    (leaf_end, false)
}

/// Takes the pairs of the front's leaf from its gap on, as far as the back, and goes on after them. It answers them, and whether
/// the front has then met the back.
pub fn take_first_of<'a, K, V, A: Handle>(
    root: &'a Option<Node<K, V, A>>,
    leaf: &'a Node<K, V, A>,
    front: &mut Path,
    back: &Path,
) -> (&'a [(K, V)], bool)
    requires sound { IsSoundMap root.now }
    requires ends { AreEndsIn root.now front.old back.now }
    requires leaf { (n : Node K V A) → root.now ≡ Some n → leaf.now ≡ leaf_at front.old n }
    ensures ends { AreEndsIn root.now front.new back.now }
    ensures leaf { IsBeside front.old front.new }
    ensures run { between root.now front.old back.now ≡ result.0.now ++ between root.now front.new back.now }
    ensures met { IsTrue result.1 ↔ (between root.now front.new back.now ≡ []) }
    ensures all { IsFalse result.1 → IsLeafEnd root.now front.new }
{
    let Some(_node) = root else {
        return (&[], true);
    };
    let (end, has_met) = reach(front, back, leaf.len());
    let last = front.len() - 1;
    let start = front.step(last);
    front.set(last, end);
    (part(leaf, start, end), has_met)
}

/// Takes the pairs of the back's leaf before its gap, as far as the front, and goes back before them. It answers them, and
/// whether the back has then met the front.
pub fn take_last_of<'a, K, V, A: Handle>(
    root: &'a Option<Node<K, V, A>>,
    leaf: &'a Node<K, V, A>,
    front: &Path,
    back: &mut Path,
) -> (&'a [(K, V)], bool)
    requires sound { IsSoundMap root.now }
    requires ends { AreEndsIn root.now front.now back.old }
    requires leaf { (n : Node K V A) → root.now ≡ Some n → leaf.now ≡ leaf_at back.old n }
    ensures ends { AreEndsIn root.now front.now back.new }
    ensures leaf { IsBeside back.old back.new }
    ensures run { between root.now front.now back.old ≡ between root.now front.now back.new ++ result.0.now }
    ensures met { IsTrue result.1 ↔ (between root.now front.now back.new ≡ []) }
    ensures all { IsFalse result.1 → IsLeafStart root.now back.new }
{
    let Some(_node) = root else {
        return (&[], true);
    };
    let (start, has_met) = reach(back, front, 0);
    let last = back.len() - 1;
    let end = back.step(last);
    back.set(last, start);
    (part(leaf, start, end), has_met)
}

// The other node and its level where it has pairs, or else the best so far.
fn lower<'a, K, V, A: Handle>(
    best: (&'a Node<K, V, A>, usize),
    other: (&'a Node<K, V, A>, usize),
    pairs: usize,
) -> (&'a Node<K, V, A>, usize)
    ensures other { 0 < pairs → result ≡ other.entry }
    ensures best { pairs ≡ 0 → result ≡ best.entry }
{
    if 0 < pairs { other } else { best }
}

// The lowest node on the way to a gap that has a pair after it, and its level.
pub(crate) fn lowest_with_next<'a, K, V, A: Handle>(
    root: &'a Node<K, V, A>,
    gap: &Path,
) -> (&'a Node<K, V, A>, usize)
    requires levels { IsTree root.now }
    requires gap { IsLeafGap gap.now root.now }
    requires some { length (before_gap gap.now root.now) < length (pairs_of root.now) }
    ensures way { LeadsTo gap.now root.now result.1 result.0.now }
    ensures own { slice_index gap.now result.1 < length (own_pairs result.0.now) }
    ensures before { length (before_gap (take result.1 gap.now) root.now) + length (before_own result.0.now (slice_index gap.now result.1)) ≡ length (before_gap gap.now root.now) }
{
    let last = gap.len() - 1;
    let mut node = root;
    let mut best = root;
    let mut place = 0;
    for level in 0..last {
        let step = gap.step(level);
        (best, place) = lower((best, place), (node, level), node.len() - step);
        node = node.child(step);
    }
    lower((best, place), (node, last), node.len() - gap.step(last))
}

// The lowest node on the way to a gap that has a pair before it, and its level.
fn lowest_with_previous<'a, K, V, A: Handle>(
    root: &'a Node<K, V, A>,
    gap: &Path,
) -> (&'a Node<K, V, A>, usize)
    requires levels { IsTree root.now }
    requires gap { IsLeafGap gap.now root.now }
    requires some { 0 < length (before_gap gap.now root.now) }
    ensures way { LeadsTo gap.now root.now result.1 result.0.now }
    ensures own { (0 < slice_index gap.now result.1) × (slice_index gap.now result.1 ≤ length (own_pairs result.0.now)) }
    ensures before { length (before_gap (take result.1 gap.now) root.now) + length (before_own result.0.now (slice_index gap.now result.1 - 1)) + 1 ≡ length (before_gap gap.now root.now) }
{
    let last = gap.len() - 1;
    let mut node = root;
    let mut best = root;
    let mut place = 0;
    for level in 0..last {
        let step = gap.step(level);
        (best, place) = lower((best, place), (node, level), step);
        node = node.child(step);
    }
    lower((best, place), (node, last), gap.step(last))
}

// Goes on to the first gap below a node at a level.
fn first_leaf_edge_at<K, V, A: Handle>(node: &Node<K, V, A>, gap: &mut Path, level: usize)
    requires level { level < length gap.old }
    requires levels { IsLevelled (length gap.old - level - 1) node.now }
    ensures { GoesOn (take level gap.old) gap.new node.now 0 }
{
    let len = gap.len();
    gap.set(level, 0);
    if level + 1 < len {
        first_leaf_edge_at(node.child(0), gap, level + 1);
    }
}

// Goes on to the last gap below a node at a level.
fn last_leaf_edge_at<K, V, A: Handle>(node: &Node<K, V, A>, gap: &mut Path, level: usize)
    requires level { level < length gap.old }
    requires levels { IsLevelled (length gap.old - level - 1) node.now }
    ensures { GoesOn (take level gap.old) gap.new node.now (length (pairs_of node.now)) }
{
    let len = gap.len();
    let end = node.len();
    gap.set(level, end);
    if level + 1 < len {
        last_leaf_edge_at(node.child(end), gap, level + 1);
    }
}

// Goes on to the gap after the node's own pair that the gap's way leads to.
fn next_leaf_edge_at<K, V, A: Handle>(node: &Node<K, V, A>, gap: &mut Path, level: usize)
    requires level { level < length gap.old }
    requires levels { IsLevelled (length gap.old - level - 1) node.now }
    requires own { slice_index gap.old level < length (own_pairs node.now) }
    ensures { GoesOn (take level gap.old) gap.new node.now (length (before_own node.now (slice_index gap.old level)) + 1) }
{
    let len = gap.len();
    let step = gap.step(level) + 1;
    gap.set(level, step);
    if level + 1 < len {
        first_leaf_edge_at(node.child(step), gap, level + 1);
    }
}

// Goes back to the gap before the node's own pair before where the gap's way leads.
fn next_back_leaf_edge_at<K, V, A: Handle>(node: &Node<K, V, A>, gap: &mut Path, level: usize)
    requires level { level < length gap.old }
    requires levels { IsLevelled (length gap.old - level - 1) node.now }
    requires own { (0 < slice_index gap.old level) × (slice_index gap.old level ≤ length (own_pairs node.now)) }
    ensures { GoesOn (take level gap.old) gap.new node.now (length (before_own node.now (slice_index gap.old level - 1))) }
{
    let len = gap.len();
    let step = gap.step(level) - 1;
    gap.set(level, step);
    if level + 1 < len {
        last_leaf_edge_at(node.child(step), gap, level + 1);
    }
}

// Goes on over the pair after a gap, and answers that pair, and the leaf of the gap after it. Where the node above the gap's leaf
// is known and has the pair, it has that leaf too; else the way is taken from the root, and the node above is known from then on.
fn next_unchecked<'a, K, V, A: Handle>(
    root: &'a Option<Node<K, V, A>>,
    above: &mut Option<&'a Node<K, V, A>>,
    gap: &mut Path,
) -> (&'a (K, V), &'a Node<K, V, A>)
    requires sound { IsSoundMap root.now }
    requires gap { IsGapIn root.now gap.old }
    requires above { IsAbove root.now gap.old (option_copied above.old) }
    requires some { length (before_gap_in root.now gap.old) < length (entries root.now) }
    ensures gap { IsGapIn root.now gap.new }
    ensures above { IsAbove root.now gap.new (option_copied above.new) }
    ensures step { length (before_gap_in root.now gap.new) ≡ length (before_gap_in root.now gap.old) + 1 }
    ensures pair { slice_get (entries root.now) (length (before_gap_in root.now gap.old)) ≡ Some result.0.now }
    ensures leaf { (n : Node K V A) → root.now ≡ Some n → result.1.now ≡ leaf_at gap.new n }
{
    if let Some(node) = *above {
        let last = gap.len() - 1;
        let place = gap.step(last - 1);
        if place < node.len() && node.child(place).len() == gap.step(last) {
            gap.set(last - 1, place + 1);
            gap.set(last, 0);
            return (node.pair(place), node.child(place + 1));
        }
    }
    next_unchecked_from_root(root, above, gap)
}

// The same on the way from the root.
#[inline(never)]
#[tactic(auto, using(crate::proofs::Ways::levels_in, crate::proofs::Ways::same_root))]
fn next_unchecked_from_root<'a, K, V, A: Handle>(
    root: &'a Option<Node<K, V, A>>,
    above: &mut Option<&'a Node<K, V, A>>,
    gap: &mut Path,
) -> (&'a (K, V), &'a Node<K, V, A>)
    requires sound { IsSoundMap root.now }
    requires gap { IsGapIn root.now gap.old }
    requires some { length (before_gap_in root.now gap.old) < length (entries root.now) }
    ensures gap { IsGapIn root.now gap.new }
    ensures above { IsAbove root.now gap.new (option_copied above.new) }
    ensures step { length (before_gap_in root.now gap.new) ≡ length (before_gap_in root.now gap.old) + 1 }
    ensures pair { slice_get (entries root.now) (length (before_gap_in root.now gap.old)) ≡ Some result.0.now }
    ensures leaf { (n : Node K V A) → root.now ≡ Some n → result.1.now ≡ leaf_at gap.new n }
{
    let Some(node) = root else { unreachable!() };
    let node: &Node<K, V, A> = node;
    let (holder, level) = lowest_with_next(node, gap);
    let pair = holder.pair(gap.step(level));
    next_leaf_edge_at(holder, gap, level);
    let (parent, leaf) = leaf_of(node, gap);
    *above = parent;
    (pair, leaf)
}

// Goes back over the pair before a gap, and answers that pair, and the leaf of the gap before it. Where the node above the gap's leaf
// is known and has the pair, it has that leaf too; else the way is taken from the root, and the node above is known from then on.
fn next_back_unchecked<'a, K, V, A: Handle>(
    root: &'a Option<Node<K, V, A>>,
    above: &mut Option<&'a Node<K, V, A>>,
    gap: &mut Path,
) -> (&'a (K, V), &'a Node<K, V, A>)
    requires sound { IsSoundMap root.now }
    requires gap { IsGapIn root.now gap.old }
    requires above { IsAbove root.now gap.old (option_copied above.old) }
    requires some { 0 < length (before_gap_in root.now gap.old) }
    ensures gap { IsGapIn root.now gap.new }
    ensures above { IsAbove root.now gap.new (option_copied above.new) }
    ensures step { length (before_gap_in root.now gap.new) + 1 ≡ length (before_gap_in root.now gap.old) }
    ensures pair { slice_get (entries root.now) (length (before_gap_in root.now gap.new)) ≡ Some result.0.now }
    ensures leaf { (n : Node K V A) → root.now ≡ Some n → result.1.now ≡ leaf_at gap.new n }
{
    if let Some(node) = *above {
        let last = gap.len() - 1;
        let place = gap.step(last - 1);
        if 0 < place && gap.step(last) == 0 {
            let leaf = node.child(place - 1);
            gap.set(last - 1, place - 1);
            gap.set(last, leaf.len());
            return (node.pair(place - 1), leaf);
        }
    }
    next_back_unchecked_from_root(root, above, gap)
}

// The same on the way from the root.
#[inline(never)]
#[tactic(auto, using(crate::proofs::Ways::levels_in, crate::proofs::Ways::same_root))]
fn next_back_unchecked_from_root<'a, K, V, A: Handle>(
    root: &'a Option<Node<K, V, A>>,
    above: &mut Option<&'a Node<K, V, A>>,
    gap: &mut Path,
) -> (&'a (K, V), &'a Node<K, V, A>)
    requires sound { IsSoundMap root.now }
    requires gap { IsGapIn root.now gap.old }
    requires some { 0 < length (before_gap_in root.now gap.old) }
    ensures gap { IsGapIn root.now gap.new }
    ensures above { IsAbove root.now gap.new (option_copied above.new) }
    ensures step { length (before_gap_in root.now gap.new) + 1 ≡ length (before_gap_in root.now gap.old) }
    ensures pair { slice_get (entries root.now) (length (before_gap_in root.now gap.new)) ≡ Some result.0.now }
    ensures leaf { (n : Node K V A) → root.now ≡ Some n → result.1.now ≡ leaf_at gap.new n }
{
    let Some(node) = root else { unreachable!() };
    let node: &Node<K, V, A> = node;
    let (holder, level) = lowest_with_previous(node, gap);
    let pair = holder.pair(gap.step(level) - 1);
    next_back_leaf_edge_at(holder, gap, level);
    let (parent, leaf) = leaf_of(node, gap);
    *above = parent;
    (pair, leaf)
}

/// What an end of a walk takes where its leaf has no pair left.
#[derive(Drop)]
pub struct Step<'a, K, V> {
    /// The pair that it goes over.
    pub pair: &'a (K, V),
    /// The pairs of the next leaf.
    pub run: &'a [(K, V)],
    /// Whether it has then met the other end.
    pub has_met: bool,
}

/// Goes on over a pair, and takes the run after it.
#[tactic(auto, using(crate::proofs::Betweens::gap_fits, crate::proofs::Betweens::some_between, crate::proofs::Betweens::next_between, crate::proofs::Ways::above_beside))]
pub fn next_run<'a, K, V, A: Handle>(
    root: &'a Option<Node<K, V, A>>,
    above: &mut Option<&'a Node<K, V, A>>,
    front: &mut Path,
    back: &Path,
) -> Step<'a, K, V>
    requires sound { IsSoundMap root.now }
    requires ends { AreEndsIn root.now front.old back.now }
    requires above { IsAbove root.now front.old (option_copied above.old) }
    requires some { 0 < length (between root.now front.old back.now) }
    ensures ends { AreEndsIn root.now front.new back.now }
    ensures above { IsAbove root.now front.new (option_copied above.new) }
    ensures pairs { between root.now front.old back.now ≡ result.pair.now ∷ (result.run.now ++ between root.now front.new back.now) }
    ensures met { IsTrue result.has_met ↔ (between root.now front.new back.now ≡ []) }
    ensures all { IsFalse result.has_met → IsLeafEnd root.now front.new }
{
    let (pair, leaf) = next_unchecked(root, above, front);
    let (run, has_met) = take_first_of(root, leaf, front, back);
    Step { pair, run, has_met }
}

/// Goes back over a pair, and takes the run before it.
#[tactic(auto, using(crate::proofs::Betweens::some_between, crate::proofs::Betweens::previous_between, crate::proofs::Ways::above_beside))]
pub fn next_back_run<'a, K, V, A: Handle>(
    root: &'a Option<Node<K, V, A>>,
    above: &mut Option<&'a Node<K, V, A>>,
    front: &Path,
    back: &mut Path,
) -> Step<'a, K, V>
    requires sound { IsSoundMap root.now }
    requires ends { AreEndsIn root.now front.now back.old }
    requires above { IsAbove root.now back.old (option_copied above.old) }
    requires some { 0 < length (between root.now front.now back.old) }
    ensures ends { AreEndsIn root.now front.now back.new }
    ensures above { IsAbove root.now back.new (option_copied above.new) }
    ensures pairs { between root.now front.now back.old ≡ between root.now front.now back.new ++ (result.run.now ++ result.pair.now ∷ []) }
    ensures met { IsTrue result.has_met ↔ (between root.now front.now back.new ≡ []) }
    ensures all { IsFalse result.has_met → IsLeafStart root.now back.new }
{
    let (pair, leaf) = next_back_unchecked(root, above, back);
    let (run, has_met) = take_last_of(root, leaf, front, back);
    Step { pair, run, has_met }
}
