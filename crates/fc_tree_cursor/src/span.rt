//! The pairs between two gaps of a tree, from both ends.
//!
//! Each end has taken the pairs of its leaf, of which most steps give one: only at a leaf's end a step looks at the tree. The node
//! above the leaf has the next pair and the next leaf, but for its last child, from where the step goes one way down from the root.
ghost use Rattle.std.specs.Prelude.{◌≡◌, ◌<◌, ◌↔◌, ◌⊎◌, [], ◌∷◌, ◌++◌, length, IsTrue, false, Some, None};
ghost use Rattle.fc_base.specs.Ascending.{IsAscending};
ghost use Rattle.fc_base.specs.Ranges.{bound_by, within};
ghost use Rattle.fc_tree_node.specs.Leaf.{leaf_at};
ghost use Rattle.fc_tree_node.specs.Tree.{entries, IsSoundMap};
ghost use Rattle.fc_tree_node.specs.TreePlace.{before_gap_in};
ghost use Rattle.fc_tree_cursor.specs.Gap.{AreEndsIn, IsGapIn};
ghost use Rattle.fc_tree_cursor.specs.Span.{between, before_back, left_between, IsEndIn, AreEndsSoughtIn};

use crate::cuts::{start_of, stop_of};
use crate::ends::{first_gap_in, last_gap_in, lower_bound_edge, push_ends, upper_bound_edge};
use crate::gaps::{first_leaf_edge, last_leaf_edge};
use crate::run::{next_back_run, next_run, take_first_of};
use fc_base::{Handle, Query};
use fc_tree_node::node::Node;
use fc_tree_node::path::Path;
use std::alloc::Global;
use std::marker::Model;
use std::ops::Bound;

/// The pairs that the front has taken, those between two gaps of a tree, and those that the back has taken. The path to a gap at an end
/// of the tree itself has no step, until a walk needs it.
#[derive(Drop)]
pub struct Span<'a, K, V, A: Handle = Global> {
    root: &'a Option<Node<K, V, A>>,
    head: &'a [(K, V)],
    tail: &'a [(K, V)],
    front: Path,
    back: Path,
    above_front: Option<&'a Node<K, V, A>>,
    above_back: Option<&'a Node<K, V, A>>,
    has_met: bool,
}

impl<'a, K, V, A: Handle> Model for Span<'a, K, V, A> {
    ghost use Rattle.std.specs.Prelude.{◌≡◌, ◌↔◌, [], ◌++◌, List, IsTrue, option_copied};
    ghost use Rattle.fc_tree_node.specs.Tree.{IsSoundMap};
    ghost use Rattle.fc_tree_cursor.specs.Span.{left_between, AreKnownIn};

    ghost Value = { List (K × V) };

    ghost view = { λ s. s.head.now ++ (left_between s.root.now s.front s.back ++ s.tail.now) };

    ghost invariant = { λ s. IsSoundMap s.root.now × AreKnownIn s.root.now s.front s.back (option_copied s.above_front) (option_copied s.above_back) × (IsTrue s.has_met ↔ (left_between s.root.now s.front s.back ≡ [])) };
}

impl<'a, K, V, A: Handle> Span<'a, K, V, A> {
    /// All pairs below a root.
    pub fn whole(root: &'a Option<Node<K, V, A>>) -> Span<'a, K, V, A>
        requires { IsSoundMap root.now }
        ensures { result ≡ entries root.now }
    {
        let Some(node) = root else {
            return Span::none(root);
        };
        let mut front = Path::new();
        let first = first_leaf_edge(node, &mut front);
        let mut back = Path::new();
        last_leaf_edge(node, &mut back);
        Span::from_front(root, first, front, back)
    }

    // No pair, where there is no root.
    fn none(root: &'a Option<Node<K, V, A>>) -> Span<'a, K, V, A>
        requires { root.now ≡ None }
        ensures { result ≡ [] }
    {
        Span {
            root,
            head: &[],
            tail: &[],
            front: Path::new(),
            back: Path::new(),
            above_front: None,
            above_back: None,
            has_met: true,
        }
    }

    // The pairs between two gaps, of which the front takes those of its leaf.
    fn from_front(
        root: &'a Option<Node<K, V, A>>,
        first: &'a Node<K, V, A>,
        front: Path,
        back: Path,
    ) -> Span<'a, K, V, A>
        requires sound { IsSoundMap root.now }
        requires ends { AreEndsIn root.now front back }
        requires first { (n : Node K V A) → root.now ≡ Some n → first.now ≡ leaf_at front n }
        ensures { result ≡ between root.now front back }
    {
        let mut front = front;
        let (head, has_met) = take_first_of(root, first, &mut front, &back);
        Span {
            root,
            head,
            tail: &[],
            front,
            back,
            above_front: None,
            above_back: None,
            has_met,
        }
    }

    /// Whether there is no pair.
    #[inline]
    pub fn is_empty(&self) -> bool
        ensures { IsTrue result ↔ (self.now ≡ []) }
    {
        if !self.head.is_empty() {
            return false;
        }
        if !self.tail.is_empty() {
            return false;
        }
        self.has_met
    }

    /// The first of the pairs, which is then no longer there.
    #[inline]
    pub fn next(&mut self) -> &'a (K, V)
        requires { 0 < length self.old }
        ensures { self.old ≡ result.now ∷ self.new }
    {
        if let Some((pair, rest)) = self.head.split_first() {
            self.head = rest;
            return pair;
        }
        self.next_of_any_leaf()
    }

    // The same wherever it lies: apart from `next`, so that a compiler takes the few lines of that one into its callers.
    #[inline(never)]
    #[tactic(auto, using(crate::proofs::Sought::left_found, crate::proofs::Sought::met_found, crate::proofs::Sought::known_above))]
    fn next_of_any_leaf(&mut self) -> &'a (K, V)
        requires { 0 < length self.old }
        ensures { self.old ≡ result.now ∷ self.new }
    {
        if let Some((pair, rest)) = self.head.split_first() {
            self.head = rest;
            return pair;
        }
        if !self.has_met {
            find_missing_ends(
                self.root,
                self.above_front.is_some(),
                &mut self.front,
                &mut self.back,
            );
            let step = next_run(
                self.root,
                &mut self.above_front,
                &mut self.front,
                &self.back,
            );
            self.head = step.run;
            self.has_met = step.has_met;
            return step.pair;
        }
        let Some((pair, rest)) = self.tail.split_first() else {
            unreachable!()
        };
        self.tail = rest;
        pair
    }

    /// The last of the pairs, which is then no longer there.
    #[inline]
    pub fn next_back(&mut self) -> &'a (K, V)
        requires { 0 < length self.old }
        ensures { self.old ≡ self.new ++ result.now ∷ [] }
    {
        if let Some((pair, rest)) = self.tail.split_last() {
            self.tail = rest;
            return pair;
        }
        self.next_back_of_any_leaf()
    }

    // As `next_of_any_leaf`.
    #[inline(never)]
    #[tactic(auto, using(crate::proofs::Sought::met_found, crate::proofs::Sought::known_above))]
    fn next_back_of_any_leaf(&mut self) -> &'a (K, V)
        requires { 0 < length self.old }
        ensures { self.old ≡ self.new ++ result.now ∷ [] }
    {
        if let Some((pair, rest)) = self.tail.split_last() {
            self.tail = rest;
            return pair;
        }
        if !self.has_met {
            find_missing_ends(
                self.root,
                self.above_back.is_some(),
                &mut self.front,
                &mut self.back,
            );
            let step = next_back_run(self.root, &mut self.above_back, &self.front, &mut self.back);
            self.tail = step.run;
            self.has_met = step.has_met;
            return step.pair;
        }
        let Some((pair, rest)) = self.head.split_last() else {
            unreachable!()
        };
        self.head = rest;
        pair
    }

    /// The same pairs once more.
    pub fn copied(&self) -> Span<'a, K, V, A>
        ensures { result ≡ self.now }
    {
        Span {
            root: self.root,
            head: self.head,
            tail: self.tail,
            front: self.front,
            back: self.back,
            above_front: self.above_front,
            above_back: self.above_back,
            has_met: self.has_met,
        }
    }
}

impl<'a, K: Ord, V, A: Handle> Span<'a, K, V, A> {
    /// The pairs below a root whose keys lie within two bounds. The run of one end is taken at once: the back's where only it is bounded.
    pub fn within<Q: Query<K>>(
        root: &'a Option<Node<K, V, A>>,
        lo: &Bound<Q>,
        hi: &Bound<Q>,
    ) -> Span<'a, K, V, A>
        requires sound { IsSoundMap root.now }
        requires order { IsAscending K.cmp (entries root.now) }
        ensures { result ≡ within Q.order (bound_by Q.sought lo.now) (bound_by Q.sought hi.now) (entries root.now) }
    {
        let mut front = Path::new();
        let mut back = Path::new();
        let runs = start_within(root, lo, hi, &mut front, &mut back);
        Span {
            root,
            head: runs.head,
            tail: runs.tail,
            front,
            back,
            above_front: None,
            above_back: None,
            has_met: runs.has_met,
        }
    }
}

// What both ends have taken at the start, and whether they have then met.
#[derive(Drop)]
struct Runs<'a, K, V> {
    head: &'a [(K, V)],
    tail: &'a [(K, V)],
    has_met: bool,
}

// Fills the paths with the gaps at the bounds of a range, and takes the run of one end: the back's where only it is bounded. The span is
// made once, after this call, since a struct of its size is copied wherever two of it could be the answer. For the same reason it is
// not inlined: the paths are then filled where the span is to be.
#[tactic(auto, using(crate::proofs::Sought::ends_found, crate::proofs::Sought::met_found, crate::proofs::Sought::back_of_gap, crate::proofs::Bounds::from_nothing, crate::proofs::Turns::range_in))]
#[inline(never)]
fn start_within<'a, K: Ord, V, Q: Query<K>, A: Handle>(
    root: &'a Option<Node<K, V, A>>,
    lo: &Bound<Q>,
    hi: &Bound<Q>,
    front: &mut Path,
    back: &mut Path,
) -> Runs<'a, K, V>
    requires sound { IsSoundMap root.now }
    requires order { IsAscending K.cmp (entries root.now) }
    requires start { (front.old ≡ []) × (back.old ≡ []) }
    ensures ends { AreEndsSoughtIn root.now front.new back.new }
    ensures pairs { within Q.order (bound_by Q.sought lo.now) (bound_by Q.sought hi.now) (entries root.now) ≡ result.head.now ++ (left_between root.now front.new back.new ++ result.tail.now) }
    ensures met { IsTrue result.has_met ↔ (left_between root.now front.new back.new ≡ []) }
{
    let Some(node) = root else {
        return Runs {
            head: &[],
            tail: &[],
            has_met: true,
        };
    };
    let mut run: &'a [(K, V)] = &[];
    let mut has_met = true;
    if let Bound::Unbounded = hi {
        lower_bound_edge(node, &start_of(lo), front, &mut run, &mut has_met);
        return Runs {
            head: run,
            tail: &[],
            has_met,
        };
    }
    if let Bound::Unbounded = lo {
        upper_bound_edge(node, &stop_of(hi), back, &mut run, &mut has_met);
        return Runs {
            head: &[],
            tail: run,
            has_met,
        };
    }
    let first = push_ends(node, lo, hi, front, back);
    (run, has_met) = take_first_of(root, first, front, back);
    Runs {
        head: run,
        tail: &[],
        has_met,
    }
}

// Finds the ends that were not looked for yet, unless both are known to be found. A step looks at the node above its leaf in any case,
// so that it costs nothing to ask by it.
#[tactic(auto, using(crate::proofs::Sought::left_found))]
fn find_missing_ends<K, V, A: Handle>(
    root: &Option<Node<K, V, A>>,
    are_found: bool,
    front: &mut Path,
    back: &mut Path,
)
    requires sound { IsSoundMap root.now }
    requires ends { AreEndsSoughtIn root.now front.old back.old }
    requires found { IsTrue are_found → AreEndsIn root.now front.old back.old }
    ensures ends { AreEndsIn root.now front.new back.new }
    ensures pairs { between root.now front.new back.new ≡ left_between root.now front.old back.old }
    ensures same { AreEndsIn root.now front.old back.old → (front.new ≡ front.old) × (back.new ≡ back.old) }
{
    if are_found {
        return;
    }
    find_front(root, front);
    find_back(root, back);
}

// Goes to the first gap, where the front was not looked for yet. Apart from the steps, which need it once at most.
#[inline(never)]
#[tactic(auto, using(crate::proofs::Sought::not_sought))]
fn find_front<K, V, A: Handle>(root: &Option<Node<K, V, A>>, front: &mut Path)
    requires sound { IsSoundMap root.now }
    requires end { IsEndIn root.now front.old }
    ensures gap { IsGapIn root.now front.new }
    ensures before { length (before_gap_in root.now front.new) ≡ length (before_gap_in root.now front.old) }
    ensures same { IsGapIn root.now front.old → front.new ≡ front.old }
{
    if front.len() == 0 {
        *front = first_gap_in(root);
    }
}

// Goes to the last gap, where the back was not looked for yet. Apart as `find_front`.
#[inline(never)]
#[tactic(auto, using(crate::proofs::Sought::not_sought))]
fn find_back<K, V, A: Handle>(root: &Option<Node<K, V, A>>, back: &mut Path)
    requires sound { IsSoundMap root.now }
    requires end { IsEndIn root.now back.old }
    ensures gap { IsGapIn root.now back.new }
    ensures before { length (before_gap_in root.now back.new) ≡ before_back root.now back.old }
    ensures same { IsGapIn root.now back.old → back.new ≡ back.old }
{
    if back.len() == 0 {
        *back = last_gap_in(root);
    }
}
