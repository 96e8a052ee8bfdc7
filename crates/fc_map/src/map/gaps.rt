//! The ends of writing walks: gaps between two pairs, as paths to gaps of leaves, and steps from one to the next.
//!
//! A gap stays one where values are written, so a writing walk keeps its ends as such paths. Beside the one at its front it counts the
//! pairs of the leaf that it went over: within a leaf a step on changes that number alone, and only at a leaf's end it looks at the tree.
ghost use Rattle.std.specs.Prelude.{◌≡◌, ◌+◌, ◌<◌, ◌≤◌, ◌↔◌, List, ℕ, length, take, drop, IsTrue};
ghost use Rattle.fc_tree_node.specs.TreePlace.{before_pair_in, before_gap_in, IsPlaceIn};
ghost use Rattle.fc_tree_cursor.specs.Leaf.{advanced};
ghost use Rattle.fc_tree_for_each.specs.Visits.{CalledAtPair, IsVisited};
ghost use Rattle.fc_tree_cursor.specs.Gap.{IsGapIn, AreEndsIn};
ghost use Rattle.fc_map.specs.Entries.{entries, IsSoundMap};
ghost use Rattle.fc_map.specs.Lends.{branch};
ghost use Rattle.fc_map.specs.Writing.{starting};

use super::BTreeMap;
use fc_base::Handle;
use fc_tree_cursor::ends::{first_gap_in, last_gap_in};
use fc_tree_cursor::gaps::{push_gap_before, steps_to_previous};
use fc_tree_cursor::key_range::KeyRange;
use fc_tree_cursor::leaf::{advance, next_back_in_leaf, next_place, pairs_after};
use fc_tree_for_each::tree::visit_tree;
use fc_tree_node::node::Node;
use fc_tree_node::path::Path;

impl<K: Ord, V, A: Handle> BTreeMap<K, V, A> {
    // The gaps before all pairs and after them.
    pub(crate) fn whole_ends(&self) -> (Path, Path)
        ensures ends { AreEndsIn self.now result.0 result.1 }
        ensures front { length (before_gap_in self.now result.0) ≡ 0 }
        ensures back { length (before_gap_in self.now result.1) ≡ length (entries self.now) }
    {
        (first_gap_in(&self.root), last_gap_in(&self.root))
    }

    // The gaps at which a range starts and ends.
    pub(crate) fn range_ends<R: KeyRange<K>>(&self, range: &R) -> (Path, Path)
        ensures ends { AreEndsIn self.now result.0 result.1 }
        ensures front { length (before_gap_in self.now result.0) ≡ (starting R.order (R.start range.now) (R.end range.now) (entries self.now)).front }
        ensures back { length (before_gap_in self.now result.1) ≡ (starting R.order (R.start range.now) (R.end range.now) (entries self.now)).back }
    {
        range.gaps_in(&self.root)
    }

    // Whether two gaps are the same, of which the first lies so many pairs of its leaf after where its path leads.
    pub(crate) fn is_same_gap(&self, front: &Path, gone: usize, back: &Path) -> bool
        requires { IsGapIn self.now (advanced front.now gone) × IsGapIn self.now back.now }
        ensures { IsTrue result ↔ (length (before_gap_in self.now (advanced front.now gone)) ≡ length (before_gap_in self.now back.now)) }
    {
        // Read for the proof alone: it shows that the tree is sound.
        let _ = &self.root;
        let mut gap = *front;
        advance(&mut gap, gone);
        gap.as_slice() == back.as_slice()
    }

    // Calls the closure at each pair between two gaps, in order, with its value lent for writing. The first gap lies so many pairs
    // of its leaf after where its path leads.
    pub(crate) fn visit<F: FnMut(&K, &mut V)>(
        &mut self,
        front: &Path,
        gone: usize,
        back: &Path,
        f: F,
    )
        requires ends { AreEndsIn self.old (advanced front.now gone) back.now }
        requires callable { F.IsAlwaysCallable f }
        ensures gaps { (path : List ℕ) → IsGapIn self.old path → IsGapIn self.new path × (length (before_gap_in self.new path) ≡ length (before_gap_in self.old path)) }
        ensures visited { (last : F) × IsVisited (CalledAtPair F.FnMut) f last (take (length (before_gap_in self.old (advanced front.now gone))) (entries self.old)) (drop (length (before_gap_in self.old back.now)) (entries self.old)) (entries self.old) (entries self.new) }
    {
        // Read for the proof alone: it shows that the tree is sound.
        let _ = &self.root;
        let mut gap = *front;
        advance(&mut gap, gone);
        visit_tree(&mut self.root, &gap, back, f);
    }

    // How many pairs of its leaf lie after a gap; none where there is no leaf.
    pub(crate) fn run_after(&self, gap: &Path) -> usize
        requires { IsGapIn self.now gap.now }
        ensures run { IsGapIn self.now (advanced gap.now result) }
        ensures all { (k : ℕ) → IsGapIn self.now (advanced gap.now k) → 0 < length gap.now → k ≤ result }
    {
        match &self.root {
            None => 0,
            Some(root) => pairs_after(root, gap.as_slice()),
        }
    }

    // Goes on over the pair after a gap, and answers where that pair is: so many steps of the path lead to its node, and the place in
    // it. The gap lies `gone` pairs of its leaf after where its path leads, and the leaf has pairs up to `full` after there: within a
    // leaf the one number alone changes.
    #[inline]
    pub(crate) fn step_to_next(
        &self,
        path: &mut Path,
        gone: &mut usize,
        full: &mut usize,
    ) -> (usize, usize)
        requires gap { IsGapIn self.now (advanced path.old gone.old) }
        requires full { IsGapIn self.now (advanced path.old full.old) }
        requires some { (other : List ℕ) × IsGapIn self.now other × (length (before_gap_in self.now (advanced path.old gone.old)) < length (before_gap_in self.now other)) }
        ensures way { result.0 < length path.new }
        ensures small { result.1 < 256 }
        ensures place { IsPlaceIn self.now (branch path.new result.0 result.1) }
        ensures before { length (before_pair_in self.now (branch path.new result.0 result.1)) ≡ length (before_gap_in self.now (advanced path.old gone.old)) }
        ensures gap { IsGapIn self.now (advanced path.new gone.new) }
        ensures full { IsGapIn self.now (advanced path.new full.new) }
        ensures step { length (before_gap_in self.now (advanced path.new gone.new)) ≡ length (before_gap_in self.now (advanced path.old gone.old)) + 1 }
        ensures sound { IsSoundMap self.now }
    {
        if *gone < *full {
            return self.step_in_leaf(path, gone);
        }
        self.cross_to_next_leaf(path, gone, full)
    }

    // The same where the leaf of the gap has a pair after it.
    #[inline]
    pub(crate) fn step_in_leaf(&self, path: &Path, gone: &mut usize) -> (usize, usize)
        requires gap { IsGapIn self.now (advanced path.now (gone.old + 1)) }
        requires some { (other : List ℕ) × IsGapIn self.now other × (length (before_gap_in self.now (advanced path.now gone.old)) < length (before_gap_in self.now other)) }
        ensures way { result.0 < length path.now }
        ensures small { result.1 < 256 }
        ensures place { IsPlaceIn self.now (branch path.now result.0 result.1) }
        ensures before { length (before_pair_in self.now (branch path.now result.0 result.1)) ≡ length (before_gap_in self.now (advanced path.now gone.old)) }
        ensures gone { gone.new ≡ gone.old + 1 }
        ensures step { length (before_gap_in self.now (advanced path.now gone.new)) ≡ length (before_gap_in self.now (advanced path.now gone.old)) + 1 }
        ensures sound { IsSoundMap self.now }
    {
        // Read for the proof alone: it shows that the tree is sound.
        let _ = &self.root;
        let last = path.len() - 1;
        let place = path.step(last) + *gone;
        *gone += 1;
        (last, place)
    }

    // The same by a way down from the root, whether the leaf ends at the gap or not.
    #[inline(never)]
    pub(crate) fn cross_to_next_leaf(
        &self,
        path: &mut Path,
        gone: &mut usize,
        full: &mut usize,
    ) -> (usize, usize)
        requires gap { IsGapIn self.now (advanced path.old gone.old) }
        requires some { (other : List ℕ) × IsGapIn self.now other × (length (before_gap_in self.now (advanced path.old gone.old)) < length (before_gap_in self.now other)) }
        ensures way { result.0 < length path.new }
        ensures small { result.1 < 256 }
        ensures place { IsPlaceIn self.now (branch path.new result.0 result.1) }
        ensures before { length (before_pair_in self.now (branch path.new result.0 result.1)) ≡ length (before_gap_in self.now (advanced path.old gone.old)) }
        ensures gone { gone.new ≡ 0 }
        ensures gap { IsGapIn self.now (advanced path.new gone.new) }
        ensures full { IsGapIn self.now (advanced path.new full.new) }
        ensures all { (k : ℕ) → IsGapIn self.now (advanced path.new k) → k ≤ full.new }
        ensures step { length (before_gap_in self.now (advanced path.new gone.new)) ≡ length (before_gap_in self.now (advanced path.old gone.old)) + 1 }
        ensures sound { IsSoundMap self.now }
    {
        let Some(root) = &self.root else {
            unreachable!()
        };
        let root: &Node<K, V, A> = root;
        advance(path, *gone);
        let (last, place, run) = next_place(root, path);
        *gone = 0;
        *full = run;
        (last, place)
    }

    // Goes back over the pair before a gap, and answers that pair's place.
    #[inline]
    pub(crate) fn step_to_previous(&self, gap: &mut Path) -> Path
        requires gap { IsGapIn self.now gap.old }
        requires some { 0 < length (before_gap_in self.now gap.old) }
        ensures place { IsPlaceIn self.now result }
        ensures before { length (before_pair_in self.now result) + 1 ≡ length (before_gap_in self.now gap.old) }
        ensures gap { IsGapIn self.now gap.new }
        ensures step { length (before_gap_in self.now gap.new) + 1 ≡ length (before_gap_in self.now gap.old) }
        ensures sound { IsSoundMap self.now }
    {
        if gap.step(gap.len() - 1) == 0 {
            let (place, next) = self.cross_to_previous_leaf(gap);
            *gap = next;
            return place;
        }
        // Read for the proof alone: it shows that the tree is sound.
        let _ = &self.root;
        next_back_in_leaf(gap);
        *gap
    }

    // The place of the pair before a gap, and the gap before that pair, by a way down from the root.
    #[inline(never)]
    fn cross_to_previous_leaf(&self, gap: &Path) -> (Path, Path)
        requires gap { IsGapIn self.now gap.now }
        requires some { 0 < length (before_gap_in self.now gap.now) }
        ensures place { IsPlaceIn self.now result.0 }
        ensures before { length (before_pair_in self.now result.0) + 1 ≡ length (before_gap_in self.now gap.now) }
        ensures gap { IsGapIn self.now result.1 }
        ensures step { length (before_gap_in self.now result.1) + 1 ≡ length (before_gap_in self.now gap.now) }
        ensures sound { IsSoundMap self.now }
    {
        let Some(root) = &self.root else {
            unreachable!()
        };
        let root: &Node<K, V, A> = root;
        let gap = gap.as_slice();
        let last = steps_to_previous(root, gap) - 1;
        let mut place = Path::of(&gap[..last]);
        place.push(gap[last] as usize - 1);
        let mut next = Path::new();
        push_gap_before(root, place.as_slice(), &mut next);
        (place, next)
    }
}
