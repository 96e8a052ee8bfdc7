//! A closure called at the pairs of a map's tree between two gaps.
ghost use Rattle.std.specs.Prelude.{◌≡◌, ℕ, List, length, take, drop};
ghost use Rattle.std.specs.declared.cmp.Ordering.{Ordering};
ghost use Rattle.fc_base.specs.Ascending.{IsAscending};
ghost use Rattle.fc_tree_node.specs.Tree.{entries, IsSoundMap};
ghost use Rattle.fc_tree_node.specs.TreePlace.{before_gap_in};
ghost use Rattle.fc_tree_cursor.specs.Gap.{AreEndsIn, IsGapIn};
ghost use Rattle.fc_tree_for_each.specs.Visits.{CalledAtPair, IsVisited};

use crate::visit::visit;
use fc_base::Handle;
use fc_tree_node::node::Node;
use fc_tree_node::path::Path;

/// Calls the closure at each pair of the tree between two gaps, in order, with its value lent for writing. No memory is taken, and
/// no node on the other side of a gap is entered.
pub fn visit_tree<K, V, F: FnMut(&K, &mut V), A: Handle>(
    root: &mut Option<Node<K, V, A>>,
    front: &Path,
    back: &Path,
    mut f: F,
)
    requires sound { IsSoundMap root.old }
    requires ends { AreEndsIn root.old front.now back.now }
    requires callable { F.IsAlwaysCallable f }
    ensures sound { IsSoundMap root.new }
    ensures ascending { (cmp : K → K → Ordering) → IsAscending cmp (entries root.old) → IsAscending cmp (entries root.new) }
    ensures length { length (entries root.new) ≡ length (entries root.old) }
    ensures gaps { (path : List ℕ) → IsGapIn root.old path → IsGapIn root.new path × (length (before_gap_in root.new path) ≡ length (before_gap_in root.old path)) }
    ensures visited { (last : F) × IsVisited (CalledAtPair F.FnMut) f last (take (length (before_gap_in root.old front.now)) (entries root.old)) (drop (length (before_gap_in root.old back.now)) (entries root.old)) (entries root.old) (entries root.new) }
{
    match root {
        None => {}
        Some(root) => visit(root, front.as_slice(), back.as_slice(), &mut f),
    }
}
