//! The pairs of a tree between two gaps that stay, and those that are taken out. No node outside the two paths and what is between them
//! is seen, but those beside a node that is rebalanced.
ghost use Rattle.std.specs.Prelude.{◌≡◌, ℕ, ◌+◌, ◌≤◌, ◌++◌, List, length};
ghost use Rattle.std.specs.declared.cmp.Ordering.{Ordering};
ghost use Rattle.fc_base.specs.Ascending.{IsAscending};
ghost use Rattle.fc_tree_node.specs.Tree.{entries, IsSoundMap};
ghost use Rattle.fc_tree_node.specs.TreePlace.{before_gap_in, after_gap_in};
ghost use Rattle.fc_tree_cursor.specs.Gap.{AreEndsIn};
ghost use Rattle.fc_tree_cursor.specs.Span.{between};
ghost use Rattle.fc_tree_retain.specs.Retained.{AskedAtKey, AskedAtPair, ExtractsBy, GivenKey, GivenPair, RetainsInTurn};
ghost use Rattle.fc_tree_retain.specs.Filtered.{FiltersPair};

use crate::filter::{
    Counted, Dropping, Extracting, ExtractingKeys, Filter, Retaining, RetainingKeys,
};
use crate::rebalancing::without_empty_roots;
use crate::within::filter_range;
use fc_base::Handle;
use fc_tree_node::node::Node;
use fc_tree_node::path::Path;

/// `retain` of the pairs between two gaps, of which the first is not after the second: the closure is called at each of these, in order,
/// with its value lent for writing, and those are dropped at which it answers false. It answers how many went. No memory is taken, and
/// nothing is compared.
pub fn retain_between<K: Drop, V: Drop, F: FnMut(&K, &mut V) -> bool, A: Handle>(
    tree: &mut Option<Node<K, V, A>>,
    front: &Path,
    back: &Path,
    f: F,
) -> usize
    requires sound { IsSoundMap tree.old }
    requires fits { length (entries tree.old) ≤ usize.MAX }
    requires ends { AreEndsIn tree.old front.now back.now }
    requires callable { F.IsAlwaysCallable f }
    ensures sound { IsSoundMap tree.new }
    ensures retained { (last : F) × (stay : List (K × V)) × RetainsInTurn (AskedAtPair F.FnMut) f (between tree.old front.now back.now) last stay × (entries tree.new ≡ before_gap_in tree.old front.now ++ (stay ++ after_gap_in tree.old back.now)) }
    ensures ascending { (cmp : K → K → Ordering) → IsAscending cmp (entries tree.old) → IsAscending cmp (entries tree.new) }
    ensures count { result + length (entries tree.new) ≡ length (entries tree.old) }
{
    filter_tree_range(tree, front, back, Retaining { keep: f })
}

/// `extract_if` of the pairs between two gaps, of which the first is not after the second: `pick` is called at each of these, in order,
/// with its value lent for writing, those are taken out at which it answers true, and `each` is called with each of them at once. It
/// answers how many went. No memory is taken, and nothing is compared.
pub fn extract_between<K: Drop, V: Drop, F: FnMut(&K, &mut V) -> bool, E: FnMut(K, V), A: Handle>(
    tree: &mut Option<Node<K, V, A>>,
    front: &Path,
    back: &Path,
    pick: F,
    each: E,
) -> usize
    requires sound { IsSoundMap tree.old }
    requires fits { length (entries tree.old) ≤ usize.MAX }
    requires ends { AreEndsIn tree.old front.now back.now }
    requires callable { F.IsAlwaysCallable pick × E.IsAlwaysCallable each }
    ensures sound { IsSoundMap tree.new }
    ensures extracted { (last : F × E) × (stay : List (K × V)) × RetainsInTurn (ExtractsBy (AskedAtPair F.FnMut) (GivenPair E.FnMut)) (pick, each) (between tree.old front.now back.now) last stay × (entries tree.new ≡ before_gap_in tree.old front.now ++ (stay ++ after_gap_in tree.old back.now)) }
    ensures ascending { (cmp : K → K → Ordering) → IsAscending cmp (entries tree.old) → IsAscending cmp (entries tree.new) }
    ensures count { result + length (entries tree.new) ≡ length (entries tree.old) }
{
    filter_tree_range(tree, front, back, Extracting { pick, each })
}

/// Drops all pairs between two gaps, of which the first is not after the second, in order, and answers how many these were. No memory
/// is taken, and nothing is compared.
pub fn remove_between<K: Drop, V: Drop, A: Handle>(
    tree: &mut Option<Node<K, V, A>>,
    front: &Path,
    back: &Path,
) -> usize
    requires sound { IsSoundMap tree.old }
    requires fits { length (entries tree.old) ≤ usize.MAX }
    requires ends { AreEndsIn tree.old front.now back.now }
    ensures sound { IsSoundMap tree.new }
    ensures removed { entries tree.new ≡ before_gap_in tree.old front.now ++ after_gap_in tree.old back.now }
    ensures ascending { (cmp : K → K → Ordering) → IsAscending cmp (entries tree.old) → IsAscending cmp (entries tree.new) }
    ensures count { result + length (entries tree.new) ≡ length (entries tree.old) }
{
    filter_tree_range(tree, front, back, Dropping {})
}

/// `retain_between` by the key alone. The values stay as they are.
pub fn retain_keys_between<K: Drop, V: Drop, F: FnMut(&K) -> bool, A: Handle>(
    tree: &mut Option<Node<K, V, A>>,
    front: &Path,
    back: &Path,
    f: F,
) -> usize
    requires sound { IsSoundMap tree.old }
    requires fits { length (entries tree.old) ≤ usize.MAX }
    requires ends { AreEndsIn tree.old front.now back.now }
    requires callable { F.IsAlwaysCallable f }
    ensures sound { IsSoundMap tree.new }
    ensures retained { (last : F) × (stay : List (K × V)) × RetainsInTurn (AskedAtKey F.FnMut) f (between tree.old front.now back.now) last stay × (entries tree.new ≡ before_gap_in tree.old front.now ++ (stay ++ after_gap_in tree.old back.now)) }
    ensures ascending { (cmp : K → K → Ordering) → IsAscending cmp (entries tree.old) → IsAscending cmp (entries tree.new) }
    ensures count { result + length (entries tree.new) ≡ length (entries tree.old) }
{
    filter_tree_range(tree, front, back, RetainingKeys { keep: f })
}

/// `extract_between` by the key alone: `each` is called with the keys, and the values are dropped.
pub fn extract_keys_between<K: Drop, V: Drop, F: FnMut(&K) -> bool, E: FnMut(K), A: Handle>(
    tree: &mut Option<Node<K, V, A>>,
    front: &Path,
    back: &Path,
    pick: F,
    each: E,
) -> usize
    requires sound { IsSoundMap tree.old }
    requires fits { length (entries tree.old) ≤ usize.MAX }
    requires ends { AreEndsIn tree.old front.now back.now }
    requires callable { F.IsAlwaysCallable pick × E.IsAlwaysCallable each }
    ensures sound { IsSoundMap tree.new }
    ensures extracted { (last : F × E) × (stay : List (K × V)) × RetainsInTurn (ExtractsBy (AskedAtKey F.FnMut) (GivenKey E.FnMut)) (pick, each) (between tree.old front.now back.now) last stay × (entries tree.new ≡ before_gap_in tree.old front.now ++ (stay ++ after_gap_in tree.old back.now)) }
    ensures ascending { (cmp : K → K → Ordering) → IsAscending cmp (entries tree.old) → IsAscending cmp (entries tree.new) }
    ensures count { result + length (entries tree.new) ≡ length (entries tree.old) }
{
    filter_tree_range(tree, front, back, ExtractingKeys { pick, each })
}

// Asks of each pair between two gaps of the tree, which is rebalanced after, and answers how many went.
fn filter_tree_range<K: Drop, V: Drop, S: Filter<K, V> + Drop, A: Handle>(
    tree: &mut Option<Node<K, V, A>>,
    front: &Path,
    back: &Path,
    filter: S,
) -> usize
    requires sound { IsSoundMap tree.old }
    requires fits { length (entries tree.old) ≤ usize.MAX }
    requires ends { AreEndsIn tree.old front.now back.now }
    requires callable { S.callable filter }
    ensures sound { IsSoundMap tree.new }
    ensures filtered { (last : S) × (stay : List (K × V)) × RetainsInTurn (FiltersPair S.asked S.given) filter (between tree.old front.now back.now) last stay × (entries tree.new ≡ before_gap_in tree.old front.now ++ (stay ++ after_gap_in tree.old back.now)) }
    ensures ascending { (cmp : K → K → Ordering) → IsAscending cmp (entries tree.old) → IsAscending cmp (entries tree.new) }
    ensures count { result + length (entries tree.new) ≡ length (entries tree.old) }
{
    let mut counted = Counted { filter, gone: 0 };
    filter_root_range(tree, front, back, &mut counted);
    counted.gone
}

// Asks of each pair between two gaps of the tree, which is rebalanced after.
fn filter_root_range<K: Drop, V: Drop, S: Filter<K, V>, A: Handle>(
    tree: &mut Option<Node<K, V, A>>,
    front: &Path,
    back: &Path,
    filter: &mut S,
)
    requires sound { IsSoundMap tree.old }
    requires ends { AreEndsIn tree.old front.now back.now }
    requires callable { S.callable filter.old }
    ensures sound { IsSoundMap tree.new }
    ensures filtered { (stay : List (K × V)) × RetainsInTurn (FiltersPair S.asked S.given) filter.old (between tree.old front.now back.now) filter.new stay × (entries tree.new ≡ before_gap_in tree.old front.now ++ (stay ++ after_gap_in tree.old back.now)) }
{
    if let Some(mut root) = tree.take() {
        let node: &mut Node<K, V, A> = &mut root;
        filter_range(node, front.as_slice(), back.as_slice(), filter);
        *tree = without_empty_roots(root);
    }
}
