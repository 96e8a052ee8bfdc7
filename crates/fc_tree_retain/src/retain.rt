//! The pairs of a tree that stay, and those that are taken out.
ghost use Rattle.std.specs.Prelude.{◌≡◌, ℕ, ◌≤◌, length};
ghost use Rattle.std.specs.declared.cmp.Ordering.{Ordering};
ghost use Rattle.fc_base.specs.Ascending.{IsAscending};
ghost use Rattle.fc_tree_node.specs.Tree.{entries, IsSoundMap};
ghost use Rattle.fc_tree_retain.specs.Retained.{AskedAtKey, AskedAtPair, ExtractsBy, GivenKey, GivenPair, RetainsInTurn};
ghost use Rattle.fc_tree_retain.specs.Filtered.{FiltersPair};

use crate::filter::{Extracting, ExtractingKeys, Filter, Retaining, RetainingKeys};
use crate::filtering::filter_subtree;
use crate::rebalancing::{rebalance, without_empty_roots};
use fc_base::Handle;
use fc_tree_node::node::Node;
use fc_tree_split::counting::count_in;

/// Calls the closure at each pair of the tree, in order, with its value lent for writing, and drops those pairs at which it answers
/// false. It answers how many stay. No memory is taken, and nothing is compared.
pub fn retain<K: Drop, V: Drop, F: FnMut(&K, &mut V) -> bool, A: Handle>(
    tree: &mut Option<Node<K, V, A>>,
    f: F,
) -> usize
    requires sound { IsSoundMap tree.old }
    requires fits { length (entries tree.old) ≤ usize.MAX }
    requires callable { F.IsAlwaysCallable f }
    ensures sound { IsSoundMap tree.new }
    ensures retained { (last : F) × RetainsInTurn (AskedAtPair F.FnMut) f (entries tree.old) last (entries tree.new) }
    ensures ascending { (cmp : K → K → Ordering) → IsAscending cmp (entries tree.old) → IsAscending cmp (entries tree.new) }
    ensures length { result ≡ length (entries tree.new) }
{
    filter_tree(tree, &mut Retaining { keep: f })
}

/// Calls `pick` at each pair of the tree, in order, with its value lent for writing, takes those pairs out at which it answers true,
/// and calls `each` with each of these at once. It answers how many stay. No memory is taken, and nothing is compared.
pub fn extract_if<K: Drop, V: Drop, F: FnMut(&K, &mut V) -> bool, E: FnMut(K, V), A: Handle>(
    tree: &mut Option<Node<K, V, A>>,
    pick: F,
    each: E,
) -> usize
    requires sound { IsSoundMap tree.old }
    requires fits { length (entries tree.old) ≤ usize.MAX }
    requires callable { F.IsAlwaysCallable pick × E.IsAlwaysCallable each }
    ensures sound { IsSoundMap tree.new }
    ensures extracted { (last : F × E) × RetainsInTurn (ExtractsBy (AskedAtPair F.FnMut) (GivenPair E.FnMut)) (pick, each) (entries tree.old) last (entries tree.new) }
    ensures ascending { (cmp : K → K → Ordering) → IsAscending cmp (entries tree.old) → IsAscending cmp (entries tree.new) }
    ensures length { result ≡ length (entries tree.new) }
{
    filter_tree(tree, &mut Extracting { pick, each })
}

/// `retain` by the key alone. The values stay as they are.
pub fn retain_keys<K: Drop, V: Drop, F: FnMut(&K) -> bool, A: Handle>(
    tree: &mut Option<Node<K, V, A>>,
    f: F,
) -> usize
    requires sound { IsSoundMap tree.old }
    requires fits { length (entries tree.old) ≤ usize.MAX }
    requires callable { F.IsAlwaysCallable f }
    ensures sound { IsSoundMap tree.new }
    ensures retained { (last : F) × RetainsInTurn (AskedAtKey F.FnMut) f (entries tree.old) last (entries tree.new) }
    ensures ascending { (cmp : K → K → Ordering) → IsAscending cmp (entries tree.old) → IsAscending cmp (entries tree.new) }
    ensures length { result ≡ length (entries tree.new) }
{
    filter_tree(tree, &mut RetainingKeys { keep: f })
}

/// `extract_if` by the key alone: `each` is called with the keys, and the values are dropped.
pub fn extract_keys_if<K: Drop, V: Drop, F: FnMut(&K) -> bool, E: FnMut(K), A: Handle>(
    tree: &mut Option<Node<K, V, A>>,
    pick: F,
    each: E,
) -> usize
    requires sound { IsSoundMap tree.old }
    requires fits { length (entries tree.old) ≤ usize.MAX }
    requires callable { F.IsAlwaysCallable pick × E.IsAlwaysCallable each }
    ensures sound { IsSoundMap tree.new }
    ensures extracted { (last : F × E) × RetainsInTurn (ExtractsBy (AskedAtKey F.FnMut) (GivenKey E.FnMut)) (pick, each) (entries tree.old) last (entries tree.new) }
    ensures ascending { (cmp : K → K → Ordering) → IsAscending cmp (entries tree.old) → IsAscending cmp (entries tree.new) }
    ensures length { result ≡ length (entries tree.new) }
{
    filter_tree(tree, &mut ExtractingKeys { pick, each })
}

// Asks of each pair of the tree, which is rebalanced after, and answers how many stay.
fn filter_tree<K: Drop, V: Drop, S: Filter<K, V>, A: Handle>(
    tree: &mut Option<Node<K, V, A>>,
    filter: &mut S,
) -> usize
    requires sound { IsSoundMap tree.old }
    requires fits { length (entries tree.old) ≤ usize.MAX }
    requires callable { S.callable filter.old }
    ensures sound { IsSoundMap tree.new }
    ensures filtered { RetainsInTurn (FiltersPair S.asked S.given) filter.old (entries tree.old) filter.new (entries tree.new) }
    ensures ascending { (cmp : K → K → Ordering) → IsAscending cmp (entries tree.old) → IsAscending cmp (entries tree.new) }
    ensures length { result ≡ length (entries tree.new) }
{
    filter_root(tree, filter);
    count_in(tree)
}

// Asks of each pair of the tree, which is rebalanced after.
fn filter_root<K: Drop, V: Drop, S: Filter<K, V>, A: Handle>(
    tree: &mut Option<Node<K, V, A>>,
    filter: &mut S,
)
    requires sound { IsSoundMap tree.old }
    requires callable { S.callable filter.old }
    ensures sound { IsSoundMap tree.new }
    ensures filtered { RetainsInTurn (FiltersPair S.asked S.given) filter.old (entries tree.old) filter.new (entries tree.new) }
{
    if let Some(mut root) = tree.take() {
        let node: &mut Node<K, V, A> = &mut root;
        filter_subtree(node, filter);
        rebalance(node);
        *tree = without_empty_roots(root);
    }
}
