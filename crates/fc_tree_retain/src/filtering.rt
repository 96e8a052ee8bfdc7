//! The pairs that are not to stay taken out of a tree, whose nodes may then hold any number of pairs.
ghost use Rattle.std.specs.Prelude.{◌≡◌, ℕ, ◌+◌, ◌<◌, ◌≤◌, [], ◌∷◌, ◌++◌, length, remove, slice_index_or, MatchOption, ⊤};
ghost use Rattle.std.specs.Option.{option_to_list};
ghost use Rattle.fc_base.specs.Sizes.{capacity};
ghost use Rattle.fc_tree_node.specs.Node.{own_pairs, children_of, child_at, pairs_of, IsLeaf, IsInner};
ghost use Rattle.fc_tree_node.specs.Place.{before_child, after_child};
ghost use Rattle.fc_tree_search.specs.Written.{with_value};
ghost use Rattle.fc_tree_retain.specs.Unbalanced.{IsUnbalanced};
ghost use Rattle.fc_tree_retain.specs.Rebalancing.{IsUnderfull, IsUnderfullOrUnbalanced};
ghost use Rattle.fc_tree_retain.specs.Retained.{RetainsInTurn};
ghost use Rattle.fc_tree_retain.specs.Filtered.{FiltersPair, IsOwnPassed, IsPassed, IsAsked};

use crate::filter::Filter;
use fc_base::{Count, Handle};
use fc_tree_node::lend::child_in;
use fc_tree_node::node::Node;
use fc_tree_removal::first_last::remove_last;

// Asks of each pair below the node, in order, and takes those out that are not to stay. No node is merged: one may be left with few
// pairs, none too.
pub(crate) fn filter_subtree<K: Drop, V: Drop, S: Filter<K, V>, A: Handle>(
    node: &mut Node<K, V, A>,
    filter: &mut S,
)
    requires unbalanced { (h : ℕ) × IsUnbalanced h node.old }
    requires callable { S.callable filter.old }
    ensures callable { S.callable filter.new }
    ensures unbalanced { (h : ℕ) → IsUnbalanced h node.old → IsUnbalanced h node.new }
    ensures filtered { RetainsInTurn (FiltersPair S.asked S.given) filter.old (pairs_of node.old) filter.new (pairs_of node.new) }
{
    if node.is_leaf() {
        filter_leaf(node, filter);
        return;
    }
    let mut at = 0;
    for _ in 0..node.len() {
        filter_subtree(child_in(&mut node.children, at), filter);
        at = filter_separator(node, at, false, filter);
    }
    filter_subtree(child_in(&mut node.children, at), filter);
}

// Asks of each pair of a leaf.
fn filter_leaf<K: Drop, V: Drop, S: Filter<K, V>, A: Handle>(
    node: &mut Node<K, V, A>,
    filter: &mut S,
)
    requires leaf { IsUnbalanced 0 node.old }
    requires callable { S.callable filter.old }
    ensures callable { S.callable filter.new }
    ensures unbalanced { IsUnbalanced 0 node.new }
    ensures filtered { RetainsInTurn (FiltersPair S.asked S.given) filter.old (own_pairs node.old) filter.new (own_pairs node.new) }
{
    let mut at = 0;
    for _ in 0..node.len() {
        at = filter_pair(node, at, filter);
    }
}

// Asks of a leaf's pair at `at`, and answers the place of the next one.
pub(crate) fn filter_pair<K: Drop, V: Drop, S: Filter<K, V>, A: Handle>(
    node: &mut Node<K, V, A>,
    at: usize,
    filter: &mut S,
) -> usize
    requires leaf { IsUnbalanced 0 node.old }
    requires inside { at < length (own_pairs node.old) }
    requires callable { S.callable filter.old }
    ensures callable { S.callable filter.new }
    ensures unbalanced { IsUnbalanced 0 node.new }
    ensures passed { IsOwnPassed (FiltersPair S.asked S.given) filter.old filter.new at result (own_pairs node.old) (own_pairs node.new) }
{
    if stays(node, at, filter) {
        return at + 1;
    }
    filter.take(node.remove_leaf(at, &mut Count::new()));
    at
}

// Whether the node's own pair at `index` is to stay.
fn stays<K, V, S: Filter<K, V>, A: Handle>(
    node: &mut Node<K, V, A>,
    index: usize,
    filter: &mut S,
) -> bool
    requires inside { index < length (own_pairs node.old) }
    requires callable { S.callable filter.old }
    ensures callable { S.callable filter.new }
    ensures asked { IsAsked S.asked filter.old filter.new index node.old node.new result }
{
    let pair = node.pairs.get_mut(index);
    filter.stays(&pair.0, &mut pair.1)
}

// Asks of the pair after a child that is done, and answers which child is next. Where the pair is not to stay, the last one below the
// child takes its place, and the child is rebalanced where the flag says so; a child without pairs goes with it.
pub(crate) fn filter_separator<K: Drop, V: Drop, S: Filter<K, V>, A: Handle>(
    node: &mut Node<K, V, A>,
    at: usize,
    rebalances: bool,
    filter: &mut S,
) -> usize
    requires child { (h : ℕ) × IsUnderfullOrUnbalanced rebalances h (child_at node.old at) }
    requires fits { length (own_pairs node.old) ≤ capacity }
    requires inside { at < length (own_pairs node.old) }
    requires inner { IsInner node.old }
    requires callable { S.callable filter.old }
    ensures callable { S.callable filter.new }
    ensures passed { IsPassed (IsUnderfullOrUnbalanced rebalances) (FiltersPair S.asked S.given) filter.old filter.new at result node.old node.new }
{
    if stays(node, at, filter) {
        return at + 1;
    }
    match take_last(child_in(&mut node.children, at), rebalances) {
        None => {
            filter.take(remove_with_separator(node, at));
            at
        }
        Some(pair) => {
            filter.take(node.replace_pair(at, pair, &mut Count::new()));
            at + 1
        }
    }
}

// Takes the last pair below a node out, if there is one, and rebalances what is below the node where the flag says so.
fn take_last<K: Drop, V: Drop, A: Handle>(
    node: &mut Node<K, V, A>,
    rebalances: bool,
) -> Option<(K, V)>
    requires levels { (h : ℕ) × IsUnderfullOrUnbalanced rebalances h node.old }
    ensures levels { (h : ℕ) → IsUnderfullOrUnbalanced rebalances h node.old → IsUnderfullOrUnbalanced rebalances h node.new }
    ensures pairs { pairs_of node.old ≡ pairs_of node.new ++ option_to_list result }
    ensures none { MatchOption result (pairs_of node.new ≡ []) (λ _. ⊤) }
{
    if rebalances {
        take_last_of_underfull(node)
    } else {
        take_last_of_unbalanced(node)
    }
}

// Takes the child at `index` out, and the pair after it.
fn remove_with_separator<K: Drop, V: Drop, A: Handle>(
    node: &mut Node<K, V, A>,
    index: usize,
) -> (K, V)
    requires inside { index < length (own_pairs node.old) }
    requires inner { IsInner node.old }
    ensures value { result ≡ slice_index_or (own_pairs node.old) index result }
    ensures pairs { own_pairs node.new ≡ remove (own_pairs node.old) index }
    ensures children { children_of node.new ≡ remove (children_of node.old) index }
{
    let Node { pairs, children } = node;
    let Some(children) = children else {
        unreachable!()
    };
    children.remove(index);
    pairs.remove(index, &mut Count::new())
}

// Takes the last pair below a node that may hold none itself out, if there is one, and rebalances what is below the node.
fn take_last_of_underfull<K: Drop, V: Drop, A: Handle>(node: &mut Node<K, V, A>) -> Option<(K, V)>
    requires underfull { (h : ℕ) × IsUnderfull h node.old }
    ensures underfull { (h : ℕ) → IsUnderfull h node.old → IsUnderfull h node.new }
    ensures pairs { pairs_of node.old ≡ pairs_of node.new ++ option_to_list result }
    ensures none { MatchOption result (pairs_of node.new ≡ []) (λ _. ⊤) }
{
    if node.len() > 0 {
        return Some(remove_last(node, &mut Count::new()));
    }
    if node.is_leaf() {
        return None;
    }
    take_last_of_underfull(child_in(&mut node.children, 0))
}

// Takes the last pair below the node out, if there is one.
fn take_last_of_unbalanced<K: Drop, V: Drop, A: Handle>(node: &mut Node<K, V, A>) -> Option<(K, V)>
    requires unbalanced { (h : ℕ) × IsUnbalanced h node.old }
    ensures unbalanced { (h : ℕ) → IsUnbalanced h node.old → IsUnbalanced h node.new }
    ensures pairs { pairs_of node.old ≡ pairs_of node.new ++ option_to_list result }
    ensures none { MatchOption result (pairs_of node.new ≡ []) (λ _. ⊤) }
{
    let end = node.len();
    if node.is_leaf() {
        if end == 0 {
            return None;
        }
        return Some(node.remove_leaf(end - 1, &mut Count::new()));
    }
    if let Some(pair) = take_last_of_unbalanced(child_in(&mut node.children, end)) {
        return Some(pair);
    }
    if end == 0 {
        return None;
    }
    Some(take_own_last(node))
}

// Takes the own last pair of a node with children out, and the child after it, which has no pairs.
fn take_own_last<K: Drop, V: Drop, A: Handle>(node: &mut Node<K, V, A>) -> (K, V)
    requires inner { IsInner node.old }
    requires some { 0 < length (own_pairs node.old) }
    requires empty { pairs_of (child_at node.old (length (own_pairs node.old))) ≡ [] }
    ensures unbalanced { (h : ℕ) → IsUnbalanced h node.old → IsUnbalanced h node.new }
    ensures pairs { pairs_of node.old ≡ pairs_of node.new ++ result ∷ [] }
{
    drop(node.take_last_child());
    node.take_last_pair()
}
