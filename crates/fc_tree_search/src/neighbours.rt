//! The pairs next to a key: the first at it or after it, and the last at it or before it.
ghost use Rattle.std.specs.Prelude.{if◌then◌else◌, ◌≡◌, ℕ, ◌+◌, ◌*◌, ◌++◌, ◌<◌, ◌≤◌, List, length, slice_get, option_copied, true, false};
ghost use Rattle.fc_base.specs.Sizes.{level_comparisons};
ghost use Rattle.fc_base.specs.Ascending.{IsAscending};
ghost use Rattle.fc_base.specs.Halves.{not_below};
ghost use Rattle.fc_base.specs.Parts.{below, above};
ghost use Rattle.fc_tree_node.specs.Node.{own_pairs, pairs_of, IsLevelled, IsTree};
ghost use Rattle.fc_tree_node.specs.Place.{before_child, after_child, before_own, after_own};
ghost use Rattle.fc_tree_search.specs.Neighbours.{first_item, last_item, not_above};
ghost use Rattle.fc_tree_search.specs.Passed.{passed};

use crate::first_last::{first_pair, last_pair};
use crate::search::search_node;
use fc_base::{Count, Handle, Query};
use fc_tree_node::node::Node;

// The first of the node's pairs after its child at the place, or else the next one after the node.
fn next_after_child<'a, K, V, A: Handle>(
    node: &'a Node<K, V, A>,
    place: usize,
    next: Option<&'a (K, V)>,
) -> Option<&'a (K, V)>
    ensures { (rest : List (K × V)) → option_copied next.entry ≡ first_item rest → option_copied result ≡ first_item (after_child node.now place ++ rest) }
{
    if place < node.len() {
        Some(node.pair(place))
    } else {
        next
    }
}

// The last of the node's pairs before its child at the place, or else the last one before the node.
fn last_before_child<'a, K, V, A: Handle>(
    node: &'a Node<K, V, A>,
    place: usize,
    last: Option<&'a (K, V)>,
) -> Option<&'a (K, V)>
    requires levels { (h : ℕ) × IsLevelled h node.now }
    requires place { place ≤ length (own_pairs node.now) }
    ensures { (lead : List (K × V)) → option_copied last.entry ≡ last_item lead → option_copied result ≡ last_item (lead ++ before_child node.now place) }
{
    if place == 0 {
        last
    } else {
        Some(node.pair(place - 1))
    }
}

// The first of the node's pairs after its own pair at the place, or else the next one after the node.
fn next_after_own<'a, K, V, A: Handle>(
    node: &'a Node<K, V, A>,
    place: usize,
    next: Option<&'a (K, V)>,
) -> Option<&'a (K, V)>
    requires levels { (h : ℕ) × IsLevelled h node.now }
    requires place { place < length (own_pairs node.now) }
    ensures { (rest : List (K × V)) → option_copied next.entry ≡ first_item rest → option_copied result ≡ first_item (after_own node.now place ++ rest) }
{
    if node.is_leaf() {
        next_after_child(node, place + 1, next)
    } else {
        Some(first_pair(node.child(place + 1)))
    }
}

// The last of the node's pairs before its own pair at the place, or else the last one before the node.
fn last_before_own<'a, K, V, A: Handle>(
    node: &'a Node<K, V, A>,
    place: usize,
    last: Option<&'a (K, V)>,
) -> Option<&'a (K, V)>
    requires levels { (h : ℕ) × IsLevelled h node.now }
    requires place { place < length (own_pairs node.now) }
    ensures { (lead : List (K × V)) → option_copied last.entry ≡ last_item lead → option_copied result ≡ last_item (lead ++ before_own node.now place) }
{
    if node.is_leaf() {
        last_before_child(node, place, last)
    } else {
        Some(last_pair(node.child(place)))
    }
}

// The own pair at the place where an equal key is taken, else the next one.
fn next_at_own<'a, K, V, A: Handle>(
    node: &'a Node<K, V, A>,
    place: usize,
    takes_equal: bool,
    next: Option<&'a (K, V)>,
) -> Option<&'a (K, V)>
    requires levels { (h : ℕ) × IsLevelled h node.now }
    requires place { place < length (own_pairs node.now) }
    ensures equal { takes_equal ≡ true → option_copied result ≡ slice_get (own_pairs node.now) place }
    ensures beside { takes_equal ≡ false → (rest : List (K × V)) → option_copied next.entry ≡ first_item rest → option_copied result ≡ first_item (after_own node.now place ++ rest) }
{
    if takes_equal {
        return Some(node.pair(place));
    }
    next_after_own(node, place, next)
}

// The own pair at the place where an equal key is taken, else the last one before it.
fn last_at_own<'a, K, V, A: Handle>(
    node: &'a Node<K, V, A>,
    place: usize,
    takes_equal: bool,
    last: Option<&'a (K, V)>,
) -> Option<&'a (K, V)>
    requires levels { (h : ℕ) × IsLevelled h node.now }
    requires place { place < length (own_pairs node.now) }
    ensures equal { takes_equal ≡ true → option_copied result ≡ slice_get (own_pairs node.now) place }
    ensures beside { takes_equal ≡ false → (lead : List (K × V)) → option_copied last.entry ≡ last_item lead → option_copied result ≡ last_item (lead ++ before_own node.now place) }
{
    if takes_equal {
        return Some(node.pair(place));
    }
    last_before_own(node, place, last)
}

// The first pair whose key is above `key`, or equal to it where that is taken.
#[inline(always)]
fn lower_bound<'a, K: Ord, V, Q: Query<K>, A: Handle>(
    root: &'a Node<K, V, A>,
    key: Q,
    takes_equal: bool,
    count: &mut Count,
) -> Option<&'a (K, V)>
    requires levels { IsTree root.now }
    requires order { IsAscending K.cmp (pairs_of root.now) }
    ensures value { option_copied result ≡ first_item (if takes_equal then not_below Q.order (pairs_of root.now) (Q.sought key) else above Q.order (pairs_of root.now) (Q.sought key)) }
    ensures comparisons { count.new.comparisons ≡ count.old.comparisons + passed Q.order (Q.sought key) root.now }
    ensures bounded { (h : ℕ) → IsLevelled h root.now → count.new.comparisons ≤ count.old.comparisons + level_comparisons * (h + 1) }
    ensures moves { count.new.moves ≡ count.old.moves }
{
    let mut node = root;
    let mut next = None;
    'down: loop {
        match search_node(node, key, count) {
            Ok(i) => return next_at_own(node, i, takes_equal, next),
            Err(gap) => {
                next = next_after_child(node, gap, next);
                if node.is_leaf() {
                    return next;
                }
                node = node.child(gap);
            }
        }
    }
}

// The last pair whose key is below `key`, or equal to it where that is taken.
#[inline(always)]
fn upper_bound<'a, K: Ord, V, Q: Query<K>, A: Handle>(
    root: &'a Node<K, V, A>,
    key: Q,
    takes_equal: bool,
    count: &mut Count,
) -> Option<&'a (K, V)>
    requires levels { IsTree root.now }
    requires order { IsAscending K.cmp (pairs_of root.now) }
    ensures value { option_copied result ≡ last_item (if takes_equal then not_above Q.order (pairs_of root.now) (Q.sought key) else below Q.order (pairs_of root.now) (Q.sought key)) }
    ensures comparisons { count.new.comparisons ≡ count.old.comparisons + passed Q.order (Q.sought key) root.now }
    ensures bounded { (h : ℕ) → IsLevelled h root.now → count.new.comparisons ≤ count.old.comparisons + level_comparisons * (h + 1) }
    ensures moves { count.new.moves ≡ count.old.moves }
{
    let mut node = root;
    let mut last = None;
    'down: loop {
        match search_node(node, key, count) {
            Ok(i) => return last_at_own(node, i, takes_equal, last),
            Err(gap) => {
                last = last_before_child(node, gap, last);
                if node.is_leaf() {
                    return last;
                }
                node = node.child(gap);
            }
        }
    }
}

/// The first pair of the tree at `root` whose key is not below `key`. It compares each key that a search
/// passes once, and moves no pair.
pub fn first_from<'a, K: Ord, V, Q: Query<K>, A: Handle>(
    root: &'a Node<K, V, A>,
    key: Q,
    count: &mut Count,
) -> Option<&'a (K, V)>
    requires levels { IsTree root.now }
    requires order { IsAscending K.cmp (pairs_of root.now) }
    ensures value { option_copied result ≡ first_item (not_below Q.order (pairs_of root.now) (Q.sought key)) }
    ensures comparisons { count.new.comparisons ≡ count.old.comparisons + passed Q.order (Q.sought key) root.now }
    ensures bounded { (h : ℕ) → IsLevelled h root.now → count.new.comparisons ≤ count.old.comparisons + level_comparisons * (h + 1) }
    ensures moves { count.new.moves ≡ count.old.moves }
{
    lower_bound(root, key, true, count)
}

/// The first pair of the tree at `root` whose key is above `key`. It compares each key that a search
/// passes once, and moves no pair.
pub fn first_after<'a, K: Ord, V, Q: Query<K>, A: Handle>(
    root: &'a Node<K, V, A>,
    key: Q,
    count: &mut Count,
) -> Option<&'a (K, V)>
    requires levels { IsTree root.now }
    requires order { IsAscending K.cmp (pairs_of root.now) }
    ensures value { option_copied result ≡ first_item (above Q.order (pairs_of root.now) (Q.sought key)) }
    ensures comparisons { count.new.comparisons ≡ count.old.comparisons + passed Q.order (Q.sought key) root.now }
    ensures bounded { (h : ℕ) → IsLevelled h root.now → count.new.comparisons ≤ count.old.comparisons + level_comparisons * (h + 1) }
    ensures moves { count.new.moves ≡ count.old.moves }
{
    lower_bound(root, key, false, count)
}

/// The last pair of the tree at `root` whose key is not above `key`. It compares each key that a search
/// passes once, and moves no pair.
pub fn last_to<'a, K: Ord, V, Q: Query<K>, A: Handle>(
    root: &'a Node<K, V, A>,
    key: Q,
    count: &mut Count,
) -> Option<&'a (K, V)>
    requires levels { IsTree root.now }
    requires order { IsAscending K.cmp (pairs_of root.now) }
    ensures value { option_copied result ≡ last_item (not_above Q.order (pairs_of root.now) (Q.sought key)) }
    ensures comparisons { count.new.comparisons ≡ count.old.comparisons + passed Q.order (Q.sought key) root.now }
    ensures bounded { (h : ℕ) → IsLevelled h root.now → count.new.comparisons ≤ count.old.comparisons + level_comparisons * (h + 1) }
    ensures moves { count.new.moves ≡ count.old.moves }
{
    upper_bound(root, key, true, count)
}

/// The last pair of the tree at `root` whose key is below `key`. It compares each key that a search
/// passes once, and moves no pair.
pub fn last_before<'a, K: Ord, V, Q: Query<K>, A: Handle>(
    root: &'a Node<K, V, A>,
    key: Q,
    count: &mut Count,
) -> Option<&'a (K, V)>
    requires levels { IsTree root.now }
    requires order { IsAscending K.cmp (pairs_of root.now) }
    ensures value { option_copied result ≡ last_item (below Q.order (pairs_of root.now) (Q.sought key)) }
    ensures comparisons { count.new.comparisons ≡ count.old.comparisons + passed Q.order (Q.sought key) root.now }
    ensures bounded { (h : ℕ) → IsLevelled h root.now → count.new.comparisons ≤ count.old.comparisons + level_comparisons * (h + 1) }
    ensures moves { count.new.moves ≡ count.old.moves }
{
    upper_bound(root, key, false, count)
}
