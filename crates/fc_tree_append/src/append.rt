//! One map's pairs put into another's, all or none.
ghost use Rattle.std.specs.Prelude.{◌≡◌, ◌+◌, ◌<◌, ◌≤◌, ◌⊎◌, [], ◌++◌, length, min, max, IfOk, IfErr, OnErr, IsErr, IsTrue};
ghost use Rattle.fc_base.specs.Ascending.{IsAscending};
ghost use Rattle.fc_base.specs.Growth.{MayAppendRefuse};
ghost use Rattle.fc_base.specs.Joined.{joined};
ghost use Rattle.fc_tree_node.specs.Blocks.{blocks_in};
ghost use Rattle.fc_tree_node.specs.Tree.{entries, IsSoundMap};
ghost use Rattle.fc_tree_append.specs.Requests.{given_requests, join_requests};

use crate::join::try_join;
use crate::merge::merge;
use fc_base::{Asked, Count, Handle, TryReserveError, compare};
use fc_tree_build::builder::Builder;
use fc_tree_node::node::Node;
use fc_tree_search::first_last::{first_pair, last_pair};
use std::mem;

/// Moves all pairs of `theirs` into `ours`, and answers how many there are then. Of two equal keys the pair of `theirs` stays, and
/// ours is dropped. Where either holds none nothing is asked for and nothing compared. Where all keys of `theirs` lie after ours, that
/// takes just one comparison, and a few nodes of each level from the shorter tree's root up. Else each key is compared at most once, and
/// there are at least as many comparisons as the shorter tree has pairs, and the pairs are put into the leaves of both. No move is counted. Requests
/// for memory are added to `asked`.
///
/// # Errors
/// `CapacityOverflow` where both hold pairs and their lengths pass `usize::MAX` together, and `AllocError` if a node for them is
/// refused: all nodes are made first. Both are then as before.
pub fn try_append<K: Ord + Drop, V: Drop, A: Handle>(
    alloc: A,
    ours: &mut Option<Node<K, V, A>>,
    our_len: usize,
    theirs: &mut Option<Node<K, V, A>>,
    their_len: usize,
    count: &mut Count,
    asked: &mut Asked,
) -> Result<usize, TryReserveError>
    requires sound { IsSoundMap ours.old × IsSoundMap theirs.old }
    requires order { IsAscending K.cmp (entries ours.old) × IsAscending K.cmp (entries theirs.old) }
    requires lens { (our_len ≡ length (entries ours.old)) × (their_len ≡ length (entries theirs.old)) }
    ensures joined { IfOk result (λ len. entries ours.new ≡ joined K.cmp (entries ours.old) (entries theirs.old)) }
    ensures emptied { IfOk result (λ len. entries theirs.new ≡ []) }
    ensures len { IfOk result (λ len. len ≡ length (entries ours.new)) }
    ensures sound { IsSoundMap ours.new × IsSoundMap theirs.new }
    ensures error { IfErr result (λ e. MayAppendRefuse (length (entries ours.old)) (length (entries theirs.old)) e) }
    ensures unchanged { OnErr result ((ours.new ≡ ours.old) × (theirs.new ≡ theirs.old)) }
    ensures full { 0 < our_len → 0 < their_len → usize.MAX < our_len + their_len → IsErr result }
    ensures comparisons { count.new.comparisons ≤ count.old.comparisons + (our_len + their_len) }
    ensures none { (our_len ≡ 0) ⊎ (their_len ≡ 0) → count.new.comparisons ≡ count.old.comparisons }
    ensures grown { count.old.comparisons ≤ count.new.comparisons }
    ensures counted { IfOk result (λ _. 0 < our_len → 0 < their_len → count.old.comparisons < count.new.comparisons) }
    ensures merged { IfOk result (λ _. ¬ IsAscending K.cmp (entries ours.old ++ entries theirs.old) → count.old.comparisons + min our_len their_len ≤ count.new.comparisons) }
    ensures after { 0 < our_len → 0 < their_len → our_len + their_len ≤ usize.MAX → IsAscending K.cmp (entries ours.old ++ entries theirs.old) → count.new.comparisons ≡ count.old.comparisons + 1 }
    ensures moves { count.new.moves ≡ count.old.moves }
    ensures no_request { (our_len ≡ 0) ⊎ (their_len ≡ 0) → asked.new.requests ≡ asked.old.requests }
    ensures requests_after { IfOk result (λ _. 0 < our_len → 0 < their_len → IsAscending K.cmp (entries ours.old ++ entries theirs.old) → asked.new.requests ≡ asked.old.requests + join_requests ours.old theirs.old) }
    ensures requests_merged { IfOk result (λ _. ¬ IsAscending K.cmp (entries ours.old ++ entries theirs.old) → asked.new.requests ≡ asked.old.requests + given_requests (our_len + their_len)) }
    ensures at_most_after { IsAscending K.cmp (entries ours.old ++ entries theirs.old) → asked.new.requests ≤ asked.old.requests + join_requests ours.old theirs.old }
    ensures at_most_merged { ¬ IsAscending K.cmp (entries ours.old ++ entries theirs.old) → asked.new.requests ≤ asked.old.requests + given_requests (our_len + their_len) }
    ensures at_most { asked.new.requests ≤ asked.old.requests + max (join_requests ours.old theirs.old) (given_requests (our_len + their_len)) }

    // No block stands that neither was there nor was asked for.
    ensures blocks { IfOk result (λ _. blocks_in ours.new + blocks_in theirs.new + asked.old.requests ≤ blocks_in ours.old + blocks_in theirs.old + asked.new.requests) }
{
    if their_len == 0 {
        return Ok(our_len);
    }
    if our_len == 0 {
        mem::swap(ours, theirs);
        return Ok(their_len);
    }
    let Some(len) = our_len.checked_add(their_len) else {
        return Err(TryReserveError::CapacityOverflow);
    };
    if is_after(ours, theirs, count) {
        try_join(alloc, ours, theirs, asked)?;
        return Ok(len);
    }
    let builder = Builder::try_for_given_leaves(alloc, len, asked)?;
    let (root, len) = merge(ours.take(), theirs.take(), builder, count);
    *ours = root;
    Ok(len)
}

// Whether all keys of `theirs` lie after all of `ours`: the last of the one and the first of the other are compared.
fn is_after<K: Ord, V, A: Handle>(
    ours: &Option<Node<K, V, A>>,
    theirs: &Option<Node<K, V, A>>,
    count: &mut Count,
) -> bool
    requires sound { IsSoundMap ours.now × IsSoundMap theirs.now }
    requires order { IsAscending K.cmp (entries ours.now) × IsAscending K.cmp (entries theirs.now) }
    requires some { (0 < length (entries ours.now)) × (0 < length (entries theirs.now)) }
    ensures after { IsTrue result → IsAscending K.cmp (entries ours.now ++ entries theirs.now) }
    ensures told { IsAscending K.cmp (entries ours.now ++ entries theirs.now) → IsTrue result }
    ensures comparisons { count.new.comparisons ≡ count.old.comparisons + 1 }
    ensures moves { count.new.moves ≡ count.old.moves }
{
    let Some(left) = ours else { unreachable!() };
    let Some(right) = theirs else { unreachable!() };
    compare(&last_pair(left).0, &first_pair(right).0, count).is_lt()
}
