//! Nodes taken apart from their ends: opened down to a leaf, whose pairs become a run, and a pair given out of the node on the top.
ghost use Rattle.std.specs.Prelude.{◌≡◌, ℕ, suc, ◌+◌, ◌<◌, ◌≤◌, List, [], ◌∷◌, ◌++◌, length, map, IsSome};
ghost use Rattle.fc_base.specs.Sizes.{capacity, most_levels};
ghost use Rattle.fc_tree_node.specs.Blocks.{blocks_of};
ghost use Rattle.fc_tree_node.specs.Measures.{total};
ghost use Rattle.fc_tree_node.specs.Node.{own_pairs, children_of, pairs_of, items_or_none};
ghost use Rattle.fc_tree_drain.specs.Opened.{IsOpened, IsFalling, AreEven, IsUnder, after_front_in, before_back_in, after_front, before_back};

use crate::stack::Stack;
use fc_base::Handle;
use fc_tree_node::node::{CAPACITY, Node};
use fc_tree_slots::rest::Rest;
use std::alloc::Global;

/// Nodes that are partly given out, each above one of a higher level.
pub type Nodes<K, V, A: Handle = Global> = Stack<Node<K, V, A>>;

/// What is left of a leaf's pairs.
pub type Run<K, V, A: Handle = Global> = Option<Rest<(K, V), CAPACITY, A>>;

// How many pairs are left of a leaf.
pub(crate) fn run_len<K, V, A: Handle>(run: &Run<K, V, A>) -> usize
    ensures { result ≡ length (items_or_none run.now) }
{
    match run {
        None => 0,
        Some(rest) => rest.len(),
    }
}

// The first pair that is left of a leaf.
pub(crate) fn first_of<K, V, A: Handle>(run: &Run<K, V, A>) -> &(K, V)
    requires { 0 < length (items_or_none run.now) }
    ensures { (rest : List (K × V)) × (items_or_none run.now ≡ result.now ∷ rest) }
{
    match run {
        None => unreachable!(),
        Some(rest) => rest.get(0),
    }
}

// Takes the first pair that is left of a leaf.
pub(crate) fn take_first<K, V, A: Handle>(run: &mut Run<K, V, A>) -> (K, V)
    requires { 0 < length (items_or_none run.old) }
    ensures pairs { items_or_none run.old ≡ result ∷ items_or_none run.new }
    ensures kept { IsSome run.new }
{
    match run {
        None => unreachable!(),
        Some(rest) => rest.take_first(),
    }
}

// The pairs of a node that has no child. Nothing else of it is left.
fn into_run<K: Drop, V: Drop, A: Handle>(node: Node<K, V, A>) -> Run<K, V, A>
    ensures { items_or_none result ≡ own_pairs node }
{
    let Node { pairs, children: _ } = node;
    Some(pairs.into_rest())
}

/// Goes down to the first leaf, whose pairs become the run, and leaves each node on the way without its first child.
pub fn open_first<K: Drop, V: Drop, A: Handle>(
    stack: &mut Nodes<K, V, A>,
    run: &mut Run<K, V, A>,
    node: Node<K, V, A>,
)
    requires { IsUnder node stack.old }
    ensures pairs { items_or_none run.new ++ after_front stack.new ≡ pairs_of node ++ after_front stack.old }
    ensures levels { IsFalling 0 most_levels stack.new }
    ensures some { 0 < length (items_or_none run.new) }
    ensures fits { length (items_or_none run.new) ≤ capacity }
    ensures even { AreEven stack.old → AreEven stack.new }

    // The leaf's block is the run's now.
    ensures blocks { total (map blocks_of stack.new) + 1 ≤ total (map blocks_of stack.old) + blocks_of node }
{
    let mut node = node;
    if node.child_count() == 0 {
        *run = into_run(node);
        return;
    }
    let child = node.take_first_child();
    stack.push(node);
    open_first(stack, run, child);
}

/// Goes down to the last leaf, whose pairs become the run, and leaves each node on the way without its last child.
pub fn open_last<K: Drop, V: Drop, A: Handle>(
    stack: &mut Nodes<K, V, A>,
    run: &mut Run<K, V, A>,
    node: Node<K, V, A>,
)
    requires { IsUnder node stack.old }
    ensures pairs { before_back stack.new ++ items_or_none run.new ≡ before_back stack.old ++ pairs_of node }
    ensures levels { IsFalling 0 most_levels stack.new }
    ensures some { 0 < length (items_or_none run.new) }
{
    let mut node = node;
    if node.child_count() == 0 {
        *run = into_run(node);
        return;
    }
    let child = node.take_last_child();
    stack.push(node);
    open_last(stack, run, child);
}

// Puts a node back, if it still has a pair.
fn keep<K: Drop, V: Drop, A: Handle>(stack: &mut Nodes<K, V, A>, node: Node<K, V, A>)
    requires { (h : ℕ) × IsOpened h node × IsFalling (suc h) most_levels stack.old }
    ensures front { after_front stack.new ≡ after_front_in node ++ after_front stack.old }
    ensures back { before_back stack.new ≡ before_back stack.old ++ before_back_in node }
    ensures levels { (h : ℕ) → IsOpened h node → IsFalling (suc h) most_levels stack.old → IsFalling h most_levels stack.new }
    ensures even { length (children_of node) ≡ length (own_pairs node) → AreEven stack.old → AreEven stack.new }
    ensures blocks { total (map blocks_of stack.new) ≤ total (map blocks_of stack.old) + blocks_of node }
{
    if node.len() == 0 {
        return;
    }
    stack.push(node);
}

/// Gives the first pair out, and opens the child after it. It comes where the run is used up.
#[inline(never)]
pub fn pop_first_pair<K: Drop, V: Drop, A: Handle>(
    stack: &mut Nodes<K, V, A>,
    run: &mut Run<K, V, A>,
) -> (K, V)
    requires some { 0 < length stack.old }
    requires levels { IsFalling 0 most_levels stack.old }
    requires used_up { items_or_none run.old ≡ [] }
    ensures pairs { after_front stack.old ≡ result ∷ (items_or_none run.new ++ after_front stack.new) }
    ensures levels { IsFalling 0 most_levels stack.new }
    ensures fits { length (items_or_none run.new) ≤ capacity }

    // Where nothing was taken from the back, the next leaf is opened.
    ensures even { AreEven stack.old → AreEven stack.new × (0 < length (items_or_none run.new)) }
    ensures blocks { AreEven stack.old → total (map blocks_of stack.new) + 1 ≤ total (map blocks_of stack.old) }
{
    let mut node = stack.pop();
    let pair = node.take_first_pair();
    if node.child_count() == 0 {
        keep(stack, node);
        return pair;
    }
    let child = node.take_first_child();
    keep(stack, node);
    open_first(stack, run, child);
    pair
}

/// Gives the last pair out, and opens the child before it. It comes where the run is used up.
#[inline(never)]
pub fn pop_last_pair<K: Drop, V: Drop, A: Handle>(
    stack: &mut Nodes<K, V, A>,
    run: &mut Run<K, V, A>,
) -> (K, V)
    requires some { 0 < length stack.old }
    requires levels { IsFalling 0 most_levels stack.old }
    requires used_up { items_or_none run.old ≡ [] }
    ensures pairs { before_back stack.old ≡ (before_back stack.new ++ items_or_none run.new) ++ result ∷ [] }
    ensures levels { IsFalling 0 most_levels stack.new }
{
    let mut node = stack.pop();
    let pair = node.take_last_pair();
    if node.child_count() == 0 {
        keep(stack, node);
        return pair;
    }
    let child = node.take_last_child();
    keep(stack, node);
    open_last(stack, run, child);
    pair
}

/// Moves the lowest node of the back to the front, which has none, and opens its first child where it begins with one.
pub fn move_to_front<K: Drop, V: Drop, A: Handle>(
    front: &mut Nodes<K, V, A>,
    run: &mut Run<K, V, A>,
    back: &mut Nodes<K, V, A>,
)
    requires none { length front.old ≡ 0 }
    requires used_up { items_or_none run.old ≡ [] }
    requires some { 0 < length back.old }
    requires levels { IsFalling 0 most_levels back.old }
    ensures pairs { (items_or_none run.new ++ after_front front.new) ++ before_back back.new ≡ before_back back.old }
    ensures front { IsFalling 0 most_levels front.new }
    ensures back { IsFalling 0 most_levels back.new }
    ensures some { 0 < length (items_or_none run.new ++ after_front front.new) }
{
    let mut node = back.take_bottom();
    if node.child_count() < node.len() {
        front.push(node);
        return;
    }
    let child = node.take_first_child();
    front.push(node);
    open_first(front, run, child);
}

/// Moves the lowest node of the front to the back, which has none, and opens its last child where it ends with one.
pub fn move_to_back<K: Drop, V: Drop, A: Handle>(
    front: &mut Nodes<K, V, A>,
    back: &mut Nodes<K, V, A>,
    run: &mut Run<K, V, A>,
)
    requires none { length back.old ≡ 0 }
    requires used_up { items_or_none run.old ≡ [] }
    requires some { 0 < length front.old }
    requires levels { IsFalling 0 most_levels front.old }
    ensures pairs { after_front front.new ++ (before_back back.new ++ items_or_none run.new) ≡ after_front front.old }
    ensures front { IsFalling 0 most_levels front.new }
    ensures back { IsFalling 0 most_levels back.new }
    ensures some { 0 < length (before_back back.new ++ items_or_none run.new) }
{
    let mut node = front.take_bottom();
    if node.child_count() < node.len() {
        back.push(node);
        return;
    }
    let child = node.take_last_child();
    back.push(node);
    open_last(back, run, child);
}
