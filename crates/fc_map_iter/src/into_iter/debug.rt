//! The text of the owned walk by `{:?}`: what is still to come, and nothing of it is given out.
use super::IntoIter;
use fc_base::Handle;
use fc_tree_drain::owned::{Nodes, Run};
use fc_tree_node::node::Node;
use std::fmt::{self, Debug, DebugList};

/// `[(key, value), ..]`, the pairs still to come. Upstream: `Debug` for `btree_map::IntoIter`.
impl<K: Debug, V: Debug, A: Handle> Debug for IntoIter<K, V, A> {
    fn fmt<W: fmt::Write>(&self, f: &mut fmt::Formatter<W>) -> fmt::Result {
        let ((front_run, front), (back, back_run)) = self.drain.parts();
        let mut list = f.debug_list();
        list_run(front_run, &mut list);
        list_front(front, &mut list);
        list_back(back, &mut list);
        list_run(back_run, &mut list);
        list.finish()
    }
}

// What is left of a leaf.
fn list_run<K: Debug, V: Debug, W: fmt::Write, A: Handle>(
    run: &Run<K, V, A>,
    list: &mut DebugList<'_, W>,
) {
    let Some(rest) = run else { return };
    for i in 0..rest.len() {
        list.entry(rest.get(i));
    }
}

// The front's pairs: those of the node on the top come first, and each node begins with a pair.
fn list_front<K: Debug, V: Debug, W: fmt::Write, A: Handle>(
    nodes: &Nodes<K, V, A>,
    list: &mut DebugList<'_, W>,
) {
    let len = nodes.len();
    for i in 0..len {
        list_pairs(nodes.get(len - 1 - i), false, list);
    }
}

// The back's pairs: those of the node at the bottom come first, and each node ends with a pair.
fn list_back<K: Debug, V: Debug, W: fmt::Write, A: Handle>(
    nodes: &Nodes<K, V, A>,
    list: &mut DebugList<'_, W>,
) {
    for i in 0..nodes.len() {
        let node = nodes.get(i);
        list_pairs(node, node.child_count() >= node.len(), list);
    }
}

// The pairs of a node and those below it in turn; they begin with those below the first child, or with the first pair.
fn list_pairs<K: Debug, V: Debug, W: fmt::Write, A: Handle>(
    node: &Node<K, V, A>,
    begins_below: bool,
    list: &mut DebugList<'_, W>,
) {
    for i in 0..node.len() + 1 {
        if begins_below && i < node.child_count() {
            list_pairs(node.child(i), true, list);
        }
        if i < node.len() {
            list.entry(node.pair(i));
        }
        if !begins_below && i < node.child_count() {
            list_pairs(node.child(i), true, list);
        }
    }
}
