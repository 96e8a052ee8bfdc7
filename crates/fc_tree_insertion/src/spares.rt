//! Inner nodes that hold nothing, made ahead for the nodes that an insertion splits.
ghost use Rattle.std.specs.Prelude.{◌≡◌, ◌+◌, ◌<◌, ◌≤◌, Option, None, Some};
ghost use Rattle.fc_base.specs.Sizes.{most_levels};
ghost use Rattle.fc_tree_node.specs.Node.{IsEmptyInner};
ghost use Rattle.fc_tree_insertion.specs.Chain.{IsAbove};

use fc_base::Handle;
use fc_tree_node::node::Node;
use std::alloc::Global;
use std::marker::Model;

/// Inner nodes that hold no pair, each the only child of the one that was made next. So they need no list of their own. A contract
/// sees how many there are.
#[derive(Drop)]
pub struct Spares<K, V, A: Handle = Global> {
    top: Option<Node<K, V, A>>,
    len: usize,
}

impl<K, V, A: Handle> Model for Spares<K, V, A> {
    ghost use Rattle.std.specs.Prelude.{ℕ, ◌≤◌};
    ghost use Rattle.std.specs.Coded.{coded_ℕ};
    ghost use Rattle.fc_base.specs.Sizes.{most_levels};
    ghost use Rattle.fc_tree_insertion.specs.Chain.{AreSpares};

    ghost Value = { ℕ };

    ghost coded = { coded_ℕ };

    ghost view = { λ s. s.len };

    ghost invariant = { λ s. (s.len ≤ most_levels) × AreSpares s.len s.top };
}

impl<K, V, A: Handle> Spares<K, V, A> {
    // None.
    pub(crate) fn new() -> Spares<K, V, A>
        ensures { result ≡ 0 }
    {
        Spares { top: None, len: 0 }
    }

    // How many there are.
    pub(crate) fn len(&self) -> usize
        ensures value { result ≡ self.now }
        ensures fits { self.now ≤ most_levels }
    {
        self.len
    }
}

impl<K: Drop, V: Drop, A: Handle> Spares<K, V, A> {
    // Adds a node that holds nothing.
    pub(crate) fn push(&mut self, node: Node<K, V, A>)
        requires empty { IsEmptyInner node }
        requires few { self.old < most_levels }
        ensures { self.new ≡ self.old + 1 }
    {
        let mut node = node;
        if let Some(top) = self.top.take() {
            put_below(&mut node, top);
        }
        self.top = Some(node);
        self.len += 1;
    }

    /// Takes out the node that was added last.
    pub fn take(&mut self) -> Node<K, V, A>
        requires { 0 < self.old }
        ensures node { IsEmptyInner result }
        ensures len { self.new + 1 ≡ self.old }
    {
        let Some(mut node) = self.top.take() else {
            unreachable!()
        };
        self.top = take_below(&mut node);
        self.len -= 1;
        node
    }
}

// Makes `below` the node's only child.
fn put_below<K: Drop, V: Drop, A: Handle>(node: &mut Node<K, V, A>, below: Node<K, V, A>)
    requires { IsAbove node.old None }
    ensures { IsAbove node.new (Some below) }
{
    let Some(children) = &mut node.children else {
        unreachable!()
    };
    children.insert(0, below);
}

// Takes the node's only child out, if it has one.
fn take_below<K, V, A: Handle>(node: &mut Node<K, V, A>) -> Option<Node<K, V, A>>
    requires { (below : Option (Node K V A)) × IsAbove node.old below }
    ensures below { IsAbove node.old result }
    ensures none { IsAbove node.new None }
{
    let Some(children) = &mut node.children else {
        unreachable!()
    };
    if children.len() == 0 {
        return None;
    }
    Some(children.remove(0))
}
