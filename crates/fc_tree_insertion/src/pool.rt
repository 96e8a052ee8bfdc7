//! Nodes made ahead for several insertions.
ghost use Rattle.std.specs.Prelude.{◌≡◌, ◌+◌, ◌-◌, ◌<◌, ◌≤◌, length, IfOk, IfErr, IsOk};
ghost use Rattle.fc_base.specs.Sizes.{most_levels};
ghost use Rattle.fc_tree_node.specs.Node.{IsLevelled, IsEmptyLeaf, IsEmptyInner};
ghost use Rattle.fc_tree_node.specs.Path.{IsPath};
ghost use Rattle.fc_tree_node.specs.Requests.{list_requests};
ghost use Rattle.fc_tree_insertion.specs.Cascade.{nodes_needed};

use crate::new_nodes::{NewNodes, count_needed};
use crate::spares::Spares;
use fc_base::{Asked, Handle, TryReserveError};
use fc_tree_node::node::Node;
use fc_tree_node::nodes::try_inner_nodes;
use std::alloc::Global;
use std::marker::Model;

/// Inner nodes that hold nothing, each of which serves as a leaf too, once its room for children is dropped. They stand in a list,
/// since a chain of as many would be dropped by as deep a recursion. A contract sees how many there are.
#[derive(Drop)]
pub struct NodePool<K, V, A: Handle = Global> {
    nodes: Vec<Node<K, V, A>, A>,
}

impl<K, V, A: Handle> Model for NodePool<K, V, A> {
    ghost use Rattle.std.specs.Prelude.{ℕ, length};
    ghost use Rattle.std.specs.List.{AllByRecursion};
    ghost use Rattle.std.specs.Coded.{coded_ℕ};
    ghost use Rattle.fc_tree_node.specs.Node.{IsEmptyInner};

    ghost Value = { ℕ };

    ghost coded = { coded_ℕ };

    ghost view = { λ s. length s.nodes.items };

    ghost invariant = { λ s. AllByRecursion (λ b. IsEmptyInner b) s.nodes.items };
}

impl<K: Drop, V: Drop, A: Handle> NodePool<K, V, A> {
    /// As many nodes. None of them takes no memory; else a request is made for their list, and two for each.
    ///
    /// # Errors
    /// `AllocError` if the list or a node is refused. Nothing is then left after.
    pub fn try_new(
        alloc: A,
        count: usize,
        asked: &mut Asked,
    ) -> Result<NodePool<K, V, A>, TryReserveError>
        ensures len { IfOk result (λ pool. pool ≡ count) }
        ensures none { count ≡ 0 → IsOk result }
        ensures error { IfErr result (λ e. e ≡ TryReserveError.AllocError) }
        ensures requests { IfOk result (λ _. asked.new.requests ≡ asked.old.requests + list_requests 2 count) }
        ensures at_most { asked.new.requests ≤ asked.old.requests + list_requests 2 count }
    {
        let nodes = try_inner_nodes(alloc, count, asked)?;
        Ok(NodePool { nodes })
    }

    // Takes a node out.
    fn take(&mut self) -> Node<K, V, A>
        requires { 0 < self.old }
        ensures empty { IsEmptyInner result }
        ensures len { self.new + 1 ≡ self.old }
    {
        match self.nodes.pop() {
            Some(node) => node,
            None => unreachable!(),
        }
    }

    // Takes a node out to be a leaf.
    fn take_leaf(&mut self) -> Node<K, V, A>
        requires { 0 < self.old }
        ensures empty { IsEmptyLeaf result }
        ensures len { self.new + 1 ≡ self.old }
    {
        let mut node = self.take();
        node.children = None;
        node
    }

    // Takes so many nodes out to be inner nodes.
    fn take_spares(&mut self, count: usize) -> Spares<K, V, A>
        requires few { count ≤ most_levels }
        requires enough { count ≤ self.old }
        ensures spares { result ≡ count }
        ensures len { self.new + count ≡ self.old }
    {
        let mut spares = Spares::new();
        for _i in 0..count {
            let node = self.take();
            spares.push(node);
        }
        spares
    }

    /// Takes out the one node that the first pair of a tree needs: a leaf.
    pub fn take_first(&mut self) -> NewNodes<K, V, A>
        requires { 0 < self.old }
        ensures taken { result ≡ 1 }
        ensures len { self.new + 1 ≡ self.old }
    {
        let leaf = self.take_leaf();
        NewNodes {
            leaf: Some(leaf),
            inner: Spares::new(),
        }
    }

    /// Takes out the nodes that an insertion at the path needs. The tree is only read.
    pub fn take_new_nodes(&mut self, root: &Node<K, V, A>, path: &[u8]) -> NewNodes<K, V, A>
        requires some { 0 < length path.now }
        requires short { length path.now ≤ most_levels }
        requires path { IsPath path.now root.now }
        requires levels { IsLevelled (length path.now - 1) root.now }
        requires enough { nodes_needed path.now root.now ≤ self.old }
        ensures taken { result ≡ nodes_needed path.now root.now }
        ensures len { self.new + nodes_needed path.now root.now ≡ self.old }
    {
        let needed = count_needed(root, path);
        if needed == 0 {
            return NewNodes {
                leaf: None,
                inner: Spares::new(),
            };
        }
        let leaf = self.take_leaf();
        let inner = self.take_spares(needed - 1);
        NewNodes {
            leaf: Some(leaf),
            inner,
        }
    }
}
