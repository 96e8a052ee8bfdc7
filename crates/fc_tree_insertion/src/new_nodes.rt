//! The nodes that an insertion needs, made before a pair moves.
ghost use Rattle.std.specs.Prelude.{◌≡◌, ◌+◌, ◌-◌, ◌*◌, ◌<◌, ◌≤◌, length, IfOk, IfErr, OnErr, IsOkAnd};
ghost use Rattle.fc_base.specs.Sizes.{capacity, most_levels};
ghost use Rattle.fc_tree_node.specs.Node.{own_pairs, IsLevelled};
ghost use Rattle.fc_tree_node.specs.Path.{IsPath};
ghost use Rattle.fc_tree_insertion.specs.Cascade.{leaf_at, cascade, nodes_needed, requests_for};

use crate::leaf::has_room;
use crate::spares::Spares;
use fc_base::{Asked, Handle, TryReserveError};
use fc_tree_node::node::{CAPACITY, Node};
use std::alloc::Global;
use std::marker::Model;

/// Nodes that hold nothing, made ahead for one insertion: a leaf for the leaf that it splits, and an inner node for each
/// further node that it splits and for a new root. A contract sees how many there are.
#[derive(Drop)]
pub struct NewNodes<K, V, A: Handle = Global> {
    pub(crate) leaf: Option<Node<K, V, A>>,
    pub(crate) inner: Spares<K, V, A>,
}

impl<K, V, A: Handle> Model for NewNodes<K, V, A> {
    ghost use Rattle.std.specs.Prelude.{ℕ};
    ghost use Rattle.std.specs.Coded.{coded_ℕ};

    ghost Value = { ℕ };

    ghost coded = { coded_ℕ };

    ghost use Rattle.fc_tree_insertion.specs.NewNodes.{new_nodes_len, AreNewNodes};

    ghost view = { λ r. new_nodes_len r };

    ghost invariant = { λ r. AreNewNodes r };
}

impl<K, V, A: Handle> NewNodes<K, V, A> {
    /// How many nodes there are.
    pub fn len(&self) -> usize
        ensures { result ≡ self.now }
    {
        if self.leaf.is_none() {
            0
        } else {
            self.inner.len() + 1
        }
    }
}

/// Makes the nodes that an insertion at the path needs. The tree is only read.
///
/// # Errors
/// `AllocError` if one of them is refused, and those made before are dropped. Where the leaf has room nothing is asked for.
pub fn try_new_nodes<K: Drop, V: Drop, A: Handle>(
    alloc: A,
    root: &Node<K, V, A>,
    path: &[u8],
    asked: &mut Asked,
) -> Result<NewNodes<K, V, A>, TryReserveError>
    requires some { 0 < length path.now }
    requires short { length path.now ≤ most_levels }
    requires path { IsPath path.now root.now }
    requires levels { IsLevelled (length path.now - 1) root.now }

    // As many nodes as the insertion uses.
    ensures ok { IfOk result (λ made. made ≡ nodes_needed path.now root.now) }

    // An insertion into a leaf with room needs none, and only one into a full leaf can be refused.
    ensures leaf_with_room { length (own_pairs (leaf_at path.now root.now)) < capacity → IsOkAnd result (λ made. made ≡ 0) }
    ensures full { OnErr result (length (own_pairs (leaf_at path.now root.now)) ≡ capacity) }
    ensures error { IfErr result (λ e. e ≡ TryReserveError.AllocError) }

    // A leaf takes one request and each inner node two; a refusal ends them.
    ensures requests { IfOk result (λ _. asked.new.requests ≡ asked.old.requests + requests_for (nodes_needed path.now root.now)) }
    ensures at_most { asked.new.requests ≤ asked.old.requests + requests_for (nodes_needed path.now root.now) }
{
    let needed = count_needed(root, path);
    if needed == 0 {
        return Ok(NewNodes {
            leaf: None,
            inner: Spares::new(),
        });
    }
    let leaf = Node::try_leaf(alloc, asked)?;
    let inner = try_spares(alloc, needed - 1, asked)?;
    Ok(NewNodes {
        leaf: Some(leaf),
        inner,
    })
}

/// Makes as many inner nodes.
///
/// # Errors
/// `AllocError` if one of them is refused, and those made before are dropped.
#[inline(always)]
pub fn try_spares<K: Drop, V: Drop, A: Handle>(
    alloc: A,
    count: usize,
    asked: &mut Asked,
) -> Result<Spares<K, V, A>, TryReserveError>
    requires { count ≤ most_levels }
    ensures len { IfOk result (λ spares. spares ≡ count) }
    ensures error { IfErr result (λ e. e ≡ TryReserveError.AllocError) }
    ensures requests { IfOk result (λ _. asked.new.requests ≡ asked.old.requests + 2 * count) }
    ensures at_most { asked.new.requests ≤ asked.old.requests + 2 * count }
{
    let mut spares = Spares::new();
    for _i in 0..count {
        let node = Node::try_inner(alloc, asked)?;
        spares.push(node);
    }
    Ok(spares)
}

// How many nodes an insertion at the path needs: none where the leaf has room.
#[inline(always)]
pub(crate) fn count_needed<K, V, A: Handle>(root: &Node<K, V, A>, path: &[u8]) -> usize
    requires some { 0 < length path.now }
    requires short { length path.now ≤ most_levels }
    requires path { IsPath path.now root.now }
    requires levels { IsLevelled (length path.now - 1) root.now }
    ensures value { result ≡ nodes_needed path.now root.now }
    ensures few { result ≤ length path.now + 1 }
    ensures full { 0 < result → length (own_pairs (leaf_at path.now root.now)) ≡ capacity }
{
    // Few leaves are full, and their rest is seen by a loop.
    if has_room(root, path) {
        return 0;
    }
    let split = count_full(root, path);
    if split == path.len() {
        split + 1
    } else {
        split
    }
}

// How many nodes of the path are full, one after another from the leaf upwards.
fn count_full<K, V, A: Handle>(node: &Node<K, V, A>, path: &[u8]) -> usize
    requires some { 0 < length path.now }
    requires path { IsPath path.now node.now }
    requires levels { IsLevelled (length path.now - 1) node.now }
    ensures { result ≡ cascade path.now node.now }
{
    if path.len() == 1 {
        return if node.len() == CAPACITY { 1 } else { 0 };
    }
    let rest = &path[1..];
    let below = count_full(node.child(path[0] as usize), rest);
    if below == rest.len() && node.len() == CAPACITY {
        path.len()
    } else {
        below
    }
}
