//! Nodes that hold nothing, many at once, in a list: all are made before the first is used.
ghost use Rattle.std.specs.Prelude.{◌≡◌, ◌+◌, ◌<◌, ◌≤◌, [], ◌∷◌, ◌++◌, length, IfOk, IfErr, IsOk, vec_capacity};
ghost use Rattle.std.specs.List.{AllByRecursion};
ghost use Rattle.fc_tree_node.specs.Node.{IsEmptyLeaf, IsEmptyInner};
ghost use Rattle.fc_tree_node.specs.Requests.{list_requests};

use crate::node::Node;
use fc_base::asked::add_request;
use fc_base::{Asked, Handle, TryReserveError};

/// As many leaves. A request is made for their list, and one for each.
///
/// # Errors
/// `AllocError` if one of them or the list of them is refused, never where there are none. Nothing is then left after.
pub fn try_leaves<K: Drop, V: Drop, A: Handle>(
    alloc: A,
    count: usize,
    asked: &mut Asked,
) -> Result<Vec<Node<K, V, A>, A>, TryReserveError>
    ensures ok { IfOk result (λ v. (length v.items ≡ count) × AllByRecursion (λ b. IsEmptyLeaf b) v.items) }
    ensures capacity { IfOk result (λ v. vec_capacity v ≡ count) }
    ensures error { IfErr result (λ e. e ≡ TryReserveError.AllocError) }
    ensures none { count ≡ 0 → IsOk result }
    ensures requests { IfOk result (λ _. asked.new.requests ≡ asked.old.requests + list_requests 1 count) }
    ensures at_most { asked.new.requests ≤ asked.old.requests + list_requests 1 count }
{
    if count == 0 {
        return Ok(Vec::new(alloc));
    }
    add_request(asked);
    let mut leaves = Vec::with_capacity(alloc, count)?;
    for _i in 0..count {
        let leaf = Node::try_leaf(alloc, asked)?;
        put_spare(&mut leaves, leaf);
    }
    // They are used from the last on, and an allocator often puts what it makes one after another.
    leaves.reverse();
    Ok(leaves)
}

/// As many inner nodes. A request is made for their list, and two for each.
///
/// # Errors
/// `AllocError` if one of them or the list of them is refused, never where there are none. Nothing is then left after.
pub fn try_inner_nodes<K: Drop, V: Drop, A: Handle>(
    alloc: A,
    count: usize,
    asked: &mut Asked,
) -> Result<Vec<Node<K, V, A>, A>, TryReserveError>
    ensures ok { IfOk result (λ v. (length v.items ≡ count) × AllByRecursion (λ b. IsEmptyInner b) v.items) }
    ensures capacity { IfOk result (λ v. vec_capacity v ≡ count) }
    ensures error { IfErr result (λ e. e ≡ TryReserveError.AllocError) }
    ensures none { count ≡ 0 → IsOk result }
    ensures requests { IfOk result (λ _. asked.new.requests ≡ asked.old.requests + list_requests 2 count) }
    ensures at_most { asked.new.requests ≤ asked.old.requests + list_requests 2 count }
{
    if count == 0 {
        return Ok(Vec::new(alloc));
    }
    add_request(asked);
    let mut nodes = Vec::with_capacity(alloc, count)?;
    for _i in 0..count {
        let node = Node::try_inner(alloc, asked)?;
        put_spare(&mut nodes, node);
    }
    Ok(nodes)
}

/// Puts a node among the others, in room that there is, and so without a request.
pub fn put_spare<K: Drop, V: Drop, A: Handle>(
    spares: &mut Vec<Node<K, V, A>, A>,
    node: Node<K, V, A>,
)
    requires { length spares.old.items < vec_capacity spares.old }
    ensures items { spares.new.items ≡ spares.old.items ++ node ∷ [] }
    ensures capacity { vec_capacity spares.new ≡ vec_capacity spares.old }
{
    spares.push_reserved(node);
}
