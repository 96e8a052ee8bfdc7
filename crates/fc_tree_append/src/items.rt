//! The pairs of a tree and items that rise, in one: each item is put in where the walk over the pairs stands.
ghost use Rattle.std.specs.Prelude.{◌≡◌, ◌+◌, ◌≤◌, [], ◌∷◌, ◌++◌, length};
ghost use Rattle.std.specs.List.{AllByRecursion};
ghost use Rattle.std.specs.declared.cmp.Ordering.TheVariants.{Less, Equal};
ghost use Rattle.fc_base.specs.Ascending.{IsAscending};
ghost use Rattle.fc_base.specs.Extended.{extended};
ghost use Rattle.fc_base.specs.OneKey.{put};
ghost use Rattle.fc_tree_node.specs.Tree.{entries, IsSoundMap};
ghost use Rattle.fc_tree_append.specs.Rising.{IsHeldAfter, IsRising, IsStoppedAt, with_held};

use fc_base::Handle;
use fc_tree_build::builder::Builder;
use fc_tree_drain::drain::Front;
use fc_tree_node::node::Node;
use std::cmp::Ordering;

/// The pairs of a tree with all items put in, whose keys rise, and how many pairs that are. Of equal keys the first stays, with the last value.
pub fn merge<K: Ord + Drop, V: Drop, A: Handle>(
    root: Option<Node<K, V, A>>,
    items: Vec<(K, V), A>,
    builder: Builder<K, V, A>,
) -> (Option<Node<K, V, A>>, usize)
    requires sound { IsSoundMap root }
    requires order { IsAscending K.cmp (entries root) }
    requires rising { IsRising K.cmp items.items }
    requires empty { builder.pairs ≡ [] }
    requires room { length (entries root) + length items.items ≤ builder.room }
    ensures pairs { entries result.0 ≡ extended K.cmp (entries root) items.items }
    ensures sound { IsSoundMap result.0 }
    ensures len { result.1 ≡ length (entries result.0) }
{
    let mut builder = builder;
    let room = builder.room();
    let mut pairs = Front::over(root);
    let mut held = None;
    for (key, value) in items {
        held = Some(step(&mut builder, &mut pairs, held, key, value));
    }
    put_held(&mut builder, held);
    push_all(&mut pairs, &mut builder);
    let len = room - builder.room();
    (builder.finish(), len)
}

// Puts an item in: the pair that is held, if there is one, and the tree's pairs with smaller keys go to the builder, and the pair at the item's key is the one
// to hold.
fn step<K: Ord + Drop, V: Drop, A: Handle>(
    builder: &mut Builder<K, V, A>,
    pairs: &mut Front<K, V, A>,
    held: Option<(K, V)>,
    key: K,
    value: V,
) -> (K, V)
    requires held { IsHeldAfter K.cmp builder.old.pairs held key }
    requires order { IsAscending K.cmp (with_held builder.old.pairs held pairs.old) }
    requires room { length (with_held [] held pairs.old) + 1 ≤ builder.old.room }
    ensures put { builder.new.pairs ++ result ∷ pairs.new ≡ put K.cmp (with_held builder.old.pairs held pairs.old) key value }
    ensures same { K.cmp result.0 key ≡ Equal }
    ensures room { length pairs.new + builder.old.room ≤ builder.new.room + length (with_held [] held pairs.old) }
    ensures filled { length builder.new.pairs + builder.new.room ≡ length builder.old.pairs + builder.old.room }
{
    match held {
        None => step_over(builder, pairs, key, value),
        Some(pair) => {
            if pair.0.cmp(&key).is_eq() {
                let (own, _old) = pair;
                return (own, value);
            }
            builder.push(pair);
            step_over(builder, pairs, key, value)
        }
    }
}

// The same where no pair is held.
fn step_over<K: Ord + Drop, V: Drop, A: Handle>(
    builder: &mut Builder<K, V, A>,
    pairs: &mut Front<K, V, A>,
    key: K,
    value: V,
) -> (K, V)
    requires before { AllByRecursion (λ e. K.cmp e.0 key ≡ Less) builder.old.pairs }
    requires order { IsAscending K.cmp (builder.old.pairs ++ pairs.old) }
    requires room { length pairs.old + 1 ≤ builder.old.room }
    ensures put { builder.new.pairs ++ result ∷ pairs.new ≡ put K.cmp (builder.old.pairs ++ pairs.old) key value }
    ensures same { K.cmp result.0 key ≡ Equal }
    ensures room { length pairs.new + builder.old.room ≤ builder.new.room + length pairs.old }
    ensures filled { length builder.new.pairs + builder.new.room ≡ length builder.old.pairs + builder.old.room }
{
    if pass(builder, pairs, &key) {
        let (own, _old) = pairs.next();
        return (own, value);
    }
    (key, value)
}

// Puts the pairs with smaller keys into the builder, and answers whether the next pair has an equal one.
fn pass<K: Ord + Drop, V: Drop, A: Handle>(
    builder: &mut Builder<K, V, A>,
    pairs: &mut Front<K, V, A>,
    key: &K,
) -> bool
    requires before { AllByRecursion (λ e. K.cmp e.0 key.now ≡ Less) builder.old.pairs }
    requires order { IsAscending K.cmp pairs.old }
    requires room { length pairs.old ≤ builder.old.room }
    ensures pairs { builder.new.pairs ++ pairs.new ≡ builder.old.pairs ++ pairs.old }
    ensures before { AllByRecursion (λ e. K.cmp e.0 key.now ≡ Less) builder.new.pairs }
    ensures stopped { IsStoppedAt K.cmp pairs.new key.now result }
    ensures filled { length builder.new.pairs + builder.new.room ≡ length builder.old.pairs + builder.old.room }
{
    while !pairs.is_empty() {
        match pairs.first().0.cmp(key) {
            Ordering::Less => builder.push(pairs.next()),
            Ordering::Equal => return true,
            Ordering::Greater => return false,
        }
    }
    false
}

// Puts the pair that is held into the builder, if there is one.
fn put_held<K: Drop, V: Drop, A: Handle>(builder: &mut Builder<K, V, A>, held: Option<(K, V)>)
    requires room { length (with_held [] held []) ≤ builder.old.room }
    ensures pairs { builder.new.pairs ≡ with_held builder.old.pairs held [] }
    ensures filled { length builder.new.pairs + builder.new.room ≡ length builder.old.pairs + builder.old.room }
{
    match held {
        None => (),
        Some(pair) => builder.push(pair),
    }
}

// Puts all pairs that are left into the builder.
fn push_all<K: Drop, V: Drop, A: Handle>(pairs: &mut Front<K, V, A>, builder: &mut Builder<K, V, A>)
    requires room { length pairs.old ≤ builder.old.room }
    ensures pairs { builder.new.pairs ≡ builder.old.pairs ++ pairs.old }
    ensures filled { length builder.new.pairs + builder.new.room ≡ length builder.old.pairs + builder.old.room }
{
    while !pairs.is_empty() {
        builder.push(pairs.next());
    }
}
