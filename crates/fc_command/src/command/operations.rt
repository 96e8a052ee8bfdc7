//! The commands that make lists and sets of the items of both sets.
ghost use Rattle.std.specs.Prelude.{◌≡◌, List, map, Some, IfOk, IfErr};
ghost use Rattle.std.specs.Iterator.{IsFinite};
ghost use Rattle.fc_base.specs.Copies.{IsExact, MayRefuseCopies};
ghost use Rattle.fc_set.specs.Items.{items};
ghost use Rattle.fc_set.specs.Copied.{Lends, MayCopyRefuse};
ghost use Rattle.fc_command.specs.SetStep.{StepOnSets, combined};

use crate::command::kinds::SetCommand;
use fc_base::{Handle, TryClone, TryReserveError};
use fc_lines::command::{Reply, SetOp};
use fc_lines::items::Items;
use fc_set::set::BTreeSet;
use std::alloc::Global;

/// Answers copies of what the operation on both sets gives.
pub fn list<K: Ord + TryClone, V: TryClone, A: Handle>(
    alloc: Global,
    op: SetOp,
    set: &BTreeSet<K, A>,
    other: &BTreeSet<K, A>,
) -> Reply<K, V>
    requires copied { K.can_clone }
    requires same { IsExact K.same }
    ensures { StepOnSets K.cmp K.may_refuse (SetCommand.List op) set.now other.now result set.now other.now }
{
    match listed(alloc, op, set, other) {
        Ok(items) => Reply::Keys(Items::from(items)),
        Err(e) => Reply::Refused(e),
    }
}

// Copies of what the operation on both sets gives.
fn listed<K: Ord + TryClone, A: Handle>(
    alloc: Global,
    op: SetOp,
    set: &BTreeSet<K, A>,
    other: &BTreeSet<K, A>,
) -> Result<Vec<Option<K>>, TryReserveError>
    requires copied { K.can_clone }
    requires same { IsExact K.same }
    ensures copies { IfOk result (λ copies. copies.items ≡ map Some (combined K.cmp op (items set.now) (items other.now))) }
    ensures error { IfErr result (MayRefuseCopies K.may_refuse (combined K.cmp op (items set.now) (items other.now))) }
{
    match op {
        SetOp::Difference => copies_of(alloc, set.difference(other)),
        SetOp::SymmetricDifference => copies_of(alloc, set.symmetric_difference(other)),
        SetOp::Intersection => copies_of(alloc, set.intersection(other)),
        SetOp::Union => copies_of(alloc, set.union(other)),
    }
}

// Copies of all items that the walk lends.
fn copies_of<'a, K: Ord + TryClone + 'a, I: Iterator<Item = &'a K> + Drop>(
    alloc: Global,
    walk: I,
) -> Result<Vec<Option<K>>, TryReserveError>
    requires copied { K.can_clone }
    requires same { IsExact K.same }
    requires ends { I.can_next walk × IsFinite (I.remaining walk) }
    ensures copies { (all : List K) → Lends I.next_gives walk all → IfOk result (λ copies. copies.items ≡ map Some all) }
    ensures error { (all : List K) → Lends I.next_gives walk all → IfErr result (MayRefuseCopies K.may_refuse all) }
{
    let mut copies = Vec::new(alloc);
    for item in walk {
        let copy = item.try_clone()?;
        copies.push(Some(copy))?;
    }
    Ok(copies)
}

/// Makes the set that of the operation on both sets.
pub fn keep<K: Ord + TryClone, V: TryClone, A: Handle>(
    op: SetOp,
    set: &mut BTreeSet<K, A>,
    other: &BTreeSet<K, A>,
) -> Reply<K, V>
    requires copied { K.can_clone }
    requires same { IsExact K.same }
    ensures { StepOnSets K.cmp K.may_refuse (SetCommand.Keep op) set.old other.now result set.new other.now }
{
    match kept(op, set, other) {
        Ok(made) => {
            *set = made;
            Reply::Done
        }
        Err(e) => Reply::Refused(e),
    }
}

// The set of what the operation on both sets gives.
fn kept<K: Ord + TryClone, A: Handle>(
    op: SetOp,
    set: &BTreeSet<K, A>,
    other: &BTreeSet<K, A>,
) -> Result<BTreeSet<K, A>, TryReserveError>
    requires copied { K.can_clone }
    requires same { IsExact K.same }
    ensures made { IfOk result (λ made. items made ≡ combined K.cmp op (items set.now) (items other.now)) }
    ensures error { IfErr result (MayCopyRefuse K.may_refuse (combined K.cmp op (items set.now) (items other.now))) }
{
    match op {
        SetOp::Difference => set.sub(other),
        SetOp::SymmetricDifference => set.bitxor(other),
        SetOp::Intersection => set.bitand(other),
        SetOp::Union => set.bitor(other),
    }
}
