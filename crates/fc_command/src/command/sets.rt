//! The commands on sets.
ghost use Rattle.std.specs.Prelude.{◌≡◌, ⊤, IfOk, IfErr, MatchResult};
ghost use Rattle.fc_base.specs.Copies.{IsExact, MayRefuseCopies};
ghost use Rattle.fc_map.specs.Entries.{Map, now_value};
ghost use Rattle.fc_command.specs.SetStep.{StepOnSets};
ghost use Rattle.fc_command.specs.Walks.{given, left, walked, MayRefuseFound};

use crate::command::kinds::SetCommand;
use crate::command::operations::{keep, list};
use fc_base::{Handle, TryClone, TryReserveError};
use fc_lines::command::{End, Reply};
use fc_lines::items::Items;
use fc_map::map::is_range;
use fc_set::set::{BTreeSet, Range};
use std::alloc::Global;
use std::ops::Bound;

/// Runs a command on a set and on the other one.
pub fn step_set<K: Ord + TryClone, V: TryClone, A: Handle>(
    alloc: Global,
    set: &mut BTreeSet<K, A>,
    other: &mut BTreeSet<K, A>,
    command: SetCommand<K>,
) -> Reply<K, V>
    requires copied { K.can_clone }
    requires same { IsExact K.same }
    ensures { StepOnSets K.cmp K.may_refuse command set.old other.old result set.new other.new }
{
    match command {
        SetCommand::AddItem(item) => add(set, item),
        SetCommand::ReplaceItem(item) => replace(set, item),
        SetCommand::TakeItem(item) => Reply::Key(set.take(&item)),
        SetCommand::RemoveItem(item) => Reply::Flag(set.remove(&item)),
        SetCommand::ContainsItem(item) => Reply::Flag(set.contains(&item)),
        SetCommand::GetItem(item) => find(set, &item),
        SetCommand::SetLen => Reply::Len(set.len()),
        SetCommand::SetClear => clear(set),
        SetCommand::SetAppend => append(set, other),
        SetCommand::SetSplitOff(item) => split_off(set, other, item),
        SetCommand::SetClone => copy(set, other),
        SetCommand::SetExtend(items) => extend(set, items),
        SetCommand::SetWalk(lo, hi, ends) => walk(alloc, set, lo, hi, ends),
        SetCommand::List(op) => list(alloc, op, set, other),
        SetCommand::Keep(op) => keep(op, set, other),
        SetCommand::IsDisjoint => Reply::Flag(set.is_disjoint(other)),
        SetCommand::IsSubset => Reply::Flag(set.is_subset(other)),
        SetCommand::IsSuperset => Reply::Flag(set.is_superset(other)),
        SetCommand::SetCmp => compare(set, other),
    }
}

// Puts the item in where no equal one is.
fn add<K: Ord + TryClone, V: TryClone, A: Handle>(set: &mut BTreeSet<K, A>, item: K) -> Reply<K, V>
    ensures { (o : Map K ⊤ A) → StepOnSets K.cmp K.may_refuse (SetCommand.AddItem item) set.old o result set.new o }
{
    match set.try_insert(item) {
        Ok(new) => Reply::Flag(new),
        Err((item, e)) => Reply::ItemGivenBack(item, e),
    }
}

// Puts the item in the place of an equal one, or where it belongs.
fn replace<K: Ord + TryClone, V: TryClone, A: Handle>(
    set: &mut BTreeSet<K, A>,
    item: K,
) -> Reply<K, V>
    ensures { (o : Map K ⊤ A) → StepOnSets K.cmp K.may_refuse (SetCommand.ReplaceItem item) set.old o result set.new o }
{
    match set.replace(item) {
        Ok(old) => Reply::Key(old),
        Err((item, e)) => Reply::ItemGivenBack(item, e),
    }
}

// Drops all items.
fn clear<K: Ord + TryClone, V: TryClone, A: Handle>(set: &mut BTreeSet<K, A>) -> Reply<K, V>
    ensures { (o : Map K ⊤ A) → StepOnSets K.cmp K.may_refuse SetCommand.SetClear set.old o result set.new o }
{
    set.clear();
    Reply::Done
}

// A copy of the item that is equal.
fn find<K: Ord + TryClone, V: TryClone, A: Handle>(set: &BTreeSet<K, A>, item: &K) -> Reply<K, V>
    requires copied { K.can_clone }
    requires same { IsExact K.same }
    ensures { (o : Map K ⊤ A) → StepOnSets K.cmp K.may_refuse (SetCommand.GetItem item.now) set.now o result set.now o }
{
    match set.get(item) {
        Some(held) => match held.try_clone() {
            Ok(copy) => Reply::Key(Some(copy)),
            Err(e) => Reply::Refused(e),
        },
        None => Reply::Key(None),
    }
}

// Takes the items of the other set.
fn append<K: Ord + TryClone, V: TryClone, A: Handle>(
    set: &mut BTreeSet<K, A>,
    other: &mut BTreeSet<K, A>,
) -> Reply<K, V>
    ensures { StepOnSets K.cmp K.may_refuse SetCommand.SetAppend set.old other.old result set.new other.new }
{
    match set.append(other) {
        Ok(()) => Reply::Done,
        Err(e) => Reply::Refused(e),
    }
}

// Splits the set at the item, and leaves the part from there on in the other set.
fn split_off<K: Ord + TryClone, V: TryClone, A: Handle>(
    set: &mut BTreeSet<K, A>,
    other: &mut BTreeSet<K, A>,
    item: K,
) -> Reply<K, V>
    ensures { StepOnSets K.cmp K.may_refuse (SetCommand.SetSplitOff item) set.old other.old result set.new other.new }
{
    match set.try_split_off(&item) {
        Ok(rest) => {
            *other = rest;
            Reply::Done
        }
        Err(e) => Reply::Refused(e),
    }
}

// Puts the items in, in turn, up to the one that is refused.
fn extend<K: Ord + TryClone, V: TryClone, A: Handle>(
    set: &mut BTreeSet<K, A>,
    more: Items<K>,
) -> Reply<K, V>
    ensures { (o : Map K ⊤ A) → StepOnSets K.cmp K.may_refuse (SetCommand.SetExtend more) set.old o result set.new o }
{
    match set.try_extend(more.into_vec()) {
        Ok(()) => {
            // Shows that the set isn't longer than a set can be.
            let _len = set.len();
            Reply::Done
        }
        Err(e) => Reply::Refused(e),
    }
}

// Copies of what the range between the bounds gives, one for each end.
fn walk<K: Ord + TryClone, V: TryClone, A: Handle>(
    alloc: Global,
    set: &BTreeSet<K, A>,
    lo: Bound<K>,
    hi: Bound<K>,
    ends: Items<End>,
) -> Reply<K, V>
    requires copied { K.can_clone }
    requires same { IsExact K.same }
    ensures { (o : Map K ⊤ A) → StepOnSets K.cmp K.may_refuse (SetCommand.SetWalk lo hi ends) set.now o result set.now o }
{
    let bounds = (lo.as_ref(), hi.as_ref());
    if !is_range(&bounds.0, &bounds.1) {
        return Reply::BadRange;
    }
    match copies(alloc, set.range(bounds), ends.as_slice()) {
        Ok(steps) => Reply::Keys(Items::from(steps)),
        Err(e) => Reply::Refused(e),
    }
}

// A copy of the item at each end in turn.
fn copies<K: Ord + TryClone, A: Handle>(
    alloc: Global,
    walk: Range<'_, K, A>,
    ends: &[End],
) -> Result<Vec<Option<K>>, TryReserveError>
    requires copied { K.can_clone }
    requires same { IsExact K.same }
    ensures steps { IfOk result (λ steps. steps.items ≡ walked walk.entry ends.now) }
    ensures error { IfErr result (MayRefuseCopies (MayRefuseFound K.may_refuse) (walked walk.entry ends.now)) }
{
    let mut steps = Vec::with_capacity(alloc, ends.len())?;
    let mut walk = walk;
    for end in ends {
        let step = copy_step(step_at(&mut walk, *end))?;
        steps.push(step).unwrap();
    }
    Ok(steps)
}

// The item at the end, which is then given.
fn step_at<'a, K: Ord, A: Handle>(walk: &mut Range<'a, K, A>, end: End) -> Option<&'a K>
    ensures gives { now_value result ≡ given end walk.old }
    ensures leaves { walk.new ≡ left end walk.old }
{
    match end {
        End::Front => walk.next(),
        End::Back => walk.next_back(),
    }
}

// A copy of an item, if there is one.
fn copy_step<K: TryClone>(item: Option<&K>) -> Result<Option<K>, TryReserveError>
    requires copied { K.can_clone }
    requires same { IsExact K.same }
    ensures { MatchResult result (λ copy. copy ≡ now_value item.entry) (MayRefuseFound K.may_refuse (now_value item.entry)) }
{
    match item {
        Some(item) => Ok(Some(item.try_clone()?)),
        None => Ok(None),
    }
}

// How the set stands to the other.
fn compare<K: Ord + TryClone, V: TryClone, A: Handle>(
    set: &BTreeSet<K, A>,
    other: &BTreeSet<K, A>,
) -> Reply<K, V>
    ensures { StepOnSets K.cmp K.may_refuse SetCommand.SetCmp set.now other.now result set.now other.now }
{
    Reply::Order(set.cmp(other))
}

// Makes the other set a copy of the set.
fn copy<K: Ord + TryClone, V: TryClone, A: Handle>(
    set: &BTreeSet<K, A>,
    other: &mut BTreeSet<K, A>,
) -> Reply<K, V>
    requires copied { K.can_clone }
    requires same { IsExact K.same }
    ensures { StepOnSets K.cmp K.may_refuse SetCommand.SetClone set.now other.old result set.now other.new }
{
    match set.try_clone() {
        Ok(items) => {
            *other = items;
            Reply::Done
        }
        Err(e) => Reply::Refused(e),
    }
}
