//! A world of maps and sets, and the commands on its maps.
ghost use Rattle.std.specs.Prelude.{◌≡◌, ◌<◌, ◌↔◌, min, List, [], length, IfOk, OnErr, IfErr, MatchResult, is_some, IsTrue, if◌then◌else◌};
ghost use Rattle.fc_base.specs.Copies.{IsExact, MayRefuseCopies, MayRefusePair};
ghost use Rattle.fc_base.specs.OneKey.{put, cut};
ghost use Rattle.fc_base.specs.Parts.{at, value_at};
ghost use Rattle.fc_base.specs.Ranges.{bound_now, is_range, within};
ghost use Rattle.fc_map.specs.Writing.{wrote};
ghost use Rattle.fc_map.specs.Stretches.{range_map_ref, stretch};
ghost use Rattle.fc_command.specs.Writing.{flagged, rewritten};
ghost use Rattle.fc_map.specs.Entries.{Map, entries, now_pair};
ghost use Rattle.fc_command.specs.Walks.{given, left, walked, MayRefuseFound};
ghost use Rattle.fc_command.specs.Step.{IsNew, Step, StepOn, Runs};

use crate::command::kinds::{Kind, MapCommand};
use crate::command::sets::step_set;
use fc_base::{Handle, TryClone, TryReserveError};
use fc_lines::command::{Command, End, Reply, Side};
use fc_lines::items::Items;
use fc_map::map::{BTreeMap, Entry, Range, RangeMut, insert_both, is_range};
use fc_set::set::BTreeSet;
use std::alloc::Global;
use std::mem;
use std::ops::Bound;

/// Two maps, `a` and `b`, and two sets, `s` and `t`, that commands work on.
#[derive(Drop)]
pub struct World<K: Ord, V, A: Handle = Global> {
    /// The map that `Side::First` names.
    pub a: BTreeMap<K, V, A>,
    /// The map that `Side::Second` names.
    pub b: BTreeMap<K, V, A>,
    /// The set that `Side::First` names.
    pub s: BTreeSet<K, A>,
    /// The set that `Side::Second` names.
    pub t: BTreeSet<K, A>,
    alloc: Global,
}

impl<K: Ord + TryClone, V: TryClone> World<K, V> {
    /// A world of empty maps and sets, which takes no memory. Later requests go to `alloc`.
    pub fn new(alloc: Global) -> World<K, V>
        ensures { IsNew result }
    {
        World::within(alloc, alloc)
    }
}

impl<K: Ord + TryClone, V: TryClone, A: Handle> World<K, V, A> {
    /// A world of empty maps and sets, which takes no memory. Later requests of the maps and sets go to `memory`, those of replies to `alloc`.
    pub fn within(alloc: Global, memory: A) -> World<K, V, A>
        ensures { IsNew result }
    {
        World {
            a: BTreeMap::new(memory),
            b: BTreeMap::new(memory),
            s: BTreeSet::new(memory),
            t: BTreeSet::new(memory),
            alloc,
        }
    }

    /// Runs one command. A refusal is the reply `GivenBack`, `BothGivenBack` or `ItemGivenBack` for a pair, a pair for each map or an
    /// item, which then comes back, and else `Refused`. The world is then as it was, but for what a refused `Extend` or `SetExtend` has put in.
    ///
    /// A caller shows that a copy of a key or of a value is that key or value itself. The reply names the error of a copy as it came;
    /// where no copy of a key or of a value is ever refused, as of numbers, a command that only copies is answered.
    pub fn step(&mut self, command: Command<K, V>) -> Reply<K, V>
        requires copied { K.can_clone × V.can_clone }
        requires same { IsExact K.same × IsExact V.same }
        ensures { Step K.cmp K.may_refuse V.may_refuse self.old command result self.new }
    {
        match Kind::of(command) {
            Kind::OnMaps(Side::First, command) => {
                step_on(self.alloc, &mut self.a, &mut self.b, command)
            }
            Kind::OnMaps(Side::Second, command) => {
                step_on(self.alloc, &mut self.b, &mut self.a, command)
            }
            Kind::OnSets(Side::First, command) => {
                step_set(self.alloc, &mut self.s, &mut self.t, command)
            }
            Kind::OnSets(Side::Second, command) => {
                step_set(self.alloc, &mut self.t, &mut self.s, command)
            }
        }
    }

    /// Runs the commands in order, and answers a reply to each. A command that is refused replies so, and the next one follows.
    ///
    /// # Errors
    /// `AllocError` where the room for all replies, which is taken first, is refused: then no command ran.
    pub fn run(&mut self, commands: Vec<Command<K, V>>) -> Result<Vec<Reply<K, V>>, TryReserveError>
        requires copied { K.can_clone × V.can_clone }
        requires same { IsExact K.same × IsExact V.same }
        ensures ran { IfOk result (λ replies. Runs K.cmp K.may_refuse V.may_refuse self.old commands.items replies.items self.new) }
        ensures error { IfErr result (λ e. e ≡ TryReserveError.AllocError) }
        ensures unchanged { OnErr result (self.new ≡ self.old) }
    {
        let mut replies = match Vec::with_capacity(self.alloc, commands.len()) {
            Ok(room) => room,
            Err(_) => return Err(TryReserveError::AllocError),
        };
        for command in commands {
            replies.push(self.step(command)).unwrap();
        }
        Ok(replies)
    }
}

// Runs a command on a map and on the other one.
fn step_on<K: Ord + TryClone, V: TryClone, A: Handle>(
    alloc: Global,
    map: &mut BTreeMap<K, V, A>,
    other: &mut BTreeMap<K, V, A>,
    command: MapCommand<K, V>,
) -> Reply<K, V>
    requires copied { K.can_clone × V.can_clone }
    requires same { IsExact K.same × IsExact V.same }
    ensures { StepOn K.cmp K.may_refuse V.may_refuse command map.old other.old result map.new other.new }
{
    match command {
        MapCommand::Insert(key, value) => match map.try_insert(key, value) {
            Ok(old) => Reply::Value(old),
            Err((key, value, e)) => Reply::GivenBack(key, value, e),
        },
        MapCommand::Get(key) => get(map, &key),
        MapCommand::GetKeyValue(key) => get_key_value(map, &key),
        MapCommand::ContainsKey(key) => Reply::Flag(map.contains_key(&key)),
        MapCommand::Remove(key) => Reply::Value(map.remove(&key)),
        MapCommand::Set(key, value) => set(map, key, value),
        MapCommand::Entry(key, there, new) => entry(map, key, there, new),
        MapCommand::RemoveEntry(key) => Reply::Pair(evict(map, key)),
        MapCommand::Len => Reply::Len(map.len()),
        MapCommand::Clear => {
            map.clear();
            Reply::Done
        }
        MapCommand::Walk(lo, hi, ends) => walk(alloc, map, lo, hi, ends),
        MapCommand::Write(lo, hi, writes) => write(map, lo, hi, writes),
        MapCommand::Append => append(map, other),
        MapCommand::SplitOff(key) => split_off(map, other, key),
        MapCommand::TryClone => copy(map, other),
        MapCommand::Extend(pairs) => extend(map, pairs),
        MapCommand::InsertBoth(k, v, l, w) => put_both(map, other, k, v, l, w),
    }
}

// Takes the pairs of the other map.
fn append<K: Ord + TryClone, V: TryClone, A: Handle>(
    map: &mut BTreeMap<K, V, A>,
    other: &mut BTreeMap<K, V, A>,
) -> Reply<K, V>
    ensures { StepOn K.cmp K.may_refuse V.may_refuse MapCommand.Append map.old other.old result map.new other.new }
{
    match map.append(other) {
        Ok(()) => Reply::Done,
        Err(e) => Reply::Refused(e),
    }
}

// Splits the map at the key, and leaves the part from there on in the other map.
fn split_off<K: Ord + TryClone, V: TryClone, A: Handle>(
    map: &mut BTreeMap<K, V, A>,
    other: &mut BTreeMap<K, V, A>,
    key: K,
) -> Reply<K, V>
    ensures { StepOn K.cmp K.may_refuse V.may_refuse (MapCommand.SplitOff key) map.old other.old result map.new other.new }
{
    match map.split_off(&key) {
        Ok(rest) => {
            *other = rest;
            Reply::Done
        }
        Err(e) => Reply::Refused(e),
    }
}

// Copies of what the range between the bounds gives, one for each end.
fn walk<K: Ord + TryClone, V: TryClone, A: Handle>(
    alloc: Global,
    map: &BTreeMap<K, V, A>,
    lo: Bound<K>,
    hi: Bound<K>,
    ends: Items<End>,
) -> Reply<K, V>
    requires copied { K.can_clone × V.can_clone }
    requires same { IsExact K.same × IsExact V.same }
    ensures { (o : Map K V A) → StepOn K.cmp K.may_refuse V.may_refuse (MapCommand.Walk lo hi ends) map.now o result map.now o }
{
    let bounds = (lo.as_ref(), hi.as_ref());
    if !is_range(&bounds.0, &bounds.1) {
        return Reply::BadRange;
    }
    match copies(alloc, map.range(bounds), ends.as_slice()) {
        Ok(steps) => Reply::Pairs(Items::from(steps)),
        Err(e) => Reply::Refused(e),
    }
}

// A copy of the pair at each end in turn.
fn copies<K: Ord + TryClone, V: TryClone, A: Handle>(
    alloc: Global,
    pairs: Range<'_, K, V, A>,
    ends: &[End],
) -> Result<Vec<Option<(K, V)>>, TryReserveError>
    requires copied { K.can_clone × V.can_clone }
    requires same { IsExact K.same × IsExact V.same }
    ensures steps { IfOk result (λ steps. steps.items ≡ walked pairs.entry ends.now) }
    ensures error { IfErr result (MayRefuseCopies (MayRefuseFound (MayRefusePair K.may_refuse V.may_refuse)) (walked pairs.entry ends.now)) }
{
    let mut steps = Vec::with_capacity(alloc, ends.len())?;
    let mut pairs = pairs;
    for end in ends {
        let step = copy_step(step_at(&mut pairs, *end))?;
        steps.push(step).unwrap();
    }
    Ok(steps)
}

// The pair at the end, which is then given.
fn step_at<'a, K: Ord, V, A: Handle>(
    pairs: &mut Range<'a, K, V, A>,
    end: End,
) -> Option<(&'a K, &'a V)>
    ensures gives { now_pair result ≡ given end pairs.old }
    ensures leaves { pairs.new ≡ left end pairs.old }
{
    match end {
        End::Front => pairs.next(),
        End::Back => pairs.next_back(),
    }
}

// A copy of a pair, if there is one.
fn copy_step<K: TryClone, V: TryClone>(
    pair: Option<(&K, &V)>,
) -> Result<Option<(K, V)>, TryReserveError>
    requires copied { K.can_clone × V.can_clone }
    requires same { IsExact K.same × IsExact V.same }
    ensures { MatchResult result (λ copy. copy ≡ now_pair pair.entry) (MayRefuseFound (MayRefusePair K.may_refuse V.may_refuse) (now_pair pair.entry)) }
{
    match pair {
        Some((key, value)) => Ok(Some(copy_pair(key, value)?)),
        None => Ok(None),
    }
}

// Writes each value at the pair that its end lends, between the bounds.
fn write<K: Ord + TryClone, V: TryClone, A: Handle>(
    map: &mut BTreeMap<K, V, A>,
    lo: Bound<K>,
    hi: Bound<K>,
    writes: Items<(End, V)>,
) -> Reply<K, V>
    ensures { (o : Map K V A) → StepOn K.cmp K.may_refuse V.may_refuse (MapCommand.Write lo hi writes) map.old o result map.new o }
{
    let bounds = (lo.as_ref(), hi.as_ref());
    if is_range(&bounds.0, &bounds.1) {
        Reply::Len(write_all(map, bounds, writes.into_vec()))
    } else {
        Reply::BadRange
    }
}

// Answers how many values were written.
fn write_all<K: Ord, V: Drop, A: Handle>(
    map: &mut BTreeMap<K, V, A>,
    bounds: (Bound<&K>, Bound<&K>),
    writes: Vec<(End, V)>,
) -> usize
    requires { IsTrue (is_range K.cmp (bound_now bounds.0) (bound_now bounds.1)) }
    ensures written { entries map.new ≡ rewritten K.cmp (bound_now bounds.entry.0) (bound_now bounds.entry.1) (entries map.old) writes.items }
    ensures count { result ≡ min (length writes.items) (length (within K.cmp (bound_now bounds.entry.0) (bound_now bounds.entry.1) (entries map.old))) }
{
    let mut walk = map.range_mut(bounds);
    let mut count: usize = 0;
    for (end, value) in writes {
        count += usize::from(write_at(&mut walk, end, value));
    }
    count
}

// Writes the value at the pair that the end lends, if there is one.
fn write_at<K: Ord, V: Drop, A: Handle>(
    walk: &mut RangeMut<'_, K, V, A>,
    end: End,
    value: V,
) -> bool
    ensures lent { IsTrue result ↔ ((stretch walk.old).front < (stretch walk.old).back) }
    ensures written { stretch walk.new ≡ wrote (stretch walk.old) (flagged (end, value)) }
    ensures same_map { (range_map_ref walk.new).ghost_name ≡ (range_map_ref walk.old).ghost_name }
{
    match end {
        End::Front => match walk.next() {
            Some(held) => {
                *held = value;
                true
            }
            None => false,
        },
        End::Back => match walk.next_back() {
            Some(held) => {
                *held = value;
                true
            }
            None => false,
        },
    }
}

// Makes the other map a copy of the map.
fn copy<K: Ord + TryClone, V: TryClone, A: Handle>(
    map: &BTreeMap<K, V, A>,
    other: &mut BTreeMap<K, V, A>,
) -> Reply<K, V>
    requires copied { K.can_clone × V.can_clone }
    requires same { IsExact K.same × IsExact V.same }
    ensures { StepOn K.cmp K.may_refuse V.may_refuse MapCommand.TryClone map.now other.old result map.now other.new }
{
    match map.try_clone() {
        Ok(pairs) => {
            *other = pairs;
            Reply::Done
        }
        Err(e) => Reply::Refused(e),
    }
}

// Puts the pairs in, in turn, up to the one that is refused.
fn extend<K: Ord + TryClone, V: TryClone, A: Handle>(
    map: &mut BTreeMap<K, V, A>,
    pairs: Items<(K, V)>,
) -> Reply<K, V>
    ensures { (o : Map K V A) → StepOn K.cmp K.may_refuse V.may_refuse (MapCommand.Extend pairs) map.old o result map.new o }
{
    match map.try_extend(pairs.into_vec()) {
        Ok(()) => {
            // Shows that the map isn't longer than a map can be.
            let _len = map.len();
            Reply::Done
        }
        Err(e) => Reply::Refused(e),
    }
}

// Puts a pair into each of the two maps, or into neither.
fn put_both<K: Ord + TryClone, V: TryClone, A: Handle>(
    map: &mut BTreeMap<K, V, A>,
    other: &mut BTreeMap<K, V, A>,
    k: K,
    v: V,
    l: K,
    w: V,
) -> Reply<K, V>
    ensures { StepOn K.cmp K.may_refuse V.may_refuse (MapCommand.InsertBoth k v l w) map.old other.old result map.new other.new }
{
    match insert_both(map, other, k, v, l, w) {
        Ok((first, second)) => Reply::Both(first, second),
        Err((k, v, l, w, e)) => Reply::BothGivenBack(k, v, l, w, e),
    }
}

// Writes the value where the key is there, and answers the old one.
fn set<K: Ord + TryClone, V: TryClone, A: Handle>(
    map: &mut BTreeMap<K, V, A>,
    key: K,
    value: V,
) -> Reply<K, V>
    ensures { (o : Map K V A) → StepOn K.cmp K.may_refuse V.may_refuse (MapCommand.Set key value) map.old o result map.new o }
{
    match map.get_mut(&key) {
        Some(held) => Reply::Value(Some(mem::replace(held, value))),
        None => Reply::Value(None),
    }
}

// Puts `there` at the key where it is there, and else `new`.
fn entry<K: Ord + TryClone, V: TryClone, A: Handle>(
    map: &mut BTreeMap<K, V, A>,
    key: K,
    there: V,
    new: V,
) -> Reply<K, V>
    ensures { (o : Map K V A) → StepOn K.cmp K.may_refuse V.may_refuse (MapCommand.Entry key there new) map.old o result map.new o }
{
    let held = match map.try_entry(key) {
        Ok(held) => held,
        Err(e) => return Reply::Refused(e),
    };
    let found = matches!(held, Entry::Occupied(_));
    match held.and_modify(|value| *value = there).or_try_insert(new) {
        Ok(_lent) => Reply::Flag(found),
        // (taken whole: a pattern that takes it apart would hide that the map is as before)
        Err(back) => Reply::GivenBack(back.0, back.1, back.2),
    }
}

// Takes out the pair at the key, if it is there.
fn evict<K: Ord + TryClone, V: TryClone, A: Handle>(
    map: &mut BTreeMap<K, V, A>,
    key: K,
) -> Option<(K, V)>
    ensures pair { result ≡ at K.cmp (entries map.old) key }
    ensures taken { entries map.new ≡ cut K.cmp (entries map.old) key }
{
    match map.try_entry(key) {
        Ok(Entry::Occupied(held)) => Some(held.remove_entry()),
        Ok(Entry::Vacant(_gap)) => None,
        Err(_refused) => None,
    }
}

// A copy of the value at the key.
fn get<K: Ord + TryClone, V: TryClone, A: Handle>(map: &BTreeMap<K, V, A>, key: &K) -> Reply<K, V>
    requires copied { V.can_clone }
    requires same { IsExact V.same }
    ensures { (o : Map K V A) → StepOn K.cmp K.may_refuse V.may_refuse (MapCommand.Get key.now) map.now o result map.now o }
{
    match map.get(key) {
        Some(value) => match value.try_clone() {
            Ok(copy) => Reply::Value(Some(copy)),
            Err(e) => Reply::Refused(e),
        },
        None => Reply::Value(None),
    }
}

// A copy of the pair at the key.
fn get_key_value<K: Ord + TryClone, V: TryClone, A: Handle>(
    map: &BTreeMap<K, V, A>,
    key: &K,
) -> Reply<K, V>
    requires copied { K.can_clone × V.can_clone }
    requires same { IsExact K.same × IsExact V.same }
    ensures { (o : Map K V A) → StepOn K.cmp K.may_refuse V.may_refuse (MapCommand.GetKeyValue key.now) map.now o result map.now o }
{
    match map.get_key_value(key) {
        Some((held, value)) => match copy_pair(held, value) {
            Ok(copy) => Reply::Pair(Some(copy)),
            Err(e) => Reply::Refused(e),
        },
        None => Reply::Pair(None),
    }
}

// A copy of a key and a value, or the refusal of one of them.
fn copy_pair<K: TryClone, V: TryClone>(key: &K, value: &V) -> Result<(K, V), TryReserveError>
    requires copied { K.can_clone × V.can_clone }
    requires same { IsExact K.same × IsExact V.same }
    ensures { MatchResult result (λ copy. copy ≡ (key.now, value.now)) (MayRefusePair K.may_refuse V.may_refuse (key.now, value.now)) }
{
    let key = key.try_clone()?;
    let value = value.try_clone()?;
    Ok((key, value))
}
