//! Commands by the kind of what their side names, as `World::step` answers them: by one function for maps, and one for sets.
ghost use Rattle.std.specs.Prelude.{◌≡◌};
ghost use Rattle.fc_command.specs.Kinds.{kind_of};

use fc_lines::command::{Command, End, SetOp, Side};
use fc_lines::items::Items;
use std::ops::Bound;

/// A command on maps or on sets, beside the side that it names.
#[derive(Drop)]
pub enum Kind<K, V> {
    /// On the maps.
    OnMaps(Side, MapCommand<K, V>),
    /// On the sets.
    OnSets(Side, SetCommand<K>),
}

/// A command on the map that a side names and on the other one. `Command` says what each does.
#[derive(Drop)]
pub enum MapCommand<K, V> {
    Insert(K, V),
    Get(K),
    GetKeyValue(K),
    ContainsKey(K),
    Remove(K),
    Set(K, V),
    Entry(K, V, V),
    RemoveEntry(K),
    Len,
    Clear,
    Walk(Bound<K>, Bound<K>, Items<End>),
    Write(Bound<K>, Bound<K>, Items<(End, V)>),
    Append,
    SplitOff(K),
    TryClone,
    Extend(Items<(K, V)>),
    InsertBoth(K, V, K, V),
}

/// A command on the set that a side names and on the other one. `Command` says what each does.
#[derive(Drop)]
pub enum SetCommand<K> {
    AddItem(K),
    ReplaceItem(K),
    TakeItem(K),
    RemoveItem(K),
    ContainsItem(K),
    GetItem(K),
    SetLen,
    SetClear,
    SetAppend,
    SetSplitOff(K),
    SetClone,
    SetExtend(Items<K>),
    SetWalk(Bound<K>, Bound<K>, Items<End>),
    List(SetOp),
    Keep(SetOp),
    IsDisjoint,
    IsSubset,
    IsSuperset,
    SetCmp,
}

impl<K, V> Kind<K, V> {
    /// The command, parted into its side and the rest. One line for each command: the list is as long as that of the commands.
    #[inline(always)]
    pub fn of(command: Command<K, V>) -> Kind<K, V>
        ensures { result ≡ kind_of command }
    {
        match command {
            Command::Insert(side, k, v) => Kind::OnMaps(side, MapCommand::Insert(k, v)),
            Command::Get(side, k) => Kind::OnMaps(side, MapCommand::Get(k)),
            Command::GetKeyValue(side, k) => Kind::OnMaps(side, MapCommand::GetKeyValue(k)),
            Command::ContainsKey(side, k) => Kind::OnMaps(side, MapCommand::ContainsKey(k)),
            Command::Remove(side, k) => Kind::OnMaps(side, MapCommand::Remove(k)),
            Command::Set(side, k, v) => Kind::OnMaps(side, MapCommand::Set(k, v)),
            Command::Entry(side, k, v, w) => Kind::OnMaps(side, MapCommand::Entry(k, v, w)),
            Command::RemoveEntry(side, k) => Kind::OnMaps(side, MapCommand::RemoveEntry(k)),
            Command::Len(side) => Kind::OnMaps(side, MapCommand::Len),
            Command::Clear(side) => Kind::OnMaps(side, MapCommand::Clear),
            Command::Walk(side, lo, hi, s) => Kind::OnMaps(side, MapCommand::Walk(lo, hi, s)),
            Command::Write(side, lo, hi, s) => Kind::OnMaps(side, MapCommand::Write(lo, hi, s)),
            Command::Append(side) => Kind::OnMaps(side, MapCommand::Append),
            Command::SplitOff(side, k) => Kind::OnMaps(side, MapCommand::SplitOff(k)),
            Command::TryClone(side) => Kind::OnMaps(side, MapCommand::TryClone),
            Command::Extend(side, pairs) => Kind::OnMaps(side, MapCommand::Extend(pairs)),
            Command::InsertBoth(k, v, l, w) => {
                Kind::OnMaps(Side::First, MapCommand::InsertBoth(k, v, l, w))
            }
            Command::AddItem(side, k) => Kind::OnSets(side, SetCommand::AddItem(k)),
            Command::ReplaceItem(side, k) => Kind::OnSets(side, SetCommand::ReplaceItem(k)),
            Command::TakeItem(side, k) => Kind::OnSets(side, SetCommand::TakeItem(k)),
            Command::RemoveItem(side, k) => Kind::OnSets(side, SetCommand::RemoveItem(k)),
            Command::ContainsItem(side, k) => Kind::OnSets(side, SetCommand::ContainsItem(k)),
            Command::GetItem(side, k) => Kind::OnSets(side, SetCommand::GetItem(k)),
            Command::SetLen(side) => Kind::OnSets(side, SetCommand::SetLen),
            Command::SetClear(side) => Kind::OnSets(side, SetCommand::SetClear),
            Command::SetAppend(side) => Kind::OnSets(side, SetCommand::SetAppend),
            Command::SetSplitOff(side, k) => Kind::OnSets(side, SetCommand::SetSplitOff(k)),
            Command::SetClone(side) => Kind::OnSets(side, SetCommand::SetClone),
            Command::SetExtend(side, items) => Kind::OnSets(side, SetCommand::SetExtend(items)),
            Command::SetWalk(side, lo, hi, s) => Kind::OnSets(side, SetCommand::SetWalk(lo, hi, s)),
            Command::List(op, side) => Kind::OnSets(side, SetCommand::List(op)),
            Command::Keep(op, side) => Kind::OnSets(side, SetCommand::Keep(op)),
            Command::IsDisjoint(side) => Kind::OnSets(side, SetCommand::IsDisjoint),
            Command::IsSubset(side) => Kind::OnSets(side, SetCommand::IsSubset),
            Command::IsSuperset(side) => Kind::OnSets(side, SetCommand::IsSuperset),
            Command::SetCmp(side) => Kind::OnSets(side, SetCommand::SetCmp),
        }
    }
}
