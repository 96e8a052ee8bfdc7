//! Lists of commands that are made as values, and not of lines: each is run on a new world, and its replies are told with their kinds.
use crate::lists::run;
use fc_base::TryReserveError;
use fc_command::command::{Command, End, Items, Reply, SetOp, Side, World};
use fc_lines::replies::write_reply;
use std::alloc::{AllocError, Global};
use std::ops::Bound;
use std::test::Fail;

type Commands = Vec<Command<u64, u64>>;

// A reply's kind, which its line does not tell.
fn kind_of(reply: &Reply<u64, u64>) -> &'static str {
    match reply {
        Reply::Done => "Done ",
        Reply::Flag(_) => "Flag ",
        Reply::Len(_) => "Len ",
        Reply::Value(_) => "Value ",
        Reply::Key(_) => "Key ",
        Reply::Pair(_) => "Pair ",
        Reply::Pairs(_) => "Pairs ",
        Reply::Keys(_) => "Keys ",
        Reply::Order(_) => "Order ",
        Reply::BadRange => "BadRange ",
        _ => "? ",
    }
}

fn tell(text: &mut Vec<u8>, reply: &Reply<u64, u64>) -> Result<(), AllocError> {
    text.extend_from_slice(kind_of(reply).as_bytes())?;
    write_reply(text, reply)
}

// Whether the commands, run on a new world, are replied so: a line for each.
fn are_replied(alloc: Global, commands: Commands, wanted: &str) -> Result<bool, TryReserveError> {
    let mut world = World::new(alloc);
    let replies = run(&mut world, commands)?;
    let mut text = Vec::new(alloc);
    for reply in &replies {
        tell(&mut text, reply)?;
    }
    Ok(text.as_slice() == wanted.as_bytes())
}

// Three pairs, seen between two bounds from both ends, written at and cut in two.
fn on_a_map(alloc: Global) -> Result<Commands, AllocError> {
    let a = Side::First;
    let pairs = Items::from(vec![in alloc; (3, 1), (5, 2), (8, 3)]?);
    let ends = Items::from(vec![in alloc; End::Back, End::Front, End::Front, End::Back]?);
    let front = Items::from(vec![in alloc; End::Front]?);
    let nine = Items::from(vec![in alloc; (End::Front, 9)]?);
    Ok(vec![in alloc;
        Command::Extend(a, pairs),
        Command::Walk(a, Bound::Included(4), Bound::Included(8), ends),
        Command::Walk(a, Bound::Excluded(5), Bound::Excluded(5), front),
        Command::Write(a, Bound::Included(4), Bound::Unbounded, nine),
        Command::Get(a, 5),
        Command::SplitOff(a, 5),
        Command::Len(Side::Second),
    ]?)
}

const OF_A_MAP: &str = "Done done
Pairs list 8:3 5:2 - -
BadRange bad range
Len 1
Value some 9
Done done
Len 2
";

// One key's entry, twice.
fn on_an_entry(alloc: Global) -> Result<Commands, AllocError> {
    let a = Side::First;
    Ok(vec![in alloc;
        Command::Entry(a, 7, 43, 42),
        Command::Entry(a, 7, 43, 42),
        Command::Get(a, 7),
    ]?)
}

const OF_AN_ENTRY: &str = "Flag false\nFlag true\nValue some 43\n";

// Two sets that overlap, the first of which becomes their union.
fn on_sets(alloc: Global) -> Result<Commands, AllocError> {
    let (s, t) = (Side::First, Side::Second);
    let ends = vec![in alloc; End::Front, End::Front, End::Front, End::Front, End::Back]?;
    Ok(vec![in alloc;
        Command::SetExtend(s, Items::from(vec![in alloc; 1, 2, 3]?)),
        Command::SetExtend(t, Items::from(vec![in alloc; 2, 3, 4]?)),
        Command::List(SetOp::Intersection, s),
        Command::List(SetOp::SymmetricDifference, s),
        Command::Keep(SetOp::Union, s),
        Command::SetWalk(s, Bound::Unbounded, Bound::Unbounded, Items::from(ends)),
        Command::IsSubset(t),
        Command::SetCmp(s),
    ]?)
}

const OF_SETS: &str =
    "Done done\nDone done\nKeys list 2 3\nKeys list 1 4\nDone done\nKeys list 1 2 3 4 -\nFlag true\nOrder less\n";

// The calls on one key of a map that the lists above leave out: at a key that is there, and at one that is not.
fn on_one_key(alloc: Global) -> Result<Commands, AllocError> {
    let (a, b) = (Side::First, Side::Second);
    Ok(vec![in alloc;
        Command::Set(b, 5, 6),
        Command::Insert(b, 5, 6),
        Command::ContainsKey(b, 5),
        Command::ContainsKey(a, 5),
        Command::Set(b, 5, 7),
        Command::GetKeyValue(b, 5),
        Command::RemoveEntry(b, 5),
        Command::RemoveEntry(b, 5),
        Command::Remove(b, 5),
        Command::Clear(b),
    ]?)
}

const OF_ONE_KEY: &str =
    "Value none\nValue none\nFlag true\nFlag false\nValue some 6\nPair some 5 7\nPair some 5 7\nPair none\nValue none\nDone done\n";

// The calls on one item of a set, and those that ask how two sets stand to one another.
fn on_one_item(alloc: Global) -> Result<Commands, AllocError> {
    let (s, t) = (Side::First, Side::Second);
    Ok(vec![in alloc;
        Command::AddItem(t, 5),
        Command::ContainsItem(t, 5),
        Command::GetItem(t, 6),
        Command::IsDisjoint(s),
        Command::IsSuperset(t),
        Command::TakeItem(t, 5),
        Command::RemoveItem(t, 5),
        Command::SetClear(t),
        Command::SetLen(t),
    ]?)
}

const OF_ONE_ITEM: &str =
    "Flag true\nFlag true\nKey none\nFlag true\nFlag true\nKey some 5\nFlag false\nDone done\nLen 0\n";

#[test]
fn lists_of_commands_are_replied_in_kind(rt: HostRuntime) -> Result<(), Fail> {
    assert!(rt; are_replied(rt.alloc(), on_a_map(rt.alloc())?, OF_A_MAP)?);
    assert!(rt; are_replied(rt.alloc(), on_an_entry(rt.alloc())?, OF_AN_ENTRY)?);
    assert!(rt; are_replied(rt.alloc(), on_sets(rt.alloc())?, OF_SETS)?);
    assert!(rt; are_replied(rt.alloc(), on_one_key(rt.alloc())?, OF_ONE_KEY)?);
    assert!(rt; are_replied(rt.alloc(), on_one_item(rt.alloc())?, OF_ONE_ITEM)?);
    Ok(())
}
