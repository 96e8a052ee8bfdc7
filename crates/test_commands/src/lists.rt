//! Lists of commands, and commands that no line asks for.
use crate::worlds::{Kind, counts, has_value, holds, is_len, puts, puts_all, step};
use fc_base::TryReserveError;
use fc_command::command::{Command, Items, Reply, Side, World};
use fc_lines::lines::command_in;
use fc_lines::replies::write_reply;
use std::alloc::{AllocError, Global};
use std::ops::Bound;
use std::test::Fail;
use test_values::is_ample;

const SIX: [&[u8]; 6] = [
    b"insert a 37 1",
    b"insert a 037 2",
    b"get a 37",
    b"len a",
    b"remove a 37",
    b"get b 1",
];

const SIX_REPLIES: &[u8] = b"none\nsome 1\nsome 2\n1\nsome 2\nnone\n";

/// All tests run lists by this call.
pub(crate) fn run(
    world: &mut World<u64, u64>,
    commands: Vec<Command<u64, u64>>,
) -> Result<Vec<Reply<u64, u64>>, TryReserveError> {
    world.run(commands)
}

fn command_of(alloc: Global, line: &[u8]) -> Option<Command<u64, u64>> {
    command_in(alloc, line).unwrap_or(None)
}

// The commands of the lines, in order.
fn commands_of(alloc: Global, lines: &[&[u8]]) -> Result<Vec<Command<u64, u64>>, AllocError> {
    let mut commands = Vec::with_capacity(alloc, lines.len())?;
    for line in lines {
        if let Some(command) = command_of(alloc, *line) {
            commands.push(command)?;
        }
    }
    Ok(commands)
}

fn is_written(text: &mut Vec<u8>, reply: &Reply<u64, u64>) -> bool {
    write_reply(text, reply).is_ok()
}

// Whether these are the replies, a line for each.
fn are_written(alloc: Global, replies: &[Reply<u64, u64>], wanted: &[u8]) -> bool {
    let mut text = Vec::new(alloc);
    for reply in replies {
        if !is_written(&mut text, reply) {
            return false;
        }
    }
    text.as_slice() == wanted
}

#[test]
fn a_list_of_commands_runs(rt: HostRuntime) -> Result<(), Fail> {
    let commands = commands_of(rt.alloc(), &SIX)?;
    let mut world = World::new(rt.alloc());
    let replies = run(&mut world, commands)?;
    assert!(rt; are_written(rt.alloc(), &replies, SIX_REPLIES));
    assert!(rt; holds(&mut world, Kind::Maps, &[], &[]));
    Ok(())
}

#[test]
fn a_run_of_no_commands_answers_no_reply(rt: HostRuntime) -> Result<(), Fail> {
    let mut world = World::new(rt.alloc());
    let replies = run(&mut world, Vec::new(rt.alloc()))?;
    assert!(rt; replies.is_empty());
    Ok(())
}

fn tells(alloc: Global, reply: Reply<u64, u64>, wanted: &[u8]) -> bool {
    let mut text = Vec::new(alloc);
    is_written(&mut text, &reply) && text.as_slice() == wanted
}

#[test]
fn a_reply_tells_what_came_back(rt: HostRuntime) {
    let (refused, full) = (
        TryReserveError::AllocError,
        TryReserveError::CapacityOverflow,
    );
    assert!(rt;
        tells(
            rt.alloc(),
            Reply::GivenBack(1, 2, refused),
            b"refused alloc 1 2\n"
        )
    );
    assert!(rt;
        tells(
            rt.alloc(),
            Reply::GivenBack(30, 0, full),
            b"refused overflow 30 0\n"
        )
    );
    assert!(rt;
        tells(
            rt.alloc(),
            Reply::ItemGivenBack(4, refused),
            b"refused alloc 4\n"
        )
    );
    assert!(rt;
        tells(
            rt.alloc(),
            Reply::ItemGivenBack(50, full),
            b"refused overflow 50\n"
        )
    );
}

#[test]
fn a_reply_tells_what_was_in_both_maps(rt: HostRuntime) {
    let (refused, full) = (
        TryReserveError::AllocError,
        TryReserveError::CapacityOverflow,
    );
    assert!(rt; tells(rt.alloc(), Reply::Both(Some(1), Some(2)), b"both 1 2\n"));
    assert!(rt; tells(rt.alloc(), Reply::Both(Some(30), None), b"both 30 -\n"));
    assert!(rt; tells(rt.alloc(), Reply::Both(None, Some(0)), b"both - 0\n"));
    assert!(rt;
        tells(
            rt.alloc(),
            Reply::BothGivenBack(1, 2, 5, 9, refused),
            b"refused alloc 1 2 5 9\n"
        )
    );
    assert!(rt;
        tells(
            rt.alloc(),
            Reply::BothGivenBack(1, 20, 5, 0, full),
            b"refused overflow 1 20 5 0\n"
        )
    );
}

const INSERT_AND_COUNT: [&[u8]; 2] = [b"insert a 1 1", b"len a"];

fn is_handed_back(reply: &Reply<u64, u64>) -> bool {
    matches!(reply, Reply::GivenBack(1, 1, TryReserveError::AllocError))
}

// Whether the insertion was done and one pair is there, or it was refused and none is, and its pair came back.
fn are_replies_of(replies: &[Reply<u64, u64>], len: usize) -> bool {
    match replies {
        [inserted, counted] => {
            is_len(counted, len)
                && (if len == 0 {
                    is_handed_back(inserted)
                } else {
                    matches!(inserted, Reply::Value(None))
                })
        }
        _ => false,
    }
}

// The commands, once more where their room was refused.
fn insert_and_count(alloc: Global) -> Result<Vec<Command<u64, u64>>, AllocError> {
    match commands_of(alloc, &INSERT_AND_COUNT) {
        Ok(commands) => Ok(commands),
        Err(_refused) => commands_of(alloc, &INSERT_AND_COUNT),
    }
}

// What became of a run of the commands.
#[derive(Clone, Copy)]
enum Ran {
    // There was no memory for the commands, or none for the replies.
    Not,
    // The insertion was refused.
    WithoutPair,
    Whole,
    Wrong,
}

// Where nothing was inserted, the map is still empty.
fn run_two(alloc: Global, world: &mut World<u64, u64>) -> Ran {
    let Ok(commands) = insert_and_count(alloc) else {
        return Ran::Not;
    };
    let answer = run(world, commands);
    let is_empty = counts(world, Kind::Maps, Side::First, 0);
    match answer {
        Err(TryReserveError::AllocError) if is_empty => Ran::Not,
        Ok(replies) if is_empty && are_replies_of(&replies, 0) => Ran::WithoutPair,
        Ok(replies) if !is_empty && are_replies_of(&replies, 1) => Ran::Whole,
        _ => Ran::Wrong,
    }
}

// The sweep refuses the room for the replies, then each of the two requests for the pair's room, and at last nothing. It counts the runs that were refused as
// a whole: one, as only the first request is for the replies. The same run once more is whole where there is memory.
#[test]
fn a_refused_run_changes_nothing(rt: HostRuntime) -> Result<(), Fail> {
    let mut world = World::new(rt.alloc());
    let ran = run_two(rt.alloc(), &mut world);
    if matches!(ran, Ran::Not) && is_ample(rt.alloc()) {
        println!(rt; "refused")?;
    }
    assert!(rt; !matches!(ran, Ran::Wrong));
    if !matches!(ran, Ran::Whole) {
        let again = run_two(rt.alloc(), &mut world);
        assert!(rt;
            matches!(again, Ran::Whole) == is_ample(rt.alloc()) && !matches!(again, Ran::Wrong)
        );
    }
    Ok(())
}

// Whether an extension by nothing is done, and the numbers are still there and no other.
fn is_extended_by_nothing(alloc: Global, kind: Kind, command: Command<u64, u64>) -> bool {
    let mut world = World::new(alloc);
    puts_all(&mut world, kind, Side::First, &[1, 2])
        && puts(&mut world, kind, Side::Second, 9)
        && matches!(step(&mut world, command), Reply::Done)
        && holds(&mut world, kind, &[1, 2], &[9])
}

#[test]
fn an_extension_by_nothing_is_done(rt: HostRuntime) {
    let no_pairs = Command::Extend(Side::First, Items::from(Vec::new(rt.alloc())));
    assert!(rt; is_extended_by_nothing(rt.alloc(), Kind::Maps, no_pairs));
    let no_items = Command::SetExtend(Side::Second, Items::from(Vec::new(rt.alloc())));
    assert!(rt; is_extended_by_nothing(rt.alloc(), Kind::Sets, no_items));
}

fn is_empty_list(reply: &Reply<u64, u64>) -> bool {
    match reply {
        Reply::Pairs(steps) => steps.as_slice().is_empty(),
        _ => false,
    }
}

#[test]
fn a_walk_of_no_steps_gives_nothing(rt: HostRuntime) {
    let mut world = World::new(rt.alloc());
    let walk = Command::Walk(
        Side::First,
        Bound::Unbounded,
        Bound::Unbounded,
        Items::from(Vec::new(rt.alloc())),
    );
    assert!(rt; is_empty_list(&step(&mut world, walk)));
}

fn inserts(world: &mut World<u64, u64>, key: u64) -> bool {
    matches!(
        step(world, Command::Insert(Side::Second, key, key)),
        Reply::Value(None)
    )
}

fn inserts_each(world: &mut World<u64, u64>) -> bool {
    for key in 0..500u64 {
        if !inserts(world, key) {
            return false;
        }
    }
    true
}

// Five hundred pairs stand on three levels: each new key is put in, and found.
#[test]
fn a_world_of_three_levels_refuses_no_new_key(rt: HostRuntime) {
    let mut world = World::new(rt.alloc());
    assert!(rt; inserts_each(&mut world));
    for key in 0..500u64 {
        assert!(rt; has_value(&mut world, Kind::Maps, Side::Second, key, key));
    }
}

#[test]
fn a_list_is_made_of_a_vector_and_back(rt: HostRuntime) -> Result<(), Fail> {
    let items = Items::from(vec![in rt.alloc(); 3u64, 1, 3]?);
    assert!(rt; items.as_slice() == [3, 1, 3].as_slice());
    assert!(rt; items.into_vec().as_slice() == [3, 1, 3].as_slice());
    Ok(())
}
