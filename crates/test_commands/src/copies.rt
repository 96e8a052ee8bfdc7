//! Commands over keys and values of the tests' own, whose copies are refused by the key or by the value itself.
use fc_base::TryReserveError;
use fc_command::command::{Command, End, Items, Reply, SetOp, Side, World};
use std::alloc::{AllocError, Global};
use std::ops::Bound;
use std::test::Fail;
use test_values::Stubborn;

type Stubborns = World<Stubborn, Stubborn>;

type StubbornReply = Reply<Stubborn, Stubborn>;

fn step(world: &mut Stubborns, command: Command<Stubborn, Stubborn>) -> StubbornReply {
    world.step(command)
}

fn stubborn(number: u64, refusal: Option<TryReserveError>) -> Stubborn {
    Stubborn { number, refusal }
}

fn is_refused_by(reply: &StubbornReply, error: TryReserveError) -> bool {
    match reply {
        Reply::Refused(refusal) => *refusal == error,
        _ => false,
    }
}

fn is_none(reply: &StubbornReply) -> bool {
    matches!(reply, Reply::Value(None))
}

fn is_new(reply: &StubbornReply) -> bool {
    matches!(reply, Reply::Flag(true))
}

fn is_number(reply: &StubbornReply, number: u64) -> bool {
    match reply {
        Reply::Value(Some(found)) => found.number == number,
        _ => false,
    }
}

fn is_len(reply: &StubbornReply, wanted: usize) -> bool {
    matches!(reply, Reply::Len(len) if *len == wanted)
}

// So many steps from the front.
fn from_the_front(alloc: Global, steps: usize) -> Result<Items<End>, AllocError> {
    let mut ends = Vec::new(alloc);
    for _ in 0..steps {
        ends.push(End::Front)?;
    }
    Ok(Items::from(ends))
}

// A walk over a whole map.
fn walk(side: Side, ends: Items<End>) -> Command<Stubborn, Stubborn> {
    Command::Walk(side, Bound::Unbounded, Bound::Unbounded, ends)
}

// A walk over a whole set.
fn walk_items(side: Side, ends: Items<End>) -> Command<Stubborn, Stubborn> {
    Command::SetWalk(side, Bound::Unbounded, Bound::Unbounded, ends)
}

// Whether a pair is put in, of which no copy is to be had without that error.
fn refuses_copies(
    alloc: Global,
    world: &mut Stubborns,
    at: Stubborn,
    error: TryReserveError,
) -> bool {
    let Ok(one_step) = from_the_front(alloc, 1) else {
        return false;
    };
    is_refused_by(&step(world, Command::GetKeyValue(Side::First, at)), error)
        && is_refused_by(&step(world, walk(Side::First, one_step)), error)
        && is_refused_by(&step(world, Command::TryClone(Side::First)), error)
        && is_len(&step(world, Command::Len(Side::First)), 1)
}

#[test]
fn a_values_own_refusal_is_the_reply(rt: HostRuntime) {
    for error in [
        TryReserveError::AllocError,
        TryReserveError::CapacityOverflow,
    ] {
        let mut world = World::new(rt.alloc());
        let at = stubborn(1, None);
        let inserted = step(
            &mut world,
            Command::Insert(Side::First, at, stubborn(7, Some(error))),
        );
        assert!(rt; is_none(&inserted));
        assert!(rt; is_refused_by(&step(&mut world, Command::Get(Side::First, at)), error));
        assert!(rt; refuses_copies(rt.alloc(), &mut world, at, error));
    }
}

// Whether the value of a key whose copy is refused is answered, and each copy of the pair is refused by that error.
fn refuses_pairs_of(alloc: Global, number: u64, error: TryReserveError) -> bool {
    let at = stubborn(number, Some(error));
    let mut world = World::new(alloc);
    is_none(&step(
        &mut world,
        Command::Insert(Side::First, at, stubborn(5, None)),
    )) && is_number(&step(&mut world, Command::Get(Side::First, at)), 5)
        && refuses_copies(alloc, &mut world, at, error)
}

#[test]
fn a_keys_own_refusal_is_the_reply(rt: HostRuntime) {
    assert!(rt; refuses_pairs_of(rt.alloc(), 1, TryReserveError::CapacityOverflow));
    assert!(rt; refuses_pairs_of(rt.alloc(), 2, TryReserveError::AllocError));
}

// Whether each command that copies the one item of a set is refused by that error.
fn refuses_items_of(alloc: Global, number: u64, error: TryReserveError) -> bool {
    let item = stubborn(number, Some(error));
    let mut world = World::new(alloc);
    let Ok(one_step) = from_the_front(alloc, 1) else {
        return false;
    };
    let list = Command::List(SetOp::Union, Side::First);
    let keep = Command::Keep(SetOp::Difference, Side::First);
    is_new(&step(&mut world, Command::AddItem(Side::First, item)))
        && is_refused_by(
            &step(&mut world, Command::GetItem(Side::First, item)),
            error,
        )
        && is_refused_by(&step(&mut world, walk_items(Side::First, one_step)), error)
        && is_refused_by(&step(&mut world, list), error)
        && is_refused_by(&step(&mut world, keep), error)
        && is_refused_by(&step(&mut world, Command::SetClone(Side::First)), error)
        && is_len(&step(&mut world, Command::SetLen(Side::First)), 1)
}

#[test]
fn an_items_own_refusal_is_the_reply(rt: HostRuntime) {
    assert!(rt; refuses_items_of(rt.alloc(), 1, TryReserveError::CapacityOverflow));
    assert!(rt; refuses_items_of(rt.alloc(), 2, TryReserveError::AllocError));
}

// Writes after the key 0 up to the key 1, from both ends.
fn write_from_both_ends(alloc: Global) -> Result<Command<Stubborn, Stubborn>, AllocError> {
    let mut writes = Vec::new(alloc);
    writes.push((End::Back, stubborn(8, None)))?;
    writes.push((End::Front, stubborn(9, None)))?;
    Ok(Command::Write(
        Side::Second,
        Bound::Excluded(stubborn(0, None)),
        Bound::Included(stubborn(1, None)),
        Items::from(writes),
    ))
}

// Whether a walk of two steps gave the key 1 with the value 8, and then nothing.
fn is_one_pair(reply: &StubbornReply) -> bool {
    match reply {
        Reply::Pairs(steps) => match steps.as_slice() {
            [Some((at, found)), None] => at.number == 1 && found.number == 8,
            _ => false,
        },
        _ => false,
    }
}

#[test]
fn one_command_at_a_time_over_any_keys(rt: HostRuntime) -> Result<(), Fail> {
    let mut world = World::new(rt.alloc());
    let at = stubborn(1, None);
    let insert = Command::Insert(Side::Second, at, stubborn(7, None));
    let write = write_from_both_ends(rt.alloc())?;
    let two_steps = from_the_front(rt.alloc(), 2)?;
    assert!(rt; is_none(&step(&mut world, insert)));
    assert!(rt; is_len(&step(&mut world, Command::Len(Side::Second)), 1));
    assert!(rt; is_none(&step(&mut world, Command::Get(Side::First, at))));
    assert!(rt; is_number(&step(&mut world, Command::Get(Side::Second, at)), 7));
    assert!(rt; is_len(&step(&mut world, write), 1));
    assert!(rt; is_one_pair(&step(&mut world, walk(Side::Second, two_steps))));
    Ok(())
}
