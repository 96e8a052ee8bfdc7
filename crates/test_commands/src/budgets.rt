//! A world whose maps and sets stand in one budget: what passes it is refused by the reply, and what is given up serves another of them. In budgets of many sizes
//! it is stepped beside a world that takes its memory elsewhere: each reply is the same, or a refusal that changes nothing.
use crate::serving::{in_pieces, served, wide};
use crate::worlds;
use fc_base::TryReserveError;
use fc_budget::Budget;
use fc_command::command::{Command, End, Items, Reply, ServeEnd, SetOp, Side, World, serve_within};
use fc_lines::replies::write_reply;
use std::alloc::{AllocError, Global};
use std::ops::Bound;
use std::test::Fail;

// The bytes of a leaf of a map of numbers, and of a set.
const LEAF: usize = 240;

const SET_LEAF: usize = 120;

// The bytes of a list of 16 children, each with the two handles on the budget that its lists keep.
const CHILDREN: usize = 16 * 56;

type Narrow<'a> = World<u64, u64, &'a Budget<Global>>;

fn step(world: &mut Narrow<'_>, command: Command<u64, u64>) -> Reply<u64, u64> {
    world.step(command)
}

// Whether the number goes into the map with itself.
fn goes_in(world: &mut Narrow<'_>, side: Side, number: u64) -> bool {
    matches!(
        step(world, Command::Insert(side, number, number)),
        Reply::Value(None)
    )
}

fn is_handed_back(world: &mut Narrow<'_>, side: Side, number: u64) -> bool {
    match step(world, Command::Insert(side, number, number)) {
        Reply::GivenBack(key, value, TryReserveError::AllocError) => {
            key == number && value == number
        }
        _ => false,
    }
}

fn goes_into_set(world: &mut Narrow<'_>, side: Side, number: u64) -> bool {
    matches!(
        step(world, Command::AddItem(side, number)),
        Reply::Flag(true)
    )
}

fn is_cleared(world: &mut Narrow<'_>, side: Side) -> bool {
    matches!(step(world, Command::Clear(side)), Reply::Done)
}

#[test]
fn maps_and_sets_of_a_world_share_a_budget(rt: HostRuntime) {
    let budget = Budget::new(rt.alloc(), LEAF + SET_LEAF);
    let mut world = World::within(rt.alloc(), &budget);
    let first = goes_in(&mut world, Side::First, 1) && goes_into_set(&mut world, Side::First, 1);
    let is_full = budget.left() == 0;
    let second = is_handed_back(&mut world, Side::Second, 2);
    let third = is_cleared(&mut world, Side::First) && goes_in(&mut world, Side::Second, 2);
    drop(world);
    assert!(rt; first && is_full && second && third);
    assert!(rt; budget.used() == 0);
}

// How many of the items from 1 to 16 go into a set, in so many bytes.
fn items_within(alloc: Global, bytes: usize) -> usize {
    let budget = Budget::new(alloc, bytes);
    let mut world = World::within(alloc, &budget);
    let mut count: usize = 0;
    for item in 1..=16u64 {
        let fits = goes_into_set(&mut world, Side::Second, item);
        count = count.wrapping_add(usize::from(fits));
    }
    count
}

// The first item takes a leaf, and the sixteenth another one and a root above both.
#[test]
fn a_set_takes_the_bytes_of_its_nodes(rt: HostRuntime) {
    let root = 3 * SET_LEAF + CHILDREN;
    assert!(rt; items_within(rt.alloc(), SET_LEAF - 1) == 0);
    assert!(rt; items_within(rt.alloc(), SET_LEAF) == 15);
    assert!(rt; items_within(rt.alloc(), root - 1) == 15);
    assert!(rt; items_within(rt.alloc(), root) == 16);
}

const KEYS: u64 = 60;

// A number of 31 bits that looks as if it were drawn, for each turn another one.
fn scrambled(turn: u64) -> u64 {
    let mixed = turn.wrapping_mul(0x9e37_79b9_7f4a_7c15);
    (mixed ^ (mixed >> 29)).wrapping_mul(0xbf58_476d_1ce4_e5b9) >> 33
}

fn on_one_key(kind: u64, side: Side, key: u64, value: u64) -> Command<u64, u64> {
    match kind % 14 {
        0 | 1 | 2 | 3 => Command::Insert(side, key, value),
        4 => Command::Entry(side, key, 7, value),
        5 => Command::InsertBoth(key, value, value % KEYS, key),
        6 | 7 | 8 | 9 => Command::AddItem(side, key),
        10 => Command::ReplaceItem(side, key),
        11 => Command::Remove(side, key),
        12 => Command::TakeItem(side, key),
        _ => Command::Get(side, key),
    }
}

fn on_all(kind: u64, side: Side, key: u64) -> Command<u64, u64> {
    match kind % 12 {
        0 => Command::Append(side),
        1 => Command::SplitOff(side, key),
        2 => Command::TryClone(side),
        3 => Command::Len(side),
        4 => Command::SetAppend(side),
        5 => Command::SetSplitOff(side, key),
        6 => Command::SetClone(side),
        7 => Command::Keep(SetOp::Union, side),
        8 => Command::Keep(SetOp::Difference, side),
        9 => Command::Keep(SetOp::Intersection, side),
        10 => Command::Keep(SetOp::SymmetricDifference, side),
        _ => Command::List(SetOp::Union, side),
    }
}

// The command of a turn: one of ten is on whole maps or sets.
fn command(turn: u64) -> Command<u64, u64> {
    let number = scrambled(turn);
    let side = if number % 2 == 0 {
        Side::First
    } else {
        Side::Second
    };
    let (key, kind) = (number / 2 % KEYS, number / 256);
    if turn % 10 == 9 {
        on_all(kind, side, key)
    } else {
        on_one_key(kind, side, key, turn)
    }
}

// What a refusal of the command answers; nothing, where it takes no memory of maps and sets.
fn refusal_of(command: &Command<u64, u64>) -> Option<Reply<u64, u64>> {
    let refused = TryReserveError::AllocError;
    match command {
        Command::Insert(_, k, v) => Some(Reply::GivenBack(*k, *v, refused)),
        Command::Entry(_, k, _, v) => Some(Reply::GivenBack(*k, *v, refused)),
        Command::InsertBoth(k, v, l, w) => Some(Reply::BothGivenBack(*k, *v, *l, *w, refused)),
        Command::AddItem(_, k) => Some(Reply::ItemGivenBack(*k, refused)),
        Command::ReplaceItem(_, k) => Some(Reply::ItemGivenBack(*k, refused)),
        Command::Append(_) => Some(Reply::Refused(refused)),
        Command::SplitOff(_, _) => Some(Reply::Refused(refused)),
        Command::TryClone(_) => Some(Reply::Refused(refused)),
        Command::SetAppend(_) => Some(Reply::Refused(refused)),
        Command::SetSplitOff(_, _) => Some(Reply::Refused(refused)),
        Command::SetClone(_) => Some(Reply::Refused(refused)),
        Command::Keep(_, _) => Some(Reply::Refused(refused)),
        _ => None,
    }
}

fn text_of(alloc: Global, reply: &Reply<u64, u64>) -> Result<Vec<u8>, AllocError> {
    let mut text = Vec::new(alloc);
    write_reply(&mut text, reply)?;
    Ok(text)
}

fn is_told(alloc: Global, reply: &Reply<u64, u64>, told: &[u8]) -> Result<bool, AllocError> {
    Ok(text_of(alloc, reply)?.as_slice() == told)
}

// Whether the text is that of a refusal of the turn's command.
fn tells_refusal(alloc: Global, turn: u64, told: &[u8]) -> Result<bool, AllocError> {
    let refusal = refusal_of(&command(turn));
    match refusal {
        Some(refusal) => is_told(alloc, &refusal, told),
        None => Ok(false),
    }
}

// A walk over all of a map or a set, and a step more.
fn look(alloc: Global, place: usize) -> Result<Command<u64, u64>, AllocError> {
    let mut ends = Vec::new(alloc);
    for _ in 0..=KEYS {
        ends.push(End::Front)?;
    }
    let side = if place % 2 == 0 {
        Side::First
    } else {
        Side::Second
    };
    let (all, ends) = (Bound::Unbounded, Items::from(ends));
    Ok(if place < 2 {
        Command::Walk(side, all, Bound::Unbounded, ends)
    } else {
        Command::SetWalk(side, all, Bound::Unbounded, ends)
    })
}

// Whether both worlds have the same pairs and items.
fn are_alike(
    alloc: Global,
    narrow: &mut Narrow<'_>,
    ample: &mut World<u64, u64>,
) -> Result<bool, AllocError> {
    for place in 0..4usize {
        let told = text_of(alloc, &step(narrow, look(alloc, place)?))?;
        if !is_told(alloc, &worlds::step(ample, look(alloc, place)?), &told)? {
            return Ok(false);
        }
    }
    Ok(true)
}

// What became of a command on a world in a budget, beside one that is in none.
#[derive(Clone, Copy, PartialEq, Eq)]
enum Beside {
    Answered,
    Refused,
    Wrong,
}

// Runs the turn's command on the world in a budget, and on the other one where it is not refused. A refused one leaves the pairs, the items and the bytes that are out.
fn step_both(
    alloc: Global,
    budget: &Budget<Global>,
    narrow: &mut Narrow<'_>,
    ample: &mut World<u64, u64>,
    turn: u64,
) -> Result<Beside, AllocError> {
    let used = budget.used();
    let told = text_of(alloc, &step(narrow, command(turn)))?;
    let is_refused = tells_refusal(alloc, turn, &told)?;
    let is_right = if is_refused {
        budget.used() == used
    } else {
        is_told(alloc, &worlds::step(ample, command(turn)), &told)?
    };
    if !is_right || !are_alike(alloc, narrow, ample)? {
        return Ok(Beside::Wrong);
    }
    Ok(if is_refused {
        Beside::Refused
    } else {
        Beside::Answered
    })
}

const TURNS: u64 = 300;

// How many commands are refused in so many bytes; nothing, where one is answered wrongly or bytes stay out.
fn refusals_within(alloc: Global, bytes: usize) -> Result<Option<usize>, AllocError> {
    let budget = Budget::new(alloc, bytes);
    let mut narrow = World::within(alloc, &budget);
    let mut ample = World::new(alloc);
    let mut refusals: usize = 0;
    for turn in 0..TURNS {
        match step_both(alloc, &budget, &mut narrow, &mut ample, turn)? {
            Beside::Answered => (),
            Beside::Refused => refusals = refusals.wrapping_add(1),
            Beside::Wrong => return Ok(None),
        }
    }
    drop(narrow);
    Ok(if budget.used() == 0 {
        Some(refusals)
    } else {
        None
    })
}

// From no bytes on to so many that nothing is refused.
#[test]
fn commands_in_budgets_are_answered_or_change_nothing(rt: HostRuntime) -> Result<(), Fail> {
    for size in 0..40usize {
        let refusals = refusals_within(rt.alloc(), 400 * size)?;
        assert!(rt; refusals.is_some() && (size > 0 || refusals > Some(100)));
    }
    let refusals = refusals_within(rt.alloc(), usize::MAX)?;
    assert!(rt; refusals == Some(0));
    Ok(())
}

const LINES: &[u8] = b"insert a 1 10\ninsert b 2 20\nget a 1\nclear a\ninsert b 2 20\n";

const REPLIES: &[u8] = b"none\nrefused alloc 2 20\nsome 10\ndone\nnone\n";

// Whether the lines are served so in a budget of a leaf.
fn is_served(alloc: Global, budget: &Budget<Global>) -> bool {
    let mut src = in_pieces(LINES, 7);
    let mut out = wide(Vec::new(alloc));
    let end = serve_within(alloc, budget, &mut src, &mut out);
    matches!(end, Ok(ServeEnd::Finished)) && out.kept.as_slice() == REPLIES
}

#[test]
fn lines_are_served_within_a_budget(rt: HostRuntime) {
    let budget = Budget::new(rt.alloc(), LEAF);
    assert!(rt; is_served(rt.alloc(), &budget));
    assert!(rt; budget.used() == 0);
}

const MANY_LINES: &[u8] =
    b"extend a 1 2 2 3 3 4 4 5 5 6 6 7 7 8 8 9 9 1 10 2 11 3 12 4 13 5 14 6 15 7 16 8 17 9
extend s 31 29 27 25 23 21 19 17 15 13 11 9 7 5 3 1 2 4
copy a
copy s
append b
split a 9
insert b 40 1
entry a 41 1 2
entry a 41 1 2
both 42 1 43 2
pair b 43
get a 42
add t 32
replace t 33
keep sym t
keep union s
keep inter t
keep diff s
union s
walk a * * ffffffffffffffffffffffffffbb
write a * !9 f=1 b=2 f=3
evict a 4
remove b 40
set a 5 6
take t 33
drop t 32
find s 4
in s 31
len a
len b
len s
len t
cmp s
subset t
superset t
disjoint s
has a 4
clear b
extend b 1 1
walk s =4 * fffbbb
";

// Whether all of the lines are replied to in so many bytes, each with a line, and all bytes are back then; and what is written.
fn replies_within(alloc: Global, bytes: usize) -> Option<Vec<u8>> {
    let budget = Budget::new(alloc, bytes);
    let mut out = wide(Vec::new(alloc));
    let end = serve_within(alloc, &budget, &mut in_pieces(MANY_LINES, 64), &mut out);
    if matches!(end, Ok(ServeEnd::Finished)) && budget.used() == 0 {
        Some(out.kept)
    } else {
        None
    }
}

fn lines_in(text: &[u8]) -> usize {
    let mut count: usize = 0;
    for byte in text {
        count = count.wrapping_add(usize::from(*byte == b'\n'));
    }
    count
}

// Lines of each kind, also those that are refused in parts.
#[test]
fn each_line_is_replied_to_in_budgets_of_many_sizes(rt: HostRuntime) {
    for size in 0..100usize {
        let Some(replies) = replies_within(rt.alloc(), 120 * size) else {
            assert!(rt; false);
            return;
        };
        assert!(rt; lines_in(&replies) == lines_in(MANY_LINES));
    }
}

#[test]
fn in_an_ample_budget_lines_are_answered_as_in_none(rt: HostRuntime) {
    let mut out = wide(Vec::new(rt.alloc()));
    let end = served(rt.alloc(), &mut in_pieces(MANY_LINES, 64), &mut out);
    let Some(replies) = replies_within(rt.alloc(), usize::MAX) else {
        assert!(rt; false);
        return;
    };
    assert!(rt; matches!(end, Ok(ServeEnd::Finished)) && replies.as_slice() == out.kept.as_slice());
}
