//! Items that count their drops.
use crate::calls::holds;
use crate::copies::repeated;
use fc_base::TryReserveError;
use fc_vec::{FallibleVec, TryCollect, TryVec};
use std::alloc::Global;
use std::test::Fail;
use test_values::{Tally, Token, is_ample};

fn three<'a>(alloc: Global, tally: &'a Tally) -> Result<TryVec<Token<'a>>, TryReserveError> {
    let mut made = TryVec::new(alloc);
    for _ in 0..3 {
        made.push(Token::new(7, tally))?;
    }
    Ok(made)
}

#[test]
fn each_item_is_dropped_once(rt: HostRuntime) -> Result<(), Fail> {
    let tally = Tally::new();
    let mut v = three(rt.alloc(), &tally)?;
    let at_first = tally.dropped.get();
    drop(v.pop());
    let popped = tally.dropped.get();
    let left = v.len() as u64;
    v.clear();
    let cleared = tally.dropped.get();
    let none = v.len() as u64;
    drop(v);
    assert!(rt;
        holds(
            &[at_first, popped, left, cleared, none, tally.dropped.get()],
            &[0, 1, 2, 3, 0, 3]
        )
    );
    Ok(())
}

fn joined<'a>(
    ours: &mut TryVec<Token<'a>>,
    theirs: &mut TryVec<Token<'a>>,
) -> Result<(), TryReserveError> {
    ours.append(theirs)
}

#[test]
fn an_appended_item_is_dropped_by_its_new_owner(rt: HostRuntime) -> Result<(), Fail> {
    let tally = Tally::new();
    let mut ours = three(rt.alloc(), &tally)?;
    let mut theirs = three(rt.alloc(), &tally)?;
    let answer = joined(&mut ours, &mut theirs);
    drop(theirs);
    let kept = tally.dropped.get();
    let length = ours.len() as u64;
    drop(ours);
    assert!(rt; answer.is_ok() && holds(&[kept, length, tally.dropped.get()], &[0, 6, 6]));
    Ok(())
}

#[test]
fn a_walk_that_is_dropped_early_drops_the_rest(rt: HostRuntime) -> Result<(), Fail> {
    let tally = Tally::new();
    let mut walk = three(rt.alloc(), &tally)?.into_iter();
    drop(walk.next());
    let first = tally.dropped.get();
    drop(walk);
    assert!(rt; first == 1 && tally.dropped.get() == 3);
    Ok(())
}

fn resized<'a>(v: &mut TryVec<Token<'a>>, length: usize, tally: &'a Tally) -> bool {
    v.resize_with(length, || Token::new(7, tally)).is_ok()
}

// What a resize to a lower length cuts off, the value of one that copies, and what a refused one would have put in.
#[test]
fn a_resize_drops_what_it_leaves_out(rt: HostRuntime) -> Result<(), Fail> {
    let tally = Tally::new();
    let mut v = three(rt.alloc(), &tally)?;
    let is_cut = resized(&mut v, 2, &tally);
    let after_cut = tally.dropped.get();
    let two = v.len() as u64;
    let is_grown = resized(&mut v, 4, &tally);
    let after_growth = tally.dropped.get();
    let four = v.len() as u64;
    let is_too_long = resized(&mut v, usize::MAX, &tally);
    let after_refusal = tally.dropped.get();
    let still_four = v.len() as u64;
    drop(v);
    assert!(rt; is_cut && is_grown && !is_too_long);
    assert!(rt; holds(&[after_cut, two, after_growth, four], &[1, 2, 1, 4]));
    assert!(rt;
        holds(
            &[after_refusal, still_four, tally.dropped.get()],
            &[1, 4, 5]
        )
    );
    Ok(())
}

// How often items are dropped of a vector of three that is made with so many copies to be had, and whether it is made.
fn drops_of_three(alloc: Global, given: u64) -> (bool, u64) {
    let tally = Tally::of_copies(given, TryReserveError::CapacityOverflow);
    let made = repeated(alloc, Token::new(7, &tally), 3);
    let is_made = made.is_ok();
    drop(made);
    (is_made, tally.dropped.get())
}

// Each copy is dropped once, also where it was made for a vector that was then refused.
#[test]
fn a_copy_is_dropped_once(rt: HostRuntime) {
    for given in 0..4u64 {
        let (is_made, drops) = drops_of_three(rt.alloc(), given);
        assert!(rt; is_made == (given >= 2));
        assert!(rt; drops == if given < 2 { given + 1 } else { 3 });
    }
}

fn resized_to<'a>(v: &mut Vec<Token<'a>>, length: usize, value: Token<'a>) -> bool {
    v.try_resize_no_copy(length, value).is_ok()
}

// The value of a resize is dropped where the room is refused, and where the length is no greater, with what is cut off; so is an element that is
// repeated no time.
#[test]
fn a_value_that_is_not_put_in_is_dropped(rt: HostRuntime) -> Result<(), Fail> {
    let tally = Tally::of_copies(0, TryReserveError::CapacityOverflow);
    let mut one = repeated(rt.alloc(), Token::new(7, &tally), 1)?;
    let is_too_long = resized_to(&mut one, usize::MAX, Token::new(7, &tally));
    let after_refusal = tally.dropped.get();
    let is_cut = resized_to(&mut one, 0, Token::new(7, &tally));
    let after_cut = tally.dropped.get();
    let none = repeated(rt.alloc(), Token::new(7, &tally), 0)?;
    assert!(rt; !is_too_long && is_cut && one.is_empty() && none.is_empty());
    assert!(rt; holds(&[after_refusal, after_cut, tally.dropped.get()], &[1, 3, 4]));
    Ok(())
}

fn collected<'a>(
    items: TryVec<Token<'a>>,
    alloc: Global,
) -> Result<Vec<Token<'a>>, TryReserveError> {
    TryCollect::try_collect(items, alloc)
}

// Once more where they are refused, which drops those that were made by then.
fn three_at_last<'a>(
    alloc: Global,
    tally: &'a Tally,
) -> Result<TryVec<Token<'a>>, TryReserveError> {
    match three(alloc, tally) {
        Ok(made) => Ok(made),
        Err(_refused) => {
            tally.forget();
            three(alloc, tally)
        }
    }
}

// The sweep refuses the requests in turn: the items that were put in are dropped then, the one that found no room, and those that were still to come.
#[test]
fn each_collected_item_is_dropped_once(rt: HostRuntime) {
    let tally = Tally::new();
    let Ok(items) = three_at_last(rt.alloc(), &tally) else {
        assert!(rt; !is_ample(rt.alloc()));
        return;
    };
    let answer = collected(items, rt.alloc());
    let length = match &answer {
        Ok(made) => made.len(),
        Err(_refused) => 0,
    };
    let dropped = tally.dropped.get();
    drop(answer);
    assert!(rt; (length as u64).wrapping_add(dropped) == 3 && tally.dropped.get() == 3);
}

fn pushed<'a>(v: &mut Vec<Token<'a>>, tally: &'a Tally) -> bool {
    v.try_push(Token::new(7, tally)).is_ok()
}

// The sweep refuses the request: the item is then dropped.
#[test]
fn an_item_that_finds_no_room(rt: HostRuntime) {
    let tally = Tally::new();
    let mut v = Vec::new(rt.alloc());
    let is_pushed = pushed(&mut v, &tally);
    let dropped = tally.dropped.get();
    let length = v.len() as u64;
    drop(v);
    assert!(rt;
        if is_pushed {
            dropped == 0 && length == 1
        } else {
            dropped == 1 && length == 0
        }
    );
    assert!(rt; tally.dropped.get() == 1);
}

// How many items are dropped while the item is there that found no room, if it did not.
fn given_back<'a>(v: &mut Vec<Token<'a>>, tally: &'a Tally) -> Option<u64> {
    match v.try_push_give_back(Token::new(7, tally)) {
        Ok(()) => None,
        Err((_token, _refused)) => Some(tally.dropped.get()),
    }
}

// The sweep refuses the request: the item is then given back.
#[test]
fn an_item_that_is_given_back(rt: HostRuntime) {
    let tally = Tally::new();
    let mut v = Vec::new(rt.alloc());
    let dropped = given_back(&mut v, &tally).unwrap_or(0);
    let length = v.len() as u64;
    let dropped_by_then = tally.dropped.get();
    drop(v);
    assert!(rt;
        dropped == 0 && length.wrapping_add(dropped_by_then) == 1 && tally.dropped.get() == 1
    );
}
