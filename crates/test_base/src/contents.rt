//! Copies of options, boxes and vectors, made or refused.
use fc_base::{ByClone, TryClone, TryReserveError};
use std::alloc::Global;
use std::ops::Bound;
use std::rc::Rc;
use std::test::Fail;
use test_values::{Tally, Token};

#[test]
fn options_and_boxes_are_copied(rt: HostRuntime) -> Result<(), Fail> {
    assert!(rt; matches!(Some(5u64).try_clone(), Ok(Some(5))));
    let none: Option<u64> = None;
    assert!(rt; matches!(none.try_clone(), Ok(None)));
    let five = Box::new(rt.alloc(), 5u64)?;
    let copy = five.try_clone()?;
    assert!(rt; *five == 5 && *copy == 5);
    Ok(())
}

#[test]
fn vectors_are_copied(rt: HostRuntime) -> Result<(), Fail> {
    let empty: Vec<u64> = Vec::new(rt.alloc());
    assert!(rt; empty.try_clone()?.is_empty());
    let source = Vec::from_slice(rt.alloc(), &[1u64, 4, 5])?;
    let copy = source.try_clone()?;
    assert!(rt; copy.as_slice() == [1, 4, 5].as_slice());
    assert!(rt; source.as_slice() == [1, 4, 5].as_slice());
    Ok(())
}

// Whether copies of the two values come after the one that is there.
fn come_after<T: TryClone + Copy + PartialEq>(
    alloc: Global,
    there: T,
    sources: &[T],
) -> Result<bool, TryReserveError>
    requires { T.can_clone }
{
    let mut copies = Vec::with_capacity(alloc, 3)?;
    copies.push(there)?;
    if sources.len() > 2 {
        return Ok(false);
    }
    T::try_clone_all(sources, &mut copies)?;
    Ok(match copies.as_slice() {
        [first, rest @ ..] => *first == there && rest == sources,
        [] => false,
    })
}

#[test]
fn numbers_are_copied_at_once(rt: HostRuntime) -> Result<(), Fail> {
    assert!(rt; come_after(rt.alloc(), 5u8, &[6, 7])? && come_after(rt.alloc(), 5u16, &[6, 7])?);
    assert!(rt; come_after(rt.alloc(), 5u32, &[6, 7])? && come_after(rt.alloc(), 5u64, &[6, 7])?);
    assert!(rt; come_after(rt.alloc(), 5i8, &[-6, 7])? && come_after(rt.alloc(), 5i16, &[-6, 7])?);
    assert!(rt; come_after(rt.alloc(), 5i32, &[-6, 7])? && come_after(rt.alloc(), 5i64, &[-6, 7])?);
    assert!(rt;
        come_after(rt.alloc(), 5usize, &[6, 7])? && come_after(rt.alloc(), 5isize, &[-6, 7])?
    );
    assert!(rt;
        come_after(rt.alloc(), 5u128, &[6, 7])? && come_after(rt.alloc(), 5i128, &[-6, 7])?
    );
    assert!(rt; come_after::<char>(rt.alloc(), 'a', &['ß', 'c'])?);
    assert!(rt;
        come_after(rt.alloc(), true, &[false, true])? && come_after(rt.alloc(), (), &[(), ()])?
    );
    Ok(())
}

// Three tokens, with the numbers 1, 4 and 5.
fn three<'a>(alloc: Global, tally: &'a Tally) -> Result<Vec<Token<'a>>, TryReserveError> {
    let mut tokens = Vec::with_capacity(alloc, 3)?;
    for number in [1u64, 4, 5] {
        tokens.push(Token::new(number, tally))?;
    }
    Ok(tokens)
}

fn are_three(tokens: &Vec<Token<'_>>) -> bool {
    match tokens.as_slice() {
        [first, second, third] => first.number == 1 && second.number == 4 && third.number == 5,
        _ => false,
    }
}

// With the copy of each item refused in turn, and, in the sweep, with each request: a refused copy leaves the source as it was, and nothing
// of what was made. A request is refused before an item is copied.
#[test]
fn a_refused_copy_leaves_the_source(rt: HostRuntime) {
    for allowed in 0..4u64 {
        let tally = Tally::of_copies(allowed, TryReserveError::CapacityOverflow);
        if let Ok(source) = three(rt.alloc(), &tally) {
            match source.try_clone() {
                Ok(copy) => assert!(rt; allowed == 3 && tally.living() == 6 && are_three(&copy)),
                Err(TryReserveError::AllocError) => assert!(rt; tally.left.get() == allowed),
                Err(TryReserveError::CapacityOverflow) => assert!(rt; allowed < 3),
            }
            assert!(rt; tally.living() == 3 && are_three(&source));
        }
        assert!(rt; tally.living() == 0);
    }
}

#[test]
fn an_options_own_refusal_is_passed_on(rt: HostRuntime) {
    let tally = Tally::of_copies(1, TryReserveError::CapacityOverflow);
    let source = Some(Token::new(7, &tally));
    match source.try_clone() {
        Ok(Some(copy)) => assert!(rt; copy.number == 7),
        _ => assert!(rt; false),
    }
    assert!(rt; matches!(source.try_clone(), Err(TryReserveError::CapacityOverflow)));
    assert!(rt; tally.living() == 1);
}

// Whether a copy of the value is equal to it.
fn is_copied<T: TryClone + PartialEq>(value: T) -> Result<bool, TryReserveError>
    requires { T.can_clone }
{
    Ok(value.try_clone()? == value)
}

#[test]
fn groups_and_texts_are_copied(rt: HostRuntime) -> Result<(), Fail> {
    assert!(rt; is_copied(u128::MAX)? && is_copied(i128::MIN)? && is_copied('ß')?);
    assert!(rt; is_copied((1u64, 'a'))? && is_copied((1u8, 2u16, 3u32))?);
    assert!(rt; is_copied([1u8, 2, 3])? && is_copied("a text")?);
    assert!(rt; is_copied(Some((1u64, 2u64)))?);
    let text = String::from_str(rt.alloc(), "a text")?;
    assert!(rt; is_copied((text.try_clone()?, 1u64))?);
    assert!(rt; is_copied(text)?);
    Ok(())
}

#[test]
fn bounds_are_copied(rt: HostRuntime) -> Result<(), Fail> {
    let open: Bound<u64> = Bound::Unbounded;
    assert!(rt; is_copied(Bound::Included(3u64))? && is_copied(Bound::Excluded(3u64))?);
    assert!(rt; is_copied(open)?);
    Ok(())
}

// An owner's copy is one more owner of the same value; what a type's own `clone` copies is copied as it does.
#[test]
fn shared_values_and_clones_are_copied(rt: HostRuntime) -> Result<(), Fail> {
    let first = Rc::new(rt.alloc(), 5u64)?;
    let second = first.try_clone()?;
    drop(first);
    assert!(rt; *second == 5);
    assert!(rt; matches!(ByClone(7u64).try_clone(), Ok(ByClone(7))));
    Ok(())
}
