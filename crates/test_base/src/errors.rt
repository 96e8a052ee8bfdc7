//! Values whose copies are refused by either error: what holds them passes it on as it is, and not as the other one.
use fc_base::{FallibleBox, TryBox, TryClone, TryReserveError};
use std::alloc::{AllocError, Global};
use test_values::{Tally, Token};

// Whether the value is copied by so many copies, and refused by the tally's error where there is one less.
fn is_passed_on<T: TryClone>(value: &T, tally: &Tally, needed: u64) -> bool
    requires { T.can_clone }
{
    tally.left.set(needed);
    let is_copied = value.try_clone().is_ok();
    tally.left.set(needed.saturating_sub(1));
    match value.try_clone() {
        Ok(_copy) => false,
        Err(error) => is_copied && error == tally.error,
    }
}

fn two<'a>(alloc: Global, tally: &'a Tally) -> Result<Vec<Token<'a>>, AllocError> {
    let mut made = Vec::new(alloc);
    made.push(Token::new(7, tally))?;
    made.push(Token::new(7, tally))?;
    Ok(made)
}

fn are_passed_on(alloc: Global, error: TryReserveError) -> bool {
    let tally = Tally::of_copies(0, error);
    let Ok(in_std) = Box::try_new(alloc, Token::new(7, &tally)) else {
        return false;
    };
    let Ok(in_ours) = TryBox::try_new(alloc, Token::new(7, &tally)) else {
        return false;
    };
    let Ok(in_vector) = two(alloc, &tally) else {
        return false;
    };
    is_passed_on(&Some(Token::new(7, &tally)), &tally, 1)
        && is_passed_on(&in_std, &tally, 1)
        && is_passed_on(&in_ours, &tally, 1)
        && is_passed_on(&in_vector, &tally, 2)
}

#[test]
fn each_error_is_passed_on(rt: HostRuntime) {
    assert!(rt; are_passed_on(rt.alloc(), TryReserveError::AllocError));
    assert!(rt; are_passed_on(rt.alloc(), TryReserveError::CapacityOverflow));
}
