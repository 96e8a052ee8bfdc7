//! How many bytes a call needs: it is made with ever more of them left.
use crate::sizes::AMPLE;
use fc_base::TryReserveError;
use fc_budget::Budget;
use std::alloc::Global;

/// What became of a call.
#[derive(Clone, Copy)]
pub(crate) enum Fate {
    Done,
    /// It was refused, all is as it was, and what was given came back.
    Refused,
    /// Anything else.
    Wrong,
}

/// A call that takes memory, and what it is made on.
pub(crate) trait Call {
    fn fate(&mut self) -> Fate;
}

pub(crate) fn done(is_right: bool) -> Fate {
    if is_right { Fate::Done } else { Fate::Wrong }
}

pub(crate) fn refused(error: TryReserveError, is_as_before: bool) -> Fate {
    if is_as_before && matches!(error, TryReserveError::AllocError) {
        Fate::Refused
    } else {
        Fate::Wrong
    }
}

/// A block that leaves so many bytes of the budget.
pub(crate) fn all_but(
    budget: &Budget<Global>,
    room: usize,
) -> Result<Vec<u8, &Budget<Global>>, TryReserveError> {
    let bytes = budget.left().saturating_sub(room);
    Ok(Vec::with_capacity(budget, bytes)?)
}

// The numbers of bytes that are tried are multiples of these: all that the tests ask for are.
const STEP: usize = 8;

const STEPS: usize = 2048;

/// The fewest bytes with which the call is done, or `AMPLE` where a call before was wrong, or left other bytes out than before.
pub(crate) fn least<C: Call>(
    budget: &Budget<Global>,
    call: &mut C,
) -> Result<usize, TryReserveError> {
    for step in 0..STEPS {
        let room = step.wrapping_mul(STEP);
        let _rest = all_but(budget, room)?;
        let before = budget.used();
        match call.fate() {
            Fate::Done => return Ok(room),
            Fate::Refused if budget.used() == before => (),
            _ => return Ok(AMPLE),
        }
    }
    Ok(AMPLE)
}
