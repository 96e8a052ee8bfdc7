//! Sets made of copies of the items of ours and theirs.
use crate::out::Out;
use crate::sets::{Set, Sets};
use fc_base::{TryClone, TryReserveError};

#[derive(Clone, Copy)]
pub(crate) enum Operator {
    Sub,
    BitXor,
    BitAnd,
    BitOr,
    Copy,
}

fn made_by<'a>(
    operator: Operator,
    ours: &Set<'a>,
    theirs: &Set<'a>,
) -> Result<Set<'a>, TryReserveError> {
    match operator {
        Operator::Sub => ours.sub(theirs),
        Operator::BitXor => ours.bitxor(theirs),
        Operator::BitAnd => ours.bitand(theirs),
        Operator::BitOr => ours.bitor(theirs),
        Operator::Copy => ours.try_clone(),
    }
}

// Answers with the items of the set that each operator makes of the two.
pub(crate) fn made<'a>(ours: &Set<'a>, theirs: &Set<'a>, out: &mut Out) {
    for (operator, name) in [
        (Operator::Sub, "-"),
        (Operator::BitXor, "^"),
        (Operator::BitAnd, "&"),
        (Operator::BitOr, "|"),
    ] {
        out.word(name);
        match made_by(operator, ours, theirs) {
            Ok(set) => list(&set, out),
            Err(e) => out.refused(e),
        }
    }
}

pub(crate) fn list(set: &Set<'_>, out: &mut Out) {
    for item in set {
        out.debug(item);
    }
}

// Puts a copy of our set in the place of theirs.
pub(crate) fn copy(sets: &mut Sets<'_>, out: &mut Out) {
    let copy = sets.ours.try_clone();
    sets.keep(copy, out);
}

// Whether the operator is refused, by the error of an item's copy, when it may copy so many items: it copied these and left none of them.
fn passes_on(operator: Operator, sets: &Sets<'_>, copies: u64, overflows: bool) -> bool {
    let tally = sets.tally;
    let before = tally.living.get();
    tally.copies_left.set(copies);
    tally.overflows.set(overflows);
    let is_told = match made_by(operator, &sets.ours, &sets.theirs) {
        Ok(_) => false,
        Err(TryReserveError::CapacityOverflow) => overflows,
        Err(TryReserveError::AllocError) => !overflows,
    };
    is_told && tally.copies_left.get() == 0 && tally.living.get() == before
}

// Whether the operator makes a set of so many copies.
fn makes(operator: Operator, sets: &Sets<'_>, copies: u64) -> bool {
    sets.tally.copies_left.set(copies);
    match made_by(operator, &sets.ours, &sets.theirs) {
        Ok(set) => set.len() as u64 == copies && sets.tally.copies_left.get() == 0,
        Err(_) => false,
    }
}

// Refuses the first copy of an item that the operator makes, then the second, and so on, by either error, until it makes its set. Answers how many
// copies that takes.
pub(crate) fn refused_copies(operator: Operator, sets: &Sets<'_>, out: &mut Out) {
    let mut copies = 0;
    for allowed in 0..100u64 {
        copies = allowed;
        if !(passes_on(operator, sets, allowed, false)
            && passes_on(operator, sets, allowed, true))
        {
            break;
        }
    }
    out.is(makes(operator, sets, copies));
    out.number(copies);
    sets.tally.copies_left.set(u64::MAX);
}
