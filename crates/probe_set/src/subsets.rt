//! All pairs of subsets of six numbers, against the arithmetic of the masks whose bits say which numbers are there.
use crate::given::{Given, Operation, given_by};
use crate::item::{Item, Tally};
use crate::out::Out;
use crate::sets::Set;
use fc_base::TryReserveError;
use fc_set::set::BTreeSet;
use std::alloc::Global;

// Puts in the numbers below `end` whose bits are set in the mask; those of 64 and more are there where the bit of 63 is set.
fn put_bits<'a>(
    set: &mut Set<'a>,
    tally: &'a Tally,
    mask: u64,
    end: u64,
) -> Result<(), TryReserveError> {
    for number in 0..end {
        if (mask >> number.min(63)) & 1 == 1 {
            set.try_insert(Item::new(number, "", tally))?;
        }
    }
    Ok(())
}

fn gives<'a>(
    operation: Operation,
    ours: &Set<'a>,
    theirs: &Set<'a>,
    mask: u64,
    out: &mut Out,
) -> bool {
    let mut given = Given::none(false);
    given_by(operation, ours, theirs, &mut given, out);
    given.is(mask)
}

fn predicates_agree<'a>(ours: &Set<'a>, theirs: &Set<'a>, a: u64, b: u64) -> bool {
    ours.is_disjoint(theirs) == (a & b == 0)
        && ours.is_subset(theirs) == (a & !b == 0)
        && ours.is_superset(theirs) == (b & !a == 0)
}

// Whether all agrees between two subsets. The sets are empty, and their caller's: what may be refused has neither to give up.
fn subsets_agree<'a>(
    ours: &mut Set<'a>,
    theirs: &mut Set<'a>,
    tally: &'a Tally,
    masks: (u64, u64),
    out: &mut Out,
) -> Result<bool, TryReserveError> {
    let (a, b) = masks;
    put_bits(ours, tally, a, 6)?;
    put_bits(theirs, tally, b, 6)?;
    Ok(
        gives(Operation::Difference, ours, theirs, a & !b, out)
            && gives(Operation::SymmetricDifference, ours, theirs, a ^ b, out)
            && gives(Operation::Intersection, ours, theirs, a & b, out)
            && gives(Operation::Union, ours, theirs, a | b, out)
            && predicates_agree(ours, theirs, a, b),
    )
}

fn pair_agrees(
    alloc: Global,
    tally: &Tally,
    masks: (u64, u64),
    out: &mut Out,
) -> Result<bool, TryReserveError> {
    let mut ours = BTreeSet::new(alloc);
    let mut theirs = BTreeSet::new(alloc);
    subsets_agree(&mut ours, &mut theirs, tally, masks, out)
}

// Answers with how many of all pairs of subsets agree.
pub(crate) fn all_pairs(alloc: Global, tally: &Tally, out: &mut Out) {
    let mut agree = 0u64;
    for pair in 0..4096u64 {
        if let Ok(true) = pair_agrees(alloc, tally, (pair / 64, pair % 64), out) {
            agree = agree.wrapping_add(1);
        }
    }
    out.number(agree);
}

// The bits of the numbers from 3 to 98: that of 63 stands for those above it.
const MANY: u64 = u64::MAX - 7;

// Whether all agrees between the subset and the numbers from 3 to 98, which are 96: sixteen for each of the six.
fn few_agree_with_many<'a>(
    few: &mut Set<'a>,
    many: &mut Set<'a>,
    tally: &'a Tally,
    a: u64,
    out: &mut Out,
) -> Result<bool, TryReserveError> {
    put_bits(few, tally, a, 6)?;
    put_bits(many, tally, MANY, 99)?;
    Ok(
        gives(Operation::Difference, few, many, a & !MANY, out)
            && gives(Operation::Intersection, few, many, a & MANY, out)
            && gives(Operation::Intersection, many, few, a & MANY, out)
            && predicates_agree(few, many, a, MANY),
    )
}

fn agrees_with_many(
    alloc: Global,
    tally: &Tally,
    a: u64,
    out: &mut Out,
) -> Result<bool, TryReserveError> {
    let mut few = BTreeSet::new(alloc);
    let mut many = BTreeSet::new(alloc);
    few_agree_with_many(&mut few, &mut many, tally, a, out)
}

// Answers with how many subsets agree with the many: each number of the subset is looked up among those.
pub(crate) fn all_against_many(alloc: Global, tally: &Tally, out: &mut Out) {
    let mut agree = 0u64;
    for a in 0..64u64 {
        if let Ok(true) = agrees_with_many(alloc, tally, a, out) {
            agree = agree.wrapping_add(1);
        }
    }
    out.number(agree);
}
