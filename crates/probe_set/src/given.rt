//! What the lazy operations give of ours and theirs: a `for` over one needs no measure and no proof.
ghost use Rattle.std.specs.Prelude.{◌≡◌, ◌+◌, length};
ghost use Rattle.fc_set.specs.Items.{items};
ghost use Rattle.fc_set.specs.Operations.{common, union};

use crate::item::Item;
use crate::out::Out;
use crate::sets::Set;
use fc_set::set::{BTreeSet, Intersection, Union};

#[derive(Clone, Copy)]
pub(crate) enum Operation {
    Difference,
    SymmetricDifference,
    Intersection,
    Union,
}

// What a walk gave: how many items, their sum, the bits of those below 64, and whether each was above the one before.
#[derive(Drop)]
pub(crate) struct Given {
    pub(crate) count: u64,
    pub(crate) sum: u64,
    pub(crate) bits: u64,
    pub(crate) ascends: bool,
    least: u64,
    shows: bool,
}

impl Given {
    // Nothing so far. Each item is shown as it comes, if that is wanted.
    pub(crate) fn none(shows: bool) -> Given {
        Given {
            shows,
            count: 0,
            sum: 0,
            bits: 0,
            ascends: true,
            least: 0,
        }
    }

    fn add(&mut self, item: &Item<'_>, out: &mut Out) {
        if self.shows {
            out.debug(item);
        }
        self.ascends = self.ascends && self.least <= item.counted.number;
        self.least = item.counted.number.wrapping_add(1);
        self.count = self.count.wrapping_add(1);
        self.sum = self.sum.wrapping_add(item.counted.number);
        if item.counted.number < 64 {
            self.bits |= 1 << item.counted.number;
        }
    }

    // Whether just the items were given whose bits are set in the mask, in order.
    pub(crate) fn is(&self, mask: u64) -> bool {
        self.ascends && self.bits == mask && self.count == u64::from(mask.count_ones())
    }

    pub(crate) fn show(&self, out: &mut Out) {
        out.number(self.count);
        out.put(":");
        out.number(self.sum);
        if !self.ascends {
            out.word("in no order");
        }
    }
}

// What the operation gives of the two sets, in turn.
pub(crate) fn given_by<'a>(
    operation: Operation,
    ours: &Set<'a>,
    theirs: &Set<'a>,
    given: &mut Given,
    out: &mut Out,
) {
    match operation {
        Operation::Difference => give_difference(ours, theirs, given, out),
        Operation::SymmetricDifference => give_symmetric_difference(ours, theirs, given, out),
        Operation::Intersection => give_intersection(ours.intersection(theirs), given, out),
        Operation::Union => give_union(ours.union(theirs), given, out),
    }
}

fn give_difference<'a>(ours: &Set<'a>, theirs: &Set<'a>, given: &mut Given, out: &mut Out) {
    for item in ours.difference(theirs) {
        given.add(item, out);
    }
}

fn give_symmetric_difference<'a>(
    ours: &Set<'a>,
    theirs: &Set<'a>,
    given: &mut Given,
    out: &mut Out,
) {
    for item in ours.symmetric_difference(theirs) {
        given.add(item, out);
    }
}

fn give_intersection(walk: Intersection<'_, Item<'_>>, given: &mut Given, out: &mut Out) {
    for item in walk {
        given.add(item, out);
    }
}

fn give_union(walk: Union<'_, Item<'_>>, given: &mut Given, out: &mut Out) {
    for item in walk {
        given.add(item, out);
    }
}

// What a union and an intersection have to give adds up to the items of both sets.
fn either_and_both<'a, T: Ord>(
    ours: &'a BTreeSet<T>,
    theirs: &'a BTreeSet<T>,
) -> (Union<'a, T>, Intersection<'a, T>)
    ensures { length (union T.cmp result.0.left result.0.right) + length (common T.cmp result.1.left result.1.right) ≡ length (items ours.now) + length (items theirs.now) }
{
    (ours.union(theirs), ours.intersection(theirs))
}

// Answers with what is in either and what is in both.
pub(crate) fn show_either_and_both<'a>(ours: &Set<'a>, theirs: &Set<'a>, out: &mut Out) {
    let (either, both) = either_and_both(ours, theirs);
    let (mut in_either, mut in_both) = (Given::none(false), Given::none(false));
    give_union(either, &mut in_either, out);
    give_intersection(both, &mut in_both, out);
    in_either.show(out);
    in_both.show(out);
}

// Answers with the items that the operation gives.
pub(crate) fn list<'a>(operation: Operation, ours: &Set<'a>, theirs: &Set<'a>, out: &mut Out) {
    let mut given = Given::none(true);
    given_by(operation, ours, theirs, &mut given, out);
    if !given.ascends {
        out.word("in no order");
    }
}

// Answers with how many items each operation gives, and their sum.
pub(crate) fn sums<'a>(ours: &Set<'a>, theirs: &Set<'a>, out: &mut Out) {
    for operation in [
        Operation::Difference,
        Operation::SymmetricDifference,
        Operation::Intersection,
        Operation::Union,
    ] {
        let mut given = Given::none(false);
        given_by(operation, ours, theirs, &mut given, out);
        given.show(out);
    }
}
