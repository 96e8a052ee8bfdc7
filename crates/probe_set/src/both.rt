//! Rows of one word: calls on our set as a whole, and on both.
use crate::copies::{Operator, copy, list, made, refused_copies};
use crate::given::{self, Operation};
use crate::out::Out;
use crate::sets::{Set, Sets};
use crate::subsets::{all_against_many, all_pairs};
use fc_base::Count;
use std::mem;

pub(crate) fn alone(sets: &mut Sets<'_>, name: &str, out: &mut Out) {
    let mut count = Count::new();
    match name {
        "first" => out.lent(sets.ours.first()),
        "last" => out.lent(sets.ours.last()),
        "pop_first" => out.owned(sets.ours.pop_first()),
        "pop_last" => out.owned(sets.ours.pop_last()),
        "pop_first_counted" => out.owned(sets.ours.pop_first_counted(&mut count)),
        "pop_last_counted" => out.owned(sets.ours.pop_last_counted(&mut count)),
        "clear" => sets.ours.clear(),
        "list" => list(&sets.ours, out),
        "debug" => out.debug(&sets.ours),
        "len" => {
            out.number(sets.ours.len() as u64);
            out.word(if sets.ours.is_empty() {
                "empty"
            } else {
                "items"
            });
        }
        _ => joined(sets, name, out),
    }
}

// Calls that change a set as a whole.
fn joined(sets: &mut Sets<'_>, name: &str, out: &mut Out) {
    let mut count = Count::new();
    match name {
        "swap" => mem::swap(&mut sets.ours, &mut sets.theirs),
        "append" => out.done(sets.ours.append(&mut sets.theirs)),
        "append_counted" => out.done(sets.ours.append_counted(&mut sets.theirs, &mut count)),
        "copy" => copy(sets, out),
        "operators" => made(&sets.ours, &sets.theirs, out),
        "operators_on_itself" => made(&sets.ours, &sets.ours, out),
        "let_go" => sets.let_go(),
        "refused_copies" => {
            refused_copies(Operator::Sub, sets, out);
            refused_copies(Operator::BitXor, sets, out);
            refused_copies(Operator::BitAnd, sets, out);
            refused_copies(Operator::BitOr, sets, out);
            refused_copies(Operator::Copy, sets, out);
        }
        _ => compared(sets, name, out),
    }
}

// Calls that tell how both sets lie to one another.
fn compared(sets: &Sets<'_>, name: &str, out: &mut Out) {
    let (ours, theirs) = (&sets.ours, &sets.theirs);
    match name {
        "difference" => given::list(Operation::Difference, ours, theirs, out),
        "symmetric_difference" => given::list(Operation::SymmetricDifference, ours, theirs, out),
        "intersection" => given::list(Operation::Intersection, ours, theirs, out),
        "union" => given::list(Operation::Union, ours, theirs, out),
        "sums" => given::sums(ours, theirs, out),
        "either_and_both" => given::show_either_and_both(ours, theirs, out),
        "is_disjoint" => out.is(ours.is_disjoint(theirs)),
        "is_subset" => out.is(ours.is_subset(theirs)),
        "is_superset" => out.is(ours.is_superset(theirs)),
        "cmp" => order(ours, theirs, out),
        _ => told(sets, name, out),
    }
}

// Answers with the order of the sets by each comparison, the last the other way round.
fn order<'a>(ours: &Set<'a>, theirs: &Set<'a>, out: &mut Out) {
    out.word(if *ours == *theirs { "equal" } else { "unequal" });
    out.debug(&ours.partial_cmp(theirs));
    out.debug(&ours.cmp(theirs));
    out.debug(&theirs.cmp(ours));
}

// What was counted since the last reset, and the loops over many sets.
fn told(sets: &Sets<'_>, name: &str, out: &mut Out) {
    let tally = sets.tally;
    match name {
        "reset" => tally.reset(),
        "comparisons" => out.number(tally.comparisons.replace(0)),
        "living" => out.number(tally.living.get()),
        "drops" => {
            out.number(tally.plain_drops.get());
            out.number(tally.x_drops.get());
            out.number(tally.y_drops.get());
            out.number(tally.z_drops.get());
        }
        "all_pairs" => all_pairs(sets.alloc, tally, out),
        "all_against_many" => all_against_many(sets.alloc, tally, out),
        _ => out.word("?"),
    }
}
