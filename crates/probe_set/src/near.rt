//! The items next to another: before it, not after it, not before it, and after it.
use crate::item::Item;
use crate::out::Out;
use crate::sets::{Numbers, Set, Sets};
use fc_base::Count;

// Answers with the four items next to this one.
pub(crate) fn show<'a>(set: &Set<'a>, item: &Item<'a>, out: &mut Out) {
    out.lent(set.last_before(item));
    out.lent(set.last_at_or_before(item));
    out.lent(set.first_at_or_after(item));
    out.lent(set.first_after(item));
}

// A number that tells an item and whether it has a letter; 0 is none.
fn told(item: Option<&Item<'_>>) -> u64 {
    match item {
        Some(item) => {
            let number = item.counted.number.wrapping_add(1).wrapping_mul(2);
            number.wrapping_add(item.letter.len() as u64)
        }
        None => 0,
    }
}

// Answers for how many of the numbers each call finds what a walk shows to be next to it. What is less than the first number is not in the set.
pub(crate) fn count<'a>(sets: &Sets<'a>, numbers: Numbers, out: &mut Out) {
    let mut walk = sets.ours.iter();
    let (mut before, mut from) = (0, told(walk.next()));
    let mut agree = 0u64;
    for number in numbers.first..numbers.end {
        let item = Item::new(number, numbers.letter, sets.tally);
        let (mut to, mut after) = (before, from);
        if from / 2 == number.wrapping_add(1) {
            to = from;
            after = told(walk.next());
        }
        if are_next(&sets.ours, &item, [before, to, from, after]) {
            agree = agree.wrapping_add(1);
        }
        before = to;
        from = after;
    }
    out.number(agree);
}

// Whether these are next to the item by each call, plain and counted, and each plain one compares as often as a look-up.
fn are_next<'a>(set: &Set<'a>, item: &Item<'a>, wanted: [u64; 4]) -> bool {
    let made = &item.tally.comparisons;
    made.set(0);
    let _there = set.contains(item);
    let of_one = made.get();
    let is_before = told(set.last_before(item)) == wanted[0];
    let is_to = told(set.last_at_or_before(item)) == wanted[1];
    let is_from = told(set.first_at_or_after(item)) == wanted[2];
    let is_after = told(set.first_after(item)) == wanted[3];
    let of_all = made.get();
    is_before
        && is_to
        && is_from
        && is_after
        && of_all == of_one.wrapping_mul(5)
        && are_counted(set, item, wanted)
}

fn are_counted<'a>(set: &Set<'a>, item: &Item<'a>, wanted: [u64; 4]) -> bool {
    let mut count = Count::new();
    let is_before = told(set.last_before_counted(item, &mut count)) == wanted[0];
    let is_to = told(set.last_at_or_before_counted(item, &mut count)) == wanted[1];
    let is_from = told(set.first_at_or_after_counted(item, &mut count)) == wanted[2];
    let is_after = told(set.first_after_counted(item, &mut count)) == wanted[3];
    is_before && is_to && is_from && is_after
}
