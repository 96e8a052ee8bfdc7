//! Items that are given to a call together.
use crate::item::Item;
use crate::out::Out;
use crate::sets::{Numbers, Sets, numbers_in};
use fc_set::set::BTreeSet;
use fc_vec::TryFromIterator;
use std::alloc::AllocError;

// Extends our set by the numbers of the word, which are its digits where it names no range, or by a vector of them; or makes a set of them in the place of
// theirs.
pub(crate) fn give<'a>(sets: &mut Sets<'a>, name: &str, word: &str, out: &mut Out) {
    let Ok(items) = items_in(sets, word) else {
        return out.word("refused");
    };
    if name == "made" {
        let made = BTreeSet::try_from_iterator(sets.alloc, items);
        sets.keep(made, out);
    } else if name == "extend_vec" {
        extend_from_vec(sets, items, numbers_in(word), out);
    } else if let Err(e) = sets.ours.try_extend(items) {
        out.stopped(e);
        out.word("at");
        out.number(sets.ours.len() as u64);
    } else {
        out.word("done");
    }
}

// Extends our set by the vector, which comes back whole where it is refused.
fn extend_from_vec<'a>(
    sets: &mut Sets<'a>,
    items: Vec<Item<'a>>,
    numbers: Option<Numbers>,
    out: &mut Out,
) {
    match sets.ours.try_extend_from_vec(items) {
        Ok(()) => out.word("done"),
        Err((back, e)) => {
            out.refused(e);
            if !are_in_range(&back, numbers) {
                out.word("lost");
            }
        }
    }
}

// Whether these are the items of `in_range`.
fn are_in_range(items: &Vec<Item<'_>>, numbers: Option<Numbers>) -> bool {
    let Some(numbers) = numbers else {
        return false;
    };
    let count = numbers.end.saturating_sub(numbers.first);
    let mut turn = 0u64;
    for item in items {
        let place = item.counted.number.wrapping_sub(numbers.first);
        if turn >= count || place != turn.wrapping_mul(numbers.step) % count {
            return false;
        }
        turn = turn.wrapping_add(1);
    }
    turn == count
}

fn items_in<'a>(sets: &Sets<'a>, word: &str) -> Result<Vec<Item<'a>>, AllocError> {
    match numbers_in(word) {
        Some(numbers) => in_range(sets, numbers),
        None => in_digits(sets, word),
    }
}

// The items of a range, always so many steps on and round: in ascending order where that is one.
fn in_range<'a>(sets: &Sets<'a>, numbers: Numbers) -> Result<Vec<Item<'a>>, AllocError> {
    let mut items = Vec::new(sets.alloc);
    let count = numbers.end.saturating_sub(numbers.first);
    for turn in 0..count {
        let place = turn.wrapping_mul(numbers.step) % count;
        let number = numbers.first.wrapping_add(place);
        items.push(Item::new(number, numbers.letter, sets.tally))?;
    }
    Ok(items)
}

fn in_digits<'a>(sets: &Sets<'a>, word: &str) -> Result<Vec<Item<'a>>, AllocError> {
    let mut items = Vec::new(sets.alloc);
    for byte in word.as_bytes() {
        let digit = u64::from(byte.wrapping_sub(b'0'));
        items.push(Item::new(digit, "", sets.tally))?;
    }
    Ok(items)
}
