//! Rows that name items: what each call on our set answers.
use crate::item::Item;
use crate::out::Out;
use crate::sets::{Numbers, Sets, numbers_in};
use crate::{many, near};
use fc_base::{Count, TryReserveError};
use fc_set::set::BTreeSet;

// Answers for one word of a row: numbers, or an item.
pub(crate) fn one_word<'a>(sets: &mut Sets<'a>, name: &str, word: &str, out: &mut Out) {
    if name == "extend" || name == "extend_vec" || name == "made" {
        many::give(sets, name, word, out);
    } else if let Some(numbers) = numbers_in(word) {
        match name {
            "fill" => fill(sets, numbers, out),
            "fill_down" => fill_down(sets, numbers, out),
            "take_ends" => take_ends(sets, numbers, out),
            "is_just" => out.is(is_just(sets, numbers)),
            "room" => tell_room(sets, numbers, out),
            "neighbours" => near::count(sets, numbers, out),
            _ => out.word("?"),
        }
    } else if let Some(item) = sets.item(word) {
        if name == "neighbours" {
            near::show(&sets.ours, &item, out);
        } else if !look(sets, name, &item, out) {
            take_out(sets, name, item, out);
        }
    } else {
        out.word("?");
    }
}

// Puts in each, as far as memory goes.
fn fill<'a>(sets: &mut Sets<'a>, numbers: Numbers, out: &mut Out) {
    let mut new = 0u64;
    for number in numbers.first..numbers.end {
        if numbers.step != 0 && (number - numbers.first) % numbers.step == 0 {
            let item = Item::new(number, numbers.letter, sets.tally);
            match sets.ours.try_insert(item) {
                Ok(is_new) => new = new.wrapping_add(u64::from(is_new)),
                Err((_item, e)) => return out.stopped(e),
            }
        }
    }
    out.number(new);
}

fn fill_down<'a>(sets: &mut Sets<'a>, numbers: Numbers, out: &mut Out) {
    let mut new = 0u64;
    for below in numbers.first..numbers.end {
        let number = numbers.first + (numbers.end - 1 - below);
        let item = Item::new(number, numbers.letter, sets.tally);
        new = new.wrapping_add(u64::from(is_new(sets.ours.try_insert(item))));
    }
    out.number(new);
}

fn is_new(inserted: Result<bool, (Item<'_>, TryReserveError)>) -> bool {
    match inserted {
        Ok(new) => new,
        Err(_refused) => false,
    }
}

// Reads and takes the least and the greatest item, once for each number.
fn take_ends<'a>(sets: &mut Sets<'a>, numbers: Numbers, out: &mut Out) {
    for _ in numbers.first..numbers.end {
        out.lent(sets.ours.first());
        out.owned(sets.ours.pop_first());
        out.lent(sets.ours.last());
        out.owned(sets.ours.pop_last());
    }
}

// Whether our set has just these numbers, finds each of them, and gives them in order.
fn is_just(sets: &Sets<'_>, numbers: Numbers) -> bool {
    let mut walk = sets.ours.iter();
    let mut agrees = true;
    for number in numbers.first..numbers.end {
        let sought = Item::new(number, "", sets.tally);
        agrees = agrees && sets.ours.contains(&sought) && is_number(walk.next(), number);
    }
    agrees
        && walk.next().is_none()
        && sets.ours.len() as u64 == numbers.end.saturating_sub(numbers.first)
}

// How many places nodes were taken for, a place for each number.
fn tell_room(sets: &Sets<'_>, numbers: Numbers, out: &mut Out) {
    let places = numbers.end.saturating_sub(numbers.first);
    match sets.ours.try_reserve_nodes(places as usize) {
        Ok(room) => out.number(room.places() as u64),
        Err(e) => out.refused(e),
    }
}

fn is_number(item: Option<&Item<'_>>, number: u64) -> bool {
    match item {
        Some(item) => item.counted.number == number,
        None => false,
    }
}

// Answers where the call only looks; whether it does.
fn look<'a>(sets: &Sets<'a>, name: &str, item: &Item<'a>, out: &mut Out) -> bool {
    let mut count = Count::new();
    match name {
        "contains" => out.is(sets.ours.contains(item)),
        "contains_counted" => out.is(sets.ours.contains_counted(item, &mut count)),
        "get" => out.lent(sets.ours.get(item)),
        "get_counted" => out.lent(sets.ours.get_counted(item, &mut count)),
        "lacks_above" => out.is(lacks_above(&sets.ours, &sets.theirs, item)),
        _ => return false,
    }
    true
}

// Whether an item of ours that is above the least is missing in theirs.
fn lacks_above<T: Ord>(ours: &BTreeSet<T>, theirs: &BTreeSet<T>, least: &T) -> bool {
    for item in ours.difference(theirs) {
        if item > least {
            return true;
        }
    }
    false
}

fn take_out<'a>(sets: &mut Sets<'a>, name: &str, item: Item<'a>, out: &mut Out) {
    let mut count = Count::new();
    match name {
        "remove" => out.is(sets.ours.remove(&item)),
        "remove_counted" => out.is(sets.ours.remove_counted(&item, &mut count)),
        "take" => {
            let taken = sets.ours.take(&item);
            sets.hold(taken, out);
        }
        "take_counted" => {
            let taken = sets.ours.take_counted(&item, &mut count);
            sets.hold(taken, out);
        }
        "split" => {
            let upper = sets.ours.try_split_off(&item);
            sets.keep(upper, out);
        }
        _ => put_in(sets, name, item, out),
    }
}

fn put_in<'a>(sets: &mut Sets<'a>, name: &str, item: Item<'a>, out: &mut Out) {
    let mut count = Count::new();
    match name {
        "insert" => out.inserted(sets.ours.try_insert(item)),
        "insert_counted" => out.inserted(sets.ours.try_insert_counted(item, &mut count)),
        "replace" => {
            let answer = sets.ours.replace(item);
            replaced(sets, answer, out);
        }
        "replace_counted" => {
            let answer = sets.ours.replace_counted(item, &mut count);
            replaced(sets, answer, out);
        }
        _ => out.word("?"),
    }
}

fn replaced<'a>(
    sets: &mut Sets<'a>,
    answer: Result<Option<Item<'a>>, (Item<'a>, TryReserveError)>,
    out: &mut Out,
) {
    match answer {
        Ok(old) => sets.hold(old, out),
        Err(back) => out.handed_back(back),
    }
}
