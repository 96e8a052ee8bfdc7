//! Sets of other items: texts that are sought by slices, and numbers whose sets are hashed.
use crate::out::Out;
use fc_base::TryReserveError;
use fc_set::set::BTreeSet;
use std::alloc::Global;
use std::hash::{DefaultHasher, Hash, Hasher};

fn some_texts(alloc: Global) -> Result<BTreeSet<String>, TryReserveError> {
    let mut set = BTreeSet::new(alloc);
    for text in ["b", "a", "c", "ab"] {
        set.try_insert(String::from_str(alloc, text)?)?;
    }
    Ok(set)
}

// Answers with the texts of a, ab, b and c that are next to this one, whether it is there, and whether it is removed, twice.
pub(crate) fn show(alloc: Global, text: &str, out: &mut Out) {
    let Ok(mut set) = some_texts(alloc) else {
        return out.word("no memory");
    };
    lent(set.last_before(text), out);
    lent(set.last_at_or_before(text), out);
    lent(set.first_at_or_after(text), out);
    lent(set.first_after(text), out);
    out.is(set.contains(text));
    out.is(set.remove(text));
    out.is(set.remove(text));
}

fn lent(text: Option<&String>, out: &mut Out) {
    match text {
        Some(text) => out.word(text.as_str()),
        None => out.word("none"),
    }
}

// Puts in the numbers below 100, from the last on or from the first on.
fn put_hundred(set: &mut BTreeSet<u64>, is_falling: bool) -> Result<(), TryReserveError> {
    for number in 0..100u64 {
        set.try_insert(if is_falling { 99 - number } else { number })?;
    }
    Ok(())
}

fn hashed(set: &BTreeSet<u64>) -> u64 {
    let mut hasher = DefaultHasher::new();
    set.hash(&mut hasher);
    hasher.finish()
}

// Whether two sets of the same numbers are equal and hashed alike. They are empty, and their caller's, which gives them up once.
fn are_alike(up: &mut BTreeSet<u64>, down: &mut BTreeSet<u64>) -> Result<bool, TryReserveError> {
    put_hundred(up, false)?;
    put_hundred(down, true)?;
    Ok(*up == *down && hashed(up) == hashed(down))
}

// Answers whether two sets of the same numbers are equal and hashed alike, whatever the order that they were put in.
pub(crate) fn hash(alloc: Global, out: &mut Out) {
    let mut up = BTreeSet::new(alloc);
    let mut down = BTreeSet::new(alloc);
    match are_alike(&mut up, &mut down) {
        Ok(is_alike) => out.is(is_alike),
        Err(_refused) => out.word("no memory"),
    }
}
