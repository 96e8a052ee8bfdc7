//! Walks that are taken step by step.
use crate::item::Item;
use crate::out::Out;
use crate::sets::Sets;
use fc_map::map::is_range;
use fc_set::set::{
    BTreeSet, Difference, Intersection, IntoIter, Iter, Range, SymmetricDifference, Union,
};
use std::mem;
use std::ops::Bound;

#[derive(Drop)]
enum Walk<'s, 'a> {
    All(Iter<'s, Item<'a>>),
    Within(Range<'s, Item<'a>>),
    Difference(Difference<'s, Item<'a>>),
    SymmetricDifference(SymmetricDifference<'s, Item<'a>>),
    Intersection(Intersection<'s, Item<'a>>),
    Union(Union<'s, Item<'a>>),
}

impl<'s, 'a> Walk<'s, 'a> {
    fn next(&mut self) -> Option<&'s Item<'a>> {
        match self {
            Walk::All(walk) => walk.next(),
            Walk::Within(walk) => walk.next(),
            Walk::Difference(walk) => walk.next(),
            Walk::SymmetricDifference(walk) => walk.next(),
            Walk::Intersection(walk) => walk.next(),
            Walk::Union(walk) => walk.next(),
        }
    }

    fn next_back(&mut self) -> Option<&'s Item<'a>> {
        match self {
            Walk::All(walk) => walk.next_back(),
            Walk::Within(walk) => walk.next_back(),
            _ => None,
        }
    }

    fn size_hint(&self) -> (usize, Option<usize>) {
        match self {
            Walk::All(walk) => walk.size_hint(),
            Walk::Within(walk) => walk.size_hint(),
            Walk::Difference(walk) => walk.size_hint(),
            Walk::SymmetricDifference(walk) => walk.size_hint(),
            Walk::Intersection(walk) => walk.size_hint(),
            Walk::Union(walk) => walk.size_hint(),
        }
    }

    // A walk over the same items from here on.
    fn again(&self) -> Option<Walk<'s, 'a>> {
        Some(match self {
            Walk::All(walk) => Walk::All(walk.clone().ok()?),
            Walk::Within(walk) => Walk::Within(walk.clone().ok()?),
            Walk::Difference(walk) => Walk::Difference(walk.clone().ok()?),
            Walk::SymmetricDifference(walk) => Walk::SymmetricDifference(walk.clone().ok()?),
            Walk::Intersection(walk) => Walk::Intersection(walk.clone().ok()?),
            Walk::Union(walk) => Walk::Union(walk.clone().ok()?),
        })
    }

    fn show(&self, out: &mut Out) {
        match self {
            Walk::All(walk) => out.debug(walk),
            Walk::Within(walk) => out.debug(walk),
            _ => out.word("?"),
        }
    }

    fn len(&self) -> usize {
        match self {
            Walk::All(walk) => walk.len(),
            _ => 0,
        }
    }
}

// Takes the steps of a walk of this kind: one letter each.
pub(crate) fn take_steps<'a>(sets: &mut Sets<'a>, kind: &str, steps: &str, out: &mut Out) {
    let (ours, theirs) = (&sets.ours, &sets.theirs);
    match kind {
        "iter" => borrowed(Walk::All(ours.iter()), steps, out),
        "difference" => borrowed(Walk::Difference(ours.difference(theirs)), steps, out),
        "symmetric_difference" => {
            let walk = ours.symmetric_difference(theirs);
            borrowed(Walk::SymmetricDifference(walk), steps, out);
        }
        "intersection" => borrowed(Walk::Intersection(ours.intersection(theirs)), steps, out),
        "union" => borrowed(Walk::Union(ours.union(theirs)), steps, out),
        "into_iter" => {
            let ours = mem::replace(&mut sets.ours, BTreeSet::new(sets.alloc));
            owned(ours.into_iter(), steps, out);
        }
        _ => within(sets, kind, steps, out),
    }
}

// The letters are n for the next item, b for the next from the back, h for what it tells of its length, l for its length, d for its text,
// c for another walk from here on, and s for going on with the other walk.
fn borrowed(mut walk: Walk<'_, '_>, steps: &str, out: &mut Out) {
    let mut other = walk.again();
    for step in steps.chars() {
        match step {
            'n' => out.lent(walk.next()),
            'b' => out.lent(walk.next_back()),
            'h' => out.hint(walk.size_hint()),
            'l' => out.number(walk.len() as u64),
            'd' => walk.show(out),
            'c' => other = walk.again(),
            's' => {
                if let Some(other) = &mut other {
                    mem::swap(&mut walk, other);
                }
                out.word("|");
            }
            _ => out.word("?"),
        }
    }
}

fn owned(mut walk: IntoIter<Item<'_>>, steps: &str, out: &mut Out) {
    for step in steps.chars() {
        match step {
            'n' => out.owned(walk.next()),
            'b' => out.owned(walk.next_back()),
            'h' => out.hint(walk.size_hint()),
            'l' => out.number(walk.len() as u64),
            'd' => out.debug(&walk),
            _ => out.word("?"),
        }
    }
}

// Walks what lies within bounds like `[4..8]`, `[5..5)` or `(5..`.
fn within(sets: &Sets<'_>, bounds: &str, steps: &str, out: &mut Out) {
    let Some((from, to)) = bounds.split_once("..") else {
        return out.word("?");
    };
    let lo_item = bound_in(sets, from.strip_prefix('[').or(from.strip_prefix('(')));
    let lo = match &lo_item {
        Some(item) if from.starts_with('[') => Bound::Included(item),
        Some(item) => Bound::Excluded(item),
        None => Bound::Unbounded,
    };
    let hi_item = bound_in(sets, to.strip_suffix(']').or(to.strip_suffix(')')));
    let hi = match &hi_item {
        Some(item) if to.ends_with(']') => Bound::Included(item),
        Some(item) => Bound::Excluded(item),
        None => Bound::Unbounded,
    };
    if is_range(&lo, &hi) {
        borrowed(Walk::Within(sets.ours.range((lo, hi))), steps, out);
    } else {
        out.word("no range");
    }
}

// The item of a bound, if it has one.
fn bound_in<'a>(sets: &Sets<'a>, word: Option<&str>) -> Option<Item<'a>> {
    sets.item(word?)
}
