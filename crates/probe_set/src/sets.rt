//! The two sets, and the numbers of a row.
use crate::item::{Item, Tally};
use crate::out::Out;
use fc_base::TryReserveError;
use fc_set::set::BTreeSet;
use std::alloc::Global;
use std::mem;

pub(crate) type Set<'a> = BTreeSet<Item<'a>>;

#[derive(Drop)]
pub(crate) struct Sets<'a> {
    pub(crate) ours: Set<'a>,
    pub(crate) theirs: Set<'a>,
    pub(crate) tally: &'a Tally,
    pub(crate) alloc: Global,
    held: Option<Item<'a>>,
}

impl<'a> Sets<'a> {
    pub(crate) fn new(alloc: Global, tally: &'a Tally) -> Sets<'a> {
        Sets {
            ours: BTreeSet::new(alloc),
            theirs: BTreeSet::default(alloc),
            tally,
            alloc,
            held: None,
        }
    }

    // Puts a set that a call made in the place of theirs.
    pub(crate) fn keep(&mut self, made: Result<Set<'a>, TryReserveError>, out: &mut Out) {
        match made {
            Ok(set) => {
                drop(mem::replace(&mut self.theirs, set));
                out.word("done");
            }
            Err(e) => out.refused(e),
        }
    }

    // Answers with an item that a call handed out, and holds it: the one that was held is dropped.
    pub(crate) fn hold(&mut self, item: Option<Item<'a>>, out: &mut Out) {
        out.lent(item.as_ref());
        self.held = item;
    }

    pub(crate) fn let_go(&mut self) {
        self.held = None;
    }

    // A number that tells what both sets have, in order.
    pub(crate) fn digest(&self) -> u64 {
        digest(&self.ours, digest(&self.theirs, 1))
    }

    // Whether just those items live that are in the sets or held.
    pub(crate) fn are_all_living(&self) -> bool {
        let in_sets = (self.ours.len() as u64).wrapping_add(self.theirs.len() as u64);
        self.tally.living.get() == in_sets.wrapping_add(u64::from(self.held.is_some()))
    }

    // The item that a word like `12` or `12x` names.
    pub(crate) fn item(&self, word: &str) -> Option<Item<'a>> {
        let letter = letter_of(word);
        let number = word.strip_suffix(letter)?.parse::<u64>().ok()?;
        Some(Item::new(number, letter, self.tally))
    }
}

fn digest(set: &Set<'_>, from: u64) -> u64 {
    let mut digest = from;
    for item in set {
        let told = item
            .counted
            .number
            .wrapping_mul(2)
            .wrapping_add(item.letter.len() as u64);
        digest = digest.wrapping_add(told).wrapping_mul(1_000_003);
    }
    digest
        .wrapping_add(set.len() as u64)
        .wrapping_mul(1_000_003)
}

fn letter_of(word: &str) -> &'static str {
    if word.ends_with('x') {
        "x"
    } else if word.ends_with('y') {
        "y"
    } else if word.ends_with('z') {
        "z"
    } else {
        ""
    }
}

// The numbers that a word like `3..1000` or `3..1000/3` names: from the first on below the end, in steps. What comes before the dots may have a letter,
// which each of them has.
#[derive(Clone, Copy)]
pub(crate) struct Numbers {
    pub(crate) first: u64,
    pub(crate) end: u64,
    pub(crate) step: u64,
    pub(crate) letter: &'static str,
}

pub(crate) fn numbers_in(word: &str) -> Option<Numbers> {
    let (first, rest) = word.split_once("..")?;
    let (end, step) = rest.split_once("/").unwrap_or((rest, "1"));
    let letter = letter_of(first);
    Some(Numbers {
        first: first.strip_suffix(letter)?.parse::<u64>().ok()?,
        end: end.parse::<u64>().ok()?,
        step: step.parse::<u64>().ok()?,
        letter,
    })
}
