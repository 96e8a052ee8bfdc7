//! Keys and values that tell which of them live, keys that count their comparisons as well, and maps of them.
use fc_map::map::{BTreeMap, Iter};
use std::alloc::Global;
use std::cell::Cell;
use test_values::CountingKey;

/// The numbers below this one are told apart.
pub(crate) const NUMBERS: usize = 192;

// Which of the numbers live, a bit for each, and whether one was made or dropped that was there twice or not at all.
#[derive(Drop)]
struct Living {
    words: [Cell<u64>; 3],
    is_wrong: Cell<bool>,
}

impl Living {
    fn new() -> Living {
        Living {
            words: [Cell::new(0), Cell::new(0), Cell::new(0)],
            is_wrong: Cell::new(false),
        }
    }

    // The number is made where none like it lives, or dropped where one does.
    fn turn(&self, number: usize, lives: bool) {
        let bit = 1u64 << (number % 64);
        match self.words.get(number / 64) {
            Some(word) if (word.get() & bit == 0) == lives => word.set(word.get() ^ bit),
            _ => self.is_wrong.set(true),
        }
    }

    fn has(&self, number: usize) -> bool {
        match self.words.get(number / 64) {
            Some(word) => word.get() & (1u64 << (number % 64)) != 0,
            None => false,
        }
    }

    // Whether just the first ones live, without the second ones.
    fn are(&self, numbers: &[usize], without: &[usize]) -> bool {
        for number in 0..NUMBERS {
            if self.has(number) != (numbers.contains(&number) && !without.contains(&number)) {
                return false;
            }
        }
        !self.is_wrong.get()
    }
}

/// What is known of the keys and values of one kind: which live, and how often the keys were compared.
#[derive(Drop)]
pub(crate) struct Ledger {
    keys: Living,
    values: Living,
    pub(crate) comparisons: Cell<u64>,
}

impl Ledger {
    pub(crate) fn new() -> Ledger {
        Ledger {
            keys: Living::new(),
            values: Living::new(),
            comparisons: Cell::new(0),
        }
    }

    /// Whether just the keys and values of the first numbers live, without those of the second ones, and each that was dropped was there.
    pub(crate) fn are_living(&self, numbers: &[usize], without: &[usize]) -> bool {
        self.keys.are(numbers, without) && self.values.are(numbers, without)
    }
}

/// A number as a key.
#[derive_where(PartialEq, Eq, PartialOrd, Ord)]
pub(crate) struct Key<'a> {
    counted: CountingKey<'a>,
    #[derive_where(skip)]
    ledger: &'a Ledger,
}

impl Key<'_> {
    pub(crate) fn number(&self) -> usize {
        self.counted.number as usize
    }
}

/// A value that belongs to a number.
pub(crate) struct Value<'a> {
    pub(crate) number: usize,
    ledger: &'a Ledger,
}

pub(crate) fn make_key<'a>(number: usize, ledger: &'a Ledger) -> Key<'a> {
    ledger.keys.turn(number, true);
    let counted = CountingKey {
        number: number as u64,
        comparisons: &ledger.comparisons,
    };
    Key { counted, ledger }
}

pub(crate) fn pair<'a>(number: usize, ledger: &'a Ledger) -> (Key<'a>, Value<'a>) {
    ledger.values.turn(number, true);
    (make_key(number, ledger), Value { number, ledger })
}

impl Drop for Key<'_> {
    fn drop(self) {
        self.ledger.keys.turn(self.number(), false);
        let Key {
            counted: _,
            ledger: _,
        } = self;
    }
}

impl Drop for Value<'_> {
    fn drop(self) {
        let Value { number, ledger } = self;
        ledger.values.turn(number, false);
    }
}

pub(crate) type Map<'a> = BTreeMap<Key<'a>, Value<'a>>;

// Puts the pair in, and where it was refused what came back, once more: whether it is in at last, and was new.
fn puts<'a>(map: &mut Map<'a>, number: usize, ledger: &'a Ledger) -> bool {
    let (key, value) = pair(number, ledger);
    match map.try_insert(key, value) {
        Ok(old) => old.is_none(),
        Err((key, value, _refused)) => matches!(map.try_insert(key, value), Ok(None)),
    }
}

/// A map of the numbers; where it is refused, there is no memory.
pub(crate) fn map_of<'a>(alloc: Global, numbers: &[usize], ledger: &'a Ledger) -> Option<Map<'a>> {
    let mut map = BTreeMap::new(alloc);
    for number in numbers {
        if !puts(&mut map, *number, ledger) {
            return None;
        }
    }
    Some(map)
}

pub(crate) fn is_pair(item: Option<(&Key<'_>, &Value<'_>)>, number: usize) -> bool {
    match item {
        Some((key, value)) => key.number() == number && value.number == number,
        None => false,
    }
}

fn gives_forward(walk: &mut Iter<'_, Key<'_>, Value<'_>>, numbers: &[usize]) -> bool {
    for number in numbers {
        if !is_pair(walk.next(), *number) {
            return false;
        }
    }
    walk.next().is_none()
}

fn gives_backward(walk: &mut Iter<'_, Key<'_>, Value<'_>>, numbers: &[usize]) -> bool {
    for number in numbers.iter().rev() {
        if !is_pair(walk.next_back(), *number) {
            return false;
        }
    }
    walk.next_back().is_none()
}

/// Whether the map holds just these numbers.
pub(crate) fn holds(map: &Map<'_>, numbers: &[usize]) -> bool {
    map.len() == numbers.len()
        && gives_forward(&mut map.iter(), numbers)
        && gives_backward(&mut map.iter(), numbers)
}
