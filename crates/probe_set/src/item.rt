//! Items: numbers that may have a letter, and tell what is done with them.
ghost use Rattle.std.specs.Prelude.{◌≡◌};

use fc_base::{TryClone, TryReserveError};
use std::cell::Cell;
use std::fmt::{self, Debug, Formatter};
use test_values::{CountingKey, add_one};

// How many comparisons there were, how many items live, how many copies of items may still be made and whether the next one is refused as an overflow; and
// how many items were dropped by letter.
#[derive(Drop)]
pub(crate) struct Tally {
    pub(crate) comparisons: Cell<u64>,
    pub(crate) living: Cell<u64>,
    pub(crate) copies_left: Cell<u64>,
    pub(crate) overflows: Cell<bool>,
    pub(crate) plain_drops: Cell<u64>,
    pub(crate) x_drops: Cell<u64>,
    pub(crate) y_drops: Cell<u64>,
    pub(crate) z_drops: Cell<u64>,
}

impl Tally {
    pub(crate) fn new() -> Tally {
        Tally {
            comparisons: Cell::new(0),
            living: Cell::new(0),
            copies_left: Cell::new(u64::MAX),
            overflows: Cell::new(false),
            plain_drops: Cell::new(0),
            x_drops: Cell::new(0),
            y_drops: Cell::new(0),
            z_drops: Cell::new(0),
        }
    }

    pub(crate) fn reset(&self) {
        self.comparisons.set(0);
        self.plain_drops.set(0);
        self.x_drops.set(0);
        self.y_drops.set(0);
        self.z_drops.set(0);
    }

    // By which error a copy of an item is refused.
    fn refusal(&self) -> TryReserveError {
        if self.overflows.get() {
            TryReserveError::CapacityOverflow
        } else {
            TryReserveError::AllocError
        }
    }

    fn drops_of(&self, letter: &str) -> &Cell<u64> {
        match letter {
            "x" => &self.x_drops,
            "y" => &self.y_drops,
            "z" => &self.z_drops,
            _ => &self.plain_drops,
        }
    }
}

// Items are equal where their numbers are, whatever their letters.
#[derive_where(PartialEq, Eq, PartialOrd, Ord)]
pub(crate) struct Item<'a> {
    pub(crate) counted: CountingKey<'a>,
    #[derive_where(skip)]
    pub(crate) letter: &'static str,
    #[derive_where(skip)]
    pub(crate) tally: &'a Tally,
}

impl<'a> Item<'a> {
    pub(crate) fn new(number: u64, letter: &'static str, tally: &'a Tally) -> Item<'a>
        ensures { result.counted.number ≡ number }
    {
        add_one(&tally.living);
        Item {
            counted: CountingKey::new(number, &tally.comparisons),
            letter,
            tally,
        }
    }
}

impl Drop for Item<'_> {
    fn drop(self) {
        add_one(self.tally.drops_of(self.letter));
        let living = &self.tally.living;
        living.set(living.get().wrapping_sub(1));
        let Item {
            counted: _,
            letter: _,
            tally: _,
        } = self;
    }
}

impl TryClone for Item<'_> {
    ghost same = { λ source copy. copy.counted.number ≡ source.counted.number };

    fn try_clone(&self) -> Result<Self, TryReserveError> {
        let left = self.tally.copies_left.get();
        if left == 0 {
            return Err(self.tally.refusal());
        }
        self.tally.copies_left.set(left - 1);
        Ok(Item::new(self.counted.number, self.letter, self.tally))
    }
}

impl Debug for Item<'_> {
    fn fmt<W: fmt::Write>(&self, f: &mut Formatter<W>) -> fmt::Result {
        write!(f, "{}{}", self.counted.number, self.letter)
    }
}
