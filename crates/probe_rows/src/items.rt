//! Items that tell what is done to them: compared, copied or dropped. They serve as keys and as values.
ghost use Rattle.std.specs.Prelude.{◌≡◌, ℕ};
ghost use Rattle.std.proofs.lemmas.Cmp.{nat_cmp_total};
ghost use Rattle.std.specs.Ordering.{nat_cmp};
ghost use Rattle.fc_base.specs.Viewed.{viewed};

use fc_base::{Query, TryClone, TryReserveError};
use std::alloc::{AllocError, Global};
use std::cell::Cell;
use std::cmp::Ordering;
use test_values::{CountingKey, add_one};

/// How often an item was copied, and how often it or a copy of it was dropped.
#[derive(Drop)]
pub struct Lives {
    pub copies: Cell<u64>,
    pub drops: Cell<u64>,
}

#[derive(Drop)]
pub struct PairLives {
    pub key: Lives,
    pub value: Lives,
}

#[derive(Drop)]
pub struct Counts {
    pub comparisons: Cell<u64>,
    // So many items are still copied before one refuses.
    pub left: Cell<u64>,
    pub calls: Cell<u64>,
    pub random: Cell<u64>,
}

/// What all items tell of: the lives of the pairs by their numbers, and of the keys that are sought.
#[derive(Clone, Copy)]
pub struct World<'a> {
    pub alloc: Global,
    pub lives: &'a [PairLives],
    pub sought: &'a PairLives,
    pub counts: &'a Counts,
}

/// The lives of a pair that was neither copied nor dropped.
pub fn no_lives() -> PairLives {
    PairLives {
        key: no_life(),
        value: no_life(),
    }
}

fn no_life() -> Lives {
    Lives {
        copies: Cell::new(0),
        drops: Cell::new(0),
    }
}

/// The lives of so many pairs.
pub fn fresh_lives(alloc: Global, pairs: usize) -> Result<Vec<PairLives>, AllocError> {
    let mut all = Vec::with_capacity(alloc, pairs)?;
    for _ in 0..pairs {
        all.push(no_lives())?;
    }
    Ok(all)
}

impl Counts {
    /// Nothing is counted yet, and each copy is left.
    pub fn new() -> Counts {
        Counts {
            comparisons: Cell::new(0),
            left: Cell::new(u64::MAX),
            calls: Cell::new(0),
            random: Cell::new(7),
        }
    }
}

impl<'a> World<'a> {
    /// The lives of the pair of a number, or those that are sought where no pair has it.
    pub fn lives_of(&self, number: u64) -> &'a PairLives {
        match self.lives.get(number as usize) {
            Some(lives) => lives,
            None => self.sought,
        }
    }

    /// A pair's key, with a tag by which no key is compared.
    pub fn key(&self, number: u64, tag: u64) -> Item<'a> {
        Item {
            counted: CountingKey::new(number, &self.counts.comparisons),
            tag,
            lives: &self.lives_of(number).key,
            counts: self.counts,
        }
    }

    /// A key to search by, whose drop is no pair's.
    pub fn sought(&self, number: u64) -> Item<'a> {
        Item {
            counted: CountingKey::new(number, &self.counts.comparisons),
            tag: 0,
            lives: &self.sought.key,
            counts: self.counts,
        }
    }

    /// The value of a pair whose key has this number.
    pub fn value(&self, of: u64, number: u64) -> Item<'a> {
        Item {
            counted: CountingKey::new(number, &self.counts.comparisons),
            tag: 0,
            lives: &self.lives_of(of).value,
            counts: self.counts,
        }
    }

    /// Whether the keys and the values of so many numbers were dropped so often.
    pub fn were_dropped(&self, first: u64, count: u64, drops: u64) -> bool {
        for place in 0..count {
            let lives = self.lives_of(first.wrapping_add(place));
            if lives.key.drops.get() != drops || lives.value.drops.get() != drops {
                return false;
            }
        }
        true
    }

    /// How many keys and values were copied, if none was copied twice, and each copy was dropped and nothing else.
    pub fn dropped_copies(&self) -> Option<u64> {
        let mut copies = 0u64;
        for i in 0..self.lives.len() {
            let lives = &self.lives[i];
            if !is_copy_dropped(&lives.key) || !is_copy_dropped(&lives.value) {
                return None;
            }
            copies = copies
                .wrapping_add(lives.key.copies.get())
                .wrapping_add(lives.value.copies.get());
        }
        Some(copies)
    }

    /// Comparisons, calls and lives are counted anew.
    pub fn forget(&self) {
        self.counts.comparisons.set(0);
        self.counts.calls.set(0);
        forget_life(&self.sought.key);
        forget_life(&self.sought.value);
        for i in 0..self.lives.len() {
            forget_life(&self.lives[i].key);
            forget_life(&self.lives[i].value);
        }
    }
}

fn forget_life(lives: &Lives) {
    lives.copies.set(0);
    lives.drops.set(0);
}

fn is_copy_dropped(lives: &Lives) -> bool {
    let copies = lives.copies.get();
    copies <= 1 && lives.drops.get() == copies
}

/// Whether two pairs were copied and dropped alike.
pub fn are_same(one: &PairLives, other: &PairLives) -> bool {
    are_same_lives(&one.key, &other.key) && are_same_lives(&one.value, &other.value)
}

fn are_same_lives(one: &Lives, other: &Lives) -> bool {
    one.copies.get() == other.copies.get() && one.drops.get() == other.drops.get()
}

/// A number that counts its comparisons, copies and drops. Items of one number are equal, whatever their tags.
#[derive_where(PartialEq, Eq, PartialOrd, Ord)]
pub struct Item<'a> {
    pub counted: CountingKey<'a>,
    #[derive_where(skip)]
    pub tag: u64,
    #[derive_where(skip)]
    pub lives: &'a Lives,
    #[derive_where(skip)]
    pub counts: &'a Counts,
}

impl Drop for Item<'_> {
    fn drop(self) {
        add_one(&self.lives.drops);
        let Item {
            counted: _,
            tag: _,
            lives: _,
            counts: _,
        } = self;
    }
}

impl TryClone for Item<'_> {
    ghost same = { λ source copy. copy.counted.number ≡ source.counted.number };

    fn try_clone(&self) -> Result<Self, TryReserveError> {
        if !takes_copy(self.counts, self.lives) {
            return Err(TryReserveError::CapacityOverflow);
        }
        Ok(Item {
            counted: self.counted,
            tag: self.tag,
            lives: self.lives,
            counts: self.counts,
        })
    }
}

/// A number that items are searched by.
#[derive(Clone, Copy)]
pub struct Number(pub u64);

impl Query<Item<'_>> for Number {
    ghost Sought = { ℕ };

    ghost sought = { λ query. query.0 };

    ghost order = { λ item number. nat_cmp item.counted.number number };

    ghost fits = { viewed nat_cmp_total (λ item. item.counted.number) (λ number. number) };

    fn order_of(&self, item: &Item<'_>) -> Ordering {
        add_one(&item.counts.comparisons);
        item.counted.number.cmp(&self.0)
    }
}

// Whether one more copy is left, which is then counted.
fn takes_copy(counts: &Counts, lives: &Lives) -> bool {
    let left = counts.left.get();
    if left == 0 {
        return false;
    }
    counts.left.set(left.wrapping_sub(1));
    add_one(&lives.copies);
    true
}
