//! Numbers that a map is to have, and the ends that they are taken from.
use crate::row::Row;

/// Numbers from the first on, so many, at a distance.
#[derive(Clone, Copy)]
pub struct Stretch {
    pub first: u64,
    pub count: u64,
    pub distance: u64,
}

/// From which end each turn takes: so many from the front, then as the bits say, the lowest first, where 0 is the front.
#[derive(Clone, Copy)]
pub struct Turns {
    fronts: u64,
    pattern: u64,
}

/// No number.
pub const NOTHING: Stretch = Stretch {
    first: 0,
    count: 0,
    distance: 0,
};

/// All from the front.
pub const FORTH: Turns = Turns {
    fronts: 0,
    pattern: 0,
};

/// All from the back.
pub const BACK: Turns = Turns {
    fronts: 0,
    pattern: u64::MAX,
};

/// From either end in turn, the front first.
pub const MIXED: Turns = Turns {
    fronts: 0,
    pattern: 0xaaaa_aaaa_aaaa_aaaa,
};

/// From either end in turn, the back first.
pub const BACK_FIRST: Turns = Turns {
    fronts: 0,
    pattern: 0x5555_5555_5555_5555,
};

/// One from the front and two from the back, twice, and then two from the front.
pub const RAGGED: Turns = Turns {
    fronts: 0,
    pattern: 0x3636_3636_3636_3636,
};

impl Stretch {
    /// The number at a place, from 0 on.
    pub fn number(&self, place: u64) -> u64 {
        self.first.wrapping_add(place.wrapping_mul(self.distance))
    }

    /// The number at an end.
    pub fn end(&self, is_front: bool) -> u64 {
        if is_front {
            self.first
        } else {
            self.number(self.count.wrapping_sub(1))
        }
    }

    /// Without the number at an end.
    pub fn without(&self, is_front: bool) -> Stretch {
        Stretch {
            first: if is_front { self.number(1) } else { self.first },
            count: self.count.wrapping_sub(1),
            distance: self.distance,
        }
    }

    /// Without so many at either end.
    pub fn within(&self, skipped: u64) -> Stretch {
        Stretch {
            first: self.number(skipped),
            count: self.count.saturating_sub(skipped.saturating_mul(2)),
            distance: self.distance,
        }
    }

    /// The first so many.
    pub fn front(&self, count: u64) -> Stretch {
        Stretch {
            first: self.first,
            count,
            distance: self.distance,
        }
    }
}

impl Turns {
    /// Whether a turn takes from the front.
    pub fn is_front(&self, turn: u64) -> bool {
        turn < self.fronts || (self.pattern >> (turn % 64)) & 1 == 0
    }
}

/// The stretch that the words from a place on tell: from which number on, how many, and at which distance.
pub fn stretch_in(row: &Row, place: usize) -> Stretch {
    Stretch {
        first: row.number(place),
        count: row.number(place.saturating_add(1)),
        distance: row.number(place.saturating_add(2)),
    }
}

/// The turns that the words from a place on tell: how many from the front, a pattern, and by what it is multiplied.
pub fn turns_in(row: &Row, place: usize) -> Turns {
    let pattern = row.number(place.saturating_add(1));
    Turns {
        fronts: row.number(place),
        pattern: pattern.wrapping_mul(row.number(place.saturating_add(2))),
    }
}
