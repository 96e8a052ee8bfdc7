//! Keys whose order reads one of three fields, so that it can be seen which of two equal ones is there.
ghost use Rattle.std.specs.Prelude.{◌≡◌};

use fc_base::{TryClone, TryReserveError};

/// Two keys are equal where their numbers are, whatever else they have.
#[derive(Clone, Copy, Debug)]
#[derive_where(PartialEq, Eq, PartialOrd, Ord, Hash)]
pub struct Tagged {
    #[derive_where(skip(EqHashOrd))]
    pub turn: u64,
    pub number: u64,
    #[derive_where(skip(EqHashOrd))]
    pub letter: char,
}

impl Tagged {
    /// A key whose first field rises with its number where its letter is a, and else falls.
    pub fn new(number: u64, letter: char) -> Tagged
        ensures { result.number ≡ number }
    {
        let turn = if letter == 'a' {
            number
        } else {
            u64::MAX - number
        };
        Tagged {
            turn,
            number,
            letter,
        }
    }

    /// Whether this is the key that was made of the number and the letter.
    pub fn is(&self, number: u64, letter: char) -> bool {
        let wanted = Tagged::new(number, letter);
        self.number == number && self.letter == letter && self.turn == wanted.turn
    }
}

impl TryClone for Tagged {
    ghost same = { λ source copy. copy ≡ source };

    fn try_clone(&self) -> Result<Tagged, TryReserveError> {
        Ok(*self)
    }
}
