//! Numbers that refuse to be copied.
ghost use Rattle.std.specs.Prelude.{◌≡◌, Some};

use fc_base::{TryClone, TryReserveError};

/// A number whose copy is refused with this error, where it has one. Two of one number are equal.
#[derive(Clone, Copy, Debug)]
#[derive_where(PartialEq, Eq, PartialOrd, Ord)]
pub struct Stubborn {
    pub number: u64,
    #[derive_where(skip(EqHashOrd))]
    pub refusal: Option<TryReserveError>,
}

impl TryClone for Stubborn {
    ghost same = { λ source copy. copy ≡ source };

    ghost may_refuse = { λ source e. source.refusal ≡ Some e };

    fn try_clone(&self) -> Result<Stubborn, TryReserveError> {
        match self.refusal {
            Some(refusal) => Err(refusal),
            None => Ok(*self),
        }
    }
}
