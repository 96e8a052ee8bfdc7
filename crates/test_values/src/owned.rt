//! Numbers that own memory.
ghost use Rattle.std.specs.Prelude.{◌≡◌};

use fc_base::{TryBox, TryClone, TryReserveError};
use std::alloc::Global;

/// A number with a box of its own. Two of one number are equal. Where one is forgotten, its block is not given back, which `tools/sweep` sees.
#[derive(Drop)]
#[derive_where(PartialEq, Eq, PartialOrd, Ord, Hash)]
pub struct Owned {
    pub number: u64,
    #[derive_where(skip)]
    own: TryBox<u64>,
}

impl Owned {
    /// The number, or `AllocError` where its box is refused.
    pub fn try_new(alloc: Global, number: u64) -> Result<Owned, TryReserveError> {
        let own = TryBox::try_new(alloc, number)?;
        Ok(Owned { number, own })
    }
}

impl TryClone for Owned {
    ghost same = { λ source copy. copy.number ≡ source.number };

    fn try_clone(&self) -> Result<Owned, TryReserveError> {
        let own = self.own.try_clone()?;
        Ok(Owned {
            number: self.number,
            own,
        })
    }
}
