//! What a stretch of points has beside its start.
ghost use Rattle.fc_intervals.specs.Compare.{stretch_eq, stretch_equiv, stretch_per};
ghost use Rattle.fc_intervals.specs.Copies.{MayRefuseStretch, SameStretch};

use fc_base::{TryClone, TryReserveError};

/// Where a stretch of points ends, which is a point that does not lie in it, and the value of its points.
#[derive(Drop)]
pub struct Stretch<K, V> {
    pub end: K,
    pub value: V,
}

/// Equal are stretches with equal ends and equal values.
impl<K: PartialEq, V: PartialEq> PartialEq for Stretch<K, V> {
    ghost eq = { stretch_eq K.eq V.eq };

    ghost laws = { stretch_per K.laws V.laws };

    fn eq(&self, other: &Stretch<K, V>) -> bool {
        self.end == other.end && self.value == other.value
    }
}

impl<K: Eq, V: Eq> Eq for Stretch<K, V> {
    ghost laws = { stretch_equiv K.Eq.laws V.Eq.laws };
}

/// Copies of the end and of the value.
///
/// # Errors
/// The error of the end's copy, or else of the value's. What was made by then is dropped.
impl<K: TryClone, V: TryClone> TryClone for Stretch<K, V> {
    ghost same = { SameStretch K.same V.same };

    ghost can_clone = { K.can_clone × V.can_clone };

    ghost may_refuse = { MayRefuseStretch K.may_refuse V.may_refuse };

    fn try_clone(&self) -> Result<Stretch<K, V>, TryReserveError> {
        let end = self.end.try_clone()?;
        let value = self.value.try_clone()?;
        Ok(Stretch { end, value })
    }
}
