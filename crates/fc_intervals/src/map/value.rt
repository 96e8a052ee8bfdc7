//! Values of stretches, set in place.
ghost use Rattle.std.specs.Prelude.{◌≡◌, IfOk, IfErr, OnErr, None};
ghost use Rattle.fc_intervals.specs.Stretches.{stretch_at};
ghost use Rattle.fc_intervals.specs.ValueSet.{IsValueSet};

use super::IntervalMap;
use crate::steps;
use fc_base::{Count, Handle};
use std::mem;

impl<K: Ord + Copy, V, A: Handle> IntervalMap<K, V, A> {
    /// Gives the stretch that covers a point, and so all of its points, another value, and answers the one that it had. It copies no value and takes
    /// no memory, as `try_put` over the stretch's range may.
    ///
    /// # Errors
    /// Where no stretch covers the point. The map is then as it was, and the value comes back.
    pub fn set_value(&mut self, at: K, value: V) -> Result<V, V>
        ensures set { IfOk result (λ had. IsValueSet K.cmp at had value self.old self.new) }
        ensures none { OnErr result (stretch_at K.cmp self.old at ≡ None) }
        ensures unchanged { OnErr result (self.new ≡ self.old) }
        ensures back { IfErr result (λ back. back ≡ value) }
    {
        let Some((start, _stretch)) = steps::covering(&self.map, &at, &mut Count::new()) else {
            return Err(value);
        };
        let start = *start;
        let Some(stretch) = self.map.get_mut(&start) else {
            return Err(value);
        };
        Ok(mem::replace(&mut stretch.value, value))
    }
}
