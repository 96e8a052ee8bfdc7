//! The ordered map.

pub use fc_map::map::{
    BTreeMap, Entry, IntoIter, IntoKeys, IntoValues, Iter, IterMut, Keys, OccupiedEntry, Range,
    RangeMut, ReadyEntry, Reservation, VacantEntry, Values, ValuesMut, insert_both, is_range,
};
