//! Maps, their walks and their entries.
use super::traits::{compares, copies, crosses, prints};
use fc_map::map::{
    BTreeMap, Entry, IntoIter, IntoKeys, IntoValues, Iter, IterMut, Keys, OccupiedEntry, Range,
    RangeMut, ReadyEntry, Reservation, VacantEntry, Values, ValuesMut,
};
use std::test::Fail;

type Map = BTreeMap<u64, u64>;

#[test]
fn maps_cross_threads(rt: HostRuntime) {
    assert!(rt;
        crosses::<Map>()
            && crosses::<&Map>()
            && crosses::<&mut Map>()
            && crosses::<Reservation<u64, u64>>()
    );
}

// One walk a function, since the search for a proof of several in one gives up.
fn pairs_cross() -> bool {
    crosses::<Iter<'static, u64, u64>>()
}

fn ranges_cross() -> bool {
    crosses::<Range<'static, u64, u64>>()
}

fn keys_cross() -> bool {
    crosses::<Keys<'static, u64, u64>>()
}

fn values_cross() -> bool {
    crosses::<Values<'static, u64, u64>>()
}

fn written_pairs_cross() -> bool {
    crosses::<IterMut<'static, u64, u64>>()
}

fn written_values_cross() -> bool {
    crosses::<ValuesMut<'static, u64, u64>>()
}

fn written_ranges_cross() -> bool {
    crosses::<RangeMut<'static, u64, u64>>()
}

fn owned_pairs_cross() -> bool {
    crosses::<IntoIter<u64, u64>>()
}

fn owned_keys_cross() -> bool {
    crosses::<IntoKeys<u64, u64>>()
}

fn owned_values_cross() -> bool {
    crosses::<IntoValues<u64, u64>>()
}

#[test]
fn walks_of_maps_cross_threads(rt: HostRuntime) {
    assert!(rt; pairs_cross() && ranges_cross() && keys_cross() && values_cross());
    assert!(rt; written_pairs_cross() && written_values_cross() && written_ranges_cross());
    assert!(rt; owned_pairs_cross() && owned_keys_cross() && owned_values_cross());
}

#[test]
fn entries_cross_threads(rt: HostRuntime) {
    let found = crosses::<Entry<'static, u64, u64>>()
        && crosses::<OccupiedEntry<'static, u64, u64>>();
    let open = crosses::<VacantEntry<'static, u64, u64>>()
        && crosses::<ReadyEntry<'static, u64, u64>>();
    assert!(rt; found && open);
}

#[test]
fn maps_print_and_compare(rt: HostRuntime) {
    assert!(rt; prints::<Map>() && compares::<Map>());
}

#[test]
fn walks_of_maps_print(rt: HostRuntime) {
    let read = prints::<Iter<'static, u64, u64>>() && prints::<Range<'static, u64, u64>>();
    let parts = prints::<Keys<'static, u64, u64>>() && prints::<Values<'static, u64, u64>>();
    let written = prints::<IterMut<'static, u64, u64>>()
        && prints::<ValuesMut<'static, u64, u64>>()
        && prints::<RangeMut<'static, u64, u64>>();
    let owned = prints::<IntoIter<u64, u64>>()
        && prints::<IntoKeys<u64, u64>>()
        && prints::<IntoValues<u64, u64>>();
    assert!(rt; read && parts && written && owned);
}

#[test]
fn entries_print(rt: HostRuntime) {
    let found = prints::<Entry<'static, u64, u64>>()
        && prints::<OccupiedEntry<'static, u64, u64>>();
    let open = prints::<VacantEntry<'static, u64, u64>>()
        && prints::<ReadyEntry<'static, u64, u64>>();
    assert!(rt; found && open);
}

#[test]
fn reading_walks_of_maps_copy(rt: HostRuntime) {
    let pairs = copies::<Iter<'static, u64, u64>>() && copies::<Range<'static, u64, u64>>();
    let parts = copies::<Keys<'static, u64, u64>>() && copies::<Values<'static, u64, u64>>();
    assert!(rt; pairs && parts);
}
