//! Rows of just one second key, rows lent in the order of a second key, and whole tables.
use super::plain::Parts;
use fc_index::{Keyed, Table, TryReserveError};
use fc_set::set::Range;
use std::alloc::Global;
use std::ops::Bound;
use std::test::Fail;
use test_values::Owned;

// Rows 0 to 5 with first keys 2, 4, 6, 2, 4, 6, and second keys that fall as the ids rise; each has ten times its id for a value.
fn six(table: &mut Parts) -> bool {
    let firsts = [2, 4, 6, 2, 4, 6];
    for id in 0..6u64 {
        let first = firsts[id as usize];
        if table.try_insert(id, first, 9 - id, id * 10).is_err() {
            return false;
        }
    }
    true
}

// Whether the walk has the items of one key and these ids, and nothing else.
fn has(walk: Range<'_, (u64, u64)>, key: u64, ids: &[u64]) -> bool {
    let mut walk = walk;
    for id in ids {
        match walk.next() {
            Some(item) if item.0 == key && item.1 == *id => (),
            _ => return false,
        }
    }
    walk.next().is_none()
}

#[test]
fn rows_of_one_key_are_walked_over(rt: HostRuntime) {
    let mut table: Parts = Parts::default(rt.alloc());
    assert!(rt; has(table.with_first(4), 4, &[]) && !table.contains_first(4));
    assert!(rt; six(&mut table));
    assert!(rt; has(table.with_first(4), 4, &[1, 4]) && has(table.with_first(5), 5, &[]));
    assert!(rt; has(table.with_second(7), 7, &[2]) && has(table.with_second(3), 3, &[]));
    assert!(rt; table.contains_first(6) && !table.contains_first(5));
    assert!(rt; table.contains_second(9) && !table.contains_second(10));
    assert!(rt; table.remove(2).is_some() && table.contains_first(6) && !table.contains_second(7));
    assert!(rt; table.remove(5).is_some() && !table.contains_first(6));
}

// Whether both have the row, at this id and with this value.
fn is_row(given: Option<(&u64, &Keyed<u64, u64, u64>)>, id: u64) -> bool {
    match given {
        Some((given, row)) => {
            *given == id && row.value == id.wrapping_mul(10) && row.second == 9u64.wrapping_sub(id)
        }
        None => false,
    }
}

#[test]
fn rows_are_lent_in_the_order_of_a_key(rt: HostRuntime) -> Result<(), Fail> {
    let mut table: Parts = Parts::default(rt.alloc());
    assert!(rt; six(&mut table));
    let mut low = table.rows_by_first((Bound::Unbounded, Bound::Excluded(6)));
    assert!(rt; is_row(low.next(), 0) && is_row(low.next(), 3) && is_row(low.next(), 1));
    let mut second = low.clone()?;
    assert!(rt; is_row(low.next_back(), 4) && low.next().is_none() && low.next_back().is_none());
    assert!(rt; is_row(second.next(), 4) && second.next().is_none() && second.next().is_none());
    let mut high = table.rows_by_second((Bound::Included(8), Bound::Unbounded));
    assert!(rt; is_row(high.next_back(), 0) && is_row(high.next(), 1) && high.next().is_none());
    let mut none = table.rows_by_second((Bound::Included(8), Bound::Excluded(2)));
    assert!(rt; none.next_back().is_none() && none.next().is_none());
    let mut sum = 0u64;
    for (id, row) in table.rows_by_second((Bound::Unbounded, Bound::Excluded(7))) {
        sum = sum
            .wrapping_mul(100)
            .wrapping_add(*id)
            .wrapping_add(row.value);
    }
    assert!(rt; sum == 554_433);
    Ok(())
}

#[test]
fn tables_are_compared_by_their_rows(rt: HostRuntime) {
    let mut one: Parts = Parts::default(rt.alloc());
    let mut other: Parts = Parts::default(rt.alloc());
    assert!(rt; one == other && six(&mut one) && one != other && six(&mut other) && one == other);
    assert!(rt; other.set_value(3, 7) == Ok(30) && one != other);
    assert!(rt; one.set_value(3, 7) == Ok(30) && one == other && one.remove(5).is_some());
    assert!(rt; one != other);
}

fn of_owned(alloc: Global) -> Result<Table<u64, u64, u64, Owned>, TryReserveError> {
    let mut table = Table::new(alloc);
    for id in 0..4u64 {
        let value = Owned::try_new(alloc, id)?;
        if let Err((_value, error)) = table.try_insert(id, 7 - id, 0, value) {
            return Err(error);
        }
    }
    Ok(table)
}

// What the walk did not give, and both indexes, are given back.
#[test]
fn rows_are_taken_out_of_a_table_by_value(rt: HostRuntime) {
    let Ok(table) = of_owned(rt.alloc()) else {
        return;
    };
    let mut walk = table.into_iter();
    let is_first = match walk.next() {
        Some((id, row)) => id == 0 && row.first == 7 && row.value.number == 0,
        None => false,
    };
    let is_last = match walk.next_back() {
        Some((id, row)) => id == 3 && row.first == 4 && row.value.number == 3,
        None => false,
    };
    assert!(rt; is_first && is_last && walk.len() == 2);
}
