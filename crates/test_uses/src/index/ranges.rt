//! Rows taken out by the range of a first key, beside a plain array of them.
use super::plain::{IDS, Part, Parts, Plain, is_like};
use fc_index::{Table, TryReserveError};
use std::alloc::Global;
use std::ops::Bound;
use test_values::Owned;

// Rows at all ids but each fourth, in the table and in the array.
fn filled(table: &mut Parts, plain: &mut Plain) -> bool {
    for at in 0..IDS {
        let id = at as u64;
        if at % 4 == 3 {
            continue;
        }
        let row = Part {
            first: id % 5,
            second: id % 3,
            value: id,
        };
        plain[at] = Some(row);
        if table
            .try_insert(id, row.first, row.second, row.value)
            .is_err()
        {
            return false;
        }
    }
    true
}

// Takes the rows out of the array whose first keys lie from one up to, and with, another, and answers how many they were.
fn take(plain: &mut Plain, from: u64, to: u64) -> usize {
    let mut count = 0usize;
    for at in 0..IDS {
        if let Some(row) = plain[at] {
            if from <= row.first && row.first <= to {
                plain[at] = None;
                count = count.wrapping_add(1);
            }
        }
    }
    count
}

#[test]
fn rows_of_a_range_are_taken_out(rt: HostRuntime) {
    let mut table: Parts = Parts::new(rt.alloc());
    let mut plain = [None; IDS];
    assert!(rt; filled(&mut table, &mut plain) && is_like(&table, &plain));
    let none = table.remove_first_range((Bound::Included(3), Bound::Excluded(3)));
    assert!(rt; none == 0 && is_like(&table, &plain));
    let some = table.remove_first_range((Bound::Included(1), Bound::Included(2)));
    assert!(rt; some == take(&mut plain, 1, 2) && 0 < some && is_like(&table, &plain));
    let most = table.remove_first_range((Bound::Excluded(0), Bound::Unbounded));
    assert!(rt; most == take(&mut plain, 1, 9) && 0 < most && is_like(&table, &plain));
    let rest = table.remove_first_range((Bound::Unbounded, Bound::Unbounded));
    assert!(rt; rest == take(&mut plain, 0, 9) && table.is_empty() && is_like(&table, &plain));
}

fn of_owned(alloc: Global) -> Result<Table<u64, u64, u64, Owned>, TryReserveError> {
    let mut table = Table::new(alloc);
    for id in 0..6u64 {
        let value = Owned::try_new(alloc, id)?;
        if let Err((_value, error)) = table.try_insert(id, id % 3, 0, value) {
            return Err(error);
        }
    }
    Ok(table)
}

#[test]
fn rows_that_are_taken_out_are_dropped(rt: HostRuntime) {
    let Ok(mut table) = of_owned(rt.alloc()) else {
        return;
    };
    let gone = table.remove_first_range((Bound::Included(1), Bound::Included(1)));
    assert!(rt; gone == 2 && table.len() == 4 && !table.contains(1) && !table.contains(4));
}
