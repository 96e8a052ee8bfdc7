//! Rows put in until one is refused: the table is as it was, and the value comes back.
use fc_base::{Handle, TryReserveError};
use fc_budget::Budget;
use fc_index::Table;
use std::alloc::Global;
use std::ops::Bound;
use std::test::Fail;
use test_values::Owned;

type Boxes<H> = Table<u64, u64, u64, Owned, H>;

// Whether the table has the rows below an id, each by its id and by both keys, and no other.
fn has_below<H: Handle>(table: &Boxes<H>, ids: u64) -> bool {
    let open = Bound::Unbounded;
    let mut firsts = table.by_first((open, open));
    let mut seconds = table.by_second((open, open));
    for id in 0..ids {
        let is_there = match table.get(id) {
            Some(row) => row.first == id
                && row.second == id.wrapping_add(100)
                && row.value.number == id,
            None => false,
        };
        let is_listed = firsts.next().copied() == Some((id, id))
            && seconds.next().copied() == Some((id.wrapping_add(100), id));
        if !is_there || !is_listed {
            return false;
        }
    }
    firsts.next().is_none() && seconds.next().is_none() && table.len() as u64 == ids
}

// So many, where the table has just the rows below that id.
fn if_has<H: Handle>(table: &Boxes<H>, ids: u64) -> Option<u64> {
    if has_below(table, ids) {
        Some(ids)
    } else {
        None
    }
}

// Puts rows in from id 0 on until one, or its value, is refused, and tells how many went in, where the refused value came back and the table has the others.
fn fill<H: Handle>(table: &mut Boxes<H>, alloc: Global, ids: u64) -> Option<u64> {
    for id in 0..ids {
        let Ok(value) = Owned::try_new(alloc, id) else {
            return if_has(table, id);
        };
        if let Err((value, error)) = table.try_insert(id, id, id.wrapping_add(100), value) {
            let is_back = value.number == id && error == TryReserveError::AllocError;
            return if is_back { if_has(table, id) } else { None };
        }
    }
    if_has(table, ids)
}

// The budget's bytes run out in the middle of a table: more of them, more rows.
#[test]
fn a_row_that_a_budget_refuses_leaves_the_table(rt: HostRuntime) {
    let mut last = 0u64;
    for bytes in 1..40u64 {
        let budget = Budget::new(rt.alloc(), bytes as usize * 512);
        let mut table = Boxes::new(&budget);
        let Some(ids) = fill(&mut table, rt.alloc(), 60) else {
            assert!(rt; false);
            return;
        };
        assert!(rt; last <= ids);
        last = ids;
        drop(table);
        assert!(rt; budget.used() == 0);
    }
    assert!(rt; 0 < last);
}

// The 16th row splits the leaf of each tree: where the second or third of them is refused, the keys that came in go again.
#[test]
fn a_row_that_full_leaves_refuse_changes_nothing(rt: HostRuntime) {
    let mut table = Boxes::new(rt.alloc());
    assert!(rt; fill(&mut table, rt.alloc(), 16).is_some());
}

// The sweep refuses each request in turn: of the values, and of the nodes of all three trees.
#[test]
fn a_refused_row_leaves_the_table(rt: HostRuntime) -> Result<(), Fail> {
    let mut table = Boxes::new(rt.alloc());
    let Ok(first) = Owned::try_new(rt.alloc(), 0) else {
        return Ok(());
    };
    if let Err((value, _error)) = table.try_insert(0, 0, 100, first) {
        assert!(rt; value.number == 0 && has_below(&table, 0));
        return Ok(());
    }
    let Ok(second) = Owned::try_new(rt.alloc(), 7) else {
        return Ok(());
    };
    match table.try_insert(0, 5, 105, second) {
        Ok(old) => {
            let is_old = match old {
                Some(row) => row.first == 0 && row.second == 100 && row.value.number == 0,
                None => false,
            };
            let is_new = match table.get(0) {
                Some(row) => row.first == 5 && row.second == 105 && row.value.number == 7,
                None => false,
            };
            assert!(rt; is_old && is_new && table.len() == 1);
        }
        Err((value, _error)) => assert!(rt; value.number == 7 && has_below(&table, 1)),
    }
    Ok(())
}
