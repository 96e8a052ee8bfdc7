//! Examples of the table, as the pages show them.
use fc_budget::Budget;
use fc_index::Table;
use std::alloc::Global;
use std::mem::size_of;
use std::ops::Bound;
use std::test::Fail;

#[test]
fn rows(rt: HostRuntime) -> Result<(), Fail> {
    let alloc = rt.alloc();
    // example: Table::new, Table::try_insert, Table::get, Table::set_value, Table::contains, Table::remove
    let mut table = Table::new(alloc);
    // A row's id, its two keys, and its value.
    table.try_insert(7u64, 'a', 30u64, 1u64)?;
    assert_eq!(rt; table.get(7).map(|row| row.first), Some('a'));
    assert_eq!(rt; (table.set_value(7, 2), table.contains(7)), (Ok(1), true));
    assert_eq!(rt; table.remove(7).map(|row| row.value), Some(2));
    // end
    Ok(())
}

#[test]
fn rows_by_their_keys(rt: HostRuntime) -> Result<(), Fail> {
    let alloc = rt.alloc();
    // example: Table::by_first, Table::by_second
    let mut table = Table::new(alloc);
    table.try_insert(7u64, 'a', 30u64, ())?;
    table.try_insert(8, 'a', 20, ())?;
    let mut of_a = table.by_first((Bound::Included('a'), Bound::Included('a')));
    assert_eq!(rt; of_a.next(), Some(&('a', 7)));
    assert_eq!(rt; of_a.next(), Some(&('a', 8)));
    let mut low = table.by_second((Bound::Unbounded, Bound::Excluded(30)));
    assert_eq!(rt; (low.next(), low.next()), (Some(&(20, 8)), None));
    // end
    Ok(())
}

#[test]
fn all_rows(rt: HostRuntime) -> Result<(), Fail> {
    let alloc = rt.alloc();
    // example: Table::iter, Table::len, Table::is_empty, Table::clear
    let mut table = Table::new(alloc);
    table.try_insert(7u64, 'a', 30u64, ())?;
    table.try_insert(8, 'a', 20, ())?;
    assert_eq!(rt; (table.iter().len(), table.len()), (2, 2));
    assert!(rt; !table.is_empty());
    table.clear();
    assert!(rt; table.is_empty());
    // end
    Ok(())
}

#[test]
fn rows_of_a_key(rt: HostRuntime) -> Result<(), Fail> {
    let alloc = rt.alloc();
    // example: Table::default, Table::with_first, Table::with_second
    let mut table = Table::default(alloc);
    table.try_insert(7u64, 'a', 30u64, ())?;
    table.try_insert(8, 'b', 20, ())?;
    table.try_insert(9, 'a', 20, ())?;
    let mut of_a = table.with_first('a');
    assert_eq!(rt; of_a.next(), Some(&('a', 7)));
    assert_eq!(rt; of_a.next(), Some(&('a', 9)));
    assert_eq!(rt; table.with_second(20).next(), Some(&(20, 8)));
    // end
    Ok(())
}

#[test]
fn keys_that_are_there(rt: HostRuntime) -> Result<(), Fail> {
    let alloc = rt.alloc();
    // example: Table::contains_first, Table::contains_second
    let mut table = Table::new(alloc);
    table.try_insert(7u64, 'a', 30u64, ())?;
    assert!(rt; table.contains_first('a') && !table.contains_first('b'));
    assert!(rt; table.contains_second(30) && !table.contains_second(20));
    // end
    Ok(())
}

#[test]
fn rows_in_the_order_of_a_key(rt: HostRuntime) -> Result<(), Fail> {
    let alloc = rt.alloc();
    // example: Table::rows_by_first, Table::rows_by_second
    let mut table = Table::new(alloc);
    table.try_insert(7u64, 'b', 30u64, 1u64)?;
    table.try_insert(8, 'a', 20, 2)?;
    let mut rows = table.rows_by_first((Bound::Unbounded, Bound::Unbounded));
    assert_eq!(rt; rows.next().map(|pair| pair.1.value), Some(2)); // of id 8
    let mut low = table.rows_by_second((Bound::Unbounded, Bound::Excluded(30)));
    assert_eq!(rt; low.next().map(|pair| *pair.0), Some(8));
    // end
    Ok(())
}

#[test]
fn rows_of_a_range(rt: HostRuntime) -> Result<(), Fail> {
    let alloc = rt.alloc();
    // example: Table::remove_first_range
    let mut table = Table::new(alloc);
    table.try_insert(7u64, 1u64, 'a', ())?;
    table.try_insert(8, 2, 'b', ())?;
    table.try_insert(9, 3, 'c', ())?;
    let gone = table.remove_first_range((Bound::Unbounded, Bound::Included(2)));
    assert_eq!(rt; (gone, table.contains(9), table.len()), (2, true, 1));
    // end
    Ok(())
}

#[test]
fn bytes(rt: HostRuntime) {
    assert_eq!(rt; size_of::<Table<u64, u64, u64, u64>>(), 168);
    assert_eq!(rt;
        size_of::<Table<u64, u64, u64, u64, &Budget<Global>>>(),
        240
    );
}
