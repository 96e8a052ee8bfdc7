//! The texts of lazy set operations by `{:?}`: the items still to come.
use crate::few::{is_number, put_items};
use fc_set::set::BTreeSet;
use std::alloc::Global;
use std::fmt::Debug;
use std::test::Fail;

type Numbers = BTreeSet<u64>;

fn prints<D: Debug>(alloc: Global, shown: &D, wanted: &str) -> Result<bool, Fail> {
    let text = format!(in alloc; "{shown:?}")?;
    Ok(text.as_str() == wanted)
}

// Whether the union and the intersection are printed, and whether the two differences are.
fn are_printed(
    alloc: Global,
    ours: &mut Numbers,
    theirs: &mut Numbers,
) -> Result<(bool, bool), Fail> {
    put_items(ours, &[1, 2, 3, 4])?;
    put_items(theirs, &[3, 4, 5, 6])?;
    let either = prints(alloc, &ours.union(theirs), "[1, 2, 3, 4, 5, 6]")?;
    let both = prints(alloc, &ours.intersection(theirs), "[3, 4]")?;
    let one = prints(alloc, &ours.symmetric_difference(theirs), "[1, 2, 5, 6]")?;
    let first = prints(alloc, &ours.difference(theirs), "[1, 2]")?;
    Ok((either && both, one && first))
}

fn operations_print(alloc: Global) -> Result<(bool, bool), Fail> {
    let mut ours = Numbers::new(alloc);
    let mut theirs = Numbers::new(alloc);
    are_printed(alloc, &mut ours, &mut theirs)
}

#[test]
fn operations_on_two_sets_print_the_items_still_to_come(rt: HostRuntime) -> Result<(), Fail> {
    let (all, apart) = operations_print(rt.alloc())?;
    assert!(rt; all);
    assert!(rt; apart);
    Ok(())
}

// The walk stays where it is.
fn goes_on(alloc: Global, ours: &mut Numbers, theirs: &Numbers) -> Result<bool, Fail> {
    put_items(ours, &[1, 2, 3])?;
    let mut walk = ours.union(theirs);
    walk.next();
    let is_printed = prints(alloc, &walk, "[2, 3]")?;
    Ok(is_printed && is_number(walk.next(), 2))
}

fn printed_operation_goes_on(alloc: Global) -> Result<bool, Fail> {
    let mut ours = Numbers::new(alloc);
    let theirs = Numbers::new(alloc);
    goes_on(alloc, &mut ours, &theirs)
}

#[test]
fn an_operation_that_was_printed_goes_on(rt: HostRuntime) -> Result<(), Fail> {
    assert!(rt; printed_operation_goes_on(rt.alloc())?);
    Ok(())
}
