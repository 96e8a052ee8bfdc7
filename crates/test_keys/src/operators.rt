//! Operations on two sets walk over both once, by items that count their comparisons. No clause says so: a body that counts the items first is proved too.
use fc_base::TryReserveError;
use fc_set::set::BTreeSet;
use std::alloc::Global;
use std::cell::Cell;
use std::test::Fail;
use test_values::CountingKey;

type Counted<'a> = BTreeSet<CountingKey<'a>>;

fn put_counted<'a>(
    set: &mut Counted<'a>,
    first: u64,
    end: u64,
    comparisons: &'a Cell<u64>,
) -> Result<(), TryReserveError> {
    for number in first..end {
        set.try_insert(CountingKey::new(number, comparisons))?;
    }
    Ok(())
}

// Of 1 to 20 and 11 to 30 those below 11 take ten comparisons and the equal ones ten. Then one side is used up.
fn are_walked_once<'a>(
    ours: &mut Counted<'a>,
    theirs: &mut Counted<'a>,
    comparisons: &'a Cell<u64>,
) -> Result<bool, TryReserveError> {
    put_counted(ours, 1, 21, comparisons)?;
    put_counted(theirs, 11, 31, comparisons)?;
    comparisons.set(0);
    let either = ours.bitor(theirs)?.len();
    let of_either = comparisons.replace(0);
    let one = ours.bitxor(theirs)?.len();
    let of_one = comparisons.replace(0);
    Ok(either == 30 && of_either == 20 && one == 20 && of_one == 20)
}

fn walk_once(alloc: Global) -> Result<bool, TryReserveError> {
    let comparisons = Cell::new(0);
    let mut ours = BTreeSet::new(alloc);
    let mut theirs = BTreeSet::new(alloc);
    are_walked_once(&mut ours, &mut theirs, &comparisons)
}

#[test]
fn a_union_and_a_symmetric_difference_walk_once(rt: HostRuntime) -> Result<(), Fail> {
    assert!(rt; walk_once(rt.alloc())?);
    Ok(())
}
