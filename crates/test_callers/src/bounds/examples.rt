//! An example of a budget that threads share, as the pages show it.
use fc_budget::SharedBudget;
use std::test::Fail;

#[test]
fn shared(rt: HostRuntime) -> Result<(), Fail> {
    let alloc = rt.alloc();
    // example: SharedBudget::new, SharedBudget::cap, SharedBudget::used, SharedBudget::left
    let budget = SharedBudget::new(alloc, 100); // `&budget` goes to several threads
    let list: Vec<u64, _> = Vec::with_capacity(&budget, 10)?; // 80 bytes
    assert_eq!(rt; (budget.used(), budget.left(), budget.cap()), (80, 20, 100));
    assert!(rt; Vec::<u64, _>::with_capacity(&budget, 10).is_err());
    drop(list);
    assert_eq!(rt; budget.used(), 0);
    // end
    Ok(())
}
