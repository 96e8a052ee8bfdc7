//! Examples of budgets, as the pages show them.
use fc_budget::{Account, Budget};
use std::test::Fail;

#[test]
fn budgets(rt: HostRuntime) -> Result<(), Fail> {
    let alloc = rt.alloc();
    // example: Budget::new, Budget::cap, Budget::used, Budget::left, Budget::account
    let budget = Budget::new(alloc, 100);
    let list: Vec<u64, _> = Vec::with_capacity(&budget, 10)?; // 80 bytes
    assert_eq!(rt; (budget.used(), budget.left(), budget.cap()), (80, 20, 100));
    assert!(rt; Vec::<u64, _>::with_capacity(&budget, 10).is_err());
    drop(list);
    assert_eq!(rt; budget.account(), Account::new(100));
    // end
    Ok(())
}

#[test]
fn accounts(rt: HostRuntime) {
    // example: Account::new, Account::take, Account::give, Account::cap, Account::used, Account::left
    let mut account = Account::new(10);
    assert_eq!(rt;
        (account.take(7).is_ok(), account.take(4).is_err()),
        (true, true)
    );
    assert_eq!(rt; (account.used(), account.left(), account.cap()), (7, 3, 10));
    account.give(5);
    assert_eq!(rt; account.used(), 2);
    // end
}
