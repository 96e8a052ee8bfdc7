//! The count by itself.
use fc_budget::Account;
use std::test::Fail;

#[test]
fn counts_to_its_cap_and_back(rt: HostRuntime) {
    let mut account = Account::new(10);
    let seven = account.take(7).is_ok();
    let four = account.take(4).is_ok();
    assert_eq!(rt;
        (seven, four, account.used(), account.left()),
        (true, false, 7, 3)
    );
    let three = account.take(3).is_ok();
    account.give(9);
    assert_eq!(rt;
        (three, account.used(), account.left(), account.cap()),
        (true, 1, 9, 10)
    );
    account.give(2);
    assert_eq!(rt; account, Account::new(10));
}

#[test]
fn takes_no_more_than_a_number_can_say(rt: HostRuntime) {
    let mut account = Account::new(usize::MAX);
    let all = account.take(usize::MAX).is_ok();
    let one = account.take(1).is_ok();
    let none = account.take(0).is_ok();
    assert_eq!(rt; (all, one, none, account.left()), (true, false, true, 0));
}
