//! Shared values and their drops.
ghost use Rattle.std.specs.Prelude.{◌≡◌, IfOk};

use fc_base::{FallibleRc, TryReserveError};
use std::alloc::Global;
use std::rc::Rc;
use std::test::Fail;
use test_values::{Tally, Token};

// The owner shares the number that was put in.
fn shared_five(alloc: Global) -> Result<Rc<u64>, TryReserveError>
    ensures { IfOk result (λ rc. rc.value ≡ 5) }
{
    Rc::try_new(alloc, 5)
}

#[test]
fn each_owner_sees_the_value(rt: HostRuntime) -> Result<(), Fail> {
    let first = shared_five(rt.alloc())?;
    assert!(rt; Rc::strong_count(&first) == 1);
    let second = first.clone()?;
    assert!(rt; Rc::strong_count(&first) == 2);
    drop(first);
    assert!(rt; *second == 5);
    Ok(())
}

// With the request refused, the value is dropped as well, once.
#[test]
fn a_value_is_dropped_once(rt: HostRuntime) {
    let tally = Tally::of_copies(0, TryReserveError::CapacityOverflow);
    match Rc::try_new(rt.alloc(), Token::new(7, &tally)) {
        Ok(shared) => assert!(rt; tally.living() == 1 && shared.number == 7),
        Err(refused) => assert!(rt; matches!(refused, TryReserveError::AllocError)),
    }
    assert!(rt; tally.living() == 0);
}
