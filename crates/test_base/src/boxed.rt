//! Boxes, their copies, and the drops of what is in them.
ghost use Rattle.std.specs.Prelude.{◌≡◌, IfOk, IsTrue};
ghost use Rattle.fc_base.specs.Boxed.{boxed_value};

use fc_base::{FallibleBox, TryBox, TryClone, TryReserveError};
use std::alloc::Global;
use std::test::Fail;
use test_values::{Tally, Token};

// The box holds the number that was put in.
fn boxed_five(alloc: Global) -> Result<Box<u64>, TryReserveError>
    ensures { IfOk result (λ b. b.value ≡ 5) }
{
    Box::try_new(alloc, 5)
}

// A copy of the box holds it too.
fn copied_five(alloc: Global) -> Result<TryBox<u64>, TryReserveError>
    ensures { IfOk result (λ b. boxed_value b ≡ 5) }
{
    TryBox::try_new(alloc, 5)?.try_clone()
}

// A number's box is refused for want of memory alone.
fn is_known_refusal(five: &TryBox<u64>) -> bool
    ensures { IsTrue result }
{
    match five.try_clone() {
        Ok(_copy) => true,
        Err(refused) => matches!(refused, TryReserveError::AllocError),
    }
}

#[test]
fn a_box_holds_its_value(rt: HostRuntime) -> Result<(), Fail> {
    let mut five = boxed_five(rt.alloc())?;
    assert!(rt; *five == 5);
    *five = 3;
    assert!(rt; *five == 3);
    let nothing: Box<()> = FallibleBox::try_new(rt.alloc(), ())?;
    assert!(rt; *nothing == ());
    Ok(())
}

// With the request refused, the value is dropped as well, once.
#[test]
fn a_value_is_dropped_once(rt: HostRuntime) {
    let tally = Tally::of_copies(0, TryReserveError::CapacityOverflow);
    match Box::try_new(rt.alloc(), Token::new(7, &tally)) {
        Ok(made) => assert!(rt; tally.living() == 1 && made.number == 7),
        Err(refused) => assert!(rt; matches!(refused, TryReserveError::AllocError)),
    }
    assert!(rt; tally.living() == 0);
}

#[test]
fn a_box_is_copied(rt: HostRuntime) -> Result<(), Fail> {
    let five = TryBox::try_new(rt.alloc(), 5u64)?;
    let copy = five.try_clone()?;
    assert!(rt; *five == 5 && *copy == 5);
    assert!(rt; *copied_five(rt.alloc())? == 5);
    assert!(rt; is_known_refusal(&five));
    Ok(())
}

// With the request of the first or of the second box refused: what was made by then is dropped, once, and the source stays.
#[test]
fn a_refused_copy_is_dropped(rt: HostRuntime) {
    let tally = Tally::of_copies(1, TryReserveError::CapacityOverflow);
    match TryBox::try_new(rt.alloc(), Token::new(7, &tally)) {
        Err(refused) => assert!(rt; matches!(refused, TryReserveError::AllocError)),
        Ok(source) => {
            match source.try_clone() {
                Ok(copy) => assert!(rt; tally.living() == 2 && copy.number == 7),
                Err(refused) => {
                    assert!(rt;
                        matches!(refused, TryReserveError::AllocError) && tally.living() == 1
                    );
                }
            }
            assert!(rt; tally.left.get() == 0 && tally.living() == 1 && source.number == 7);
        }
    }
    assert!(rt; tally.living() == 0);
}

#[test]
fn a_values_own_refusal_is_passed_on(rt: HostRuntime) -> Result<(), Fail> {
    let tally = Tally::of_copies(0, TryReserveError::CapacityOverflow);
    let source = TryBox::try_new(rt.alloc(), Token::new(7, &tally))?;
    let answer = source.try_clone();
    assert!(rt; matches!(answer, Err(TryReserveError::CapacityOverflow)));
    assert!(rt; tally.living() == 1);
    Ok(())
}

// No clause says that a box is made where there is memory: a body that refuses large values is proved too.
#[test]
fn a_value_of_8192_bytes_is_boxed_and_copied(rt: HostRuntime) {
    assert!(rt; Box::try_new(rt.alloc(), [7u64; 1024]).is_ok());
    let is_copied = match TryBox::try_new(rt.alloc(), [7u64; 1024]) {
        Ok(made) => made.try_clone().is_ok(),
        Err(_refused) => false,
    };
    assert!(rt; is_copied);
}
