//! Copies of numbers, of truth values and of nothing.
use fc_base::TryClone;

fn is_copied<T: TryClone + PartialEq>(value: T) -> bool
    requires { T.can_clone }
{
    match value.try_clone() {
        Ok(copy) => copy == value,
        Err(_refused) => false,
    }
}

#[test]
fn numbers_and_bool_are_copied(rt: HostRuntime) {
    assert!(rt; is_copied(5u8) && is_copied(5u16) && is_copied(5u32));
    assert!(rt; is_copied(u64::MAX) && is_copied(usize::MAX));
    assert!(rt; is_copied(-5i8) && is_copied(-5i16) && is_copied(-5i32));
    assert!(rt; is_copied(i64::MIN) && is_copied(isize::MIN));
    assert!(rt; is_copied(true) && is_copied(()));
}
