/// What a check finds of a value, which is dropped then.
///
/// A test that owned it would prove a drop of each of its fields.
pub(crate) fn on_new<T: Drop, R, F: FnOnce(&mut T) -> R>(mut value: T, check: F) -> R
    requires { F.IsAlwaysCallable check }
{
    check(&mut value)
}
