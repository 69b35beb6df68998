use std::fmt::Debug;
use std::process::Abort;

/// Stops the test where what is found is not what is wanted.
pub fn equal<T: PartialEq + Debug + Drop>(rt: &impl Abort, found: T, wanted: T) {
    assert_eq!(rt; found, wanted);
}
