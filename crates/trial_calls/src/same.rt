//! What is found is compared with what is wanted.
//!
//! A comparison of these two is proved once, and its calls cost less of a proof than an `assert_eq!` each.

use std::test::Fail;

/// What is found is what is wanted; else the place is told.
pub fn same<T: PartialEq>(found: &T, wanted: &T, place: &str) -> Result<(), Fail> {
    if found == wanted {
        Ok(())
    } else {
        Err(place.into())
    }
}

/// It is so; else the place is told.
pub fn holds(is_so: bool, place: &str) -> Result<(), Fail> {
    if is_so { Ok(()) } else { Err(place.into()) }
}
