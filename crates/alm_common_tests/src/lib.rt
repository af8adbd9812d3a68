//! What tests of all crates share: comparisons that report what was found, and small values.
//!
//! They are functions, since the proof of a test costs one to two seconds for each `assert_eq!` and each `ok_or` in it, and a
//! quarter of one for each call. A library may not end a process, so they return the failure.
#![tactic(auto)]

use alm_types::{Moment, Reading, Slot};
use std::fmt::Debug;
use std::test::Fail;

/// Fails unless it found what is wanted.
pub fn same<T: PartialEq + Debug + Drop>(found: T, wanted: T) -> Result<(), Fail> {
    if found == wanted {
        return Ok(());
    }
    Err(Fail::new(format_args!("{found:?} in place of {wanted:?}")))
}

/// The same, and reports the place where it is not so.
pub fn same_at<P: Debug + Drop, T: PartialEq + Debug + Drop>(
    place: P,
    found: T,
    wanted: T,
) -> Result<(), Fail> {
    if found == wanted {
        return Ok(());
    }
    Err(Fail::new(format_args!("at {place:?}: {found:?} in place of {wanted:?}")))
}

/// Fails unless something holds, and reports the place. What comes after it can't rest on that: `assert!` is for this.
pub fn holds_at<P: Debug + Drop>(place: P, holds: bool) -> Result<(), Fail> {
    if holds {
        return Ok(());
    }
    Err(Fail::new(format_args!("not so at {place:?}")))
}

/// The moment of these seconds.
pub fn moment_of(seconds: u64) -> Result<Moment, Fail> {
    Ok(Moment::new(seconds).ok_or("moment")?)
}

/// The reading of this number.
pub fn reading_of(value: i64) -> Result<Reading, Fail> {
    Ok(Reading::new(value).ok_or("reading")?)
}

/// The slot of this number.
pub fn slot_of(number: u8) -> Result<Slot, Fail> {
    Ok(Slot::new(number).ok_or("slot")?)
}
