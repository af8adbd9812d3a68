//! The fields of an area in an image.

ghost use Rattle.std.specs.Prelude.{◌≡◌, ◌-◌, sum, Some, None};
ghost use Rattle.alm_codec.specs.Reading.{Gives};
ghost use Rattle.alm_codec.specs.ImageFields.{ages, age_field, is_flooded, area};
ghost use Rattle.alm_codec.specs.Parts.{area_from};
ghost use Rattle.alm_codec.specs.Bounds.{under};

use crate::bytes_left::BytesLeft;
use crate::fields::u64_at;
use crate::fixed::flag_of;
use alm_types::Moment;

/// The fields of an area in an image.
#[derive(Clone, Copy)]
pub struct AreaParts {
    pub flood: bool,
    /// How many annunciations are 0, 1, .. 599 seconds old.
    pub ages: [u64; 600],
}

/// How many annunciations are of an age: none if the plant is younger.
fn age_of(bytes: &[u8], clock: u64, age: u64) -> Result<(u64, &[u8]), BytesLeft>
    ensures { Gives (λ x. (x.0, x.1.now)) result ((age_field clock age).read bytes.now) }
{
    let (count, rest) = u64_at(bytes)?;
    if age <= clock || count == 0 {
        Ok((count, rest))
    } else {
        Err(BytesLeft(bytes.len()))
    }
}

/// The counts of all ages.
fn ages_of(bytes: &[u8], clock: u64) -> Result<([u64; 600], &[u8]), BytesLeft>
    ensures { Gives (λ x. (x.0, x.1.now)) result ((ages clock).read bytes.now) }
{
    let mut counts = [0; 600];
    let mut rest = bytes;
    for age in 0..600 {
        let (count, after) = match age_of(rest, clock, age as u64) {
            Ok(found) => found,
            Err(left) => return Err(left),
        };
        counts[age] = count;
        rest = after;
    }
    Ok((counts, rest))
}

/// What remains of a bound after all the counts; none if they are above it.
pub fn left_of(counts: &[u64], bound: u64) -> Option<u64>
    ensures { result ≡ under bound (sum counts.now) }
{
    let mut left = bound;
    for count in counts {
        if *count > left {
            return None;
        }
        left -= *count;
    }
    Some(left)
}

/// A flood if the window is above 10, none if it is below 5.
fn is_flooded(flood: bool, counts: &[u64]) -> bool
    ensures { result ≡ is_flooded flood (sum counts.now) }
{
    if flood {
        left_of(counts, 4).is_none()
    } else {
        left_of(counts, 10).is_some()
    }
}

/// An area.
pub fn area_of(bytes: &[u8], clock: Moment) -> Result<(AreaParts, &[u8]), BytesLeft>
    ensures { Gives (λ x. (area_from x.0, x.1.now)) result ((area clock).read bytes.now) }
{
    let (flood, rest) = flag_of(bytes)?;
    let (ages, rest) = ages_of(rest, clock.seconds())?;
    if is_flooded(flood, &ages) {
        Ok((AreaParts { flood, ages }, rest))
    } else {
        Err(BytesLeft(rest.len() + 8))
    }
}
