//! The areas of an image, by number.

ghost use Rattle.std.specs.Prelude.{◌≡◌, ◌++◌, ◌∷◌, [], length, sum, IfOk, OnOk, Some};
ghost use Rattle.std.specs.Option.{option_and_then};
ghost use Rattle.alm_codec.specs.Bounds.{under};
ghost use Rattle.alm_codec.specs.Reading.{GivesOr};
ghost use Rattle.alm_codec.specs.ImageFields.{all_ages, areas_in, each_area, areas_of};

use crate::area_parts::{AreaParts, area_of, left_of};
use crate::bytes_left::BytesLeft;
use crate::stop::Stop;
use alm_model::Ages;
use alm_types::Moment;
use std::alloc::{AllocError, Global};

/// The flood flags and the ages of the areas, by number.
#[derive(Drop)]
pub struct AreaLists {
    pub floods: Vec<bool>,
    pub ages: Vec<Ages>,
    /// What remains of a bound after all annunciations; `None` if there are more of these.
    left: Option<u64>,
}

/// What remains of a bound after all the counts.
fn less(left: Option<u64>, counts: &[u64]) -> Option<u64>
    ensures { result ≡ option_and_then (λ bound. under bound (sum counts.now)) left }
{
    match left {
        Some(bound) => left_of(counts, bound),
        None => None,
    }
}

impl AreaLists {
    fn new(alloc: Global, areas: u8, bound: u64) -> Result<Self, AllocError>
        ensures floods { IfOk result (λ lists. lists.floods.items ≡ []) }
        ensures ages { IfOk result (λ lists. lists.ages.items ≡ []) }
        ensures left { IfOk result (λ lists. lists.left ≡ Some bound) }
    {
        Ok(AreaLists {
            floods: Vec::with_capacity(alloc, areas as usize)?,
            ages: Vec::with_capacity(alloc, areas as usize)?,
            left: Some(bound),
        })
    }

    fn push(&mut self, area: &AreaParts) -> Result<(), AllocError>
        ensures floods { OnOk result
            (self.new.floods.items ≡ self.old.floods.items ++ area.now.flood ∷ []) }
        ensures ages { OnOk result
            (self.new.ages.items ≡ self.old.ages.items ++ area.now.ages ∷ []) }
        ensures left { OnOk result
            (self.new.left ≡
            option_and_then (λ bound. under bound (sum area.now.ages)) self.old.left) }
    {
        self.left = less(self.left, &area.ages);
        self.floods.push(area.flood)?;
        self.ages.push(Ages::of(area.ages))?;
        Ok(())
    }
}

/// `areas` areas.
fn each_area(
    alloc: Global,
    bytes: &[u8],
    clock: Moment,
    bound: u64,
    areas: u8,
) -> Result<(AreaLists, &[u8]), Stop>
    ensures areas { GivesOr (λ x. (areas_in x.0.floods.items x.0.ages.items, x.1.now)) result
        ((each_area clock areas).read bytes.now) }
    ensures floods { IfOk result (λ x. length x.0.floods.items ≡ areas) }
    ensures ages { IfOk result (λ x. length x.0.ages.items ≡ areas) }
    ensures left { IfOk result
        (λ x. x.0.left ≡ under bound (all_ages (areas_in x.0.floods.items x.0.ages.items))) }
{
    let mut lists = AreaLists::new(alloc, areas, bound)?;
    let mut rest = bytes;
    for _ in 0..areas {
        let (area, after) = match area_of(rest, clock) {
            Ok(found) => found,
            Err(left) => return Err(Stop::Field(left)),
        };
        lists.push(&area)?;
        rest = after;
    }
    Ok((lists, rest))
}

/// `areas` areas, whose annunciations all have stamps below the next.
pub fn areas_of(
    alloc: Global,
    bytes: &[u8],
    clock: Moment,
    next_stamp: u64,
    areas: u8,
) -> Result<(AreaLists, &[u8]), Stop>
    ensures areas { GivesOr (λ x. (areas_in x.0.floods.items x.0.ages.items, x.1.now)) result
        ((areas_of clock next_stamp areas).read bytes.now) }
    ensures floods { IfOk result (λ x. length x.0.floods.items ≡ areas) }
    ensures ages { IfOk result (λ x. length x.0.ages.items ≡ areas) }
{
    let (lists, rest) = each_area(alloc, bytes, clock, next_stamp, areas)?;
    match lists.left {
        Some(left) if left > 0 => Ok((lists, rest)),
        _ => Err(Stop::Field(BytesLeft(rest.len() + 8))),
    }
}
