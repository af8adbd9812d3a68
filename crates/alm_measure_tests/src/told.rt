//! What a plant reports of its measures, as lists.

ghost use Rattle.std.specs.Prelude.{◌≤◌, All, IfOk, sum};

use alm_model::{Ages, Alarms, List, Recent};
use alm_types::AlarmId;
use std::alloc::{AllocError, Global};

/// How many annunciations are reported of an age at most.
const MOST: u64 = 1000;

/// The ages of an area.
fn ages_of<P: Alarms>(plant: &P, area: u32) -> Ages
    ensures { sum result ≤ 600000 }
{
    let mut counts = [0; 600];
    for age in 0..600 {
        if plant.has_list(List::Area(area)) {
            counts[age as usize] = plant.age(area, age).min(MOST);
        }
    }
    Ages::of(counts)
}

/// The ages of `areas` areas.
pub fn ages<P: Alarms>(alloc: Global, plant: &P, areas: u32) -> Result<Vec<Ages>, AllocError>
    ensures { IfOk result (λ told. All (λ ages. sum ages ≤ 600000) told.items) }
{
    let mut told = Vec::with_capacity(alloc, areas as usize)?;
    for area in 0..areas {
        told.push(ages_of(plant, area))?;
    }
    Ok(told)
}

/// The flood flags of `areas` areas.
pub fn floods<P: Alarms>(alloc: Global, plant: &P, areas: u32) -> Result<Vec<bool>, AllocError> {
    let mut told = Vec::with_capacity(alloc, areas as usize)?;
    for area in 0..areas {
        if plant.has_list(List::Area(area)) {
            told.push(plant.window(area).1)?;
        }
    }
    Ok(told)
}

/// The last moments of the first alarms.
pub fn moments<P: Alarms>(
    alloc: Global,
    plant: &P,
    alarms: u32,
) -> Result<Vec<Recent>, AllocError> {
    let mut told = Vec::with_capacity(alloc, alarms as usize)?;
    for number in 0..alarms {
        let moments = plant.moments(AlarmId(number));
        if moments.len() <= 3 {
            told.push(Recent::of(moments))?;
        }
    }
    Ok(told)
}
