//! Reading an image.

ghost use Rattle.std.specs.Prelude.{◌≡◌, ◌≤◌, ◌*◌, ◌+◌, ◌&&◌, length, nat_le, IfOk};
ghost use Rattle.alm_model.specs.Plant.{Condensed};
ghost use Rattle.alm_model.specs.Parts.{plant_of};
ghost use Rattle.alm_codec.specs.Reading.{Gives, GivesOr};
ghost use Rattle.alm_codec.specs.Image.{IsImageText, IsOf};
ghost use Rattle.alm_codec.specs.ImageFields.{u64, moment_field, next_stamp, image, image_in, damage_in};
ghost use Rattle.alm_codec.specs.Faults.{IsDamagedAt, IsReadAs};
ghost use Rattle.alm_types.specs.Sizes.{most_alarms, most_areas};

use crate::alarm_lists::alarms_of;
use crate::area_lists::areas_of;
use crate::bytes_left::BytesLeft;
use crate::fields::u64_at;
use crate::image_fault::ImageFault;
use crate::stop::Stop;
use alm_model::PlantParts;
use alm_types::{MOST_ALARMS, Moment};
use std::alloc::Global;

fn clock_of(bytes: &[u8]) -> Result<(Moment, &[u8]), BytesLeft>
    ensures { Gives (λ x. (x.0, x.1.now)) result (moment_field.read bytes.now) }
{
    let (seconds, rest) = u64_at(bytes)?;
    match Moment::new(seconds) {
        Some(clock) => Ok((clock, rest)),
        None => Err(BytesLeft(bytes.len())),
    }
}

/// Whether a plant can have a next stamp after `count` actions: each takes at most one a row, and the first is 1.
fn is_next(next_stamp: u64, count: u64) -> bool
    ensures { result ≡ (nat_le 1 next_stamp && nat_le next_stamp (1 + most_alarms * count)) }
{
    next_stamp >= 1 && next_stamp - 1 <= count.saturating_mul(MOST_ALARMS as u64)
}

/// The next stamp of a plant after `count` actions.
fn next_stamp_of(bytes: &[u8], count: u64) -> Result<(u64, &[u8]), BytesLeft>
    ensures { Gives (λ x. (x.0, x.1.now)) result ((next_stamp count).read bytes.now) }
{
    let (next_stamp, rest) = u64_at(bytes)?;
    if is_next(next_stamp, count) {
        Ok((next_stamp, rest))
    } else {
        Err(BytesLeft(bytes.len()))
    }
}

/// The image of a plant of these rows and areas after `count` actions, and the bytes after it.
fn image_of(
    alloc: Global,
    bytes: &[u8],
    rows: u32,
    areas: u8,
    count: u64,
) -> Result<(PlantParts, &[u8]), Stop>
    requires { areas ≤ most_areas }
    ensures image { GivesOr (λ x. (image_in (plant_of x.0), x.1.now)) result
        ((image rows areas count).read bytes.now) }
    ensures attrs { IfOk result (λ x. length x.0.attrs.items ≡ rows) }
    ensures rows { IfOk result (λ x. length x.0.rows.items ≡ rows) }
    ensures moments { IfOk result (λ x. length x.0.moments.items ≡ rows) }
    ensures floods { IfOk result (λ x. length x.0.floods.items ≡ areas) }
    ensures ages { IfOk result (λ x. length x.0.ages.items ≡ areas) }
    ensures count { IfOk result (λ x. x.0.count ≡ count) }
{
    let (clock, rest) = match clock_of(bytes) {
        Ok(found) => found,
        Err(left) => return Err(Stop::Field(left)),
    };
    let (next_stamp, rest) = next_stamp_of(rest, count)?;
    let (by_area, rest) = areas_of(alloc, rest, clock, next_stamp, areas)?;
    let (by_alarm, rest) = alarms_of(alloc, rest, clock, next_stamp, areas, rows)?;
    let parts = PlantParts {
        clock,
        count,
        next_stamp,
        attrs: by_alarm.attrs,
        rows: by_alarm.rows,
        ages: by_area.ages,
        moments: by_alarm.moments,
        floods: by_area.floods,
    };
    Ok((parts, rest))
}

/// Reads the image of a plant of these rows and areas after `count` actions, all of the bytes.
pub fn read_image(
    alloc: Global,
    bytes: &[u8],
    rows: u32,
    areas: u8,
    count: u64,
) -> Result<PlantParts, ImageFault>
    requires rows { (1 ≤ rows) × (rows ≤ most_alarms) }
    requires areas { (1 ≤ areas) × (areas ≤ most_areas) }
    // What is read is the plant of that image; it can be built.
    ensures found { IfOk result (λ p. IsImageText (plant_of p) bytes.now) }
    ensures sizes { IfOk result (λ p. IsOf rows areas count (plant_of p)) }
    // The image of a plant is read as that plant, unless memory runs out.
    ensures only { (q : Condensed) → IsOf rows areas count q → IsImageText q bytes.now →
        IsReadAs result q }
    // Damage is reported at the first field that breaks a rule, and only there.
    ensures damage { IsDamagedAt result (damage_in rows areas count bytes.now) }
{
    match image_of(alloc, bytes, rows, areas, count) {
        Ok((parts, [])) => Ok(parts),
        Ok((_, rest)) => Err(ImageFault::Damaged(BytesLeft(rest.len()).of(bytes))),
        Err(Stop::Memory) => Err(ImageFault::OutOfMemory),
        Err(Stop::Field(left)) => Err(ImageFault::Damaged(left.of(bytes))),
    }
}
