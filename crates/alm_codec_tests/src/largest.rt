//! The image of 16,384 alarms in 64 areas.

ghost use Rattle.std.specs.Prelude.{◌≤◌};

use crate::worked::{act, image, value};
use alm_codec::read_image;
use alm_common_tests::same;
use alm_model::{Alarms, PlainPlant};
use alm_types::{Attr, Kind, Settings, Table};
use std::alloc::Global;
use std::test::Fail;

/// A table of `rows` alarms, spread over `areas` areas.
fn table(alloc: Global, rows: u32, areas: u8) -> Result<Table, Fail>
    requires { 1 ≤ areas }
{
    let mut alarms = Vec::with_capacity(alloc, rows as usize)?;
    for number in 0..rows {
        let settings = Settings {
            kind: Kind::High,
            setpoint: 1,
            deadband: 0,
            priority: 1,
            area: (number % areas as u32) as u8,
            latching: false,
            max_shelve: 604_800,
        };
        alarms.push(Attr::new(settings, b"T", b"largest")?)?;
    }
    Ok(Table::new(alarms, areas)?)
}

/// The first `rows` alarms are annunciated.
fn annunciate<P: Alarms>(plant: &mut P, rows: u32) -> Result<(), Fail> {
    for number in 0..rows {
        let high = value(number, 1)?;
        act(plant, high)?;
    }
    Ok(())
}

/// The image of a plant of which each alarm is annunciated.
fn largest_image<P: Alarms + Drop>(alloc: Global) -> Result<Vec<u8>, Fail> {
    let mut plant = P::new(alloc, &table(alloc, 16_384, 64)?)?;
    annunciate(&mut plant, 16_384)?;
    image(alloc, &plant)
}

/// The plant of such an image.
fn largest_plant<P: Alarms>(alloc: Global, bytes: &[u8]) -> Result<P, Fail> {
    match read_image(alloc, bytes, 16_384, 64, 16_384) {
        Ok(parts) => Ok(P::build(alloc, parts)?),
        Err(_) => Err("damaged".into()),
    }
}

/// The count of the plant of such an image, and whether its image is the same again.
fn read_again<P: Alarms + Drop>(alloc: Global, bytes: &[u8]) -> Result<(u64, bool), Fail> {
    let again = largest_plant::<P>(alloc, bytes)?;
    let second = image(alloc, &again)?;
    Ok((again.count(), second.as_slice() == bytes))
}

#[test]
fn the_largest_image(rt: HostRuntime) -> Result<(), Fail> {
    let alloc = rt.alloc();
    let bytes = largest_image::<PlainPlant>(alloc)?;
    same(bytes.len(), 3_289_168)?;
    same(read_again::<PlainPlant>(alloc, &bytes)?, (16_384, true))?;
    Ok(())
}

/// Whether the image of a plant with an annunciation in its last area is read and written again as it was.
fn is_read_back<P: Alarms + Drop>(alloc: Global, areas: u8) -> Result<bool, Fail>
    requires some { 1 ≤ areas }
    requires few { areas ≤ 64 }
{
    let rows = areas as u32;
    let mut plant = P::new(alloc, &table(alloc, rows, areas)?)?;
    act(&mut plant, value(rows - 1, 1)?)?;
    let bytes = image(alloc, &plant)?;
    match read_image(alloc, &bytes, rows, areas, 1) {
        Ok(parts) => Ok(image(alloc, &P::build(alloc, parts)?)? == bytes),
        Err(_) => Ok(false),
    }
}

#[test]
fn images_of_the_fewest_and_the_most_areas(rt: HostRuntime) -> Result<(), Fail> {
    assert!(rt; is_read_back::<PlainPlant>(rt.alloc(), 1)?);
    assert!(rt; is_read_back::<PlainPlant>(rt.alloc(), 2)?);
    assert!(rt; is_read_back::<PlainPlant>(rt.alloc(), 63)?);
    assert!(rt; is_read_back::<PlainPlant>(rt.alloc(), 64)?);
    Ok(())
}
