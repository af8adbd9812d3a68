//! Worked images, and each byte of one changed.

use crate::worked::{clock, image, image_after, value};
use alm_codec::{Damage, ImageFault, read_image};
use alm_common_tests::same;
use alm_model::{Alarms, PlainPlant};
use alm_types::AlarmId;
use std::alloc::Global;
use std::test::Fail;

/// Whether an image of four alarms in two areas is read and written again as it was.
fn is_read_back<P: Alarms + Drop>(alloc: Global, bytes: &[u8]) -> Result<bool, Fail> {
    match read_image(alloc, bytes, 4, 2, 4) {
        Ok(parts) => {
            let plant = P::build(alloc, parts)?;
            Ok(image(alloc, &plant)?.as_slice() == bytes)
        }
        Err(ImageFault::Damaged(_)) => Ok(true),
        Err(ImageFault::OutOfMemory) => Ok(false),
    }
}

#[test]
fn the_image_of_a_new_plant(rt: HostRuntime) -> Result<(), Fail> {
    let bytes = image_after::<PlainPlant>(rt.alloc(), &[])?;
    same(bytes.len(), 10_346)?;
    let head = [
        1, 1, 0, 0, 0, 0, 0, 0, 0, 0, 3, 0x20, 0, 0, 0, 0, 0, 0, 0, 0x0a, 0, 0, 0x0e, 0x10, 6,
        0x54, 0x49, 0x2d, 0x31, 0x30, 0x31,
    ];
    same(bytes.get(9618..9649), Some(head.as_slice()))?;
    same(bytes.get(9649..9800), Some([0; 151].as_slice()))?;
    assert!(rt; read_image(rt.alloc(), &bytes, 4, 2, 0).is_ok());
    assert!(rt; is_read_back::<PlainPlant>(rt.alloc(), &bytes)?);
    Ok(())
}

#[test]
fn the_image_after_an_annunciation(rt: HostRuntime) -> Result<(), Fail> {
    let bytes = image_after::<PlainPlant>(rt.alloc(), &[clock(1000)?, value(0, 800)?])?;
    let front = [
        0, 0, 0, 0, 0, 0, 3, 0xe8, 0, 0, 0, 0, 0, 0, 0, 2, 0, 0, 0, 0, 0, 0, 0, 0, 1,
    ];
    same(bytes.get(..25), Some(front.as_slice()))?;
    let tail = [
        1, 1, 0, 1, 0, 0, 0, 0, 0, 0, 0, 0, 0, 0, 0, 0, 0, 0, 0, 1, 0, 0, 0, 0, 0, 0, 3, 0xe8,
    ];
    same(bytes.get(9756..9784), Some(tail.as_slice()))?;
    same(bytes.get(9784..9800), Some([0; 16].as_slice()))?;
    assert!(rt; read_image(rt.alloc(), &bytes, 4, 2, 2).is_ok());
    assert!(rt; is_read_back::<PlainPlant>(rt.alloc(), &bytes)?);
    Ok(())
}

#[test]
fn bytes_behind_an_image_are_damage(rt: HostRuntime) -> Result<(), Fail> {
    let mut bytes = image_after::<PlainPlant>(rt.alloc(), &[])?;
    bytes.push(0)?;
    same(
        read_image(rt.alloc(), &bytes, 4, 2, 0).err(),
        Some(ImageFault::Damaged(Damage { at: 10_346 })),
    )?;
    bytes.truncate(10_345);
    same(
        read_image(rt.alloc(), &bytes, 4, 2, 0).err(),
        Some(ImageFault::Damaged(Damage { at: 10_338 })),
    )?;
    same(
        read_image(rt.alloc(), &[], 4, 2, 0).err(),
        Some(ImageFault::Damaged(Damage { at: 0 })),
    )?;
    Ok(())
}

#[test]
fn each_byte_changed(rt: HostRuntime) -> Result<(), Fail> {
    let alloc = rt.alloc();
    let mut bytes = image_after::<PlainPlant>(alloc, &[clock(1000)?, value(0, 800)?])?;
    let mut all = true;
    for place in 0..bytes.len() {
        let was = bytes[place];
        for byte in [0u8, 1, 0xa5, 0xff] {
            bytes[place] = byte;
            all = is_read_back::<PlainPlant>(alloc, &bytes)? && all;
            // The image as it was is no damage.
            all = (byte != was || read_image(alloc, &bytes, 4, 2, 4).is_ok()) && all;
        }
        bytes[place] = was;
    }
    assert!(rt; all);
    Ok(())
}

/// Sets a byte of the image after an annunciation: the clock of the plant that is read, and the first letter of its first tag.
fn read_with(alloc: Global, place: usize, byte: u8) -> Result<(u64, Option<u8>), Fail> {
    let mut bytes = image_after::<PlainPlant>(alloc, &[clock(1000)?, value(0, 800)?])?;
    if place < bytes.len() {
        bytes[place] = byte;
    }
    match read_image(alloc, &bytes, 4, 2, 4) {
        Ok(parts) => {
            let plant = PlainPlant::build(alloc, parts)?;
            let letter = match plant.attr(AlarmId(0)) {
                Some(attr) => attr.tag.as_bytes().first().copied(),
                None => None,
            };
            Ok((plant.now().seconds(), letter))
        }
        Err(_) => Err(Fail::new("damaged")),
    }
}

#[test]
fn a_changed_byte_is_read_where_it_may_stand(rt: HostRuntime) -> Result<(), Fail> {
    let alloc = rt.alloc();
    same(read_with(alloc, 7, 0xe8)?, (1000, Some(b'T')))?;
    same(read_with(alloc, 7, 0xff)?, (1023, Some(b'T')))?;
    same(read_with(alloc, 3, 1)?, (4_294_968_296, Some(b'T')))?;
    same(read_with(alloc, 9_643, b'A')?, (1000, Some(b'A')))?;
    Ok(())
}
