//! Bits of the worked device of version 03 flipped in turn: the same plant stands, or a fault is reported.

use crate::worked::{Opened, device_of, open};
use alm_codec::Version;
use alm_common_tests::same;
use std::alloc::Global;
use std::test::Fail;

/// Where the image of the first half lies, and where the second half's gate is. Of the image, and of what lies after that gate,
/// one bit of each byte is flipped; of all else each bit.
const IMAGE: usize = 48;

const SEGMENT: usize = 10_394;

const SECOND: usize = 14_510;

/// How many bits are reported. Of the header and of the first half's head these are all, and of both frames all but those of a
/// gate. There are those of the gate after the frames, and one of each byte of the image.
const REPORTED: u32 = 8 * (23 + 25 + 2 * 34 + 1) + 10_346;

/// What the flips of a device come to.
#[derive(Clone, Copy, Debug, PartialEq, Eq)]
struct Flips {
    /// A fault is reported.
    reported: u32,
    /// Another plant stands, or in another way.
    silent: u32,
}

impl Flips {
    fn count(&mut self, found: Opened, stands: Opened) {
        match found {
            Opened::DeviceFault(_) => self.reported = self.reported.saturating_add(1),
            _ if found != stands => self.silent = self.silent.saturating_add(1),
            _ => {}
        }
    }
}

/// Whether each bit of a byte is flipped.
fn is_whole(at: usize) -> bool {
    at < IMAGE || (at >= SEGMENT && at <= SECOND)
}

fn flip_all(alloc: Global, version: Version) -> Result<Flips, Fail> {
    let mut bytes = device_of(alloc, version, 2, 800)?;
    let stands = open(alloc, &bytes);
    let mut flips = Flips {
        reported: 0,
        silent: 0,
    };
    for at in 0..bytes.len() {
        let old = *bytes.get(at).ok_or("place")?;
        for bit in 0..8u8 {
            if is_whole(at) || (at % 8) as u8 == bit {
                *bytes.get_mut(at).ok_or("place")? = old ^ (1 << bit);
                flips.count(open(alloc, &bytes), stands);
            }
        }
        *bytes.get_mut(at).ok_or("place")? = old;
    }
    Ok(flips)
}

#[test]
fn no_flip_is_silent_in_version_03(rt: HostRuntime) -> Result<(), Fail> {
    let reported = Flips {
        reported: REPORTED,
        silent: 0,
    };
    same(flip_all(rt.alloc(), Version::V03)?, reported)?;
    Ok(())
}

#[test]
fn flips_are_silent_in_version_02(rt: HostRuntime) -> Result<(), Fail> {
    assert!(rt; flip_all(rt.alloc(), Version::V02)?.silent > 0);
    Ok(())
}
