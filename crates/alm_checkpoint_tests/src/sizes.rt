//! The layout at its limits, and devices of each size.

use crate::worked::{Opened, damaged, device, open};
use alm_checkpoint::{DeviceFault, Half, Layout};
use alm_codec::Version;
use alm_common_tests::{holds_at, same};
use std::test::Fail;

/// Alarms, areas and the bytes of a device, and the longest segment that fits twice.
type Size = (u32, u8, u64, Option<u32>);

/// Devices of the worked table, and some that are too small. An image of 16,384 alarms in 64 areas has
/// 16 + 64 * 4801 + 16,384 * 182 = 3,289,168 bytes.
const SIZES: [Size; 14] = [
    (4, 2, 28_997, Some(4116)),
    (4, 2, 28_996, None),
    (4, 2, 28_998, Some(4116)),
    (4, 2, 28_999, Some(4117)),
    (1, 1, 0, None),
    (1, 1, 22, None),
    (1, 1, 23, None),
    (16_384, 64, 1 << 20, None),
    (16_384, 64, 6_586_640, None),
    (16_384, 64, 6_586_641, Some(4116)),
    (16_384, 64, 40_132_841, Some(16_777_216)),
    (16_384, 64, 40_132_840, Some(16_777_215)),
    (16_384, 64, 1 << 40, Some(16_777_216)),
    (16_384, 64, u64::MAX, Some(16_777_216)),
];

/// Whether the longest segment of a size is this one.
fn is_longest((rows, areas, size, segment): Size) -> bool {
    let found = Layout::longest(rows, areas, size, Version::V02);
    match (found, segment) {
        (Some(found), Some(segment)) => found == Layout::of(rows, areas, segment, Version::V02),
        (found, segment) => found.is_none() && segment.is_none(),
    }
}

#[test]
fn the_longest_segments() -> Result<(), Fail> {
    for size in SIZES {
        holds_at(size, is_longest(size))?;
    }
    Ok(())
}

#[test]
fn the_largest_table() -> Result<(), Fail> {
    let longest = Layout::of(16_384, 64, 16_777_216, Version::V02);
    same(longest.segment_at(Half::Second), 23_355_625)?;
    same(longest.device_len(), 40_132_841)?;
    Ok(())
}

#[test]
fn short_devices(rt: HostRuntime) -> Result<(), Fail> {
    let bytes = device(rt.alloc(), 2, 800)?;
    for size in 0..31usize {
        let short = bytes.get(..size).ok_or("front")?;
        let expected = if size < 23 {
            Opened::DeviceFault(DeviceFault::Unformatted)
        } else {
            damaged(2, 15)
        };
        same(open(rt.alloc(), short), expected)?;
    }
    let short = bytes.get(..28_996).ok_or("front")?;
    same(open(rt.alloc(), short), damaged(2, 15))?;
    Ok(())
}

#[test]
fn longer_devices(rt: HostRuntime) -> Result<(), Fail> {
    let mut bytes = device(rt.alloc(), 2, 800)?;
    let whole = open(rt.alloc(), &bytes);
    bytes.push(0xA5)?;
    same(open(rt.alloc(), &bytes), whole)?;
    Ok(())
}
