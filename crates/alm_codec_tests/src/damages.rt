//! Each field of an image at its limits and beyond, with the place of the damage.
//!
//! The plant at moment 1000. Alarm 0 is annunciated (stamp 1), alarm 1 shelved up to 1060 (stamp 2), alarm 2 latching and
//! annunciated (stamp 3), alarm 3 at rest. It has done four actions, and the next stamp is 4.

use crate::worked::{clock, image_after, value};
use alm_codec::{Damage, ImageFault, read_image};
use alm_common_tests::same;
use alm_model::PlainPlant;
use alm_types::{Action, AlarmId};
use std::alloc::Global;
use std::test::Fail;

/// The start of the alarms.
const A: usize = 9618;

const B: usize = 9800;

const C: usize = 9982;

const D: usize = 10_164;

/// How many bytes, at which place, the number that is put there, and the place of the damage.
type Case = (usize, usize, u64, Option<usize>);

fn stands(alloc: Global) -> Result<Vec<u8>, Fail> {
    let actions = [
        clock(1000)?,
        value(0, 800)?,
        Action::Shelve(AlarmId(1), 60),
        value(2, 1)?,
    ];
    image_after::<PlainPlant>(alloc, &actions)
}

/// Puts a number of `width` bytes at a place.
fn put(bytes: &mut [u8], width: usize, at: usize, number: u64) {
    let word = number.to_be_bytes();
    for (index, byte) in word.iter().enumerate() {
        let from_end = 8usize.saturating_sub(index);
        let place = at.saturating_add(width).saturating_sub(from_end);
        if from_end <= width && place < bytes.len() {
            bytes[place] = *byte;
        }
    }
}

/// Whether an image with one field changed is damaged at the expected place.
fn is_told(alloc: Global, bytes: &[u8], case: &Case, count: u64) -> Result<bool, Fail> {
    let (width, at, number, expected) = *case;
    let mut changed = bytes.to_vec(alloc)?;
    put(&mut changed, width, at, number);
    let found = match read_image(alloc, &changed, 4, 2, count) {
        Ok(_) => None,
        Err(ImageFault::Damaged(Damage { at })) => Some(at),
        Err(ImageFault::OutOfMemory) => return Err("memory".into()),
    };
    Ok(found == expected)
}

/// The number of the first case that isn't reported.
fn first_wrong(
    alloc: Global,
    bytes: &[u8],
    cases: &[Case],
    count: u64,
) -> Result<Option<usize>, Fail> {
    for (index, case) in cases.iter().enumerate() {
        if !is_told(alloc, bytes, case, count)? {
            return Ok(Some(index));
        }
    }
    Ok(None)
}

/// The clock and the next stamp.
const HEAD: [Case; 11] = [
    (8, 0, 1000, None),
    (8, 0, 1 << 40, Some(0)),
    (8, 0, 1059, None),
    (8, 0, 1060, Some(B + 142)),
    (8, 0, 999, Some(A + 158)),
    (8, 8, 0, Some(8)),
    (8, 8, 1, Some(9610)),
    (8, 8, 2, Some(9610)),
    (8, 8, 3, Some(C + 150)),
    (8, 8, 65_537, None),
    (8, 8, 65_538, Some(8)),
];

/// The areas: flags and ages.
const AREAS: [Case; 10] = [
    (1, 16, 1, Some(4809)),
    (1, 16, 2, Some(16)),
    (8, 17, 10, Some(9610)),
    (8, 17, 11, Some(4809)),
    (8, 25, u64::MAX, Some(4809)),
    (1, 4817, 1, Some(9610)),
    (1, 4817, 2, Some(4817)),
    (8, 4818, 2, None),
    (8, 4818, 3, Some(9610)),
    (8, 4818, 11, Some(9610)),
];

#[test]
fn the_clock_the_next_stamp_and_the_areas(rt: HostRuntime) -> Result<(), Fail> {
    let bytes = stands(rt.alloc())?;
    same(first_wrong(rt.alloc(), &bytes, &HEAD, 4)?, None)?;
    same(first_wrong(rt.alloc(), &bytes, &AREAS, 4)?, None)?;
    Ok(())
}

/// Ages of the new plant.
const AGES_OF_NEW: [Case; 4] = [
    (8, 17, 1, Some(9610)),
    (8, 25, 1, Some(25)),
    (8, 4809, 1, Some(4809)),
    (8, 4826, 1, Some(4826)),
];

#[test]
fn ages_above_now(rt: HostRuntime) -> Result<(), Fail> {
    let bytes = image_after::<PlainPlant>(rt.alloc(), &[])?;
    same(first_wrong(rt.alloc(), &bytes, &AGES_OF_NEW, 0)?, None)?;
    Ok(())
}

/// The numbers of an attribute.
const NUMBERS: [Case; 19] = [
    (1, A, 0, Some(A)),
    (1, A, 4, Some(A)),
    (1, A, 2, None),
    (1, A, 3, Some(A + 12)),
    (1, A + 1, 0, Some(A + 1)),
    (1, A + 1, 5, Some(A + 1)),
    (1, A + 1, 4, None),
    (1, A + 2, 2, Some(A + 2)),
    (1, A + 2, 1, None),
    (1, A + 3, 2, Some(A + 3)),
    (1, A + 3, 1, None),
    (8, A + 4, 1_000_000_000_000, None),
    (8, A + 4, 1_000_000_000_001, Some(A + 4)),
    (8, A + 4, u64::MAX, None),
    (8, A + 12, 1_000_000_000_000, None),
    (8, A + 12, 1_000_000_000_001, Some(A + 12)),
    (8, C + 12, 1, Some(C + 12)),
    (4, A + 20, 604_800, None),
    (4, A + 20, 604_801, Some(A + 20)),
];

/// Its tag and its text.
const TEXTS: [Case; 13] = [
    (1, A + 24, 0, Some(A + 24)),
    (1, A + 24, 33, Some(A + 24)),
    (1, A + 24, 5, Some(A + 25)),
    (1, A + 24, 7, Some(A + 25)),
    (1, A + 25, 32, Some(A + 25)),
    (1, A + 25, 33, None),
    (1, A + 25, 126, None),
    (1, A + 25, 127, Some(A + 25)),
    (1, A + 56, 1, Some(A + 25)),
    (1, A + 57, 81, Some(A + 57)),
    (1, A + 57, 1, Some(A + 58)),
    (1, A + 58, 65, Some(A + 58)),
    (1, A + 137, 1, Some(A + 58)),
];

#[test]
fn attributes(rt: HostRuntime) -> Result<(), Fail> {
    let bytes = stands(rt.alloc())?;
    same(first_wrong(rt.alloc(), &bytes, &NUMBERS, 4)?, None)?;
    same(first_wrong(rt.alloc(), &bytes, &TEXTS, 4)?, None)?;
    Ok(())
}

/// The state of an alarm.
const STATES: [Case; 18] = [
    (1, A + 138, 2, Some(A + 138)),
    (1, A + 138, 0, Some(A + 140)),
    (1, A + 139, 6, Some(A + 139)),
    (1, A + 139, 2, None),
    (1, A + 139, 3, Some(A + 140)),
    (1, A + 139, 4, Some(A + 139)),
    (1, A + 139, 5, Some(A + 139)),
    (1, A + 139, 0, Some(A + 140)),
    (1, C + 139, 3, Some(C + 139)),
    (1, C + 139, 4, Some(C + 140)),
    (1, A + 140, 8, Some(A + 140)),
    (1, A + 140, 1, Some(A + 140)),
    (1, B + 140, 0, Some(B + 142)),
    (1, B + 140, 3, None),
    (1, B + 140, 7, None),
    (1, A + 141, 0, Some(A + 141)),
    (1, A + 141, 4, Some(A + 141)),
    (1, A + 141, 3, None),
];

/// Its deadline, its stamp and its last moments.
const MOMENTS: [Case; 16] = [
    (8, A + 142, 1, Some(A + 142)),
    (8, B + 142, 0, Some(B + 142)),
    (8, B + 142, 1000, Some(B + 142)),
    (8, B + 142, 1001, None),
    (8, B + 142, 4600, None),
    (8, B + 142, 4601, Some(B + 142)),
    (8, A + 150, 0, Some(A + 150)),
    (8, A + 150, 2, Some(B + 150)),
    (8, A + 150, 3, Some(C + 150)),
    (8, A + 150, 4, Some(A + 150)),
    (8, B + 150, 1, Some(B + 150)),
    (8, D + 150, 1, Some(D + 150)),
    (8, A + 158, 1001, Some(A + 158)),
    (8, A + 158, 0, None),
    (8, A + 166, 1, Some(A + 166)),
    (8, A + 174, 1, Some(A + 174)),
];

#[test]
fn states(rt: HostRuntime) -> Result<(), Fail> {
    let bytes = stands(rt.alloc())?;
    same(first_wrong(rt.alloc(), &bytes, &STATES, 4)?, None)?;
    same(first_wrong(rt.alloc(), &bytes, &MOMENTS, 4)?, None)?;
    Ok(())
}
