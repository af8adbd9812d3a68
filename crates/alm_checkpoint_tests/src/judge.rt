//! A second judge of a device: what its bytes encode, by the tables of the format. It takes numbers at fixed places and
//! lists each field's rule in order; it calls no function of the crates under test.
//!
//! Of actions it follows `CLOCK` and `VALUE` for alarms without flags, which the worked device has; another action counts
//! as not admitted.

use crate::judge_image::image;
use crate::judge_journal::Journal;
use crate::numbers::{byte, checksum, number, part, register_after, tail};
use crate::worked::Opened;
use alm_checkpoint::{DeviceFault, Half};

/// The value at which the gates of the header and of halves are open, and in versions 01 and 02 those of frames.
const OPEN: u8 = 0xA5;

/// Rows, areas, and the length of a segment.
#[derive(Clone, Copy)]
pub struct Sizes {
    pub rows: u16,
    pub areas: u16,
    pub segment: u32,
    /// The marks that a half may have, the same twice if there is one alone.
    pub marks: (u8, u8),
    /// Whether it is a device of version 03, which has checksums.
    pub is_summed: bool,
}

impl Sizes {
    fn image(self) -> usize {
        16 + 4801 * self.areas as usize + 182 * self.rows as usize
    }

    /// Whether a frame's gate is open.
    pub fn is_open(self, gate: u8) -> bool {
        if self.is_summed {
            gate != 0x5A
        } else {
            gate == OPEN
        }
    }

    fn half(self) -> usize {
        25 + 16 + 4801 * self.areas as usize + 182 * self.rows as usize + self.segment as usize
    }
}

fn damaged(half: u8, at: usize) -> DeviceFault {
    DeviceFault::Damaged {
        half,
        at: at as u64,
    }
}

/// The marks that a half may have under a name.
fn marks_of(name: &[u8]) -> Option<(u8, u8)> {
    if name == b"ALMSRV01".as_slice() {
        Some((0, 2))
    } else if name == b"ALMSRV02".as_slice() {
        Some((2, 2))
    } else if name == b"ALMSRV03".as_slice() {
        Some((0xFD, 0xFD))
    } else {
        None
    }
}

fn sizes_of(device: &[u8]) -> Result<Sizes, DeviceFault> {
    if device.len() < 23 || byte(device, 0) != OPEN {
        return Err(DeviceFault::Unformatted);
    }
    let Some(marks) = marks_of(part(device, 1, 8)) else {
        return Err(damaged(2, 1));
    };
    let rows = number(device, 9, 4);
    if rows < 1 || rows > 16_384 {
        return Err(damaged(2, 9));
    }
    let areas = number(device, 13, 2);
    if areas < 1 || areas > 64 {
        return Err(damaged(2, 13));
    }
    let segment = number(device, 15, 8);
    if segment < 4116 || segment > 16_777_216 {
        return Err(damaged(2, 15));
    }
    let sizes = Sizes {
        rows: rows as u16,
        areas: areas as u16,
        segment: segment as u32,
        marks,
        is_summed: marks.0 == 0xFD,
    };
    if sizes.half() > (device.len() - 23) / 2 {
        return Err(damaged(2, 15));
    }
    Ok(sizes)
}

/// The half that stands, and its start.
fn standing(device: &[u8], sizes: Sizes) -> Result<(Half, usize), DeviceFault> {
    let second = sizes.half().saturating_add(23);
    let epochs = (number(device, 24, 8), number(tail(device, second), 1, 8));
    match (byte(device, 23) == OPEN, byte(device, second) == OPEN) {
        (false, false) => Err(damaged(2, 23)),
        (true, false) => Ok((Half::First, 23)),
        (false, true) => Ok((Half::Second, second)),
        (true, true) => {
            if epochs.0 == epochs.1 {
                Err(damaged(1, second.saturating_add(1)))
            } else if epochs.0 > epochs.1 {
                Ok((Half::First, 23))
            } else {
                Ok((Half::Second, second))
            }
        }
    }
}

/// The place in a half of the first fault of its head.
fn head_fault(device: &[u8], start: usize, sizes: Sizes) -> Option<usize> {
    let bytes = tail(device, start);
    let mark = byte(bytes, 9);
    if number(bytes, 10, 7) > 1 << 48 || (mark != sizes.marks.0 && mark != sizes.marks.1) {
        return Some(9);
    }
    if !sizes.is_summed {
        return (number(bytes, 17, 8) != sizes.image() as u64).then_some(17);
    }
    let half = [if start == 23 { 0u8 } else { 1 }];
    let register = register_after(register_after(0xFFFF_FFFF, part(device, 1, 22)), &half);
    let found = register_after(register, part(bytes, 1, 20)) ^ 0xFFFF_FFFF;
    (number(bytes, 21, 4) != found as u64).then_some(21)
}

/// The damage of the heads: of the half that stands, else in version 03 of the other one, if its gate is open.
fn heads(device: &[u8], sizes: Sizes, which: Half, start: usize) -> Result<(), DeviceFault> {
    let second = sizes.half().saturating_add(23);
    let own = if which == Half::First { 0 } else { 1 };
    if let Some(at) = head_fault(device, start, sizes) {
        return Err(damaged(own, at.saturating_add(start)));
    }
    let other = if own == 0 { second } else { 23 };
    if !sizes.is_summed || byte(device, other) != OPEN {
        return Ok(());
    }
    match head_fault(device, other, sizes) {
        Some(at) => Err(damaged(1 - own, at.saturating_add(other))),
        None => Ok(()),
    }
}

/// The count after the journal of a half, and the place of its first closed gate in the half; or the place of its first
/// fault.
fn counted(bytes: &[u8], sizes: Sizes) -> Result<(u64, usize), usize> {
    let count = number(bytes, 10, 7);
    let stored = part(bytes, 25, sizes.image());
    if sizes.is_summed && number(bytes, 17, 4) != checksum(stored, &[]) {
        return Err(17);
    }
    if let Err(at) = image(stored, sizes, count) {
        return Err(at.saturating_add(25));
    }
    let start = sizes.image().saturating_add(25);
    let segment = part(bytes, start, sizes.segment as usize);
    match Journal::of(stored, sizes, number(bytes, 1, 8), count).follow(segment) {
        Ok((count, gate)) => Ok((count, gate.saturating_add(start))),
        Err(at) => Err(at.saturating_add(start)),
    }
}

fn found(device: &[u8]) -> Result<Opened, DeviceFault> {
    let sizes = sizes_of(device)?;
    let (which, start) = standing(device, sizes)?;
    heads(device, sizes, which, start)?;
    let bytes = tail(device, start);
    match counted(bytes, sizes) {
        Ok((count, gate)) => Ok(Opened::Stands {
            half: which,
            epoch: number(bytes, 1, 8),
            count,
            gate: gate.saturating_add(start) as u64,
        }),
        Err(at) => Err(damaged(
            if which == Half::First { 0 } else { 1 },
            at.saturating_add(start),
        )),
    }
}

/// What a device encodes, or its first fault.
pub fn judged(device: &[u8]) -> Opened {
    match found(device) {
        Ok(stands) => stands,
        Err(fault) => Opened::DeviceFault(fault),
    }
}
