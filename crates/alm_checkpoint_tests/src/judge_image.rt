//! The second judge's rules of an image.

use crate::judge::Sizes;
use crate::numbers::{byte, first_broken, is_value, number, part, tail};

/// How far a field is from the start of its alarm.
const DEADBAND: usize = 12;

const MAX_SHELVE: usize = 20;

const TAG: usize = 24;

const TEXT: usize = 57;

const ACTIVE: usize = 138;

const CORE: usize = 139;

const FLAGS: usize = 140;

const KEPT: usize = 141;

const DEADLINE: usize = 142;

const STAMP: usize = 150;

const MOMENTS: usize = 158;

/// The window of an area, or its first damaged field.
fn window(area: &[u8], now: u64) -> Result<u64, usize> {
    if byte(area, 0) > 1 {
        return Err(0);
    }
    let mut window = 0u64;
    for age in 0..600usize {
        let count = number(area, 1 + 8 * age, 8);
        if count != 0 && age as u64 > now {
            return Err(1 + 8 * age);
        }
        window = window.saturating_add(count);
    }
    let is_flood = byte(area, 0) == 1;
    if (is_flood && window < 5) || (!is_flood && window > 10) {
        return Err(4793);
    }
    Ok(window)
}

fn areas(image: &[u8], sizes: Sizes, now: u64, next_stamp: u64) -> Result<(), usize> {
    let mut all = 0u64;
    for area in 0..sizes.areas {
        let start = 16 + 4801 * area as usize;
        match window(tail(image, start), now) {
            Ok(count) => all = all.saturating_add(count),
            Err(at) => return Err(at.saturating_add(start)),
        }
        if area + 1 == sizes.areas && all >= next_stamp {
            return Err(start + 4793);
        }
    }
    Ok(())
}

/// A text of bytes that print from a first one on, in a field whose rest is zero.
fn is_text(field: &[u8], len: u8, first: u8) -> bool {
    let mut good = true;
    for (place, byte) in field.iter().enumerate() {
        let suits = if place < len as usize {
            *byte >= first && *byte <= 126
        } else {
            *byte == 0
        };
        good = good && suits;
    }
    good
}

/// The attributes of an alarm, field by field.
fn attributes(alarm: &[u8], areas: u16) -> Result<(), usize> {
    let kind = byte(alarm, 0);
    let priority = byte(alarm, 1);
    let deadband = number(alarm, DEADBAND, 8);
    let most = if kind == 3 { 0 } else { 1_000_000_000_000 };
    let tag = byte(alarm, TAG);
    let text = byte(alarm, TEXT);
    first_broken(&[
        (kind >= 1 && kind <= 3, 0),
        (priority >= 1 && priority <= 4, 1),
        ((byte(alarm, 2) as u16) < areas, 2),
        (byte(alarm, 3) <= 1, 3),
        (is_value(number(alarm, 4, 8)), 4),
        (deadband <= most, DEADBAND),
        (number(alarm, MAX_SHELVE, 4) <= 604_800, MAX_SHELVE),
        (tag >= 1 && tag <= 32, TAG),
        (is_text(part(alarm, TAG + 1, 32), tag, 33), TAG + 1),
        (text <= 80, TEXT),
        (is_text(part(alarm, TEXT + 1, 80), text, 32), TEXT + 1),
    ])
}

/// The state of an alarm; `twice` says that an earlier alarm has its stamp.
fn state(alarm: &[u8], now: u64, next_stamp: u64, twice: bool) -> Result<(), usize> {
    let active = byte(alarm, ACTIVE) == 1;
    let core = byte(alarm, CORE);
    let latches = byte(alarm, 3) == 1;
    let flags = byte(alarm, FLAGS);
    let shelved = flags % 2 == 1;
    let deadline = number(alarm, DEADLINE, 8);
    let latest = now.saturating_add(number(alarm, MAX_SHELVE, 4));
    let stamp = number(alarm, STAMP, 8);
    first_broken(&[
        (byte(alarm, ACTIVE) <= 1, ACTIVE),
        (
            core <= 2 || (core == 3 && !latches) || (core >= 4 && core <= 5 && latches),
            CORE,
        ),
        (
            flags <= 7
                && if flags == 0 {
                    active == (core == 1 || core == 2)
                } else {
                    core == 0
                },
            FLAGS,
        ),
        (
            byte(alarm, KEPT) <= 3 && (core == 0 || byte(alarm, KEPT) >= 1),
            KEPT,
        ),
        (
            if shelved {
                deadline > now && deadline <= latest
            } else {
                deadline == 0
            },
            DEADLINE,
        ),
        (
            if shelved || core > 0 {
                stamp > 0 && stamp < next_stamp && !twice
            } else {
                stamp == 0
            },
            STAMP,
        ),
    ])
}

/// The last annunciations of an alarm, none later than the one before it.
fn moments(alarm: &[u8], now: u64) -> Result<(), usize> {
    let mut latest = now;
    for kept in 0..3u8 {
        let at = MOMENTS + 8 * kept as usize;
        let moment = number(alarm, at, 8);
        let most = if kept < byte(alarm, KEPT) { latest } else { 0 };
        if moment > most {
            return Err(at);
        }
        latest = moment;
    }
    Ok(())
}

/// Whether an alarm before this one has its stamp.
fn is_twice(alarms: &[u8], row: u16) -> bool {
    let stamp = number(alarms, 182 * row as usize + STAMP, 8);
    let mut twice = false;
    for earlier in 0..row {
        twice = twice || number(alarms, 182 * earlier as usize + STAMP, 8) == stamp;
    }
    twice
}

fn alarm(alarms: &[u8], row: u16, sizes: Sizes, now: u64, next_stamp: u64) -> Result<(), usize> {
    let alarm = tail(alarms, 182 * row as usize);
    attributes(alarm, sizes.areas)?;
    state(alarm, now, next_stamp, is_twice(alarms, row))?;
    moments(alarm, now)
}

/// Whether the bytes are an image after `count` actions, or the place of its first damaged field.
pub fn image(image: &[u8], sizes: Sizes, count: u64) -> Result<(), usize> {
    let now = number(image, 0, 8);
    if now >= 1 << 40 {
        return Err(0);
    }
    let next_stamp = number(image, 8, 8);
    if next_stamp < 1 || next_stamp > count.saturating_mul(16_384).saturating_add(1) {
        return Err(8);
    }
    areas(image, sizes, now, next_stamp)?;
    let start = 16 + 4801 * sizes.areas as usize;
    for row in 0..sizes.rows {
        if let Err(at) = alarm(tail(image, start), row, sizes, now, next_stamp) {
            return Err(at.saturating_add(start + 182 * row as usize));
        }
    }
    Ok(())
}
