//! The fields of an image that change of an alarm.

ghost use Rattle.std.specs.Prelude.{◌&&◌, ◌||◌, ◌≤◌, ◌<◌, ◌+◌, nat_le, nat_lt, not, IfOk};
ghost use Rattle.alm_state.specs.Rows.{is_annunciated};
ghost use Rattle.alm_codec.specs.Reading.{Gives};
ghost use Rattle.alm_codec.specs.Format.{byte, tested_field};
ghost use Rattle.alm_codec.specs.ImageFields.{u64, core, deadline_field, is_stamp, is_moment, moment_fields};

use crate::bytes_left::BytesLeft;
use crate::fields::{u8_at, u64_at};
use alm_state::Core;
use alm_types::Moment;
use std::collections::BTreeSet;

/// A core state that an alarm can be in, by whether it latches.
pub fn core_of(bytes: &[u8], latching: bool) -> Result<(Core, &[u8]), BytesLeft>
    ensures { Gives (λ x. (x.0, x.1.now)) result ((core latching).read bytes.now) }
{
    let (code, rest) = u8_at(bytes)?;
    match code {
        0 => Ok((Core::Normal, rest)),
        1 => Ok((Core::Unack, rest)),
        2 => Ok((Core::Acked, rest)),
        3 if !latching => Ok((Core::RtnUnack, rest)),
        4 if latching => Ok((Core::LatchUnack, rest)),
        5 if latching => Ok((Core::LatchAcked, rest)),
        _ => Err(BytesLeft(bytes.len())),
    }
}

/// How many moments are kept of an alarm in a core state.
pub fn kept_of(bytes: &[u8], core: Core) -> Result<(u8, &[u8]), BytesLeft>
    ensures kept { Gives (λ x. (x.0, x.1.now)) result
        ((tested_field byte (λ n. nat_le n 3 && (not (is_annunciated core) || nat_lt 0 n))).read
        bytes.now) }
    ensures few { IfOk result (λ x. x.0 ≤ 3) }
{
    let (kept, rest) = u8_at(bytes)?;
    if kept > 3 || (core.is_annunciated() && kept == 0) {
        return Err(BytesLeft(bytes.len()));
    }
    Ok((kept, rest))
}

/// When the shelving of an alarm ends; none if it isn't shelved.
pub fn deadline_of(
    bytes: &[u8],
    clock: Moment,
    max_shelve: u32,
    shelved: bool,
) -> Result<(Option<u64>, &[u8]), BytesLeft>
    ensures { Gives (λ x. (x.0, x.1.now)) result
        ((deadline_field clock max_shelve shelved).read bytes.now) }
{
    let (moment, rest) = u64_at(bytes)?;
    if shelved {
        let clock = clock.seconds();
        if clock < moment && moment <= clock + max_shelve as u64 {
            return Ok((Some(moment), rest));
        }
    } else if moment == 0 {
        return Ok((None, rest));
    }
    Err(BytesLeft(bytes.len()))
}

/// The stamp of an alarm: one that was given and not seen before, or zero if it has none.
pub fn stamp_of<'a>(
    bytes: &'a [u8],
    next_stamp: u64,
    stamped: bool,
    seen: &BTreeSet<u64>,
) -> Result<(u64, &'a [u8]), BytesLeft>
    ensures { Gives (λ x. (x.0, x.1.now)) result
        ((tested_field u64 (is_stamp next_stamp seen.now.keys stamped)).read bytes.now) }
{
    let (stamp, rest) = u64_at(bytes)?;
    let right = if stamped {
        0 < stamp && stamp < next_stamp && !seen.contains(&stamp)
    } else {
        stamp == 0
    };
    if right {
        Ok((stamp, rest))
    } else {
        Err(BytesLeft(bytes.len()))
    }
}

/// A moment of at most a bound if one is left, else zero.
fn moment_of(bytes: &[u8], left: u8, bound: Moment) -> Result<(Moment, &[u8]), BytesLeft>
    ensures { Gives (λ x. (x.0, x.1.now)) result
        ((tested_field u64 (is_moment (left, bound))).read bytes.now) }
{
    let (seconds, rest) = u64_at(bytes)?;
    let bound = if left == 0 { 0 } else { bound.seconds() };
    match Moment::new(seconds) {
        Some(moment) if seconds <= bound => Ok((moment, rest)),
        _ => Err(BytesLeft(bytes.len())),
    }
}

/// The moments that are kept, the newest first, and zeros.
#[tactic(auto, unfolding(crate::specs::Format::read_each))]
pub fn moments_of(bytes: &[u8], kept: u8, clock: Moment) -> Result<([Moment; 3], &[u8]), BytesLeft>
    ensures { Gives (λ x. (x.0, x.1.now)) result ((moment_fields kept clock).read bytes.now) }
{
    let (first, rest) = match moment_of(bytes, kept, clock) {
        Ok(found) => found,
        Err(left) => return Err(left),
    };
    let (second, rest) = match moment_of(rest, kept.saturating_sub(1), first) {
        Ok(found) => found,
        Err(left) => return Err(left),
    };
    let (third, rest) = match moment_of(rest, kept.saturating_sub(2), second) {
        Ok(found) => found,
        Err(left) => return Err(left),
    };
    Ok(([first, second, third], rest))
}
