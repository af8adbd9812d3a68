//! The fields of an image that are fixed of an alarm.

ghost use Rattle.std.specs.Prelude.{◌≡◌, ◌&&◌, ◌==◌, ◌<◌, nat_le, nat_lt, true};
ghost use Rattle.alm_types.specs.Texts.{is_tag, is_text};
ghost use Rattle.alm_codec.specs.Reading.{Gives};
ghost use Rattle.alm_codec.specs.Format.{byte, tested_field};
ghost use Rattle.alm_codec.specs.ImageFields.{u32, u64, flag, kind_field, setpoint, text_in, is_deadband, zeros, fixed_fields};

use crate::bytes_left::BytesLeft;
use crate::fields::{u8_at, u32_at, u64_at};
use alm_types::{Kind, Reading, Tag, Text};

/// What is fixed of an alarm.
#[derive(Clone, Copy, Debug)]
pub struct Fixed {
    pub kind: Kind,
    pub priority: u8,
    pub area: u8,
    pub latching: bool,
    pub setpoint: Reading,
    pub deadband: u64,
    pub max_shelve: u32,
    pub tag: Tag,
    pub text: Text,
}

/// A flag: 1 on, 0 off.
pub fn flag_of(bytes: &[u8]) -> Result<(bool, &[u8]), BytesLeft>
    ensures { Gives (λ x. (x.0, x.1.now)) result (flag.read bytes.now) }
{
    let (code, rest) = u8_at(bytes)?;
    match code {
        0 => Ok((false, rest)),
        1 => Ok((true, rest)),
        _ => Err(BytesLeft(bytes.len())),
    }
}

fn kind_of(bytes: &[u8]) -> Result<(Kind, &[u8]), BytesLeft>
    ensures { Gives (λ x. (x.0, x.1.now)) result (kind_field.read bytes.now) }
{
    let (code, rest) = u8_at(bytes)?;
    match code {
        1 => Ok((Kind::High, rest)),
        2 => Ok((Kind::Low, rest)),
        3 => Ok((Kind::Discrete, rest)),
        _ => Err(BytesLeft(bytes.len())),
    }
}

fn setpoint_of(bytes: &[u8]) -> Result<(Reading, &[u8]), BytesLeft>
    ensures { Gives (λ x. (x.0, x.1.now)) result (setpoint.read bytes.now) }
{
    let (word, rest) = u64_at(bytes)?;
    match Reading::new(word.cast_signed()) {
        Some(setpoint) => Ok((setpoint, rest)),
        None => Err(BytesLeft(bytes.len())),
    }
}

/// Whether all bytes are zero.
fn are_zeros(bytes: &[u8]) -> bool
    ensures { result ≡ zeros bytes.now }
{
    bytes.iter().all(|b| *b == 0)
}

/// A tag after its length, with its rest.
fn tag_of(bytes: &[u8]) -> Result<(Tag, &[u8]), BytesLeft>
    ensures { Gives (λ x. (x.0, x.1.now)) result ((text_in 1 32 is_tag).read bytes.now) }
{
    let (len, after) = u8_at(bytes)?;
    if len < 1 || len > 32 {
        return Err(BytesLeft(bytes.len()));
    }
    if after.len() < 32 {
        return Err(BytesLeft(after.len()));
    }
    let (field, rest) = after.split_at(32);
    let (text, unused) = field.split_at(len as usize);
    match Tag::new(text) {
        Some(tag) if are_zeros(unused) => Ok((tag, rest)),
        _ => Err(BytesLeft(after.len())),
    }
}

/// A text after its length, with its rest.
fn text_of(bytes: &[u8]) -> Result<(Text, &[u8]), BytesLeft>
    ensures { Gives (λ x. (x.0, x.1.now)) result ((text_in 0 80 is_text).read bytes.now) }
{
    let (len, after) = u8_at(bytes)?;
    if len > 80 {
        return Err(BytesLeft(bytes.len()));
    }
    if after.len() < 80 {
        return Err(BytesLeft(after.len()));
    }
    let (field, rest) = after.split_at(80);
    let (text, unused) = field.split_at(len as usize);
    match Text::new(text) {
        Some(text) if are_zeros(unused) => Ok((text, rest)),
        _ => Err(BytesLeft(after.len())),
    }
}

fn priority_of(bytes: &[u8]) -> Result<(u8, &[u8]), BytesLeft>
    ensures { Gives (λ x. (x.0, x.1.now)) result
        ((tested_field byte (λ n. nat_le 1 n && nat_le n 4)).read bytes.now) }
{
    let (priority, rest) = u8_at(bytes)?;
    if 1 <= priority && priority <= 4 {
        Ok((priority, rest))
    } else {
        Err(BytesLeft(bytes.len()))
    }
}

fn area_of(bytes: &[u8], areas: u8) -> Result<(u8, &[u8]), BytesLeft>
    ensures { Gives (λ x. (x.0, x.1.now)) result
        ((tested_field byte (λ n. nat_lt n areas)).read bytes.now) }
{
    let (area, rest) = u8_at(bytes)?;
    if area < areas {
        Ok((area, rest))
    } else {
        Err(BytesLeft(bytes.len()))
    }
}

fn deadband_of(bytes: &[u8], kind: Kind) -> Result<(u64, &[u8]), BytesLeft>
    ensures { Gives (λ x. (x.0, x.1.now)) result
        ((tested_field u64 (is_deadband kind)).read bytes.now) }
{
    let (deadband, rest) = u64_at(bytes)?;
    if deadband <= kind.deadband_limit() {
        Ok((deadband, rest))
    } else {
        Err(BytesLeft(bytes.len()))
    }
}

fn max_shelve_of(bytes: &[u8]) -> Result<(u32, &[u8]), BytesLeft>
    ensures { Gives (λ x. (x.0, x.1.now)) result
        ((tested_field u32 (λ n. nat_le n 604800)).read bytes.now) }
{
    let (seconds, rest) = u32_at(bytes)?;
    if seconds <= 604_800 {
        Ok((seconds, rest))
    } else {
        Err(BytesLeft(bytes.len()))
    }
}

/// What is fixed of an alarm in a plant of `areas` areas.
pub fn fixed_of(bytes: &[u8], areas: u8) -> Result<(Fixed, &[u8]), BytesLeft>
    ensures { Gives (λ x. (x.0, x.1.now)) result ((fixed_fields areas).read bytes.now) }
{
    let (kind, rest) = kind_of(bytes)?;
    let (priority, rest) = priority_of(rest)?;
    let (area, rest) = area_of(rest, areas)?;
    let (latching, rest) = flag_of(rest)?;
    let (setpoint, rest) = match setpoint_of(rest) {
        Ok(found) => found,
        Err(left) => return Err(left),
    };
    let (deadband, rest) = deadband_of(rest, kind)?;
    let (max_shelve, rest) = max_shelve_of(rest)?;
    let (tag, rest) = match tag_of(rest) {
        Ok(found) => found,
        Err(left) => return Err(left),
    };
    let (text, rest) = match text_of(rest) {
        Ok(found) => found,
        Err(left) => return Err(left),
    };
    let found = Fixed {
        kind,
        priority,
        area,
        latching,
        setpoint,
        deadband,
        max_shelve,
        tag,
        text,
    };
    Ok((found, rest))
}
