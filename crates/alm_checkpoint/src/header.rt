//! Reading the header of a device.

ghost use Rattle.std.specs.Prelude.{◌≡◌, ◌≤◌, ◌^◌, true, length, IfOk};
ghost use Rattle.std.specs.Int.{w16, w32, w64};
ghost use Rattle.alm_codec.specs.Reading.{Gives};
ghost use Rattle.alm_codec.specs.Format.{tested_field, number_field};
ghost use Rattle.alm_checkpoint.specs.Cut.{IsLayout};
ghost use Rattle.alm_checkpoint.specs.Layouts.{device_len, is_rows, is_areas, is_segment};
ghost use Rattle.alm_checkpoint.specs.Headers.{name, header, segment_fits};
ghost use Rattle.alm_checkpoint.specs.Opening.{layout_from};

use crate::device_fault::DeviceFault;
use crate::layout::{HEADER_LEN, LONGEST_SEGMENT, Layout, SHORTEST_SEGMENT, device_name};
use alm_codec::fields::{u16_at, u32_at, u64_at};
use alm_codec::{BytesLeft, OPEN_GATE, Version};
use alm_types::{MOST_ALARMS, MOST_AREAS};

/// The version that the name gives.
fn name_of(bytes: &[u8]) -> Result<(Version, &[u8]), BytesLeft>
    ensures { Gives (λ x. (x.0, x.1.now)) result (name.read bytes.now) }
{
    if bytes.len() < 8 {
        return Err(BytesLeft(bytes.len()));
    }
    let (text, rest) = bytes.split_at(8);
    if text == device_name(Version::V01).as_slice() {
        Ok((Version::V01, rest))
    } else if text == device_name(Version::V02).as_slice() {
        Ok((Version::V02, rest))
    } else if text == device_name(Version::V03).as_slice() {
        Ok((Version::V03, rest))
    } else {
        Err(BytesLeft(bytes.len()))
    }
}

/// The number of alarms.
fn rows_of(bytes: &[u8]) -> Result<(u32, &[u8]), BytesLeft>
    ensures limits { IfOk result (λ x. is_rows x.0 ≡ true) }
    ensures rows { Gives (λ x. (x.0, x.1.now)) result
        ((tested_field (number_field w32 (2 ^ 32)) is_rows).read bytes.now) }
{
    let (rows, rest) = u32_at(bytes)?;
    if rows >= 1 && rows as usize <= MOST_ALARMS {
        Ok((rows, rest))
    } else {
        Err(BytesLeft(bytes.len()))
    }
}

/// The number of areas.
fn areas_of(bytes: &[u8]) -> Result<(u8, &[u8]), BytesLeft>
    ensures limits { IfOk result (λ x. is_areas x.0 ≡ true) }
    ensures areas { Gives (λ x. (x.0, x.1.now)) result
        ((tested_field (number_field w16 (2 ^ 16)) is_areas).read bytes.now) }
{
    let (areas, rest) = u16_at(bytes)?;
    if areas >= 1 && areas <= MOST_AREAS as u16 {
        Ok((areas as u8, rest))
    } else {
        Err(BytesLeft(bytes.len()))
    }
}

/// A segment within its limits, if two halves fit the device.
fn segment_of(
    bytes: &[u8],
    size: u64,
    rows: u32,
    areas: u8,
    version: Version,
) -> Result<(Layout, &[u8]), BytesLeft>
    ensures segment { Gives (λ x. (x.0.segment, x.1.now)) result
        ((tested_field (number_field w64 (2 ^ 64)) (segment_fits size rows areas)).read bytes.now) }
    ensures layout { IfOk result
        (λ x. (x.0.rows ≡ rows) × (x.0.areas ≡ areas) × (x.0.version ≡ version)) }
    ensures limits { IfOk result (λ x. is_segment x.0.segment ≡ true) }
    ensures fits { IfOk result (λ x. device_len x.0 ≤ size) }
{
    let (segment, rest) = u64_at(bytes)?;
    if segment < SHORTEST_SEGMENT || segment > LONGEST_SEGMENT {
        return Err(BytesLeft(bytes.len()));
    }
    let layout = Layout::of(rows, areas, segment as u32, version);
    if layout.device_len() <= size {
        Ok((layout, rest))
    } else {
        Err(BytesLeft(bytes.len()))
    }
}

/// All fields after the gate.
fn fields_of(bytes: &[u8], size: u64) -> Result<(Layout, &[u8]), BytesLeft>
    ensures limits { IfOk result (λ x. IsLayout x.0) }
    ensures fits { IfOk result (λ x. device_len x.0 ≤ size) }
    ensures fields { Gives (λ x. (x.0, x.1.now)) result ((header size).read bytes.now) }
{
    let (version, rest) = name_of(bytes)?;
    let (rows, rest) = rows_of(rest)?;
    let (areas, rest) = areas_of(rest)?;
    segment_of(rest, size, rows, areas, version)
}

/// The layout of a device of `size` bytes, by its first 23, or by all if it has fewer.
///
/// `Unformatted` if there are fewer than 23 bytes or the gate is closed; else damage of the header at the first field
/// that breaks its rule. The fields are the name, the rows (1 to 16,384), the areas (1 to 64), and the length of a
/// segment (4,116 to 16,777,216, and both halves fit the device).
#[tactic(auto, unfolding(crate::specs::Opening::layout_from))]
pub fn read_header(start: &[u8], size: u64) -> Result<Layout, DeviceFault>
    requires { length start.now ≤ 23 }
    ensures layout { result ≡ layout_from size start.now }
    ensures limits { IfOk result IsLayout }
    ensures fits { IfOk result (λ l. device_len l ≤ size) }
{
    let [gate, fields @ ..] = start else {
        return Err(DeviceFault::Unformatted);
    };
    if start.len() < HEADER_LEN || *gate != OPEN_GATE {
        return Err(DeviceFault::Unformatted);
    }
    match fields_of(fields, size) {
        Ok((layout, _)) => Ok(layout),
        Err(left) => Err(DeviceFault::Damaged {
            half: 2,
            at: (HEADER_LEN as u64).saturating_sub(left.0 as u64),
        }),
    }
}
