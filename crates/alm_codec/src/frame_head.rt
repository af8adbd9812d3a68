//! The head of a frame, after its gate, up to its first action.

ghost use Rattle.std.specs.Prelude.{◌≡◌, ◌+◌, ◌*◌, ◌<◌, ◌≤◌, length, take, IfOk};
ghost use Rattle.alm_codec.specs.Frames.{count_at, counted, first_at, head_at, shown, sum_at};
ghost use Rattle.alm_codec.specs.Reading.{Gives};
ghost use Rattle.alm_codec.specs.Versions.{sum_len};
ghost use Rattle.alm_types.specs.Sizes.{most_entries};

use crate::bytes_left::BytesLeft;
use crate::fields::{u16_at, u32_at, u64_at};
use crate::sums::sum_of;
use crate::version::Version;
use alm_types::MOST_ENTRIES;

/// How many bytes of a frame there are between its gate and its first action.
pub const HEAD_LEN: usize = 18;

/// How many actions come before a frame after `count` and `more` of them, whose number these bytes begin with, and the bytes
/// after it.
fn first_of(
    version: Version,
    count: u64,
    more: u16,
    bytes: &[u8],
) -> Result<(u64, &[u8]), BytesLeft>
    ensures first { Gives (λ x. (shown version (x.0 + 1), x.1.now)) result
        (first_at version (count + more + 1) bytes.now) }
    ensures count { IfOk result (λ x. x.0 ≡ count + more) }
    ensures left { IfOk result (λ x. length x.1.now + 10 ≡ length bytes.now + sum_len version + 2) }
{
    match version {
        Version::V01 | Version::V02 => {
            let (first, rest) = u64_at(bytes)?;
            if first == 0 || first - 1 < count || first - 1 - count != more as u64 {
                return Err(BytesLeft(bytes.len()));
            }
            Ok((first - 1, rest))
        }
        Version::V03 => {
            let Some(before) = count.checked_add(more as u64) else {
                return Err(BytesLeft(bytes.len()));
            };
            let Some(first) = before.checked_add(1) else {
                return Err(BytesLeft(bytes.len()));
            };
            let (found, rest) = u32_at(bytes)?;
            if found as u64 != first % (1 << 32) {
                return Err(BytesLeft(bytes.len()));
            }
            Ok((before, rest))
        }
    }
}

/// How many actions a number counts; 0 if none.
fn counted(version: Version, number: u16) -> u16
    ensures { result ≡ counted version number }
{
    match version {
        Version::V01 | Version::V02 => number,
        Version::V03 => {
            if number.is_multiple_of(255) {
                number / 255
            } else {
                0
            }
        }
    }
}

/// How many actions a frame has, and the bytes after their number.
fn count_of(version: Version, bytes: &[u8]) -> Result<(u16, &[u8]), BytesLeft>
    ensures count { Gives (λ x. (x.0, x.1.now)) result (count_at version bytes.now) }
    ensures few { IfOk result (λ x. (1 ≤ x.0) × (x.0 ≤ most_entries)) }
    ensures inside { IfOk result (λ x. sum_len version + 16 * x.0 < length x.1.now) }
    ensures left { IfOk result (λ x. length x.1.now + 2 ≡ length bytes.now) }
{
    let (number, rest) = u16_at(bytes)?;
    let actions = counted(version, number);
    let is_count = actions >= 1 && actions as usize <= MOST_ENTRIES;
    if !is_count || rest.len() <= version.sum_len() + 16 * actions as usize {
        return Err(BytesLeft(bytes.len()));
    }
    Ok((actions, rest))
}

/// The bytes after the checksum of a head and of the actions that follow it, where the version has checksums.
fn after_sum<'a>(
    version: Version,
    head: &[u8],
    actions: u16,
    bytes: &'a [u8],
) -> Result<&'a [u8], BytesLeft>
    requires { sum_len version + 16 * actions < length bytes.now }
    ensures sum { Gives (λ rest. (actions, rest.now)) result (sum_at version head.now (actions, bytes.now)) }
    ensures inside { IfOk result (λ rest. 16 * actions < length rest.now) }
    ensures left { IfOk result (λ rest. length rest.now ≤ length bytes.now) }
{
    match version {
        Version::V01 | Version::V02 => Ok(bytes),
        Version::V03 => {
            let (found, rest) = u32_at(bytes)?;
            let (texts, _) = rest.split_at(16 * actions as usize);
            if found != sum_of(head, texts) {
                return Err(BytesLeft(bytes.len()));
            }
            Ok(rest)
        }
    }
}

/// Reads the head of the frame of an epoch after `count` and `more` actions, in a half of a version. Returns the number of
/// actions before it, how many it has, and the bytes from the first of them on.
#[tactic(auto, unfolding(crate::specs::Frames::head_at))]
pub fn read_head(
    bytes: &[u8],
    epoch: u64,
    count: u64,
    more: u16,
    version: Version,
) -> Result<(u64, u16, &[u8]), BytesLeft>
    ensures head { Gives (λ x. (x.1, x.2.now)) result
        (head_at version epoch (count + more) bytes.now) }
    ensures count { IfOk result (λ x. x.0 ≡ count + more) }
    ensures few { IfOk result (λ x. (1 ≤ x.1) × (x.1 ≤ most_entries)) }
    ensures inside { IfOk result (λ x. 16 * x.1 < length x.2.now) }
    ensures left { IfOk result (λ x. length x.2.now ≤ length bytes.now) }
{
    let (found_epoch, rest) = u64_at(bytes)?;
    if found_epoch != epoch {
        return Err(BytesLeft(bytes.len()));
    }
    let (before, rest) = first_of(version, count, more, rest)?;
    let (actions, rest) = count_of(version, rest)?;
    let (head, _) = bytes.split_at(HEAD_LEN - version.sum_len());
    let rest = after_sum(version, head, actions, rest)?;
    Ok((before, actions, rest))
}
