//! Reading the head of a half.

ghost use Rattle.std.specs.Prelude.{◌≡◌, ◌≤◌, length, true, IfOk};
ghost use Rattle.alm_codec.specs.Reading.{Gives};
ghost use Rattle.alm_codec.specs.declared.version.Version.TheVariants.{V03};
ghost use Rattle.alm_checkpoint.specs.Headers.{half_head, head_sum, length_field, sums_field, end_field, mark, mark_weight, allows, has_mark};
ghost use Rattle.alm_checkpoint.specs.Opening.{half_head_from};
ghost use Rattle.alm_types.specs.Sizes.{most_actions};

use crate::device_fault::DeviceFault;
use crate::half::Half;
use crate::layout::Layout;
use alm_codec::fields::{u32_at, u64_at};
use alm_codec::{BytesLeft, Version};
use alm_types::MOST_ACTIONS;

/// What the head of a half says.
#[derive(Clone, Copy, Debug, PartialEq, Eq)]
pub struct HalfHead {
    /// A checkpoint writes the epoch of the half that stood before plus 1.
    pub epoch: u64,
    /// Given by its mark; a checkpoint writes version 02, or 03 if the half that stands has it.
    pub version: Version,
    /// How many actions made the plant of its image, at most 2^48.
    pub count: u64,
    /// The checksum of its image in version 03, else 0.
    pub sum: u32,
}

/// What the mark of version 02 adds to the count: 2 in the first of the eight bytes that they share.
const SECOND_MARK: u64 = 2 << 56;

/// What that of version 03 adds: 253 there.
const THIRD_MARK: u64 = 253 << 56;

/// What the mark of a version adds to the count of actions with which it is one field.
pub(crate) fn mark_weight(version: Version) -> u64
    ensures { result ≡ mark_weight version }
{
    match version {
        Version::V01 => 0,
        Version::V02 => SECOND_MARK,
        Version::V03 => THIRD_MARK,
    }
}

/// Whether a half of a version may be under a header of a version.
fn allows(header: Version, half: Version) -> bool
    ensures { result ≡ allows header half }
{
    match header {
        Version::V01 => matches!(half, Version::V01 | Version::V02),
        Version::V02 => matches!(half, Version::V02),
        Version::V03 => matches!(half, Version::V03),
    }
}

/// Whether a field has the mark of a version that may be under a header, and a count of actions.
fn has_mark(field: u64, header: Version, half: Version) -> bool
    ensures { result ≡ has_mark header half field }
{
    let mark = mark_weight(half);
    allows(header, half) && field >= mark && field - mark <= MOST_ACTIONS
}

/// The version of a half under a header of a version, and its count of actions.
fn mark_of(bytes: &[u8], header: Version) -> Result<((Version, u64), &[u8]), BytesLeft>
    ensures limit { IfOk result (λ x. x.0.1 ≤ most_actions) }
    ensures allowed { IfOk result (λ x. allows header x.0.0 ≡ true) }
    ensures mark { Gives (λ x. (x.0, x.1.now)) result ((mark header).read bytes.now) }
{
    let (field, rest) = u64_at(bytes)?;
    if has_mark(field, header, Version::V01) {
        return Ok(((Version::V01, field), rest));
    }
    if has_mark(field, header, Version::V02) {
        return Ok(((Version::V02, field - SECOND_MARK), rest));
    }
    if has_mark(field, header, Version::V03) {
        return Ok(((Version::V03, field - THIRD_MARK), rest));
    }
    Err(BytesLeft(bytes.len()))
}

/// The length of the image, which is known beforehand; such a head says no checksum.
fn length_of(bytes: &[u8], image: usize) -> Result<(u32, &[u8]), BytesLeft>
    ensures { Gives (λ x. (x.0, x.1.now)) result ((length_field image).read bytes.now) }
{
    let (found, rest) = u64_at(bytes)?;
    if found == image as u64 {
        Ok((0, rest))
    } else {
        Err(BytesLeft(bytes.len()))
    }
}

impl Layout {
    /// The checksum of the image, before that of a head of version 03 with these fields.
    fn sums_of<'a>(
        &self,
        half: Half,
        epoch: u64,
        count: u64,
        bytes: &'a [u8],
    ) -> Result<(u32, &'a [u8]), BytesLeft>
        requires { count ≤ most_actions }
        ensures { Gives (λ x. (x.0, x.1.now)) result
            ((sums_field (head_sum self.now half V03 epoch count)).read bytes.now) }
    {
        let (sum, rest) = u32_at(bytes)?;
        let (found, behind) = u32_at(rest)?;
        let head = HalfHead {
            epoch,
            version: Version::V03,
            count,
            sum,
        };
        if found == self.head_sum(half, &head) {
            Ok((sum, behind))
        } else {
            Err(BytesLeft(rest.len()))
        }
    }

    /// The end of a head: the length of its image, or the checksums of image and head.
    fn end_of<'a>(
        &self,
        half: Half,
        version: Version,
        epoch: u64,
        count: u64,
        bytes: &'a [u8],
    ) -> Result<(u32, &'a [u8]), BytesLeft>
        requires { count ≤ most_actions }
        ensures { Gives (λ x. (x.0, x.1.now)) result
            ((end_field self.now half version epoch count).read bytes.now) }
    {
        match version {
            Version::V01 | Version::V02 => length_of(bytes, self.image_len()),
            Version::V03 => self.sums_of(half, epoch, count, bytes),
        }
    }

    /// All fields after the gate.
    fn fields_of<'a>(&self, half: Half, bytes: &'a [u8]) -> Result<(HalfHead, &'a [u8]), BytesLeft>
        ensures count { IfOk result (λ x. x.0.count ≤ most_actions) }
        ensures allowed { IfOk result (λ x. allows self.now.version x.0.version ≡ true) }
        ensures fields { Gives (λ x. (x.0, x.1.now)) result
            ((half_head self.now half).read bytes.now) }
    {
        let (epoch, rest) = u64_at(bytes)?;
        let ((version, count), rest) = mark_of(rest, self.version)?;
        let (sum, rest) = self.end_of(half, version, epoch, count, rest)?;
        Ok((
            HalfHead {
                epoch,
                version,
                count,
                sum,
            },
            rest,
        ))
    }

    /// What the head of a half says, by its 25 bytes.
    ///
    /// Damage is at mark and count, which are one field, or else at the last fields. Mark and count are damaged if the count
    /// is above 2^48, or the mark isn't that of a version that may be under the header. Under one of version 01 a half may be
    /// of version 02 too, else only of the header's version. The last fields are damaged if the image length isn't this
    /// layout's, or in version 03 if the checksum of the head isn't its own. Any epoch is valid, and any checksum of the image.
    #[tactic(auto, unfolding(crate::specs::Opening::half_head_from))]
    pub fn read_half_head(&self, half: Half, bytes: &[u8]) -> Result<HalfHead, DeviceFault>
        requires { length bytes.now ≡ 25 }
        ensures head { result ≡ half_head_from self.now half bytes.now }
        ensures count { IfOk result (λ h. h.count ≤ most_actions) }
        ensures allowed { IfOk result (λ h. allows self.now.version h.version ≡ true) }
    {
        match self.fields_of(half, &bytes[1..]) {
            Ok((head, _)) => Ok(head),
            Err(left) => Err(DeviceFault::Damaged {
                half: half.number(),
                at: self.image_at(half).saturating_sub(left.0 as u64),
            }),
        }
    }
}
