//! The checksums of an image and of the head of a half.

ghost use Rattle.std.specs.Prelude.{◌≡◌, ◌≤◌};
ghost use Rattle.alm_checkpoint.specs.Headers.{head_sum, image_sum};
ghost use Rattle.alm_types.specs.Sizes.{most_actions};

use crate::half::Half;
use crate::half_head::{HalfHead, mark_weight};
use crate::layout::{HEADER_LEN, Layout};
use alm_codec::Version;
use alm_codec::fields::{put, put_word};
use alm_sum::checksum;

/// The checksum of an image, which a head of version 03 has; 0 in the other versions.
pub fn image_sum(version: Version, image: &[u8]) -> u32
    ensures { result ≡ image_sum version image.now }
{
    match version {
        Version::V01 | Version::V02 => 0,
        Version::V03 => checksum(image),
    }
}

impl Layout {
    /// The checksum of the head of a half: of the header after its gate, the half's number, and the fields of the head before it.
    pub(crate) fn head_sum(&self, half: Half, head: &HalfHead) -> u32
        requires { head.now.count ≤ most_actions }
        ensures { result ≡
            head_sum self.now half head.now.version head.now.epoch head.now.count head.now.sum }
    {
        let mut text = [0; 43];
        self.write_header(&mut text);
        let epoch_at = put(&mut text, HEADER_LEN - 1, &[half.number()]);
        let count_at = put_word(&mut text, epoch_at, head.epoch);
        let sum_at = put_word(&mut text, count_at, mark_weight(head.version) + head.count);
        put(&mut text, sum_at, &head.sum.to_be_bytes());
        checksum(&text)
    }
}
