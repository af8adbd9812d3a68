//! Writing the header and the heads of the halves, without their gates.

ghost use Rattle.std.specs.Prelude.{◌≡◌, ◌+◌, ◌≤◌, ◌++◌, length, drop};
ghost use Rattle.alm_codec.specs.Writing.{Wrote};
ghost use Rattle.alm_checkpoint.specs.Headers.{end_text, header_text, half_head_text};
ghost use Rattle.alm_types.specs.Sizes.{most_actions};

use crate::half::Half;
use crate::half_head::{HalfHead, mark_weight};
use crate::layout::{Layout, device_name};
use alm_codec::Version;
use alm_codec::fields::{put, put_word};

impl Layout {
    /// Writes the header without its gate, 22 bytes; what follows stays.
    pub fn write_header(&self, out: &mut [u8])
        requires { 22 ≤ length out.old }
        ensures { out.new ≡ header_text self.now ++ drop 22 out.old }
    {
        let rows_at = put(out, 0, &device_name(self.version));
        let areas_at = put(out, rows_at, &self.rows.to_be_bytes());
        let segment_at = put(out, areas_at, &(self.areas as u16).to_be_bytes());
        put_word(out, segment_at, self.segment as u64);
    }

    /// Writes the end of a head at a place: the length of the image, or in version 03 the checksums of image and head.
    fn put_end(&self, half: Half, head: &HalfHead, out: &mut [u8], at: usize)
        requires room { at + 8 ≤ length out.old }
        requires count { head.now.count ≤ most_actions }
        ensures { Wrote out.old out.new at (at + 8) (end_text self.now half head.now.version
            head.now.epoch head.now.count head.now.sum) }
    {
        match head.version {
            Version::V01 | Version::V02 => {
                put_word(out, at, self.image_len() as u64);
            }
            Version::V03 => {
                let sum_at = put(out, at, &head.sum.to_be_bytes());
                put(out, sum_at, &self.head_sum(half, head).to_be_bytes());
            }
        }
    }

    /// Writes the head of a half without its gate, 24 bytes; what follows stays. In version 03 the head has the checksum of its
    /// image, by [`image_sum`](crate::image_sum).
    pub fn write_half_head(&self, half: Half, head: &HalfHead, out: &mut [u8])
        requires room { 24 ≤ length out.old }
        requires count { head.now.count ≤ most_actions }
        ensures { out.new ≡ half_head_text self.now half head.now ++ drop 24 out.old }
    {
        let count_at = put_word(out, 0, head.epoch);
        let end_at = put_word(out, count_at, mark_weight(head.version) + head.count);
        self.put_end(half, head, out, end_at);
    }
}
