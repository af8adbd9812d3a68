//! The longest segment that fits twice.

ghost use Rattle.std.specs.Prelude.{◌≡◌, ◌≤◌, ℕ, true, false, IfSome, None};
ghost use Rattle.alm_checkpoint.specs.Headers.{segment_fits};

use crate::layout::{HEADER_LEN, LONGEST_SEGMENT, Layout, SHORTEST_SEGMENT};
use alm_codec::Version;

impl Layout {
    /// The layout of a version for a device of `size` bytes, with the longest segment that fits twice, at most 16,777,216 bytes.
    /// `None` if none of 4,116 bytes or more fits.
    pub fn longest(rows: u32, areas: u8, size: u64, version: Version) -> Option<Layout>
        ensures of { IfSome result
            (λ l. (l.rows ≡ rows) × (l.areas ≡ areas) × (l.version ≡ version)) }
        ensures suits { IfSome result (λ l. segment_fits size rows areas l.segment ≡ true) }
        ensures most { IfSome result
            (λ l. (n : ℕ) → segment_fits size rows areas n ≡ true → n ≤ l.segment) }
        ensures none { result ≡ None → (n : ℕ) → segment_fits size rows areas n ≡ false }
    {
        let halves = size.checked_sub(HEADER_LEN as u64)? / 2;
        let fixed = Layout::of(rows, areas, 0, version).half_len() as u64;
        let segment = halves.checked_sub(fixed)?.min(LONGEST_SEGMENT);
        if segment < SHORTEST_SEGMENT {
            return None;
        }
        Some(Layout::of(rows, areas, segment as u32, version))
    }
}
