//! The places of everything on a device.

ghost use Rattle.std.specs.Prelude.{◌≡◌};
ghost use Rattle.alm_checkpoint.specs.Layouts.{image_size, half_len, half_at, image_at, image_sum_at, segment_at, device_len};
ghost use Rattle.alm_checkpoint.specs.Headers.{device_name};

use crate::half::Half;
use alm_codec::{Version, image_len};

/// How many bytes the header has, with its gate.
pub const HEADER_LEN: usize = 23;

/// How many bytes the head of a half has, with its gate.
pub const HEAD_LEN: usize = 25;

/// The shortest segment has room for one frame of 256 actions and the next gate.
pub const SHORTEST_SEGMENT: u64 = 4116;

/// The longest segment: 16 MiB.
pub const LONGEST_SEGMENT: u64 = 16_777_216;

/// The name that a header of a version begins with.
pub fn device_name(version: Version) -> [u8; 8]
    ensures { result ≡ device_name version }
{
    match version {
        Version::V01 => *b"ALMSRV01",
        Version::V02 => *b"ALMSRV02",
        Version::V03 => *b"ALMSRV03",
    }
}

/// The places of everything on a device: the header, then two halves, each a head, an image and a segment.
#[derive(Clone, Copy, Debug, PartialEq, Eq)]
pub struct Layout {
    /// How many alarms there are, 1 to 16,384 on a formatted device.
    pub rows: u32,
    /// How many areas, 1 to 64.
    pub areas: u8,
    /// How many bytes a segment has, 4,116 to 16,777,216.
    pub segment: u32,
    /// The version of the header. A half has its own, which is 01 or 02 if this one is 01, and else the same.
    pub version: Version,
}

impl Layout {
    /// The layout of these rows and areas with segments of a length, under a header of a version.
    pub fn of(rows: u32, areas: u8, segment: u32, version: Version) -> Layout
        ensures { result ≡
            record { rows = rows; areas = areas; segment = segment; version = version } }
    {
        Layout {
            rows,
            areas,
            segment,
            version,
        }
    }

    /// How many bytes a segment has.
    pub fn segment(&self) -> usize
        ensures { result ≡ self.now.segment }
    {
        self.segment as usize
    }

    /// How many bytes an image has.
    pub fn image_len(&self) -> usize
        ensures { result ≡ image_size self.now }
    {
        image_len(self.rows, self.areas) as usize
    }

    /// How many bytes a half has.
    pub fn half_len(&self) -> usize
        ensures { result ≡ half_len self.now }
    {
        HEAD_LEN + self.image_len() + self.segment()
    }

    /// The start of a half: its gate.
    pub fn half_at(&self, half: Half) -> u64
        ensures { result ≡ half_at self.now half }
    {
        match half {
            Half::First => HEADER_LEN as u64,
            Half::Second => (HEADER_LEN + self.half_len()) as u64,
        }
    }

    /// The start of the image of a half.
    pub fn image_at(&self, half: Half) -> u64
        ensures { result ≡ image_at self.now half }
    {
        self.half_at(half) + HEAD_LEN as u64
    }

    /// The place of the checksum of a half's image: in its head, after epoch, mark and count.
    pub fn image_sum_at(&self, half: Half) -> u64
        ensures { result ≡ image_sum_at self.now half }
    {
        self.half_at(half) + 17
    }

    /// The start of the segment of a half.
    pub fn segment_at(&self, half: Half) -> u64
        ensures { result ≡ segment_at self.now half }
    {
        self.image_at(half) + self.image_len() as u64
    }

    /// How many bytes the header and both halves take. A device may be longer.
    pub fn device_len(&self) -> u64
        ensures { result ≡ device_len self.now }
    {
        (HEADER_LEN + 2 * self.half_len()) as u64
    }
}
