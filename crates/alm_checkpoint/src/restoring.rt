//! The plant that a half holds.

ghost use Rattle.std.specs.Prelude.{◌≡◌, ◌≤◌, length, IfOk, IfErr};
ghost use Rattle.alm_checkpoint.specs.Layouts.{image_size, half_number};
ghost use Rattle.alm_checkpoint.specs.declared.device_fault.DeviceFault.TheVariants.{Damaged};
ghost use Rattle.alm_checkpoint.specs.declared.restore_fault.RestoreFault.TheVariants as restore;
ghost use Rattle.alm_checkpoint.specs.Cut.{IsLayout};
ghost use Rattle.alm_checkpoint.specs.Opening.{opened_with};
ghost use Rattle.alm_checkpoint.specs.Restoring.{Holds, IsUnrestored};
ghost use Rattle.alm_types.specs.Sizes.{most_actions};

use crate::device_fault::DeviceFault;
use crate::half::Half;
use crate::half_head::HalfHead;
use crate::head_sum::image_sum;
use crate::layout::Layout;
use crate::restore_fault::RestoreFault;
use alm_codec::{Damage, ImageFault, read_image};
use alm_model::{Alarms, PlantParts};
use alm_segment::replay;
use std::alloc::Global;

/// Damage of a half at a place.
fn damaged(half: Half, at: u64) -> RestoreFault
    ensures { result ≡ restore.Damaged (Damaged (half_number half) at) }
{
    RestoreFault::Damaged(DeviceFault::Damaged {
        half: half.number(),
        at,
    })
}

impl Layout {
    /// The plant that a half holds, by its head, its image and its segment, and the place of its first closed gate on the device.
    ///
    /// Damage is at the checksum of the image in the head, if it isn't that of the image, else at the first damaged field of
    /// the image. Else it is at the first damaged field of the frames, or at an action that isn't admitted at its turn. Out of
    /// memory says nothing about the bytes.
    pub fn restore<P: Alarms + Drop>(
        &self,
        alloc: Global,
        half: Half,
        head: &HalfHead,
        image: &[u8],
        segment: &[u8],
    ) -> Result<(P, u64), RestoreFault>
        requires layout { IsLayout self.now }
        requires count { head.now.count ≤ most_actions }
        requires image { length image.now ≡ image_size self.now }
        requires segment { length segment.now ≡ self.now.segment }
        ensures holds { IfOk result
            (λ x.
            Holds (opened_with self.now half head.now image.now segment.now) (P.plant x.0) x.1) }
        ensures damage { IfErr result
            (λ fault.
            IsUnrestored (opened_with self.now half head.now image.now segment.now) fault) }
    {
        if image_sum(head.version, image) != head.sum {
            return Err(damaged(half, self.image_sum_at(half)));
        }
        let parts = match read_image(alloc, image, self.rows, self.areas, head.count) {
            Ok(parts) => parts,
            Err(ImageFault::OutOfMemory) => return Err(RestoreFault::OutOfMemory),
            Err(ImageFault::Damaged(damage)) => {
                return Err(damaged(half, self.image_at(half) + damage.at as u64));
            }
        };
        let Ok(mut plant) = P::build(alloc, parts) else {
            return Err(RestoreFault::OutOfMemory);
        };
        match replay(&mut plant, segment, head.epoch, head.version) {
            Ok(at) => Ok((plant, self.segment_at(half) + at as u64)),
            Err(damage) => Err(damaged(half, self.segment_at(half) + damage.at as u64)),
        }
    }
}
