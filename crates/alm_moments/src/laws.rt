//! Laws of a history of moments: each function does nothing, and its contract is the law.
ghost use Rattle.std.specs.Prelude.{◌↔◌, ℕ, List};
ghost use Rattle.alm_types.specs.declared.action.Action.{Action};
ghost use Rattle.alm_disk.specs.Device.{DeviceState, IsImage};
ghost use Rattle.alm_moments.specs.Moments.{AreHeld, IsDevice, StaysStored, device_at};
ghost use Rattle.alm_moments.specs.declared.recorded_moment.RecordedMoment.{RecordedMoment};

use crate::moments::Moments;
use crate::run_id::RunId;

/// What is held at the last moment that was seen stays stored, whatever the run does afterwards and whenever the power fails.
pub fn what_is_held_stays_stored<J: RunId>(seen: &Moments<J>)
    ensures { (list : List Action) → AreHeld J.base J.first seen.now list →
        StaysStored J.honest J.recovers J.base J.first seen.now list }
{
    let _seen = seen;
}

/// What a crash may leave at a moment is what it may leave of the device at that moment.
pub fn a_moment_has_the_images_of_its_device()
    ensures { (d : DeviceState) (m : RecordedMoment) → IsDevice d m → (image : List ℕ) →
        (IsImage d image ↔ IsImage (device_at m) image) }
{}
