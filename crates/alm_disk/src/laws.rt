//! What follows for every device that keeps to the model. Each law is the contract of a function that does nothing.

ghost use Rattle.std.specs.Prelude.{◌≡◌, ◌≤◌, ℕ, false, List, [], ◌∷◌, ◌++◌, length, Result, Ok, OnOk, OnErr};
ghost use Rattle.alm_disk.specs.Calls.{IsOneCall};
ghost use Rattle.alm_disk.specs.Device.{DeviceState, AreBytes, IsImage, IsSame, Writes, Syncs, Crashes};
ghost use Rattle.alm_disk.specs.Failures.{CountsFault, HasFailed};
ghost use Rattle.alm_disk.specs.Memory.{calls_of};
ghost use Rattle.alm_disk.specs.Settled.{IsSettled, AwaitsSync};
ghost use Rattle.alm_disk.specs.declared.call.Call.{Call};
ghost use Rattle.alm_disk.specs.declared.disk_fault.DiskFault.{DiskFault};
ghost use Rattle.alm_disk.specs.declared.mem_disk.MemDisk.{MemDisk};

use crate::chooser::Chooser;
use crate::disk::Disk;
use crate::mem_disk::MemDisk;

/// A crash leaves of a settled device what it reads.
#[tactic(auto, using(crate::proofs::Images::settled_image))]
pub fn settled_image()
    ensures { (state : DeviceState) (bytes image : List ℕ) →
        IsSettled state bytes → IsImage state image → image ≡ bytes }
{}

/// A read, done or failed, changes no image, whatever it gives.
pub fn read_image()
    ensures { (old new : DeviceState) (image : List ℕ) → IsSame old new →
        (IsImage old image → IsImage new image) × (IsImage new image → IsImage old image) }
{}

/// A write into a settled device, done or failed, leaves what was before and after its range, and some bytes between.
pub fn written_image()
    ensures { (result : Result Unit DiskFault) (old new : DeviceState)
        (bytes front range back image : List ℕ) → IsSettled old (front ++ range ++ back) →
        length bytes ≡ length range → Writes (length front) bytes result old new →
        IsImage new image →
        (left : List ℕ) × (length left ≡ length range) × (image ≡ front ++ left ++ back) }
{}

/// .. and these may be any bytes.
pub fn any_image()
    ensures { (result : Result Unit DiskFault) (old new : DeviceState)
        (bytes front range left back : List ℕ) → IsSettled old (front ++ range ++ back) →
        length bytes ≡ length range → Writes (length front) bytes result old new →
        length left ≡ length range → AreBytes (front ++ left ++ back) →
        IsImage new (front ++ left ++ back) }
{}

/// A write, done or failed, takes no image away: what a crash may leave before it or within it, it may leave after it.
pub fn kept_image()
    ensures { (result : Result Unit DiskFault) (old new : DeviceState) (at : ℕ)
        (bytes image : List ℕ) → Writes at bytes result old new → IsImage old image →
        IsImage new image }
{}

/// A write that was done into a settled device reads as written, with its range alone pending.
pub fn written()
    ensures { (done : Result Unit DiskFault) (old new : DeviceState)
        (bytes front range back : List ℕ) → done ≡ Ok tt → IsSettled old (front ++ range ++ back) →
        length bytes ≡ length range → Writes (length front) bytes done old new →
        AwaitsSync (length front) (length bytes) new (front ++ bytes ++ back) }
{}

/// After a successful sync the device is settled: as it read if no call had failed, and else at one of the images
/// before.
pub fn synced()
    ensures { (done : Result Unit DiskFault) (old new : DeviceState) → done ≡ Ok tt →
        Syncs done old new →
        IsSettled new new.bytes × IsImage old new.bytes ×
        (old.faulted ≡ false → new.bytes ≡ old.bytes) }
{}

/// No sync, done or failed, makes a new image: what a crash may leave within it or after it, it may leave before it.
pub fn synced_image()
    ensures { (result : Result Unit DiskFault) (old new : DeviceState) (image : List ℕ) →
        Syncs result old new → IsImage new image → IsImage old image }
{}

/// After a crash the device is settled, at one of the images before.
pub fn crashed<C: Chooser>()
    ensures { (chooser : C) (old new : DeviceState) →
        Crashes (C.names chooser) old new → IsSettled new new.bytes × IsImage old new.bytes }
{}

/// The count of failures never falls, and a fault is returned only if it rose or was at its last value.
pub fn has_failed()
    ensures { (result : Result Unit DiskFault) (before now : ℕ) →
        CountsFault result before now → (before ≤ now) × OnErr result (HasFailed before now) }
{}

/// A call of a device in memory adds one entry to its record if it was done, and none if it failed.
pub fn one_call()
    ensures { (result : Result Unit DiskFault) (old new : MemDisk) →
        IsOneCall ⟦<MemDisk as Disk>⟧.serves result old new →
        OnOk result ((call : Call) × (calls_of new ≡ calls_of old ++ call ∷ [])) ×
        OnErr result (calls_of new ≡ calls_of old) }
{}
