//! Devices.

ghost use Rattle.std.specs.Prelude.{◌≡◌, ◌≤◌, ◌+◌, ◌↔◌, ℕ, length, Result};
ghost use Rattle.alm_disk.specs.Device.{DeviceState, IsImage, IsSame, Reads, Writes, Syncs};
ghost use Rattle.alm_disk.specs.Failures.{CountsFault};
ghost use Rattle.alm_disk.specs.declared.call.Call.{Call};
ghost use Rattle.alm_disk.specs.declared.call.Call.TheVariants.{Read, Write, Sync};
ghost use Rattle.alm_disk.specs.declared.disk_fault.DiskFault.{DiskFault};

use crate::disk_fault::DiskFault;

/// A device of a fixed size in bytes. The range of a read or a write is inside it.
pub trait Disk {
    /// The device keeps to the model, by its answers so far. Every clause but those on size, count, `serves` and what a read
    /// leaves has this premise.
    ghost honest: { Self → Type 0 };

    /// What it reads as, what is pending, and whether something has failed.
    ghost state: { Self → DeviceState };

    /// How many bytes it has.
    ghost size: { Self → ℕ };

    /// How often a call has failed, up to the last count.
    ghost failures: { Self → ℕ };

    /// What this device says of a call beyond the model: when it fails, and what it notes.
    ghost serves: { Self → Call → Result Unit DiskFault → Self → Type 0 };

    /// How many bytes it has.
    fn size(&self) -> u64
        ensures { result ≡ size self.now };

    /// Fills `into` from place `at` on. After a fault its bytes may be any.
    fn read_at(&mut self, at: u64, into: &mut [u8]) -> Result<(), DiskFault>
        requires { at + length into.old ≤ size self.old }
        /// What it gives may show that the device doesn't keep to the model. No other call may.
        ensures honest { honest self.new → honest self.old }
        ensures reads { honest self.new → Reads at into.new result (state self.old) }
        /// Whatever it gives.
        ensures same { IsSame (state self.old) (state self.new) }
        ensures size { size self.new ≡ size self.old }
        ensures count { CountsFault result (failures self.old) (failures self.new) }
        ensures serves { serves self.old (Call.Read at (length into.old)) result self.new };

    /// Writes these bytes from place `at` on. They are pending until a sync succeeds, also after a fault.
    fn write_at(&mut self, at: u64, bytes: &[u8]) -> Result<(), DiskFault>
        requires { at + length bytes.now ≤ size self.old }
        ensures honest { honest self.old ↔ honest self.new }
        ensures writes { honest self.old →
            Writes at bytes.now result (state self.old) (state self.new) }
        ensures size { size self.new ≡ size self.old }
        ensures count { CountsFault result (failures self.old) (failures self.new) }
        ensures serves { serves self.old (Call.Write at (length bytes.now)) result self.new };

    /// Makes what was written stable.
    fn sync(&mut self) -> Result<(), DiskFault>
        ensures honest { honest self.old ↔ honest self.new }
        ensures syncs { honest self.old → Syncs result (state self.old) (state self.new) }
        ensures size { size self.new ≡ size self.old }
        ensures count { CountsFault result (failures self.old) (failures self.new) }
        ensures serves { serves self.old Call.Sync result self.new };

    /// It reads as many bytes as it has.
    ghost whole: { (disk : Self) → honest disk → length (state disk).bytes ≡ size disk };

    /// As it reads it is one of its images.
    ghost own_image: { (disk : Self) → honest disk → IsImage (state disk) (state disk).bytes };
}
