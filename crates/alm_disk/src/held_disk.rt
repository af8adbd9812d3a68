//! A device that can be held back.

ghost use Rattle.std.specs.Prelude.{◌≡◌, min};
ghost use Rattle.alm_disk.specs.Failures.{last_count};

use crate::disk::Disk;
use crate::disk_fault::DiskFault;
use crate::hold::Hold;

/// A device whose syncs begin only if its hold lets them. One that it doesn't let begin fails.
#[derive(Drop)]
pub struct HeldDisk<D, H> {
    /// The device that serves the calls.
    pub disk: D,
    /// What may hold it back.
    pub hold: H,
    // A sync was refused since the last one that was done.
    refused: bool,
    // How many were refused, up to the last count.
    refusals: u64,
}

impl<D: Disk, H: Hold> HeldDisk<D, H> {
    /// The device under this hold.
    pub fn new(disk: D, hold: H) -> Self
        ensures disk { result.disk ≡ disk }
        ensures hold { result.hold ≡ hold }
        ensures state { ⟦<HeldDisk<D, H> as Disk>⟧.state result ≡ D.state disk }
        ensures count { ⟦<HeldDisk<D, H> as Disk>⟧.failures result ≡
            min (D.failures disk) last_count }
    {
        HeldDisk {
            disk,
            hold,
            refused: false,
            refusals: 0,
        }
    }
}

impl<D: Disk, H: Hold> Disk for HeldDisk<D, H> {
    ghost use Rattle.std.specs.Prelude.{◌+◌, ◌||◌, min};
    ghost use Rattle.alm_disk.specs.Served.{IsServedBehind};

    ghost honest = { λ d. D.honest d.disk };

    ghost state = { λ d. record {
      bytes = (D.state d.disk).bytes;
      pending = (D.state d.disk).pending;
      faulted = d.refused || (D.state d.disk).faulted;
    } };

    ghost size = { λ d. D.size d.disk };

    ghost failures = { λ d. min (D.failures d.disk + d.refusals) last_count };

    ghost serves = { λ old call result new. (new.hold ≡ old.hold)
        × IsServedBehind call result (H.answers old.hold) (D.serves old.disk call result new.disk) (new.disk ≡ old.disk) };

    ghost whole = { λ d honest. D.whole d.disk honest };

    ghost own_image = { λ d honest. record {
      size = (D.own_image d.disk honest).size;
      bytes = (D.own_image d.disk honest).bytes;
      stable = (D.own_image d.disk honest).stable;
    } };

    fn size(&self) -> u64 {
        self.disk.size()
    }

    fn read_at(&mut self, at: u64, into: &mut [u8]) -> Result<(), DiskFault> {
        self.disk.read_at(at, into)
    }

    fn write_at(&mut self, at: u64, bytes: &[u8]) -> Result<(), DiskFault> {
        self.disk.write_at(at, bytes)
    }

    fn sync(&mut self) -> Result<(), DiskFault> {
        if !self.hold.before_sync() {
            self.refused = true;
            self.refusals = self.refusals.saturating_add(1);
            return Err(DiskFault);
        }
        self.disk.sync()?;
        self.refused = false;
        Ok(())
    }
}
