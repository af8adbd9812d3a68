//! A device whose calls are counted.

ghost use Rattle.std.specs.Prelude.{◌≡◌};

use crate::call_count::CallCount;
use alm_disk::{Disk, DiskFault};
use std::sync::Arc;

/// A device whose calls are counted as they begin and end.
#[derive(Drop)]
pub struct CountedDisk<D> {
    /// The device that serves the calls.
    pub disk: D,
    count: Arc<CallCount>,
}

impl<D: Disk> CountedDisk<D> {
    /// The device with this count.
    pub fn new(disk: D, count: Arc<CallCount>) -> Self
        ensures { result.disk ≡ disk }
    {
        CountedDisk { disk, count }
    }
}

impl<D: Disk> Disk for CountedDisk<D> {
    ghost honest = { λ d. D.honest d.disk };

    ghost state = { λ d. D.state d.disk };

    ghost size = { λ d. D.size d.disk };

    ghost failures = { λ d. D.failures d.disk };

    ghost serves = { λ old call result new. D.serves old.disk call result new.disk };

    ghost whole = { λ d honest. D.whole d.disk honest };

    ghost own_image = { λ d honest. D.own_image d.disk honest };

    fn size(&self) -> u64 {
        self.disk.size()
    }

    fn read_at(&mut self, at: u64, into: &mut [u8]) -> Result<(), DiskFault> {
        self.count.mark();
        let answer = self.disk.read_at(at, into);
        self.count.mark();
        answer
    }

    fn write_at(&mut self, at: u64, bytes: &[u8]) -> Result<(), DiskFault> {
        self.count.mark();
        let answer = self.disk.write_at(at, bytes);
        self.count.mark();
        answer
    }

    fn sync(&mut self) -> Result<(), DiskFault> {
        self.count.mark();
        let answer = self.disk.sync();
        self.count.mark();
        answer
    }
}
