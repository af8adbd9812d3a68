//! How long a device call may take while clients are served.

ghost use Rattle.std.specs.Prelude.{◌≡◌, IfOk};

use crate::call_count::CallCount;
use crate::call_watch::CallWatch;
use crate::counted_disk::CountedDisk;
use alm_disk::Disk;
use std::alloc::{AllocError, Global};
use std::sync::Arc;
use std::time::{Clock, Duration};

/// How long a call of one device may take while clients are served.
#[derive(Drop)]
pub struct Patience {
    seconds: u32,
    count: Arc<CallCount>,
}

impl Patience {
    /// That many seconds, with no device yet.
    pub fn new(alloc: Global, seconds: u32) -> Result<Self, AllocError> {
        Ok(Patience {
            seconds,
            count: Arc::new(alloc, CallCount::new())?,
        })
    }

    /// The device to which it applies.
    pub fn count<D: Disk + Drop>(&self, disk: D) -> Result<CountedDisk<D>, AllocError>
        ensures { IfOk result (λ counted. counted.disk ≡ disk) }
    {
        Ok(CountedDisk::new(disk, self.count.clone()?))
    }

    /// What watches the calls of that device with this clock.
    pub fn watch<'r, R: Clock>(&self, clock: &'r R) -> Result<CallWatch<'r, R>, AllocError> {
        let limit = Duration::from_secs(u64::from(self.seconds));
        Ok(CallWatch::new(clock, self.count.clone()?, limit))
    }
}
