//! A device that stops.

ghost use Rattle.std.specs.Prelude.{◌≡◌, ◌≢◌, ◌↔◌, Some, IsTrue};
ghost use Rattle.alm_disk.specs.Served.{one_less};

use crate::call::Call;
use crate::chooser::Chooser;
use crate::crashable::Crashable;
use crate::disk::Disk;
use crate::disk_fault::DiskFault;

/// A device that serves a number of calls, and fails each after them until it crashes. From then on it causes no
/// failures. A read, a write and a sync are a call each.
#[derive(Drop)]
pub struct FuseDisk<D> {
    /// The device that serves the calls.
    pub disk: D,
    /// How many calls are left; `None` if it causes no failures.
    pub left: Option<u64>,
}

impl<D: Crashable> FuseDisk<D> {
    /// The device with `calls` calls left.
    pub fn new(disk: D, calls: u64) -> Self
        ensures disk { result.disk ≡ disk }
        ensures left { result.left ≡ Some calls }
    {
        FuseDisk {
            disk,
            left: Some(calls),
        }
    }
}

// Takes one call from those that are left, and says whether one was.
fn burn(left: &mut Option<u64>) -> bool
    ensures left { left.new ≡ one_less left.old }
    ensures whole { IsTrue result ↔ (left.old ≢ Some 0) }
{
    match left {
        None => true,
        Some(0) => false,
        Some(calls) => {
            *calls -= 1;
            true
        }
    }
}

impl<D: Crashable> Disk for FuseDisk<D> {
    ghost use Rattle.alm_disk.specs.Calls.{Fails};
    ghost use Rattle.alm_disk.specs.Served.{BurnsFuse};

    ghost honest = { λ d. D.honest d.disk };

    ghost state = { λ d. D.state d.disk };

    ghost size = { λ d. D.size d.disk };

    ghost failures = { λ d. D.failures d.disk };

    ghost serves = { λ old call result new.
        BurnsFuse result old.left new.left (D.serves old.disk call result new.disk)
        (D.gives_up old.disk call new.disk × (D.honest old.disk → Fails call (D.state old.disk) (D.state new.disk))) };

    ghost whole = { λ d honest. D.whole d.disk honest };

    ghost own_image = { λ d honest. D.own_image d.disk honest };

    fn size(&self) -> u64 {
        self.disk.size()
    }

    fn read_at(&mut self, at: u64, into: &mut [u8]) -> Result<(), DiskFault> {
        if burn(&mut self.left) {
            return self.disk.read_at(at, into);
        }
        Err(
            self.disk.fail(Call::Read {
                at,
                length: into.len() as u64,
            }),
        )
    }

    fn write_at(&mut self, at: u64, bytes: &[u8]) -> Result<(), DiskFault> {
        if burn(&mut self.left) {
            return self.disk.write_at(at, bytes);
        }
        Err(
            self.disk.fail(Call::Write {
                at,
                length: bytes.len() as u64,
            }),
        )
    }

    fn sync(&mut self) -> Result<(), DiskFault> {
        if burn(&mut self.left) {
            return self.disk.sync();
        }
        Err(self.disk.fail(Call::Sync))
    }
}

impl<D: Crashable> Crashable for FuseDisk<D> {
    ghost use Rattle.std.specs.Prelude.{None};

    ghost restarts = { λ old new. (new.left ≡ None) × D.restarts old.disk new.disk };

    ghost gives_up = { λ old call new. (new.left ≡ old.left) × D.gives_up old.disk call new.disk };

    fn crash<C: Chooser>(self, chooser: &mut C) -> Self {
        FuseDisk {
            disk: self.disk.crash(chooser),
            left: None,
        }
    }

    fn fail(&mut self, call: Call) -> DiskFault {
        self.disk.fail(call)
    }
}
