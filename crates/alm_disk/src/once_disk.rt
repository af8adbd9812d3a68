//! A device with one fault.

ghost use Rattle.std.specs.Prelude.{◌≡◌, ◌≢◌, ◌↔◌, ◌-◌, IsTrue};

use crate::call::Call;
use crate::chooser::Chooser;
use crate::crashable::Crashable;
use crate::disk::Disk;
use crate::disk_fault::DiskFault;

/// A device that fails one call, and serves those before and after it. A read, a write and a sync are a call each.
#[derive(Drop)]
pub struct OnceDisk<D> {
    /// The device that serves the calls.
    pub disk: D,
    /// Which of the coming calls fails: 1 for the next, 0 for none.
    pub turn: u64,
}

impl<D: Crashable> OnceDisk<D> {
    /// The device whose call number `call` fails, counted from 1; with 0 no call fails.
    pub fn new(disk: D, call: u64) -> Self
        ensures disk { result.disk ≡ disk }
        ensures turn { result.turn ≡ call }
    {
        OnceDisk { disk, turn: call }
    }
}

// Comes one call nearer to the one that fails, and says whether this one is served.
fn pass(turn: &mut u64) -> bool
    ensures turn { turn.new ≡ turn.old - 1 }
    ensures passed { IsTrue result ↔ (turn.old ≢ 1) }
{
    let passes = *turn != 1;
    *turn = turn.saturating_sub(1);
    passes
}

impl<D: Crashable> Disk for OnceDisk<D> {
    ghost use Rattle.alm_disk.specs.Calls.{Fails};
    ghost use Rattle.alm_disk.specs.Served.{FailsOnce};

    ghost honest = { λ d. D.honest d.disk };

    ghost state = { λ d. D.state d.disk };

    ghost size = { λ d. D.size d.disk };

    ghost failures = { λ d. D.failures d.disk };

    ghost serves = { λ old call result new.
        FailsOnce result old.turn new.turn (D.serves old.disk call result new.disk)
        (D.gives_up old.disk call new.disk × (D.honest old.disk → Fails call (D.state old.disk) (D.state new.disk))) };

    ghost whole = { λ d honest. D.whole d.disk honest };

    ghost own_image = { λ d honest. D.own_image d.disk honest };

    fn size(&self) -> u64 {
        self.disk.size()
    }

    fn read_at(&mut self, at: u64, into: &mut [u8]) -> Result<(), DiskFault> {
        if pass(&mut self.turn) {
            return self.disk.read_at(at, into);
        }
        Err(
            self.disk.fail(Call::Read {
                at,
                length: into.len() as u64,
            }),
        )
    }

    fn write_at(&mut self, at: u64, bytes: &[u8]) -> Result<(), DiskFault> {
        if pass(&mut self.turn) {
            return self.disk.write_at(at, bytes);
        }
        Err(
            self.disk.fail(Call::Write {
                at,
                length: bytes.len() as u64,
            }),
        )
    }

    fn sync(&mut self) -> Result<(), DiskFault> {
        if pass(&mut self.turn) {
            return self.disk.sync();
        }
        Err(self.disk.fail(Call::Sync))
    }
}

impl<D: Crashable> Crashable for OnceDisk<D> {
    ghost restarts = { λ old new. (new.turn ≡ old.turn) × D.restarts old.disk new.disk };

    ghost gives_up = { λ old call new. (new.turn ≡ old.turn) × D.gives_up old.disk call new.disk };

    fn crash<C: Chooser>(self, chooser: &mut C) -> Self {
        OnceDisk {
            disk: self.disk.crash(chooser),
            turn: self.turn,
        }
    }

    fn fail(&mut self, call: Call) -> DiskFault {
        self.disk.fail(call)
    }
}
