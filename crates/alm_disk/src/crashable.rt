//! Devices that can crash and be made to fail.

ghost use Rattle.std.specs.Prelude.{◌≡◌, ◌↔◌, Result, Err};
ghost use Rattle.alm_disk.specs.Calls.{IsInside, Fails};
ghost use Rattle.alm_disk.specs.Device.{Crashes};
ghost use Rattle.alm_disk.specs.Failures.{CountsFault};
ghost use Rattle.alm_disk.specs.declared.call.Call.{Call};
ghost use Rattle.alm_disk.specs.declared.disk_fault.DiskFault.{DiskFault};

use crate::call::Call;
use crate::chooser::Chooser;
use crate::disk::Disk;
use crate::disk_fault::DiskFault;

/// A device whose power can fail, and whose next call can be made to fail.
pub trait Crashable: Disk {
    /// What this device says of a crash beyond the model.
    ghost restarts: { Self → Self → Type 0 };

    /// What it says of a call that it was made to fail.
    ghost gives_up: { Self → Call → Self → Type 0 };

    /// Power fails: the device becomes one image, each pending byte as `chooser` names it, and no place is pending.
    /// Takes no memory.
    fn crash<C: Chooser>(self, chooser: &mut C) -> Self
        ensures honest { Self.honest self ↔ Self.honest result }
        ensures crashes { Self.honest self →
            Crashes (C.names chooser.old) (Self.state self) (Self.state result) }
        ensures size { Self.size result ≡ Self.size self }
        ensures count { Self.failures result ≡ Self.failures self }
        ensures restarts { restarts self result };

    /// Lets this call fail, and write nothing.
    fn fail(&mut self, call: Call) -> DiskFault
        requires { IsInside call (Self.size self.old) }
        ensures honest { Self.honest self.old ↔ Self.honest self.new }
        ensures fails { Fails call (Self.state self.old) (Self.state self.new) }
        ensures size { Self.size self.new ≡ Self.size self.old }
        ensures count { let fault : Result Unit DiskFault = Err result in
            CountsFault fault (Self.failures self.old) (Self.failures self.new) }
        ensures gives_up { gives_up self.old call self.new };
}
