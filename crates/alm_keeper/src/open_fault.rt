//! Why a device is not opened.

ghost use Rattle.std.specs.Prelude.{◌≡◌};
ghost use Rattle.alm_keeper.specs.Opening.{open_fault};

use alm_checkpoint::DeviceFault;
use alm_store::OpenFault;

/// The fault of the bytes.
pub fn open_fault(fault: DeviceFault) -> OpenFault
    ensures { result ≡ open_fault fault }
{
    match fault {
        DeviceFault::Unformatted => OpenFault::Unformatted,
        DeviceFault::Damaged { half, at } => OpenFault::Damaged { half, at },
    }
}
