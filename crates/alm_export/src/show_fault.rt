//! Faults of showing.

use alm_desk::WriteFailed;

/// Why a plant isn't shown to its end.
#[derive(Clone, Copy, Debug, PartialEq, Eq)]
pub enum ShowFault {
    /// The writer failed.
    Write,
    /// The growth of a list was refused.
    OutOfMemory,
}

impl From<WriteFailed> for ShowFault {
    ghost use Rattle.std.specs.Prelude.{◌≡◌};
    ghost use Rattle.alm_export.specs.declared.show_fault.ShowFault.TheVariants.{Write};

    ghost from_gives = { λ _ fault. fault ≡ Write };

    fn from(_: WriteFailed) -> Self {
        ShowFault::Write
    }
}
