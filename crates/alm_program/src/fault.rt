//! Faults of the program.

use crate::words_fault::WordsFault;
use alm_checkpoint::DeviceFault;
use alm_desk::RunFault;
use alm_export::ShowFault;
use alm_keeper::{FormatFault, OpenFault};
use alm_table::LoadFault;
use std::alloc::AllocError;

/// Why the program ends with a status other than 0.
#[derive(Debug, PartialEq, Eq, Drop)]
pub enum Fault {
    /// The words are none of the program's.
    Usage,
    /// The table file is no TOML.
    Toml,
    /// A key of the table file, of an alarm by its number or the file's own, is wrong.
    Key(Option<u32>, String),
    /// The table file has no alarm, or too many.
    Rows,
    /// The device is too small for the table.
    TooSmall,
    /// The device is not formatted.
    Unformatted,
    /// The device is damaged: in a half, or in its header (2), at a place.
    Damaged { half: u8, at: u64 },
    /// The device failed as it was opened or formatted.
    Disk,
    /// The device failed later.
    Stopped,
    OutOfMemory,
    /// A port or a socket can't be had.
    Net,
    /// A file, standard input or output failed.
    Io,
}

impl Fault {
    ghost use Rattle.std.specs.Prelude.{◌≡◌};
    ghost use Rattle.alm_program.specs.Faults.{status_of};

    /// The status that it ends with.
    pub fn status(&self) -> u8
        ensures { result ≡ status_of self.now }
    {
        match self {
            Fault::Usage => 1,
            Fault::Toml
            | Fault::Key(_, _)
            | Fault::Rows
            | Fault::TooSmall
            | Fault::Unformatted
            | Fault::Damaged { .. } => 2,
            Fault::Disk | Fault::Stopped | Fault::OutOfMemory | Fault::Net | Fault::Io => 3,
        }
    }
}

impl From<AllocError> for Fault {
    ghost use Rattle.std.specs.Prelude.{◌≡◌};
    ghost use Rattle.alm_program.specs.declared.fault.Fault.TheVariants.{OutOfMemory};

    ghost from_gives = { λ _ fault. fault ≡ OutOfMemory };

    fn from(_: AllocError) -> Self {
        Fault::OutOfMemory
    }
}

impl From<RunFault> for Fault {
    ghost use Rattle.std.specs.Prelude.{◌≡◌};
    ghost use Rattle.alm_program.specs.declared.fault.Fault.TheVariants.{Io};

    ghost from_gives = { λ _ fault. fault ≡ Io };

    fn from(_: RunFault) -> Self {
        Fault::Io
    }
}

impl From<LoadFault> for Fault {
    ghost use Rattle.std.specs.Prelude.{◌≡◌};
    ghost use Rattle.alm_program.specs.Faults.{fault_of_load};

    ghost from_gives = { λ load fault. fault ≡ fault_of_load load };

    fn from(fault: LoadFault) -> Self {
        match fault {
            LoadFault::NotToml => Fault::Toml,
            LoadFault::Key(alarm, key) => Fault::Key(alarm, key),
            LoadFault::Rows => Fault::Rows,
            LoadFault::OutOfMemory => Fault::OutOfMemory,
        }
    }
}

impl From<WordsFault> for Fault {
    ghost use Rattle.std.specs.Prelude.{◌≡◌};
    ghost use Rattle.alm_program.specs.Faults.{fault_of_words};

    ghost from_gives = { λ words fault. fault ≡ fault_of_words words };

    fn from(fault: WordsFault) -> Self {
        match fault {
            WordsFault::Usage => Fault::Usage,
            WordsFault::OutOfMemory => Fault::OutOfMemory,
        }
    }
}

impl From<ShowFault> for Fault {
    ghost use Rattle.std.specs.Prelude.{◌≡◌};
    ghost use Rattle.alm_program.specs.Faults.{fault_of_show};

    ghost from_gives = { λ show fault. fault ≡ fault_of_show show };

    fn from(fault: ShowFault) -> Self {
        match fault {
            ShowFault::Write => Fault::Io,
            ShowFault::OutOfMemory => Fault::OutOfMemory,
        }
    }
}

impl From<OpenFault> for Fault {
    ghost use Rattle.std.specs.Prelude.{◌≡◌};
    ghost use Rattle.alm_program.specs.Faults.{fault_of_open};

    ghost from_gives = { λ refused fault. fault ≡ fault_of_open refused };

    fn from(fault: OpenFault) -> Self {
        match fault {
            OpenFault::Unformatted => Fault::Unformatted,
            OpenFault::Damaged { half, at } => Fault::Damaged { half, at },
            OpenFault::Disk => Fault::Disk,
            OpenFault::OutOfMemory => Fault::OutOfMemory,
        }
    }
}

impl From<DeviceFault> for Fault {
    ghost use Rattle.std.specs.Prelude.{◌≡◌};
    ghost use Rattle.alm_program.specs.Faults.{fault_of_device};

    ghost from_gives = { λ found fault. fault ≡ fault_of_device found };

    fn from(fault: DeviceFault) -> Self {
        match fault {
            DeviceFault::Unformatted => Fault::Unformatted,
            DeviceFault::Damaged { half, at } => Fault::Damaged { half, at },
        }
    }
}

impl From<FormatFault> for Fault {
    ghost use Rattle.std.specs.Prelude.{◌≡◌};
    ghost use Rattle.alm_program.specs.Faults.{fault_of_format};

    ghost from_gives = { λ format fault. fault ≡ fault_of_format format };

    fn from(fault: FormatFault) -> Self {
        match fault {
            FormatFault::TooSmall => Fault::TooSmall,
            FormatFault::Disk => Fault::Disk,
            FormatFault::OutOfMemory => Fault::OutOfMemory,
        }
    }
}
