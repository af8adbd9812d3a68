//! Versions of the texts.

ghost use Rattle.std.specs.Prelude.{◌≡◌};
ghost use Rattle.alm_codec.specs.Versions.{bears, closed_gate, is_open, newer, sum_len};

use alm_types::Action;

/// The value at which a gate is written open.
pub const OPEN_GATE: u8 = 0xA5;

/// The value at which a gate of version 03 is closed.
const CLOSED_GATE: u8 = 0x5A;

/// The version of a half's texts. All read and write an action alike; the first has fewer actions than the others.
#[derive(Clone, Copy, Debug, PartialEq, Eq)]
pub enum Version {
    /// Without priorities and setpoints from consoles.
    V01,
    /// With all actions.
    V02,
    /// With all actions and with checksums.
    V03,
}

impl Version {
    /// Whether there is such an action.
    pub fn bears(self, action: &Action) -> bool
        ensures { result ≡ bears self action.now }
    {
        match self {
            Version::V01 => { !matches!(action, Action::SetPriority(..) | Action::SetSetpoint(..)) }
            Version::V02 | Version::V03 => true,
        }
    }

    /// Whether a gate is open: in versions 01 and 02 at [`OPEN_GATE`] alone, in version 03 at every value but 5A. So no change of
    /// fewer than eight bits closes a gate of version 03 that was written open.
    pub fn is_open(self, gate: u8) -> bool
        ensures { result ≡ is_open self gate }
    {
        match self {
            Version::V01 | Version::V02 => gate == OPEN_GATE,
            Version::V03 => gate != CLOSED_GATE,
        }
    }

    /// The value at which a gate is written closed.
    pub fn closed_gate(self) -> u8
        ensures { result ≡ closed_gate self }
    {
        match self {
            Version::V01 | Version::V02 => 0,
            Version::V03 => CLOSED_GATE,
        }
    }

    /// How many bytes the checksum of a text has; 0 in versions without checksums.
    pub fn sum_len(self) -> usize
        ensures { result ≡ sum_len self }
    {
        match self {
            Version::V01 | Version::V02 => 0,
            Version::V03 => 4,
        }
    }

    /// The version of the half that a checkpoint writes, if the half that stands is of this one.
    pub fn newer(self) -> Version
        ensures { result ≡ newer self }
    {
        match self {
            Version::V01 | Version::V02 => Version::V02,
            Version::V03 => Version::V03,
        }
    }
}
