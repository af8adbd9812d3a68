//! Which half stands.

ghost use Rattle.std.specs.Prelude.{◌≡◌, length};
ghost use Rattle.alm_checkpoint.specs.Opening.{gate_in, epoch_in, choice};
ghost use Rattle.alm_checkpoint.specs.Layouts.{is_half_open};

use crate::half::Half;
use crate::no_choice::NoChoice;
use alm_codec::OPEN_GATE;

/// The gate of a half and its epoch, which decide between the halves.
#[derive(Clone, Copy, Debug, PartialEq, Eq)]
pub struct HalfGate {
    pub open: bool,
    pub epoch: u64,
}

/// Whether the gate of a half is open. In every version it is so at [`OPEN_GATE`] alone: one that a checkpoint left closed, at 5A,
/// is opened by no change of fewer than eight bits.
pub(crate) fn is_half_open(gate: u8) -> bool
    ensures { result ≡ is_half_open gate }
{
    gate == OPEN_GATE
}

/// The gate of a half and its epoch, by the 25 bytes of its head. The other fields are not read.
pub fn read_half_gate(bytes: &[u8]) -> HalfGate
    requires { length bytes.now ≡ 25 }
    ensures gate { result.open ≡ gate_in bytes.now }
    ensures epoch { result.epoch ≡ epoch_in bytes.now }
{
    HalfGate {
        open: is_half_open(bytes[0]),
        epoch: u64::from_be_bytes([
            bytes[1], bytes[2], bytes[3], bytes[4], bytes[5], bytes[6], bytes[7], bytes[8],
        ]),
    }
}

/// The half that stands: the one with an open gate; if both gates are open, the one with the greater epoch.
pub fn choose(first: &HalfGate, second: &HalfGate) -> Result<Half, NoChoice>
    ensures { result ≡ choice first.now.open second.now.open first.now.epoch second.now.epoch }
{
    match (first.open, second.open) {
        (false, false) => Err(NoChoice::NoneOpen),
        (true, false) => Ok(Half::First),
        (false, true) => Ok(Half::Second),
        (true, true) => {
            if first.epoch == second.epoch {
                Err(NoChoice::EqualEpochs)
            } else if first.epoch < second.epoch {
                Ok(Half::Second)
            } else {
                Ok(Half::First)
            }
        }
    }
}
