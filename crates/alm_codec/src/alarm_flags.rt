//! What suppresses an alarm.

ghost use Rattle.std.specs.Prelude.{◌≡◌};
ghost use Rattle.alm_codec.specs.Reading.{Gives};
ghost use Rattle.alm_codec.specs.ImageFields.{flags_in, is_flagged, flags};

use crate::bytes_left::BytesLeft;
use crate::fields::u8_at;
use alm_state::Core;

/// What suppresses an alarm.
#[derive(Clone, Copy, Debug, PartialEq, Eq)]
pub struct AlarmFlags {
    pub shelved: bool,
    pub by_design: bool,
    pub out_of_service: bool,
}

/// The flags of a byte.
fn flags_in(code: u8) -> Option<AlarmFlags>
    ensures { result ≡ flags_in code }
{
    let flags = |shelved, by_design, out_of_service| {
        Some(AlarmFlags {
            shelved,
            by_design,
            out_of_service,
        })
    };
    match code {
        0 => flags(false, false, false),
        1 => flags(true, false, false),
        2 => flags(false, true, false),
        3 => flags(true, true, false),
        4 => flags(false, false, true),
        5 => flags(true, false, true),
        6 => flags(false, true, true),
        7 => flags(true, true, true),
        _ => None,
    }
}

/// Whether an alarm can be active, in a core state and under flags.
fn is_flagged(active: bool, core: Core, flags: AlarmFlags) -> bool
    ensures { result ≡ is_flagged active core flags }
{
    if flags.shelved || flags.by_design || flags.out_of_service {
        return core == Core::Normal;
    }
    match core {
        Core::Unack | Core::Acked => active,
        Core::Normal | Core::RtnUnack | Core::LatchUnack | Core::LatchAcked => !active,
    }
}

/// The flags of an alarm that is active and in a core state.
pub fn flags_of(bytes: &[u8], active: bool, core: Core) -> Result<(AlarmFlags, &[u8]), BytesLeft>
    ensures { Gives (λ x. (x.0, x.1.now)) result ((flags active core).read bytes.now) }
{
    let (code, rest) = u8_at(bytes)?;
    match flags_in(code) {
        Some(flags) if is_flagged(active, core, flags) => Ok((flags, rest)),
        _ => Err(BytesLeft(bytes.len())),
    }
}
