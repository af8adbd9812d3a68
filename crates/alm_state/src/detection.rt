//! Whether a value changes an alarm's condition.

ghost use Rattle.std.specs.Prelude.{◌≡◌};
ghost use Rattle.alm_state.specs.Detection.{detection_of, comes, goes};

use alm_types::{Attr, Kind, Reading};

/// Whether the condition of an inactive alarm comes.
fn comes(attr: &Attr, reading: Reading) -> bool
    ensures { result ≡ comes attr.now.kind attr.now.setpoint reading }
{
    let value = reading.value();
    let setpoint = attr.setpoint.value();
    match attr.kind {
        Kind::High => value >= setpoint,
        Kind::Low => value <= setpoint,
        Kind::Discrete => value == setpoint,
    }
}

/// Whether the condition of an active alarm goes.
fn goes(attr: &Attr, reading: Reading) -> bool
    ensures { result ≡ goes attr.now.kind attr.now.setpoint attr.now.deadband reading }
{
    let value = reading.value();
    let setpoint = attr.setpoint.value();
    let deadband = attr.deadband as i64;
    match attr.kind {
        Kind::High => value < setpoint - deadband,
        Kind::Low => value > setpoint + deadband,
        Kind::Discrete => value != setpoint,
    }
}

/// The new condition of an alarm, if the value changes it.
pub fn detect(attr: &Attr, active: bool, reading: Reading) -> Option<bool>
    ensures { result ≡ detection_of attr.now active reading }
{
    let changes = if active {
        goes(attr, reading)
    } else {
        comes(attr, reading)
    };
    if changes { Some(!active) } else { None }
}
