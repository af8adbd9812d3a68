//! What the ring of requests carries.

use alm_types::Want;
use rtrb::Protocol;

/// The last serial.
pub(crate) const LAST_SERIAL: u64 = u64::MAX;

/// The protocol that allows as many requests as there are serials.
pub(crate) struct Serials;

impl Protocol<Want> for Serials {
    ghost use Rattle.std.specs.Prelude.{◌<◌, ◌-◌, ◌^◌, length};

    ghost allows = { λ before _. length before < 2 ^ 64 - 1 };
}
