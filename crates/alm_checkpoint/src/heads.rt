//! The heads of both halves.

ghost use Rattle.std.specs.Prelude.{◌≡◌, ◌≤◌, length, true, IfOk};
ghost use Rattle.alm_checkpoint.specs.Headers.{allows};
ghost use Rattle.alm_checkpoint.specs.Opening.{beside_from, heads_from};
ghost use Rattle.alm_types.specs.Sizes.{most_actions};

use crate::device_fault::DeviceFault;
use crate::half::Half;
use crate::half_gate::{choose, is_half_open, read_half_gate};
use crate::half_head::HalfHead;
use crate::layout::Layout;
use alm_codec::Version;

impl Layout {
    /// Whether the head of the half that doesn't stand is whole where it has to be: in version 03, if its gate is open.
    fn check_beside(&self, half: Half, bytes: &[u8]) -> Result<(), DeviceFault>
        requires { length bytes.now ≡ 25 }
        ensures { result ≡ beside_from self.now half bytes.now }
    {
        match self.version {
            Version::V01 | Version::V02 => Ok(()),
            Version::V03 => {
                if is_half_open(bytes[0]) {
                    self.read_half_head(half, bytes)?;
                }
                Ok(())
            }
        }
    }

    /// The half that stands and what its head says, by the 25 bytes of each head.
    ///
    /// Damage is where no half stands or the epochs are equal, else in the head of the half that stands. In version 03 it is
    /// else in that of the other half, if its gate is open.
    #[tactic(auto, unfolding(crate::specs::Opening::heads_from))]
    pub fn read_heads(&self, first: &[u8], second: &[u8]) -> Result<(Half, HalfHead), DeviceFault>
        requires first { length first.now ≡ 25 }
        requires second { length second.now ≡ 25 }
        ensures heads { result ≡ heads_from self.now first.now second.now }
        ensures count { IfOk result (λ x. x.1.count ≤ most_actions) }
        ensures allowed { IfOk result (λ x. allows self.now.version x.1.version ≡ true) }
    {
        let zero = read_half_gate(first);
        let one = read_half_gate(second);
        match choose(&zero, &one) {
            Ok(Half::First) => {
                let head = self.read_half_head(Half::First, first)?;
                self.check_beside(Half::Second, second)?;
                Ok((Half::First, head))
            }
            Ok(Half::Second) => {
                let head = self.read_half_head(Half::Second, second)?;
                self.check_beside(Half::First, first)?;
                Ok((Half::Second, head))
            }
            Err(why) => Err(why.fault(self)),
        }
    }
}
