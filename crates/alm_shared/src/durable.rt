//! Published actions that stay on the device.
ghost use Rattle.std.specs.Prelude.{◌+◌, ◌≤◌, length};
ghost use mathlib.Core.List.{IsPrefix};
ghost use Rattle.alm_model.specs.Judging.{logged_actions};
ghost use Rattle.alm_moments.specs.Moments.{now_of};

use crate::action_prefix::ActionPrefix;
use alm_moments::{Moments, RunId};
use alm_rings::Told;

/// Published actions that stay on the device: a prefix of the run's history, with moments whose floor reaches it. Receipts report
/// it, and looks know it.
#[derive(Drop)]
pub struct Durable<J: RunId> {
    pub prefix: ActionPrefix<J>,
    pub moments: Moments<J>,
    /// Its actions are on the device from the last of these moments on,
    pub ghost held: { J.base.panel.count + length (logged_actions prefix) ≤
        (now_of J.base J.first moments).floor },
    /// and they are the first that were accepted.
    pub ghost within: { ∥ IsPrefix (logged_actions prefix) (now_of J.base J.first moments).accepted ∥₁ },
}

impl<J: RunId> Told for Durable<J> {
    ghost use Rattle.alm_model.specs.Judging.{logged_actions};

    ghost base_count = { λ _. J.base.panel.count };

    ghost list = { λ told. logged_actions told.prefix };

    ghost logged = { λ told. told.prefix };
}

impl<J: RunId> Durable<J> {
    ghost use Rattle.std.specs.Prelude.{◌≡◌};

    /// The same.
    pub fn again(&self) -> Durable<J>
        ensures prefix { result.prefix ≡ self.now.prefix }
        ensures moments { result.moments ≡ self.now.moments }
    {
        Durable {
            prefix: self.prefix.again(),
            moments: self.moments.again(),
        }
    }

    /// The longer of two prefixes: it begins with the other.
    pub fn longer(&self, other: &Durable<J>) -> Durable<J>
        ensures this { IsPrefix self.now.prefix result.prefix }
        ensures that { IsPrefix other.now.prefix result.prefix }
    {
        // for the proof: one of two prefixes of a history begins with the other
        drop(self.prefix.longer(&other.prefix));
        if self.prefix.len() < other.prefix.len() {
            other.again()
        } else {
            self.again()
        }
    }
}
