//! What a desk runs over.

ghost use Rattle.std.specs.Prelude.{◌≡◌, ℕ, List, Option, is_none};
ghost use Rattle.alm_model.specs.Plant.{Condensed};
ghost use Rattle.alm_desk.specs.Backends.{IsJudged, CountsStop, IsAsked, kept_by};

use crate::judged_request::JudgedRequest;
use crate::stopped::Stopped;
use alm_types::{Answer, Query, Refusal, Request};

/// A plant that takes requests and answers queries.
pub trait Backend {
    /// The plant; none once its storage has stopped.
    ghost stands: { Self → Option Condensed };

    /// The plants of which its storage holds one: the plant alone. Once the storage has stopped, the one before, without the
    /// action that met it or with it.
    ghost kept: { Self → List Condensed };

    /// How often its storage has failed: a device failed, or the numbers that storage gives out were spent. The count stays at
    /// 2^64 - 1.
    ghost failures: { Self → ℕ };

    /// Judges a request, and does its action if it is accepted. It stops only if its storage failed in this call, which is
    /// counted; whether the action is stored is not said then.
    fn submit(&mut self, request: &Request) -> Result<JudgedRequest, Stopped>
        ensures judged { IsJudged (stands self.old) request.now result (stands self.new) }
        ensures stored { kept self.new ≡
            kept_by (stands self.old) (kept self.old) request.now result }
        ensures count { CountsStop (stands self.old) result (failures self.old)
            (failures self.new) };

    /// Answers a query, with the count of actions. `Stopped` once its storage has stopped, and the answer stays as it was;
    /// `OutOfMemory` for lists alone, if a growth was refused.
    fn ask(&mut self, query: Query, answer: &mut Answer) -> Result<u64, Refusal>
        ensures asked { IsAsked (stands self.old) query answer.old answer.new result }
        ensures same { (stands self.new ≡ stands self.old) × (kept self.new ≡ kept self.old) }
        ensures count { failures self.new ≡ failures self.old };

    /// Whether its storage has stopped.
    fn is_stopped(&self) -> bool
        ensures { result ≡ is_none (stands self.now) };

    /// How often its storage has failed.
    fn failures(&self) -> u64
        ensures { result ≡ failures self.now };
}
