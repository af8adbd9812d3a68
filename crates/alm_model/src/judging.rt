//! Requests that are judged, one after the other.

ghost use Rattle.std.specs.Prelude.{◌≡◌, ◌≤◌, length};
ghost use Rattle.alm_model.specs.Judging.{accepted_of, after_verdict, verdict_of};
ghost use Rattle.alm_types.specs.Sizes.{most_actions};

use crate::alarms::Alarms;
use alm_types::{Batch, Request, Verdict};

/// Judges a request, and does what is accepted. Takes no memory.
#[tactic(auto, unfolding(crate::specs::Judging::verdict_of))]
pub fn judge<P: Alarms>(plant: &mut P, request: Request) -> Verdict
    ensures verdict { result ≡ verdict_of (P.plant plant.old) request }
    ensures after { P.plant plant.new ≡ after_verdict (P.plant plant.old) result }
    ensures most { (P.plant plant.old).panel.count ≤ most_actions →
        (P.plant plant.new).panel.count ≤ most_actions }
{
    match plant.check(&request) {
        Ok(action) => {
            plant.apply(&action);
            Verdict::Accepted(action)
        }
        Err(refusal) => Verdict::Refused(refusal, plant.count()),
    }
}

/// How many of a batch's requests are accepted.
pub fn accepted_in(batch: &Batch) -> usize
    ensures { result ≡ length (accepted_of batch.now.entries) }
{
    let mut actions = 0;
    for entry in batch.entries() {
        match &entry.verdict {
            Verdict::Accepted(_) => actions += 1,
            Verdict::Refused(_, _) => {}
        }
    }
    actions
}
