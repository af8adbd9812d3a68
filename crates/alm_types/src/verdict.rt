//! Verdicts.

use crate::action::Action;
use crate::refusal::Refusal;

/// What became of a request.
#[derive(Clone, Copy, Debug, PartialEq, Eq)]
pub enum Verdict {
    /// The plant has taken the action.
    Accepted(Action),
    /// With the count of actions at which the request was refused.
    Refused(Refusal, u64),
}
