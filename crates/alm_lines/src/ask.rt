//! What a line asks.

use alm_types::{Query, Refusal, Want};

/// What a line asks: an action, a query, what happened, or nothing.
#[derive(Clone, Copy, Debug, PartialEq, Eq)]
pub enum Ask {
    /// An action.
    Act(Want),
    /// A query.
    Look(Query),
    /// The accepted actions after this number; without one, after the smallest number that is answered.
    Recall(Option<u64>),
    /// Nothing: `BadLine` or `LineTooLong`.
    Bad(Refusal),
}
