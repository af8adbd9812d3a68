//! Replies.

use alm_types::{Answer, Event, Query, Refusal};

/// The answer to a line.
#[derive(Clone, Copy)]
pub enum Reply<'a> {
    /// The line's action was accepted as number `n`.
    Ok {
        id: u32,
        n: u64,
    },
    /// The line is refused.
    No {
        id: u32,
        refusal: Refusal,
    },
    /// What a plant of `n` actions answers to the line's query.
    Told {
        id: u32,
        n: u64,
        query: Query,
        answer: &'a Answer,
    },
    /// What happened to a plant of `n` actions, the accepted action of number `first` first.
    Recalled {
        id: u32,
        n: u64,
        first: u64,
        events: &'a [Event],
    },
}
