//! Whether a run left no request unanswered.

/// Whether a run left no request unanswered.
#[derive(Clone, Copy, Debug, PartialEq, Eq)]
pub enum Storage {
    /// The store still takes batches; all that was sent was taken, and all that was taken was answered.
    Whole,
    /// The store has stopped, or a request was not taken or not answered, for example after 1,000 refused publishes in a row.
    Stopped,
}
