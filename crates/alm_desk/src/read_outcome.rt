//! How a read ends.

/// How a read ended.
#[derive(Clone, Copy, Debug, PartialEq, Eq)]
pub enum ReadOutcome {
    /// It returned this number of bytes, at least one.
    Bytes(usize),
    /// The input is at its end.
    End,
    /// It was interrupted and returned nothing: read again.
    Interrupted,
    /// The reader failed.
    Failed,
}
