//! Why the threads don't run.

/// Why the threads don't run.
#[derive(Clone, Copy, Debug, PartialEq, Eq)]
pub enum StartFault {
    OutOfMemory,
    NoThread,
}
