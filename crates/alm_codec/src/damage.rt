//! The place at which a text is damaged.

/// A text is damaged at the field that begins `at` bytes from its start.
#[derive(Clone, Copy, Debug, PartialEq, Eq)]
pub struct Damage {
    pub at: usize,
}
