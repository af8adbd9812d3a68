//! Why an image could not be read.

use crate::damage::Damage;

/// Why an image could not be read.
#[derive(Clone, Copy, Debug, PartialEq, Eq)]
pub enum ImageFault {
    OutOfMemory,
    /// The first field that breaks a rule.
    Damaged(Damage),
}
