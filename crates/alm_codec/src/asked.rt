//! Actions of frames.

use crate::asker::Asker;
use alm_types::Action;

/// An action, and who asked for it.
#[derive(Clone, Copy, Debug, PartialEq, Eq)]
pub struct Asked {
    pub asker: Asker,
    pub action: Action,
}
