//! Requests that were not sent.

use alm_types::Want;
use thiserror::Error;

/// The request was not sent.
#[derive(Clone, Copy, Debug, PartialEq, Eq, Error)]
#[error("the request was not sent")]
pub struct Busy(pub Want);
