//! Judged requests.

use alm_types::Verdict;

/// The verdict on a request, and the number of the action, or the count of the plant that refused it.
#[derive(Clone, Copy, Debug, PartialEq, Eq)]
pub struct JudgedRequest {
    pub verdict: Verdict,
    pub number: u64,
}
