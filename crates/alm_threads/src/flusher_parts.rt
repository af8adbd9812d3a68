//! What a flusher consists of besides its board.

use alm_rings::{FetchEnds, Outbox, Told};
use alm_store::Store;

/// What a flusher consists of besides its board, and returns.
#[derive(Drop)]
pub struct FlusherParts<K: Store, T: Told + Drop> {
    pub store: K,
    pub outboxes: Vec<Outbox<T>>,
    pub fetch: FetchEnds,
}
