//! What the ring of empty batches carries.

use alm_types::Batch;
use rtrb::Protocol;

/// The protocol that allows batches without entries.
pub(crate) struct Emptied;

impl Protocol<Batch> for Emptied {
    ghost use Rattle.std.specs.Prelude.{◌≡◌, []};

    ghost allows = { λ _ batch. batch.entries ≡ [] };
}
