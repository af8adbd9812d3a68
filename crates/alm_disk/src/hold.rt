//! What may hold a device back.

ghost use Rattle.std.specs.Prelude.{Bool};

use alm_types::Slot;
use std::sync::Arc;

/// Is asked before each sync, and informed of what the parts of a running server do. It may wait before it answers.
pub trait Hold {
    /// It may answer so.
    ghost answers: { Self → Bool → Type 0 };

    /// Whether the sync that comes next may begin; if not, it fails.
    fn before_sync(&self) -> bool
        ensures { answers self.now result };

    /// A request of this slot was taken.
    fn taken(&self, slot: Slot);

    /// This slot has looked at the published plant.
    fn looked(&self, slot: Slot);
}

impl<H: Hold> Hold for Arc<H> {
    ghost answers = { λ hold begins. H.answers hold.value begins };

    fn before_sync(&self) -> bool {
        (**self).before_sync()
    }

    fn taken(&self, slot: Slot) {
        (**self).taken(slot);
    }

    fn looked(&self, slot: Slot) {
        (**self).looked(slot);
    }
}
