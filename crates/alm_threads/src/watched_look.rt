//! A look that reports to a hold.
ghost use Rattle.std.specs.Prelude.{◌≡◌, IfOk, length};

use alm_board::{FreeLook, Look, Recall};
use alm_disk::Hold;
use alm_events::Recalled;
use alm_rings::Told;
use alm_types::{Answer, Event, Query, Refusal, Slot};
use std::alloc::{AllocError, Global};

/// A slot's look; it reports each answered look to its hold.
#[derive(Drop)]
pub struct WatchedLook<'h, L, H> {
    look: L,
    slot: Slot,
    hold: &'h H,
}

impl<L: Look, H: Hold> Look for WatchedLook<'_, L, H> {
    type Told = L::Told;

    ghost base = { λ watched. L.base watched.look };

    ghost knows = { λ watched. L.knows watched.look };

    ghost may_take = { λ watched told. L.may_take watched.look told };

    ghost looked = { λ watched query result later. L.looked watched.look query result later.look };

    fn look(&mut self, query: Query, answer: &mut Answer) -> Result<u64, Refusal> {
        let result = self.look.look(query, answer);
        if result.is_ok() {
            self.hold.looked(self.slot);
        }
        result
    }

    fn take_in(&mut self, told: L::Told) {
        self.look.take_in(told);
    }
}

impl<L: FreeLook, H: Hold> FreeLook for WatchedLook<'_, L, H> {
    ghost free = { λ watched told. L.FreeLook.free watched.look told };
}

impl<L: Recall, H: Hold> Recall for WatchedLook<'_, L, H> {
    ghost logged = { λ watched. L.Recall.logged watched.look };

    ghost recalled = { λ watched after result later.
        L.Recall.recalled watched.look after result later.look };

    fn recall(&mut self, after: Option<u64>, events: &mut Vec<Event>) -> Result<Recalled, Refusal> {
        let result = self.look.recall(after, events);
        if result.is_ok() {
            self.hold.looked(self.slot);
        }
        result
    }
}

/// Makes the looks of these slots report to a hold, in their order.
pub fn watched<'h, L: Look + Drop, H: Hold>(
    alloc: Global,
    hold: &'h H,
    slots: &[Slot],
    looks: Vec<L>,
) -> Result<Vec<WatchedLook<'h, L, H>>, AllocError>
    requires { length looks.items ≡ length slots.now }
    ensures { IfOk result (λ watched. length watched.items ≡ length slots.now) }
{
    let mut watched = Vec::with_capacity(alloc, slots.len())?;
    let mut place = 0;
    for look in looks {
        let slot = slots[place];
        place += 1;
        watched.push_reserved(WatchedLook { look, slot, hold });
    }
    Ok(watched)
}
