//! Starts the sequencer's thread from its parts.
ghost use Rattle.std.specs.Prelude.{◌≡◌, IfOk};
ghost use Rattle.alm_threads.specs.Parts.{AreFresh};
ghost use Rattle.alm_threads.specs.Sequencing.{IsSequencerOver};

use crate::rings::Rings;
use crate::sequencer_back::SequencerBack;
use crate::sequencing::sequence;
use crate::start_fault::StartFault;
use alm_disk::Hold;
use alm_model::Alarms;
use alm_seq::Sequencer;
use alm_types::Slot;
use alm_wake::{Bell, Flags};
use std::snapshot::Snapshot;
use std::sync::Wait;
use std::thread::{PromisedHandle, Scope};
use std::time::Clock;

/// Runs a sequencer over these ends until all sources have ended and no work is left, and returns it.
pub fn run_sequencer<P: Alarms + Drop, B: Bell + Drop, H: Hold, R: Wait + Clock>(
    rt: &R,
    flags: &Flags<B>,
    slots: &[Slot],
    hold: &H,
    plant: P,
    rings: Rings,
) -> Sequencer<P>
    requires { AreFresh slots.now (P.plant plant) rings }
    ensures { IsSequencerOver (P.plant plant) rings result }
{
    let Rings { inboxes, ends } = rings;
    let sequencer = Sequencer::new(plant, inboxes, ends);
    sequence(rt, flags, slots, hold, sequencer)
}

/// Starts it in a thread of its own, over these ends.
pub fn start_sequencer<
    's,
    E,
    P: Alarms + Drop + Send,
    B: Bell + Drop + Sync,
    H: Hold + Sync,
    R: Wait + Clock + Sync,
>(
    scope: &Scope<'s, E>,
    rt: &'s R,
    flags: &'s Flags<B>,
    slots: &'s Vec<Slot>,
    hold: &'s H,
    plant: P,
    rings: Rings,
) -> Result<PromisedHandle<Sequencer<P>, SequencerBack<P>>, StartFault>
where
    P: 's,
    B: 's,
    H: 's,
    requires { AreFresh slots.now.items (P.plant plant) rings }
    ensures { IfOk result
        (λ handle. (handle.promise.rings.value ≡ rings) × (handle.promise.plant.value ≡ plant)) }
{
    let promise = SequencerBack {
        rings: Snapshot::of(&rings),
        plant: Snapshot::of(&plant),
    };
    match scope.spawn_with(
        promise,
        move || -> Sequencer<P>
            requires { AreFresh slots.now.items (P.plant plant) rings }
            ensures { IsSequencerOver (P.plant plant) rings result }
        { run_sequencer(rt, flags, slots.as_slice(), hold, plant, rings) },
    ) {
        Ok(handle) => Ok(handle),
        Err(_) => Err(StartFault::NoThread),
    }
}
