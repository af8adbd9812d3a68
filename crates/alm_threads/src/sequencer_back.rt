//! A promise of what the sequencer's thread returns.

use crate::rings::Rings;
use alm_model::Alarms;
use alm_seq::Sequencer;
use std::snapshot::Snapshot;
use std::thread::Promise;

/// The sequencer that is returned has the ends that went in, and judged from the plant that it began with.
#[derive(Drop)]
pub struct SequencerBack<P: Alarms + Drop> {
    pub rings: Snapshot<Rings>,
    pub plant: Snapshot<P>,
}

impl<P: Alarms + Drop> Promise<Sequencer<P>> for SequencerBack<P> {
    ghost use Rattle.alm_threads.specs.Sequencing.{IsSequencerOver};

    ghost kept_by = { λ p r. IsSequencerOver (P.plant p.plant.value) p.rings.value r };
}
