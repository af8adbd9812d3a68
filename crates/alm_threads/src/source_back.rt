//! A promise of what a source's thread returns.

use crate::slot_parts::SlotParts;
use crate::source::Source;
use crate::source_end::SourceEnd;
use alm_board::Look;
use alm_rings::Told;
use std::snapshot::Snapshot;
use std::thread::Promise;

/// The console that is returned is the end that it was, and nothing but the source's turns used it.
#[derive(Drop)]
pub struct SourceBack<T: Told + Drop, L: Look<Told = T> + Drop, S: Source<T, L> + Drop>(
    pub Snapshot<SlotParts<T, L, S>>,
);

impl<T: Told + Drop, L: Look<Told = T> + Drop, S: Source<T, L> + Drop> Promise<SourceEnd<T, S>>
    for SourceBack<T, L, S> {
    ghost use Rattle.alm_rings.specs.Ends.{SameConsole};
    ghost use Rattle.alm_threads.specs.Sources.{Accounts, source_state};

    ghost kept_by = { λ p r. SameConsole p.0.value.console r.console ×
        Accounts S.did (source_state p.0.value.source p.0.value.look p.0.value.console) r.source
        r.console };
}
