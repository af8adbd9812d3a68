//! A keeper is a store.

use crate::keeper::{Keeper, open_store};
use alm_disk::Disk;
use alm_plant::Plant;
use alm_store::{OpenFault, Phase, Progress, Refused, Store};
use alm_types::Batch;
use std::alloc::Global;

impl<D: Disk + Drop> Store for Keeper<D> {
    ghost use Rattle.std.specs.Prelude.{◌≡◌, true, ◌≤◌, ◌+◌, ◌-◌, ◌^◌};
    ghost use Rattle.alm_keeper.specs.Keeper.{HasRoomFor, HasRoomIn, next};
    ghost use Rattle.alm_keeper.specs.AsStore.{StandsFor, IsLastEpoch, IsNewest, store_state_of};
    ghost use Rattle.alm_keeper.specs.StoreLaws.{fits_any, goes_alone, goes_open, keeps_rules, rests, stands_for_one};

    type Device = D;

    ghost disk = { λ k. k.disk };

    ghost state = { λ k. store_state_of k };

    ghost recovers = { StandsFor };

    ghost takes = { λ k actions. HasRoomFor k actions };

    ghost will_take = { λ k actions. HasRoomIn (next k) actions };

    ghost newest = { λ k. IsNewest k };

    ghost spent = { IsLastEpoch };

    ghost exhausted = { λ k. 2 ^ 64 ≤ k.stored.epoch + 1 };

    fn open(alloc: Global, from: D) -> Result<Self, (OpenFault, D)> {
        open_store(alloc, from)
    }

    fn into_device(self) -> D {
        self.into_disk()
    }

    fn images(&self) {
        Keeper::images(self);
    }

    fn phase(&self) -> Phase {
        Keeper::phase(self)
    }

    fn count(&self) -> u64 {
        Keeper::count(self)
    }

    fn stored(&self) -> &Plant {
        Keeper::stored(self)
    }

    fn takes(&self, batch: &Batch) -> bool {
        self.takes(batch)
    }

    fn is_half_used(&self) -> bool {
        let used = Keeper::used(self);
        Keeper::segment(self) - used < used
    }

    fn written_since(&self) -> u64 {
        Keeper::written_since(self)
    }

    fn mark(&mut self) {
        Keeper::mark(self);
    }

    fn begin(&mut self, batch: &Batch) -> Result<(), Refused> {
        // for the proof: what is always true of a keeper, by the contract of `images`
        Keeper::images(self);
        Keeper::begin(self, batch)
    }

    fn begin_checkpoint(&mut self) -> Result<(), Refused> {
        // for the proof: what is always true of a keeper, by the contract of `images`
        Keeper::images(self);
        // for the proof: the least length of a segment, by the contract of `segment`
        let _least = self.segment();
        Keeper::begin_checkpoint(self)
    }

    fn advance(&mut self) -> Progress {
        // for the proof: what is always true of a keeper, by the contract of `images`
        Keeper::images(self);
        Keeper::advance(self)
    }

    ghost idle = { λ k other going. rests k other going };

    ghost alone = { λ k is. goes_alone k is };

    ghost opened = { λ k is. goes_open k is };

    ghost fits = { λ k actions newest few any. fits_any k actions newest few any };

    ghost one = { λ bytes p q x y. stands_for_one bytes p q x y };

    ghost rules = { λ bytes p are x. keeps_rules bytes p are x };
}
