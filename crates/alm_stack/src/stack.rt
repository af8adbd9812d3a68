//! The whole stack.

ghost use Rattle.std.specs.Prelude.{◌≡◌, None, Some};
ghost use Rattle.alm_types.specs.declared.request.Request.{Request};
ghost use Rattle.alm_model.specs.Judging.{verdict_of};
ghost use Rattle.alm_pipeline.specs.World.{World};
ghost use Rattle.alm_stack.specs.Exchanges.{MayWait, Rests};

use crate::exchange::exchange;
use alm_board::{Look, Seen};
use alm_desk::{Backend, JudgedRequest, Stopped};
use alm_keeper::{Keeper, OpenFault};
use alm_pipeline::Pipeline;
use alm_store::Store;
use alm_types::{Answer, Query, Refusal, Request};
use std::alloc::Global;

/// The stack over a device.
pub type Stack<D> = StackOver<Keeper<D>>;

/// The parts of a server over a store, one request at a time.
#[derive(Drop)]
pub struct StackOver<K: Store> {
    pipeline: Pipeline<K>,
    // The request at which the storage stopped.
    halted: Option<Request>,
    failures: u64,
    /// While it runs, it has a world's pipeline, and no request is under way between two requests,
    pub ghost rests: { halted ≡ None → ∥ ((w : World) × Rests w pipeline) ∥₁ },
    /// and after it has stopped, at most the action that met it.
    pub ghost halts: { (r : Request) → halted ≡ Some r →
        ∥ MayWait pipeline.flusher.held (verdict_of (K.state pipeline.flusher.store).stored r) ∥₁ },
}

impl<K: Store> StackOver<K> {
    ghost use Rattle.std.specs.Prelude.{◌≡◌, ◌↔◌, ℕ, List, [], ◌∷◌, IfOk, IfErr, Some, Contains};
    ghost use Rattle.alm_model.specs.Plant.{Condensed};
    ghost use Rattle.alm_disk.specs.Device.{IsImage};
    ghost use Rattle.alm_disk.specs.Failures.{HasFailed};
    ghost use Rattle.alm_store.specs.Opening.{IsGivenBack, IsOpenedAs};
    ghost use Rattle.alm_pipeline.specs.World.{first};
    ghost use Rattle.alm_stack.specs.Stacks.{stands_of, kept_of, store_of, RunsIn};

    /// Opens the plant that a device encodes: it is synced and read, and no byte is written. All memory is taken here.
    ///
    /// The device is returned if it encodes no plant, if it failed, or if out of memory.
    pub fn open(alloc: Global, disk: K::Device) -> Result<StackOver<K>, (OpenFault, K::Device)>
        ensures opened { IfOk result
            (λ s. IsOpenedAs K.Device.Disk K.recovers (K.state (store_of s)).stored disk
            (K.disk (store_of s))) }
        ensures refused { IfErr result
            (λ x. IsGivenBack K.Device.Disk K.recovers x.0 disk x.1) }
        ensures stands { IfOk result
            (λ s. (stands_of s ≡ Some (K.state (store_of s)).stored) ×
            (kept_of s ≡ (K.state (store_of s)).stored ∷ [])) }
        // It begins in the first world of that plant.
        ensures world { IfOk result (λ s. RunsIn (first (K.state (store_of s)).stored) s) }
        ensures failures { IfOk result (λ s. s.failures ≡ 0) }
    {
        match Pipeline::<K>::open(alloc, disk) {
            Ok(pipeline) => Ok(StackOver {
                pipeline,
                halted: None,
                failures: 0,
            }),
            Err(refused) => Err(refused),
        }
    }

    /// Does nothing: it says what a crash leaves of the device. Each image encodes one of the plants that are kept. While it runs
    /// that is the plant itself, and after it has stopped the one before, without the action that met the stop or with it.
    pub fn images(&self)
        ensures { K.Device.honest (K.disk (store_of self.now)) → (b : List ℕ) →
            IsImage (K.Device.state (K.disk (store_of self.now))) b →
            ∥ ((plant : Condensed) × Contains (kept_of self.now) plant × K.recovers b plant) ∥₁ }
    {
        self.pipeline.flusher.keeper().images();
    }

    /// The device.
    pub fn into_disk(self) -> K::Device
        ensures honest { K.Device.honest (K.disk (store_of self)) ↔ K.Device.honest result }
        ensures device { K.Device.state result ≡ K.Device.state (K.disk (store_of self)) }
        ensures failures { K.Device.failures result ≡ K.Device.failures (K.disk (store_of self)) }
    {
        let StackOver {
            pipeline,
            halted: _,
            failures: _,
        } = self;
        pipeline.into_device()
    }
}

impl<K: Store> Backend for StackOver<K> {
    ghost use Rattle.std.specs.Prelude.{◌≡◌, ◌↔◌, ◌<◌, ◌+◌, ◌^◌, IsSome, OnErr};
    ghost use Rattle.alm_disk.specs.Failures.{HasFailed};
    ghost use Rattle.alm_desk.specs.Backends.{IsJudged, CountsStop, IsAsked, kept_by};
    ghost use Rattle.alm_pipeline.specs.World.{World};
    ghost use Rattle.alm_stack.specs.Stacks.{stands_of, kept_of, store_of, serial_of, LooksThrough, RunsIn, RunsThrough};

    ghost stands = { stands_of };

    ghost kept = { kept_of };

    ghost failures = { λ s. s.failures };

    fn submit(&mut self, request: &Request) -> Result<JudgedRequest, Stopped>
        ensures judged { IsJudged (stands_of self.old) request.now result (stands_of self.new) }
        ensures stored { kept_of self.new ≡
            kept_by (stands_of self.old) (kept_of self.old) request.now result }
        ensures count { CountsStop (stands_of self.old) result self.old.failures self.new.failures }
        // It stops only if the device failed in this call, if the last epoch is used up, or if the slot's serials are.
        ensures cause { IsSome (stands_of self.old) → ¬ (K.exhausted (store_of self.new)) →
            serial_of request.now.slot self.old + 1 < 2 ^ 64 →
            OnErr result
            (HasFailed (K.Device.failures (K.disk (store_of self.old)))
            (K.Device.failures (K.disk (store_of self.new)))) }
        ensures honest { K.Device.honest (K.disk (store_of self.old)) ↔
            K.Device.honest (K.disk (store_of self.new)) }
        // It is a run of the world's steps, of which the answer is the reply; with an honest device it is one of the headline's.
        ensures run { (w : World) → RunsIn w self.old →
            RunsThrough w request.now self.old self.new result }
    {
        match self.halted {
            Some(_) => return Err(Stopped),
            None => {}
        }
        // for the proof: the slot has a console
        let _place = request.slot.number();
        match exchange(&mut self.pipeline, request.slot, request.want) {
            Ok(judged) => Ok(judged),
            Err(Stopped) => {
                self.halted = Some(*request);
                self.failures = self.failures.saturating_add(1);
                Err(Stopped)
            }
        }
    }

    fn ask(&mut self, query: Query, answer: &mut Answer) -> Result<u64, Refusal>
        ensures asked { IsAsked (stands_of self.old) query answer.old answer.new result }
        ensures same { (stands_of self.new ≡ stands_of self.old) ×
            (kept_of self.new ≡ kept_of self.old) }
        ensures count { self.new.failures ≡ self.old.failures }
        ensures honest { K.Device.honest (K.disk (store_of self.old)) ↔
            K.Device.honest (K.disk (store_of self.new)) }
        // It is a look of the world.
        ensures run { (w : World) → RunsIn w self.old → LooksThrough w query self.new result }
    {
        match self.halted {
            Some(_) => return Err(Refusal::Stopped),
            None => {}
        }
        let mut look = self.pipeline.flusher.board().looker(Seen::new());
        look.look(query, answer)
    }

    fn is_stopped(&self) -> bool {
        self.halted.is_some()
    }

    fn failures(&self) -> u64 {
        self.failures
    }
}
