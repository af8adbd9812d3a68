//! The stack over a device, as a desk named it.

ghost use Rattle.std.specs.Prelude.{◌≡◌, ◌↔◌, ◌∷◌, [], ℕ, List, Contains, Some};
ghost use Rattle.alm_disk.specs.Device.{IsImage};
ghost use Rattle.alm_keeper.specs.AsStore.{StandsFor};
ghost use Rattle.alm_model.specs.Plant.{Condensed};
ghost use Rattle.alm_program.specs.DeskRuns.{AreJudgedAtDesk, JudgedAtDesk};
ghost use Rattle.alm_stack.specs.Stacks.{kept_of, stands_of, store_of};

use crate::desk_id::DeskId;
use alm_desk::{Backend, JudgedRequest, Stopped};
use alm_disk::Disk;
use alm_keeper::Keeper;
use alm_stack::Stack;
use alm_store::Store;
use alm_types::{Answer, Query, Refusal, Request};
use std::marker::PhantomData;

/// The stack over a device, in a desk's run: since it was opened the device has stayed as honest as it was, and requests were
/// judged one after the other.
#[derive(Drop)]
pub struct DeviceStack<D: Disk + Drop, J: DeskId>
where
    Keeper<D>: Store,
{
    stack: Stack<D>,
    named: PhantomData<J>,
    ghost honest: { ∥ (J.DeskId.honest ↔ D.honest (store_of stack).disk) ∥₁ },
    ghost judged: { ∥ ((js : List JudgedAtDesk) × AreJudgedAtDesk (Some J.DeskId.base) (J.DeskId.base ∷ []) js
        (stands_of stack) (kept_of stack)) ∥₁ },
}

impl<D: Disk + Drop, J: DeskId> DeviceStack<D, J> {
    /// A stack that was just opened.
    pub fn new(stack: Stack<D>) -> Self
        requires honest { ∥ (J.DeskId.honest ↔ D.honest (store_of stack).disk) ∥₁ }
        requires stands { stands_of stack ≡ Some J.DeskId.base }
        requires kept { kept_of stack ≡ J.DeskId.base ∷ [] }
        ensures { result.stack ≡ stack }
    {
        DeviceStack {
            stack,
            named: PhantomData,
        }
    }

    /// The stack, as the run has left it: each image of its device holds one of the plants that are kept.
    pub fn into_stack(self) -> Stack<D>
        ensures stack { result ≡ self.stack }
        ensures honest { ∥ (J.DeskId.honest ↔ D.honest (store_of result).disk) ∥₁ }
        ensures judged { ∥ ((js : List JudgedAtDesk) × AreJudgedAtDesk (Some J.DeskId.base)
            (J.DeskId.base ∷ []) js (stands_of result) (kept_of result)) ∥₁ }
        ensures holds { D.honest (store_of result).disk → (image : List ℕ) →
            IsImage (D.state (store_of result).disk) image →
            ∥ ((plant : Condensed) × Contains (kept_of result) plant × StandsFor image plant) ∥₁ }
    {
        // for the proof: what a crash leaves
        self.stack.images();
        self.stack
    }
}

impl<D: Disk + Drop, J: DeskId> Backend for DeviceStack<D, J> {
    ghost stands = { λ s. ⟦<Stack<D> as Backend>⟧.stands s.stack };

    ghost kept = { λ s. ⟦<Stack<D> as Backend>⟧.kept s.stack };

    ghost failures = { λ s. ⟦<Stack<D> as Backend>⟧.failures s.stack };

    fn submit(&mut self, request: &Request) -> Result<JudgedRequest, Stopped> {
        self.stack.submit(request)
    }

    fn ask(&mut self, query: Query, answer: &mut Answer) -> Result<u64, Refusal> {
        self.stack.ask(query, answer)
    }

    fn is_stopped(&self) -> bool {
        self.stack.is_stopped()
    }

    fn failures(&self) -> u64 {
        self.stack.failures()
    }
}
