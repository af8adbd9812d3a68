//! What shows the published plant.

use crate::voucher::Voucher;
use alm_rings::Told;
use alm_types::Batch;
use std::alloc::AllocError;

/// What shows the published plant.
pub trait Board {
    ghost use Rattle.std.specs.Prelude.{◌≡◌, List};
    ghost use Rattle.alm_types.specs.declared.action.Action.{Action};
    ghost use Rattle.alm_types.specs.declared.logged_action.LoggedAction.{LoggedAction};
    ghost use Rattle.alm_model.specs.Judging.{logged_actions};
    ghost use Rattle.alm_model.specs.Plant.{Condensed};

    type Told: Told;

    /// The plant that the run begins with.
    ghost base: { Self → Condensed };

    /// The actions that were published since, oldest first.
    ghost published: { Self → List Action };

    /// The same, each with its request.
    ghost logged: { Self → List LoggedAction };

    /// Those that were handed over and are not shown yet: a publish that was refused leaves them.
    ghost pending: { Self → List LoggedAction };

    /// What is published now.
    fn tell(&self) -> Self::Told
        ensures base { Self.Told.base_count result ≡ (base self.now).panel.count }
        ensures list { Self.Told.list result ≡ published self.now }
        ensures logged { Self.Told.logged result ≡ logged self.now }
        ensures same { logged_actions (logged self.now) ≡ published self.now };
}

/// A board that shows one more batch: `C` is what it waits by, and `V` vouches for the list.
pub trait Publish<C, V: Voucher>: Board {
    ghost use Rattle.std.specs.Prelude.{◌≡◌, ◌++◌, [], IsOk, OnOk, OnErr};
    ghost use Rattle.alm_model.specs.Judging.{accepted_of, logged_of};
    ghost use Rattle.alm_model.specs.Rules.{AllAdmitted};
    ghost use Rattle.alm_model.specs.Step.{run};
    ghost use Rattle.alm_board.specs.PrefixesOf.{IsPrefixOf};

    /// It takes no memory.
    ghost sure: { Type 0 };

    /// Shows the accepted actions of a batch: the next ones, and after a refusal those of the same batch. An error only if out of
    /// memory: the shown list stays, and the next call continues from there.
    fn publish(&mut self, by: &C, voucher: &V, batch: &Batch) -> Result<(), AllocError>
        requires admitted { AllAdmitted (run (Self.base self.old) (Self.published self.old))
            (accepted_of batch.now.entries) }
        requires same { IsPrefixOf (Self.pending self.old) (logged_of batch.now.entries) }
        requires vouched { V.vouches voucher.now
            (Self.published self.old ++ accepted_of batch.now.entries) }
        ensures base { Self.base self.new ≡ Self.base self.old }
        ensures ok { OnOk result
            ((Self.published self.new ≡ Self.published self.old ++ accepted_of batch.now.entries) ×
            (Self.pending self.new ≡ [])) }
        ensures logged { OnOk result
            (Self.logged self.new ≡ Self.logged self.old ++ logged_of batch.now.entries) }
        ensures err { OnErr result
            ((Self.published self.new ≡ Self.published self.old) ×
            IsPrefixOf (Self.pending self.new) (logged_of batch.now.entries)) }
        ensures kept { OnErr result (Self.logged self.new ≡ Self.logged self.old) }
        ensures sure { sure → IsOk result };
}
