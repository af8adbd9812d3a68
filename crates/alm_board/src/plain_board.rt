//! The published plant in one thread.

ghost use Rattle.std.specs.Prelude.{◌≡◌};
ghost use Rattle.alm_model.specs.Step.{run};
ghost use Rattle.alm_board.specs.Logs.{actions_of};

use crate::board::{Board, Publish};
use crate::log::Log;
use crate::plain_look::PlainLook;
use crate::plain_told::PlainTold;
use crate::seen::Seen;
use alm_model::Alarms;
use alm_types::{Batch, LoggedAction, Verdict};
use std::alloc::AllocError;
use std::snapshot::Snapshot;

/// A plant, with the actions that it comes from.
#[derive(Drop)]
pub struct PlainBoard<P: Alarms + Drop> {
    pub(crate) plant: P,
    pub(crate) base_count: u64,
    pub(crate) base: Snapshot<P>,
    pub(crate) log: Log,
    pub ghost is_fold: { P.plant plant ≡ run (P.plant base.value) (actions_of log) },
    ghost count: { base_count ≡ (P.plant base.value).panel.count },
}

impl<P: Alarms + Drop> PlainBoard<P> {
    ghost use Rattle.std.specs.Prelude.{◌≡◌, ◌++◌, [], ◌∷◌, None};
    ghost use Rattle.alm_model.specs.Accept.{refusal};
    ghost use Rattle.alm_board.specs.Boards.{board_base, logged_by, published_of, saw_of};
    ghost use Rattle.alm_board.specs.PrefixesOf.{IsPrefixOf};

    /// A board with no published actions yet.
    pub fn new(plant: P) -> Self
        ensures base { board_base result ≡ P.plant plant }
        ensures published { published_of result ≡ [] }
        ensures logged { logged_by result ≡ [] }
    {
        PlainBoard {
            base_count: plant.count(),
            base: Snapshot::of(&plant),
            plant,
            log: Log::Nothing,
        }
    }

    /// Lends the board to a slot that saw this of it.
    pub fn looker(&self, seen: Seen) -> PlainLook<'_, P>
        requires { IsPrefixOf (saw_of seen) (published_of self.now) }
        ensures board { result.board.now ≡ self.now }
        ensures seen { result.seen ≡ seen }
    {
        PlainLook { board: self, seen }
    }

    // The next action.
    fn add(&mut self, next: LoggedAction)
        requires { refusal (P.plant self.old.plant).panel next.action ≡ None }
        ensures base { board_base self.new ≡ board_base self.old }
        ensures published { published_of self.new ≡ published_of self.old ++ next.action ∷ [] }
        ensures logged { logged_by self.new ≡ logged_by self.old ++ next ∷ [] }
    {
        self.plant.apply(&next.action);
        self.log.push(next);
    }
}

impl<P: Alarms + Drop> Board for PlainBoard<P> {
    ghost use Rattle.std.specs.Prelude.{[]};
    ghost use Rattle.alm_board.specs.Logs.{actions_of, logged_in};

    type Told = PlainTold;

    ghost base = { λ board. P.plant board.base.value };

    ghost published = { λ board. actions_of board.log };

    ghost logged = { λ board. logged_in board.log };

    ghost pending = { λ _. [] };

    fn tell(&self) -> PlainTold {
        PlainTold {
            base_count: self.base_count,
            len: self.plant.count() - self.base_count,
            list: Snapshot::of(&self.log),
        }
    }
}

impl<P: Alarms + Drop> Publish<(), ()> for PlainBoard<P> {
    ghost sure = { Unit {0} };

    fn publish(&mut self, _by: &(), _voucher: &(), batch: &Batch) -> Result<(), AllocError> {
        for entry in batch.entries() {
            match &entry.verdict {
                Verdict::Accepted(action) => self.add(LoggedAction {
                    slot: entry.slot,
                    serial: entry.serial,
                    action: *action,
                }),
                Verdict::Refused(_, _) => {}
            }
        }
        Ok(())
    }
}
