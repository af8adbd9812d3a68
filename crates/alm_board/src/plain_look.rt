//! A slot's view of a plain board.

ghost use Rattle.alm_board.specs.Logs.{actions_of};
ghost use Rattle.alm_board.specs.PrefixesOf.{IsPrefixOf};

use crate::board::Board;
use crate::look::Look;
use crate::plain_board::PlainBoard;
use crate::plain_told::PlainTold;
use crate::seen::Seen;
use alm_model::{Alarms, look};
use alm_types::{Answer, Query, Refusal};

/// A slot's view of a plain board.
#[derive(Drop)]
pub struct PlainLook<'a, P: Alarms + Drop> {
    pub(crate) board: &'a PlainBoard<P>,
    pub(crate) seen: Seen,
    ghost of_the_board: { IsPrefixOf (actions_of seen.list.value) (actions_of board.now.log) },
}

impl<P: Alarms + Drop> PlainLook<'_, P> {
    ghost use Rattle.std.specs.Prelude.{◌≡◌};

    /// What the slot has seen.
    pub fn into_seen(self) -> Seen
        ensures { result ≡ self.entry.seen }
    {
        self.seen
    }
}

impl<P: Alarms + Drop> Look for PlainLook<'_, P> {
    ghost use Rattle.std.specs.Prelude.{◌≡◌, OnOk, OnErr};
    ghost use Rattle.alm_model.specs.Look.{IsLook};
    ghost use Rattle.alm_model.specs.Step.{run};
    ghost use Rattle.alm_board.specs.Logs.{actions_of};
    ghost use Rattle.alm_board.specs.Looks.{LookAnswers};
    ghost use Rattle.alm_board.specs.PrefixesOf.{IsPrefixOf};

    type Told = PlainTold;

    ghost base = { λ look. P.plant look.board.now.base.value };

    ghost knows = { λ look. actions_of look.seen.list.value };

    ghost may_take = { λ look told.
        IsPrefixOf (actions_of told.list.value) (actions_of look.board.now.log) };

    fn look(&mut self, query: Query, answer: &mut Answer) -> Result<u64, Refusal>
        ensures base { P.plant self.new.board.now.base.value ≡
            P.plant self.old.board.now.base.value }
        ensures later { IsPrefixOf (actions_of self.old.seen.list.value)
            (actions_of self.new.seen.list.value) }
        ensures answer { LookAnswers (P.plant self.old.board.now.base.value)
            (actions_of self.old.seen.list.value) (actions_of self.new.seen.list.value) query
            answer.old answer.new result }
        ensures board { self.new.board.now ≡ self.old.board.now }
        ensures shown { IsLook
            (run (P.plant self.old.board.now.base.value) (actions_of self.old.board.now.log)) query
            answer.old answer.new result }
        ensures saw { OnOk result
            (actions_of self.new.seen.list.value ≡ actions_of self.old.board.now.log) }
        ensures kept { OnErr result (self.new.seen ≡ self.old.seen) }
    {
        let board: &PlainBoard<P> = self.board;
        let count = look(&board.plant, query, answer)?;
        let PlainTold {
            base_count: _,
            len,
            list,
        } = board.tell();
        self.seen = Seen { len, list };
        Ok(count)
    }

    fn take_in(&mut self, told: PlainTold)
        requires { IsPrefixOf (actions_of told.list.value) (actions_of self.old.board.now.log) }
        ensures base { P.plant self.new.board.now.base.value ≡
            P.plant self.old.board.now.base.value }
        ensures later { IsPrefixOf (actions_of self.old.seen.list.value)
            (actions_of self.new.seen.list.value) }
        ensures told { IsPrefixOf (actions_of told.list.value) (actions_of self.new.seen.list.value) }
        ensures board { self.new.board.now ≡ self.old.board.now }
    {
        let PlainTold {
            base_count: _,
            len,
            list,
        } = told;
        if self.seen.len < len {
            self.seen = Seen { len, list };
        }
    }
}
