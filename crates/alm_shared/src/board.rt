//! A shared board is a board.

use crate::action_history::ActionHistory;
use crate::action_prefix::ActionPrefix;
use crate::append_step::AppendStep;
use crate::durable::Durable;
use crate::publisher::Publisher;
use crate::shown_plant::ShownPlant;
use alm_board::{Board, Publish};
use alm_model::Alarms;
use alm_moments::{Moments, RunId};
use alm_types::Batch;
use std::alloc::AllocError;
use std::sync::Wait;

impl<J: RunId, P: Alarms + Drop> Board
    for Publisher<ShownPlant<J, P>, AppendStep<J>, ActionPrefix<J>, ActionHistory<J>> {
    ghost use Rattle.alm_model.specs.Judging.{logged_actions};
    ghost use Rattle.alm_shared.specs.SharedBoards.{board_shown, board_pending};

    type Told = Durable<J>;

    ghost base = { λ _. J.base };

    ghost published = { λ board. logged_actions (board_shown board) };

    ghost logged = { λ board. board_shown board };

    ghost pending = { λ board. board_pending board };

    fn tell(&self) -> Durable<J> {
        self.shown().told.again()
    }
}

impl<J: RunId, P: Alarms + Drop, R: Wait> Publish<R, Moments<J>>
    for Publisher<ShownPlant<J, P>, AppendStep<J>, ActionPrefix<J>, ActionHistory<J>> {
    ghost sure = { ⊥ };

    fn publish(&mut self, by: &R, moments: &Moments<J>, batch: &Batch) -> Result<(), AllocError> {
        self.hand_over(batch, moments)?;
        self.turn(by)
    }
}
