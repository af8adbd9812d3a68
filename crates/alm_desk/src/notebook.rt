//! What a desk keeps besides its plant.

ghost use Rattle.std.specs.Prelude.{◌≡◌, ◌≤◌, vec_capacity};
ghost use Rattle.alm_events.specs.Events.{most_told};

use alm_events::{MOST_TOLD, RecentEvents};
use alm_types::{Action, Answer, Event, Moment, Slot};
use std::alloc::{AllocError, Global};

/// The room for a desk's answers, and what happened since it began.
#[derive(Drop)]
pub struct Notebook {
    pub answer: Answer,
    /// The plant's moment.
    pub moment: Moment,
    /// The last accepted actions.
    pub recent: RecentEvents,
    /// Those that a reply reports.
    pub events: Vec<Event>,
    ghost room: { most_told ≤ vec_capacity events },
}

impl Notebook {
    ghost use Rattle.std.specs.Prelude.{◌≡◌, ◌++◌, ◌∷◌, [], IfOk};
    ghost use Rattle.alm_events.specs.Events.{most_kept, last};
    ghost use Rattle.alm_desk.specs.Notebooks.{moment_after};

    /// Nothing has happened yet.
    pub fn new(alloc: Global, moment: Moment, answer: Answer) -> Result<Self, AllocError>
        ensures answer { IfOk result (λ n. n.answer ≡ answer) }
        ensures moment { IfOk result (λ n. n.moment ≡ moment) }
        ensures recent { IfOk result (λ n. n.recent ≡ []) }
    {
        Ok(Notebook {
            answer,
            moment,
            recent: RecentEvents::new(alloc)?,
            events: Vec::with_capacity(alloc, MOST_TOLD)?,
        })
    }

    /// Remembers an action that was just accepted.
    pub fn remember(&mut self, slot: Slot, action: Action)
        ensures answer { self.new.answer ≡ self.old.answer }
        ensures moment { self.new.moment ≡ moment_after self.old.moment action }
        ensures recent { self.new.recent ≡
            last most_kept
            (self.old.recent ++
            record {
              moment = moment_after self.old.moment action;
              slot = slot;
              action = action;
            } ∷ []) }
    {
        if let Action::Clock(moment) = action {
            self.moment = moment;
        }
        let moment = self.moment;
        self.recent.push(Event {
            moment,
            slot,
            action,
        });
    }
}
