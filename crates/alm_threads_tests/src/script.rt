//! A source that plays steps.

use crate::gate::Gate;
use crate::notes::Notes;
use alm_board::{FreeLook, Recall};
use alm_events::MOST_TOLD;
use alm_rings::{Console, Told};
use alm_threads::{Go, Source};
use alm_types::{Action, AlarmId, Answer, Event, Query, Shown, Want};
use std::alloc::{AllocError, Global};
use std::sync::Arc;
use std::sync::atomic::Ordering;

/// How many turns it rests at one step.
const RESTS: u64 = 400;

/// A step.
#[derive(Clone, Copy, Debug)]
pub enum Step {
    Send(Action),
    /// Rests until the next receipt comes, and learns it.
    Learn,
    /// Rests until a look shows an alarm so.
    Await(AlarmId, Shown),
    /// A look shows an alarm so.
    See(AlarmId, Shown),
    /// What happened after a number is exactly one action, of a slot.
    Recall(u64, u8, Action),
    /// Rests until the gate has begun to hold.
    AwaitGate,
    /// Sends, and stays in that turn until another slot has looked.
    SendAndLinger(Action),
}

/// Plays a step a turn, and notes what is wrong: a step that can't be played for long, and a look that is refused or
/// shows something else.
#[derive(Drop)]
pub struct Script {
    steps: Vec<Step>,
    place: usize,
    rests: u64,
    answer: Answer,
    events: Vec<Event>,
    gate: Arc<Gate, Global>,
    notes: Arc<Notes, Global>,
}

impl Script {
    /// These steps, none of them played. An error only if out of memory.
    pub fn new(
        alloc: Global,
        steps: Vec<Step>,
        gate: Arc<Gate, Global>,
        notes: Arc<Notes, Global>,
    ) -> Result<Self, AllocError> {
        Ok(Script {
            steps,
            place: 0,
            rests: 0,
            answer: Answer::new(alloc),
            events: Vec::with_capacity(alloc, MOST_TOLD)?,
            gate,
            notes,
        })
    }

    // Whether what happened after a number is exactly this.
    fn recalls<L: Recall>(&mut self, look: &mut L, after: u64, slot: u8, action: Action) -> bool {
        if self.events.capacity() < MOST_TOLD {
            return false;
        }
        match look.recall(Some(after), &mut self.events) {
            Ok(told) => match self.events.get(0) {
                Some(event) => {
                    self.events.len() == 1
                        && told.first == after.wrapping_add(1)
                        && event.slot.number() == slot
                        && event.action == action
                }
                None => false,
            },
            Err(_) => false,
        }
    }

    // Whether a look shows an alarm so. One that is refused is wrong.
    fn sees<T: Told, L: FreeLook<Told = T>>(
        &mut self,
        look: &mut L,
        alarm: AlarmId,
        shown: Shown,
    ) -> bool {
        match look.look(Query::State(alarm), &mut self.answer) {
            Ok(_) => {
                self.notes.shown.fetch_add(1, Ordering::SeqCst);
                self.answer.shown == shown
            }
            Err(_) => {
                self.notes.is_wrong();
                false
            }
        }
    }

    // Whether a step is played.
    fn plays<T: Told + Drop, L: FreeLook<Told = T> + Recall>(
        &mut self,
        console: &mut Console<T>,
        look: &mut L,
        step: Step,
    ) -> bool
        ensures { SameConsole console.old console.new }
    {
        match step {
            Step::Send(action) => console.send(Want::Do(action)).is_ok(),
            Step::Learn => match console.receive() {
                Some(receipt) => {
                    look.learn(receipt);
                    true
                }
                None => false,
            },
            Step::Await(alarm, shown) => self.sees(look, alarm, shown),
            Step::See(alarm, shown) => {
                if !self.sees(look, alarm, shown) {
                    self.notes.is_wrong();
                }
                true
            }
            Step::Recall(after, slot, action) => {
                if !self.recalls(look, after, slot, action) {
                    self.notes.is_wrong();
                }
                true
            }
            Step::AwaitGate => self.gate.has_begun(),
            Step::SendAndLinger(action) => {
                let is_sent = console.send(Want::Do(action)).is_ok();
                self.gate.linger();
                is_sent
            }
        }
    }

    // A turn that plays nothing.
    fn rest(&mut self) -> Go {
        self.rests = self.rests.saturating_add(1);
        if self.rests > RESTS {
            self.notes.is_wrong();
            return Go::End;
        }
        Go::Rest
    }
}

ghost use Rattle.alm_rings.specs.Ends.{SameConsole};

impl<T: Told + Drop, L: FreeLook<Told = T> + Recall> Source<T, L> for Script {
    ghost use Rattle.std.specs.Prelude.{None};

    ghost slot = { λ _. None };

    fn turn(&mut self, console: &mut Console<T>, look: &mut L) -> Go {
        let Some(step) = self.steps.get(self.place) else {
            return Go::End;
        };
        let step = *step;
        if !self.plays(console, look, step) {
            return self.rest();
        }
        self.place = self.place.saturating_add(1);
        self.rests = 0;
        Go::Go
    }
}
