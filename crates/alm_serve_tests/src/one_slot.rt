//! A slot's service over wires in memory, whose requests are answered in the same thread.

ghost use Rattle.alm_rings.specs.Ends.{AreEnds};

use alm_model::PlainPlant;
use alm_rings::{Console, Inbox, Outbox, open_slot};
use alm_serve::{Served, SlotService};
use alm_session::{MemWire, Session};
use alm_session_tests::playing::{answer, worked_look};
use alm_session_tests::still::{StillLook, StillTold};
use alm_types::{Action, AlarmId, Slot, Want};
use std::alloc::{AllocError, Global};

/// More steps than any row takes.
const STEPS: u32 = 1000;

/// A slot's service with the ends of its rings, before a plant that stays.
#[derive(Drop)]
pub struct OneSlot {
    service: SlotService<MemWire>,
    console: Console<StillTold>,
    inbox: Inbox,
    outbox: Outbox<StillTold>,
    look: StillLook<PlainPlant>,
    /// How many requests were answered.
    answers: u64,
    ghost ends: { AreEnds console inbox outbox },
}

impl OneSlot {
    /// A slot that nobody has used.
    pub fn new(alloc: Global, slot: Slot) -> Result<Self, AllocError> {
        let (console, inbox, outbox) = open_slot(alloc, slot)?;
        Ok(OneSlot {
            service: SlotService::new(Session::new(alloc)?),
            console,
            inbox,
            outbox,
            look: worked_look(alloc)?,
            answers: 0,
        })
    }

    /// Begins a connection over this wire: false if the last one isn't over.
    pub fn begin(&mut self, wire: MemWire) -> bool {
        let begins = self.service.is_awaited();
        if begins {
            self.service.begin(wire);
        }
        begins
    }

    /// Ends the connection: its wire.
    pub fn close(&mut self) -> Option<MemWire> {
        self.service.close()
    }

    /// Steps until one doesn't go: what it came to.
    pub fn go_on(&mut self) -> Served<MemWire> {
        for _step in 0..STEPS {
            match self.service.step(&mut self.console, &mut self.look) {
                Served::Went => {}
                other => return other,
            }
        }
        Served::Went
    }

    /// Answers the oldest unanswered request.
    pub fn answer(&mut self) {
        self.answers = self.answers.saturating_add(1);
        answer(
            &mut self.console,
            &mut self.inbox,
            &mut self.outbox,
            self.answers,
        );
    }

    /// Takes steps until the connection has ended and its requests are answered: its wire. A request is answered when nothing
    /// can be done.
    pub fn finish(&mut self) -> Option<MemWire> {
        let mut last = None;
        for _step in 0..STEPS {
            match self.go_on() {
                Served::Closed(wire) => last = Some(wire),
                Served::Over => return last,
                Served::Idle | Served::Went => self.answer(),
            }
        }
        None
    }

    /// How many requests were sent.
    pub fn sent(&mut self) -> u64 {
        match self.console.send(Want::Do(Action::Ack(AlarmId(0)))) {
            Ok(serial) => serial.saturating_sub(1),
            Err(_) => u64::MAX,
        }
    }
}
