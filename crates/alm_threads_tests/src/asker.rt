//! A source that asks for what is always accepted.

use crate::notes::Notes;
use alm_board::FreeLook;
use alm_rings::{Console, Told};
use alm_threads::{Go, Source};
use alm_types::{Action, AlarmId, Moment, Reading, Slot, Want};
use std::alloc::Global;
use std::sync::Arc;
use std::sync::atomic::Ordering;

/// When it has asked enough.
#[derive(Clone, Copy, Debug)]
pub enum Enough {
    /// After a number of requests.
    Requests(u64),
    /// After a number of looks were shown to others.
    Looks(u64),
}

/// Asks for what is always accepted, with a number of requests unanswered, each slot of an alarm of its own.
#[derive(Drop)]
pub struct Asker {
    slot: Slot,
    // How many it has out at most.
    out: u64,
    enough: Enough,
    sent: u64,
    notes: Arc<Notes, Global>,
}

impl Asker {
    /// A slot's asker that has sent nothing.
    pub fn new(slot: Slot, out: u64, enough: Enough, notes: Arc<Notes, Global>) -> Self {
        Asker {
            slot,
            out,
            enough,
            sent: 0,
            notes,
        }
    }

    // A console takes its alarm out of service and back, the feed lets its alarm come and go, and the clock moves by a second.
    fn next(&self) -> Action {
        let number = self.slot.number();
        let alarm = AlarmId(u32::from(number));
        let odd = self.sent % 2 == 0;
        let value = Reading::new(if odd { 1000 } else { 0 });
        match (number, value, Moment::new(self.sent % (1 << 40) + 1)) {
            (16, Some(reading), _) => Action::Value(alarm, reading),
            (17, _, Some(moment)) => Action::Clock(moment),
            _ => Action::Oos(alarm, odd),
        }
    }

    fn has_enough(&self) -> bool {
        match self.enough {
            Enough::Requests(number) => self.sent >= number,
            Enough::Looks(number) => self.notes.shown.load(Ordering::SeqCst) >= number,
        }
    }
}

impl<T: Told + Drop, L: FreeLook<Told = T>> Source<T, L> for Asker {
    ghost use Rattle.std.specs.Prelude.{None};

    ghost slot = { λ _. None };

    fn turn(&mut self, console: &mut Console<T>, look: &mut L) -> Go {
        let mut go = Go::Rest;
        if let Some(receipt) = console.receive() {
            look.learn(receipt);
            go = Go::Go;
        }
        if self.has_enough() {
            if console.unanswered() == 0 {
                go = Go::End;
            }
        } else if console.unanswered() < self.out && console.send(Want::Do(self.next())).is_ok() {
            self.sent = self.sent.wrapping_add(1);
            go = Go::Go;
        }
        go
    }
}
