//! A source that sends drawn requests.

use crate::drawn::drawn;
use crate::notes::Notes;
use alm_board::FreeLook;
use alm_rings::{Console, Receipt, Told};
use alm_threads::{Go, Source};
use alm_types::{AlarmId, Answer, Query, Slot, Verdict, Want};
use std::alloc::Global;
use std::sync::Arc;
use std::sync::atomic::Ordering;

/// Sends a number of drawn requests, with as many unanswered as its console takes, looks after each receipt, and notes what is
/// wrong. Wrong is a receipt out of order, of another action or of a smaller number than the last, and a look that is older than
/// what receipts reported.
#[derive(Drop)]
pub struct Caller {
    slot: Slot,
    // How many it sends in all.
    each: u64,
    sent: u64,
    received: u64,
    // The greatest number that was reported to it.
    told: u64,
    answer: Answer,
    notes: Arc<Notes, Global>,
}

impl Caller {
    /// A slot's caller with `each` requests.
    pub fn new(alloc: Global, slot: Slot, each: u64, notes: Arc<Notes, Global>) -> Self {
        Caller {
            slot,
            each,
            sent: 0,
            received: 0,
            told: 0,
            answer: Answer::new(alloc),
            notes,
        }
    }

    fn note<T: Told>(&mut self, receipt: &Receipt<T>) {
        self.received = self.received.wrapping_add(1);
        if receipt.serial != self.received || receipt.number < self.told {
            self.notes.is_wrong();
        }
        if let Verdict::Accepted(action) = receipt.verdict {
            if action != drawn(self.slot, receipt.serial) || receipt.number == self.told {
                self.notes.is_wrong();
            }
            self.notes
                .is_accepted(self.slot, receipt.serial, receipt.number);
        }
        self.told = receipt.number;
        self.notes.is_told(receipt.number);
    }

    fn look<T: Told, L: FreeLook<Told = T>>(&mut self, look: &mut L) {
        match look.look(Query::State(AlarmId(0)), &mut self.answer) {
            Ok(count) => {
                self.notes.shown.fetch_add(1, Ordering::SeqCst);
                if count < self.told {
                    self.notes.is_wrong();
                }
            }
            Err(_) => {
                self.notes.unseen.fetch_add(1, Ordering::SeqCst);
            }
        }
    }
}

impl<T: Told + Drop, L: FreeLook<Told = T>> Source<T, L> for Caller {
    ghost use Rattle.std.specs.Prelude.{None};

    ghost slot = { λ _. None };

    fn turn(&mut self, console: &mut Console<T>, look: &mut L) -> Go {
        let mut go = Go::Rest;
        if let Some(receipt) = console.receive() {
            self.note(&receipt);
            look.learn(receipt);
            self.look(look);
            go = Go::Go;
        }
        if self.sent < self.each {
            if console
                .send(Want::Do(drawn(self.slot, self.sent + 1)))
                .is_ok()
            {
                self.sent += 1;
                go = Go::Go;
            }
        } else if console.unanswered() == 0 {
            go = Go::End;
        }
        go
    }
}
