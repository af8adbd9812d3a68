//! A source that only makes looks.

use crate::notes::Notes;
use alm_board::FreeLook;
use alm_rings::{Console, Told};
use alm_threads::{Go, Source};
use alm_types::{AlarmId, Answer, Query};
use std::alloc::Global;
use std::sync::Arc;
use std::sync::atomic::Ordering;

/// How many looks it makes in a turn.
const LOOKS: u64 = 100;

/// Looks at an alarm, some hundreds of times.
#[derive(Drop)]
pub struct Looker {
    left: u64,
    answer: Answer,
    notes: Arc<Notes, Global>,
}

impl Looker {
    /// One that is to look `hundreds` hundred times.
    pub fn new(alloc: Global, hundreds: u64, notes: Arc<Notes, Global>) -> Self {
        Looker {
            left: hundreds,
            answer: Answer::new(alloc),
            notes,
        }
    }
}

impl<T: Told + Drop, L: FreeLook<Told = T>> Source<T, L> for Looker {
    ghost use Rattle.std.specs.Prelude.{None};

    ghost slot = { λ _. None };

    fn turn(&mut self, _console: &mut Console<T>, look: &mut L) -> Go {
        if self.left == 0 {
            return Go::End;
        }
        self.left -= 1;
        for _ in 0..LOOKS {
            if look
                .look(Query::State(AlarmId(0)), &mut self.answer)
                .is_err()
            {
                self.notes.is_wrong();
            }
        }
        self.notes.shown.fetch_add(LOOKS, Ordering::SeqCst);
        Go::Go
    }
}
