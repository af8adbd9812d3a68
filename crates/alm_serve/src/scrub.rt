//! Scrubs the device of a run.

use crate::found::{Found, print_found};
use crate::stopper::Stopper;
use alm_disk::Disk;
use alm_file::{PauseBetween, ScrubFile, ScrubRead};
use alm_keeper::open_store;
use alm_wake::Healing;
use std::alloc::Global;
use std::io::{self, Print};
use std::sync::Wait;
use std::time::Duration;

/// How many looks in a row may find damage with other heads each.
const LOOKS: u32 = 8;

/// How many looks wait until the device is whole again. After each `CHECKPOINT` of them one more checkpoint is asked for: the second
/// one writes the other half too.
const HEALS: u32 = 60;

const CHECKPOINT: u32 = 20;

/// How many seconds lie between these looks.
const BETWEEN: u64 = 1;

/// Scrubs the device of a run. Its file is read again each time after some seconds, past what the kernel keeps of it. If it
/// is damaged, or lacks what was stored before, a checkpoint is asked for: it writes the plant that the run has in memory.
#[derive(Drop)]
pub struct Scrub<'r, R> {
    rt: &'r R,
    file: ScrubFile,
    seconds: u32,
    stop: Stopper<'r, R>,
    healing: Healing,
}

/// What a look found, and the sum over the heads that it read.
#[derive(Clone, Copy)]
struct Look {
    found: Found,
    heads: u64,
}

// Opens a device again, on which `stored` actions are known to be stored.
fn look_at<P: PauseBetween>(alloc: Global, file: ScrubRead<'_, P>, stored: u64) -> Look {
    match open_store(alloc, file) {
        Ok(keeper) => {
            let count = keeper.count();
            let heads = keeper.into_disk().heads();
            let found = if count < stored {
                Found::Older(count)
            } else {
                Found::Whole
            };
            Look { found, heads }
        }
        Err((fault, file)) => Look {
            found: Found::of(fault),
            heads: file.heads(),
        },
    }
}

impl<'r, R> Scrub<'r, R> {
    /// Of the device's file, each time after a number of seconds.
    pub fn new(rt: &'r R, file: ScrubFile, seconds: u32) -> Self {
        Scrub {
            rt,
            file,
            seconds,
            stop: Stopper::new(rt),
            healing: Healing::new(),
        }
    }

    /// What it and the run signal to each other.
    pub fn healing(&self) -> &Healing {
        &self.healing
    }

    /// Ends it.
    pub fn stop(&self) {
        self.stop.stop();
    }
}

impl<R: Print> Scrub<'_, R> {
    // A line that can't be printed is left out.
    fn print(&self, found: Found) {
        let _ = print_found(found, &mut io::writer(self.rt));
    }
}

impl<R: Print + Wait + AllocGlobal> Scrub<'_, R> {
    /// Scrubs until it is stopped.
    pub fn run(&self) {
        for _ in self.rt.forever() {
            if !self.stop.wait(Duration::from_secs(u64::from(self.seconds))) {
                break;
            }
            if let Some(found) = self.damage() {
                self.heal(found);
            }
        }
    }

    // A look at the device. What is stored is asked before it.
    fn look(&self) -> Look {
        let stored = self.healing.stored();
        let look = match self.file.read(&self.stop) {
            Ok(file) => look_at(self.rt.alloc(), file, stored),
            Err(_) => Look {
                found: Found::Nothing,
                heads: 0,
            },
        };
        if self.stop.goes_on() {
            look
        } else {
            Look {
                found: Found::Nothing,
                heads: look.heads,
            }
        }
    }

    // Damage that two looks in a row find, between which no checkpoint has ended.
    fn damage(&self) -> Option<Found> {
        let mut before = self.look();
        for _ in 0..LOOKS {
            if !before.found.is_damage() || !self.stop.wait(Duration::from_secs(BETWEEN)) {
                return None;
            }
            let now = self.look();
            if now.found.is_damage() && now.heads == before.heads {
                return Some(now.found);
            }
            before = now;
        }
        None
    }

    // Says what was found, asks for checkpoints, and says once the device is whole.
    fn heal(&self, found: Found) {
        self.print(found);
        for number in 0..HEALS {
            if number % CHECKPOINT == 0 {
                self.healing.ask();
            }
            if !self.stop.wait(Duration::from_secs(BETWEEN)) {
                return;
            }
            let found = self.look().found;
            if found == Found::Whole {
                self.print(found);
                return;
            }
        }
    }
}
