//! A bell that one thread sleeps by.
ghost use Rattle.std.specs.Prelude.{◌≤◌, IfSome};

use crate::bell::Bell;
use crate::bounds::{SLEEP, YIELDS};
use crate::commit_time::micros_since;
use crate::pause::Pause;
use std::sync::Wait;
use std::sync::atomic::{AtomicBool, Ordering};
use std::thread;
use std::thread::Parker;
use std::time::{Clock, Duration, Instant};

/// A bell that one thread sleeps by. Ringing it is only a load while that thread is busy.
#[derive(Drop)]
pub struct ThreadBell {
    // The thread sleeps, or checks a last time before it does.
    listens: AtomicBool,
    parker: Parker,
}

impl ThreadBell {
    /// One that no thread listens to.
    pub fn new() -> Self {
        ThreadBell {
            listens: AtomicBool::new(false),
            parker: Parker::new(),
        }
    }

    /// Rings have no effect from now on, and one that came before is forgotten: its token, or this one, is taken without a sleep.
    pub fn hush<R: Wait>(&self, rt: &R) {
        self.listens.store(false, Ordering::SeqCst);
        self.parker.unpark();
        self.parker.park_timeout(rt, Duration::from_micros(0));
    }

    /// Sleeps until it is woken, at most for the pause, which it consumes, and returns the rest; none if the clock can't be read.
    pub fn sleep<R: Wait + Clock>(&self, rt: &R, pause: Pause) -> Option<Pause>
        ensures { IfSome result (λ left. left.micros ≤ pause.micros) }
    {
        let began = Instant::now(rt).ok();
        self.parker
            .park_timeout(rt, Duration::from_micros(pause.micros()));
        pause.after(micros_since(rt, began?)?)
    }

    /// Sleeps for a pause at most, if rings are to have no effect.
    pub fn doze<R: Wait>(&self, rt: &R, pause: Pause) {
        self.listens.store(false, Ordering::SeqCst);
        self.parker
            .park_timeout(rt, Duration::from_micros(pause.micros()));
    }

    /// Ends its sleep, or the next one, also if rings have no effect.
    pub fn wake(&self) {
        self.parker.unpark();
    }
}

impl Bell for ThreadBell {
    fn ring(&self) {
        if self.listens.load(Ordering::SeqCst) {
            self.listens.store(false, Ordering::SeqCst);
            self.parker.unpark();
        }
    }

    // What comes after it listens is found by the check before the sleep, or rings. A sleep that ended by its time leaves it
    // listening: it checks once, and sleeps again.
    fn wait<R: Wait>(&self, rt: &R, idle: u32) {
        if idle < YIELDS {
            thread::yield_now();
        } else if self.listens.load(Ordering::SeqCst) {
            self.parker.park_timeout(rt, Duration::from_millis(SLEEP));
        } else {
            self.listens.store(true, Ordering::SeqCst);
        }
    }
}
