//! What ends a thread that waits.

use alm_file::PauseBetween;
use std::sync::Wait;
use std::sync::atomic::{AtomicBool, Ordering};
use std::thread::Parker;
use std::time::Duration;

/// How long the pause between two pieces of a device is, in milliseconds.
const PAUSE: u64 = 2;

/// What ends a thread that waits, and by which it waits.
#[derive(Drop)]
pub struct Stopper<'r, R> {
    rt: &'r R,
    stopped: AtomicBool,
    parker: Parker,
}

impl<'r, R> Stopper<'r, R> {
    /// The thread is to go on.
    pub fn new(rt: &'r R) -> Self {
        Stopper {
            rt,
            stopped: AtomicBool::new(false),
            parker: Parker::new(),
        }
    }

    /// The thread is to end. If it waits, it wakes.
    pub fn stop(&self) {
        self.stopped.store(true, Ordering::SeqCst);
        self.parker.unpark();
    }

    /// Whether the thread is to go on.
    pub fn goes_on(&self) -> bool {
        !self.stopped.load(Ordering::SeqCst)
    }
}

impl<R: Wait> Stopper<'_, R> {
    /// Waits for a time at most: whether the thread is to go on.
    pub fn wait(&self, time: Duration) -> bool {
        if self.goes_on() {
            self.parker.park_timeout(self.rt, time);
        }
        self.goes_on()
    }
}

impl<R: Wait> PauseBetween for Stopper<'_, R> {
    fn pause(&self) -> bool {
        self.wait(Duration::from_millis(PAUSE))
    }
}
