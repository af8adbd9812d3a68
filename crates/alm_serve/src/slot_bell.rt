//! What wakes the thread of a slot that waits for its sockets.

use alm_wake::Bell;
use mio::{Registry, Token, Waker};
use std::alloc::{AllocError, Global};
use std::io;
use std::sync::atomic::{AtomicBool, Ordering};
use std::sync::{Arc, Wait};

/// What wakes the thread of a slot that waits for its sockets. It is rung by a load alone while that thread is awake.
#[derive(Drop)]
pub struct SlotBell {
    listens: Arc<AtomicBool>,
    waker: Arc<Waker>,
}

impl SlotBell {
    /// The bell of the thread that polls these sockets.
    pub fn new(alloc: Global, registry: &Registry, token: Token) -> io::Result<Self> {
        Ok(SlotBell {
            listens: Arc::new(alloc, AtomicBool::new(false))?,
            waker: Arc::new(alloc, Waker::new(registry, token)?)?,
        })
    }

    /// From now on it wakes the next poll. Work that came before may not have rung: check once more before polling.
    pub fn listen(&self) {
        self.listens.store(true, Ordering::SeqCst);
    }

    /// Whether it would wake the next poll.
    pub fn listens(&self) -> bool {
        self.listens.load(Ordering::SeqCst)
    }

    /// The thread is awake.
    pub fn attend(&self) {
        self.listens.store(false, Ordering::SeqCst);
    }
}

// The same bell.
impl Clone for SlotBell {
    fn clone(&self) -> Result<Self, AllocError> {
        Ok(SlotBell {
            listens: self.listens.clone()?,
            waker: self.waker.clone()?,
        })
    }
}

impl Bell for SlotBell {
    // A poll ends by itself after a while, so a lost wake does no harm.
    fn ring(&self) {
        if self.listens() {
            self.attend();
            let _ = self.waker.wake();
        }
    }

    // The thread waits in its source, for its sockets too.
    fn wait<R: Wait>(&self, _rt: &R, _idle: u32) {}
}
