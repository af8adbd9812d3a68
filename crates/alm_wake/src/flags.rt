//! What the threads signal to each other besides the rings.

ghost use Rattle.std.specs.Prelude.{◌≡◌};

use crate::awaited::Awaited;
use crate::bell::Bell;
use crate::bells::Bells;
use crate::thread_bell::ThreadBell;
use alm_types::Slot;
use std::sync::Wait;
use std::sync::atomic::{AtomicBool, AtomicU64, AtomicUsize, Ordering};
use std::thread;

/// What the threads signal to each other besides the rings: hints, on which no contract depends.
#[derive(Drop)]
pub struct Flags<B: Bell + Drop> {
    /// No source gets another turn.
    pub(crate) stop: AtomicBool,
    /// A sealed batch is on its way, or held.
    pub(crate) out: AtomicBool,
    /// How many batches were sealed.
    pub(crate) batches: AtomicU64,
    /// At least two batches were queued when the last one was answered.
    pub(crate) busy: AtomicBool,
    /// The open batch is about to be sealed: the flusher's thread was woken ahead of it.
    pub(crate) near: AtomicBool,
    /// No further batch is sealed.
    pub(crate) sealed: AtomicBool,
    /// How many sources have ended.
    pub(crate) ended: AtomicUsize,
    /// Wakes the sequencer's thread.
    pub(crate) sequencer: ThreadBell,
    /// The slots that the sequencer's thread waits for.
    pub(crate) awaited: Awaited,
    /// Wakes the flusher's thread.
    pub(crate) flusher: ThreadBell,
    /// The flusher's thread waits for a slot to receive.
    pub(crate) full: AtomicBool,
    /// Wake the slots' threads.
    pub(crate) slots: Bells<B>,
}

impl<B: Bell + Drop> Flags<B> {
    /// No flag is set yet.
    pub fn new(slots: Bells<B>) -> Self
        ensures { result.slots ≡ slots }
    {
        Flags {
            stop: AtomicBool::new(false),
            out: AtomicBool::new(false),
            batches: AtomicU64::new(0),
            busy: AtomicBool::new(false),
            near: AtomicBool::new(false),
            sealed: AtomicBool::new(false),
            ended: AtomicUsize::new(0),
            sequencer: ThreadBell::new(),
            awaited: Awaited::new(),
            flusher: ThreadBell::new(),
            full: AtomicBool::new(false),
            slots,
        }
    }

    /// A slot may have sent something. The sequencer's thread is woken if it waits for any slot, or for this one as one of the
    /// last. Then the flusher's thread is woken too, so that it is awake as their batch comes.
    pub fn send(&self, slot: Slot) {
        self.sequencer.ring();
        if self.awaited.come(slot) {
            self.sequencer.wake();
            self.near.store(true, Ordering::SeqCst);
            self.flusher.ring();
        }
    }

    /// A slot may have received something: the flusher's thread is woken if it waits for that.
    pub fn receive(&self) {
        if self.full.load(Ordering::SeqCst) {
            self.full.store(false, Ordering::SeqCst);
            self.flusher.ring();
        }
    }

    /// A slot's thread waits by the slot's bell, after `idle` turns in a row without work. Without a bell it lets others run.
    pub fn rest<R: Wait>(&self, rt: &R, slot: Slot, idle: u32) {
        match self.slots.of(slot) {
            Some(bell) => bell.wait(rt, idle),
            None => thread::yield_now(),
        }
    }

    /// A source has ended.
    pub fn end_source(&self) {
        self.ended.fetch_add(1, Ordering::SeqCst);
        self.sequencer.ring();
    }

    /// No further batch is sealed: the flusher's thread ends after those that were.
    pub fn end_sealing(&self) {
        self.sealed.store(true, Ordering::SeqCst);
        self.flusher.ring();
    }

    /// Stops all threads, each before its next turn.
    pub fn stop_all(&self) {
        self.stop.store(true, Ordering::SeqCst);
        self.sequencer.ring();
        self.flusher.ring();
        self.slots.ring_all();
    }

    /// Whether all threads are to stop.
    pub fn is_stopped(&self) -> bool {
        self.stop.load(Ordering::SeqCst)
    }
}
