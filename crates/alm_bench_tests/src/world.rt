//! The world that a bench is compared with: plain vectors, and the plant of all accepted actions.

use alm_bench::{Step, StepEvent};
use alm_model::{Alarms, judge};
use alm_types::{Action, AlarmId, Query, Request, Slot, Table, Verdict, Want};
use std::alloc::{AllocError, Global};

/// What one slot sent, and the places of the entries whose verdicts were released to it.
#[derive(Drop)]
struct Line {
    sent: Vec<Want>,
    taken: usize,
    released: Vec<usize>,
    received: usize,
}

/// A request that was judged, and the count of the plant then.
#[derive(Clone, Copy)]
struct Judged {
    slot: Slot,
    serial: u64,
    verdict: Verdict,
    number: u64,
}

/// What becomes of the fetched batch.
#[derive(Clone, Copy, PartialEq, Eq)]
enum Stage {
    Nothing,
    /// The number of device calls of its commit so far.
    Held(u32),
    Stored,
    /// The number of its verdicts that are released.
    Shown(usize),
}

/// The world.
#[derive(Drop)]
pub struct World<P: Alarms + Drop> {
    alloc: Global,
    table: Table,
    plant: P,
    accepted: Vec<Action>,
    lines: Vec<Line>,
    entries: Vec<Judged>,
    /// The end of each sealed batch among the entries, and how many of them were fetched and returned.
    ends: Vec<usize>,
    fetched: usize,
    given: usize,
    stage: Stage,
    stored: u64,
    published: u64,
    floor: u64,
    closed: bool,
    /// How many calls of a checkpoint may precede the calls of a commit.
    before: u32,
    /// Counts that a closed device may have.
    sure: u64,
    may: u64,
}

/// How many device calls a commit takes, without those of a checkpoint before it.
const COMMIT: u32 = 4;

/// The lines of all slots, on which nothing was sent.
fn lines(alloc: Global) -> Result<Vec<Line>, AllocError> {
    let mut lines = Vec::new(alloc);
    for _slot in 0..18 {
        lines.push(Line {
            sent: Vec::new(alloc),
            taken: 0,
            released: Vec::new(alloc),
            received: 0,
        })?;
    }
    Ok(lines)
}

/// Whether the worked table has what a query asks for.
fn exists(query: &Query) -> bool {
    match query {
        Query::State(AlarmId(alarm))
        | Query::Attributes(AlarmId(alarm))
        | Query::Row(AlarmId(alarm)) => *alarm < 4,
        Query::Priority(priority) => *priority >= 1 && *priority <= 4,
        Query::Area(area) => *area < 2,
        Query::Flood(area) => *area < 2,
        Query::Wheel(slot) => *slot < 256,
        Query::Stale | Query::Chatter | Query::Plant => true,
    }
}

impl<P: Alarms + Drop> World<P> {
    /// A closed world with the new plant of a table, in which no checkpoint is made.
    pub fn new(alloc: Global, table: Table) -> Result<Self, AllocError> {
        Self::with_checkpoints(alloc, table, 0)
    }

    /// The same, in which `before` calls of a checkpoint may precede the calls of a commit.
    pub fn with_checkpoints(alloc: Global, table: Table, before: u32) -> Result<Self, AllocError> {
        Ok(World {
            alloc,
            plant: P::new(alloc, &table)?,
            table,
            accepted: Vec::new(alloc),
            lines: lines(alloc)?,
            entries: Vec::new(alloc),
            ends: Vec::new(alloc),
            fetched: 0,
            given: 0,
            stage: Stage::Nothing,
            stored: 0,
            published: 0,
            floor: 0,
            closed: true,
            before,
            sure: 0,
            may: 0,
        })
    }

    /// What a step answers, if this was seen: it decides which image a crash left, if there are two, and how many calls of a
    /// checkpoint there were.
    pub fn answers(&mut self, step: &Step, seen: StepEvent) -> Result<StepEvent, AllocError> {
        match step {
            Step::Crash(bytes) => Ok(self.crash(bytes.is_empty())),
            Step::Reopen => self.reopen(seen),
            open => {
                if self.closed {
                    Ok(StepEvent::Skipped)
                } else {
                    self.goes(open, seen)
                }
            }
        }
    }

    fn goes(&mut self, step: &Step, seen: StepEvent) -> Result<StepEvent, AllocError> {
        match step {
            Step::Send(slot, want) => self.send(*slot, *want),
            Step::Take(slot) => self.take(*slot),
            Step::Seal => self.seal(),
            Step::Fetch => Ok(self.fetch()),
            Step::Call => Ok(self.call(seen)),
            Step::Publish => Ok(self.publish()),
            Step::Release => self.release(),
            Step::GiveBack => Ok(self.give_back()),
            Step::Receive(slot) => Ok(self.receive(*slot)),
            Step::Look(_, query) => Ok(self.look(query)),
            Step::Crash(_) => Ok(StepEvent::Skipped),
            Step::Reopen => Ok(StepEvent::Skipped),
        }
    }

    fn send(&mut self, slot: Slot, want: Want) -> Result<StepEvent, AllocError> {
        let Some(line) = self.lines.get_mut(slot.number() as usize) else {
            return Ok(StepEvent::Skipped);
        };
        if line.sent.len() >= line.received.wrapping_add(64) {
            return Ok(StepEvent::Busy);
        }
        line.sent.push(want)?;
        Ok(StepEvent::Sent(line.sent.len() as u64))
    }

    /// The start of the open batch.
    fn open(&self) -> usize {
        self.ends.last().copied().unwrap_or(0)
    }

    fn take(&mut self, slot: Slot) -> Result<StepEvent, AllocError> {
        if self.entries.len() >= self.open().wrapping_add(256) {
            return Ok(StepEvent::Skipped);
        }
        let Some(line) = self.lines.get_mut(slot.number() as usize) else {
            return Ok(StepEvent::Skipped);
        };
        let Some(want) = line.sent.get(line.taken) else {
            return Ok(StepEvent::Skipped);
        };
        let request = Request { slot, want: *want };
        line.taken = line.taken.wrapping_add(1);
        let serial = line.taken as u64;
        let verdict = judge(&mut self.plant, request);
        if let Verdict::Accepted(action) = &verdict {
            self.accepted.push(*action)?;
        }
        self.entries.push(Judged {
            slot,
            serial,
            verdict,
            number: self.plant.count(),
        })?;
        Ok(StepEvent::Took(verdict))
    }

    fn seal(&mut self) -> Result<StepEvent, AllocError> {
        let out = self.ends.len().wrapping_sub(self.given);
        if self.entries.len() == self.open() || out >= 7 {
            return Ok(StepEvent::Skipped);
        }
        self.ends.push(self.entries.len())?;
        Ok(StepEvent::Sealed)
    }

    fn fetch(&mut self) -> StepEvent {
        if self.stage != Stage::Nothing || self.fetched == self.ends.len() {
            return StepEvent::Skipped;
        }
        self.fetched = self.fetched.wrapping_add(1);
        self.stage = Stage::Held(0);
        StepEvent::Fetched
    }

    /// The entries of the fetched batch, from one place to another.
    fn held(&self) -> (usize, usize) {
        let from = self.ends.get(self.fetched.wrapping_sub(2)).copied();
        let to = self.ends.get(self.fetched.wrapping_sub(1)).copied();
        (from.unwrap_or(0), to.unwrap_or(0))
    }

    /// The count of the plant with all of the fetched batch.
    fn last_number(&self) -> u64 {
        let (_, to) = self.held();
        match self.entries.get(to.wrapping_sub(1)) {
            Some(entry) => entry.number,
            None => 0,
        }
    }

    fn call(&mut self, seen: StepEvent) -> StepEvent {
        let Stage::Held(made) = self.stage else {
            return self.call_without_a_batch(seen);
        };
        let made = made.wrapping_add(1);
        let last = self.last_number();
        let may_end = made >= COMMIT && seen == StepEvent::Committed;
        if last == self.stored || may_end || made == self.before.wrapping_add(COMMIT) {
            self.stored = last;
            self.stage = Stage::Stored;
            return StepEvent::Committed;
        }
        self.stage = Stage::Held(made);
        StepEvent::More
    }

    /// A checkpoint may continue.
    fn call_without_a_batch(&self, seen: StepEvent) -> StepEvent {
        if self.before > 0 && seen == StepEvent::More {
            StepEvent::More
        } else {
            StepEvent::Skipped
        }
    }

    fn publish(&mut self) -> StepEvent {
        if self.stage != Stage::Stored {
            return StepEvent::Skipped;
        }
        self.published = self.last_number();
        self.stage = Stage::Shown(0);
        StepEvent::Published
    }

    fn release(&mut self) -> Result<StepEvent, AllocError> {
        let Stage::Shown(released) = self.stage else {
            return Ok(StepEvent::Skipped);
        };
        let (from, to) = self.held();
        let place = from.wrapping_add(released);
        if place >= to {
            return Ok(StepEvent::Skipped);
        }
        let Some(entry) = self.entries.get(place) else {
            return Ok(StepEvent::Skipped);
        };
        let (slot, number) = (entry.slot, entry.number);
        if let Some(line) = self.lines.get_mut(slot.number() as usize) {
            line.released.push(place)?;
        }
        self.floor = self.floor.max(number);
        self.stage = Stage::Shown(released.wrapping_add(1));
        Ok(StepEvent::Released(slot))
    }

    fn give_back(&mut self) -> StepEvent {
        let Stage::Shown(released) = self.stage else {
            return StepEvent::Skipped;
        };
        let (from, to) = self.held();
        if from.wrapping_add(released) < to {
            return StepEvent::Skipped;
        }
        self.given = self.given.wrapping_add(1);
        self.stage = Stage::Nothing;
        StepEvent::GaveBack
    }

    fn receive(&mut self, slot: Slot) -> StepEvent {
        let Some(line) = self.lines.get_mut(slot.number() as usize) else {
            return StepEvent::Skipped;
        };
        let Some(place) = line.released.get(line.received) else {
            return StepEvent::Skipped;
        };
        line.received = line.received.wrapping_add(1);
        match self.entries.get(*place) {
            Some(entry) => StepEvent::Received(entry.serial, entry.verdict, entry.number),
            None => StepEvent::Skipped,
        }
    }

    fn look(&mut self, query: &Query) -> StepEvent {
        if !exists(query) {
            return StepEvent::Skipped;
        }
        self.floor = self.floor.max(self.published);
        StepEvent::Looked(self.published)
    }

    fn is_before_the_last_call(&self) -> bool {
        match self.stage {
            Stage::Held(made) => made >= COMMIT - 1,
            _ => false,
        }
    }

    /// The power fails; the pending bytes stay as they read, or some of them become other bytes.
    fn crash(&mut self, as_read: bool) -> StepEvent {
        if !self.closed {
            self.sure = self.stored;
            self.may = self.stored;
            // The gate of the batch may be written, and not yet synced.
            if self.is_before_the_last_call() {
                self.may = self.last_number();
                if as_read && self.before == 0 {
                    self.sure = self.may;
                }
            }
        }
        self.closed = true;
        StepEvent::Crashed
    }

    /// All except the accepted actions that were recovered is lost.
    fn reopen(&mut self, seen: StepEvent) -> Result<StepEvent, AllocError> {
        if !self.closed {
            return Ok(StepEvent::Skipped);
        }
        let count = if seen == StepEvent::Opened(self.may) {
            self.may
        } else {
            self.sure
        };
        if count < self.floor {
            return Ok(StepEvent::Skipped);
        }
        self.refold(count)?;
        self.lines = lines(self.alloc)?;
        self.entries = Vec::new(self.alloc);
        self.ends = Vec::new(self.alloc);
        self.fetched = 0;
        self.given = 0;
        self.stage = Stage::Nothing;
        self.stored = count;
        self.published = count;
        self.closed = false;
        Ok(StepEvent::Opened(count))
    }

    /// The plant of the first accepted actions.
    fn refold(&mut self, count: u64) -> Result<(), AllocError> {
        self.plant = P::new(self.alloc, &self.table)?;
        self.accepted.truncate(count as usize);
        for action in &self.accepted {
            if self.plant.admits(action).is_ok() {
                self.plant.apply(action);
            }
        }
        Ok(())
    }
}
