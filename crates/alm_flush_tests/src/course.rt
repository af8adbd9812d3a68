//! Courses of calls, each with what it answers.

ghost use Rattle.std.specs.Prelude.{◌≡◌, ◌≤◌, IfOk};
ghost use Rattle.alm_types.specs.Sizes.{most_actions};

use crate::opened::open_formatted;
use crate::parts::Parts;
use alm_board::{Board, Look, Seen};
use alm_desk::worked_table;
use alm_disk::MemDisk;
use alm_flush::{Advance, Fetch, Publishes, Release};
use alm_keeper::{Keeper, Stage};
use alm_rings::open_slots;
use alm_seq::{Seal, Take};
use alm_store::Store;
use alm_types::{Action, AlarmId, Answer, Query, Refusal, Shown, Slot, Verdict};
use std::alloc::{AllocError, Global};

/// A call of a part.
#[derive(Clone, Copy, Debug)]
pub enum Call {
    Send(Slot, Action),
    Take(Slot),
    Seal,
    Fetch,
    Advance,
    Heal,
    Publish,
    Release,
    GiveBack,
    Receive(Slot),
    /// Fetches, commits in at most a number of steps, and publishes.
    Store(u64),
    /// A new reader asks for the state of an alarm.
    Look(AlarmId),
}

/// What a call answers.
#[derive(Clone, Copy, Debug, PartialEq, Eq)]
pub enum Outcome {
    /// A serial; `None` if the slot is busy.
    Sent(Option<u64>),
    Took(Take),
    Sealed(Seal),
    Fetched(Fetch),
    Advanced(Advance),
    Healed(bool),
    Published(Publishes),
    Released(Release),
    GaveBack(bool),
    /// A receipt's serial, number and verdict.
    Received(Option<(u64, u64, Verdict)>),
    /// How many steps the commit took.
    Stored(Option<u64>),
    /// A count, and the state that is shown.
    Looked(u64, Shown),
    NotShown(Refusal),
}

impl<K: Store> Parts<K> {
    /// What a new reader sees of an alarm.
    fn look(&self, id: AlarmId, answer: &mut Answer) -> Outcome {
        let mut looker = self.flusher.board().looker(Seen::new());
        match looker.look(Query::State(id), answer) {
            Ok(count) => Outcome::Looked(count, answer.shown),
            Err(refusal) => Outcome::NotShown(refusal),
        }
    }

    fn call(&mut self, call: Call, answer: &mut Answer) -> Outcome {
        match call {
            Call::Send(slot, action) => Outcome::Sent(self.send(slot, action)),
            Call::Take(slot) => Outcome::Took(self.take(slot)),
            Call::Seal => Outcome::Sealed(self.seal()),
            Call::Fetch => Outcome::Fetched(self.flusher.fetch()),
            Call::Advance => Outcome::Advanced(self.flusher.advance()),
            Call::Heal => Outcome::Healed(self.flusher.heal()),
            Call::Publish => Outcome::Published(self.flusher.publish(&(), &())),
            Call::Release => Outcome::Released(self.flusher.release()),
            Call::GiveBack => Outcome::GaveBack(self.flusher.give_back()),
            Call::Receive(slot) => Outcome::Received(match self.receive(slot) {
                Some(receipt) => Some((receipt.serial, receipt.number, receipt.verdict)),
                None => None,
            }),
            Call::Store(most) => Outcome::Stored(self.store(most)),
            Call::Look(id) => self.look(id, answer),
        }
    }

    /// Makes these calls: the place of the first that answers something else.
    pub fn differs_at(&mut self, course: &[(Call, Outcome)], answer: &mut Answer) -> Option<usize> {
        for (place, (call, outcome)) in course.iter().enumerate() {
            if self.call(*call, answer) != *outcome {
                return Some(place);
            }
        }
        None
    }
}

/// What is left when calls have been made.
#[derive(Drop)]
pub struct Played {
    /// The place of the first call that answers something else.
    pub differs_at: Option<usize>,
    /// How many actions are stored.
    pub count: u64,
    pub disk: MemDisk,
}

/// A keeper of a device in memory of a size that is formatted for the worked table, and that may be called a number of
/// times.
pub fn open_worked(alloc: Global, size: usize, calls: usize) -> Result<Keeper<MemDisk>, AllocError>
    ensures idle { IfOk result (λ keeper. keeper.stage ≡ Stage.Idle) }
    ensures limit { IfOk result (λ keeper. keeper.stored.plant.panel.count ≤ most_actions) }
{
    let disk = MemDisk::new(alloc, vec![in alloc; 0u8; size]?, calls)?;
    open_formatted(alloc, &worked_table(alloc)?, disk)
}

/// Makes these calls on new parts over a device of a size that may be called a number of times.
pub fn play(
    alloc: Global,
    size: usize,
    calls: usize,
    course: &[(Call, Outcome)],
) -> Result<Played, AllocError> {
    let store = open_worked(alloc, size, calls)?;
    play_over(alloc, store, course)
}

/// Makes these calls on new parts over a store at rest.
pub fn play_over(
    alloc: Global,
    store: Keeper<MemDisk>,
    course: &[(Call, Outcome)],
) -> Result<Played, AllocError>
    requires idle { store.stage ≡ Stage.Idle }
    requires limit { store.stored.plant.panel.count ≤ most_actions }
{
    let mut answer = Answer::new(alloc);
    let mut parts = Parts::new(alloc, open_slots(alloc)?, store)?;
    let differs_at = parts.differs_at(course, &mut answer);
    let keeper = parts.flusher.into_keeper();
    let count = keeper.count();
    Ok(Played {
        differs_at,
        count,
        disk: keeper.into_disk(),
    })
}

/// The place of the first call that answers something else.
pub fn differs_at(
    alloc: Global,
    size: usize,
    calls: usize,
    course: &[(Call, Outcome)],
) -> Result<Option<usize>, AllocError> {
    let Played { differs_at, .. } = play(alloc, size, calls, course)?;
    Ok(differs_at)
}
