//! Out of memory on the board that threads share: run with each allocation refused in turn (`rt try --test --fail-alloc N`), the
//! test of this module passes. One is refused at most, so what was refused succeeds the second time.

ghost use Rattle.std.specs.Prelude.{◌≡◌, ◌≤◌};
ghost use Rattle.alm_types.specs.Sizes.{most_actions};
ghost use Rattle.alm_moments.specs.Naming.{IsNamedAfter};

use crate::all_slots::all_slots;
use crate::devices::{SMALL, formatted_with};
use crate::refusals::seals;
use alm_board::{Board, Look, Publish};
use alm_desk::worked_table;
use alm_disk::{Free, MemDisk};
use alm_flush::{Advance, Fetch, Publishes};
use alm_keeper::{Keeper, Phase};
use alm_model::Alarms;
use alm_moments::{Moments, RunId};
use alm_plant::Plant;
use alm_rings::Told;
use alm_shared::{Durable, NewRun, SharedBoard, SharedLook};
use alm_store::Store;
use alm_threads::{
    Closes, FlusherParts, Middle, Parts, RecordedFlusher, Rings, WatchedLook, parts_of,
};
use alm_types::{AlarmId, Answer, Query, Refusal, Slot};
use std::alloc::Global;
use std::marker::Brand;
use std::sync::Wait;
use std::test::Fail;

/// What a publish of one action answers, and then a look; and the same of another publish.
pub type Course = [(Publishes, Option<Result<u64, Refusal>>); 2];

/// It is published immediately.
const AT_ONCE: Course = [
    (Publishes::Published, Some(Ok(1))),
    (Publishes::NotYet, Some(Ok(1))),
];

/// It found no memory, and is not shown before it is published.
const LATER: Course = [
    (Publishes::OutOfMemory, Some(Ok(0))),
    (Publishes::Published, Some(Ok(1))),
];

/// Commits what is sealed: whether that succeeds.
fn commits<K: Store, T: Told + Drop, B: Board<Told = T>, J: RunId>(
    flusher: &mut RecordedFlusher<K, T, B, J>,
) -> bool {
    if flusher.fetch() != Fetch::Got {
        return false;
    }
    for _call in 0..4 {
        if flusher.advance() == Advance::Committed {
            return true;
        }
    }
    false
}

/// Publishes what is committed, and looks.
fn shows<
    K: Store,
    T: Told + Drop,
    B: Board<Told = T> + Publish<R, Moments<J>>,
    J: RunId,
    L: Look,
    R: Wait,
>(
    rt: &R,
    flusher: &mut RecordedFlusher<K, T, B, J>,
    looks: &mut [L],
    answer: &mut Answer,
) -> (Publishes, Option<Result<u64, Refusal>>) {
    let told = flusher.publish::<R>(rt);
    let shown = match looks.first_mut() {
        Some(look) => Some(look.look(Query::State(AlarmId(0)), answer)),
        None => None,
    };
    (told, shown)
}

/// The course of this many actions that are sealed together, over a board and a look at it.
fn course_of<
    T: Told + Drop,
    L: Look<Told = T> + Drop,
    B: Board<Told = T> + Publish<R, Moments<J>> + Closes<R>,
    K: Store,
    J: RunId,
    R: Wait,
>(
    rt: &R,
    parts: Parts<T, L, B, K, J>,
    clock: Slot,
    size: u16,
    answer: &mut Answer,
) -> Option<Course> {
    let Parts {
        slots: _,
        consoles: _,
        mut looks,
        board,
        middle,
    } = parts;
    let Middle {
        plant: _,
        rings,
        flusher,
        recorder,
    } = middle;
    let Rings {
        inboxes: _,
        mut ends,
    } = rings;
    let FlusherParts {
        store,
        outboxes,
        fetch,
    } = flusher;
    let sealed = seals(&mut ends, clock, size);
    let mut flusher = RecordedFlusher::new(store, board, outboxes, fetch, recorder);
    let committed = sealed && commits(&mut flusher);
    let first = shows(rt, &mut flusher, &mut looks, answer);
    let second = shows(rt, &mut flusher, &mut looks, answer);
    let (board, _parts, _moments) = flusher.into_ends();
    board.close(rt);
    if committed {
        Some([first, second])
    } else {
        None
    }
}

/// The same over the parts of a run, with any plant.
fn course_by<'h, J: RunId, P: Alarms + Drop, K: Store, R: Wait>(
    rt: &R,
    parts: Parts<Durable<J>, WatchedLook<'h, SharedLook<J, P>, Free>, SharedBoard<J, P>, K, J>,
    clock: Slot,
    size: u16,
    answer: &mut Answer,
) -> Option<Course> {
    course_of(rt, parts, clock, size, answer)
}

/// The same over a new shared board, if there was memory for it and for the ends.
fn course_over<J: RunId, K: Store, R: Wait>(
    rt: &R,
    alloc: Global,
    new: NewRun,
    store: K,
    size: u16,
) -> Option<Course>
    requires books { (new.history.seen.book ≡ J.book) × (new.moments.seen.book ≡ J.moments) }
    requires named { IsNamedAfter J.RunId K.Store K.Device.Disk store }
    requires idle { (K.state store).phase ≡ Phase.Idle }
    requires limit { (K.state store).stored.panel.count ≤ most_actions }
{
    let mut answer = Answer::new(alloc);
    let clock = Slot::new(17)?;
    let slots = all_slots(alloc).ok()?;
    match parts_of::<J, K, Free, R>(rt, alloc, new, store, slots, &Free) {
        Ok(parts) => course_by::<J, Plant, K, R>(rt, parts, clock, size, &mut answer),
        Err(_) => None,
    }
}

/// The same over a device.
fn course_on<K: Store, R: Wait>(
    rt: &R,
    alloc: Global,
    disk: K::Device,
    size: u16,
) -> Option<Course> {
    match K::open(alloc, disk) {
        Ok(store) => {
            let new = NewRun::new();
            course_over::<Brand, K, R>(rt, alloc, new, store, size)
        }
        Err(_) => None,
    }
}

/// The same over a new device that has this many bytes.
pub fn course<R: Wait>(rt: &R, alloc: Global, bytes: usize, size: u16) -> Option<Course> {
    let table = worked_table(alloc).ok()?;
    let disk = formatted_with(alloc, &table, bytes)?;
    course_on::<Keeper<MemDisk>, R>(rt, alloc, disk, size)
}

#[test]
fn a_publish_without_memory_shows_nothing_until_it_goes_on(rt: HostRuntime) -> Result<(), Fail> {
    let seen = match course(&rt, rt.alloc(), SMALL, 1) {
        Some(seen) => seen,
        None => course(&rt, rt.alloc(), SMALL, 1).ok_or("refused twice")?,
    };
    assert!(rt; seen == AT_ONCE || seen == LATER);
    Ok(())
}
