//! Looks at a shared board whose owner has ended.
ghost use Rattle.std.specs.Prelude.{◌≡◌};
ghost use Rattle.alm_moments.specs.Naming.{IsNamedAfter};

use crate::devices::formatted;
use alm_board::{Look, Recall};
use alm_common_tests::same;
use alm_desk::worked_table;
use alm_disk::MemDisk;
use alm_events::{MOST_TOLD, Recalled};
use alm_keeper::{Keeper, Phase};
use alm_model::Alarms;
use alm_moments::{Recorder, RunId};
use alm_plant::Plant;
use alm_shared::{NewRun, open_board};
use alm_store::Store;
use alm_types::{AlarmId, Answer, Event, Query, Refusal};
use std::alloc::Global;
use std::marker::Brand;
use std::sync::Wait;
use std::test::Fail;

/// Queries of four alarms in two areas, and their answers after the board's owner has ended.
const ASKED: [(Query, Refusal); 17] = [
    (Query::State(AlarmId(3)), Refusal::Stopped),
    (Query::State(AlarmId(4)), Refusal::NoSuchAlarm),
    (Query::Priority(0), Refusal::NoSuchList),
    (Query::Priority(4), Refusal::Stopped),
    (Query::Priority(5), Refusal::NoSuchList),
    (Query::Area(1), Refusal::Stopped),
    (Query::Area(2), Refusal::NoSuchList),
    (Query::Flood(1), Refusal::Stopped),
    (Query::Flood(2), Refusal::NoSuchList),
    (Query::Wheel(255), Refusal::Stopped),
    (Query::Wheel(256), Refusal::NoSuchList),
    (Query::Chatter, Refusal::Stopped),
    (Query::Plant, Refusal::Stopped),
    (Query::Attributes(AlarmId(3)), Refusal::Stopped),
    (Query::Attributes(AlarmId(4)), Refusal::NoSuchAlarm),
    (Query::Row(AlarmId(3)), Refusal::Stopped),
    (Query::Row(AlarmId(4)), Refusal::NoSuchAlarm),
];

/// How many of them are answered so.
fn answered<L: Look>(look: &mut L, answer: &mut Answer) -> usize {
    let mut answered: usize = 0;
    for (query, wanted) in ASKED {
        if look.look(query, answer) == Err(wanted) {
            answered = answered.saturating_add(1);
        }
    }
    answered
}

/// How many are while the board has its owner, and after its end. `None` if out of memory.
fn answered_in_turn<J: RunId, K: Store, R: Wait>(
    rt: &R,
    alloc: Global,
    new: NewRun,
    store: K,
) -> Option<(usize, usize)>
    requires books { (new.history.seen.book ≡ J.book) × (new.moments.seen.book ≡ J.moments) }
    requires named { IsNamedAfter J.RunId K.Store K.Device.Disk store }
    requires idle { (K.state store).phase ≡ Phase.Idle }
{
    let NewRun { history, moments } = new;
    let recorder = Recorder::<J>::new(moments, &store)?;
    let Ok(plant) = store.stored().copy(alloc) else {
        return None;
    };
    let mut answer = Answer::new(alloc);
    match open_board::<J, Plant>(alloc, history, &recorder.moments(), plant, 1) {
        Ok((board, mut looks)) => {
            let before = looks.get_mut(0).map(|look| answered(look, &mut answer));
            drop(board.take(rt));
            let behind = looks.get_mut(0).map(|look| answered(look, &mut answer));
            match (before, behind) {
                (Some(before), Some(behind)) => Some((before, behind)),
                _ => None,
            }
        }
        Err(None) => None,
        Err(Some(board)) => {
            drop(board.take(rt));
            None
        }
    }
}

/// The same of a board over a device.
fn answered_by<K: Store, R: Wait>(
    rt: &R,
    alloc: Global,
    disk: K::Device,
) -> Option<(usize, usize)> {
    match K::open(alloc, disk) {
        Ok(store) => {
            let new = NewRun::new();
            answered_in_turn::<Brand, K, R>(rt, alloc, new, store)
        }
        Err(_) => None,
    }
}

#[test]
fn a_look_after_the_owner_is_gone(rt: HostRuntime) -> Result<(), Fail> {
    let table = worked_table(rt.alloc())?;
    let disk = formatted(rt.alloc(), &table).ok_or("formatted")?;
    let answered = answered_by::<Keeper<MemDisk>, _>(&rt, rt.alloc(), disk);
    same(answered, Some((8, 17)))?;
    Ok(())
}

/// What is reported of a plant without actions after nothing, 0, 7 and the last number, and of 0 after the board's end.
type Told = [Result<Recalled, Refusal>; 5];

/// What happened after a number; refused as out of memory if what may be reported has no room.
fn recalled_after<L: Recall>(
    look: &mut L,
    after: Option<u64>,
    events: &mut Vec<Event>,
) -> Result<Recalled, Refusal> {
    if events.capacity() < MOST_TOLD {
        return Err(Refusal::OutOfMemory);
    }
    look.recall(after, events)
}

/// The same over a store, with how many events were reported last. `None` if out of memory.
fn recalled_in_turn<J: RunId, K: Store, R: Wait>(
    rt: &R,
    alloc: Global,
    new: NewRun,
    store: K,
) -> Option<(Told, usize)>
    requires books { (new.history.seen.book ≡ J.book) × (new.moments.seen.book ≡ J.moments) }
    requires named { IsNamedAfter J.RunId K.Store K.Device.Disk store }
    requires idle { (K.state store).phase ≡ Phase.Idle }
{
    let NewRun { history, moments } = new;
    let recorder = Recorder::<J>::new(moments, &store)?;
    let plant = store.stored().copy(alloc).ok()?;
    let mut events = Vec::with_capacity(alloc, MOST_TOLD).ok()?;
    let moments = recorder.moments();
    let (board, mut looks) = match open_board::<J, Plant>(alloc, history, &moments, plant, 1) {
        Ok(opened) => opened,
        Err(None) => return None,
        Err(Some(board)) => {
            drop(board.take(rt));
            return None;
        }
    };
    let Some(look) = looks.get_mut(0) else {
        drop(board.take(rt));
        return None;
    };
    let first = recalled_after(look, None, &mut events);
    let zero = recalled_after(look, Some(0), &mut events);
    let later = recalled_after(look, Some(7), &mut events);
    let last = recalled_after(look, Some(u64::MAX), &mut events);
    drop(board.take(rt));
    let behind = recalled_after(look, Some(0), &mut events);
    Some(([first, zero, later, last, behind], events.len()))
}

/// The same of a board over a device.
fn recalled_by<K: Store, R: Wait>(rt: &R, alloc: Global, disk: K::Device) -> Option<(Told, usize)> {
    match K::open(alloc, disk) {
        Ok(store) => {
            let new = NewRun::new();
            recalled_in_turn::<Brand, K, R>(rt, alloc, new, store)
        }
        Err(_) => None,
    }
}

/// Nothing happened, and what would have happened next has this number.
fn nothing_before(first: u64) -> Result<Recalled, Refusal> {
    Ok(Recalled { count: 0, first })
}

#[test]
fn nothing_has_happened_and_then_the_owner_is_gone(rt: HostRuntime) -> Result<(), Fail> {
    let table = worked_table(rt.alloc())?;
    let disk = formatted(rt.alloc(), &table).ok_or("formatted")?;
    let recalled = recalled_by::<Keeper<MemDisk>, _>(&rt, rt.alloc(), disk);
    let told = [
        nothing_before(1),
        nothing_before(1),
        nothing_before(8),
        nothing_before(u64::MAX),
        Err(Refusal::Stopped),
    ];
    same(recalled, Some((told, 0)))?;
    Ok(())
}
