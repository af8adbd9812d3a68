//! The plant of what was accepted.

use crate::drawn::drawn;
use crate::notes::Notes;
use alm_model::{Alarms, PlainPlant};
use alm_store::Store;
use alm_types::{AlarmId, Request, Slot, Table, Want};
use std::alloc::Global;

/// No slot sends more.
const MOST: u64 = 100_000;

/// The plant of the first `count` requests that were accepted, in the order of their numbers, each drawn again. `None` if one
/// isn't noted or isn't accepted now, or if out of memory.
fn folded<P: Alarms + Drop>(alloc: Global, table: &Table, notes: &Notes, count: u64) -> Option<P> {
    let mut plant = P::new(alloc, table).ok()?;
    for number in 0..count {
        let (slot, serial) = notes.accepted(number + 1)?;
        let want = drawn(slot, serial);
        match plant.check(&Request {
            slot,
            want: Want::Do(want),
        }) {
            Ok(action) => plant.apply(&action),
            Err(_) => return None,
        }
    }
    Some(plant)
}

/// Whether two plants have the same alarms, clock and counts.
fn are_same<P: Alarms, Q: Alarms>(one: &P, other: &Q) -> bool {
    if one.alarms() != other.alarms() || one.count() != other.count() || one.now() != other.now() {
        return false;
    }
    for id in 0..one.alarms() {
        let alarm = AlarmId(id as u32);
        if one.state(alarm) != other.state(alarm) || one.moments(alarm) != other.moments(alarm) {
            return false;
        }
    }
    one.next_stamp() == other.next_stamp()
}

/// The plant of the first `count` requests of a slot that are accepted, if no other slot sends.
fn foretold<P: Alarms + Drop>(alloc: Global, table: &Table, slot: Slot, count: u64) -> Option<P> {
    let mut plant = P::new(alloc, table).ok()?;
    for before in 0..MOST {
        if plant.count() == count {
            return Some(plant);
        }
        let want = drawn(slot, before + 1);
        if let Ok(action) = plant.check(&Request {
            slot,
            want: Want::Do(want),
        }) {
            plant.apply(&action);
        }
    }
    None
}

/// Which requests were accepted, in the order of their numbers.
#[derive(Clone, Copy)]
pub enum Accepted<'n> {
    /// Those that were noted.
    Noted(&'n Notes),
    /// Those of one slot that can be.
    Alone(Slot),
}

/// Whether a plant is the expected one, if there is one.
fn is_wanted<P: Alarms + Drop, Q: Alarms>(plant: &Q, wanted: Option<P>) -> bool {
    match wanted {
        Some(wanted) => are_same(plant, &wanted),
        None => false,
    }
}

/// How many actions a device encodes, and whether it is the plant of as many that were accepted. `None` if it isn't opened.
pub fn reopened<K: Store>(
    alloc: Global,
    disk: K::Device,
    table: &Table,
    accepted: Accepted<'_>,
) -> Option<(u64, bool)> {
    let store = K::open(alloc, disk).ok()?;
    let count = store.count();
    let wanted = match accepted {
        Accepted::Noted(notes) => folded::<PlainPlant>(alloc, table, notes, count),
        Accepted::Alone(slot) => foretold::<PlainPlant>(alloc, table, slot, count),
    };
    let is_fold = is_wanted(store.stored(), wanted);
    Some((count, is_fold))
}
