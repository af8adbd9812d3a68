//! One run, from a device to what is left of it.

ghost use Rattle.std.specs.Prelude.{◌≡◌, ◌<◌, ◌≤◌, ◌^◌, length};
ghost use Rattle.alm_rings.specs.Placed.{AreApart};
ghost use Rattle.alm_types.specs.Sizes.{most_actions};
ghost use Rattle.alm_moments.specs.Naming.{IsNamedAfter};

use crate::player::Player;
use alm_disk::Hold;
use alm_keeper::Phase;
use alm_model::Alarms;
use alm_moments::RunId;
use alm_plant::Plant;
use alm_rings::{SlotReport, Told};
use alm_shared::{Durable, NewRun, SharedBoard, SharedLook};
use alm_store::Store;
use alm_threads::{Parts, RunReport, StopCause, Storage, WatchedLook, parts_of, run_threads};
use alm_types::Slot;
use std::alloc::Global;
use std::marker::Brand;
use std::sync::Wait;
use std::thread::Threads;
use std::time::Clock;

/// What is left of a run.
#[derive(Drop)]
pub struct Left<D: Drop> {
    pub storage: Storage,
    pub cause: Option<StopCause>,
    /// How many actions are stored.
    pub count: u64,
    pub slots: Vec<Option<SlotReport>>,
    pub disk: D,
}

fn left_of<K: Store, T: Told + Drop, J: RunId>(report: RunReport<K, T, J>) -> Left<K::Device> {
    let RunReport {
        keeper,
        storage,
        slots,
        consoles: _,
        cause,
        moments: _,
    } = report;
    Left {
        storage,
        cause,
        count: keeper.count(),
        slots,
        disk: keeper.into_device(),
    }
}

/// Runs these sources. `None` if out of memory or no thread can be made.
fn run_parts<
    'h,
    J: RunId + Send + Sync,
    P: Alarms + Drop + Send + Sync,
    K: Store,
    H: Hold + Sync,
    R: Threads + Wait + Clock + Sync,
>(
    rt: &R,
    alloc: Global,
    parts: Parts<Durable<J>, WatchedLook<'h, SharedLook<J, P>, H>, SharedBoard<J, P>, K, J>,
    hold: &'h H,
    sources: Vec<Player>,
) -> Option<Left<K::Device>>
    requires { length sources.items ≡ length parts.slots.items }
{
    match run_threads(rt, alloc, parts, hold, sources) {
        Ok(end) => Some(left_of(end.report)),
        Err(_) => None,
    }
}

/// Runs these sources over a store. `None` if out of memory or no thread can be made.
fn run_over<J: RunId + Send + Sync, K: Store, H: Hold + Sync, R: Threads + Wait + Clock + Sync>(
    rt: &R,
    alloc: Global,
    new: NewRun,
    store: K,
    slots: Vec<Slot>,
    hold: &H,
    sources: Vec<Player>,
) -> Option<Left<K::Device>>
    requires books { (new.history.seen.book ≡ J.book) × (new.moments.seen.book ≡ J.moments) }
    requires named { IsNamedAfter J.RunId K.Store K.Device.Disk store }
    requires idle { (K.state store).phase ≡ Phase.Idle }
    requires limit { (K.state store).stored.panel.count ≤ most_actions }
    requires some { (0 < length slots.items) × (length slots.items < 2 ^ 32) }
    requires apart { AreApart (λ s. s) slots.items }
    requires sources { length sources.items ≡ length slots.items }
{
    match parts_of::<J, K, H, R>(rt, alloc, new, store, slots, hold) {
        Ok(parts) => run_parts::<J, Plant, K, H, R>(rt, alloc, parts, hold, sources),
        Err(store) => {
            drop(store);
            None
        }
    }
}

/// Opens a device and runs these sources over it. `None` if it isn't opened, if out of memory or no thread can be made.
pub fn run_on<K: Store, H: Hold + Sync, R: Threads + Wait + Clock + Sync>(
    rt: &R,
    alloc: Global,
    disk: K::Device,
    slots: Vec<Slot>,
    hold: &H,
    sources: Vec<Player>,
) -> Option<Left<K::Device>>
    requires some { (0 < length slots.items) × (length slots.items < 2 ^ 32) }
    requires apart { AreApart (λ s. s) slots.items }
    requires sources { length sources.items ≡ length slots.items }
{
    match K::open(alloc, disk) {
        Ok(store) => {
            let new = NewRun::new();
            run_over::<Brand, K, H, R>(rt, alloc, new, store, slots, hold, sources)
        }
        Err(_) => None,
    }
}
