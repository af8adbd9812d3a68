//! A run whose board refuses publishes: its storage is reported as stopped after a thousand in a row.

ghost use Rattle.std.specs.Prelude.{◌≡◌, ◌<◌, ◌≤◌, ◌^◌, length};
ghost use Rattle.alm_rings.specs.Placed.{AreApart};
ghost use Rattle.alm_types.specs.Sizes.{most_actions};
ghost use Rattle.alm_moments.specs.Naming.{IsNamedAfter};

use crate::all_slots::{all_slots, scripts};
use crate::devices::formatted;
use crate::gate::Gate;
use crate::notes::Notes;
use crate::player::Player;
use crate::script::Step;
use alm_board::{Board, Publish, Voucher};
use alm_common_tests::same_at;
use alm_desk::worked_table;
use alm_disk::{Free, Hold, MemDisk};
use alm_keeper::{Keeper, Phase};
use alm_model::Alarms;
use alm_moments::RunId;
use alm_plant::Plant;
use alm_shared::{Durable, NewRun, SharedBoard, SharedLook};
use alm_store::Store;
use alm_threads::{Closes, Parts, RunEnd, StopCause, Storage, WatchedLook, parts_of, run_threads};
use alm_types::{Action, Batch, Moment, Slot};
use std::alloc::{AllocError, Global};
use std::marker::Brand;
use std::sync::{Arc, Wait};
use std::test::Fail;
use std::thread::Threads;
use std::time::Clock;

/// A board that refuses its first publishes. It isn't dropped but closed, as the board below it.
struct ShortBoard<B> {
    board: B,
    refusals: u64,
}

impl<B: Board> Board for ShortBoard<B> {
    type Told = B::Told;

    ghost base = { λ b. B.base b.board };

    ghost published = { λ b. B.published b.board };

    ghost logged = { λ b. B.logged b.board };

    ghost pending = { λ b. B.pending b.board };

    fn tell(&self) -> B::Told {
        self.board.tell()
    }
}

impl<C, V: Voucher, B: Board + Publish<C, V>> Publish<C, V> for ShortBoard<B> {
    ghost sure = { ⊥ };

    fn publish(&mut self, by: &C, voucher: &V, batch: &Batch) -> Result<(), AllocError> {
        if self.refusals > 0 {
            self.refusals -= 1;
            return Err(AllocError);
        }
        self.board.publish(by, voucher, batch)
    }
}

impl<C, B: Board + Closes<C>> Closes<C> for ShortBoard<B> {
    fn close(self, by: &C) {
        let ShortBoard { board, refusals: _ } = self;
        board.close(by);
    }
}

/// What a run reports: its storage, why it stopped, and how many actions are stored.
type Left = (Storage, Option<StopCause>, u64);

/// Runs these sources over parts whose board refuses a number of publishes. `None` if out of memory or no thread can be made.
fn run_parts<
    'h,
    J: RunId + Send + Sync,
    P: Alarms + Drop + Send + Sync,
    K: Store,
    H: Hold + Sync,
    R: Threads + Wait + Clock + Sync,
>(
    rt: &R,
    alloc: Global,
    parts: Parts<Durable<J>, WatchedLook<'h, SharedLook<J, P>, H>, SharedBoard<J, P>, K, J>,
    hold: &'h H,
    sources: Vec<Player>,
    refusals: u64,
) -> Option<Left>
    requires { length sources.items ≡ length parts.slots.items }
{
    let Parts {
        slots,
        consoles,
        looks,
        board,
        middle,
    } = parts;
    let parts = Parts {
        slots,
        consoles,
        looks,
        board: ShortBoard { board, refusals },
        middle,
    };
    match run_threads(rt, alloc, parts, hold, sources) {
        Ok(RunEnd { report, sources: _ }) => {
            Some((report.storage, report.cause, report.keeper.count()))
        }
        Err(_) => None,
    }
}

/// The same over a store.
fn run_short<J: RunId + Send + Sync, K: Store, H: Hold + Sync, R: Threads + Wait + Clock + Sync>(
    rt: &R,
    alloc: Global,
    new: NewRun,
    store: K,
    slots: Vec<Slot>,
    hold: &H,
    sources: Vec<Player>,
    refusals: u64,
) -> Option<Left>
    requires books { (new.history.seen.book ≡ J.book) × (new.moments.seen.book ≡ J.moments) }
    requires named { IsNamedAfter J.RunId K.Store K.Device.Disk store }
    requires idle { (K.state store).phase ≡ Phase.Idle }
    requires limit { (K.state store).stored.panel.count ≤ most_actions }
    requires some { (0 < length slots.items) × (length slots.items < 2 ^ 32) }
    requires apart { AreApart (λ s. s) slots.items }
    requires sources { length sources.items ≡ length slots.items }
{
    match parts_of::<J, K, H, R>(rt, alloc, new, store, slots, hold) {
        Ok(parts) => run_parts::<J, Plant, K, H, R>(rt, alloc, parts, hold, sources, refusals),
        Err(store) => {
            drop(store);
            None
        }
    }
}

/// What a run over a device reports whose clock sends an action.
fn left_over<K: Store, R: Threads + Wait + Clock + Sync>(
    rt: &R,
    alloc: Global,
    disk: K::Device,
    refusals: u64,
) -> Option<Left> {
    let Ok(slots) = all_slots(alloc) else {
        return None;
    };
    let notes = Arc::new(alloc, Notes::new(alloc, 0).ok()?).ok()?;
    let gate = Arc::new(alloc, Gate::new(false)).ok()?;
    let steps = [(17, Step::Send(Action::Clock(Moment::new(1000)?)))];
    let sources = scripts(alloc, &slots, &steps, &gate, &notes).ok()?;
    let Ok(store) = K::open(alloc, disk) else {
        return None;
    };
    let new = NewRun::new();
    run_short::<Brand, K, _, R>(rt, alloc, new, store, slots, &Free, sources, refusals)
}

#[test]
fn storage_is_stopped_behind_a_thousand_refused_publishes(rt: HostRuntime) -> Result<(), Fail> {
    let table = worked_table(rt.alloc())?;
    for (refusals, storage, cause) in [
        (0, Storage::Whole, None),
        (999, Storage::Whole, None),
        (1_000, Storage::Stopped, Some(StopCause::Publishing(1_000))),
    ] {
        let disk = formatted(rt.alloc(), &table).ok_or("formatted")?;
        let left = left_over::<Keeper<MemDisk>, _>(&rt, rt.alloc(), disk, refusals);
        same_at(refusals, left, Some((storage, cause, 1)))?;
    }
    Ok(())
}
