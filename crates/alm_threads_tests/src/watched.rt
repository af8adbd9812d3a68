//! What a hold is informed of looks, and what a look answers after the end of its board.

ghost use Rattle.std.specs.Prelude.{◌≡◌, ◌<◌, ◌≤◌, ◌^◌, length};
ghost use Rattle.alm_rings.specs.Placed.{AreApart};
ghost use Rattle.alm_types.specs.Sizes.{most_actions};
ghost use Rattle.alm_moments.specs.Naming.{IsNamedAfter};

use crate::all_slots::all_slots;
use crate::devices::formatted;
use alm_board::Look;
use alm_common_tests::same;
use alm_desk::worked_table;
use alm_disk::{Hold, MemDisk};
use alm_keeper::{Keeper, Phase};
use alm_moments::RunId;
use alm_shared::NewRun;
use alm_store::Store;
use alm_threads::{Closes, Parts, parts_of};
use alm_types::{AlarmId, Answer, Query, Refusal, Slot};
use std::alloc::Global;
use std::marker::Brand;
use std::sync::Wait;
use std::sync::atomic::{AtomicU64, Ordering};
use std::test::Fail;

/// The slot that looks.
const SLOT: usize = 5;

/// Notes how often it was informed of a look, and the slot of the last one.
#[derive(Drop)]
struct Noted {
    looks: AtomicU64,
    last: AtomicU64,
}

impl Hold for Noted {
    ghost answers = { λ _ _. Unit {0} };

    fn before_sync(&self) -> bool {
        true
    }

    fn taken(&self, _slot: Slot) {}

    fn looked(&self, slot: Slot) {
        self.looks.fetch_add(1, Ordering::SeqCst);
        self.last.store(u64::from(slot.number()), Ordering::SeqCst);
    }
}

/// What the slot's look at the state of an alarm answers.
fn looked_at<L: Look>(
    looks: &mut [L],
    id: u32,
    answer: &mut Answer,
) -> Option<Result<u64, Refusal>> {
    let look = looks.get_mut(SLOT)?;
    Some(look.look(Query::State(AlarmId(id)), answer))
}

/// What it answers of an alarm that doesn't exist, of one that does, and of this one after the end of the board.
type Answers = [Option<Result<u64, Refusal>>; 3];

/// The same over a store.
fn answers_over<J: RunId, K: Store, R: Wait>(
    rt: &R,
    alloc: Global,
    new: NewRun,
    store: K,
    slots: Vec<Slot>,
    hold: &Noted,
) -> Option<Answers>
    requires books { (new.history.seen.book ≡ J.book) × (new.moments.seen.book ≡ J.moments) }
    requires named { IsNamedAfter J.RunId K.Store K.Device.Disk store }
    requires idle { (K.state store).phase ≡ Phase.Idle }
    requires limit { (K.state store).stored.panel.count ≤ most_actions }
    requires some { (0 < length slots.items) × (length slots.items < 2 ^ 32) }
    requires apart { AreApart (λ s. s) slots.items }
{
    let mut answer = Answer::new(alloc);
    let Ok(parts) = parts_of::<J, K, Noted, R>(rt, alloc, new, store, slots, hold) else {
        return None;
    };
    let Parts {
        slots: _,
        consoles: _,
        mut looks,
        board,
        middle: _,
    } = parts;
    let missing = looked_at(&mut looks, 4, &mut answer);
    let there = looked_at(&mut looks, 0, &mut answer);
    board.close(rt);
    let gone = looked_at(&mut looks, 0, &mut answer);
    Some([missing, there, gone])
}

/// The same over a device.
fn answers_on<K: Store, R: Wait>(
    rt: &R,
    alloc: Global,
    disk: K::Device,
    slots: Vec<Slot>,
    hold: &Noted,
) -> Option<Answers>
    requires some { (0 < length slots.items) × (length slots.items < 2 ^ 32) }
    requires apart { AreApart (λ s. s) slots.items }
{
    match K::open(alloc, disk) {
        Ok(store) => {
            let new = NewRun::new();
            answers_over::<Brand, K, R>(rt, alloc, new, store, slots, hold)
        }
        Err(_) => None,
    }
}

/// The same over a new device.
fn answers<R: Wait>(rt: &R, alloc: Global, hold: &Noted) -> Option<Answers> {
    let table = worked_table(alloc).ok()?;
    let slots = all_slots(alloc).ok()?;
    let disk = formatted(alloc, &table)?;
    answers_on::<Keeper<MemDisk>, R>(rt, alloc, disk, slots, hold)
}

#[test]
fn a_hold_is_told_of_each_look_that_was_answered(rt: HostRuntime) -> Result<(), Fail> {
    let hold = Noted {
        looks: AtomicU64::new(0),
        last: AtomicU64::new(0),
    };
    let answers = answers(&rt, rt.alloc(), &hold);
    let wanted = [
        Some(Err(Refusal::NoSuchAlarm)),
        Some(Ok(0)),
        Some(Err(Refusal::Stopped)),
    ];
    same(answers, Some(wanted))?;
    same(hold.looks.load(Ordering::SeqCst), 1)?;
    same(hold.last.load(Ordering::SeqCst), SLOT as u64)?;
    Ok(())
}
