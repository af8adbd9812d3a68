//! 10,000 drawn actions.

ghost use Rattle.std.specs.Prelude.{◌<◌};

use crate::beside::Beside;
use crate::tables::table;
use alm_common_tests::{holds_at, reading_of, same};
use alm_model::{Alarms, PlainPlant};
use alm_types::{Action, AlarmId, Moment, Table};
use std::alloc::{AllocError, Global};
use std::test::Fail;

const ACTIONS: u32 = 10_000;

fn random(seed: u64) -> u64 {
    let a = seed ^ (seed << 13);
    let b = a ^ (a >> 7);
    b ^ (b << 17)
}

/// A number below a bound, from some bits of a drawn one.
fn below(drawn: u64, shift: u32, bound: u32) -> u32
    requires { 0 < bound }
    ensures { result < bound }
{
    (drawn.wrapping_shr(shift) % bound as u64) as u32
}

/// By how many seconds the clock moves: mostly a few, so that windows fill up and floods begin.
fn jump(drawn: u64) -> u64 {
    match below(drawn, 20, 400) {
        0 => 59,
        1 => 60,
        2 => 599,
        3 => 600,
        4 => 601,
        5 => 100_000,
        n => 1 + (n % 5) as u64,
    }
}

/// A drawn action: mostly values that come or go at some alarm.
fn action(drawn: u64, now: Moment) -> Result<Action, Fail> {
    let id = AlarmId(below(drawn, 8, 6));
    let on = below(drawn, 40, 2) == 0;
    Ok(match below(drawn, 32, 16) {
        0 | 1 => Action::Clock(Moment::new(now.seconds().wrapping_add(jump(drawn))).ok_or(
            "moment",
        )?),
        2 | 3 => Action::Ack(id),
        4 => Action::Reset(id),
        5 => Action::Shelve(id, below(drawn, 44, 900)),
        6 => Action::Unshelve(id),
        7 => Action::Oos(id, on),
        8 => Action::Design(id, on),
        9 => Action::Value(id, reading_of(1)?),
        _ => Action::Value(id, reading_of(if on { 1000 } else { -1000 })?),
    })
}

/// What was seen: how many actions were accepted, how often there was a flood in the last area, and how often an alarm
/// that chattered.
#[derive(Clone, Copy)]
struct Seen {
    accepted: u32,
    floods: u32,
    chattering: u32,
}

/// Notes what is seen after an action.
fn note<P: Alarms + Drop>(
    alloc: Global,
    beside: &Beside<P>,
    seen: &mut Seen,
) -> Result<(), AllocError> {
    if let Some((_window, true)) = beside.measure.window(2) {
        seen.floods = seen.floods.wrapping_add(1);
    }
    if beside.measure.chattering(alloc)?.len() > 0 {
        seen.chattering = seen.chattering.wrapping_add(1);
    }
    Ok(())
}

/// Continues with a copy of the measure after each 500 actions, and with one that is made of lists after each 700.
fn replace<P: Alarms + Drop>(
    alloc: Global,
    table: &Table,
    beside: &mut Beside<P>,
    accepted: u32,
) -> Result<(), Fail> {
    if accepted % 500 == 0 {
        let copy = beside.measure.copy(alloc)?;
        beside.go_on_with(copy);
    }
    if accepted % 700 == 0 {
        let made = beside.made(alloc, table).ok_or("lists")?;
        beside.go_on_with(made);
    }
    Ok(())
}

/// Does a drawn action, if it is accepted: whether all that is measured then is the plant's.
fn draw<P: Alarms + Drop>(
    alloc: Global,
    table: &Table,
    beside: &mut Beside<P>,
    seed: u64,
    seen: &mut Seen,
) -> Result<bool, Fail> {
    let action = action(seed, beside.plant.now())?;
    if !beside.act(action)? {
        return Ok(true);
    }
    seen.accepted = seen.accepted.wrapping_add(1);
    let same = beside.is_same(alloc)?;
    note(alloc, beside, seen)?;
    replace(alloc, table, beside, seen.accepted)?;
    Ok(same)
}

/// Draws until a number of actions are accepted: what was seen, or an error if the measures differ.
fn draw_all<P: Alarms + Drop>(
    alloc: Global,
    table: &Table,
    beside: &mut Beside<P>,
) -> Result<Seen, Fail> {
    let mut seed = 88172645463325252;
    let mut seen = Seen {
        accepted: 0,
        floods: 0,
        chattering: 0,
    };
    for _turn in 0..50_000u32 {
        seed = random(seed);
        if seen.accepted < ACTIONS && !draw(alloc, table, beside, seed, &mut seen)? {
            return Err("another measure".into());
        }
    }
    Ok(seen)
}

/// The same on a new plain plant.
fn draw_on_new(alloc: Global) -> Result<Seen, Fail> {
    let table = table(alloc).ok_or("table")?;
    let mut beside = Beside::<PlainPlant>::new(alloc, &table)?;
    let seen = draw_all(alloc, &table, &mut beside);
    drop(beside);
    seen
}

#[test]
fn drawn_actions_are_measured_as_a_plain_plant_does(rt: HostRuntime) -> Result<(), Fail> {
    let Seen {
        accepted,
        floods,
        chattering,
    } = draw_on_new(rt.alloc())?;
    same(accepted, ACTIONS)?;
    holds_at(floods, floods > 100 && floods < 9_900)?;
    holds_at(chattering, chattering > 100 && chattering < 9_900)?;
    Ok(())
}
