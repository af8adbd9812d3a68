//! 10,000 drawn actions through both plants.

ghost use Rattle.std.specs.Prelude.{◌<◌};

use crate::same::is_same;
use crate::tables::table;
use alm_common_tests::reading_of;
use alm_model::{Alarms, PlainPlant};
use alm_plant::Plant;
use alm_types::{Action, AlarmId, Moment, Table};
use std::alloc::Global;
use std::test::Fail;

const ACTIONS: u32 = 10_000;

const ALARMS: u32 = 40;

fn random(seed: u64) -> u64 {
    let a = seed ^ (seed << 13);
    let b = a ^ (a >> 7);
    b ^ (b << 17)
}

/// A number below a bound, from some bits of a drawn one.
fn below(drawn: u64, shift: u32, bound: u32) -> u32
    requires { 0 < bound }
{
    (drawn.wrapping_shr(shift) % bound as u64) as u32
}

/// By how many seconds the clock moves: mostly a few, at times past a window or past a day.
fn jump(drawn: u64) -> u64 {
    match below(drawn, 20, 200) {
        0 => 600,
        1 => 86_400,
        2 => 3600,
        n => 1 + (n % 7) as u64,
    }
}

/// A drawn action at a moment.
fn action(drawn: u64, now: Moment) -> Result<Action, Fail> {
    let id = AlarmId(below(drawn, 8, ALARMS));
    let on = below(drawn, 40, 2) == 0;
    Ok(match below(drawn, 32, 16) {
        0 => Action::Clock(Moment::new(now.seconds().wrapping_add(jump(drawn))).ok_or("moment")?),
        1 | 2 | 3 => Action::Ack(id),
        4 => Action::Reset(id),
        5 | 6 => Action::Shelve(id, below(drawn, 44, 900)),
        7 => Action::Unshelve(id),
        8 => Action::Oos(id, on),
        9 => Action::Design(id, on),
        10 => Action::SetPriority(id, below(drawn, 44, 6)),
        11 => Action::SetSetpoint(id, reading_of(below(drawn, 44, 3) as i64 - 1)?),
        _ => Action::Value(id, reading_of(below(drawn, 50, 3) as i64 - 1)?),
    })
}

/// After how many drawn actions two new plants differ; `None` if they don't.
fn differ_after<P: Alarms + Drop, Q: Alarms + Drop>(
    alloc: Global,
    rows: &Table,
) -> Result<Option<u32>, Fail> {
    let mut one = P::new(alloc, rows)?;
    let mut other = Q::new(alloc, rows)?;
    let mut seed = 88_172_645_463_325_252;
    let mut accepted = 0u32;
    for _turn in 0..100_000u32 {
        seed = random(seed);
        let action = action(seed, one.now())?;
        if other.admits(&action) != one.admits(&action) {
            return Ok(Some(accepted));
        }
        if accepted == ACTIONS || one.admits(&action).is_err() {
            continue;
        }
        one.apply(&action);
        other.apply(&action);
        accepted = accepted.wrapping_add(1);
        if accepted % 100 == 0 && !is_same(alloc, &other, &one)? {
            return Ok(Some(accepted));
        }
        if accepted % 700 == 0 {
            other = other.copy(alloc)?;
        }
    }
    Ok(if accepted == ACTIONS {
        None
    } else {
        Some(accepted)
    })
}

#[test]
fn drawn_actions_do_the_same_to_both_plants(rt: HostRuntime) -> Result<(), Fail> {
    let rows = table(rt.alloc(), ALARMS, 4).ok_or("table")?;
    assert_eq!(rt; differ_after::<PlainPlant, Plant>(rt.alloc(), &rows)?, None);
    Ok(())
}
