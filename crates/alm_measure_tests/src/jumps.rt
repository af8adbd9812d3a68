//! Jumps of the clock.

use crate::tables::table;
use crate::watched::Watched;
use alm_common_tests::{holds_at, moment_of, same};
use std::alloc::Global;
use std::test::Fail;

const LAST_MOMENT: u64 = (1 << 40) - 1;

/// A new measure.
fn new_measure(alloc: Global) -> Result<Watched, Fail> {
    Ok(Watched::new(alloc, &table(alloc).ok_or("table")?)?)
}

/// Alarm 0 is annunciated once at 1401, twice at 1941 and four times at 2000, the clock's last moment.
fn annunciate_seven_times(measure: &mut Watched) -> Result<(), Fail> {
    for (moment, times) in [(1401, 1), (1941, 2), (2000, 4)] {
        measure.advance(moment_of(moment)?);
        for _time in 0..times {
            measure.annunciated(0);
        }
        measure.settle();
    }
    Ok(())
}

/// The annunciations of each age, as far as there are any: the age, and how many.
fn ages(alloc: Global, measure: &Watched) -> Result<Vec<(u32, u64)>, Fail> {
    let mut found = Vec::with_capacity(alloc, 4)?;
    for age in 0..600 {
        let count = measure.age(0, age).ok_or("age")?;
        if count > 0 {
            found.push((age, count))?;
        }
    }
    Ok(found)
}

/// A jump after seven annunciations: its moment, the ages that it leaves, the window, and whether the alarm still chatters.
type Jump<'a> = (u64, &'a [(u32, u64)], u64, bool);

/// The ages before the jump.
const BEFORE: [(u32, u64); 3] = [(0, 4), (59, 2), (599, 1)];

/// Whether a jump leaves of seven annunciations what it should, and one more is counted then.
fn leaves(
    alloc: Global,
    measure: &mut Watched,
    (to, wanted, window, chatters): Jump<'_>,
) -> Result<bool, Fail> {
    annunciate_seven_times(measure)?;
    let before = ages(alloc, measure)?.as_slice() == BEFORE.as_slice();
    let moved = measure.advance(moment_of(to)?);
    measure.settle();
    let left = ages(alloc, measure)?.as_slice() == wanted
        && measure.window(0) == Some((window, false))
        && measure.window(1) == Some((0, false));
    let chattering = measure.chattering(alloc)?.len() == 1;
    let counted = measure.annunciated(0)
        && measure.age(0, 0) == Some(1)
        && measure.window(0) == Some((window.wrapping_add(1), false));
    Ok(before && moved && left && chattering == chatters && counted)
}

const JUMPS: [Jump<'static>; 9] = [
    (2001, &[(1, 4), (60, 2)], 6, true),
    (2059, &[(59, 4), (118, 2)], 6, true),
    (2060, &[(60, 4), (119, 2)], 6, false),
    (2540, &[(540, 4), (599, 2)], 6, false),
    (2541, &[(541, 4)], 4, false),
    (2599, &[(599, 4)], 4, false),
    (2600, &[], 0, false),
    (2601, &[], 0, false),
    (LAST_MOMENT, &[], 0, false),
];

/// The same of a new measure.
fn leaves_of_new(alloc: Global, row: Jump<'_>) -> Result<bool, Fail> {
    let mut measure = new_measure(alloc)?;
    let same = leaves(alloc, &mut measure, row);
    drop(measure);
    same
}

#[test]
fn a_jump_leaves_what_is_less_than_600_seconds_old(rt: HostRuntime) -> Result<(), Fail> {
    for row in JUMPS {
        let same = leaves_of_new(rt.alloc(), row)?;
        holds_at(row.0, same)?;
    }
    Ok(())
}

/// Whether a second passes with one annunciation, and the window of the last 600 seconds is counted.
fn passes(measure: &mut Watched, second: u64) -> Result<bool, Fail> {
    let moved = measure.advance(moment_of(second)?);
    let annunciated = measure.annunciated(3);
    measure.settle();
    let window = second.min(600);
    Ok(moved && annunciated && measure.window(1) == Some((window, window > 10)))
}

/// The first second of an hour that doesn't; or 3600.
fn first_wrong(measure: &mut Watched) -> Result<u64, Fail> {
    for second in 1..3600u64 {
        if !passes(measure, second)? {
            return Ok(second);
        }
    }
    Ok(3600)
}

/// Whether each age has one annunciation, and the last moments are the last three seconds.
fn is_even(measure: &Watched) -> bool {
    let mut even = true;
    for age in 0..600 {
        even = even && measure.age(1, age) == Some(1);
    }
    match measure.moments(3) {
        [last, before, first] => {
            let seconds = (last.seconds(), before.seconds(), first.seconds());
            even && seconds == (3599, 3598, 3597)
        }
        _ => false,
    }
}

#[test]
fn each_second_of_an_hour_forgets_one_second(rt: HostRuntime) -> Result<(), Fail> {
    let mut measure = new_measure(rt.alloc())?;
    let wrong = first_wrong(&mut measure);
    let even = is_even(&measure);
    drop(measure);
    same(wrong?, 3600)?;
    assert!(rt; even);
    Ok(())
}

#[test]
fn an_alarm_beyond_the_table_has_no_moments(rt: HostRuntime) -> Result<(), Fail> {
    let measure = new_measure(rt.alloc())?;
    assert!(rt; measure.moments(6).is_empty());
    Ok(())
}
