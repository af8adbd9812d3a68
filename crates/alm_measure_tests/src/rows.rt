//! The worked rows of floods and of chattering alarms.

use crate::beside::Beside;
use crate::rows::Step::{Chatter, Clock, Moments, Same, Values, Window};
use crate::tables::table;
use alm_common_tests::{moment_of, reading_of, same_at};
use alm_model::{Alarms, PlainPlant};
use alm_types::{Action, AlarmId, Moment};
use std::alloc::Global;
use std::test::Fail;

/// What is done, or what is measured then of the first area or of alarm 0.
#[derive(Clone, Copy)]
enum Step<'a> {
    /// The clock moves.
    Clock(u64),
    /// Values of alarm 0 come in, each of which changes its condition.
    Values(&'a [i64]),
    /// The window, and whether there is a flood.
    Window(u64, bool),
    /// The alarms that chatter.
    Chatter(&'a [u32]),
    /// The last moments.
    Moments(&'a [u64]),
    /// All that is measured is the plant's.
    Same,
}

const ROWS: [(&str, &[Step<'static>]); 3] = [
    (
        "A flood begins above 10 and ends below 5",
        &[
            Clock(1000),
            Values(&[800, 700, 800, 700, 800, 700, 800, 700, 800, 700, 800, 700]),
            Clock(1100),
            Values(&[800, 700]),
            Clock(1200),
            Values(&[800, 700, 800, 700, 800]),
            Window(10, false),
            Values(&[700, 800]),
            Window(11, true),
            Clock(1599),
            Window(11, true),
            Clock(1600),
            Window(5, true),
            Clock(1700),
            Window(4, false),
            Same,
        ],
    ),
    (
        "Three annunciations within a minute chatter",
        &[
            Clock(1000),
            Values(&[800, 700]),
            Clock(1030),
            Values(&[800, 700]),
            Clock(1060),
            Values(&[800]),
            Chatter(&[]),
            Moments(&[1060, 1030, 1000]),
        ],
    ),
    (
        "Chattering ends a minute after the first of three",
        &[
            Clock(1000),
            Clock(1001),
            Values(&[800, 700]),
            Clock(1030),
            Values(&[800, 700]),
            Clock(1060),
            Values(&[800]),
            Chatter(&[0]),
            Clock(1061),
            Chatter(&[]),
        ],
    ),
];

/// Whether each of these values is accepted.
fn are_accepted<P: Alarms + Drop>(beside: &mut Beside<P>, values: &[i64]) -> Result<bool, Fail> {
    for value in values {
        let value = reading_of(*value)?;
        if !beside.act(Action::Value(AlarmId(0), value))? {
            return Ok(false);
        }
    }
    Ok(true)
}

/// Whether the moments are these seconds.
fn are_seconds(moments: &[Moment], wanted: &[u64]) -> bool {
    if moments.len() != wanted.len() {
        return false;
    }
    for (moment, seconds) in moments.iter().zip(wanted) {
        if moment.seconds() != *seconds {
            return false;
        }
    }
    true
}

/// Whether a step does what it should.
fn goes<P: Alarms + Drop>(
    alloc: Global,
    beside: &mut Beside<P>,
    step: &Step<'_>,
) -> Result<bool, Fail> {
    Ok(match step {
        Clock(moment) => {
            let moment = moment_of(*moment)?;
            beside.act(Action::Clock(moment))?
        }
        Values(values) => are_accepted(beside, values)?,
        Window(window, flood) => beside.measure.window(0) == Some((*window, *flood)),
        Chatter(alarms) => beside.measure.chattering(alloc)?.as_slice() == *alarms,
        Moments(wanted) => are_seconds(beside.measure.moments(0), wanted),
        Same => beside.is_same(alloc)?,
    })
}

/// The first step of a row that doesn't do what it should.
fn first_wrong<P: Alarms + Drop>(
    alloc: Global,
    beside: &mut Beside<P>,
    row: &[Step<'_>],
) -> Result<Option<usize>, Fail> {
    for (place, step) in row.iter().enumerate() {
        if !goes(alloc, beside, step)? {
            return Ok(Some(place));
        }
    }
    Ok(None)
}

/// The same on a new plain plant.
fn first_wrong_of_new(alloc: Global, row: &[Step<'_>]) -> Result<Option<usize>, Fail> {
    let table = table(alloc).ok_or("table")?;
    let mut beside = Beside::<PlainPlant>::new(alloc, &table)?;
    let found = first_wrong(alloc, &mut beside, row);
    drop(beside);
    found
}

#[test]
fn each_row(rt: HostRuntime) -> Result<(), Fail> {
    for (name, row) in ROWS {
        let wrong = first_wrong_of_new(rt.alloc(), row)?;
        same_at(name, wrong, None)?;
    }
    Ok(())
}
