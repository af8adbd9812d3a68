//! What is asked, of which plant.

use alm_types::{
    Action, AlarmId, Attr, Kind, Moment, Reading, Request, Settings, Slot, Table, Want,
};
use anyhow::{Result, anyhow};
use std::alloc::{AllocError, Global};

/// A table of `alarms` alarms in one area.
pub fn table(alloc: Global, alarms: usize) -> Result<Table> {
    let settings = Settings {
        kind: Kind::High,
        setpoint: 800,
        deadband: 10,
        priority: 1,
        area: 0,
        latching: false,
        max_shelve: 0,
    };
    let mut attrs = Vec::with_capacity(alloc, alarms)?;
    for _alarm in 0..alarms {
        attrs.push(Attr::new(settings, b"T", b"").map_err(|_| anyhow!("attributes"))?)?;
    }
    Table::new(attrs, 1).map_err(|_| anyhow!("table"))
}

/// The values that are sent.
#[derive(Clone, Copy)]
pub struct Values {
    high: Reading,
    low: Reading,
}

impl Values {
    pub fn new() -> Option<Self> {
        Some(Values {
            high: Reading::new(1000)?,
            low: Reading::new(0)?,
        })
    }
}

/// What is asked in a turn.
#[derive(Clone, Copy)]
pub enum Course {
    /// A number of acknowledgements of each slot, none of which is admitted.
    Refused { slots: u8, each: u8 },
    /// A number of values that bring alarms up or down, and as many moments after one.
    Accepted { each: u32, after: u64 },
}

impl Course {
    /// The requests of a turn.
    pub fn ask(
        self,
        values: &Values,
        turn: u64,
        asked: &mut Vec<Request>,
    ) -> Result<(), AllocError> {
        asked.clear();
        match self {
            Course::Refused { slots, each } => ask_refused(slots, each, asked),
            Course::Accepted { each, after } => ask_accepted(values, turn, each, after, asked),
        }
    }
}

fn ask_refused(slots: u8, each: u8, asked: &mut Vec<Request>) -> Result<(), AllocError> {
    for number in 0..slots {
        for _request in 0..each {
            if let Some(slot) = Slot::new(number) {
                let want = Action::Ack(AlarmId(0));
                asked.push(Request {
                    slot,
                    want: Want::Do(want),
                })?;
            }
        }
    }
    Ok(())
}

fn ask_accepted(
    values: &Values,
    turn: u64,
    each: u32,
    after: u64,
    asked: &mut Vec<Request>,
) -> Result<(), AllocError> {
    let value = if turn % 2 == 0 {
        values.high
    } else {
        values.low
    };
    for number in 0..each {
        if let Some(slot) = Slot::new(16) {
            let want = Action::Value(AlarmId(number), value);
            asked.push(Request {
                slot,
                want: Want::Do(want),
            })?;
        }
        let second = turn
            .wrapping_mul(u64::from(each))
            .wrapping_add(after)
            .wrapping_add(u64::from(number) + 1);
        if let (Some(slot), Some(moment)) = (Slot::new(17), Moment::new(second)) {
            let want = Action::Clock(moment);
            asked.push(Request {
                slot,
                want: Want::Do(want),
            })?;
        }
    }
    Ok(())
}
