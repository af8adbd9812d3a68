//! The plant that is timed, and who sends to it.

use alm_model::Alarms;
use alm_types::{Action, Attr, Kind, Moment, Reading, Request, Settings, Slot, Table, Want};
use anyhow::{Result, anyhow};
use std::alloc::Global;

pub const ALARMS: u32 = 16_384;

const AREAS: u32 = 64;

/// The alarms of the first priority.
const FIRST: u32 = 10_000;

/// The largest table: 10,000 alarms of priority 1, the others of 2 to 4, each in the area of its number modulo the areas.
pub fn table(alloc: Global) -> Result<Table> {
    let mut alarms = Vec::with_capacity(alloc, ALARMS as usize)?;
    for number in 0..ALARMS {
        let settings = Settings {
            kind: Kind::High,
            setpoint: 800,
            deadband: 10,
            priority: if number < FIRST {
                1
            } else {
                (number % 3) as u8 + 2
            },
            area: (number % AREAS) as u8,
            latching: number % 8 == 0,
            max_shelve: 3600,
        };
        alarms.push(Attr::new(settings, b"T", b"").map_err(|_| anyhow!("attributes"))?)?;
    }
    Table::new(alarms, AREAS as u8).map_err(|_| anyhow!("table"))
}

/// Who sends, and the values that are sent.
#[derive(Clone, Copy)]
pub struct Senders {
    pub feed: Slot,
    pub console: Slot,
    pub clock: Slot,
    pub high: Reading,
    pub low: Reading,
}

impl Senders {
    pub fn new() -> Option<Self> {
        Some(Senders {
            feed: Slot::new(16)?,
            console: Slot::new(0)?,
            clock: Slot::new(17)?,
            high: Reading::new(1000)?,
            low: Reading::new(0)?,
        })
    }
}

/// Does an action if it is accepted; how many were.
pub fn send<P: Alarms>(plant: &mut P, slot: Slot, want: Action) -> u32 {
    match plant.check(&Request {
        slot,
        want: Want::Do(want),
    }) {
        Ok(action) => {
            plant.apply(&action);
            1
        }
        Err(_) => 0,
    }
}

/// A second passes; how many clocks were accepted.
pub fn tick<P: Alarms>(plant: &mut P, senders: &Senders, second: u32) -> u32 {
    match Moment::new(u64::from(second) + 1) {
        Some(moment) => send(plant, senders.clock, Action::Clock(moment)),
        None => 0,
    }
}
