//! A worked plant of four alarms in two areas, and its image.

use alm_codec::{image_len, write_image};
use alm_common_tests::{moment_of, reading_of};
use alm_model::Alarms;
use alm_types::{Action, AlarmId, Attr, Kind, Refusal, Settings, Table};
use std::alloc::Global;
use std::test::Fail;

/// A high alarm of priority 1 in the first area.
const HIGH: Settings = Settings {
    kind: Kind::High,
    setpoint: 800,
    deadband: 10,
    priority: 1,
    area: 0,
    latching: false,
    max_shelve: 3600,
};

/// The alarms of the plant, with their tags.
const ALARMS: [(Settings, &[u8]); 4] = [
    (HIGH, b"TI-101"),
    (
        Settings {
            kind: Kind::Low,
            setpoint: 100,
            deadband: 5,
            ..HIGH
        },
        b"PI-102",
    ),
    (
        Settings {
            kind: Kind::Discrete,
            setpoint: 1,
            deadband: 0,
            area: 1,
            latching: true,
            max_shelve: 0,
            ..HIGH
        },
        b"XS-201",
    ),
    (
        Settings {
            setpoint: 50,
            deadband: 0,
            area: 1,
            max_shelve: 0,
            ..HIGH
        },
        b"LI-202",
    ),
];

fn table(alloc: Global) -> Result<Table, Fail> {
    let mut alarms = Vec::with_capacity(alloc, ALARMS.len())?;
    for (settings, tag) in ALARMS {
        alarms.push(Attr::new(settings, tag, b"")?)?;
    }
    Ok(Table::new(alarms, 2)?)
}

/// The plant without annunciations.
pub fn new_plant<P: Alarms>(alloc: Global) -> Result<P, Fail> {
    let table = table(alloc)?;
    Ok(P::new(alloc, &table)?)
}

/// Does an action, or says why it is refused.
pub fn act<P: Alarms>(plant: &mut P, action: Action) -> Result<(), Refusal> {
    plant.admits(&action)?;
    plant.apply(&action);
    Ok(())
}

/// The image of the new plant after these actions.
pub fn image_after<P: Alarms + Drop>(alloc: Global, actions: &[Action]) -> Result<Vec<u8>, Fail> {
    let mut plant = new_plant::<P>(alloc)?;
    for action in actions {
        act(&mut plant, *action)?;
    }
    image(alloc, &plant)
}

pub fn clock(seconds: u64) -> Result<Action, Fail> {
    Ok(Action::Clock(moment_of(seconds)?))
}

pub fn value(alarm: u32, value: i64) -> Result<Action, Fail> {
    Ok(Action::Value(AlarmId(alarm), reading_of(value)?))
}

/// The image of a plant.
pub fn image<P: Alarms>(alloc: Global, plant: &P) -> Result<Vec<u8>, Fail> {
    let size = image_len(plant.alarms() as u32, plant.areas() as u8);
    let mut bytes = vec![in alloc; 0u8; size as usize]?;
    write_image(plant, &mut bytes);
    Ok(bytes)
}
