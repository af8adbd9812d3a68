//! The worked device.

use alm_checkpoint::{DeviceFault, Half, HalfHead, Layout, RestoreFault, image_sum, recover};
use alm_codec::{Asked, Asker, OPEN_GATE, Version, image_len, write_frame_body, write_image};
use alm_common_tests::{moment_of, reading_of};
use alm_model::{Alarms, PlainPlant};
use alm_types::{Action, AlarmId, Attr, Kind, Settings, Table};
use std::alloc::Global;
use std::test::Fail;

/// How many bytes the device has.
const SIZE: usize = 28_997;

/// Where its second half begins, with a closed gate.
const SECOND: usize = 14_510;

/// A high alarm of the first priority in the first area.
const HIGH: Settings = Settings {
    kind: Kind::High,
    setpoint: 800,
    deadband: 10,
    priority: 1,
    area: 0,
    latching: false,
    max_shelve: 3600,
};

/// The alarms of the worked table, with their tags.
const ALARMS: [(Settings, &[u8]); 4] = [
    (HIGH, b"TI-101"),
    (
        Settings {
            kind: Kind::Low,
            setpoint: 100,
            deadband: 5,
            priority: 2,
            ..HIGH
        },
        b"PI-102",
    ),
    (
        Settings {
            kind: Kind::Discrete,
            setpoint: 1,
            deadband: 0,
            area: 1,
            latching: true,
            max_shelve: 0,
            ..HIGH
        },
        b"XS-201",
    ),
    (
        Settings {
            setpoint: 50,
            deadband: 0,
            priority: 3,
            area: 1,
            max_shelve: 0,
            ..HIGH
        },
        b"LI-202",
    ),
];

fn table(alloc: Global) -> Result<Table, Fail> {
    let mut alarms = Vec::with_capacity(alloc, ALARMS.len())?;
    for (settings, tag) in ALARMS {
        alarms.push(Attr::new(settings, tag, b"")?)?;
    }
    Ok(Table::new(alarms, 2)?)
}

/// The image of a plant.
fn image_of<P: Alarms>(alloc: Global, plant: &P) -> Result<Vec<u8>, Fail> {
    let size = image_len(plant.alarms() as u32, plant.areas() as u8);
    let mut bytes = vec![in alloc; 0u8; size as usize]?;
    write_image(plant, &mut bytes);
    Ok(bytes)
}

/// The image of a new plant of the worked table.
fn image<P: Alarms + Drop>(alloc: Global) -> Result<Vec<u8>, Fail> {
    let table = table(alloc)?;
    let plant = P::new(alloc, &table)?;
    image_of(alloc, &plant)
}

pub fn clock(seconds: u64) -> Result<Action, Fail> {
    Ok(Action::Clock(moment_of(seconds)?))
}

pub fn value(alarm: u32, value: i64) -> Result<Action, Fail> {
    Ok(Action::Value(AlarmId(alarm), reading_of(value)?))
}

/// Puts a frame of one action of epoch 1 after the others, and opens its gate.
fn commit(device: &mut Vec<u8>, version: Version, first: u64, action: Action) -> Result<(), Fail> {
    let mut body = [0; 35];
    let asker = Asker::nobody();
    write_frame_body(1, first, &[Asked { asker, action }], &mut body, version);
    device.push(OPEN_GATE)?;
    device.extend_from_slice(&body[..34])?;
    Ok(())
}

/// The worked device of version 01 after `commits` of the commits of CLOCK 1000 and of VAL 0 to a value.
pub fn device(alloc: Global, commits: u32, reading: i64) -> Result<Vec<u8>, Fail> {
    device_of(alloc, Version::V01, commits, reading)
}

/// The header, and the first half's head and image.
fn put_front(alloc: Global, device: &mut Vec<u8>, version: Version) -> Result<(), Fail> {
    let layout = Layout::of(4, 2, 4116, version);
    let mut header = [0; 22];
    layout.write_header(&mut header);
    let mut head = [0; 24];
    let image = image::<PlainPlant>(alloc)?;
    let first = HalfHead {
        epoch: 1,
        version,
        count: 0,
        sum: image_sum(version, &image),
    };
    layout.write_half_head(Half::First, &first, &mut head);
    device.push(OPEN_GATE)?;
    device.extend_from_slice(&header)?;
    device.push(OPEN_GATE)?;
    device.extend_from_slice(&head)?;
    device.extend_from_slice(&image)?;
    Ok(())
}

/// The commits, and zeros after them; the gates that follow are closed.
fn put_commits(
    device: &mut Vec<u8>,
    version: Version,
    commits: u32,
    reading: i64,
) -> Result<(), Fail> {
    if commits > 0 {
        commit(device, version, 1, clock(1000)?)?;
    }
    if commits > 1 {
        commit(device, version, 2, value(0, reading)?)?;
    }
    device.push(version.closed_gate())?;
    for _ in device.len()..SIZE {
        device.push(0)?;
    }
    set(device, SECOND, version.closed_gate())
}

/// The same of a version.
pub fn device_of(
    alloc: Global,
    version: Version,
    commits: u32,
    reading: i64,
) -> Result<Vec<u8>, Fail> {
    let mut device = Vec::with_capacity(alloc, SIZE)?;
    put_front(alloc, &mut device, version)?;
    put_commits(&mut device, version, commits, reading)?;
    Ok(device)
}

pub fn set(device: &mut Vec<u8>, at: usize, byte: u8) -> Result<(), Fail> {
    *device.get_mut(at).ok_or("place")? = byte;
    Ok(())
}

/// What opening reports.
#[derive(Clone, Copy, Debug, PartialEq, Eq)]
pub enum Opened {
    OutOfMemory,
    DeviceFault(DeviceFault),
    Stands {
        half: Half,
        epoch: u64,
        count: u64,
        gate: u64,
    },
}

pub fn open(alloc: Global, device: &[u8]) -> Opened {
    match recover::<PlainPlant>(alloc, device) {
        Ok(found) => Opened::Stands {
            half: found.half,
            epoch: found.epoch,
            count: found.plant.count(),
            gate: found.gate,
        },
        Err(RestoreFault::OutOfMemory) => Opened::OutOfMemory,
        Err(RestoreFault::Damaged(fault)) => Opened::DeviceFault(fault),
    }
}

pub fn damaged(half: u8, at: u64) -> Opened {
    Opened::DeviceFault(DeviceFault::Damaged { half, at })
}
