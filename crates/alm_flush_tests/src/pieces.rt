//! Commits between the pieces of a checkpoint: 1,000 alarms in 2 areas, on a device of zeros.

use crate::course::{Call, Outcome, Played, play_over};
use crate::opened::{Standing, open_formatted, stands_as};
use alm_common_tests::{moment_of, same, slot_of};
use alm_disk::{Call as DiskCall, MemDisk};
use alm_flush::{Advance, Release};
use alm_seq::{Seal, Take};
use alm_types::{Action, Attr, Kind, Settings, Slot, Table, Verdict};
use std::alloc::Global;
use std::test::Fail;

/// How long the device is, and the places of half 1 and of its third frame.
const SIZE: usize = 391_541;

const HALF: u64 = 195_782;

const THIRD: usize = 387_495;

/// An alarm of an area.
fn alarm(area: u8) -> Option<Attr> {
    let settings = Settings {
        kind: Kind::High,
        setpoint: 800,
        deadband: 10,
        priority: 1,
        area,
        latching: false,
        max_shelve: 0,
    };
    Attr::new(settings, b"TI-101", b"").ok()
}

/// The table.
fn table(alloc: Global) -> Result<Table, Fail> {
    let mut alarms = Vec::new(alloc);
    for number in 0..1000u32 {
        match alarm((number % 2) as u8) {
            Some(alarm) => alarms.push(alarm)?,
            None => return Err(Fail::new("an alarm")),
        }
    }
    match Table::new(alarms, 2) {
        Ok(table) => Ok(table),
        Err(_) => Err(Fail::new("a table")),
    }
}

/// What is left when a course was played on new parts over the device.
fn played(alloc: Global, course: &[(Call, Outcome)]) -> Result<Played, Fail> {
    let disk = MemDisk::new(alloc, vec![in alloc; 0u8; SIZE]?, 1024)?;
    let store = open_formatted(alloc, &table(alloc)?, disk)?;
    Ok(play_over(alloc, store, course)?)
}

/// A batch of one action, the first of its number: it is stored in `steps` steps.
fn stored_in(slot: Slot, number: u64, steps: u64) -> Result<[(Call, Outcome); 7], Fail> {
    let action = Action::Clock(moment_of(number)?);
    let verdict = Verdict::Accepted(action);
    Ok([
        (Call::Send(slot, action), Outcome::Sent(Some(number))),
        (Call::Take(slot), Outcome::Took(Take::Taken(verdict))),
        (Call::Seal, Outcome::Sealed(Seal::Sealed)),
        (Call::Store(16), Outcome::Stored(Some(steps))),
        (Call::Release, Outcome::Released(Release::Released(slot))),
        (Call::GiveBack, Outcome::GaveBack(true)),
        (
            Call::Receive(slot),
            Outcome::Received(Some((number, number, verdict))),
        ),
    ])
}

/// The first 59 commits, of which the last opens a checkpoint of three pieces.
fn opening(alloc: Global, slot: Slot) -> Result<Vec<(Call, Outcome)>, Fail> {
    let mut course = Vec::new(alloc);
    for number in 1..=59u64 {
        course.extend_from_slice(&stored_in(slot, number, 4)?)?;
    }
    Ok(course)
}

/// Which calls on the device are writes of more bytes than a frame of one action has, to the run of half 1: their places and
/// lengths.
fn pieces_in(alloc: Global, calls: &[DiskCall]) -> Result<Vec<(u64, u64)>, Fail> {
    let mut pieces = Vec::new(alloc);
    for call in calls {
        match *call {
            DiskCall::Write { at, length } if at > HALF && length > 35 => {
                pieces.push((at, length))?;
            }
            _ => {}
        }
    }
    Ok(pieces)
}

#[test]
fn a_piece_goes_out_before_each_commit(rt: HostRuntime) -> Result<(), Fail> {
    let alloc = rt.alloc();
    let clock = slot_of(17)?;
    let mut course = opening(alloc, clock)?;
    // Three calls end the checkpoint before the 62nd commit.
    for (number, steps) in [(60, 5), (61, 5), (62, 8)] {
        course.extend_from_slice(&stored_in(clock, number, steps)?)?;
    }
    let Played {
        differs_at,
        disk,
        ..
    } = played(alloc, &course)?;
    same(differs_at, None)?;
    // The run ends with the closed gate after two frames.
    same(
        pieces_in(alloc, disk.calls())?.as_slice(),
        [
            (HALF + 1, 65_536),
            (HALF + 65_537, 65_536),
            (HALF + 131_073, 60_641),
        ]
        .as_slice(),
    )?;
    let frame = [0xA5, 0, 0, 0, 0, 0, 0, 0, 2, 0, 0, 0, 0, 0, 0, 0, 62, 0, 1];
    same(disk.bytes().get(THIRD..THIRD + 19), Some(frame.as_slice()))?;
    let wanted = Standing {
        epoch: 2,
        count: 62,
        used: 105,
    };
    same(stands_as(alloc, disk)?, wanted)?;
    Ok(())
}

#[test]
fn an_open_checkpoint_goes_on_without_a_batch(rt: HostRuntime) -> Result<(), Fail> {
    let alloc = rt.alloc();
    let mut course = opening(alloc, slot_of(17)?)?;
    // Three pieces, a sync, the gate and its sync.
    for _call in 0..6 {
        course.push((Call::Advance, Outcome::Advanced(Advance::More)))?;
    }
    course.push((Call::Advance, Outcome::Advanced(Advance::Nothing)))?;
    let Played {
        differs_at,
        disk,
        ..
    } = played(alloc, &course)?;
    same(differs_at, None)?;
    let wanted = Standing {
        epoch: 2,
        count: 59,
        used: 0,
    };
    same(stands_as(alloc, disk)?, wanted)?;
    Ok(())
}
