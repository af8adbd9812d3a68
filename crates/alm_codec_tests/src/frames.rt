//! The texts of frames.

use alm_codec::{Asked, Asker, Damage, Version, read_frame, write_frame_body};
use alm_common_tests::{moment_of, reading_of, same, same_at, slot_of};
use alm_types::{Action, AlarmId, MOST_ENTRIES};
use std::test::Fail;

/// A frame of one action without its gate, with the next gate closed.
const CLOCK_FRAME: [u8; 35] = [
    0, 0, 0, 0, 0, 0, 0, 1, 0, 0, 0, 0, 0, 0, 0, 1, 0, 1, 1, 0, 0, 0, 0, 0, 0, 0, 0, 0, 0, 0, 0, 0,
    3, 0xe8, 0,
];

const VALUE_FRAME: [u8; 35] = [
    0, 0, 0, 0, 0, 0, 0, 1, 0, 0, 0, 0, 0, 0, 0, 2, 0, 1, 2, 0, 0, 0, 0, 0, 0, 0, 0, 0, 0, 0, 0, 0,
    3, 0x20, 0,
];

/// An action that doesn't say who asked.
fn unsaid(action: Action) -> Asked {
    Asked {
        asker: Asker::nobody(),
        action,
    }
}

/// An action that a slot asked for, as a version's frames say it.
fn asked(slot: u8, action: Action, version: Version) -> Result<Asked, Fail> {
    let asker = Asker::of(slot_of(slot)?, version);
    Ok(Asked { asker, action })
}

#[test]
fn frames_are_written_and_read(rt: HostRuntime) -> Result<(), Fail> {
    let mut actions = Vec::with_capacity(rt.alloc(), MOST_ENTRIES)?;
    let mut out = [9; 36];
    let clock = asked(17, Action::Clock(moment_of(1000)?), Version::V02)?;
    write_frame_body(1, 1, &[clock], &mut out, Version::V02);
    assert!(rt; out[..35] == CLOCK_FRAME[..] && out[35] == 9);
    same(
        read_frame(&CLOCK_FRAME, 1, 0, &mut actions, Version::V02),
        Ok(34),
    )?;
    same(actions.as_slice(), [clock].as_slice())?;
    let value = unsaid(Action::Value(AlarmId(0), reading_of(800)?));
    write_frame_body(1, 2, &[value], &mut out, Version::V02);
    assert!(rt; out[..35] == VALUE_FRAME[..]);
    same(
        read_frame(&VALUE_FRAME, 1, 1, &mut actions, Version::V02),
        Ok(34),
    )?;
    same(actions.as_slice(), [value].as_slice())?;
    Ok(())
}

/// A byte of a frame that is another, and its place.
type Change = Option<(usize, u8)>;

/// Damaged frames of an epoch after a count: the epoch, the count, how many bytes there are, what is changed in them, and the
/// place of the damage.
const DAMAGED: [(u64, u64, usize, Change, usize); 9] = [
    (2, 0, 35, None, 0),
    (1, 1, 35, None, 8),
    (1, 0, 7, None, 0),
    (1, 0, 15, None, 8),
    (1, 0, 17, None, 16),
    (1, 0, 34, None, 16),
    (1, 0, 35, Some((17, 0)), 16),
    (1, 0, 35, Some((16, 1)), 16),
    (1, 0, 35, Some((21, 1)), 18),
];

#[test]
fn damaged_frames(rt: HostRuntime) -> Result<(), Fail> {
    let mut actions = Vec::with_capacity(rt.alloc(), MOST_ENTRIES)?;
    for (epoch, count, length, change, at) in DAMAGED {
        let mut frame = CLOCK_FRAME;
        if let Some((place, byte)) = change {
            *frame.get_mut(place).ok_or("place")? = byte;
        }
        let bytes = frame.get(..length).ok_or("length")?;
        same_at(
            (length, change, epoch, count),
            read_frame(bytes, epoch, count, &mut actions, Version::V02),
            Err(Damage { at }),
        )?;
    }
    Ok(())
}

/// A frame of PRIO 0 3, without its gate.
const PRIORITY_FRAME: [u8; 35] = [
    0, 0, 0, 0, 0, 0, 0, 2, 0, 0, 0, 0, 0, 0, 0, 3, 0, 1, 9, 0, 0, 0, 0, 0, 0, 0, 0, 0, 0, 0, 0, 0,
    0, 3, 0,
];

#[test]
fn a_frame_of_version_02(rt: HostRuntime) -> Result<(), Fail> {
    let mut actions = Vec::with_capacity(rt.alloc(), MOST_ENTRIES)?;
    let mut out = [9; 35];
    let priorities = [unsaid(Action::SetPriority(AlarmId(0), 3))];
    write_frame_body(2, 3, &priorities, &mut out, Version::V02);
    assert!(rt; out[..] == PRIORITY_FRAME[..]);
    same(
        read_frame(&PRIORITY_FRAME, 2, 2, &mut actions, Version::V02),
        Ok(34),
    )?;
    same(actions.as_slice(), priorities.as_slice())?;
    same(
        read_frame(&PRIORITY_FRAME, 2, 2, &mut actions, Version::V01),
        Err(Damage { at: 18 }),
    )?;
    assert!(rt; actions.is_empty());
    Ok(())
}

#[test]
fn the_longest_frame(rt: HostRuntime) -> Result<(), Fail> {
    let mut actions = Vec::with_capacity(rt.alloc(), MOST_ENTRIES)?;
    let all = [unsaid(Action::Ack(AlarmId(7))); 256];
    let mut out = [0; 4115];
    write_frame_body(u64::MAX, 5, &all, &mut out, Version::V02);
    same(
        read_frame(&out, u64::MAX, 4, &mut actions, Version::V02),
        Ok(4114),
    )?;
    same(actions.as_slice(), all.as_slice())?;
    out[18 + 16 * 255] = 0;
    same(
        read_frame(&out, u64::MAX, 4, &mut actions, Version::V02),
        Err(Damage { at: 4098 }),
    )?;
    Ok(())
}

/// A frame of CLOCK 1000 in version 03, without its gate: its checksum is at 14. With the next gate closed.
const SUMMED_FRAME: [u8; 35] = [
    0, 0, 0, 0, 0, 0, 0, 1, 0, 0, 0, 1, 0, 255, 0x13, 0xe5, 0xc8, 0xa0, 1, 0, 0, 0, 0, 0, 0, 0, 0,
    0, 0, 0, 0, 0, 3, 0xe8, 0x5a,
];

#[test]
fn a_frame_of_version_03(rt: HostRuntime) -> Result<(), Fail> {
    let mut actions = Vec::with_capacity(rt.alloc(), MOST_ENTRIES)?;
    let mut out = [9; 36];
    let clock = unsaid(Action::Clock(moment_of(1000)?));
    write_frame_body(1, 1, &[clock], &mut out, Version::V03);
    assert!(rt; out[..35] == SUMMED_FRAME[..] && out[35] == 9);
    same(
        read_frame(&SUMMED_FRAME, 1, 0, &mut actions, Version::V03),
        Ok(34),
    )?;
    same(actions.as_slice(), [clock].as_slice())?;
    for version in [Version::V01, Version::V02] {
        same(
            read_frame(&SUMMED_FRAME, 1, 0, &mut actions, version),
            Err(Damage { at: 8 }),
        )?;
    }
    Ok(())
}

/// Where a changed byte of that frame is reported: at the field that breaks its rule, else at the checksum. Each is the end of
/// some bytes, and the place.
const REPORTED_AT: [(usize, usize); 4] = [(8, 0), (12, 8), (14, 12), (34, 14)];

#[test]
fn a_changed_byte_is_reported(rt: HostRuntime) -> Result<(), Fail> {
    let mut actions = Vec::with_capacity(rt.alloc(), MOST_ENTRIES)?;
    for place in 0..34usize {
        let (_, at) = *REPORTED_AT
            .iter()
            .find(|(end, _)| place < *end)
            .ok_or("place")?;
        for change in 1..=255u8 {
            let mut frame = SUMMED_FRAME;
            let byte = frame.get_mut(place).ok_or("place")?;
            *byte ^= change;
            same_at(
                (place, change),
                read_frame(&frame, 1, 0, &mut actions, Version::V03),
                Err(Damage { at }),
            )?;
        }
    }
    Ok(())
}

/// Number, count and checksum of the longest frame of ACK 7, the fifth action of the last epoch.
const LONGEST_HEAD: [u8; 10] = [0, 0, 0, 5, 0xff, 0, 0x6f, 0x8e, 0x58, 0x1a];

#[test]
fn the_longest_frame_of_version_03(rt: HostRuntime) -> Result<(), Fail> {
    let mut actions = Vec::with_capacity(rt.alloc(), MOST_ENTRIES)?;
    let all = [unsaid(Action::Ack(AlarmId(7))); 256];
    let mut out = [0; 4115];
    write_frame_body(u64::MAX, 5, &all, &mut out, Version::V03);
    assert!(rt; out[8..18] == LONGEST_HEAD[..]);
    same(
        read_frame(&out, u64::MAX, 4, &mut actions, Version::V03),
        Ok(4114),
    )?;
    same(actions.as_slice(), all.as_slice())?;
    Ok(())
}

/// A frame of version 03 with CLOCK 1000 of slot 17 and ACK 7 of slot 15.
const ASKED_FRAME: [u8; 51] = [
    0, 0, 0, 0, 0, 0, 0, 1, 0, 0, 0, 1, 1, 254, 134, 194, 189, 199, 1, 18, 0, 0, 0, 0, 0, 0, 0, 0,
    0, 0, 0, 0, 3, 232, 3, 16, 0, 0, 0, 0, 0, 7, 0, 0, 0, 0, 0, 0, 0, 0, 90,
];

#[test]
fn version_03_says_who_asked(rt: HostRuntime) -> Result<(), Fail> {
    let mut actions = Vec::with_capacity(rt.alloc(), MOST_ENTRIES)?;
    let mut out = [9; 52];
    let clock = Action::Clock(moment_of(1000)?);
    let all = [
        asked(17, clock, Version::V03)?,
        asked(15, Action::Ack(AlarmId(7)), Version::V03)?,
    ];
    write_frame_body(1, 1, &all, &mut out, Version::V03);
    assert!(rt; out[..51] == ASKED_FRAME[..] && out[51] == 9);
    same(
        read_frame(&ASKED_FRAME, 1, 0, &mut actions, Version::V03),
        Ok(50),
    )?;
    same(actions.as_slice(), all.as_slice())?;
    Ok(())
}
