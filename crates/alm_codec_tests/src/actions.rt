//! The texts of actions.

use alm_codec::{Damage, Version, read_action, write_action};
use alm_common_tests::{holds_at, moment_of, reading_of};
use alm_types::{Action, AlarmId};
use std::test::Fail;

/// Whether an action and a text are each other's in version 02.
fn is_new_text(action: &Action, text: &[u8; 16]) -> bool {
    let mut out = [9; 17];
    write_action(action, &mut out);
    read_action(text, Version::V02) == Ok(*action) && out[..16] == text[..] && out[16] == 9
}

/// Whether a text is read as an action in version 01 too.
fn is_old_text(action: &Action, text: &[u8; 16]) -> bool {
    read_action(text, Version::V01) == Ok(*action)
}

/// Whether they are so in both versions.
fn is_text(action: Action, text: &[u8; 16]) -> bool {
    is_new_text(&action, text) && is_old_text(&action, text)
}

fn is_none_in(text: &[u8], version: Version) -> bool {
    read_action(text, version) == Err(Damage { at: 0 })
}

fn is_none(text: &[u8]) -> bool {
    is_none_in(text, Version::V01) && is_none_in(text, Version::V02)
}

/// The texts of actions of alarms.
const TEXTS: [(Action, [u8; 16]); 6] = [
    (
        Action::Ack(AlarmId(0)),
        [3, 0, 0, 0, 0, 0, 0, 0, 0, 0, 0, 0, 0, 0, 0, 0],
    ),
    (
        Action::Reset(AlarmId(258)),
        [4, 0, 0, 0, 0, 0, 1, 2, 0, 0, 0, 0, 0, 0, 0, 0],
    ),
    (
        Action::Shelve(AlarmId(0), 3600),
        [5, 0, 0, 0, 0, 0, 0, 0, 0, 0, 0, 0, 0, 0, 0x0e, 0x10],
    ),
    (
        Action::Unshelve(AlarmId(3)),
        [6, 0, 0, 0, 0, 0, 0, 3, 0, 0, 0, 0, 0, 0, 0, 0],
    ),
    (
        Action::Oos(AlarmId(2), true),
        [7, 0, 0, 0, 0, 0, 0, 2, 0, 0, 0, 0, 0, 0, 0, 1],
    ),
    (
        Action::Design(AlarmId(3), false),
        [8, 0, 0, 0, 0, 0, 0, 3, 0, 0, 0, 0, 0, 0, 0, 0],
    ),
];

/// Bytes that are no action in either version.
const NONE: [&[u8]; 14] = [
    &[],
    &[3, 0, 0, 0, 0, 0, 0, 0, 0, 0, 0, 0, 0, 0, 0],
    &[3, 0, 0, 0, 0, 0, 0, 0, 0, 0, 0, 0, 0, 0, 0, 0, 0],
    &[0, 0, 0, 0, 0, 0, 0, 0, 0, 0, 0, 0, 0, 0, 0, 0],
    &[9, 0, 0, 0, 0, 0, 0, 0, 0, 0, 0, 1, 0, 0, 0, 0],
    &[10, 0, 0, 0, 0, 0, 0, 0, 0, 0, 0, 0xe8, 0xd4, 0xa5, 0x10, 1],
    &[11, 0, 0, 0, 0, 0, 0, 0, 0, 0, 0, 0, 0, 0, 0, 0],
    &[3, 0, 0, 1, 0, 0, 0, 0, 0, 0, 0, 0, 0, 0, 0, 0],
    &[3, 0, 0, 0, 0, 0, 0, 0, 0, 0, 0, 0, 0, 0, 0, 1],
    &[1, 0, 0, 0, 0, 0, 0, 1, 0, 0, 0, 0, 0, 0, 3, 0xe8],
    &[1, 0, 0, 0, 0, 0, 0, 0, 0, 0, 1, 0, 0, 0, 0, 0],
    &[2, 0, 0, 0, 0, 0, 0, 0, 0, 0, 0, 0xe8, 0xd4, 0xa5, 0x10, 1],
    &[5, 0, 0, 0, 0, 0, 0, 0, 0, 0, 0, 1, 0, 0, 0, 0],
    &[7, 0, 0, 0, 0, 0, 0, 0, 0, 0, 0, 0, 0, 0, 0, 2],
];

#[test]
fn texts_of_moments_and_values(rt: HostRuntime) -> Result<(), Fail> {
    let moment = moment_of(1000)?;
    let high = reading_of(800)?;
    let below = reading_of(-5)?;
    assert!(rt;
        is_text(
            Action::Clock(moment),
            &[1, 0, 0, 0, 0, 0, 0, 0, 0, 0, 0, 0, 0, 0, 3, 0xe8]
        )
    );
    assert!(rt;
        is_text(
            Action::Value(AlarmId(0), high),
            &[2, 0, 0, 0, 0, 0, 0, 0, 0, 0, 0, 0, 0, 0, 3, 0x20]
        )
    );
    assert!(rt;
        is_text(
            Action::Value(AlarmId(1), below),
            &[
                2, 0, 0, 0, 0, 0, 0, 1, 255, 255, 255, 255, 255, 255, 255, 0xfb
            ]
        )
    );
    Ok(())
}

#[test]
fn texts_of_actions_of_alarms() -> Result<(), Fail> {
    for (row, (action, text)) in TEXTS.iter().enumerate() {
        holds_at(row, is_text(*action, text))?;
    }
    Ok(())
}

#[test]
fn texts_of_version_02_alone(rt: HostRuntime) -> Result<(), Fail> {
    let priority = [9, 0, 0, 0, 0, 0, 0, 2, 0, 0, 0, 0, 0, 0, 0, 2];
    assert!(rt; is_new_text(&Action::SetPriority(AlarmId(2), 2), &priority));
    assert!(rt; is_none_in(&priority, Version::V01));
    let setpoint = [10, 0, 0, 0, 0, 0, 0, 0, 0, 0, 0, 0, 0, 0, 3, 0x84];
    let reading = reading_of(900)?;
    assert!(rt; is_new_text(&Action::SetSetpoint(AlarmId(0), reading), &setpoint));
    assert!(rt; is_none_in(&setpoint, Version::V01));
    Ok(())
}

#[test]
fn bytes_that_are_no_action() -> Result<(), Fail> {
    for (row, bytes) in NONE.iter().enumerate() {
        holds_at(row, is_none(bytes))?;
    }
    Ok(())
}
