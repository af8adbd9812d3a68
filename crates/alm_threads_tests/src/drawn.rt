//! The drawn requests.

use alm_types::{Action, AlarmId, Moment, Reading, Slot};

/// A number that is drawn for a slot's request of a serial.
fn number(slot: u64, serial: u64) -> u64 {
    let mut drawn = serial
        .wrapping_mul(18)
        .wrapping_add(slot)
        .wrapping_mul(0x9E37_79B9_7F4A_7C15);
    drawn ^= drawn >> 29;
    drawn = drawn.wrapping_mul(0xBF58_476D_1CE4_E5B9);
    drawn ^ (drawn >> 32)
}

/// What a console asks for.
fn of_console(drawn: u64) -> Action {
    // The last one is of no alarm.
    let alarm = AlarmId(((drawn >> 8) % 5) as u32);
    let on = (drawn >> 16) % 2 == 0;
    match drawn % 8 {
        0 | 1 | 2 => Action::Ack(alarm),
        3 => Action::Reset(alarm),
        4 => Action::Shelve(alarm, ((drawn >> 20) % 4000) as u32),
        5 => Action::Unshelve(alarm),
        6 => Action::Oos(alarm, on),
        _ => Action::Design(alarm, on),
    }
}

/// What a slot asks for by a serial: the feed a value, the clock its next moment, and a console anything else.
pub fn drawn(slot: Slot, serial: u64) -> Action {
    let drawn = number(u64::from(slot.number()), serial);
    let value = Reading::new(((drawn >> 20) % 1000) as i64);
    match (slot.number(), value, Moment::new(serial % 1_000_000)) {
        (16, Some(reading), _) => Action::Value(AlarmId(((drawn >> 8) % 5) as u32), reading),
        (17, _, Some(moment)) => Action::Clock(moment),
        _ => of_console(drawn),
    }
}
