//! A desk over a device that stops.

use crate::device_desk::{answers, opens};
use alm_common_tests::holds_at;
use std::test::Fail;

/// Three actions, four device calls each, a query and a line that isn't valid.
const LINES: &[u8] = b"17 1 CLOCK 1000\n16 2 VAL 0 800\n0 3 ACK 0\n0 4 STATE 0\n0 5 ACK\n";

/// What is printed if the device stops within an action.
const PRINTS: [&[u8]; 4] = [
    b"17 1 NO 15\n16 2 NO 15\n0 3 NO 15\n0 4 NO 15\n0 5 NO 13\n",
    b"17 1 OK 1\n16 2 NO 15\n0 3 NO 15\n0 4 NO 15\n0 5 NO 13\n",
    b"17 1 OK 1\n16 2 OK 2\n0 3 NO 15\n0 4 NO 15\n0 5 NO 13\n",
    b"17 1 OK 1\n16 2 OK 2\n0 3 OK 3\n0 4 STATE 3 ACKED 1 - -\n0 5 NO 13\n",
];

/// Ten calls format the device, and a sync and five reads open it.
const FORMAT: usize = 10;

const OPENING: usize = 6;

#[test]
fn a_device_that_stops_answers_nothing_any_more(rt: HostRuntime) -> Result<(), Fail> {
    let alloc = rt.alloc();
    for calls in 0..OPENING {
        let opened = opens(alloc, FORMAT + calls);
        holds_at(calls, !opened)?;
    }
    for calls in 0..14 {
        let done = (calls / 4).min(3);
        let same = answers(
            alloc,
            FORMAT + OPENING + calls,
            LINES,
            PRINTS[done],
            done < 3,
        );
        holds_at(calls, same)?;
    }
    Ok(())
}
