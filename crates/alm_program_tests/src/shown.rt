//! What is shown of alarms that are shelved, flagged and off, on a device with longer segments.

use crate::runs::{DONE, Run, first_wrong};
use alm_common_tests::same;
use std::fs;
use std::test::Fail;

/// The worked table, for a device of 60,002 bytes.
const TABLE: &[u8] = b"size = 60002
areas = 2

[[alarm]]
kind = \"high\"
setpoint = 800
deadband = 10
priority = 1
area = 0
max_shelve = 3600
tag = \"TI-101\"

[[alarm]]
kind = \"low\"
setpoint = 100
deadband = 5
priority = 2
area = 0
max_shelve = 3600
tag = \"PI-102\"

[[alarm]]
kind = \"discrete\"
setpoint = 1
priority = 1
area = 1
latching = true
tag = \"XS-201\"

[[alarm]]
kind = \"high\"
setpoint = 50
priority = 3
area = 1
tag = \"LI-202\"
";

/// An alarm that is on is shelved and put out of service, another one shelved alone, a third one off by design, a fourth one on.
const LINES: &[u8] = b"17 1 CLOCK 1000
16 2 VAL 0 800
0 3 SHELVE 0 60
0 4 OOS 0 ON
0 5 SHELVE 1 3600
16 6 DESIGN 2 ON
16 7 VAL 3 50
";

const REPLIES: &[u8] = b"17 1 OK 1
16 2 OK 2
0 3 OK 3
0 4 OK 4
0 5 OK 5
16 6 OK 6
16 7 OK 7
";

const SHOWN: &[u8] = b"NOW 1000 COUNT 7 EPOCH 1
ALARM 0 TI-101 OOSRV 1 OS 1060
ALARM 1 PI-102 SHLVD 0 S 4600
ALARM 2 XS-201 DSUPR 0 D -
ALARM 3 LI-202 UNACK 1 - -
P 1 0
P 2 0
P 3 1 3
P 4 0
A 0 0 FLOOD 1 0
A 1 1 3 FLOOD 1 0
";

/// A segment has half of what the header leaves, rounded down, without a half's head and its image of 10,346 bytes.
const RUNS: [Run; 3] = [
    (
        b"alm_server\nformat\nlong.device\nlong.toml\n",
        b"",
        (DONE, b"formatted 4 2 19618\n", b""),
    ),
    (
        b"alm_server\ndesk\nlong.device\n",
        LINES,
        (DONE, REPLIES, b""),
    ),
    (b"alm_server\nshow\nlong.device\n", b"", (DONE, SHOWN, b"")),
];

#[test]
fn alarms_are_shown_with_their_flags(rt: HostRuntime) -> Result<(), Fail> {
    fs::write(&rt, "long.toml", TABLE)?;
    same(first_wrong(&rt, &RUNS), None)?;
    Ok(())
}
