//! Stories of the desk in memory, line by line.

use crate::runs::{DONE, Run, first_wrong};
use alm_common_tests::same;
use std::test::Fail;

/// A shelving that the clock ends, and the alarm that is annunciated again.
const SHELVING: &[u8] = b"17 1 CLOCK 1000
16 2 VAL 1 90
0 3 SHELVE 1 600
0 4 STATE 1
0 5 LIST S 64
0 6 LIST A 0
17 7 CLOCK 1599
0 8 STATE 1
17 9 CLOCK 1600
0 10 STATE 1
0 11 LIST A 0
";

const SHELVING_REPLIES: &[u8] = b"17 1 OK 1
16 2 OK 2
0 3 OK 3
0 4 STATE 3 SHLVD 1 S 1600
0 5 LIST 3 1 1
0 6 LIST 3 0
17 7 OK 4
0 8 STATE 4 SHLVD 1 S 1600
17 9 OK 5
0 10 STATE 5 UNACK 1 - -
0 11 LIST 5 1 1
";

/// More than ten annunciations in ten minutes, and the end of the flood.
const FLOOD: &[u8] = b"17 1 CLOCK 1000
16 2 VAL 0 800
16 3 VAL 0 700
16 4 VAL 0 800
16 5 VAL 0 700
16 6 VAL 0 800
16 7 VAL 0 700
16 8 VAL 0 800
16 9 VAL 0 700
16 10 VAL 0 800
16 11 VAL 0 700
16 12 VAL 0 800
16 13 VAL 0 700
16 14 VAL 0 800
16 15 VAL 0 700
16 16 VAL 0 800
16 17 VAL 0 700
16 18 VAL 0 800
16 19 VAL 0 700
16 20 VAL 0 800
16 21 VAL 0 700
0 22 FLOOD 0
16 23 VAL 0 800
16 24 VAL 0 700
0 25 FLOOD 0
17 26 CLOCK 1599
0 27 FLOOD 0
17 28 CLOCK 1600
0 29 FLOOD 0
";

const FLOOD_REPLIES: &[u8] = b"17 1 OK 1
16 2 OK 2
16 3 OK 3
16 4 OK 4
16 5 OK 5
16 6 OK 6
16 7 OK 7
16 8 OK 8
16 9 OK 9
16 10 OK 10
16 11 OK 11
16 12 OK 12
16 13 OK 13
16 14 OK 14
16 15 OK 15
16 16 OK 16
16 17 OK 17
16 18 OK 18
16 19 OK 19
16 20 OK 20
16 21 OK 21
0 22 FLOOD 21 10 0
16 23 OK 22
16 24 OK 23
0 25 FLOOD 23 11 1
17 26 OK 24
0 27 FLOOD 24 11 1
17 28 OK 25
0 29 FLOOD 25 0 0
";

/// An operator's morning: two alarms, one of which is acknowledged and goes, and a latched one that must be reset. Then
/// the first gets another setpoint and another priority.
const MORNING: &[u8] = b"17 1 CLOCK 21600
16 2 VAL 0 812
16 3 VAL 2 1
0 4 LIST P 1
0 5 ACK 0
16 6 VAL 0 780
0 7 STATE 0
0 8 ACK 2
16 9 VAL 2 0
0 10 STATE 2
0 11 RESET 2
0 12 LIST P 1
0 13 SETP 0 850
16 14 VAL 0 812
16 15 VAL 0 850
0 16 PRIO 0 2
0 17 LIST P 2
0 18 PRIO 0 5
";

const MORNING_REPLIES: &[u8] = b"17 1 OK 1
16 2 OK 2
16 3 OK 3
0 4 LIST 3 2 0 2
0 5 OK 4
16 6 OK 5
0 7 STATE 5 NORM 0 - -
0 8 OK 6
16 9 OK 7
0 10 STATE 7 LATAK 0 - -
0 11 OK 8
0 12 LIST 8 0
0 13 OK 9
16 14 NO 9
16 15 OK 10
0 16 OK 11
0 17 LIST 11 1 0
0 18 NO 19
";

/// The words of a desk.
const DESK: &[u8] = b"alm_server\ndesk\n";

const STORIES: [Run; 3] = [
    (DESK, SHELVING, (DONE, SHELVING_REPLIES, b"")),
    (DESK, FLOOD, (DONE, FLOOD_REPLIES, b"")),
    (DESK, MORNING, (DONE, MORNING_REPLIES, b"")),
];

#[test]
fn stories_are_told_as_they_should_be(rt: HostRuntime) -> Result<(), Fail> {
    same(first_wrong(&rt, &STORIES), None)?;
    Ok(())
}
