//! A device that an earlier release wrote stays usable.

use crate::runs::{DONE, Run, first_wrong};
use alm_common_tests::same;
use std::fs;
use std::test::Fail;

/// How many bytes the device has.
const SIZE: usize = 28_997;

/// What is on it, by places: version 01, the worked table, and the frames of CLOCK 1000 and of VAL 0 800. The other bytes are
/// zeros.
const PARTS: [(usize, &[u8]); 10] = [
    (
        0,
        &[
            0xa5, 0x41, 0x4c, 0x4d, 0x53, 0x52, 0x56, 0x30, 0x31, 0, 0, 0, 4, 0, 2, 0, 0, 0, 0, 0,
            0, 0x10, 0x14, 0xa5, 0, 0, 0, 0, 0, 0, 0, 1,
        ],
    ),
    (46, &[0x28, 0x6a]),
    (63, &[1]),
    (
        9666,
        &[
            1, 1, 0, 0, 0, 0, 0, 0, 0, 0, 3, 0x20, 0, 0, 0, 0, 0, 0, 0, 0x0a, 0, 0, 0x0e, 0x10, 6,
            0x54, 0x49, 0x2d, 0x31, 0x30, 0x31,
        ],
    ),
    (
        9848,
        &[
            2, 2, 0, 0, 0, 0, 0, 0, 0, 0, 0, 0x64, 0, 0, 0, 0, 0, 0, 0, 5, 0, 0, 0x0e, 0x10, 6,
            0x50, 0x49, 0x2d, 0x31, 0x30, 0x32,
        ],
    ),
    (
        10_030,
        &[
            3, 1, 1, 1, 0, 0, 0, 0, 0, 0, 0, 1, 0, 0, 0, 0, 0, 0, 0, 0, 0, 0, 0, 0, 6, 0x58, 0x53,
            0x2d, 0x32, 0x30, 0x31,
        ],
    ),
    (
        10_212,
        &[
            1, 3, 1, 0, 0, 0, 0, 0, 0, 0, 0, 0x32, 0, 0, 0, 0, 0, 0, 0, 0, 0, 0, 0, 0, 6, 0x4c,
            0x49, 0x2d, 0x32, 0x30, 0x32,
        ],
    ),
    (
        10_394,
        &[
            0xa5, 0, 0, 0, 0, 0, 0, 0, 1, 0, 0, 0, 0, 0, 0, 0, 1, 0, 1, 1,
        ],
    ),
    (
        10_427,
        &[
            3, 0xe8, 0xa5, 0, 0, 0, 0, 0, 0, 0, 1, 0, 0, 0, 0, 0, 0, 0, 2, 0, 1, 2,
        ],
    ),
    (10_462, &[3, 0x20]),
];

const LINES: &[u8] = b"0 1 STATE 0
0 2 ACK 0
16 3 VAL 0 700
0 4 STATE 0
16 5 VAL 1 90
0 6 LIST P 2
0 7 PRIO 1 3
0 8 LIST P 2
0 9 LIST P 3
0 10 PRIO 1 3
0 11 SETP 1 50
0 12 STATE 1
16 13 VAL 1 56
0 14 STATE 1
";

const REPLIES: &[u8] = b"0 1 STATE 2 UNACK 1 - -
0 2 OK 3
16 3 OK 4
0 4 STATE 4 NORM 0 - -
16 5 OK 5
0 6 LIST 5 1 1
0 7 OK 6
0 8 LIST 6 0
0 9 LIST 6 1 1
0 10 NO 20
0 11 OK 7
0 12 STATE 7 UNACK 1 - -
16 13 OK 8
0 14 STATE 8 RTNUN 0 - -
";

/// The first priority brings about a checkpoint of version 02.
const GOES_ON: [Run; 1] = [(
    b"alm_server\ndesk\nearlier.device\n",
    LINES,
    (DONE, REPLIES, b""),
)];

/// Puts the parts in their places.
fn put_parts(bytes: &mut [u8]) -> Option<()> {
    for (place, part) in PARTS {
        let room = bytes.get_mut(place..)?.get_mut(..part.len())?;
        room.copy_from_slice(part);
    }
    Some(())
}

#[test]
fn a_device_of_an_earlier_release_goes_on(rt: HostRuntime) -> Result<(), Fail> {
    let mut bytes = vec![in rt.alloc(); 0u8; SIZE]?;
    put_parts(&mut bytes).ok_or("a place")?;
    fs::write(&rt, "earlier.device", bytes.as_slice())?;
    same(first_wrong(&rt, &GOES_ON), None)?;
    Ok(())
}
