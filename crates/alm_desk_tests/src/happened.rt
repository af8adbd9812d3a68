//! What happened, as SINCE reports it, and acknowledgements of what was seen: what the desk replies to each line, each row on a new
//! plant of the worked table.

use crate::check::{Row, check, prints};
use crate::desk::new_desk;
use alm_desk::{Backend, LocalDesk};
use std::alloc::Global;
use std::test::Fail;

/// Each row by its name.
const ROWS: [(&str, Row); 4] = [
    (
        "What was accepted is told, after a number and without one",
        &[
            (5, "1 SINCE", "1 SINCE 0 1 0"),
            (17, "1 CLOCK 1000", "1 OK 1"),
            (16, "1 VAL 0 800", "1 OK 2"),
            (16, "2 VAL 0 800", "2 NO 9"),
            (
                5,
                "2 SINCE",
                "2 SINCE 2 1 2 1000 17 CLOCK 1000 1000 16 VAL 0 800",
            ),
            (0, "1 ACK 0 1", "1 OK 3"),
            (17, "3 SINCE 2", "3 SINCE 3 3 1 1000 0 ACK 0"),
            (16, "4 SINCE 3", "4 SINCE 3 4 0"),
            (
                15,
                "5 SINCE 1",
                "5 SINCE 3 2 2 1000 16 VAL 0 800 1000 0 ACK 0",
            ),
        ],
    ),
    (
        "The numbers of SINCE",
        &[
            (0, "1 SINCE 281474976710656", "1 SINCE 0 281474976710657 0"),
            (0, "2 SINCE 281474976710657", "2 NO 13"),
            (0, "3 SINCE 00", "3 NO 13"),
            (0, "4 SINCE -1", "4 NO 13"),
            (0, "5 SINCE 0 1", "5 NO 13"),
            (0, "4294967295 SINCE 0", "4294967295 SINCE 0 1 0"),
        ],
    ),
    (
        "An action of each kind is told as it was asked for",
        &[
            (17, "1 CLOCK 1099511627775", "1 OK 1"),
            (16, "1 VAL 2 1", "1 OK 2"),
            (16, "2 VAL 2 -5", "2 OK 3"),
            (0, "1 ACK 2", "1 OK 4"),
            (1, "1 RESET 2", "1 OK 5"),
            (3, "1 OOS 1 ON", "1 OK 6"),
            (16, "3 DESIGN 3 ON", "3 OK 7"),
            (15, "1 PRIO 3 4", "1 OK 8"),
            (4, "1 SETP 1 -12", "1 OK 9"),
            (
                2,
                "1 SINCE 1",
                "1 SINCE 9 2 8 1099511627775 16 VAL 2 1 1099511627775 16 VAL 2 -5 1099511627775 0 ACK 2 1099511627775 1 RESET 2 1099511627775 3 OOS 1 ON 1099511627775 16 DESIGN 3 ON 1099511627775 15 PRIO 3 4 1099511627775 4 SETP 1 -12",
            ),
            (3, "2 OOS 1 OFF", "2 OK 10"),
            (2, "2 SINCE 9", "2 SINCE 10 10 1 1099511627775 3 OOS 1 OFF"),
        ],
    ),
    (
        "An acknowledgement of one annunciation",
        &[
            (17, "1 CLOCK 1000", "1 OK 1"),
            (0, "1 SHELVE 1 60", "1 OK 2"),
            (0, "2 UNSHELVE 1", "2 OK 3"),
            (16, "1 VAL 0 800", "1 OK 4"),
            (0, "3 ACK 0 1", "3 NO 22"),
            (0, "4 ACK 0 0", "4 NO 22"),
            (16, "2 VAL 0 700", "2 OK 5"),
            (16, "3 VAL 0 810", "3 OK 6"),
            (0, "5 ACK 0 2", "5 NO 22"),
            (0, "6 ACK 9 3", "6 NO 1"),
            (16, "4 ACK 0 3", "4 NO 11"),
            (0, "7 ACK 0 03", "7 NO 13"),
            (0, "8 ACK 0 9223372036854775807", "8 NO 22"),
            (0, "9 ACK 0 9223372036854775808", "9 NO 13"),
            (0, "10 ACK 0 3", "10 OK 7"),
            (0, "11 ACK 0 3", "11 NO 2"),
            (
                0,
                "12 SINCE 1",
                "12 SINCE 7 2 6 1000 0 SHELVE 1 60 1000 0 UNSHELVE 1 1000 16 VAL 0 800 1000 16 VAL 0 700 1000 16 VAL 0 810 1000 0 ACK 0",
            ),
        ],
    ),
];

#[test]
fn each_row(rt: HostRuntime) -> Result<(), Fail> {
    for (name, row) in ROWS {
        check(&rt, name, row)?;
    }
    Ok(())
}

/// 65,537 moments of the clock, one more than are remembered, and their replies.
fn many_moments(alloc: Global) -> Result<(String, String), Fail> {
    let mut lines = String::new(alloc);
    let mut replies = String::new(alloc);
    for moment in 1..=65_537_u32 {
        lines.push_str(format!(in alloc; "17 1 CLOCK {moment}\n")?.as_str())?;
        replies.push_str(format!(in alloc; "17 1 OK {moment}\n")?.as_str())?;
    }
    Ok((lines, replies))
}

/// What is asked then, and the replies: the first moment is forgotten, and 256 are reported at once.
fn asked_then(alloc: Global) -> Result<(&'static str, String), Fail> {
    let lines = "0 1 SINCE 0\n0 2 SINCE\n0 3 SINCE 65536\n0 4 SINCE 65537\n";
    let mut replies = String::new(alloc);
    replies.push_str("0 1 NO 21\n0 2 SINCE 65537 2 256")?;
    for moment in 2..=257_u32 {
        replies.push_str(format!(in alloc; " {moment} 17 CLOCK {moment}")?.as_str())?;
    }
    replies.push_str("\n0 3 SINCE 65537 65537 1 65537 17 CLOCK 65537\n")?;
    replies.push_str("0 4 SINCE 65537 65538 0\n")?;
    Ok((lines, replies))
}

/// Whether a desk forgets the first of these.
fn forgets<B: Backend + Drop>(alloc: Global, desk: &mut LocalDesk<B>) -> Result<bool, Fail> {
    let (lines, replies) = many_moments(alloc)?;
    let (asked, told) = asked_then(alloc)?;
    let before = prints(
        alloc,
        desk,
        lines.as_str().as_bytes(),
        replies.as_str().as_bytes(),
    );
    Ok(before && prints(alloc, desk, asked.as_bytes(), told.as_str().as_bytes()))
}

#[test]
fn the_first_of_65537_is_forgotten(rt: HostRuntime) -> Result<(), Fail> {
    let mut desk = new_desk(rt.alloc())?;
    let same = forgets(rt.alloc(), &mut desk);
    drop(desk);
    assert!(rt; same?);
    Ok(())
}
