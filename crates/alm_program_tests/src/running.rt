//! The program from its words to its status.

use crate::runs::{BROKEN, DONE, Ending, USAGE, ends, ends_over};
use crate::script::Step;
use alm_common_tests::holds_at;
use std::test::Fail;

/// The words of a desk.
const DESK: &[u8] = b"alm_server\ndesk\n";

/// Words that the program doesn't have.
const WORDS: [&[u8]; 13] = [
    b"",
    b"alm_server\n",
    b"alm_server\n\n",
    b"alm_server\nDesk\n",
    b"alm_server\ndesk \n",
    b"alm_server\ndesk\nextra\nmore\n",
    b"alm_server\nextra\ndesk\n",
    b"alm_server\ndes\xff\n",
    b"alm_server\nexport\n",
    b"alm_server\nshow\none.device\nmore\n",
    b"alm_server\nhelp\n",
    b"alm_server\n--help\ndesk\n",
    b"alm_server\ndesk\n--version\n",
];

#[test]
fn words_that_are_none_of_the_programs(rt: HostRuntime) -> Result<(), Fail> {
    for (row, words) in WORDS.iter().enumerate() {
        let same = ends(&rt, words, b"0 1 STATE 0\n", (USAGE, b"", b"fault usage\n"));
        holds_at(row, same)?;
    }
    Ok(())
}

/// What is printed of its version.
const VERSION: Ending<'static> = (DONE, b"alm_server 0.4.0\n", b"");

#[test]
fn it_prints_its_version(rt: HostRuntime) {
    assert!(rt; ends(&rt, b"alm_server\n--version\n", b"", VERSION));
}

#[test]
fn an_empty_input_prints_nothing(rt: HostRuntime) {
    assert!(rt; ends_over(&rt, DESK, &[], 0, (DONE, b"", b"")));
}

/// Steps of an input of which the fourth fails.
const FAILS: [Step<'static>; 5] = [
    Step::Gives(b"16 1 VAL 0 8"),
    Step::Interrupted,
    Step::Gives(b"00\n0 2 STATE 0"),
    Step::Fails,
    Step::Gives(b"\n"),
];

/// How a run ends over a number of them.
const ENDS: [(usize, Ending<'static>); 4] = [
    (2, (DONE, b"", b"")),
    (3, (DONE, b"16 1 OK 1\n", b"")),
    (4, (BROKEN, b"16 1 OK 1\n", b"fault io\n")),
    (5, (BROKEN, b"16 1 OK 1\n", b"fault io\n")),
];

/// Whether the desk over the first `length` of these steps ends so.
fn ends_behind(rt: &HostRuntime, steps: &[Step<'_>], length: usize, ending: Ending<'_>) -> bool {
    match steps.get(..length) {
        Some(steps) => ends_over(rt, DESK, steps, 100, ending),
        None => false,
    }
}

#[test]
fn a_reader_that_fails_is_a_fault_after_what_was_read(rt: HostRuntime) -> Result<(), Fail> {
    for (length, ending) in ENDS {
        let same = ends_behind(&rt, &FAILS, length, ending);
        holds_at(length, same)?;
    }
    Ok(())
}

/// Three lines in three reads, and their replies of 10, 9 and 24 bytes.
const LINES: [Step<'static>; 3] = [
    Step::Gives(b"16 1 VAL 0 800\n"),
    Step::Gives(b"0 2 ACK 0\n0 "),
    Step::Gives(b"3 STATE 0\n"),
];

const REPLIES: &[u8] = b"16 1 OK 1\n0 2 OK 2\n0 3 STATE 2 ACKED 1 - -\n";

/// How many bytes go out in how many writes, of which each takes three.
const TAKEN: [usize; 16] = [0, 3, 6, 9, 10, 13, 16, 19, 22, 25, 28, 31, 34, 37, 40, 43];

#[test]
fn a_failed_write_is_a_fault_at_each_write(rt: HostRuntime) -> Result<(), Fail> {
    for (writes, taken) in TAKEN.iter().enumerate() {
        let printed = REPLIES.get(..*taken).unwrap_or(&[]);
        let ending = if *taken == REPLIES.len() {
            (DONE, printed, b"".as_slice())
        } else {
            (BROKEN, printed, b"fault io\n".as_slice())
        };
        let same = ends_over(&rt, DESK, &LINES, writes, ending);
        holds_at(writes, same)?;
    }
    Ok(())
}
