//! The program over devices, in files of the tests' own folder.

use crate::runs::{BROKEN, DONE, Run, TABLE_FAULT, USAGE, ends, first_wrong};
use alm_common_tests::{holds_at, same};
use std::fs;
use std::os::unix::fs::MetadataExt;
use std::test::Fail;

/// The worked table, in two parts.
pub const SIZES: &str = "size = 28997\nareas = 2\n";

pub const ALARMS: &str = "[[alarm]]
kind = \"high\"
setpoint = 800
deadband = 10
priority = 1
area = 0
max_shelve = 3600
tag = \"TI-101\"

[[alarm]]
kind = \"low\"
setpoint = 100
deadband = 5
priority = 2
area = 0
max_shelve = 3600
tag = \"PI-102\"

[[alarm]]
kind = \"discrete\"
setpoint = 1
priority = 1
area = 1
latching = true
tag = \"XS-201\"

[[alarm]]
kind = \"high\"
setpoint = 50
priority = 3
area = 1
tag = \"LI-202\"
";

/// What is shown after CLOCK 1000 and VAL 0 800.
pub const SHOWN: &[u8] = b"NOW 1000 COUNT 2 EPOCH 1
ALARM 0 TI-101 UNACK 1 - -
ALARM 1 PI-102 NORM 0 - -
ALARM 2 XS-201 NORM 0 - -
ALARM 3 LI-202 NORM 0 - -
P 1 1 0
P 2 0
P 3 0
P 4 0
A 0 1 0 FLOOD 1 0
A 1 0 FLOOD 0 0
";

/// Writes a file of these parts.
pub fn write_file(rt: &HostRuntime, path: &str, parts: &[&str]) -> Result<(), Fail> {
    let mut text = String::new(rt.alloc());
    for part in parts {
        text.push_str(part)?;
    }
    fs::write(rt, path, text.as_str().as_bytes())?;
    Ok(())
}

/// A device keeps what was answered, and its count continues; formatted again, it is new.
const KEEPS: [Run; 6] = [
    (
        b"alm_server\nformat\nkeeps.device\nkeeps.toml\n",
        b"",
        (DONE, b"formatted 4 2 4116\n", b""),
    ),
    (
        b"alm_server\ndesk\nkeeps.device\n",
        b"17 1 CLOCK 1000\n16 2 VAL 0 800\n",
        (DONE, b"17 1 OK 1\n16 2 OK 2\n", b""),
    ),
    (b"alm_server\nshow\nkeeps.device\n", b"", (DONE, SHOWN, b"")),
    (
        b"alm_server\ndesk\nkeeps.device\n",
        b"0 1 ACK 0\n0 2 STATE 0\n",
        (DONE, b"0 1 OK 3\n0 2 STATE 3 ACKED 1 - -\n", b""),
    ),
    (
        b"alm_server\nformat\nkeeps.device\nkeeps.toml\n",
        b"",
        (DONE, b"formatted 4 2 4116\n", b""),
    ),
    (
        b"alm_server\ndesk\nkeeps.device\n",
        b"17 1 CLOCK 5\n",
        (DONE, b"17 1 OK 1\n", b""),
    ),
];

#[test]
fn a_device_keeps_what_was_answered(rt: HostRuntime) -> Result<(), Fail> {
    write_file(&rt, "keeps.toml", &[SIZES, ALARMS])?;
    same(first_wrong(&rt, &KEEPS), None)?;
    let made = fs::metadata(&rt, "keeps.device")?;
    same(made.mode() & 0o777, 0o600)?;
    Ok(())
}

/// What is shown after PRIO 0 3, which comes after them, in the half of the checkpoint.
const SHOWN_UPGRADED: &[u8] = b"NOW 1000 COUNT 3 EPOCH 2
ALARM 0 TI-101 UNACK 1 - -
ALARM 1 PI-102 NORM 0 - -
ALARM 2 XS-201 NORM 0 - -
ALARM 3 LI-202 NORM 0 - -
P 1 0
P 2 0
P 3 1 0
P 4 0
A 0 1 0 FLOOD 1 0
A 1 0 FLOOD 0 0
";

/// A device is formatted.
const FORMATS: [Run; 1] = [(
    b"alm_server\nformat\nold.device\nold.toml\n",
    b"",
    (DONE, b"formatted 4 2 4116\n", b""),
)];

/// One of version 01 stays usable, and the first priority causes a checkpoint of version 02.
const UPGRADES: [Run; 4] = [
    (
        b"alm_server\ndesk\nold.device\n",
        b"17 1 CLOCK 1000\n16 2 VAL 0 800\n",
        (DONE, b"17 1 OK 1\n16 2 OK 2\n", b""),
    ),
    (b"alm_server\nshow\nold.device\n", b"", (DONE, SHOWN, b"")),
    (
        b"alm_server\ndesk\nold.device\n",
        b"0 1 PRIO 0 3\n0 2 LIST P 3\n",
        (DONE, b"0 1 OK 3\n0 2 LIST 3 1 0\n", b""),
    ),
    (
        b"alm_server\nshow\nold.device\n",
        b"",
        (DONE, SHOWN_UPGRADED, b""),
    ),
];

/// It opens again, and continues.
const GOES_ON: [Run; 1] = [(
    b"alm_server\ndesk\nold.device\n",
    b"0 1 ACK 0\n0 2 SETP 0 900\n0 3 STATE 0\n",
    (DONE, b"0 1 OK 4\n0 2 OK 5\n0 3 STATE 5 ACKED 1 - -\n", b""),
)];

/// The head of its second half, in version 02.
const HEAD: [u8; 25] = [
    0xa5, 0, 0, 0, 0, 0, 0, 0, 2, 2, 0, 0, 0, 0, 0, 0, 2, 0, 0, 0, 0, 0, 0, 0x28, 0x6a,
];

/// Makes a new device one of version 01: the name in its header and the mark of its half.
fn make_old(rt: &HostRuntime, path: &str) -> Result<(), Fail> {
    let mut bytes = fs::read(rt, path)?;
    *bytes.get_mut(8).ok_or("name")? = b'1';
    *bytes.get_mut(32).ok_or("mark")? = 0;
    fs::write(rt, path, bytes.as_slice())?;
    Ok(())
}

/// Whether a device has the header of version 01 and a second half of version 02.
fn is_upgraded(bytes: &[u8]) -> bool {
    bytes.get(1..9) == Some(b"ALMSRV01".as_slice())
        && bytes.get(14_510..14_535) == Some(HEAD.as_slice())
}

#[test]
fn a_device_of_version_01_goes_on_and_opens_again(rt: HostRuntime) -> Result<(), Fail> {
    write_file(&rt, "old.toml", &[SIZES, ALARMS])?;
    same(first_wrong(&rt, &FORMATS), None)?;
    make_old(&rt, "old.device")?;
    same(first_wrong(&rt, &UPGRADES), None)?;
    let bytes = fs::read(&rt, "old.device")?;
    assert!(rt; is_upgraded(&bytes));
    same(first_wrong(&rt, &GOES_ON), None)?;
    Ok(())
}

/// Table files, by their parts, and the fault of each.
const REFUSED: [(&[&str], &[u8]); 6] = [
    (&["size = \n"], b"fault toml\n"),
    (&["size = 28997\n", ALARMS], b"fault table - areas\n"),
    (&[SIZES], b"fault table - alarm\n"),
    (&[SIZES, "alarm = []\n"], b"fault rows\n"),
    (&[SIZES, ALARMS, "prio = 1\n"], b"fault table 3 prio\n"),
    (&[SIZES, "\"a\\nb\" = 1\n", ALARMS], b"fault table - a?b\n"),
];

#[test]
fn a_table_that_is_refused_makes_no_device(rt: HostRuntime) -> Result<(), Fail> {
    let words = b"alm_server\nformat\nrefused.device\nrefused.toml\n";
    for (row, (parts, line)) in REFUSED.iter().enumerate() {
        write_file(&rt, "refused.toml", parts)?;
        let same = ends(&rt, words, b"", (TABLE_FAULT, b"", line));
        holds_at(row, same)?;
        let made = fs::metadata(&rt, "refused.device").is_ok();
        holds_at(row, !made)?;
    }
    Ok(())
}

/// There is no device.
const MISSING: [Run; 1] = [(
    b"alm_server\nshow\nfaulty.device\n",
    b"",
    (BROKEN, b"", b"fault io\n"),
)];

/// A byte too small for four alarms: the file is made, and never formatted.
const TOO_SMALL: [Run; 2] = [
    (
        b"alm_server\nformat\nfaulty.device\nfaulty.toml\n",
        b"",
        (TABLE_FAULT, b"", b"fault too-small\n"),
    ),
    (
        b"alm_server\nshow\nfaulty.device\n",
        b"",
        (TABLE_FAULT, b"", b"fault unformatted\n"),
    ),
];

/// A file that was never formatted.
const UNFORMATTED: [Run; 2] = [
    (
        b"alm_server\nshow\nfaulty.device\n",
        b"",
        (TABLE_FAULT, b"", b"fault unformatted\n"),
    ),
    (
        b"alm_server\ndesk\nfaulty.device\n",
        b"0 1 STATE 0\n",
        (TABLE_FAULT, b"", b"fault unformatted\n"),
    ),
];

/// The header's gate is open, and its name is another; then the device and the table are one file.
const ANOTHER: [Run; 2] = [
    (
        b"alm_server\nshow\nfaulty.device\n",
        b"",
        (TABLE_FAULT, b"", b"fault damaged 2 1\n"),
    ),
    (
        b"alm_server\nformat\n./faulty.toml\nfaulty.toml\n",
        b"",
        (USAGE, b"", b"fault usage\n"),
    ),
];

#[test]
fn the_fault_of_a_device_is_told(rt: HostRuntime) -> Result<(), Fail> {
    same(first_wrong(&rt, &MISSING), None)?;
    write_file(&rt, "faulty.toml", &["size = 28996\nareas = 2\n", ALARMS])?;
    same(first_wrong(&rt, &TOO_SMALL), None)?;
    fs::write(&rt, "faulty.device", [0u8; 64].as_slice())?;
    same(first_wrong(&rt, &UNFORMATTED), None)?;
    let text = b"\xA5BLMSRV01 and more than a header has\n";
    fs::write(&rt, "faulty.device", text.as_slice())?;
    same(first_wrong(&rt, &ANOTHER), None)?;
    Ok(())
}

/// Formats for a table that needs a byte more than its size.
const FORMATS_TOO_SMALL: [Run; 1] = [(
    b"alm_server\nformat\nsmall.device\nsmall.toml\n",
    b"",
    (TABLE_FAULT, b"", b"fault too-small\n"),
)];

/// The size of that table.
const SMALL: usize = 28_996;

/// Whether the file has that size, begins with these bytes and has zeros after them.
fn is_set(rt: &HostRuntime, front: &[u8]) -> Result<bool, Fail> {
    let bytes = fs::read(rt, "small.device")?;
    let rest = bytes.get(front.len()..).unwrap_or(&[]);
    Ok(bytes.len() == SMALL && bytes.starts_with(front) && rest.iter().all(|byte| *byte == 0))
}

/// A file that is there before, and how many of its bytes stay.
const BEFORE: [(&[u8], usize); 2] = [(&[7; 64], 64), (&[7; 30_000], SMALL)];

#[test]
fn a_table_that_is_too_large_sets_the_size_of_its_device(rt: HostRuntime) -> Result<(), Fail> {
    write_file(&rt, "small.toml", &["size = 28996\nareas = 2\n", ALARMS])?;
    same(first_wrong(&rt, &FORMATS_TOO_SMALL), None)?;
    assert!(rt; is_set(&rt, &[])?);
    for (before, kept) in BEFORE {
        fs::write(&rt, "small.device", before)?;
        same(first_wrong(&rt, &FORMATS_TOO_SMALL), None)?;
        let front = before.get(..kept).ok_or("front")?;
        holds_at(kept, is_set(&rt, front)?)?;
    }
    Ok(())
}
