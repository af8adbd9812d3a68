//! Devices that are brought to a version.

use crate::devices::{ALARMS, SHOWN, SIZES, write_file};
use crate::runs::{DONE, Run, TABLE_FAULT, USAGE, first_wrong};
use alm_common_tests::same;
use std::fs;
use std::test::Fail;

/// A device of version 02 with two actions.
const BEGINS: [Run; 2] = [
    (
        b"alm_server\nformat\nturned.device\nturned.toml\n",
        b"",
        (DONE, b"formatted 4 2 4116\n", b""),
    ),
    (
        b"alm_server\ndesk\nturned.device\n",
        b"17 1 CLOCK 1000\n16 2 VAL 0 800\n",
        (DONE, b"17 1 OK 1\n16 2 OK 2\n", b""),
    ),
];

/// It becomes one of version 03, once, with its plant and its count.
const TURNS: [Run; 4] = [
    (
        b"alm_server\nupgrade\nturned.device\n",
        b"",
        (DONE, b"upgraded 03 2\n", b""),
    ),
    (
        b"alm_server\nshow\nturned.device\n",
        b"",
        (DONE, SHOWN, b""),
    ),
    (
        b"alm_server\nupgrade\nturned.device\n--version\n03\n",
        b"",
        (DONE, b"unchanged 03 2\n", b""),
    ),
    (
        b"alm_server\ndesk\nturned.device\n",
        b"0 1 ACK 0\n0 2 STATE 0\n",
        (DONE, b"0 1 OK 3\n0 2 STATE 3 ACKED 1 - -\n", b""),
    ),
];

/// And goes back.
const RETURNS: [Run; 2] = [
    (
        b"alm_server\nupgrade\nturned.device\n--version\n02\n",
        b"",
        (DONE, b"upgraded 02 3\n", b""),
    ),
    (
        b"alm_server\ndesk\nturned.device\n",
        b"0 1 STATE 0\n",
        (DONE, b"0 1 STATE 3 ACKED 1 - -\n", b""),
    ),
];

/// Words that are wrong, and a file that is no device.
const REFUSED: [Run; 4] = [
    (
        b"alm_server\nupgrade\n",
        b"",
        (USAGE, b"", b"fault usage\n"),
    ),
    (
        b"alm_server\nupgrade\nturned.device\n--version\n01\n",
        b"",
        (USAGE, b"", b"fault usage\n"),
    ),
    (
        b"alm_server\nupgrade\nturned.device\n--version\n",
        b"",
        (USAGE, b"", b"fault usage\n"),
    ),
    (
        b"alm_server\nupgrade\nturned.toml\n",
        b"",
        (TABLE_FAULT, b"", b"fault unformatted\n"),
    ),
];

/// Whether a device's header has a name.
fn is_named(rt: &HostRuntime, name: &[u8]) -> Result<bool, Fail> {
    let bytes = fs::read(rt, "turned.device")?;
    Ok(bytes.get(1..9) == Some(name))
}

#[test]
fn a_device_goes_to_version_03_and_back(rt: HostRuntime) -> Result<(), Fail> {
    write_file(&rt, "turned.toml", &[SIZES, ALARMS])?;
    same(first_wrong(&rt, &BEGINS), None)?;
    assert!(rt; is_named(&rt, b"ALMSRV02")?);
    same(first_wrong(&rt, &TURNS), None)?;
    assert!(rt; is_named(&rt, b"ALMSRV03")?);
    same(first_wrong(&rt, &RETURNS), None)?;
    assert!(rt; is_named(&rt, b"ALMSRV02")?);
    same(first_wrong(&rt, &REFUSED), None)?;
    Ok(())
}
