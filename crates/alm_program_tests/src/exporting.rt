//! What is exported of a device in a file.

use crate::runs::{BROKEN, DONE, Run, first_wrong};
use alm_common_tests::same;
use std::fs;
use std::test::Fail;

const TABLE: &[u8] = b"size = 28997
areas = 2

[[alarm]]
kind = \"high\"
setpoint = 800
deadband = 10
priority = 1
area = 0
max_shelve = 3600
tag = \"TI-101\"
text = \"Reactor, hot\"

[[alarm]]
tag = \"XS-201\"
kind = \"discrete\"
setpoint = 1
priority = 2
area = 1
latching = true
";

/// The same, after alarm 0 was given priority 3 and setpoint -5.
const EXPORTED: &[u8] = b"areas = 2
size = 28997

[[alarm]]
area = 0
deadband = 10
kind = \"high\"
latching = false
max_shelve = 3600
priority = 3
setpoint = -5
tag = \"TI-101\"
text = \"Reactor, hot\"

[[alarm]]
area = 1
deadband = 0
kind = \"discrete\"
latching = true
max_shelve = 0
priority = 2
setpoint = 1
tag = \"XS-201\"
text = \"\"
";

/// A priority and a setpoint are given, and are in the table that is exported then. A device that doesn't exist has
/// none.
const EXPORTS: [Run; 4] = [
    (
        b"alm_server\nformat\nexported.device\nexported.toml\n",
        b"",
        (DONE, b"formatted 2 2 4480\n", b""),
    ),
    (
        b"alm_server\ndesk\nexported.device\n",
        b"0 1 PRIO 0 3\n0 2 SETP 0 -5\n",
        (DONE, b"0 1 OK 1\n0 2 OK 2\n", b""),
    ),
    (
        b"alm_server\nexport\nexported.device\n",
        b"",
        (DONE, EXPORTED, b""),
    ),
    (
        b"alm_server\nexport\nmissing.device\n",
        b"",
        (BROKEN, b"", b"fault io\n"),
    ),
];

#[test]
fn a_table_is_exported_with_what_is_in_force(rt: HostRuntime) -> Result<(), Fail> {
    fs::write(&rt, "exported.toml", TABLE)?;
    same(first_wrong(&rt, &EXPORTS), None)?;
    Ok(())
}
