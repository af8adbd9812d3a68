//! Numbers, tags and texts at their limits.

use crate::outcome::{Outcome, becomes};
use std::test::Fail;

const SIZES: &str = "size = 28997\nareas = 2\n";

const KIND: &str = "[[alarm]]\nkind = \"high\"\n";

const SETPOINT: &str = "setpoint = 800\n";

const PRIORITY: &str = "priority = 1\n";

const AREA: &str = "area = 0\n";

const TAG: &str = "tag = \"TI-101\"\n";

const LONGEST_TAG: &str = "tag = \"0123456789abcdef0123456789abcdef\"\n";

const TAG_TOO_LONG: &str = "tag = \"0123456789abcdef0123456789abcdefg\"\n";

/// The parts of an alarm, and the key that is at fault.
const NUMBERS: [(&[&str], Option<&str>); 19] = [
    (
        &[KIND, "setpoint = 1000000000000\n", PRIORITY, AREA, TAG],
        None,
    ),
    (
        &[KIND, "setpoint = 1000000000001\n", PRIORITY, AREA, TAG],
        Some("setpoint"),
    ),
    (
        &[KIND, "setpoint = -1000000000000\n", PRIORITY, AREA, TAG],
        None,
    ),
    (
        &[KIND, "setpoint = -1000000000001\n", PRIORITY, AREA, TAG],
        Some("setpoint"),
    ),
    (
        &[KIND, "setpoint = 1.0\n", PRIORITY, AREA, TAG],
        Some("setpoint"),
    ),
    (
        &[KIND, SETPOINT, "priority = 0\n", AREA, TAG],
        Some("priority"),
    ),
    (&[KIND, SETPOINT, "priority = 4\n", AREA, TAG], None),
    (
        &[KIND, SETPOINT, "priority = 5\n", AREA, TAG],
        Some("priority"),
    ),
    (&[KIND, SETPOINT, PRIORITY, "area = 1\n", TAG], None),
    (&[KIND, SETPOINT, PRIORITY, "area = 2\n", TAG], Some("area")),
    (
        &[KIND, SETPOINT, PRIORITY, "area = -1\n", TAG],
        Some("area"),
    ),
    (
        &[
            KIND,
            SETPOINT,
            PRIORITY,
            AREA,
            TAG,
            "deadband = 1000000000000\n",
        ],
        None,
    ),
    (
        &[
            KIND,
            SETPOINT,
            PRIORITY,
            AREA,
            TAG,
            "deadband = 1000000000001\n",
        ],
        Some("deadband"),
    ),
    (
        &[KIND, SETPOINT, PRIORITY, AREA, TAG, "deadband = -1\n"],
        Some("deadband"),
    ),
    (
        &[KIND, SETPOINT, PRIORITY, AREA, TAG, "max_shelve = 604800\n"],
        None,
    ),
    (
        &[KIND, SETPOINT, PRIORITY, AREA, TAG, "max_shelve = 604801\n"],
        Some("max_shelve"),
    ),
    (
        &[
            "[[alarm]]\nkind = \"discrete\"\n",
            SETPOINT,
            PRIORITY,
            AREA,
            TAG,
            "deadband = 0\n",
        ],
        None,
    ),
    (
        &[
            "[[alarm]]\nkind = \"discrete\"\n",
            SETPOINT,
            PRIORITY,
            AREA,
            TAG,
            "deadband = 1\n",
        ],
        Some("deadband"),
    ),
    (&[KIND, SETPOINT, PRIORITY, AREA], Some("tag")),
];

#[test]
fn numbers_of_the_file(rt: HostRuntime) -> Result<(), Fail> {
    let alloc = rt.alloc();
    let alarm = [KIND, SETPOINT, PRIORITY, AREA, TAG];
    let files: [(&str, Outcome<'_>); 7] = [
        ("size = 0\nareas = 1\n", Outcome::Key(None, "size")),
        ("size = 1\nareas = 1\n", Outcome::Taken),
        ("size = 1099511627776\nareas = 1\n", Outcome::Taken),
        (
            "size = 1099511627777\nareas = 1\n",
            Outcome::Key(None, "size"),
        ),
        ("size = 1\nareas = 0\n", Outcome::Key(None, "areas")),
        ("size = 1\nareas = 64\n", Outcome::Taken),
        ("size = 1\nareas = 65\n", Outcome::Key(None, "areas")),
    ];
    for (sizes, wanted) in files {
        let [kind, setpoint, priority, area, tag] = alarm;
        assert!(rt; becomes(alloc, &[sizes, kind, setpoint, priority, area, tag], wanted)?);
    }
    Ok(())
}

#[test]
fn numbers_of_an_alarm(rt: HostRuntime) -> Result<(), Fail> {
    let alloc = rt.alloc();
    for (parts, fault) in NUMBERS {
        let wanted = match fault {
            Some(key) => Outcome::Key(Some(0), key),
            None => Outcome::Taken,
        };
        let text = crate::outcome::joined(alloc, parts)?;
        assert!(rt; becomes(alloc, &[SIZES, text.as_str()], wanted)?);
    }
    Ok(())
}

#[test]
fn tags_and_texts(rt: HostRuntime) -> Result<(), Fail> {
    let alloc = rt.alloc();
    let words: [(&[&str], Option<&str>); 6] = [
        (&["tag = \"\"\n"], Some("tag")),
        (&[LONGEST_TAG], None),
        (&[TAG_TOO_LONG], Some("tag")),
        (&["tag = \"TI 101\"\n"], Some("tag")),
        (
            &[
                TAG,
                "text = \"0123456789abcdef0123456789abcdef0123456789abcdef0123456789abcdef0123456789abcdef\"\n",
            ],
            None,
        ),
        (
            &[
                TAG,
                "text = \"0123456789abcdef0123456789abcdef0123456789abcdef0123456789abcdef0123456789abcdefg\"\n",
            ],
            Some("text"),
        ),
    ];
    for (parts, fault) in words {
        let wanted = match fault {
            Some(key) => Outcome::Key(Some(0), key),
            None => Outcome::Taken,
        };
        let text = crate::outcome::joined(alloc, parts)?;
        assert!(rt;
            becomes(
                alloc,
                &[SIZES, KIND, SETPOINT, PRIORITY, AREA, text.as_str()],
                wanted
            )?
        );
    }
    Ok(())
}
