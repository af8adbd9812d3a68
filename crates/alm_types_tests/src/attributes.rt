//! Attributes: the fault of each value beyond its limit, and which of several is reported.

use alm_common_tests::same_at;
use alm_types::{Attr, AttrFault, Kind, Settings};
use std::test::Fail;

/// An alarm that is in all limits.
const GOOD: Settings = Settings {
    kind: Kind::High,
    setpoint: 800,
    deadband: 10,
    priority: 1,
    area: 0,
    latching: false,
    max_shelve: 3600,
};

/// The fault of settings with a good tag and an empty text.
fn fault(settings: Settings) -> Option<AttrFault> {
    Attr::new(settings, b"TI-101", b"").err()
}

/// Setpoints, and the fault of each.
const SETPOINTS: [(i64, Option<AttrFault>); 4] = [
    (-1_000_000_000_000, None),
    (-1_000_000_000_001, Some(AttrFault::Setpoint)),
    (1_000_000_000_000, None),
    (1_000_000_000_001, Some(AttrFault::Setpoint)),
];

#[test]
fn setpoints() -> Result<(), Fail> {
    for (setpoint, wanted) in SETPOINTS {
        let settings = Settings { setpoint, ..GOOD };
        same_at(setpoint, fault(settings), wanted)?;
    }
    Ok(())
}

/// Deadbands of each kind, and their faults.
const DEADBANDS: [(Kind, u64, Option<AttrFault>); 7] = [
    (Kind::High, 0, None),
    (Kind::High, 1_000_000_000_000, None),
    (Kind::High, 1_000_000_000_001, Some(AttrFault::Deadband)),
    (Kind::Low, 1_000_000_000_000, None),
    (Kind::Low, 1_000_000_000_001, Some(AttrFault::Deadband)),
    (Kind::Discrete, 0, None),
    (Kind::Discrete, 1, Some(AttrFault::Deadband)),
];

#[test]
fn deadbands_by_kind() -> Result<(), Fail> {
    for (kind, deadband, wanted) in DEADBANDS {
        let settings = Settings {
            kind,
            deadband,
            ..GOOD
        };
        same_at(deadband, fault(settings), wanted)?;
    }
    Ok(())
}

/// Priorities and areas, and their faults.
const PRIORITIES: [(u8, u8, Option<AttrFault>); 5] = [
    (0, 0, Some(AttrFault::Priority)),
    (1, 0, None),
    (4, 63, None),
    (5, 63, Some(AttrFault::Priority)),
    (4, 64, Some(AttrFault::Area)),
];

#[test]
fn priorities_and_areas() -> Result<(), Fail> {
    for (priority, area, wanted) in PRIORITIES {
        let settings = Settings {
            priority,
            area,
            ..GOOD
        };
        same_at((priority, area), fault(settings), wanted)?;
    }
    Ok(())
}

/// The longest shelvings, and their faults.
const SHELVINGS: [(u32, Option<AttrFault>); 3] = [
    (0, None),
    (604_800, None),
    (604_801, Some(AttrFault::MaxShelve)),
];

#[test]
fn shelvings() -> Result<(), Fail> {
    for (max_shelve, wanted) in SHELVINGS {
        let settings = Settings { max_shelve, ..GOOD };
        same_at(max_shelve, fault(settings), wanted)?;
    }
    Ok(())
}

/// Tags, and the fault of each.
const TAGS: [(&[u8], Option<AttrFault>); 7] = [
    (b"", Some(AttrFault::Tag)),
    (b"x", None),
    (&[b'x'; 32], None),
    (&[b'x'; 33], Some(AttrFault::Tag)),
    (b"!~", None),
    (b"a b", Some(AttrFault::Tag)),
    (b"a\x7f", Some(AttrFault::Tag)),
];

/// Texts, and the fault of each.
const TEXTS: [(&[u8], Option<AttrFault>); 6] = [
    (b"", None),
    (&[b'x'; 80], None),
    (&[b'x'; 81], Some(AttrFault::Text)),
    (b" ~", None),
    (b"\x1f", Some(AttrFault::Text)),
    (b"\x7f", Some(AttrFault::Text)),
];

#[test]
fn tags_and_texts_at_their_limits() -> Result<(), Fail> {
    for (tag, wanted) in TAGS {
        let fault = Attr::new(GOOD, tag, b"").err();
        same_at(tag.len(), fault, wanted)?;
    }
    for (text, wanted) in TEXTS {
        let fault = Attr::new(GOOD, b"T", text).err();
        same_at(text.len(), fault, wanted)?;
    }
    Ok(())
}

/// Settings that break each of their limits.
const NONE_GOOD: Settings = Settings {
    kind: Kind::High,
    setpoint: 1_000_000_000_001,
    deadband: 1_000_000_000_001,
    priority: 0,
    area: 64,
    latching: false,
    max_shelve: 604_801,
};

/// Settings with a tag and a text, of which one more is good in each row, and the first fault of what is left.
const FAULTS: [(Settings, &[u8], &[u8], Option<AttrFault>); 8] = [
    (NONE_GOOD, b"", b"\n", Some(AttrFault::Setpoint)),
    (
        Settings {
            setpoint: 0,
            ..NONE_GOOD
        },
        b"",
        b"\n",
        Some(AttrFault::Deadband),
    ),
    (
        Settings {
            setpoint: 0,
            deadband: 0,
            ..NONE_GOOD
        },
        b"",
        b"\n",
        Some(AttrFault::Priority),
    ),
    (
        Settings {
            area: 64,
            max_shelve: 604_801,
            ..GOOD
        },
        b"",
        b"\n",
        Some(AttrFault::Area),
    ),
    (
        Settings {
            max_shelve: 604_801,
            ..GOOD
        },
        b"",
        b"\n",
        Some(AttrFault::MaxShelve),
    ),
    (GOOD, b"", b"\n", Some(AttrFault::Tag)),
    (GOOD, b"T", b"\n", Some(AttrFault::Text)),
    (GOOD, b"T", b"", None),
];

#[test]
fn the_first_of_several_faults() -> Result<(), Fail> {
    for (settings, tag, text, wanted) in FAULTS {
        let fault = Attr::new(settings, tag, text).err();
        same_at(wanted, fault, wanted)?;
    }
    Ok(())
}
