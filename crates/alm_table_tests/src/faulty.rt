//! Files with a fault.

use crate::outcome::{Outcome, becomes};
use std::test::Fail;

const SIZES: &str = "size = 28997\nareas = 2\n";

const HIGH: &str =
    "[[alarm]]\nkind = \"high\"\nsetpoint = 800\npriority = 1\narea = 0\ntag = \"TI-101\"\n";

const NO_PRIORITY: &str = "[[alarm]]\nkind = \"low\"\nsetpoint = 100\narea = 0\ntag = \"PI-102\"\n";

const BARE: &str = "[[alarm]]\nkind = \"low\"\nsetpoint = 100\n";

const NO_KIND: &str = "[[alarm]]\nsetpoint = 100\npriority = 2\narea = 0\ntag = \"PI-102\"\n";

#[test]
fn the_fault_of_a_file_is_told(rt: HostRuntime) -> Result<(), Fail> {
    let alloc = rt.alloc();
    let files: [(&[&str], Outcome<'_>); 16] = [
        (&[SIZES, HIGH], Outcome::Taken),
        (
            &[SIZES, HIGH, NO_PRIORITY, "priority = 5\n"],
            Outcome::Key(Some(1), "priority"),
        ),
        (&["size = 28997\n", HIGH], Outcome::Key(None, "areas")),
        (&["areas = 2\n", HIGH], Outcome::Key(None, "size")),
        (&[SIZES, HIGH, "prio = 1\n"], Outcome::Key(Some(0), "prio")),
        (&[SIZES], Outcome::Key(None, "alarm")),
        (&[SIZES, "alarm = []\n"], Outcome::Rows),
        (&[SIZES, "alarm = 4\n"], Outcome::Key(None, "alarm")),
        (&[SIZES, "alarm = [1]\n"], Outcome::Key(None, "alarm")),
        (&["size = \n"], Outcome::NotToml),
        (&[SIZES, "size = 28997\n", HIGH], Outcome::NotToml),
        (
            &[SIZES, HIGH, NO_PRIORITY],
            Outcome::Key(Some(1), "priority"),
        ),
        (&[SIZES, NO_KIND], Outcome::Key(Some(0), "kind")),
        (
            &[SIZES, NO_KIND, "kind = \"higher\"\n"],
            Outcome::Key(Some(0), "kind"),
        ),
        (
            &[SIZES, HIGH, "latching = 1\n"],
            Outcome::Key(Some(0), "latching"),
        ),
        (&[SIZES, HIGH, "text = 1\n"], Outcome::Key(Some(0), "text")),
    ];
    for (parts, wanted) in files {
        assert!(rt; becomes(alloc, parts, wanted)?);
    }
    Ok(())
}

#[test]
fn of_several_faults_the_first_is_told(rt: HostRuntime) -> Result<(), Fail> {
    let alloc = rt.alloc();
    let files: [(&[&str], Outcome<'_>); 9] = [
        // Unknown keys come first, in the order of their bytes.
        (
            &["size = 0\nzeta = 1\nbeta = 1\n", HIGH],
            Outcome::Key(None, "beta"),
        ),
        (&["areas = 0\nsize = 0\n", HIGH], Outcome::Key(None, "size")),
        (
            &["size = 1\nareas = 0\nalarm = []\n"],
            Outcome::Key(None, "areas"),
        ),
        // The file's own keys come before those of an alarm.
        (
            &["areas = 65\nsize = 1\n", HIGH, "prio = 1\n"],
            Outcome::Key(None, "areas"),
        ),
        // Alarms come in their order.
        (
            &[SIZES, NO_PRIORITY, NO_KIND],
            Outcome::Key(Some(0), "priority"),
        ),
        (&[SIZES, HIGH, NO_KIND, "area = 2\n"], Outcome::NotToml),
        (
            &[SIZES, "[[alarm]]\ntag = \"\"\narea = 2\nprio = 1\n"],
            Outcome::Key(Some(0), "prio"),
        ),
        // Of an alarm the numbers come first, and then its tag.
        (
            &[SIZES, BARE, "tag = \"T\"\narea = 2\npriority = 5\n"],
            Outcome::Key(Some(0), "priority"),
        ),
        (
            &[SIZES, BARE, "deadband = -1\narea = 0\npriority = 1\n"],
            Outcome::Key(Some(0), "deadband"),
        ),
    ];
    for (parts, wanted) in files {
        assert!(rt; becomes(alloc, parts, wanted)?);
    }
    Ok(())
}

#[test]
fn bytes_that_are_no_text_are_no_file(rt: HostRuntime) -> Result<(), Fail> {
    let refused = alm_table::table_of(rt.alloc(), b"size = \xFF\n");
    assert!(rt; matches!(refused, Err(alm_table::LoadFault::NotToml)));
    Ok(())
}
