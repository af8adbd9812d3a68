//! As many alarms as a plant may have, and one more.

use crate::outcome::{Outcome, becomes, joined};
use alm_common_tests::same;
use alm_table::table_of;
use std::alloc::Global;
use std::test::Fail;

const ALARM: &str =
    "[[alarm]]\nkind = \"low\"\nsetpoint = 1\npriority = 4\narea = 63\ntag = \"T\"\n";

/// A file of `alarms` alarms.
fn file(alloc: Global, alarms: u32) -> Result<String, Fail> {
    let mut text = joined(alloc, &["size = 1099511627776\nareas = 64\n"])?;
    for _alarm in 0..alarms {
        text.push_str(ALARM)?;
    }
    Ok(text)
}

#[test]
fn there_may_be_16384_alarms(rt: HostRuntime) -> Result<(), Fail> {
    let alloc = rt.alloc();
    let text = file(alloc, 16_384)?;
    let (size, table) = table_of(alloc, text.as_str().as_bytes()).map_err(|_| "refused")?;
    same(size, 1 << 40)?;
    same(table.alarms().len(), 16_384)?;
    let text = file(alloc, 16_385)?;
    // Their number is at fault before a key of one of them.
    assert!(rt; becomes(alloc, &[text.as_str(), "prio = 1\n"], Outcome::Rows)?);
    Ok(())
}
