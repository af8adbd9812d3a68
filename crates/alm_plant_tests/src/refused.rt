//! Out of memory: run with each allocation refused in turn (`rt try --test --fail-alloc N`), this passes. One is refused at most,
//! so what was refused is made the second time: a maker that always gives up doesn't pass.

use crate::tables::table;
use alm_model::{Alarms, PlainPlant, PlantParts};
use alm_plant::Plant;
use alm_types::Table;
use std::alloc::{AllocError, Global};
use std::test::Fail;

/// A plant of a table, by its parts.
fn built<P: Alarms + Drop>(alloc: Global, rows: &Table) -> Result<P, AllocError> {
    P::build(alloc, PlantParts::new(alloc, rows)?)
}

/// Plants of six alarms: one made, one built, and its copy.
fn are_made<P: Alarms + Drop>(alloc: Global, rows: &Table) -> Result<bool, AllocError> {
    let made = match P::new(alloc, rows) {
        Ok(plant) => plant,
        Err(_) => P::new(alloc, rows)?,
    };
    let parts = match built::<P>(alloc, rows) {
        Ok(plant) => plant,
        Err(_) => built::<P>(alloc, rows)?,
    };
    let copy = match parts.copy(alloc) {
        Ok(plant) => plant,
        Err(_) => parts.copy(alloc)?,
    };
    Ok(made.alarms() == 6 && copy.alarms() == 6 && copy.next_stamp() == 1)
}

#[test]
fn a_plant_is_made_whole_or_not_at_all(rt: HostRuntime) -> Result<(), Fail> {
    let alloc = rt.alloc();
    let rows = match table(alloc, 6, 2) {
        Some(rows) => rows,
        None => table(alloc, 6, 2).ok_or("table")?,
    };
    assert!(rt; are_made::<PlainPlant>(alloc, &rows)?);
    assert!(rt; are_made::<Plant>(alloc, &rows)?);
    Ok(())
}
