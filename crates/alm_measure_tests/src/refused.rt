//! Out of memory: run with each allocation refused in turn (`rt try --test --fail-alloc N`, N from 1 to 12), this passes. One is
//! refused at most, so what was refused is made the second time: a maker that always gives up doesn't pass.

use crate::tables::table;
use crate::watched::Watched;
use alm_common_tests::moment_of;
use alm_types::Table;
use std::alloc::{AllocError, Global};
use std::test::Fail;

/// The table of the tests, tried twice.
fn table_again(alloc: Global) -> Option<Table> {
    match table(alloc) {
        Some(rows) => Some(rows),
        None => table(alloc),
    }
}

/// A new measure, tried twice.
fn new_again(alloc: Global, rows: &Table) -> Result<Watched, AllocError> {
    match Watched::new(alloc, rows) {
        Ok(measure) => Ok(measure),
        Err(_) => Watched::new(alloc, rows),
    }
}

/// A copy, tried twice.
fn copy_again(alloc: Global, measure: &Watched) -> Result<Watched, AllocError> {
    match measure.copy(alloc) {
        Ok(copy) => Ok(copy),
        Err(_) => measure.copy(alloc),
    }
}

/// Whether a copy has what the measure has, and changes independently of it.
fn is_apart(measure: &Watched, copy: &mut Watched) -> bool {
    copy.window(2) == Some((1, false))
        && copy.age(2, 0) == Some(1)
        && copy.moments(4).len() == 1
        && copy.annunciated(5)
        && copy.window(2) == Some((2, false))
        && measure.window(2) == Some((1, false))
        && measure.moments(5).is_empty()
}

/// The same of a measure with one annunciation, and a copy of it.
fn is_copied(alloc: Global, measure: &mut Watched) -> Result<bool, Fail> {
    let moved = measure.advance(moment_of(1000)?);
    let annunciated = measure.annunciated(4);
    let mut copy = copy_again(alloc, measure)?;
    let apart = is_apart(measure, &mut copy);
    drop(copy);
    Ok(moved && annunciated && apart)
}

#[test]
fn a_measure_that_cannot_be_copied_stays_as_it_is(rt: HostRuntime) -> Result<(), Fail> {
    let rows = table_again(rt.alloc()).ok_or("table")?;
    let mut measure = new_again(rt.alloc(), &rows)?;
    let copied = is_copied(rt.alloc(), &mut measure);
    drop(measure);
    assert!(rt; copied?);
    Ok(())
}
