//! Chains and a wheel over 16,384 nodes.

use crate::pair::Pair;
use crate::shelves::Shelves;
use alm_common_tests::same;
use std::test::Fail;

#[test]
fn the_largest_chains_are_made_and_copied(rt: HostRuntime) -> Result<(), Fail> {
    let mut chains = Pair::new(rt.alloc(), 16_384, 256)?;
    assert!(rt; chains.push_back(0, 255, 16_383));
    assert!(rt; chains.push_back(1, 0, 0));
    let copy = chains.copy(rt.alloc())?;
    assert!(rt; copy.is_list(0, 255, &[16_383]));
    assert!(rt; copy.is_list(1, 0, &[0]));
    Ok(())
}

#[test]
fn the_largest_wheel_is_made_and_copied(rt: HostRuntime) -> Result<(), Fail> {
    let mut wheel = Shelves::new(rt.alloc(), 16_384)?;
    assert!(rt; wheel.put(16_383, 511));
    let copy = wheel.copy(rt.alloc())?;
    assert!(rt; copy.is_slot(255, &[16_383]));
    Ok(())
}

#[test]
fn a_node_in_no_list_has_no_neighbours(rt: HostRuntime) -> Result<(), Fail> {
    let mut chains = Pair::new(rt.alloc(), 3, 1)?;
    for node in [0, 1, 2] {
        assert!(rt; chains.push_back(0, 0, node));
    }
    assert!(rt; chains.unlink(0, 1));
    same(chains.beside(0, 1), Some((None, None)))?;
    same(chains.beside(0, 0), Some((None, Some(2))))?;
    Ok(())
}
