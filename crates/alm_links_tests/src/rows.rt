//! Worked rows, and copies that change independently.

use crate::pair::Pair;
use crate::shelves::Shelves;
use alm_common_tests::{same, same_at};
use std::test::Fail;

const LAST_MOMENT: u64 = (1 << 40) - 1;

#[test]
fn a_node_goes_before_another_and_the_first_leaves(rt: HostRuntime) -> Result<(), Fail> {
    let mut chains = Pair::new(rt.alloc(), 5, 2)?;
    assert!(rt; chains.push_back(0, 0, 3));
    assert!(rt; chains.push_back(0, 0, 1));
    assert!(rt; chains.insert_before(0, 1, 4));
    assert!(rt; chains.is_list(0, 0, &[3, 4, 1]));
    assert!(rt; chains.unlink(0, 3));
    assert!(rt; chains.is_list(0, 0, &[4, 1]));
    same(chains.beside(0, 4), Some((None, Some(1))))?;
    same(chains.list_of(0, 3), None)?;
    assert!(rt; chains.is_list(0, 1, &[]));
    assert!(rt; chains.is_list(1, 0, &[]));
    Ok(())
}

#[test]
fn a_node_goes_before_the_first_greater_key(rt: HostRuntime) -> Result<(), Fail> {
    let keys = [50, 10, 40, 20, 30, 60];
    let mut chains = Pair::new(rt.alloc(), 6, 2)?;
    for node in [3, 0, 1, 5, 4, 2] {
        assert!(rt; chains.insert_by(1, 1, node, &keys));
    }
    assert!(rt; chains.is_list(1, 1, &[1, 3, 4, 2, 0, 5]));
    assert!(rt; chains.is_list(1, 0, &[]));
    assert!(rt; chains.is_list(0, 1, &[]));
    Ok(())
}

#[test]
fn copied_chains_go_their_own_way(rt: HostRuntime) -> Result<(), Fail> {
    let mut chains = Pair::new(rt.alloc(), 4, 2)?;
    assert!(rt; chains.push_back(0, 1, 2));
    assert!(rt; chains.push_back(0, 1, 0));
    assert!(rt; chains.push_back(1, 0, 2));
    let mut copy = chains.copy(rt.alloc())?;
    assert!(rt; copy.is_list(0, 1, &[2, 0]));
    assert!(rt; copy.is_list(1, 0, &[2]));
    assert!(rt; copy.unlink(0, 2));
    assert!(rt; copy.insert_before(0, 0, 3));
    assert!(rt; copy.is_list(0, 1, &[3, 0]));
    assert!(rt; chains.is_list(0, 1, &[2, 0]));
    assert!(rt; chains.is_list(1, 0, &[2]));
    Ok(())
}

#[test]
fn those_due_come_by_deadline_then_number(rt: HostRuntime) -> Result<(), Fail> {
    let alloc = rt.alloc();
    let mut wheel = Shelves::new(alloc, 8)?;
    assert!(rt; wheel.put(7, 1256));
    assert!(rt; wheel.put(3, 1512));
    assert!(rt; wheel.put(5, 1256));
    for (from, to, wanted) in [
        (1000, 1256, [5, 7].as_slice()),
        (1256, 549755813888, [3].as_slice()),
        (1000, 549755813888, [5, 7, 3].as_slice()),
        (0, LAST_MOMENT, [5, 7, 3].as_slice()),
        (0, u64::MAX, [5, 7, 3].as_slice()),
        (1255, 1256, [5, 7].as_slice()),
        (1256, 1511, [].as_slice()),
        (1256, 1256, [].as_slice()),
        (1512, 1000, [].as_slice()),
    ] {
        same_at((from, to), wheel.due(alloc, from, to)?.as_slice(), wanted)?;
    }
    assert!(rt; wheel.is_slot(232, &[7, 3, 5]));
    assert!(rt; wheel.remove(3));
    assert!(rt; wheel.is_slot(232, &[7, 5]));
    same(wheel.deadline_of(3), None)?;
    same(wheel.deadline_of(5), Some(1256))?;
    Ok(())
}

#[test]
fn a_jump_over_the_whole_range_meets_each_slot_once(rt: HostRuntime) -> Result<(), Fail> {
    let alloc = rt.alloc();
    let mut wheel = Shelves::new(alloc, 1000)?;
    for node in 0..1000 {
        assert!(rt; wheel.put(999 - node, (1 + node as u64) << 30));
    }
    let all = wheel.due(alloc, 0, LAST_MOMENT)?;
    same(all.len(), 1000)?;
    for (place, node) in all.iter().enumerate() {
        same(*node as usize, 999usize.saturating_sub(place))?;
    }
    same(wheel.due(alloc, LAST_MOMENT, u64::MAX)?.len(), 0)?;
    same(wheel.due(alloc, u64::MAX - 1, u64::MAX)?.len(), 0)?;
    Ok(())
}

#[test]
fn a_copied_wheel_goes_its_own_way(rt: HostRuntime) -> Result<(), Fail> {
    let alloc = rt.alloc();
    let mut wheel = Shelves::new(alloc, 4)?;
    assert!(rt; wheel.put(2, 300));
    assert!(rt; wheel.put(1, 44));
    let mut copy = wheel.copy(alloc)?;
    assert!(rt; copy.is_slot(44, &[2, 1]));
    assert!(rt; copy.remove(2));
    same(copy.due(alloc, 0, 1000)?.as_slice(), [1].as_slice())?;
    same(wheel.due(alloc, 0, 1000)?.as_slice(), [1, 2].as_slice())?;
    assert!(rt; wheel.is_slot(44, &[2, 1]));
    Ok(())
}
