//! Drawn deadlines and queries, compared with a sorted filter.

use crate::drawn_chains::{below, random};
use crate::shelves::Shelves;
use alm_common_tests::{holds_at, same_at};
use std::alloc::{AllocError, Global};
use std::test::Fail;

const NODES: u32 = 40;

const CALLS: u32 = 20_000;

/// A drawn moment: mostly among the first ones, so that many are the same.
fn moment(drawn: u64) -> u64 {
    if below(drawn, 3, 4) == 0 {
        drawn.wrapping_shr(5) % (1 << 40)
    } else {
        below(drawn, 11, 700) as u64
    }
}

/// The nodes that are due, from all nodes.
fn due(alloc: Global, wheel: &Shelves, from: u64, to: u64) -> Result<Vec<u32>, AllocError> {
    let mut found = Vec::with_capacity(alloc, NODES as usize)?;
    for node in 0..NODES {
        if let Some(deadline) = wheel.deadline_of(node) {
            if from < deadline && deadline <= to {
                found.push((deadline, node))?;
            }
        }
    }
    found.sort()?;
    let mut nodes = Vec::with_capacity(alloc, found.len())?;
    for (_deadline, node) in found.iter() {
        nodes.push(*node)?;
    }
    Ok(nodes)
}

#[test]
fn drawn_questions_are_answered_by_the_sorted_filter(rt: HostRuntime) -> Result<(), Fail> {
    let alloc = rt.alloc();
    let mut wheel = Shelves::new(alloc, NODES)?;
    let mut seed = 88172645463325252;
    for turn in 0..CALLS {
        seed = random(seed);
        let node = below(seed, 40, NODES);
        if !wheel.put(node, moment(seed)) {
            holds_at(turn, wheel.remove(node))?;
        }
        seed = random(seed);
        let from = moment(seed);
        seed = random(seed);
        let to = moment(seed);
        same_at(
            (from, to, turn),
            wheel.due(alloc, from, to)?.as_slice(),
            due(alloc, &wheel, from, to)?.as_slice(),
        )?;
        if turn % 500 == 499 {
            wheel = wheel.copy(alloc)?;
        }
    }
    Ok(())
}
