//! 100,000 drawn calls on two families, compared with a vector for each list.

ghost use Rattle.std.specs.Prelude.{◌<◌};

use crate::pair::{FAMILIES, Pair};
use crate::plain;
use alm_common_tests::holds_at;
use std::test::Fail;

const NODES: u32 = 12;

const LISTS: u32 = 3;

const CALLS: u32 = 100_000;

pub fn random(seed: u64) -> u64 {
    let a = seed ^ (seed << 13);
    let b = a ^ (a >> 7);
    b ^ (b << 17)
}

/// A number below a bound, from some bits of a drawn one.
pub fn below(drawn: u64, shift: u32, bound: u32) -> u32
    requires { 0 < bound }
    ensures { result < bound }
{
    (drawn.wrapping_shr(shift) % bound as u64) as u32
}

/// Makes one drawn call on the chains and on the vectors of its family.
fn call(
    chains: &mut Pair,
    lists: &mut plain::Lists,
    family: u32,
    drawn: u64,
    keys: &[u64],
) -> Result<(), Fail> {
    let node = below(drawn, 8, NODES);
    let list = below(drawn, 20, LISTS);
    let at = below(drawn, 32, NODES);
    if chains.unlink(family, node) {
        plain::unlink(lists, node);
        return Ok(());
    }
    match below(drawn, 44, 3) {
        0 => {
            if chains.insert_before(family, at, node) {
                plain::insert_before(lists, at, node)?;
            }
        }
        1 => {
            if chains.insert_by(family, list, node, keys) {
                plain::insert_by(lists, list, node, keys)?;
            }
        }
        _ => {
            if chains.push_back(family, list, node) {
                plain::push_back(lists, list, node)?;
            }
        }
    }
    Ok(())
}

/// Whether the lists of a family are those of the vectors, and each node is in the same place as there.
fn are_same(chains: &Pair, family: u32, lists: &plain::Lists) -> bool {
    let mut same = true;
    for (list, nodes) in lists.iter().enumerate() {
        same = same
            && u32::try_from(list).is_ok_and(|list| chains.is_list(family, list, nodes.as_slice()));
    }
    for node in 0..NODES {
        same = same && chains.list_of(family, node) == plain::list_of(lists, node);
    }
    same
}

#[test]
fn drawn_calls_make_the_lists_of_plain_vectors(rt: HostRuntime) -> Result<(), Fail> {
    let alloc = rt.alloc();
    let keys = [5, 3, 9, 3, 7, 1, 8, 2, 6, 6, 4, 0];
    let mut chains = Pair::new(alloc, NODES, LISTS)?;
    let mut first = plain::empty(alloc, LISTS)?;
    let mut second = plain::empty(alloc, LISTS)?;
    let mut seed = 88172645463325252;
    for turn in 0..CALLS {
        seed = random(seed);
        let family = below(seed, 56, FAMILIES);
        if family == 0 {
            call(&mut chains, &mut first, family, seed, &keys)?;
        } else {
            call(&mut chains, &mut second, family, seed, &keys)?;
        }
        holds_at(turn, are_same(&chains, 0, &first))?;
        holds_at(turn, are_same(&chains, 1, &second))?;
        if turn % 1000 == 999 {
            chains = chains.copy(alloc)?;
        }
    }
    Ok(())
}
