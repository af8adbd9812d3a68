//! Checkpoints that are asked for between two batches.

use crate::course::{Call, Outcome, Played, play};
use crate::opened::{Standing, stands_as};
use alm_common_tests::{moment_of, same, slot_of};
use alm_flush::{Advance, Fetch, Publishes, Release};
use alm_seq::{Seal, Take};
use alm_types::{Action, Slot, Verdict};
use std::test::Fail;

/// The smallest device for the worked table, and more calls than are made.
const SIZE: usize = 28_997;

const CALLS: usize = 64;

/// The clock's action of this number is sealed in a batch of its own, and fetched.
fn fetched(clock: Slot, number: u64) -> Result<[(Call, Outcome); 4], Fail> {
    let action = Action::Clock(moment_of(number)?);
    Ok([
        (Call::Send(clock, action), Outcome::Sent(Some(number))),
        (
            Call::Take(clock),
            Outcome::Took(Take::Taken(Verdict::Accepted(action))),
        ),
        (Call::Seal, Outcome::Sealed(Seal::Sealed)),
        (Call::Fetch, Outcome::Fetched(Fetch::Got)),
    ])
}

/// It is committed, and none is begun before it is given back.
fn committed(clock: Slot) -> [(Call, Outcome); 11] {
    [
        (Call::Heal, Outcome::Healed(false)),
        (Call::Advance, Outcome::Advanced(Advance::More)),
        (Call::Advance, Outcome::Advanced(Advance::More)),
        (Call::Advance, Outcome::Advanced(Advance::More)),
        (Call::Advance, Outcome::Advanced(Advance::Committed)),
        (Call::Heal, Outcome::Healed(false)),
        (Call::Publish, Outcome::Published(Publishes::Published)),
        (Call::Heal, Outcome::Healed(false)),
        (Call::Release, Outcome::Released(Release::Released(clock))),
        (Call::GiveBack, Outcome::GaveBack(true)),
        (Call::Heal, Outcome::Healed(true)),
    ]
}

#[test]
fn a_checkpoint_that_is_asked_for_comes_between_two_batches(rt: HostRuntime) -> Result<(), Fail> {
    let clock = slot_of(17)?;
    let mut course = Vec::new(rt.alloc());
    course.extend_from_slice(&fetched(clock, 1)?)?;
    course.extend_from_slice(&committed(clock))?;
    // One is open.
    course.push((Call::Heal, Outcome::Healed(false)))?;
    // The piece, a sync, the gate and its sync.
    for _call in 0..4 {
        course.push((Call::Advance, Outcome::Advanced(Advance::More)))?;
    }
    course.push((Call::Advance, Outcome::Advanced(Advance::Nothing)))?;
    let Played {
        differs_at,
        disk,
        ..
    } = play(rt.alloc(), SIZE, CALLS, &course)?;
    same(differs_at, None)?;
    let wanted = Standing {
        epoch: 2,
        count: 1,
        used: 0,
    };
    same(stands_as(rt.alloc(), disk)?, wanted)?;
    Ok(())
}

#[test]
fn a_second_one_leads_back_to_the_first_half(rt: HostRuntime) -> Result<(), Fail> {
    let clock = slot_of(17)?;
    let mut course = Vec::new(rt.alloc());
    course.extend_from_slice(&fetched(clock, 1)?)?;
    course.extend_from_slice(&committed(clock))?;
    // The second one closes the other half's gate first, by two calls.
    for calls in [4, 6] {
        for _call in 0..calls {
            course.push((Call::Advance, Outcome::Advanced(Advance::More)))?;
        }
        course.push((Call::Advance, Outcome::Advanced(Advance::Nothing)))?;
        course.push((Call::Heal, Outcome::Healed(true)))?;
    }
    let Played {
        differs_at,
        count,
        disk,
    } = play(rt.alloc(), SIZE, CALLS, &course)?;
    same((differs_at, count), (None, 1))?;
    let wanted = Standing {
        epoch: 3,
        count: 1,
        used: 0,
    };
    same(stands_as(rt.alloc(), disk)?, wanted)?;
    Ok(())
}
