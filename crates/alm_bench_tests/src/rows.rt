//! The worked rows.

use crate::traces::{differs_at, formatted, trace};
use alm_bench::{Bench, Step, StepEvent, life};
use alm_common_tests::{moment_of, reading_of, same, same_at, slot_of};
use alm_disk::MemDisk;
use alm_keeper::OpenFault;
use alm_types::{Action, AlarmId, Query, Refusal, Slot, Verdict, Want};
use std::alloc::Global;
use std::test::Fail;

/// More calls than any of these runs makes.
const CALLS: usize = 1000;

const LOOK: Query = Query::State(AlarmId(0));

/// The first place at which the trace of these steps, on a device of which a number of calls succeed, isn't the expected one.
fn goes_so(
    alloc: Global,
    calls: usize,
    steps: &[Step],
    wanted: &[StepEvent],
) -> Result<Option<usize>, Fail> {
    let trace = trace(alloc, calls, steps)?;
    let found = differs_at(&trace, wanted);
    drop(trace);
    Ok(found)
}

/// One action from its request to its receipt, and a crash after it.
fn steps_of_one_action(alloc: Global, clock: Slot, console: Slot, now: Action) -> [Step; 18] {
    [
        Step::Reopen,
        Step::Send(clock, Want::Do(now)),
        Step::Take(clock),
        Step::Look(console, LOOK),
        Step::Seal,
        Step::Fetch,
        Step::Call,
        Step::Call,
        Step::Call,
        Step::Call,
        Step::Release,
        Step::Publish,
        Step::Look(console, LOOK),
        Step::Release,
        Step::Receive(clock),
        Step::Crash(Vec::new(alloc)),
        Step::Send(console, Want::Do(Action::Ack(AlarmId(0)))),
        Step::Reopen,
    ]
}

/// What they are answered.
fn events_of_one_action(clock: Slot, now: &Action) -> [StepEvent; 18] {
    [
        StepEvent::Opened(0),
        StepEvent::Sent(1),
        StepEvent::Took(Verdict::Accepted(*now)),
        StepEvent::Looked(0),
        StepEvent::Sealed,
        StepEvent::Fetched,
        StepEvent::More,
        StepEvent::More,
        StepEvent::More,
        StepEvent::Committed,
        StepEvent::Skipped,
        StepEvent::Published,
        StepEvent::Looked(1),
        StepEvent::Released(clock),
        StepEvent::Received(1, Verdict::Accepted(*now), 1),
        StepEvent::Crashed,
        StepEvent::Skipped,
        StepEvent::Opened(1),
    ]
}

#[test]
fn one_action_goes_its_way(rt: HostRuntime) -> Result<(), Fail> {
    let alloc = rt.alloc();
    let clock = slot_of(17)?;
    let console = slot_of(0)?;
    let now = Action::Clock(moment_of(1000)?);
    let wanted = events_of_one_action(clock, &now);
    let steps = steps_of_one_action(alloc, clock, console, now);
    let found = goes_so(alloc, CALLS, &steps, &wanted);
    drop(steps);
    same(found?, None)?;
    Ok(())
}

/// What is opened after a crash after `calls` calls of a commit of one action, if the pending bytes stay as they read.
fn opened_after(alloc: Global, calls: usize) -> Result<Option<StepEvent>, Fail> {
    let clock = slot_of(17)?;
    let now = Action::Clock(moment_of(1000)?);
    let mut steps = Vec::new(alloc);
    steps.push(Step::Reopen)?;
    steps.push(Step::Send(clock, Want::Do(now)))?;
    steps.push(Step::Take(clock))?;
    steps.push(Step::Seal)?;
    steps.push(Step::Fetch)?;
    for _call in 0..calls {
        steps.push(Step::Call)?;
    }
    steps.push(Step::Crash(Vec::new(alloc)))?;
    steps.push(Step::Reopen)?;
    Ok(trace(alloc, CALLS, &steps)?.last().copied())
}

#[test]
fn a_crash_after_each_call(rt: HostRuntime) -> Result<(), Fail> {
    for (calls, count) in [(0, 0), (1, 0), (2, 0), (3, 1), (4, 1)] {
        same_at(
            calls,
            opened_after(rt.alloc(), calls)?,
            Some(StepEvent::Opened(count)),
        )?;
    }
    Ok(())
}

#[test]
fn a_failure_closes_the_bench(rt: HostRuntime) -> Result<(), Fail> {
    let alloc = rt.alloc();
    let clock = slot_of(17)?;
    let now = Action::Clock(moment_of(1000)?);
    let steps = [
        Step::Reopen,
        Step::Send(clock, Want::Do(now)),
        Step::Take(clock),
        Step::Seal,
        Step::Fetch,
        Step::Call,
        Step::Call,
        Step::Call,
        Step::Call,
        Step::Look(clock, LOOK),
        Step::Reopen,
        Step::Crash(Vec::new(alloc)),
        Step::Reopen,
    ];
    let wanted = [
        StepEvent::Opened(0),
        StepEvent::Sent(1),
        StepEvent::Took(Verdict::Accepted(now)),
        StepEvent::Sealed,
        StepEvent::Fetched,
        StepEvent::More,
        StepEvent::More,
        StepEvent::Failed,
        StepEvent::Skipped,
        StepEvent::Skipped,
        StepEvent::Unopened(OpenFault::Disk),
        StepEvent::Crashed,
        StepEvent::Unopened(OpenFault::Disk),
    ];
    // Ten calls to format, six to open, and two of the commit.
    let found = goes_so(alloc, 18, &steps, &wanted);
    drop(steps);
    same(found?, None)?;
    Ok(())
}

/// The feed sends a value, and a console the same, which it may not.
fn steps_of_a_refusal(feed: Slot, console: Slot, value: &Action) -> [Step; 22] {
    [
        Step::Reopen,
        Step::Send(feed, Want::Do(*value)),
        Step::Send(console, Want::Do(*value)),
        Step::Take(feed),
        Step::Take(console),
        Step::Receive(console),
        Step::Seal,
        Step::Fetch,
        Step::Call,
        Step::Call,
        Step::Call,
        Step::Call,
        Step::Publish,
        Step::Receive(console),
        Step::Release,
        Step::GiveBack,
        Step::Release,
        Step::GiveBack,
        Step::Receive(console),
        Step::Look(console, Query::State(AlarmId(4))),
        Step::Look(console, Query::Priority(5)),
        Step::Look(console, Query::Priority(1)),
    ]
}

/// Their answers, if the console's request is refused so.
fn events_of_a_refusal(
    feed: Slot,
    console: Slot,
    value: Action,
    refused: &Verdict,
) -> [StepEvent; 22] {
    [
        StepEvent::Opened(0),
        StepEvent::Sent(1),
        StepEvent::Sent(1),
        StepEvent::Took(Verdict::Accepted(value)),
        StepEvent::Took(*refused),
        StepEvent::Skipped,
        StepEvent::Sealed,
        StepEvent::Fetched,
        StepEvent::More,
        StepEvent::More,
        StepEvent::More,
        StepEvent::Committed,
        StepEvent::Published,
        StepEvent::Skipped,
        StepEvent::Released(feed),
        StepEvent::Skipped,
        StepEvent::Released(console),
        StepEvent::GaveBack,
        StepEvent::Received(1, *refused, 1),
        StepEvent::Skipped,
        StepEvent::Skipped,
        StepEvent::Looked(1),
    ]
}

#[test]
fn a_refusal_waits_for_the_actions_before_it(rt: HostRuntime) -> Result<(), Fail> {
    let alloc = rt.alloc();
    let feed = slot_of(16)?;
    let console = slot_of(0)?;
    let value = Action::Value(AlarmId(0), reading_of(800)?);
    let refused = Verdict::Refused(Refusal::WrongRole, 1);
    let wanted = events_of_a_refusal(feed, console, value, &refused);
    let steps = steps_of_a_refusal(feed, console, &value);
    let found = goes_so(alloc, CALLS, &steps, &wanted);
    drop(steps);
    same(found?, None)?;
    Ok(())
}

/// Why a device of `size` zeros isn't opened.
fn fault_of_zeros(alloc: Global, size: usize) -> Result<Option<OpenFault>, Fail> {
    let disk = MemDisk::new(alloc, vec![in alloc; 0u8; size]?, CALLS)?;
    Ok(match Bench::new(alloc, disk) {
        Ok(_) => None,
        Err((fault, _)) => Some(fault),
    })
}

#[test]
fn an_unformatted_device_is_refused(rt: HostRuntime) -> Result<(), Fail> {
    same(
        fault_of_zeros(rt.alloc(), 28_997)?,
        Some(OpenFault::Unformatted),
    )?;
    Ok(())
}

/// Whether a bench answers these steps so.
fn goes(bench: &mut Bench<MemDisk>, alloc: Global, steps: &[Step], wanted: &[StepEvent]) -> bool {
    match bench.run(alloc, steps) {
        Ok(trace) => differs_at(&trace, wanted).is_none(),
        Err(_) => false,
    }
}

/// Whether a bench that is opened continues in a second run from the end of the first one.
fn goes_on(alloc: Global, disk: MemDisk, slot: Slot) -> bool {
    let ack = Action::Ack(AlarmId(0));
    let refused = Verdict::Refused(Refusal::NotUnacknowledged, 0);
    match Bench::new(alloc, disk) {
        Ok(mut bench) => {
            let first = goes(
                &mut bench,
                alloc,
                &[Step::Reopen, Step::Send(slot, Want::Do(ack))],
                &[StepEvent::Skipped, StepEvent::Sent(1)],
            );
            let second = goes(
                &mut bench,
                alloc,
                &[Step::Take(slot), Step::Seal, Step::Fetch, Step::Call],
                &[
                    StepEvent::Took(refused),
                    StepEvent::Sealed,
                    StepEvent::Fetched,
                    StepEvent::Committed,
                ],
            );
            first && second
        }
        Err(_) => false,
    }
}

#[test]
fn a_bench_goes_on_where_it_was(rt: HostRuntime) -> Result<(), Fail> {
    let alloc = rt.alloc();
    let console = slot_of(0)?;
    assert!(rt; goes_on(alloc, formatted(alloc, CALLS)?, console));
    Ok(())
}

/// One action of the clock from its request to its receipt, with a number of device calls.
fn tick(
    steps: &mut Vec<Step>,
    wanted: &mut Vec<StepEvent>,
    clock: Slot,
    turn: u64,
    calls: u32,
) -> Result<(), Fail> {
    let now = Action::Clock(moment_of(turn)?);
    let verdict = Verdict::Accepted(now);
    steps.push(Step::Send(clock, Want::Do(now)))?;
    wanted.push(StepEvent::Sent(turn))?;
    steps.push(Step::Take(clock))?;
    wanted.push(StepEvent::Took(verdict))?;
    steps.push(Step::Seal)?;
    wanted.push(StepEvent::Sealed)?;
    steps.push(Step::Fetch)?;
    wanted.push(StepEvent::Fetched)?;
    for call in 1..=calls {
        steps.push(Step::Call)?;
        wanted.push(if call == calls {
            StepEvent::Committed
        } else {
            StepEvent::More
        })?;
    }
    steps.push(Step::Publish)?;
    wanted.push(StepEvent::Published)?;
    steps.push(Step::Release)?;
    wanted.push(StepEvent::Released(clock))?;
    steps.push(Step::GiveBack)?;
    wanted.push(StepEvent::GaveBack)?;
    steps.push(Step::Receive(clock))?;
    wanted.push(StepEvent::Received(turn, verdict, turn))?;
    Ok(())
}

/// How many calls a commit makes, by its turn.
fn calls_of(turn: u64) -> u32 {
    match turn {
        60 => 8,
        119 => 10,
        _ => 4,
    }
}

/// A segment of 4,116 bytes is more than half full after 59 frames of one action, each of 35 bytes. The 59th commit opens a
/// checkpoint, and so does the 59th of the next half. The whole body is one piece, which no commit follows, so the checkpoint
/// ends before the next commit. It has four calls, and two more to close the gate of a half that stood before.
#[test]
fn a_segment_half_full_makes_a_checkpoint(rt: HostRuntime) -> Result<(), Fail> {
    let alloc = rt.alloc();
    let clock = slot_of(17)?;
    let mut steps = Vec::new(alloc);
    let mut wanted = Vec::new(alloc);
    steps.push(Step::Reopen)?;
    wanted.push(StepEvent::Opened(0))?;
    for turn in 1..=120 {
        tick(&mut steps, &mut wanted, clock, turn, calls_of(turn))?;
    }
    steps.push(Step::Crash(Vec::new(alloc)))?;
    wanted.push(StepEvent::Crashed)?;
    steps.push(Step::Reopen)?;
    wanted.push(StepEvent::Opened(120))?;
    same(goes_so(alloc, CALLS, &steps, &wanted)?, None)?;
    Ok(())
}

/// Four slots send 64 requests each, and one more slot one: the batch takes 256 of them, and the last one after it is sealed.
#[test]
fn a_batch_has_256_entries(rt: HostRuntime) -> Result<(), Fail> {
    let alloc = rt.alloc();
    let refused = Verdict::Refused(Refusal::NotUnacknowledged, 0);
    let ack = Action::Ack(AlarmId(0));
    let mut steps = Vec::new(alloc);
    let mut wanted = Vec::new(alloc);
    steps.push(Step::Reopen)?;
    wanted.push(StepEvent::Opened(0))?;
    for slot in 0..4 {
        let slot = slot_of(slot)?;
        for serial in 1..=64 {
            steps.push(Step::Send(slot, Want::Do(ack)))?;
            wanted.push(StepEvent::Sent(serial))?;
            steps.push(Step::Take(slot))?;
            wanted.push(StepEvent::Took(refused))?;
        }
    }
    let last = slot_of(4)?;
    steps.push(Step::Send(last, Want::Do(ack)))?;
    wanted.push(StepEvent::Sent(1))?;
    for (step, event) in [
        (Step::Take(last), StepEvent::Skipped),
        (Step::Seal, StepEvent::Sealed),
        (Step::Take(last), StepEvent::Took(refused)),
    ] {
        steps.push(step)?;
        wanted.push(event)?;
    }
    same(goes_so(alloc, CALLS, &steps, &wanted)?, None)?;
    Ok(())
}

/// The place of the epoch in the half that stands at first, and what follows it.
const EPOCH: (usize, usize) = (24, 32);

/// A device that is formatted for the worked table, in the last epoch.
fn in_the_last_epoch(alloc: Global) -> Result<MemDisk, Fail> {
    let mut bytes = formatted(alloc, CALLS)?.into_bytes();
    for place in EPOCH.0..EPOCH.1 {
        *bytes.get_mut(place).ok_or("an epoch")? = 0xFF;
    }
    Ok(MemDisk::new(alloc, bytes, CALLS)?)
}

/// The first place at which the trace of these steps over a device isn't the expected one.
fn lives_so(
    alloc: Global,
    disk: MemDisk,
    steps: &[Step],
    wanted: &[StepEvent],
) -> Result<Option<usize>, Fail> {
    let (trace, _left) = life(alloc, disk, steps).ok().ok_or("a run")?;
    Ok(differs_at(&trace, wanted))
}

/// In the last epoch no checkpoint makes room: a segment of 4,116 bytes takes 117 frames of one action, each of 35
/// bytes, and a closed gate. Then the device is closed, and opens with those.
#[test]
fn the_last_epoch_has_room_for_one_segment(rt: HostRuntime) -> Result<(), Fail> {
    let alloc = rt.alloc();
    let clock = slot_of(17)?;
    let last = Action::Clock(moment_of(118)?);
    let mut steps = Vec::new(alloc);
    let mut wanted = Vec::new(alloc);
    steps.push(Step::Reopen)?;
    wanted.push(StepEvent::Opened(0))?;
    for turn in 1..=117 {
        tick(&mut steps, &mut wanted, clock, turn, 4)?;
    }
    for (step, event) in [
        (Step::Send(clock, Want::Do(last)), StepEvent::Sent(118)),
        (Step::Take(clock), StepEvent::Took(Verdict::Accepted(last))),
        (Step::Seal, StepEvent::Sealed),
        (Step::Fetch, StepEvent::Fetched),
        (Step::Call, StepEvent::Failed),
        (Step::Reopen, StepEvent::Opened(117)),
    ] {
        steps.push(step)?;
        wanted.push(event)?;
    }
    let disk = in_the_last_epoch(alloc)?;
    same(lives_so(alloc, disk, &steps, &wanted)?, None)?;
    Ok(())
}
