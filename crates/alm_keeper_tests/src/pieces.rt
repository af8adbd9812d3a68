//! A checkpoint in pieces, with commits between them, on a device of zeros.

use crate::choosers::Left;
use crate::course::{Part, Stored};
use crate::steps::{advance, batch, begin, open, stores};
use crate::worked::clock;
use alm_common_tests::{holds_at, same, same_at};
use alm_disk::{Call, Crashable, Disk, FuseDisk, MemDisk, OnceDisk};
use alm_keeper::{Keeper, Phase, Progress, Refused, format, open_store};
use alm_types::{Attr, Kind, Settings, Table};
use std::alloc::Global;
use std::test::Fail;

/// How long a device of 1,000 alarms in 2 areas is, and the places of half 1 and of its segment.
const SIZE: usize = 391_541;

const HALF: usize = 195_782;

const SEGMENT: usize = 387_425;

/// How long one of 360 alarms is, and the places of the segment of half 0 and of half 1. Its runs have two pieces.
const SMALL_SIZE: usize = 158_581;

const SMALL_SEGMENT: u64 = 75_186;

const SMALL_HALF: u64 = 79_302;

/// An alarm of an area.
fn alarm(area: u8) -> Option<Attr> {
    let settings = Settings {
        kind: Kind::High,
        setpoint: 800,
        deadband: 10,
        priority: 1,
        area,
        latching: false,
        max_shelve: 0,
    };
    Attr::new(settings, b"TI-101", b"").ok()
}

/// A table of `rows` alarms in `areas` areas.
pub fn table_in(alloc: Global, rows: u32, areas: u8) -> Result<Table, Fail> {
    let mut alarms = Vec::new(alloc);
    for number in 0..rows {
        match alarm((number % u32::from(areas.max(1))) as u8) {
            Some(alarm) => alarms.push(alarm)?,
            None => return Err(Fail::new("an alarm")),
        }
    }
    match Table::new(alarms, areas) {
        Ok(table) => Ok(table),
        Err(_) => Err(Fail::new("a table")),
    }
}

/// A device of `size` bytes.
pub fn zeros(alloc: Global, size: usize) -> Result<MemDisk, Fail> {
    Ok(MemDisk::new(alloc, vec![in alloc; 0u8; size]?, 200)?)
}

/// A keeper of a new device.
fn fresh<D: Disk + Drop>(alloc: Global, disk: D, rows: u32) -> Result<Keeper<D>, Fail> {
    match format(alloc, disk, &table_in(alloc, rows, 2)?) {
        Ok(disk) => open(alloc, disk),
        Err(_) => Err(Fail::new("not formatted")),
    }
}

/// Whether a batch of one action is stored, the next one.
pub fn stores_next<D: Disk + Drop>(alloc: Global, keeper: &mut Keeper<D>) -> Result<bool, Fail> {
    let first = keeper.count().saturating_add(1);
    let batch = batch(alloc, first, &[clock(first.saturating_mul(1000))])?;
    Ok(stores(keeper, &batch))
}

/// What a keeper says of itself, and whether the call before was done.
#[derive(Clone, Copy, Debug, PartialEq, Eq)]
struct Said {
    done: bool,
    phase: Phase,
    paused: bool,
    // How many bytes its pieces have, counted from the end of the last commit or the last mark on.
    written: u64,
    epoch: u64,
    count: u64,
    used: u64,
}

fn shown<D: Disk + Drop>(keeper: &Keeper<D>, done: bool) -> Said {
    Said {
        done,
        phase: keeper.phase(),
        paused: keeper.paused(),
        written: keeper.written_since(),
        epoch: keeper.epoch(),
        count: keeper.count(),
        used: keeper.used(),
    }
}

/// A commit, a checkpoint's three pieces with a commit after the first, and its end.
fn between<D: Disk + Drop>(alloc: Global, keeper: &mut Keeper<D>) -> Result<[Said; 7], Fail> {
    let first = stores_next(alloc, keeper)?;
    let first = shown(keeper, first);
    let begun = keeper.begin_checkpoint().is_ok();
    let begun = shown(keeper, begun);
    let again = keeper.begin_checkpoint() == Err(Refused::Working);
    let piece = advance(keeper, 1) == Progress::More;
    let piece = shown(keeper, again && piece);
    let second = stores_next(alloc, keeper)?;
    let second = shown(keeper, second);
    let pieces = advance(keeper, 2) == Progress::More;
    let pieces = shown(keeper, pieces);
    let third = batch(alloc, 3, &[clock(3000)])?;
    let refused = begin(keeper, &third) == Some(Err(Refused::Working));
    let refused = shown(keeper, refused);
    let ended = advance(keeper, 3) == Progress::Done;
    let ended = shown(keeper, ended);
    Ok([first, begun, piece, second, pieces, refused, ended])
}

#[test]
fn a_commit_between_two_pieces(rt: HostRuntime) -> Result<(), Fail> {
    let alloc = rt.alloc();
    let mut keeper = fresh(alloc, zeros(alloc, SIZE)?, 1000)?;
    let told = between(alloc, &mut keeper);
    let disk = keeper.into_disk();
    let rows = [
        (Phase::Idle, 0, 1, 1, 35),
        (Phase::Paused, 0, 1, 1, 35),
        (Phase::Paused, 65_536, 1, 1, 35),
        (Phase::Paused, 0, 1, 2, 70),
        (Phase::Copying, 126_142, 1, 2, 70),
        (Phase::Copying, 126_142, 1, 2, 70),
        (Phase::Idle, 126_142, 2, 2, 35),
    ];
    for (told, (phase, written, epoch, count, used)) in told?.into_iter().zip(rows) {
        let row = Said {
            done: true,
            phase,
            paused: phase == Phase::Paused,
            written,
            epoch,
            count,
            used,
        };
        same(told, row)?;
    }
    let head = [0xA5, 0, 0, 0, 0, 0, 0, 0, 2, 2, 0, 0, 0, 0, 0, 0, 1];
    same(disk.bytes().get(HALF..HALF + 17), Some(head.as_slice()))?;
    let frame = [0xA5, 0, 0, 0, 0, 0, 0, 0, 2, 0, 0, 0, 0, 0, 0, 0, 2, 0, 1];
    same(
        disk.bytes().get(SEGMENT..SEGMENT + 19),
        Some(frame.as_slice()),
    )?;
    same(disk.bytes().get(SEGMENT + 35), Some(&0))?;
    Ok(())
}

/// Continues to that checkpoint's last write, which opens its gate. Whether all was done.
fn opens_the_gate(alloc: Global, keeper: &mut Keeper<MemDisk>) -> Result<bool, Fail> {
    let first = stores_next(alloc, keeper)? && keeper.begin_checkpoint().is_ok();
    let piece = advance(keeper, 1) == Progress::More;
    let second = stores_next(alloc, keeper)?;
    let gate = advance(keeper, 4) == Progress::More;
    Ok(first && piece && second && gate)
}

#[test]
fn a_crash_as_the_gate_is_opened(rt: HostRuntime) -> Result<(), Fail> {
    let alloc = rt.alloc();
    for (byte, epoch) in [(0x00, 1), (0x5A, 1), (0xFF, 1), (0xA5, 2)] {
        let mut keeper = fresh(alloc, zeros(alloc, SIZE)?, 1000)?;
        let done = opens_the_gate(alloc, &mut keeper);
        let stood = standing(alloc, keeper.into_disk().crash(&mut Left::Every(byte)));
        assert!(rt; done?);
        same_at(byte, stood, Some((epoch, 2)))?;
    }
    Ok(())
}

#[test]
fn a_mark_counts_anew(rt: HostRuntime) -> Result<(), Fail> {
    let alloc = rt.alloc();
    let mut keeper = fresh(alloc, zeros(alloc, SIZE)?, 1000)?;
    let begun = keeper.begin_checkpoint().is_ok();
    let first = advance(&mut keeper, 1) == Progress::More;
    keeper.mark();
    let marked = shown(&keeper, begun && first);
    let second = advance(&mut keeper, 1) == Progress::More;
    let counted = shown(&keeper, second);
    let disk = keeper.into_disk();
    let writes = disk.calls().last().copied();
    same((marked.done, marked.written), (true, 0))?;
    same((counted.done, counted.written), (true, 65_536))?;
    same(
        writes,
        Some(Call::Write {
            at: HALF as u64 + 1 + 65_536,
            length: 65_536,
        }),
    )?;
    Ok(())
}

/// A commit: its frame's gate, and how many actions were stored before.
fn commit(gate: u64, count: u64) -> Part {
    let before = Some((1, count));
    Part {
        calls: 4,
        opens: 2,
        gate,
        before,
        after: Some((1, count.saturating_add(1))),
    }
}

/// A piece, with `count` actions stored.
fn piece(count: u64) -> Part {
    Part {
        calls: 1,
        opens: 1,
        gate: 0,
        before: Some((1, count)),
        after: Some((1, count)),
    }
}

/// A commit, and a checkpoint in two pieces with a commit before each of them.
fn parts() -> [Part; 6] {
    [
        commit(SMALL_SEGMENT, 0),
        commit(SMALL_SEGMENT + 35, 1),
        piece(2),
        commit(SMALL_SEGMENT + 70, 2),
        piece(3),
        Part {
            calls: 3,
            opens: 1,
            gate: SMALL_HALF,
            before: Some((1, 3)),
            after: Some((2, 3)),
        },
    ]
}

/// How many calls come before these, and how many these are.
const BEFORE: u64 = 16;

const CALLS: u64 = 17;

/// Does all of it on a new device, up to the first call that fails: whether all was done.
fn works<D: Disk + Drop>(alloc: Global, keeper: &mut Keeper<D>) -> Result<bool, Fail> {
    if !stores_next(alloc, keeper)? || keeper.begin_checkpoint().is_err() {
        return Ok(false);
    }
    for _piece in 0..2 {
        if !stores_next(alloc, keeper)? || advance(keeper, 1) != Progress::More {
            return Ok(false);
        }
    }
    Ok(advance(keeper, 3) == Progress::Done)
}

/// What a device encodes after a crash, if the call after `calls` calls failed.
fn judged(calls: u64, disk: &MemDisk, left: &Left) -> Stored {
    let mut before: u64 = BEFORE;
    for part in parts() {
        let end = before.saturating_add(part.calls);
        if calls >= before && calls < end {
            let read = disk.bytes().get(part.gate as usize).copied().unwrap_or(0);
            let opened = left.byte(part.gate, read) == 0xA5;
            return if calls >= before.saturating_add(part.opens) && opened {
                part.after
            } else {
                part.before
            };
        }
        before = end;
    }
    Some((2, 3))
}

/// Whether all was done on a device, and the device.
fn tried<D: Disk + Drop>(alloc: Global, disk: D) -> Result<(bool, D), Fail> {
    let mut keeper = fresh(alloc, disk, 360)?;
    let done = works(alloc, &mut keeper);
    let disk = keeper.into_disk();
    Ok((done?, disk))
}

/// The epoch and the count of a device, if it is opened.
fn standing<D: Disk + Drop>(alloc: Global, disk: D) -> Stored {
    match open_store(alloc, disk) {
        Ok(keeper) => {
            let stored = (keeper.epoch(), keeper.count());
            drop(keeper);
            Some(stored)
        }
        Err(_) => None,
    }
}

/// Whether a device with a fuse of `calls` calls opens after a crash as what the judge says.
fn fused(alloc: Global, calls: u64, mut left: Left) -> Result<bool, Fail> {
    let (done, disk) = tried(alloc, FuseDisk::new(zeros(alloc, SMALL_SIZE)?, calls))?;
    let wanted = judged(calls, &disk.disk, &left);
    let stood = standing(alloc, disk.crash(&mut left));
    Ok(stood == wanted && done == (calls == BEFORE + CALLS))
}

/// The same of one of which only the call after `calls` calls fails.
fn failed_once(alloc: Global, calls: u64, mut left: Left) -> Result<bool, Fail> {
    let once = OnceDisk::new(zeros(alloc, SMALL_SIZE)?, calls.saturating_add(1));
    let (done, disk) = tried(alloc, once)?;
    let wanted = judged(calls, &disk.disk, &left);
    let stood = standing(alloc, disk.crash(&mut left));
    Ok(stood == wanted && !done)
}

#[test]
fn a_fuse_of_each_length(rt: HostRuntime) -> Result<(), Fail> {
    let alloc = rt.alloc();
    for calls in BEFORE..=BEFORE + CALLS {
        for byte in [0x00, 0xA5] {
            holds_at((calls, byte), fused(alloc, calls, Left::Every(byte))?)?;
        }
    }
    Ok(())
}

#[test]
fn each_call_that_fails_alone(rt: HostRuntime) -> Result<(), Fail> {
    let alloc = rt.alloc();
    for calls in BEFORE..BEFORE + CALLS {
        for byte in [0x00, 0xA5] {
            holds_at((calls, byte), failed_once(alloc, calls, Left::Every(byte))?)?;
        }
    }
    Ok(())
}
