//! Batches, and works that are done call by call.

use crate::worked::{device, table};
use alm_disk::{Disk, MemDisk};
use alm_keeper::{Keeper, Progress, Refused, format, open_store};
use alm_model::accepted_in;
use alm_types::{Action, Batch, Entry, Refusal, Slot, Verdict, Want};
use std::alloc::Global;
use std::test::Fail;

/// A batch of verdicts, the first of whose actions has a number.
pub fn batch_of(alloc: Global, first: u64, verdicts: &[Verdict]) -> Result<Batch, Fail> {
    let mut batch = Batch::new(alloc)?;
    batch.restart(first);
    let Some(slot) = Slot::new(5) else {
        return Err(Fail::new("a slot"));
    };
    for (serial, verdict) in verdicts.iter().enumerate() {
        if !batch.is_full() {
            batch.push(Entry {
                slot,
                serial: serial as u64,
                want: Want::Do(crate::worked::ack(0)),
                verdict: *verdict,
            });
        }
    }
    Ok(batch)
}

/// A batch of accepted actions.
pub fn batch(alloc: Global, first: u64, actions: &[Action]) -> Result<Batch, Fail> {
    let mut verdicts = Vec::new(alloc);
    for action in actions {
        verdicts.push(Verdict::Accepted(*action))?;
    }
    batch_of(alloc, first, &verdicts)
}

/// Begins the commit of a batch; `None` if it has no action, or isn't taken.
pub fn begin<D: Disk + Drop>(keeper: &mut Keeper<D>, batch: &Batch) -> Option<Result<(), Refused>> {
    if accepted_in(batch) >= 1 && keeper.takes(batch) {
        Some(keeper.begin(batch))
    } else {
        None
    }
}

/// `calls` device calls of the work that is begun, or all that it has.
pub fn advance<D: Disk + Drop>(keeper: &mut Keeper<D>, calls: u32) -> Progress {
    let mut last = Progress::More;
    for _call in 0..calls {
        if keeper.is_working() {
            last = keeper.advance();
        }
    }
    last
}

/// Whether a batch is stored, to the end.
pub fn stores<D: Disk + Drop>(keeper: &mut Keeper<D>, batch: &Batch) -> bool {
    begin(keeper, batch) == Some(Ok(())) && advance(keeper, 4) == Progress::Done
}

/// Whether a checkpoint is made, to the end.
pub fn copies<D: Disk + Drop>(keeper: &mut Keeper<D>) -> bool {
    keeper.begin_checkpoint().is_ok() && advance(keeper, 6) == Progress::Done
}

/// A refusal, at a count.
pub fn refused(count: u64) -> Verdict {
    Verdict::Refused(Refusal::NoSuchAlarm, count)
}

/// What works were done on, if they were done.
pub fn worked<T: Drop>(on: T, done: bool) -> Result<T, Fail> {
    if done {
        Ok(on)
    } else {
        Err(Fail::new("not done"))
    }
}

/// A keeper of this device.
pub fn open<D: Disk + Drop>(alloc: Global, disk: D) -> Result<Keeper<D>, Fail> {
    match open_store(alloc, disk) {
        Ok(keeper) => Ok(keeper),
        Err(_) => Err(Fail::new("not opened")),
    }
}

/// A keeper of a new device.
pub fn fresh(alloc: Global) -> Result<Keeper<MemDisk>, Fail> {
    match format(alloc, device(alloc, crate::worked::SIZE)?, &table(alloc)?) {
        Ok(disk) => open(alloc, disk),
        Err(_) => Err(Fail::new("not formatted")),
    }
}
