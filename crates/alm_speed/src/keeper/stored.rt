//! What is stored in a keeper.

use alm_disk::Disk;
use alm_keeper::{Keeper, Progress};
use alm_model::accepted_in;
use alm_types::{
    Action, AlarmId, Attr, Batch, Entry, Kind, Reading, Settings, Slot, Table, Verdict, Want,
};
use anyhow::{Result, anyhow};
use std::alloc::Global;

const AREAS: u32 = 64;

/// How many actions a batch has.
const ACTIONS: u32 = 256;

/// More calls than the longest work makes: a checkpoint of 51 pieces.
const MOST_CALLS: u32 = 64;

/// A table of `alarms` alarms in 64 areas.
pub fn table(alloc: Global, alarms: u32) -> Result<Table> {
    let mut attrs = Vec::with_capacity(alloc, alarms as usize)?;
    for number in 0..alarms {
        let settings = Settings {
            kind: Kind::High,
            setpoint: 800,
            deadband: 10,
            priority: (number % 4) as u8 + 1,
            area: (number % AREAS) as u8,
            latching: false,
            max_shelve: 0,
        };
        attrs.push(Attr::new(settings, b"T", b"").map_err(|_| anyhow!("attributes"))?)?;
    }
    Table::new(attrs, AREAS as u8).map_err(|_| anyhow!("table"))
}

/// Fills a batch with the values of a turn: the conditions of the alarms come one after the other, and after all have
/// come, they go one after the other.
fn fill(batch: &mut Batch, alarms: u32, turn: u32) {
    let first = turn.wrapping_mul(ACTIONS);
    batch.restart(u64::from(first) + 1);
    for number in 0..ACTIONS {
        let place = first.wrapping_add(number);
        let value = if (place / alarms.max(1)) % 2 == 0 {
            Reading::new(1000)
        } else {
            Reading::new(0)
        };
        if let (Some(slot), Some(value)) = (Slot::new(16), value) {
            let id = AlarmId(place % alarms.max(1));
            if !batch.is_full() {
                batch.push(Entry {
                    slot,
                    serial: u64::from(place),
                    want: Want::Do(Action::Value(id, value)),
                    verdict: Verdict::Accepted(Action::Value(id, value)),
                });
            }
        }
    }
}

/// The calls of the work that is begun; 1 if it was done.
fn finish<D: Disk + Drop>(keeper: &mut Keeper<D>) -> u32 {
    for _call in 0..MOST_CALLS {
        if keeper.is_working() {
            match keeper.advance() {
                Progress::More => {}
                Progress::Done => return 1,
                Progress::Failed => return 0,
            }
        }
    }
    0
}

fn commit<D: Disk + Drop>(keeper: &mut Keeper<D>, batch: &Batch) -> u32 {
    if accepted_in(batch) == 0 || !keeper.takes(batch) {
        return 0;
    }
    match keeper.begin(batch) {
        Ok(()) => finish(keeper),
        Err(_) => 0,
    }
}

/// A number of commits of 256 values; how many were done.
pub fn commit_all<D: Disk + Drop>(
    keeper: &mut Keeper<D>,
    batch: &mut Batch,
    alarms: u32,
    commits: u32,
) -> u32 {
    let mut done = 0u32;
    for turn in 0..commits {
        fill(batch, alarms, turn);
        done = done.wrapping_add(commit(keeper, batch));
    }
    done
}

/// The body of a checkpoint is made in the keeper's buffer: 1 if it was.
pub fn begin_copy<D: Disk + Drop>(keeper: &mut Keeper<D>) -> u32 {
    u32::from(keeper.begin_checkpoint().is_ok())
}

/// Its calls; 1 if it was done.
pub fn end_copy<D: Disk + Drop>(keeper: &mut Keeper<D>) -> u32 {
    finish(keeper)
}
