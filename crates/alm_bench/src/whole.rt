//! The whole life of a device under any steps.

ghost use Rattle.std.specs.Prelude.{ℕ, List, IfOk, IfErr};
ghost use Rattle.alm_disk.specs.Device.{IsImage};
ghost use Rattle.alm_model.specs.New.{new_plant};
ghost use Rattle.alm_model.specs.Plant.{Condensed};
ghost use Rattle.alm_pipeline.specs.World.{first, closed_world};
ghost use Rattle.alm_pipeline.specs.Pace.{PacesAll, most_more};
ghost use Rattle.alm_bench.specs.Lived.{IsLeftAlone, IsLifeOf, IsNewFor, IsUnlived};
ghost use Rattle.alm_bench.specs.StandOnly.{StandOnly};
ghost use Rattle.alm_bench.specs.Traced.{KeepsTold};

use crate::bench::Bench;
use alm_disk::Crashable;
use alm_keeper::{FormatFault, format};
use alm_pipeline::{Step, StepEvent};
use alm_types::Table;
use std::alloc::{AllocError, Global};

/// The headline: a device encodes a plant, whatever a crash leaves of it. It goes through these steps, and is returned with their
/// trace. The first of them that is possible is a crash or a reopening. What is said of a device that is honest at the end: it was
/// at each point before, since only what a reopening reads may end that.
///
/// Refused if out of memory, before the first step: the device is returned unchanged.
pub fn life<D: Crashable + Drop>(
    alloc: Global,
    disk: D,
    steps: &[Step],
) -> Result<(Vec<StepEvent>, D), (AllocError, D)>
    ensures honest { IfOk result (λ lived. D.honest lived.1 → D.honest disk) }
    ensures run { (plant : Condensed) → StandOnly (D.state disk) plant →
        IfOk result
        (λ lived. D.honest lived.1 → IsLifeOf D.Disk plant steps.now lived.0.items disk lived.1) }
    // By the trace alone: a crash leaves the plant of a prefix of the actions that it accepted, with all that it reported.
    ensures told { (plant : Condensed) → StandOnly (D.state disk) plant →
        IfOk result
        (λ lived. D.honest lived.1 →
        (image : List ℕ) → IsImage (D.state lived.1) image → KeepsTold plant lived.0.items image) }
    // Each commit in it ends: at most `most_more` of a batch's calls return More.
    ensures paces { (plant : Condensed) → StandOnly (D.state disk) plant →
        IfOk result
        (λ lived. D.honest lived.1 → (last : ℕ) ×
        PacesAll most_more (closed_world (first plant)) 0 steps.now lived.0.items last) }
    ensures refused { IfErr result (λ e. IsLeftAlone D.Disk disk e.1) }
{
    let mut bench = Bench::closed(alloc, disk);
    match bench.run(alloc, steps) {
        Ok(trace) => Ok((trace, bench.into_disk())),
        Err(fault) => Err((fault, bench.into_disk())),
    }
}

/// The headline from the first byte on: a device is formatted for a table, goes through these steps, and is returned with
/// their trace. At first it encodes the table's new plant.
///
/// Refused, and the device is returned, if `format` refuses, or if out of memory.
pub fn whole_life<D: Crashable + Drop>(
    alloc: Global,
    disk: D,
    table: &Table,
    steps: &[Step],
) -> Result<(Vec<StepEvent>, D), (FormatFault, D)>
    ensures honest { IfOk result (λ lived. D.honest lived.1 → D.honest disk) }
    // The run begins at what `format` makes of the device.
    ensures run { IfOk result
        (λ lived. D.honest lived.1 → (formatted : D) ×
        IsNewFor D.Disk (new_plant table.now) disk formatted ×
        StandOnly (D.state formatted) (new_plant table.now) ×
        IsLifeOf D.Disk (new_plant table.now) steps.now lived.0.items formatted lived.1) }
    ensures told { IfOk result
        (λ lived. D.honest lived.1 → (image : List ℕ) → IsImage (D.state lived.1) image →
        KeepsTold (new_plant table.now) lived.0.items image) }
    ensures paces { IfOk result
        (λ lived. D.honest lived.1 → (last : ℕ) ×
        PacesAll most_more (closed_world (first (new_plant table.now))) 0 steps.now lived.0.items
        last) }
    // The formatting was refused, or memory ran out when the device was formatted.
    ensures refused { IfErr result (λ e. IsUnlived D.Disk e.0 (new_plant table.now) disk e.1) }
{
    match format(alloc, disk, table) {
        Ok(disk) => match life(alloc, disk, steps) {
            Ok(lived) => Ok(lived),
            Err((AllocError, disk)) => Err((FormatFault::OutOfMemory, disk)),
        },
        Err(refused) => Err(refused),
    }
}
