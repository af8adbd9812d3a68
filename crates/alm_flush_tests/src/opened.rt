//! A keeper of a formatted device.

ghost use Rattle.std.specs.Prelude.{◌≡◌, ◌≤◌, IfOk};
ghost use Rattle.alm_types.specs.Sizes.{most_actions};

use alm_codec::Version;
use alm_disk::Disk;
use alm_keeper::{Keeper, Stage, format_as, open_store};
use alm_types::Table;
use std::alloc::{AllocError, Global};

/// A keeper of a device that is formatted for a table. An error if out of memory, or if it isn't formatted and opened.
pub fn open_formatted<D: Disk + Drop>(
    alloc: Global,
    table: &Table,
    disk: D,
) -> Result<Keeper<D>, AllocError>
    ensures idle { IfOk result (λ keeper. keeper.stage ≡ Stage.Idle) }
    ensures limit { IfOk result (λ keeper. keeper.stored.plant.panel.count ≤ most_actions) }
{
    open_formatted_as(alloc, table, disk, Version::V02)
}

/// The same of a device that is formatted in a version.
pub fn open_formatted_as<D: Disk + Drop>(
    alloc: Global,
    table: &Table,
    disk: D,
    version: Version,
) -> Result<Keeper<D>, AllocError>
    ensures idle { IfOk result (λ keeper. keeper.stage ≡ Stage.Idle) }
    ensures limit { IfOk result (λ keeper. keeper.stored.plant.panel.count ≤ most_actions) }
{
    match format_as(alloc, disk, table, version) {
        Ok(disk) => reopen(alloc, disk),
        Err(_) => Err(AllocError),
    }
}

/// A keeper of a device. An error if out of memory, or if it isn't opened.
pub fn reopen<D: Disk + Drop>(alloc: Global, disk: D) -> Result<Keeper<D>, AllocError>
    ensures idle { IfOk result (λ keeper. keeper.stage ≡ Stage.Idle) }
    ensures limit { IfOk result (λ keeper. keeper.stored.plant.panel.count ≤ most_actions) }
{
    match open_store(alloc, disk) {
        Ok(keeper) => Ok(keeper),
        Err(_) => Err(AllocError),
    }
}

/// What a device opens as.
#[derive(Clone, Copy, Debug, PartialEq, Eq)]
pub struct Standing {
    pub epoch: u64,
    pub count: u64,
    /// How many bytes of the segment its frames take.
    pub used: u64,
}

/// The same of a device, which is dropped.
pub fn stands_as<D: Disk + Drop>(alloc: Global, disk: D) -> Result<Standing, AllocError> {
    let keeper = reopen(alloc, disk)?;
    let found = Standing {
        epoch: keeper.epoch(),
        count: keeper.count(),
        used: keeper.used(),
    };
    drop(keeper);
    Ok(found)
}
