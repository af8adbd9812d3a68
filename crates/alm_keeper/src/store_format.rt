//! Formatting a device.

ghost use Rattle.std.specs.Prelude.{◌≡◌, ◌≤◌, ◌+◌, ℕ, false, length, IfOk, IfErr, IfSome, None};
ghost use Rattle.alm_model.specs.New.{new_plant};
ghost use Rattle.alm_model.specs.Rules.{KeepsRules};
ghost use Rattle.alm_codec.specs.Image.{IsOf};
ghost use Rattle.alm_checkpoint.specs.Headers.{segment_fits};
ghost use Rattle.alm_checkpoint.specs.Layouts.{image_size};
ghost use Rattle.alm_codec.specs.declared.version.Version.TheVariants.{V02};
ghost use Rattle.alm_keeper.specs.Formatted.{IsFormatted, IsLeftBy};
ghost use Rattle.alm_keeper.specs.Formatting.{IsLongest, IsLongestFor, first_half};
ghost use Rattle.alm_types.specs.Sizes.{most_actions};

use crate::format_fault::FormatFault;
use crate::formatting::write_all;
use crate::half_text::put_half;
use alm_checkpoint::{HEAD_LEN, HEADER_LEN, Half, Layout};
use alm_codec::Version;
use alm_disk::Disk;
use alm_model::Alarms;
use alm_plant::Plant;
use alm_types::Table;
use std::alloc::{AllocError, Global};

/// The layout of a device of a size for these numbers of alarms and areas, with the longest segment that fits twice.
fn layout_for(rows: u32, areas: u8, size: u64, version: Version) -> Option<Layout>
    ensures longest { IfSome result (IsLongest size rows areas) }
    ensures version { IfSome result (λ l. l.version ≡ version) }
    ensures none { result ≡ None → (n : ℕ) → segment_fits size rows areas n ≡ false }
{
    Layout::longest(rows, areas, size, version)
}

/// Fills half 0 from its closed gate on, up to its segment's first gate, also closed.
fn put_first_half(layout: &Layout, plant: &Plant, out: &mut [u8])
    requires rules { KeepsRules plant.now }
    requires sizes { IsOf layout.now.rows layout.now.areas plant.now.panel.count plant.now }
    requires count { plant.now.panel.count ≤ most_actions }
    requires room { length out.old ≡ 26 + image_size layout.now }
    ensures text { out.new ≡ first_half layout.now plant.now }
    ensures long { length out.new ≡ length out.old }
{
    out[0] = layout.version.closed_gate();
    put_half(layout, Half::First, layout.version, 1, plant, &mut out[1..]);
}

/// Half 0 of a plant's device.
fn new_half(alloc: Global, layout: &Layout, plant: &Plant) -> Result<Vec<u8>, AllocError>
    requires rules { KeepsRules plant.now }
    requires sizes { IsOf layout.now.rows layout.now.areas plant.now.panel.count plant.now }
    requires count { plant.now.panel.count ≤ most_actions }
    ensures text { IfOk result (λ half. half.items ≡ first_half layout.now plant.now) }
{
    let mut half = vec![in alloc; 0u8; 1 + HEAD_LEN + layout.image_len()]?;
    put_first_half(layout, plant, &mut half);
    Ok(half)
}

/// Formats a device for a plant, by its layout.
fn write_plant<D: Disk + Drop>(
    alloc: Global,
    disk: D,
    layout: &Layout,
    plant: &Plant,
) -> Result<D, (FormatFault, D)>
    requires longest { IsLongestFor (D.size disk) plant.now layout.now }
    requires rules { KeepsRules plant.now }
    requires count { plant.now.panel.count ≤ most_actions }
    ensures formatted { IfOk result
        (IsFormatted D.serves D.state D.honest D.size layout.now.version plant.now disk) }
    ensures refused { IfErr result
        (λ x. IsLeftBy x.0 D.serves D.state D.honest D.size D.failures plant.now disk x.1) }
{
    let Ok(half) = new_half(alloc, layout, plant) else {
        return Err((FormatFault::OutOfMemory, disk));
    };
    let mut header = [0u8; HEADER_LEN - 1];
    layout.write_header(&mut header);
    let mut disk = disk;
    match write_all(&mut disk, layout, &header, &half) {
        Ok(()) => Ok(disk),
        Err(_) => Err((FormatFault::Disk, disk)),
    }
}

/// Formats a device for a plant in a version: its old content is overwritten. If that fails the device is returned with the fault.
pub fn format_plant<D: Disk + Drop>(
    alloc: Global,
    disk: D,
    plant: &Plant,
    version: Version,
) -> Result<D, (FormatFault, D)>
    requires rules { KeepsRules plant.now }
    requires count { plant.now.panel.count ≤ most_actions }
    ensures formatted { IfOk result
        (IsFormatted D.serves D.state D.honest D.size version plant.now disk) }
    ensures refused { IfErr result
        (λ x. IsLeftBy x.0 D.serves D.state D.honest D.size D.failures plant.now disk x.1) }
{
    let rows = plant.alarms() as u32;
    let areas = plant.areas() as u8;
    match layout_for(rows, areas, disk.size(), version) {
        Some(layout) => write_plant(alloc, disk, &layout, plant),
        None => Err((FormatFault::TooSmall, disk)),
    }
}

/// Formats a device for the new plant of a table in a version, as [`format_plant`] does.
pub fn format_as<D: Disk + Drop>(
    alloc: Global,
    disk: D,
    table: &Table,
    version: Version,
) -> Result<D, (FormatFault, D)>
    ensures formatted { IfOk result
        (IsFormatted D.serves D.state D.honest D.size version (new_plant table.now) disk) }
    ensures refused { IfErr result
        (λ x. IsLeftBy x.0 D.serves D.state D.honest D.size D.failures (new_plant table.now) disk
        x.1) }
{
    let rows = table.alarms().len() as u32;
    let Some(layout) = layout_for(rows, table.areas(), disk.size(), version) else {
        return Err((FormatFault::TooSmall, disk));
    };
    match Plant::new(alloc, table) {
        Ok(plant) => write_plant(alloc, disk, &layout, &plant),
        Err(_) => Err((FormatFault::OutOfMemory, disk)),
    }
}

/// Formats a device for the new plant of a table in version 02, as [`format_as`] does.
pub fn format<D: Disk + Drop>(alloc: Global, disk: D, table: &Table) -> Result<D, (FormatFault, D)>
    ensures formatted { IfOk result
        (IsFormatted D.serves D.state D.honest D.size V02 (new_plant table.now) disk) }
    ensures refused { IfErr result
        (λ x. IsLeftBy x.0 D.serves D.state D.honest D.size D.failures (new_plant table.now) disk
        x.1) }
{
    format_as(alloc, disk, table, Version::V02)
}
