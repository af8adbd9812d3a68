//! Making a device of a table file.

ghost use Rattle.std.specs.Prelude.{◌≡◌, ℕ, List, length, false, IfOk, IfErr};
ghost use Rattle.alm_lines.specs.Written.{Prints};
ghost use Rattle.alm_model.specs.New.{new_plant};
ghost use Rattle.alm_checkpoint.specs.Headers.{segment_fits};
ghost use Rattle.alm_keeper.specs.Formatting.{IsLongest};
ghost use Rattle.alm_program.specs.Formatted.{IsFormattedFor, IsMadeFor, formatted_text};

use crate::fault::Fault;
use crate::io_faults::{file_fault, io_fault};
use alm_checkpoint::Layout;
use alm_codec::Version;
use alm_disk::Disk;
use alm_file::{FileDisk, Start};
use alm_keeper::format_as;
use alm_lines::{Part, put_parts};
use alm_table::table_of;
use alm_types::Table;
use std::fs::{self, File, Files};
use std::io;
use std::os::unix::fs::MetadataExt;

/// Whether two paths name the same file.
fn is_same_file<R: Files<File = File>>(rt: &R, one: &str, other: &str) -> bool {
    match (fs::metadata(rt, one), fs::metadata(rt, other)) {
        (Ok(one), Ok(other)) => one.dev() == other.dev() && one.ino() == other.ino(),
        _ => false,
    }
}

/// The layout of a device of this size for a table, with the longest segment that fits twice.
fn layout_for(size: u64, table: &Table, version: Version) -> Result<Layout, Fault>
    ensures longest { IfOk result (IsLongest size (length table.now.alarms) table.now.areas) }
    ensures too_small { IfErr result
        (λ fault. (fault ≡ Fault.TooSmall) × ((n : ℕ) →
        segment_fits size (length table.now.alarms) table.now.areas n ≡ false)) }
{
    let rows = table.alarms().len() as u32;
    Layout::longest(rows, table.areas(), size, version).ok_or(Fault::TooSmall)
}

/// A device that was formatted, and the length of its segments.
#[derive(Drop)]
struct Formatted<D: Drop> {
    device: D,
    segment: u32,
}

/// Formats the file of a device for a table, in a version. The file is made or set to this size first, and stays so if a refusal follows. All
/// that its layout uses gets room on the disk, so that no later write meets a full disk.
fn format_file<S: Start, R: Files<File = File> + AllocGlobal>(
    rt: &R,
    device: &str,
    size: u64,
    table: &Table,
    version: Version,
    start: S,
) -> Result<Formatted<FileDisk<S>>, Fault>
    ensures longest { IfOk result
        (λ done. (layout : Layout) ×
        IsLongest size (length table.now.alarms) table.now.areas layout ×
        (layout.segment ≡ done.segment)) }
    ensures formatted { IfOk result
        (λ done. IsMadeFor ⟦<FileDisk<S> as Disk>⟧ S.Start.bytes size version
        (new_plant table.now) done.device) }
{
    let fitting = layout_for(size, table, version);
    let used = match &fitting {
        Ok(layout) => layout.device_len(),
        Err(_) => 0,
    };
    let disk = match FileDisk::make(rt, device, size, used, start) {
        Ok(disk) => disk,
        Err(fault) => return Err(file_fault(fault)),
    };
    let layout = fitting?;
    match format_as(rt.alloc(), disk, table, version) {
        Ok(device) => Ok(Formatted {
            device,
            segment: layout.segment,
        }),
        Err((fault, _)) => Err(Fault::from(fault)),
    }
}

/// Writes that a device was formatted: its rows, its areas, and the bytes of a segment.
fn print_formatted<W: io::Write>(table: &Table, segment: u32, writer: &mut W) -> io::Result<()>
    ensures { Prints (W.contents writer.old) (W.contents writer.new)
        (formatted_text (length table.now.alarms) table.now.areas segment) result }
{
    let rows = table.alarms().len() as u64;
    let areas = u64::from(table.areas());
    let segment = u64::from(segment);
    put_parts(
        &[
            Part::Word("formatted "),
            Part::Number(rows),
            Part::Word(" "),
            Part::Number(areas),
            Part::Word(" "),
            Part::Number(segment),
            Part::Word("\n"),
        ],
        writer,
    )
}

/// Makes a device of a table's text, prints its rows, areas and segment, and returns it. No file is made if the table is refused;
/// but a table that is too large for its `size` leaves a file of that size.
fn format_text<S: Start, R: Files<File = File> + Print + AllocGlobal>(
    rt: &R,
    device: &str,
    text: &[u8],
    version: Version,
    start: S,
) -> Result<FileDisk<S>, Fault>
    ensures { IfOk result
        (λ made. IsFormattedFor ⟦<FileDisk<S> as Disk>⟧ S.Start.bytes version text.now made) }
{
    let (size, table) = table_of(rt.alloc(), text)?;
    let done = format_file(rt, device, size, &table, version, start)?;
    match print_formatted(&table, done.segment, &mut io::writer(rt)) {
        Ok(()) => Ok(done.device),
        Err(error) => Err(io_fault(error)),
    }
}

/// Makes a device of a table file in a version, prints its rows, areas and segment, and returns it, as [`format_text`] does of
/// the file's text.
pub fn run_format<S: Start, R: Files<File = File> + Print + AllocGlobal>(
    rt: &R,
    device: &str,
    table: &str,
    version: Version,
    start: S,
) -> Result<FileDisk<S>, Fault>
    ensures { IfOk result (λ made. (text : List ℕ) ×
        IsFormattedFor ⟦<FileDisk<S> as Disk>⟧ S.Start.bytes version text made) }
{
    if is_same_file(rt, device, table) {
        return Err(Fault::Usage);
    }
    match fs::read(rt, table) {
        Ok(text) => format_text(rt, device, text.as_slice(), version, start),
        Err(error) => Err(io_fault(error)),
    }
}
