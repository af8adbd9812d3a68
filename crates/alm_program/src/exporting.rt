//! The table of a device's plant.

ghost use Rattle.alm_program.specs.Ends.{PrintEnds, PrintsTable};

use crate::fault::Fault;
use crate::io_faults::io_fault;
use crate::showing::read_file;
use alm_desk::CountedWriter;
use alm_disk::Disk;
use alm_export::export_plant;
use alm_file::{FileDisk, Start};
use alm_keeper::Keeper;
use std::alloc::Global;
use std::fs::{File, Files};
use std::io::{self, BufWriter, Write};

/// Prints the table of the plant that is stored on a device of this size, in bytes.
fn print_table<D: Disk + Drop, W: Write + Drop>(
    alloc: Global,
    keeper: &Keeper<D>,
    size: u64,
    writer: &mut CountedWriter<W>,
) -> Result<(), Fault>
    ensures text { PrintsTable size keeper.now.stored.plant (W.contents writer.old.inner)
        (W.contents writer.new.inner) result }
    ensures ends { PrintEnds writer.old.failed writer.new.failed result }
{
    export_plant(alloc, keeper.stored(), size, writer)?;
    match writer.flush() {
        Ok(()) => Ok(()),
        Err(_) => Err(Fault::Io),
    }
}

/// The same on standard output.
fn print_store<S: Start, R: Print + AllocGlobal>(
    rt: &R,
    keeper: &Keeper<FileDisk<S>>,
    size: u64,
) -> Result<(), Fault> {
    let alloc = rt.alloc();
    let writer = BufWriter::with_capacity(alloc, 65536, io::writer(rt)).map_err(io_fault)?;
    print_table(alloc, keeper, size, &mut CountedWriter::new(writer))
}

/// Prints the table of a device's plant as a table file. The device is opened to be read alone.
pub fn run_export<S: Start, R: Print + Files<File = File> + AllocGlobal>(
    rt: &R,
    device: &str,
    start: S,
) -> Result<(), Fault> {
    let (keeper, size) = read_file(rt, device, start)?;
    print_store(rt, &keeper, size)
}
