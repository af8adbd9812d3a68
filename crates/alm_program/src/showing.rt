//! What is shown of a device.

ghost use Rattle.std.specs.Prelude.{◌≡◌, IfOk, IfErr};
ghost use Rattle.alm_keeper.specs.Calls.{reads_of};
ghost use Rattle.alm_keeper.specs.Keeper.{StandsWithRoom};
ghost use Rattle.alm_keeper.specs.Opening.{IsOpenedBy, IsUnopened};
ghost use Rattle.alm_lines.specs.Written.{Prints};
ghost use Rattle.alm_export.specs.Showing.{plant_text};
ghost use Rattle.alm_program.specs.Ends.{PrintEnds};
ghost use Rattle.alm_program.specs.Faults.{fault_of_open};

use crate::fault::Fault;
use crate::io_faults::{file_fault, io_fault};
use alm_desk::CountedWriter;
use alm_disk::Disk;
use alm_export::show_plant;
use alm_file::{FileDisk, Start};
use alm_keeper::{Keeper, OpenFault, open_store};
use alm_types::Answer;
use std::alloc::Global;
use std::fs::{File, Files};
use std::io::{self, BufWriter, Write};

/// Opens a device whose plant is to be printed.
fn open_to_print<D: Disk + Drop>(alloc: Global, disk: D) -> Result<Keeper<D>, Fault>
    ensures stands { IfOk result
        (λ keeper. D.honest keeper.disk →
        StandsWithRoom keeper.stored (D.state keeper.disk).bytes) }
    ensures opened { IfOk result
        (λ keeper. IsOpenedBy D.Disk (reads_of keeper.layout keeper.half) disk keeper.disk) }
    // The fault is that of a device that this one is after an opening's calls.
    ensures refused { IfErr result
        (λ fault. (why : OpenFault) × (now : D) × (fault ≡ fault_of_open why) ×
        IsUnopened D.Disk why disk now) }
{
    match open_store(alloc, disk) {
        Ok(keeper) => Ok(keeper),
        Err((fault, _)) => Err(Fault::from(fault)),
    }
}

/// Prints the plant that is stored.
fn print_plant<D: Disk + Drop, W: Write + Drop>(
    alloc: Global,
    keeper: &Keeper<D>,
    writer: &mut CountedWriter<W>,
) -> Result<(), Fault>
    ensures text { Prints (W.contents writer.old.inner) (W.contents writer.new.inner)
        (plant_text keeper.now.stored.plant keeper.now.stored.epoch) result }
    ensures ends { PrintEnds writer.old.failed writer.new.failed result }
{
    let mut answer = Answer::new(alloc);
    show_plant(keeper.stored(), keeper.epoch(), &mut answer, writer)?;
    match writer.flush() {
        Ok(()) => Ok(()),
        Err(_) => Err(Fault::Io),
    }
}

/// The same on standard output.
fn print_store<S: Start, R: Print + AllocGlobal>(
    rt: &R,
    keeper: &Keeper<FileDisk<S>>,
) -> Result<(), Fault> {
    let alloc = rt.alloc();
    let writer = BufWriter::with_capacity(alloc, 65536, io::writer(rt)).map_err(io_fault)?;
    print_plant(alloc, keeper, &mut CountedWriter::new(writer))
}

/// Reads a device's file whose plant is to be printed, and lets other processes have it then. Its size, in bytes, comes with it.
pub(crate) fn read_file<S: Start, R: Files<File = File> + AllocGlobal>(
    rt: &R,
    device: &str,
    start: S,
) -> Result<(Keeper<FileDisk<S>>, u64), Fault> {
    let disk = FileDisk::open_to_read(rt, device, start).map_err(file_fault)?;
    let size = disk.size();
    let lock = disk.lock().map_err(io_fault)?;
    let keeper = open_to_print(rt.alloc(), disk)?;
    lock.release();
    Ok((keeper, size))
}

/// Prints the plant of a device, which is opened to be read alone.
pub fn run_show<S: Start, R: Print + Files<File = File> + AllocGlobal>(
    rt: &R,
    device: &str,
    start: S,
) -> Result<(), Fault> {
    let (keeper, _) = read_file(rt, device, start)?;
    print_store(rt, &keeper)
}
