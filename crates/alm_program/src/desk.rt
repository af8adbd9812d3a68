//! The desk over standard input and output.

ghost use Rattle.std.specs.Prelude.{◌≡◌, ◌⊎◌, ◌↔◌, ◌∷◌, [], ℕ, List, Some, IfErr, IfOk, OnOk, is_none};
ghost use Rattle.alm_file.specs.Replay.{BeginsAs};
ghost use Rattle.alm_keeper.specs.AsStore.{StandsFor};
ghost use Rattle.alm_desk.specs.Answers.{DeskState};
ghost use Rattle.alm_desk.specs.DeskLines.{AnswersInput};
ghost use Rattle.alm_desk.specs.Standings.{first_standing};
ghost use Rattle.alm_desk.specs.Turns.{IsUnread, IsUnwritten};
ghost use Rattle.alm_stack.specs.Stacks.{kept_of, stands_of, store_of};
ghost use Rattle.alm_store.specs.Opening.{IsOpenedAs};
ghost use Rattle.alm_program.specs.DeskRuns.{DeskIsNotOpened, IsDeskFrom, IsDeskOver, IsNotRun, IsNotRunFrom, RunsDesk};
ghost use Rattle.alm_program.specs.Ends.{DeskEnds};

use crate::desk_end::DeskEnd;
use crate::desk_id::DeskId;
use crate::device_stack::DeviceStack;
use crate::fault::Fault;
use crate::io_faults::{file_fault, io_fault};
use alm_desk::{Backend, CountedReader, CountedWriter, LocalDesk, desk_run, worked_table};
use alm_disk::Disk;
use alm_file::{FileDisk, Start};
use alm_model::Alarms;
use alm_plant::Plant;
use alm_stack::Stack;
use std::alloc::{AllocError, Global};
use std::fs::{File, Files};
use std::io::{self, BufWriter, Read, Write};
use std::marker::Brand;

/// Runs a desk between a reader and a writer. If the storage stops, the desk continues to the end of the input, and its fault
/// is `Stopped`.
fn run_between<I: Read + Drop, B: Backend + Drop, W: Write + Drop>(
    reader: &mut CountedReader<I>,
    writer: &mut CountedWriter<W>,
    desk: &mut LocalDesk<B>,
) -> Result<(), Fault>
    ensures desk { OnOk result
        (AnswersInput desk.old.standing (I.remaining reader.old.inner)
        (W.contents writer.old.inner) desk.new.standing (W.contents writer.new.inner)) }
    ensures ends { DeskEnds (is_none desk.new.standing.plant)
        (IsUnread reader.old.failed reader.new.failed reader.old.reads reader.new.reads ⊎
        IsUnwritten desk.old.closed writer.old.failed writer.new.failed) result }
{
    desk_run(reader, writer, desk)?;
    if desk.stopped() {
        return Err(Fault::Stopped);
    }
    Ok(())
}

/// Runs a desk over a backend.
pub fn run_desk_over<R: Input + Print + AllocGlobal, B: Backend + Drop>(
    rt: &R,
    backend: B,
) -> Result<(), Fault> {
    let alloc = rt.alloc();
    let mut desk = LocalDesk::new(alloc, backend)?;
    let mut reader = CountedReader::new(rt.reader());
    let writer = BufWriter::with_capacity(alloc, 65536, io::writer(rt)).map_err(io_fault)?;
    let mut writer = CountedWriter::new(writer);
    run_between(&mut reader, &mut writer, &mut desk)
}

/// Runs the desk over the worked table in memory.
pub fn run_desk<R: Input + Print + AllocGlobal>(rt: &R) -> Result<(), Fault> {
    let table = worked_table(rt.alloc())?;
    let plant = Plant::new(rt.alloc(), &table)?;
    run_desk_over(rt, plant)
}

/// Opens the stack over a device.
fn open_stack<D: Disk + Drop>(alloc: Global, disk: D) -> Result<Stack<D>, Fault>
    ensures opened { IfOk result
        (λ s. IsOpenedAs D.Disk StandsFor (store_of s).stored.plant disk (store_of s).disk) }
    ensures fresh { IfOk result
        (λ s. (s.failures ≡ 0) × (stands_of s ≡ Some (store_of s).stored.plant) ×
        (kept_of s ≡ (store_of s).stored.plant ∷ [])) }
    // The fault is that of a device that this one is after an opening's calls.
    ensures refused { IfErr result (DeskIsNotOpened D.Disk disk) }
{
    match Stack::open(alloc, disk) {
        Ok(stack) => Ok(stack),
        Err((fault, _)) => Err(Fault::from(fault)),
    }
}

/// Runs a desk over a backend, and returns it.
fn run_backend_between<I: Read + Drop, B: Backend + Drop, W: Write + Drop>(
    alloc: Global,
    backend: B,
    reader: &mut CountedReader<I>,
    writer: &mut CountedWriter<W>,
) -> Result<DeskEnd<B>, AllocError>
    ensures { IfOk result
        (λ end. (later : DeskState) × (B.stands end.back ≡ later.plant) ×
        (B.kept end.back ≡ later.kept) ×
        OnOk end.done
        (AnswersInput (first_standing B.Backend backend) (I.remaining reader.old.inner)
        (W.contents writer.old.inner) later (W.contents writer.new.inner))) }
{
    let mut desk = LocalDesk::new(alloc, backend)?;
    let done = run_between(reader, writer, &mut desk);
    Ok(DeskEnd {
        done,
        back: desk.into_backend(),
    })
}

/// Runs the desk over a stack that was just opened, and returns it.
fn run_stack_between<J: DeskId, I: Read + Drop, D: Disk + Drop, W: Write + Drop>(
    alloc: Global,
    stack: Stack<D>,
    reader: &mut CountedReader<I>,
    writer: &mut CountedWriter<W>,
) -> Result<DeskEnd<Stack<D>>, AllocError>
    requires honest { ∥ (J.DeskId.honest ↔ D.honest (store_of stack).disk) ∥₁ }
    requires stands { stands_of stack ≡ Some J.DeskId.base }
    requires kept { kept_of stack ≡ J.DeskId.base ∷ [] }
    requires sound { stack.failures ≡ 0 }
    ensures { IfOk result
        (λ end. (later : DeskState) × RunsDesk D.Disk J.DeskId.base J.DeskId.honest (store_of end.back).disk
        (I.remaining reader.old.inner) (W.contents writer.old.inner) (W.contents writer.new.inner)
        end.done later) }
{
    let stack = DeviceStack::<D, J>::new(stack);
    let DeskEnd { done, back } = run_backend_between(alloc, stack, reader, writer)?;
    let back = back.into_stack();
    Ok(DeskEnd { done, back })
}

/// Runs the desk over a device, and returns it.
fn run_disk_between<I: Read + Drop, D: Disk + Drop, W: Write + Drop>(
    alloc: Global,
    disk: D,
    reader: &mut CountedReader<I>,
    writer: &mut CountedWriter<W>,
) -> Result<DeskEnd<D>, Fault>
    ensures over { IfOk result
        (λ end. IsDeskOver D.Disk disk end.back (I.remaining reader.old.inner)
        (W.contents writer.old.inner) (W.contents writer.new.inner) end.done) }
    ensures from { (start : List ℕ) →
        BeginsAs start (D.size disk) (D.honest disk) (D.state disk) →
        IfOk result (λ end. IsDeskFrom D.Disk start end.back end.done) }
    ensures refused { IfErr result (IsNotRun D.Disk disk) }
{
    let stack = open_stack(alloc, disk)?;
    let DeskEnd { done, back } = run_stack_between::<Brand, I, D, W>(alloc, stack, reader, writer)?;
    let back = back.into_disk();
    Ok(DeskEnd { done, back })
}

/// Runs the desk over a device's file, which held what `start` says, between standard input and output. The device is returned, with
/// the record of its calls.
pub fn run_device_desk<S: Start, R: Input + Print + Files<File = File> + AllocGlobal>(
    rt: &R,
    device: &str,
    start: S,
) -> Result<DeskEnd<FileDisk<S>>, Fault>
    ensures from { IfOk result
        (λ end. IsDeskFrom ⟦<FileDisk<S> as Disk>⟧ S.Start.bytes end.back end.done) }
    ensures refused { IfErr result (IsNotRunFrom ⟦<FileDisk<S> as Disk>⟧ S.Start.bytes) }
{
    let disk = match FileDisk::open(rt, device, start) {
        Ok(disk) => disk,
        Err(fault) => return Err(file_fault(fault)),
    };
    let alloc = rt.alloc();
    let mut reader = CountedReader::new(rt.reader());
    let writer = match BufWriter::with_capacity(alloc, 65536, io::writer(rt)) {
        Ok(writer) => writer,
        Err(error) => return Err(io_fault(error)),
    };
    run_disk_between(alloc, disk, &mut reader, &mut CountedWriter::new(writer))
}
