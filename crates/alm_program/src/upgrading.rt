//! Bringing a device to a version.

ghost use Rattle.std.specs.Prelude.{◌≡◌, ℕ, List, length, is_some, Ok, IfOk, OnOk};
ghost use Rattle.alm_checkpoint.specs.Opening.{layout_in};
ghost use Rattle.alm_disk.specs.Settled.{IsSettled};
ghost use Rattle.alm_disk.specs.declared.call.Call.{Call};
ghost use Rattle.alm_file.specs.Replay.{BeginsAs};
ghost use Rattle.alm_lines.specs.Written.{Prints};
ghost use Rattle.alm_program.specs.Formatted.{IsMadeFor};
ghost use Rattle.alm_program.specs.Upgraded.{IsReadFrom, IsUpgraded, upgraded_text, version_text};

use crate::fault::Fault;
use crate::io_faults::{file_fault, io_fault};
use crate::upgraded::Upgraded;
use alm_checkpoint::{HEADER_LEN, Layout, read_header};
use alm_codec::Version;
use alm_disk::Disk;
use alm_file::{FileDisk, Start, Successor};
use alm_keeper::{Keeper, open_store};
use alm_lines::{Part, put_parts};
use std::alloc::Global;
use std::fs::{File, Files};
use std::io;

/// The layout of a device, by its header.
fn read_layout<D: Disk>(disk: &mut D) -> Result<Layout, Fault>
    ensures honest { D.honest disk.new → D.honest disk.old }
    ensures size { D.size disk.new ≡ D.size disk.old }
    ensures keeps { (b : List ℕ) → IsSettled (D.state disk.old) b → IsSettled (D.state disk.new) b }
    ensures serves { OnOk result (D.serves disk.old (Call.Read 0 23) (Ok tt) disk.new) }
    ensures layout { (b : List ℕ) → D.honest disk.new → IsSettled (D.state disk.old) b →
        length b ≡ D.size disk.old → IfOk result (λ l. layout_in b ≡ Ok l) }
{
    let size = disk.size();
    if size < HEADER_LEN as u64 {
        return Err(Fault::Unformatted);
    }
    let mut start = [0u8; HEADER_LEN];
    match disk.read_at(0, &mut start) {
        Ok(()) => {}
        Err(_) => return Err(Fault::Disk),
    }
    match read_header(&start, size) {
        Ok(layout) => Ok(layout),
        Err(fault) => Err(Fault::from(fault)),
    }
}

/// A device that was opened, its layout, and how many bytes it has.
#[derive(Drop)]
struct Opened<D: Disk + Drop> {
    keeper: Keeper<D>,
    layout: Layout,
    size: u64,
}

/// Opens a device. No byte of it is written.
fn open_to_upgrade<D: Disk + Drop>(alloc: Global, disk: D) -> Result<Opened<D>, Fault>
    ensures { (start : List ℕ) → BeginsAs start (D.size disk) (D.honest disk) (D.state disk) →
        IfOk result
        (λ o. IsReadFrom D.Disk start o.size o.layout o.keeper.stored.plant o.keeper.disk) }
{
    let size = disk.size();
    let mut disk = disk;
    let layout = read_layout(&mut disk)?;
    match open_store(alloc, disk) {
        Ok(keeper) => Ok(Opened {
            keeper,
            layout,
            size,
        }),
        Err((fault, _)) => Err(Fault::from(fault)),
    }
}

/// Makes a new device of the same size, for the plant of one that was opened. What its layout uses gets room on the disk.
fn make_new<D: Disk + Drop, S: Start, R: Files<File = File> + AllocGlobal>(
    rt: &R,
    successor: &Successor,
    old: &Opened<D>,
    version: Version,
    start: S,
) -> Result<FileDisk<S>, Fault>
    ensures { IfOk result
        (IsMadeFor ⟦<FileDisk<S> as Disk>⟧ S.Start.bytes old.now.size version
        old.now.keeper.stored.plant) }
{
    let used = old.layout.device_len();
    let disk = match successor.make(rt, old.size, used, start) {
        Ok(disk) => disk,
        Err(fault) => return Err(file_fault(fault)),
    };
    match old.keeper.format_copy(rt.alloc(), disk, version) {
        Ok(device) => Ok(device),
        Err((fault, _)) => Err(Fault::from(fault)),
    }
}

/// Makes the new device, and gives it the name of the old one.
fn replace<D: Disk + Drop, S: Start, R: Files<File = File> + AllocGlobal>(
    rt: &R,
    successor: &Successor,
    old: &Opened<D>,
    version: Version,
    start: S,
) -> Result<FileDisk<S>, Fault>
    ensures { IfOk result
        (IsMadeFor ⟦<FileDisk<S> as Disk>⟧ S.Start.bytes old.now.size version
        old.now.keeper.stored.plant) }
{
    let device = make_new(rt, successor, old, version, start)?;
    match successor.take_place(rt) {
        Ok(()) => Ok(device),
        Err(fault) => Err(file_fault(fault)),
    }
}

/// Brings the file of a device to a version. If it is refused the old device keeps its name, and the new file is removed. Only after a
/// failed sync of the folder the name has either of the two.
fn upgrade_file<S: Start, T: Start, R: Files<File = File> + AllocGlobal>(
    rt: &R,
    device: &str,
    version: Version,
    start: S,
    new: T,
) -> Result<Upgraded<FileDisk<S>, FileDisk<T>>, Fault>
    ensures { IfOk result
        (λ done. IsUpgraded ⟦<FileDisk<S> as Disk>⟧ ⟦<FileDisk<T> as Disk>⟧ S.Start.bytes
        T.Start.bytes version done.old done.new) }
{
    let disk = match FileDisk::open(rt, device, start) {
        Ok(disk) => disk,
        Err(fault) => return Err(file_fault(fault)),
    };
    let successor = match Successor::of(rt, device, &disk) {
        Ok(successor) => successor,
        Err(fault) => return Err(file_fault(fault)),
    };
    let opened = open_to_upgrade(rt.alloc(), disk)?;
    if opened.layout.version == version {
        return Ok(Upgraded {
            old: opened.keeper,
            new: None,
        });
    }
    match replace(rt, &successor, &opened, version, new) {
        Ok(made) => Ok(Upgraded {
            old: opened.keeper,
            new: Some(made),
        }),
        Err(fault) => {
            successor.give_up(rt);
            Err(fault)
        }
    }
}

/// The name of a version.
fn version_word(version: Version) -> &'static str
    ensures { result.now ≡ version_text version }
{
    match version {
        Version::V01 => "01",
        Version::V02 => "02",
        Version::V03 => "03",
    }
}

/// Writes whether there is a new device, its version, and the count of actions of its plant.
fn print_upgraded<D: Disk + Drop, E: Drop, W: io::Write>(
    version: Version,
    done: &Upgraded<D, E>,
    writer: &mut W,
) -> io::Result<()>
    ensures { Prints (W.contents writer.old) (W.contents writer.new)
        (upgraded_text (is_some done.now.new) version done.now.old.stored.plant.panel.count)
        result }
{
    let word = match &done.new {
        Some(_) => "upgraded ",
        None => "unchanged ",
    };
    put_parts(
        &[
            Part::Word(word),
            Part::Word(version_word(version)),
            Part::Word(" "),
            Part::Number(done.old.count()),
            Part::Word("\n"),
        ],
        writer,
    )
}

/// Brings the file of a device to a version: a new file is made for its plant, and takes its name. A device of that version stays
/// unchanged. Prints which of the two, the version, and the count of actions; both devices are returned, with the records of their calls.
pub fn run_upgrade<S: Start, T: Start, R: Files<File = File> + Print + AllocGlobal>(
    rt: &R,
    device: &str,
    version: Version,
    start: S,
    new: T,
) -> Result<Upgraded<FileDisk<S>, FileDisk<T>>, Fault>
    ensures { IfOk result
        (λ done. IsUpgraded ⟦<FileDisk<S> as Disk>⟧ ⟦<FileDisk<T> as Disk>⟧ S.Start.bytes
        T.Start.bytes version done.old done.new) }
{
    let done = upgrade_file(rt, device, version, start, new)?;
    match print_upgraded(version, &done, &mut io::writer(rt)) {
        Ok(()) => Ok(done),
        Err(error) => Err(io_fault(error)),
    }
}
