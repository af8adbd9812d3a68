//! Opening a device.

ghost use Rattle.std.specs.Prelude.{◌≡◌, ◌≤◌, ◌<◌, ◌+◌, ◌^◌, ◌⊎◌, List, [], ◌∷◌, ℕ, length, OnOk, OnErr, IfOk, IfErr, ◌≢◌, false};
ghost use Rattle.alm_disk.specs.Device.{IsImage, AreBytes};
ghost use Rattle.alm_disk.specs.Failures.{HasFailed};
ghost use Rattle.alm_disk.specs.Settled.{IsSettled};
ghost use Rattle.alm_disk.specs.declared.call.Call.{Call};
ghost use Rattle.alm_checkpoint.specs.declared.half.Half.{Half};
ghost use Rattle.alm_checkpoint.specs.declared.half.Half.TheVariants.{First, Second};
ghost use Rattle.alm_checkpoint.specs.declared.layout.Layout.{Layout};
ghost use Rattle.alm_checkpoint.specs.Layouts.{part, device_len, half_at, image_size};
ghost use Rattle.alm_checkpoint.specs.Cut.{IsLayout};
ghost use Rattle.alm_checkpoint.specs.Opening.{layout_in};
ghost use Rattle.alm_store.specs.Calls.{AreDone, EndIn, SyncsAndEndsIn};
ghost use Rattle.alm_keeper.specs.Calls.{reads_of};
ghost use Rattle.alm_keeper.specs.Opening.{CountsOpening, IsOnlyRead, IsReadOf, AreMarks, MarksFrom, OpensAs, Restores};
ghost use Rattle.alm_keeper.specs.Keeping.{InOrder, FitsDevice};
ghost use Rattle.alm_types.specs.Sizes.{most_actions};

use crate::book::Book;
use crate::filling::fill_to;
use crate::frame::FRAME_ROOM;
use crate::open_fault::open_fault;
use crate::stage::{Stage, Work};
use alm_checkpoint::{
    HEAD_LEN, HEADER_LEN, Half, HalfHead, Layout, RestoreFault, read_half_gate, read_header,
};
use alm_disk::{Disk, DiskFault};
use alm_model::Alarms;
use alm_plant::Plant;
use alm_store::OpenFault;
use alm_types::MOST_ENTRIES;
use std::alloc::Global;

/// Fills `into` from a place on.
fn read<D: Disk>(disk: &mut D, at: u64, into: &mut [u8]) -> Result<(), DiskFault>
    requires { at + length into.old ≤ D.size disk.old }
    ensures only { IsOnlyRead D.Disk disk.old disk.new }
    ensures counts { OnOk result (D.failures disk.new ≡ D.failures disk.old) }
    ensures failed { OnErr result (HasFailed (D.failures disk.old) (D.failures disk.new)) }
    ensures given { (b : List ℕ) → D.honest disk.new → IsSettled (D.state disk.old) b →
        OnOk result (into.new ≡ part at (length into.old) b) }
    ensures long { length into.new ≡ length into.old }
    ensures serves { D.serves disk.old (Call.Read at (length into.old)) result disk.new }
{
    disk.read_at(at, into)
}

/// The layout of a device, by its header.
fn read_layout<D: Disk>(disk: &mut D) -> Result<Layout, OpenFault>
    ensures only { IsOnlyRead D.Disk disk.old disk.new }
    ensures counts { CountsOpening result (D.failures disk.old) (D.failures disk.new) }
    ensures layout { (b : List ℕ) → D.honest disk.new → IsSettled (D.state disk.old) b →
        length b ≡ D.size disk.old → IsReadOf result (layout_in b) }
    ensures limits { IfOk result IsLayout }
    ensures fits { IfOk result
        (λ l. (device_len l ≤ D.size disk.new) × (device_len l < 2 ^ 64)) }
    ensures memory { OnOk result (D.size disk.new < 2 ^ 64) }
    ensures made { OnOk result (AreDone D.serves (Call.Read 0 23 ∷ []) disk.old disk.new) }
    ensures made_back { IfErr result
        (λ f. EndIn f D.serves (Call.Read 0 23 ∷ []) disk.old disk.new) }
{
    let size = disk.size();
    if size < HEADER_LEN as u64 {
        return Err(OpenFault::Unformatted);
    }
    let mut start = [0u8; HEADER_LEN];
    match read(disk, 0, &mut start) {
        Ok(()) => {}
        Err(_) => return Err(OpenFault::Disk),
    }
    match read_header(&start, size) {
        Ok(layout) => Ok(layout),
        Err(fault) => Err(open_fault(fault)),
    }
}

/// What the heads of the halves say.
#[derive(Clone, Copy)]
struct Marks {
    /// The half that stands.
    half: Half,
    /// The other half's gate reads open.
    other_open: bool,
    head: HalfHead,
}

/// The half that stands, and what its head says.
fn read_marks<D: Disk>(disk: &mut D, layout: Layout) -> Result<Marks, OpenFault>
    requires fits { device_len layout ≤ D.size disk.old }
    requires small { device_len layout < 2 ^ 64 }
    ensures only { IsOnlyRead D.Disk disk.old disk.new }
    ensures counts { CountsOpening result (D.failures disk.old) (D.failures disk.new) }
    ensures marks { (b : List ℕ) → D.honest disk.new → IsSettled (D.state disk.old) b →
        AreMarks layout b result }
    ensures count { IfOk result (λ m. m.head.count ≤ most_actions) }
    ensures made { OnOk result
        (AreDone D.serves
        (Call.Read (half_at layout First) 25 ∷ Call.Read (half_at layout Second) 25 ∷ []) disk.old
        disk.new) }
    ensures made_back { IfErr result
        (λ f. EndIn f D.serves
        (Call.Read (half_at layout First) 25 ∷ Call.Read (half_at layout Second) 25 ∷ []) disk.old
        disk.new) }
{
    let mut first = [0u8; 25];
    match read(disk, layout.half_at(Half::First), &mut first) {
        Ok(()) => {}
        Err(_) => return Err(OpenFault::Disk),
    }
    let mut second = [0u8; 25];
    match read(disk, layout.half_at(Half::Second), &mut second) {
        Ok(()) => {}
        Err(_) => return Err(OpenFault::Disk),
    }
    marks_of(layout, &first, &second)
}

/// The same by the bytes of both heads.
fn marks_of(layout: Layout, first: &[u8], second: &[u8]) -> Result<Marks, OpenFault>
    requires first { length first.now ≡ 25 }
    requires second { length second.now ≡ 25 }
    ensures marks { MarksFrom layout first.now second.now result }
    ensures count { IfOk result (λ m. m.head.count ≤ most_actions) }
    ensures fault { IfErr result (λ f. f ≢ OpenFault.Disk) }
{
    match layout.read_heads(first, second) {
        Ok((Half::First, head)) => Ok(Marks {
            half: Half::First,
            other_open: read_half_gate(second).open,
            head,
        }),
        Ok((Half::Second, head)) => Ok(Marks {
            half: Half::Second,
            other_open: read_half_gate(first).open,
            head,
        }),
        Err(fault) => Err(open_fault(fault)),
    }
}

/// Opens the device: syncs, and reads what it holds.
pub fn open_book<D: Disk>(alloc: Global, disk: &mut D) -> Result<Book, OpenFault>
    ensures honest { D.honest disk.new → D.honest disk.old }
    ensures size { D.size disk.new ≡ D.size disk.old }
    ensures counts { CountsOpening result (D.failures disk.old) (D.failures disk.new) }
    ensures image { D.honest disk.old →
        OnOk result (IsImage (D.state disk.old) (D.state disk.new).bytes) }
    // No byte is written: what a crash may leave afterwards it could leave before.
    ensures unwritten { D.honest disk.old → (b : List ℕ) → IsImage (D.state disk.new) b →
        IsImage (D.state disk.old) b }
    ensures settled { D.honest disk.old →
        OnOk result (IsSettled (D.state disk.new) (D.state disk.new).bytes) }
    ensures opens { D.honest disk.new → OpensAs (D.state disk.new).bytes result }
    ensures in_order { IfOk result InOrder }
    ensures idle { IfOk result
        (λ book. (book.stage ≡ Stage.Idle) × (book.copying ≡ false) × (book.written ≡ 0)) }
    ensures fits { IfOk result (λ book. FitsDevice book (D.size disk.new)) }
    ensures made { IfOk result
        (λ book. AreDone D.serves (Call.Sync ∷ reads_of book.layout book.half) disk.old disk.new) }
    ensures made_back { IfErr result
        (λ f. (layout : Layout) × (half : Half) ×
        SyncsAndEndsIn f D.serves (reads_of layout half) disk.old disk.new) }
{
    match disk.sync() {
        Ok(()) => read_book(alloc, disk),
        Err(_) => Err(OpenFault::Disk),
    }
}

/// Reads what the device holds.
fn read_book<D: Disk>(alloc: Global, disk: &mut D) -> Result<Book, OpenFault>
    ensures only { IsOnlyRead D.Disk disk.old disk.new }
    ensures counts { CountsOpening result (D.failures disk.old) (D.failures disk.new) }
    ensures opens { (b : List ℕ) → D.honest disk.new → IsSettled (D.state disk.old) b → AreBytes b →
        length b ≡ D.size disk.old → OpensAs b result }
    ensures in_order { IfOk result InOrder }
    ensures idle { IfOk result
        (λ book. (book.stage ≡ Stage.Idle) × (book.copying ≡ false) × (book.written ≡ 0)) }
    ensures fits { IfOk result (λ book. FitsDevice book (D.size disk.new)) }
    ensures made { IfOk result
        (λ book. AreDone D.serves (reads_of book.layout book.half) disk.old disk.new) }
    ensures made_back { IfErr result
        (λ f. (layout : Layout) × (half : Half) ×
        EndIn f D.serves (reads_of layout half) disk.old disk.new) }
{
    let layout = match read_layout(disk) {
        Ok(layout) => layout,
        Err(fault) => return Err(fault),
    };
    let marks = match read_marks(disk, layout) {
        Ok(marks) => marks,
        Err(fault) => return Err(fault),
    };
    let image = match read_room(alloc, disk, layout.image_at(marks.half), layout.image_len()) {
        Ok(image) => image,
        Err(fault) => return Err(fault),
    };
    let segment = match read_room(alloc, disk, layout.segment_at(marks.half), layout.segment()) {
        Ok(segment) => segment,
        Err(fault) => return Err(fault),
    };
    book_of(alloc, layout, marks, &image, &segment)
}

/// Reads a number of bytes from a place on into a buffer of its own.
fn read_room<D: Disk>(
    alloc: Global,
    disk: &mut D,
    at: u64,
    len: usize,
) -> Result<Vec<u8>, OpenFault>
    requires { at + len ≤ D.size disk.old }
    ensures only { IsOnlyRead D.Disk disk.old disk.new }
    ensures counts { CountsOpening result (D.failures disk.old) (D.failures disk.new) }
    ensures given { (b : List ℕ) → D.honest disk.new → IsSettled (D.state disk.old) b →
        IfOk result (λ v. v.items ≡ part at len b) }
    ensures long { IfOk result (λ v. length v.items ≡ len) }
    ensures fault { IfErr result (λ f. (f ≡ OpenFault.Disk) ⊎ (f ≡ OpenFault.OutOfMemory)) }
    ensures made { OnOk result (AreDone D.serves (Call.Read at len ∷ []) disk.old disk.new) }
    ensures made_back { IfErr result
        (λ f. EndIn f D.serves (Call.Read at len ∷ []) disk.old disk.new) }
{
    let Ok(mut room) = vec![in alloc; 0u8; len] else {
        return Err(OpenFault::OutOfMemory);
    };
    match fill(disk, at, &mut room) {
        Ok(()) => Ok(room),
        Err(_) => Err(OpenFault::Disk),
    }
}

/// Fills a buffer.
fn fill<D: Disk>(disk: &mut D, at: u64, room: &mut Vec<u8>) -> Result<(), DiskFault>
    requires { at + length room.old.items ≤ D.size disk.old }
    ensures only { IsOnlyRead D.Disk disk.old disk.new }
    ensures counts { OnOk result (D.failures disk.new ≡ D.failures disk.old) }
    ensures failed { OnErr result (HasFailed (D.failures disk.old) (D.failures disk.new)) }
    ensures given { (b : List ℕ) → D.honest disk.new → IsSettled (D.state disk.old) b →
        OnOk result (room.new.items ≡ part at (length room.old.items) b) }
    ensures long { length room.new.items ≡ length room.old.items }
    ensures serves { D.serves disk.old (Call.Read at (length room.old.items)) result disk.new }
{
    read(disk, at, room)
}

/// The book by what was read.
fn book_of(
    alloc: Global,
    layout: Layout,
    marks: Marks,
    text: &[u8],
    segment: &[u8],
) -> Result<Book, OpenFault>
    requires limits { IsLayout layout }
    requires small { device_len layout < 2 ^ 64 }
    requires count { marks.head.count ≤ most_actions }
    requires image { length text.now ≡ image_size layout }
    requires segment { length segment.now ≡ layout.segment }
    ensures in_order { IfOk result InOrder }
    ensures idle { IfOk result
        (λ book. (book.stage ≡ Stage.Idle) × (book.copying ≡ false) × (book.written ≡ 0)) }
    ensures restores { Restores layout marks text.now segment.now result }
{
    let Ok(actions) = Vec::with_capacity(alloc, MOST_ENTRIES) else {
        return Err(OpenFault::OutOfMemory);
    };
    let Ok(buffer) = Vec::with_capacity(alloc, HEAD_LEN + layout.image_len() + layout.segment())
    else {
        return Err(OpenFault::OutOfMemory);
    };
    let Ok(mut frame) = Vec::with_capacity(alloc, FRAME_ROOM) else {
        return Err(OpenFault::OutOfMemory);
    };
    fill_to(&mut frame, FRAME_ROOM);
    let (stored, gate) = match layout.restore::<Plant>(
        alloc,
        marks.half,
        &marks.head,
        text,
        segment,
    ) {
        Ok(found) => found,
        Err(RestoreFault::OutOfMemory) => return Err(OpenFault::OutOfMemory),
        Err(RestoreFault::Damaged(fault)) => return Err(open_fault(fault)),
    };
    let Ok(ahead) = stored.copy(alloc) else {
        return Err(OpenFault::OutOfMemory);
    };
    Ok(Book {
        stage: Stage::Idle,
        work: Work::Commit,
        layout,
        half: marks.half,
        other_open: marks.other_open,
        version: marks.head.version,
        epoch: marks.head.epoch,
        gate,
        stored,
        ahead,
        actions,
        frame,
        copying: false,
        buffer,
        run: 0,
        out: 0,
        written: 0,
    })
}
