//! Lines that aren't valid, several streams, and writers that fail.

use crate::check::{prints, prints_anew};
use crate::desk::{new_desk, printed};
use crate::device_desk::prints_over_a_device;
use crate::slow_writer::SlowWriter;
use alm_common_tests::{holds_at, same, same_at, slot_of};
use alm_desk::{
    Backend, CountedReader, CountedWriter, DeskFault, LocalDesk, RunFault, desk_of, desk_run,
};
use alm_plant::Plant;
use alm_types::{Attr, Kind, Settings, Slot, Table};
use std::alloc::Global;
use std::io::Read;
use std::test::Fail;

/// What a slot's stream brings: in one piece, or byte by byte.
#[derive(Clone, Copy)]
enum Piece<'a> {
    Whole(u8, &'a [u8]),
    Bytes(u8, &'a [u8]),
}

/// Feeds a slot: whether the desk took it.
fn takes<B: Backend + Drop>(
    desk: &mut LocalDesk<B>,
    slot: u8,
    piece: &[u8],
    writer: &mut CountedWriter<Vec<u8>>,
) -> bool {
    match Slot::new(slot) {
        Some(slot) => desk.feed(slot, piece, writer).is_ok(),
        None => false,
    }
}

/// Whether a desk answers these pieces so.
fn answers<B: Backend + Drop>(
    alloc: Global,
    desk: &mut LocalDesk<B>,
    pieces: &[Piece<'_>],
    wanted: &[u8],
) -> bool {
    let mut writer = CountedWriter::new(Vec::new(alloc));
    let mut taken = true;
    for piece in pieces {
        match piece {
            Piece::Whole(slot, bytes) => taken = taken && takes(desk, *slot, bytes, &mut writer),
            Piece::Bytes(slot, bytes) => {
                for byte in *bytes {
                    taken = taken && takes(desk, *slot, &[*byte], &mut writer);
                }
            }
        }
    }
    taken && writer.into_inner().as_slice() == wanted
}

/// Whether a new desk does.
fn answers_anew(alloc: Global, pieces: &[Piece<'_>], wanted: &[u8]) -> bool {
    match new_desk(alloc) {
        Ok(mut desk) => {
            let same = answers(alloc, &mut desk, pieces, wanted);
            drop(desk);
            same
        }
        Err(_) => false,
    }
}

#[test]
fn slots_are_streams_of_their_own(rt: HostRuntime) -> Result<(), Fail> {
    let pieces = [
        Piece::Bytes(16, b"1 VAL 0 800\n2 VAL 0 7"),
        Piece::Bytes(0, b"3 ACK 0\n\n"),
        Piece::Whole(16, b"00\n7"),
    ];
    let wanted = b"1 OK 1\n3 OK 2\n0 NO 13\n2 OK 3\n";
    assert!(rt; answers_anew(rt.alloc(), &pieces, wanted));
    Ok(())
}

#[test]
fn desk_lines_that_are_none(rt: HostRuntime) -> Result<(), Fail> {
    let input =
        b"16 1 VAL 0 800\n16 2 VAL 0 790\n16 3 VAL 0 789\n0 4 ACK 0\n1 5 ACK 0\n0 6 VAL 0 900\n0 7\n0 \n0\nx\n18 1 STATE 0\n0 8 ACK 0\xff\n";
    let wanted =
        b"16 1 OK 1\n16 2 NO 9\n16 3 OK 2\n0 4 OK 3\n1 5 NO 2\n0 6 NO 11\n0 7 NO 13\n0 0 NO 13\n? NO 13\n? NO 13\n? NO 13\n0 8 NO 13\n";
    assert!(rt; prints_anew(rt.alloc(), input.as_slice(), wanted));
    assert!(rt; prints_over_a_device(rt.alloc(), input, wanted));
    Ok(())
}

/// Whether a desk drops what has no end.
fn drops_a_rest<B: Backend + Drop>(alloc: Global, desk: &mut LocalDesk<B>) -> bool {
    let (input, wanted) = (b"0 2 STATE 3\n0 3", b"0 2 STATE 0 NORM 0 - -\n");
    prints(alloc, desk, b"".as_slice(), b"")
        && prints(alloc, desk, b"0 1 STATE 0".as_slice(), b"")
        && prints(alloc, desk, input.as_slice(), wanted)
}

#[test]
fn what_has_no_end_is_dropped(rt: HostRuntime) -> Result<(), Fail> {
    let mut desk = new_desk(rt.alloc())?;
    let same = drops_a_rest(rt.alloc(), &mut desk);
    drop(desk);
    assert!(rt; same);
    Ok(())
}

/// Whether a desk drops a thousand pieces of a thousand bytes, and as many in one piece from a reader.
fn drops_a_million<B: Backend + Drop>(
    alloc: Global,
    desk: &mut LocalDesk<B>,
    long: &[u8],
    pieces: &[Piece<'_>],
) -> bool {
    let behind = b"\n0 2 STATE 0\n".as_slice();
    answers(alloc, desk, pieces, b"0 NO 14\n1 STATE 0 NORM 0 - -\n")
        && prints(
            alloc,
            desk,
            long.chain(behind),
            b"? NO 14\n0 2 STATE 0 NORM 0 - -\n",
        )
}

#[test]
fn a_million_bytes_without_an_end(rt: HostRuntime) -> Result<(), Fail> {
    let alloc = rt.alloc();
    let long = vec![in alloc; b'A'; 1_000_000]?;
    let mut pieces = vec![in alloc; Piece::Whole(0, &[b'A'; 1000]); 1000]?;
    pieces.push(Piece::Whole(0, b"\n1 STATE 0\n"))?;
    let mut desk = new_desk(alloc)?;
    let same = drops_a_million(alloc, &mut desk, &long, &pieces);
    drop(desk);
    assert!(rt; same);
    Ok(())
}

/// A line that begins so and has `len` bytes with its end.
fn line_of(alloc: Global, front: &str, len: usize) -> Result<Vec<u8>, Fail> {
    let mut line = Vec::new(alloc);
    line.extend_from_slice(front.as_bytes())?;
    for _ in front.len().saturating_add(1)..len {
        line.push(b'A')?;
    }
    line.push(b'\n')?;
    Ok(line)
}

/// Lines of a slot, the shortest and about the longest: how they begin, their lengths and their replies.
const SLOT_LINES: [(&str, usize, &str); 6] = [
    ("", 1, "0 NO 13\n"),
    ("7", 2, "7 NO 13\n"),
    ("7 ", 127, "7 NO 13\n"),
    ("7 ", 128, "7 NO 13\n"),
    ("7 ", 129, "0 NO 14\n"),
    ("7 ", 130, "0 NO 14\n"),
];

#[test]
fn the_shortest_and_longest_lines_of_a_slot(rt: HostRuntime) -> Result<(), Fail> {
    let alloc = rt.alloc();
    for (front, len, wanted) in SLOT_LINES {
        let line = line_of(alloc, front, len)?;
        for cut in 0..=line.len() {
            let pieces = [Piece::Whole(0, &line[..cut]), Piece::Whole(0, &line[cut..])];
            let same = answers_anew(alloc, &pieces, wanted.as_bytes());
            holds_at((len, cut), same)?;
        }
    }
    Ok(())
}

/// The same of a desk, whose lines begin with a slot.
const LONG_DESK_LINES: [(&str, usize, &str); 4] = [
    ("16 7 ", 131, "16 7 NO 13\n"),
    ("16 7 ", 132, "? NO 14\n"),
    ("0 7 ", 130, "0 7 NO 13\n"),
    ("0 7 ", 131, "0 0 NO 14\n"),
];

#[test]
fn the_longest_lines_of_a_desk(rt: HostRuntime) -> Result<(), Fail> {
    let alloc = rt.alloc();
    for (front, len, wanted) in LONG_DESK_LINES {
        let line = line_of(alloc, front, len)?;
        let same = prints_anew(alloc, line.as_slice(), wanted.as_bytes());
        holds_at(len, same)?;
    }
    Ok(())
}

/// What a desk answers whose writer fails when it is full, and then again.
fn fed_twice<B: Backend + Drop>(
    desk: &mut LocalDesk<B>,
    console: Slot,
    lines: &[u8],
    writer: SlowWriter,
) -> ([Result<(), DeskFault>; 2], SlowWriter) {
    let mut writer = CountedWriter::new(writer);
    let fed = desk.feed(console, lines, &mut writer);
    let again = desk.feed(console, b"", &mut writer);
    ([fed, again], writer.into_inner())
}

#[test]
fn a_failed_write_closes_the_desk(rt: HostRuntime) -> Result<(), Fail> {
    let alloc = rt.alloc();
    let console = slot_of(0)?;
    let lines = b"1 STATE 0\n2 STATE 1\n3 LIST P 1\n";
    let wanted = b"1 STATE 0 NORM 0 - -\n2 STATE 0 NORM 0 - -\n3 LIST 0 0\n";
    for room in 0..=wanted.len() {
        let mut desk = new_desk(alloc)?;
        let (fed, writer) = fed_twice(&mut desk, console, lines, SlowWriter::new(alloc, room));
        drop(desk);
        let ends = if room < wanted.len() {
            [Err(DeskFault::Write), Err(DeskFault::Closed)]
        } else {
            [Ok(()), Ok(())]
        };
        same_at(room, fed, ends)?;
        same_at(room, writer.taken(), &wanted[..room])?;
    }
    Ok(())
}

/// How a run ends whose writer fails when it is full, and the next run of its desk.
fn run_twice<B: Backend + Drop>(
    alloc: Global,
    desk: &mut LocalDesk<B>,
    lines: &[u8],
    writer: SlowWriter,
) -> ([Result<(), RunFault>; 2], SlowWriter) {
    let mut reader = CountedReader::new(lines);
    let mut writer = CountedWriter::new(writer);
    let run = desk_run(&mut reader, &mut writer, desk);
    let again = match printed(alloc, desk, b"0 3 STATE 0\n".as_slice()) {
        Ok(_) => Ok(()),
        Err(fault) => Err(fault),
    };
    ([run, again], writer.into_inner())
}

#[test]
fn a_run_ends_where_its_writer_fails(rt: HostRuntime) -> Result<(), Fail> {
    let alloc = rt.alloc();
    let lines = b"16 1 VAL 0 800\nx\n0 2 STATE 0\n";
    let wanted = b"16 1 OK 1\n? NO 13\n0 2 STATE 1 UNACK 1 - -\n";
    for room in 0..=wanted.len() {
        let mut desk = new_desk(alloc)?;
        let (runs, writer) = run_twice(alloc, &mut desk, lines, SlowWriter::new(alloc, room));
        drop(desk);
        same_at(room, writer.taken(), &wanted[..room])?;
        if room < wanted.len() {
            same_at(room, runs, [Err(RunFault::Write), Err(RunFault::Write)])?;
        } else {
            same(runs, [Ok(()), Ok(())])?;
            same(writer.flushed(), wanted.len())?;
        }
    }
    Ok(())
}

/// The settings of an alarm that comes at 1.
const ALARM: Settings = Settings {
    kind: Kind::High,
    setpoint: 1,
    deadband: 0,
    priority: 1,
    area: 0,
    latching: false,
    max_shelve: 0,
};

const ALARMS: u32 = 16_384;

/// Each alarm comes, and two lists are asked for.
fn lines_of_all(alloc: Global) -> Result<String, Fail> {
    let mut lines = String::new(alloc);
    for alarm in 0..ALARMS {
        lines.push_str(format!(in alloc; "16 0 VAL {alarm} 1\n")?.as_str())?;
    }
    lines.push_str("0 1 LIST P 1\n0 2 LIST P 2\n")?;
    Ok(lines)
}

/// What is printed for them.
fn replies_to_all(alloc: Global) -> Result<String, Fail> {
    let mut replies = String::new(alloc);
    for number in 1..=ALARMS {
        replies.push_str(format!(in alloc; "16 0 OK {number}\n")?.as_str())?;
    }
    replies.push_str("0 1 LIST 16384 16384")?;
    for alarm in 0..ALARMS {
        replies.push_str(format!(in alloc; " {alarm}")?.as_str())?;
    }
    replies.push_str("\n0 2 LIST 16384 0\n")?;
    Ok(replies)
}

/// What the desk of `alarms` alarms prints.
fn printed_by_all(alloc: Global, lines: &str) -> Result<Vec<u8>, Fail> {
    let alarms = vec![in alloc; Attr::new(ALARM, b"T", b"")?; ALARMS as usize]?;
    let table = Table::new(alarms, 1)?;
    let mut desk = desk_of::<Plant>(alloc, &table)?;
    let got = printed(alloc, &mut desk, lines.as_bytes());
    drop(desk);
    Ok(got?)
}

#[test]
fn a_list_of_16384_alarms(rt: HostRuntime) -> Result<(), Fail> {
    let alloc = rt.alloc();
    let lines = lines_of_all(alloc)?;
    let wanted = replies_to_all(alloc)?;
    let got = printed_by_all(alloc, lines.as_str())?;
    same(got.as_slice(), wanted.as_str().as_bytes())?;
    Ok(())
}
