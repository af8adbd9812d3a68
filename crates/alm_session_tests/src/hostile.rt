//! Clients that mean no good.

use crate::piece_wire::PieceWire;
use crate::playing::{Course, play, worked_look};
use alm_common_tests::{holds_at, same, slot_of};
use alm_rings::open_slot;
use alm_session::{MemWire, Session, Turn};
use alm_types::Slot;
use std::alloc::{AllocError, Global};
use std::test::Fail;

/// What is answered to these bytes at a slot, fed byte by byte.
fn replies_to(alloc: Global, slot: Slot, input: &[u8]) -> Result<Vec<u8>, AllocError> {
    let (mut console, mut inbox, mut outbox) = open_slot(alloc, slot)?;
    let mut look = worked_look(alloc)?;
    let mut session = Session::new(alloc)?;
    let input = Vec::from_slice(alloc, input)?;
    let mut wire = PieceWire::new(input, 1, Vec::new(alloc), 1);
    play(
        &mut session,
        &mut wire,
        &mut look,
        &mut console,
        &mut inbox,
        &mut outbox,
    );
    Vec::from_slice(alloc, wire.output())
}

/// Lines that are nearly right.
#[test]
fn bad_lines(rt: HostRuntime) -> Result<(), Fail> {
    let slot = slot_of(0)?;
    let rows: [(&[u8], &[u8]); 10] = [
        (b"5 ACK 00\n", b"5 NO 13\n"),
        (b"5 ACK  0\n", b"5 NO 13\n"),
        (b"5 VAL 0 -0\n", b"5 NO 13\n"),
        (b"5 ACK 0\r\n", b"5 NO 13\n"),
        (b"5 ACK 0\xFF\n", b"5 NO 13\n"),
        (b" 5 ACK 0\n", b"0 NO 13\n"),
        (b"05 ACK 0\n", b"0 NO 13\n"),
        (b"4294967296 ACK 0\n", b"0 NO 13\n"),
        (b"\n", b"0 NO 13\n"),
        (b"7\n", b"7 NO 13\n"),
    ];
    for (line, reply) in rows {
        same(replies_to(rt.alloc(), slot, line)?.as_slice(), reply)?;
    }
    Ok(())
}

/// The result of a connection that sent this input, and what was written to it, if there is room for `room` bytes.
fn over_memory(
    alloc: Global,
    slot: Slot,
    input: Vec<u8>,
    room: usize,
) -> Result<(Course, Vec<u8>), AllocError> {
    let (mut console, mut inbox, mut outbox) = open_slot(alloc, slot)?;
    let mut look = worked_look(alloc)?;
    let mut session = Session::new(alloc)?;
    let mut wire = MemWire::new(alloc, input, room)?;
    let course = play(
        &mut session,
        &mut wire,
        &mut look,
        &mut console,
        &mut inbox,
        &mut outbox,
    );
    Ok((course, Vec::from_slice(alloc, wire.output())?))
}

/// A million bytes without a line end are one line that is too long, which leaves no trace in the reading of the line
/// after it.
#[test]
fn a_line_without_end(rt: HostRuntime) -> Result<(), Fail> {
    let alloc = rt.alloc();
    let slot = slot_of(0)?;
    let mut input = vec![in alloc; b'A'; 1_000_000]?;
    input.extend_from_slice(b"\n1 STATE 0\n")?;
    let (course, output) = over_memory(alloc, slot, input, 1000)?;
    let ended = Course {
        last: Turn::Ended,
        idle: 0,
        answers: 0,
    };
    same(course, ended)?;
    same(
        output.as_slice(),
        b"0 NO 14\n1 STATE 0 NORM 0 - -\n".as_slice(),
    )?;
    Ok(())
}

/// While a reply is still to be written, no more than one buffer is read from a client that reads nothing.
#[test]
fn a_client_that_never_reads(rt: HostRuntime) -> Result<(), Fail> {
    let alloc = rt.alloc();
    let slot = slot_of(0)?;
    for line in ["x\n", "7 ACK 0\n", "1 STATE 0\n"] {
        let (mut console, mut inbox, mut outbox) = open_slot(alloc, slot)?;
        let mut look = worked_look(alloc)?;
        let mut session = Session::new(alloc)?;
        let mut input = Vec::new(alloc);
        for _line in 0..10_000 {
            input.extend_from_slice(line.as_bytes())?;
        }
        let mut wire = PieceWire::new(input, 4096, Vec::new(alloc), 0);
        let course = play(
            &mut session,
            &mut wire,
            &mut look,
            &mut console,
            &mut inbox,
            &mut outbox,
        );
        same(course.last, Turn::Idle)?;
        holds_at(line, wire.given() <= 4096)?;
        holds_at(line, course.answers <= 64)?;
        assert!(rt; wire.output().is_empty());
    }
    Ok(())
}

/// A wire that has room for five bytes takes a prefix of the reply, and blocks.
#[test]
fn no_room(rt: HostRuntime) -> Result<(), Fail> {
    let alloc = rt.alloc();
    let slot = slot_of(0)?;
    let input = Vec::from_slice(alloc, b"1 STATE 0\n".as_slice())?;
    let (course, output) = over_memory(alloc, slot, input, 5)?;
    same(course.last, Turn::Idle)?;
    same(output.as_slice(), b"1 STA".as_slice())?;
    Ok(())
}
