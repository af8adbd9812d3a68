//! Rows of a slot's service: one client after another, and each byte that goes out.

use crate::one_slot::OneSlot;
use alm_common_tests::{same, slot_of};
use alm_serve::Served;
use alm_session::MemWire;
use std::alloc::{AllocError, Global};
use std::test::Fail;

/// A wire that gives these lines, and has room for `room` bytes.
fn wire_of(alloc: Global, lines: &[u8], room: usize) -> Result<MemWire, AllocError> {
    MemWire::new(alloc, Vec::from_slice(alloc, lines)?, room)
}

/// Whether a client that sends these lines is written these replies, and no byte more. Its connection is over then.
fn is_written(
    alloc: Global,
    slot: &mut OneSlot,
    lines: &[u8],
    replies: &[u8],
) -> Result<bool, AllocError> {
    if !slot.begin(wire_of(alloc, lines, 1000)?) {
        return Ok(false);
    }
    match slot.finish() {
        Some(wire) => Ok(wire.output() == replies),
        None => Ok(false),
    }
}

/// Each client has the replies to its own lines, in a new line of its own.
#[test]
fn two_clients_in_a_row(rt: HostRuntime) -> Result<(), Fail> {
    let alloc = rt.alloc();
    let mut slot = OneSlot::new(alloc, slot_of(0)?)?;
    let first = b"7 ACK 0\n8 STATE 1\n9 ST";
    let replies = b"7 NO 2\n8 STATE 0 NORM 0 - -\n";
    assert!(rt; is_written(alloc, &mut slot, first, replies)?);
    let second = b"1 STATE 0\n2 ACK 1\nx\n";
    let replies = b"1 STATE 0 NORM 0 - -\n2 NO 2\n0 NO 13\n";
    assert!(rt; is_written(alloc, &mut slot, second, replies)?);
    same(slot.sent(), 2)?;
    Ok(())
}

/// A client is cut off with half a line, half a reply and an unanswered request. The next one waits for the answer, gets nothing
/// of the last one's, and its first line is its own.
#[test]
fn a_client_behind_one_that_was_cut_off(rt: HostRuntime) -> Result<(), Fail> {
    let alloc = rt.alloc();
    let mut slot = OneSlot::new(alloc, slot_of(3)?)?;
    assert!(rt; slot.begin(wire_of(alloc, b"7 ACK 0\n8 ACK 1\n9 STA", 4)?));
    assert!(rt; matches!(slot.go_on(), Served::Idle));
    slot.answer();
    assert!(rt; matches!(slot.go_on(), Served::Idle));
    let cut = slot.close().ok_or("wire")?;
    same(cut.output(), b"7 NO".as_slice())?;
    assert!(rt; matches!(slot.go_on(), Served::Idle));
    assert!(rt; !slot.begin(wire_of(alloc, b"1 STATE 0\n", 1000)?));
    slot.answer();
    assert!(rt; matches!(slot.go_on(), Served::Over));
    let replies = b"1 STATE 0 NORM 0 - -\n2 NO 2\n";
    assert!(rt; is_written(alloc, &mut slot, b"1 STATE 0\n2 ACK 0\n", replies)?);
    same(slot.sent(), 3)?;
    Ok(())
}

/// A client that ends no line is written nothing, and nothing is sent for it.
#[test]
fn clients_that_ask_nothing(rt: HostRuntime) -> Result<(), Fail> {
    let alloc = rt.alloc();
    let mut slot = OneSlot::new(alloc, slot_of(16)?)?;
    for lines in [b"".as_slice(), b"5 VAL 0 800".as_slice(), b"".as_slice()] {
        assert!(rt; is_written(alloc, &mut slot, lines, b"")?);
    }
    same(slot.sent(), 0)?;
    Ok(())
}

/// Without a client there is nothing to do. One whose connection couldn't be had is over at once.
#[test]
fn no_client(rt: HostRuntime) -> Result<(), Fail> {
    let mut slot = OneSlot::new(rt.alloc(), slot_of(0)?)?;
    assert!(rt; matches!(slot.go_on(), Served::Idle));
    assert!(rt; slot.close().is_none());
    assert!(rt; matches!(slot.go_on(), Served::Over));
    assert!(rt; matches!(slot.go_on(), Served::Idle));
    same(slot.sent(), 0)?;
    Ok(())
}
