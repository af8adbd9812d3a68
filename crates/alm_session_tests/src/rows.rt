//! Rows of a session.

ghost use Rattle.alm_rings.specs.Ends.{SameConsole};

use crate::piece_wire::PieceWire;
use crate::playing::{Course, answer, play, worked_look};
use crate::still::{StillLook, StillTold};
use alm_common_tests::{holds_at, moment_of, reading_of, same, slot_of};
use alm_events::Recalled;
use alm_model::PlainPlant;
use alm_rings::{Console, open_slot};
use alm_session::{MemWire, Output, Sent, Session, Turn, Wire, drain};
use alm_types::{Action, AlarmId, Event, Slot, Want};
use std::alloc::{AllocError, Global};
use std::test::Fail;

/// Lines of each kind, and their replies if each action is refused.
const LINES: &str =
    "7 ACK 0\n8 ACK 1\n9 STATE 1\nx\n10 FLOOD 9\n11 LIST P 1\n12 ACK 0\n13 FLOOD 0\n";

const REPLIES: &str =
    "7 NO 2\n8 NO 2\n9 STATE 0 NORM 0 - -\n0 NO 13\n10 NO 17\n11 LIST 0 0\n12 NO 2\n13 FLOOD 0 0 0\n";

fn bytes(alloc: Global, text: &str) -> Result<Vec<u8>, AllocError> {
    Vec::from_slice(alloc, text.as_bytes())
}

/// Whether these lines at a slot have these replies, over a wire that gives and takes a few bytes in a call. An error if out of
/// memory.
pub fn is_answered(
    alloc: Global,
    slot: Slot,
    lines: &str,
    replies: &str,
    piece: usize,
    room: usize,
) -> Result<bool, AllocError> {
    let (mut console, mut inbox, mut outbox) = open_slot(alloc, slot)?;
    let mut look = worked_look(alloc)?;
    let mut session = Session::new(alloc)?;
    let mut wire = PieceWire::new(
        bytes(alloc, lines)?,
        piece,
        Vec::with_capacity(alloc, replies.len())?,
        room,
    );
    let course = play(
        &mut session,
        &mut wire,
        &mut look,
        &mut console,
        &mut inbox,
        &mut outbox,
    );
    Ok(course.last == Turn::Ended && wire.output() == replies.as_bytes())
}

/// `1 STATE 0` on a new worked plant: its reply and the end, with no idle turn.
#[test]
fn a_query_and_the_end(rt: HostRuntime) -> Result<(), Fail> {
    let alloc = rt.alloc();
    let slot = slot_of(0)?;
    let (mut console, mut inbox, mut outbox) = open_slot(alloc, slot)?;
    let mut look = worked_look(alloc)?;
    let mut session = Session::new(alloc)?;
    let mut wire = MemWire::new(alloc, bytes(alloc, "1 STATE 0\n")?, 100)?;
    let course = play(
        &mut session,
        &mut wire,
        &mut look,
        &mut console,
        &mut inbox,
        &mut outbox,
    );
    let ended = Course {
        last: Turn::Ended,
        idle: 0,
        answers: 0,
    };
    same(course, ended)?;
    same(wire.output(), b"1 STATE 0 NORM 0 - -\n".as_slice())?;
    Ok(())
}

/// Lines and replies have the same order, however the stream is cut and however few bytes are taken in a call.
#[test]
fn replies_in_order_for_each_cut(rt: HostRuntime) -> Result<(), Fail> {
    let alloc = rt.alloc();
    let slot = slot_of(0)?;
    for piece in 1..=LINES.len() {
        for room in [1, 7, 200] {
            let same = is_answered(alloc, slot, LINES, REPLIES, piece, room)?;
            holds_at((piece, room), same)?;
        }
    }
    Ok(())
}

/// A query waits for the two actions before it: two idle turns until they are answered, and one more for the third action.
#[test]
fn a_query_waits_for_actions(rt: HostRuntime) -> Result<(), Fail> {
    let alloc = rt.alloc();
    let slot = slot_of(0)?;
    let (mut console, mut inbox, mut outbox) = open_slot(alloc, slot)?;
    let mut look = worked_look(alloc)?;
    let mut session = Session::new(alloc)?;
    let mut wire = MemWire::new(alloc, bytes(alloc, LINES)?, 1000)?;
    let course = play(
        &mut session,
        &mut wire,
        &mut look,
        &mut console,
        &mut inbox,
        &mut outbox,
    );
    let ended = Course {
        last: Turn::Ended,
        idle: 3,
        answers: 3,
    };
    same(course, ended)?;
    same(wire.output(), REPLIES.as_bytes())?;
    Ok(())
}

/// The next five turns of a session.
fn five_turns<W: Wire>(
    session: &mut Session,
    wire: &mut W,
    console: &mut Console<StillTold>,
    look: &mut StillLook<PlainPlant>,
) -> [Turn; 5]
    ensures { SameConsole console.old console.new }
{
    [
        session.turn(wire, console, look),
        session.turn(wire, console, look),
        session.turn(wire, console, look),
        session.turn(wire, console, look),
        session.turn(wire, console, look),
    ]
}

/// Three sends, a connection lost, and drained after three receipts: the next serial is 4, and the next connection's
/// first line is its own.
#[test]
fn a_lost_connection(rt: HostRuntime) -> Result<(), Fail> {
    let alloc = rt.alloc();
    let slot = slot_of(0)?;
    let (mut console, mut inbox, mut outbox) = open_slot(alloc, slot)?;
    let mut look = worked_look(alloc)?;
    let mut session = Session::new(alloc)?;
    let mut wire = MemWire::new(alloc, bytes(alloc, "7 ACK 0\n8 ACK 1\n9 ACK 1\n1 ST")?, 200)?;
    same(
        five_turns(&mut session, &mut wire, &mut console, &mut look),
        [Turn::Went, Turn::Went, Turn::Went, Turn::Went, Turn::Idle],
    )?;
    answer(&mut console, &mut inbox, &mut outbox, 1);
    answer(&mut console, &mut inbox, &mut outbox, 2);
    assert!(rt; !drain(&mut console, &mut look));
    answer(&mut console, &mut inbox, &mut outbox, 3);
    assert!(rt; drain(&mut console, &mut look));
    session.restart();
    let mut wire = MemWire::new(alloc, bytes(alloc, "1 STATE 0\n")?, 200)?;
    let course = play(
        &mut session,
        &mut wire,
        &mut look,
        &mut console,
        &mut inbox,
        &mut outbox,
    );
    same(course.last, Turn::Ended)?;
    same(wire.output(), b"1 STATE 0 NORM 0 - -\n".as_slice())?;
    assert!(rt; console.send(Want::Do(Action::Ack(AlarmId(0)))) == Ok(4));
    Ok(())
}

/// A receipt of another request answers no line, and then that of the line's own request does.
#[test]
fn a_receipt_of_another_request(rt: HostRuntime) -> Result<(), Fail> {
    let alloc = rt.alloc();
    let slot = slot_of(0)?;
    let (mut console, mut inbox, mut outbox) = open_slot(alloc, slot)?;
    let mut look = worked_look(alloc)?;
    let mut session = Session::new(alloc)?;
    let mut wire = MemWire::new(alloc, bytes(alloc, "7 ACK 0\n1 ST")?, 200)?;
    let _ = five_turns(&mut session, &mut wire, &mut console, &mut look);
    answer(&mut console, &mut inbox, &mut outbox, 2);
    let _ = five_turns(&mut session, &mut wire, &mut console, &mut look);
    same(wire.output(), b"".as_slice())?;
    answer(&mut console, &mut inbox, &mut outbox, 1);
    let _ = five_turns(&mut session, &mut wire, &mut console, &mut look);
    same(wire.output(), b"7 NO 2\n".as_slice())?;
    Ok(())
}

/// The 65th action waits until one of the 64 before it is answered.
#[test]
fn as_many_as_the_slot_takes(rt: HostRuntime) -> Result<(), Fail> {
    let alloc = rt.alloc();
    let slot = slot_of(3)?;
    let mut lines = String::new(alloc);
    let mut replies = String::new(alloc);
    for _line in 0..200 {
        lines.push_str("7 ACK 0\n")?;
        replies.push_str("7 NO 2\n")?;
    }
    assert!(rt; is_answered(alloc, slot, &lines, &replies, 4096, 4096)?);
    Ok(())
}

/// The plant and an alarm's attributes, in pieces of one byte.
#[test]
fn a_plant_and_its_attributes(rt: HostRuntime) -> Result<(), Fail> {
    let slot = slot_of(16)?;
    let lines = "5 PLANT\n6 ATTR 2\n4294967295 ATTR 4\n7 ATTR 1\n";
    let replies =
        "5 PLANT 0 0 4 2\n6 ATTR 0 DISCRETE 1 0 1 1 0 ON XS-201\n4294967295 NO 1\n7 ATTR 0 LOW 100 5 2 0 3600 OFF PI-102\n";
    assert!(rt; is_answered(rt.alloc(), slot, lines, replies, 1, 1)?);
    Ok(())
}

/// Nothing has happened at a plant without an action, and an acknowledgement with a stamp is an action as any other.
#[test]
fn nothing_happened(rt: HostRuntime) -> Result<(), Fail> {
    let slot = slot_of(5)?;
    let lines =
        "7 SINCE\n8 ACK 0 3\n9 SINCE 0\n10 SINCE 281474976710656\n11 SINCE 281474976710657\n";
    let replies = "7 SINCE 0 1 0\n8 NO 2\n9 SINCE 0 1 0\n10 SINCE 0 281474976710657 0\n11 NO 13\n";
    for piece in [1, 7, 4096] {
        assert!(rt; is_answered(rt.alloc(), slot, lines, replies, piece, piece)?);
    }
    Ok(())
}

/// What happened is reported in one line.
#[test]
fn what_happened_is_told(rt: HostRuntime) -> Result<(), Fail> {
    let alloc = rt.alloc();
    let moment = moment_of(1_700_000_000)?;
    let (clock, console) = (slot_of(17)?, slot_of(4)?);
    let setpoint = reading_of(-12)?;
    let events = [
        Event {
            moment,
            slot: clock,
            action: Action::Clock(moment),
        },
        Event {
            moment,
            slot: console,
            action: Action::SetSetpoint(AlarmId(16_383), setpoint),
        },
    ];
    let mut output = Output::new(alloc)?;
    output.since(
        9,
        Recalled {
            count: 12,
            first: 5,
        },
        &events,
    );
    let mut wire = MemWire::new(alloc, Vec::new(alloc), 200)?;
    same(output.write(&mut wire), Sent::Some)?;
    same(
        wire.output(),
        b"9 SINCE 12 5 2 1700000000 17 CLOCK 1700000000 1700000000 4 SETP 16383 -12\n".as_slice(),
    )?;
    Ok(())
}

/// Bytes after the last line end are no line.
#[test]
fn no_line_without_its_end(rt: HostRuntime) -> Result<(), Fail> {
    let slot = slot_of(0)?;
    assert!(rt; is_answered(rt.alloc(), slot, "", "", 1, 1)?);
    assert!(rt; is_answered(rt.alloc(), slot, "5 ACK 0", "", 1, 1)?);
    assert!(rt;
        is_answered(
            rt.alloc(),
            slot,
            "5 CHATTER\n5 ACK 0",
            "5 CHATTER 0 0\n",
            1,
            1
        )?
    );
    Ok(())
}
