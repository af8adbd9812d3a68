//! A session in one thread with the other ends of its slot.

ghost use Rattle.alm_rings.specs.Ends.{AreEnds};

use crate::still::{StillLook, StillTold};
use alm_desk::worked_table;
use alm_model::{Alarms, PlainPlant};
use alm_rings::{Console, Inbox, Outbox, Receipt, beside};
use alm_session::{Session, Turn, Wire};
use alm_types::{Refusal, Verdict};
use std::alloc::{AllocError, Global};

/// The result of a connection.
#[derive(Clone, Copy, Debug, PartialEq, Eq)]
pub struct Course {
    pub last: Turn,
    /// How many turns were idle.
    pub idle: u32,
    /// How many requests were answered.
    pub answers: u64,
}

/// A new worked plant.
pub fn worked_look(alloc: Global) -> Result<StillLook<PlainPlant>, AllocError> {
    let table = worked_table(alloc)?;
    Ok(StillLook {
        plant: PlainPlant::new(alloc, &table)?,
    })
}

/// Takes a request, and releases the receipt with this serial: the alarm needs no acknowledgement.
pub fn answer(
    console: &mut Console<StillTold>,
    inbox: &mut Inbox,
    outbox: &mut Outbox<StillTold>,
    serial: u64,
)
    requires { AreEnds console.old inbox.old outbox.old }
    ensures { AreEnds console.new inbox.new outbox.new }
{
    beside(console, inbox, outbox);
    let _ = inbox.take();
    let slot = outbox.slot();
    let _ = outbox.release(Receipt {
        slot,
        serial,
        verdict: Verdict::Refused(Refusal::NotUnacknowledged, 0),
        number: 0,
        told: StillTold { base_count: 0 },
    });
    beside(console, inbox, outbox);
}

/// One turn. One request is answered if it is idle and some are unanswered.
fn go_on<W: Wire>(
    session: &mut Session,
    wire: &mut W,
    look: &mut StillLook<PlainPlant>,
    console: &mut Console<StillTold>,
    inbox: &mut Inbox,
    outbox: &mut Outbox<StillTold>,
    answers: &mut u64,
) -> Turn
    requires { AreEnds console.old inbox.old outbox.old }
    ensures { AreEnds console.new inbox.new outbox.new }
{
    let turn = session.turn(wire, console, look);
    if turn == Turn::Idle && console.unanswered() > 0 {
        *answers = u64::saturating_add(*answers, 1);
        answer(console, inbox, outbox, *answers);
    }
    turn
}

/// Takes turns until the connection ends, or a hundred were idle in a row. One request is answered at each idle turn,
/// as long as some are unanswered.
pub fn play<W: Wire>(
    session: &mut Session,
    wire: &mut W,
    look: &mut StillLook<PlainPlant>,
    console: &mut Console<StillTold>,
    inbox: &mut Inbox,
    outbox: &mut Outbox<StillTold>,
) -> Course
    requires { AreEnds console.old inbox.old outbox.old }
    ensures { AreEnds console.new inbox.new outbox.new }
{
    let mut last = Turn::Idle;
    let mut idle: u32 = 0;
    let mut row: u32 = 0;
    let mut answers: u64 = 0;
    for _turn in 0..10_000_000_u32 {
        last = go_on(session, wire, look, console, inbox, outbox, &mut answers);
        match last {
            Turn::Went => row = 0,
            Turn::Idle => {
                idle = idle.saturating_add(1);
                row = row.saturating_add(1);
            }
            Turn::Ended | Turn::Fault => row = 101,
        }
        if row > 100 {
            break;
        }
    }
    Course {
        last,
        idle,
        answers,
    }
}
