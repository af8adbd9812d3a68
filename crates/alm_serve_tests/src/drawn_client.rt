//! A client that sends drawn lines.

use crate::client::connect;
use alm_lines::{Part, put_parts};
use alm_threads_tests::drawn::drawn;
use alm_threads_tests::notes::Notes;
use alm_types::{Action, AlarmId, Slot};
use std::alloc::Global;
use std::io::{self, Read, Write};
use std::net::TcpStream;
use std::sync::Arc;

/// How many lines a client sends together.
const OUT: u64 = 8;

/// A word, and what follows it.
fn put_word(word: &str, alarm: AlarmId, lines: &mut Vec<u8>) -> io::Result<()> {
    put_parts(&[Part::Word(word), Part::Number(u64::from(alarm.0))], lines)
}

/// A word, an alarm, and whether it is to be on.
fn put_switch(word: &str, alarm: AlarmId, on: bool, lines: &mut Vec<u8>) -> io::Result<()> {
    put_word(word, alarm, lines)?;
    if on {
        put_parts(&[Part::Word(" ON")], lines)
    } else {
        put_parts(&[Part::Word(" OFF")], lines)
    }
}

/// What a line asks for.
fn put_action(action: Action, lines: &mut Vec<u8>) -> io::Result<()> {
    match action {
        Action::Clock(moment) => {
            put_parts(
                &[Part::Word(" CLOCK "), Part::Number(moment.seconds())],
                lines,
            )
        }
        Action::Value(alarm, reading) => {
            put_word(" VAL ", alarm, lines)?;
            let value = reading.value().unsigned_abs();
            put_parts(&[Part::Word(" "), Part::Number(value)], lines)
        }
        Action::Ack(alarm) => put_word(" ACK ", alarm, lines),
        Action::Reset(alarm) => put_word(" RESET ", alarm, lines),
        Action::Shelve(alarm, seconds) => {
            put_word(" SHELVE ", alarm, lines)?;
            put_parts(&[Part::Word(" "), Part::Number(u64::from(seconds))], lines)
        }
        Action::Unshelve(alarm) => put_word(" UNSHELVE ", alarm, lines),
        Action::Oos(alarm, on) => put_switch(" OOS ", alarm, on, lines),
        Action::Design(alarm, on) => put_switch(" DESIGN ", alarm, on, lines),
        Action::SetPriority(alarm, priority) => {
            put_word(" PRIO ", alarm, lines)?;
            put_parts(&[Part::Word(" "), Part::Number(u64::from(priority))], lines)
        }
        Action::SetSetpoint(alarm, setpoint) => {
            put_word(" SETP ", alarm, lines)?;
            let value = setpoint.value().unsigned_abs();
            put_parts(&[Part::Word(" "), Part::Number(value)], lines)
        }
    }
}

/// The drawn lines of a slot after the first `sent`.
fn lines_behind(alloc: Global, slot: Slot, sent: u64) -> io::Result<Vec<u8>> {
    let mut lines = Vec::new(alloc);
    for ahead in 1..=OUT {
        let serial = sent.wrapping_add(ahead);
        put_parts(&[Part::Number(serial)], &mut lines)?;
        put_action(drawn(slot, serial), &mut lines)?;
        put_parts(&[Part::Word("\n")], &mut lines)?;
    }
    Ok(lines)
}

/// A reply to an action: its id, whether it was accepted, and its number or its refusal.
#[derive(Clone, Copy, Debug)]
struct Told {
    id: u64,
    is_accepted: bool,
    number: u64,
}

/// The number before the next byte that is no digit, and that byte.
fn number(stream: &mut TcpStream) -> io::Result<(u64, u8)> {
    let mut number = 0_u64;
    let mut one = [0_u8; 1];
    for _ in 0..21_u32 {
        if stream.read(&mut one)? == 0 || !one[0].is_ascii_digit() {
            break;
        }
        number = number
            .wrapping_mul(10)
            .wrapping_add(u64::from(one[0] - b'0'));
    }
    Ok((number, one[0]))
}

/// The next reply, if it is one to an action.
fn reply(stream: &mut TcpStream) -> io::Result<Option<Told>> {
    let (id, space) = number(stream)?;
    let mut word = [0_u8; 3];
    stream.read_exact(&mut word)?;
    let (number, end) = number(stream)?;
    let is_accepted = word == *b"OK ";
    if space != b' ' || end != b'\n' || !(is_accepted || word == *b"NO ") {
        return Ok(None);
    }
    Ok(Some(Told {
        id,
        is_accepted,
        number,
    }))
}

/// Sends a number of lines of a slot, some together, and notes which were accepted under which numbers. Whether all were answered
/// in their order.
pub fn converse(
    rt: &HostRuntime,
    port: u16,
    slot: Slot,
    each: u64,
    notes: &Arc<Notes, Global>,
) -> io::Result<bool> {
    let mut stream = connect(rt, port)?;
    for before in 0..each {
        if before % OUT == 0 {
            stream.write_all(&lines_behind(rt.alloc(), slot, before)?)?;
        }
        let serial = before.wrapping_add(1);
        match reply(&mut stream)? {
            Some(told) if told.id == serial => {
                if told.is_accepted {
                    notes.is_accepted(slot, serial, told.number);
                }
            }
            _ => return Ok(false),
        }
    }
    Ok(true)
}
