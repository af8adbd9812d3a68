//! What the bytes of a line ask.

ghost use Rattle.std.specs.Prelude.{◌≡◌, ◌+◌, option_map, position, ◌==◌};
ghost use Rattle.alm_types.specs.declared.want.Want.TheVariants.{Do};
ghost use Rattle.alm_lines.specs.declared.ask.Ask.TheVariants.{Act};
ghost use Rattle.alm_lines.specs.Line.{line_of, cut_at_space, ask_in, of_none, of_one, of_two, of_letter};

use crate::ask::Ask;
use crate::line::Line;
use crate::numbers::{alarm, count, moment, reading, stamp, switch, word};
use alm_types::{Action, Query, Refusal, Want};

/// The most bytes of a line, its LF not counted.
pub const LINE_LIMIT: usize = 127;

/// The place of the first space.
fn space(bytes: &[u8]) -> Option<usize>
    ensures { result ≡ position (λ b. b == 32) bytes.now }
{
    bytes.iter().position(|b| *b == b' ')
}

/// The bytes before the first space, and those after it.
pub fn cut(bytes: &[u8]) -> (&[u8], Option<&[u8]>)
    ensures first { result.0.now ≡ (cut_at_space bytes.now).0 }
    ensures rest { option_map (λ rest. rest.now) result.1 ≡ (cut_at_space bytes.now).1 }
{
    match space(bytes) {
        Some(at) => (&bytes[..at], Some(&bytes[at + 1..])),
        None => (bytes, None),
    }
}

/// What a line asks.
pub fn line_of(bytes: &[u8]) -> Line
    ensures { result ≡ line_of bytes.now }
{
    let bad = |id, refusal| Line {
        id,
        ask: Ask::Bad(refusal),
    };
    if bytes.len() > LINE_LIMIT {
        return bad(0, Refusal::LineTooLong);
    }
    let (id, rest) = cut(bytes);
    let Some(id) = word(id) else {
        return bad(0, Refusal::BadLine);
    };
    match asked(rest) {
        Some(ask) => Line { id, ask },
        None => bad(id, Refusal::BadLine),
    }
}

/// What follows the id.
fn asked(rest: Option<&[u8]>) -> Option<Ask>
    ensures { result ≡ ask_in (option_map (λ rest. rest.now) rest.entry) }
{
    let (name, rest) = cut(rest?);
    let Some(fields) = rest else {
        return of_none(name);
    };
    let (first, second) = cut(fields);
    match second {
        None => of_one(name, first),
        Some(second) => of_two(name, first, second),
    }
}

/// The request for an action.
fn act(action: Action) -> Ask
    ensures { result ≡ Act (Do action) }
{
    Ask::Act(Want::Do(action))
}

/// What a word asks alone.
fn of_none(name: &[u8]) -> Option<Ask>
    ensures { result ≡ of_none name.now }
{
    if name == b"STALE".as_slice() {
        return Some(Ask::Look(Query::Stale));
    }
    if name == b"CHATTER".as_slice() {
        return Some(Ask::Look(Query::Chatter));
    }
    if name == b"PLANT".as_slice() {
        return Some(Ask::Look(Query::Plant));
    }
    if name == b"SINCE".as_slice() {
        return Some(Ask::Recall(None));
    }
    None
}

/// What a word asks of one field.
fn of_one(name: &[u8], first: &[u8]) -> Option<Ask>
    ensures { result ≡ of_one name.now first.now }
{
    if name == b"ACK".as_slice() {
        return Some(act(Action::Ack(alarm(first)?)));
    }
    if name == b"RESET".as_slice() {
        return Some(act(Action::Reset(alarm(first)?)));
    }
    if name == b"UNSHELVE".as_slice() {
        return Some(act(Action::Unshelve(alarm(first)?)));
    }
    if name == b"CLOCK".as_slice() {
        return Some(act(Action::Clock(moment(first)?)));
    }
    if name == b"STATE".as_slice() {
        return Some(Ask::Look(Query::State(alarm(first)?)));
    }
    if name == b"FLOOD".as_slice() {
        return Some(Ask::Look(Query::Flood(word(first)?)));
    }
    if name == b"ATTR".as_slice() {
        return Some(Ask::Look(Query::Attributes(alarm(first)?)));
    }
    if name == b"ROW".as_slice() {
        return Some(Ask::Look(Query::Row(alarm(first)?)));
    }
    if name == b"SINCE".as_slice() {
        return Some(Ask::Recall(Some(count(first)?)));
    }
    None
}

/// What a word asks of two fields.
fn of_two(name: &[u8], first: &[u8], second: &[u8]) -> Option<Ask>
    ensures { result ≡ of_two name.now first.now second.now }
{
    if name == b"VAL".as_slice() {
        return Some(act(Action::Value(alarm(first)?, reading(second)?)));
    }
    if name == b"SHELVE".as_slice() {
        return Some(act(Action::Shelve(alarm(first)?, word(second)?)));
    }
    if name == b"OOS".as_slice() {
        return Some(act(Action::Oos(alarm(first)?, switch(second)?)));
    }
    if name == b"DESIGN".as_slice() {
        return Some(act(Action::Design(alarm(first)?, switch(second)?)));
    }
    if name == b"PRIO".as_slice() {
        return Some(act(Action::SetPriority(alarm(first)?, word(second)?)));
    }
    if name == b"SETP".as_slice() {
        return Some(act(Action::SetSetpoint(alarm(first)?, reading(second)?)));
    }
    if name == b"ACK".as_slice() {
        return Some(Ask::Act(Want::AckSeen(alarm(first)?, stamp(second)?)));
    }
    if name == b"LIST".as_slice() {
        return of_letter(first, word(second)?);
    }
    None
}

/// The list that a letter names.
fn of_letter(letter: &[u8], n: u32) -> Option<Ask>
    ensures { result ≡ of_letter letter.now n }
{
    if letter == b"P".as_slice() {
        return Some(Ask::Look(Query::Priority(n)));
    }
    if letter == b"A".as_slice() {
        return Some(Ask::Look(Query::Area(n)));
    }
    if letter == b"S".as_slice() {
        return Some(Ask::Look(Query::Wheel(n)));
    }
    None
}
