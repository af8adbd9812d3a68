//! The text of what happened.

ghost use Rattle.std.specs.Prelude.{◌≡◌, ◌≤◌, decimal, length};
ghost use Rattle.alm_types.specs.Actions.{IsAction};
ghost use Rattle.alm_lines.specs.Parts.{part_text, text_of_parts};
ghost use Rattle.alm_lines.specs.Since.{event_text, since_head, recalled_text};
ghost use Rattle.alm_lines.specs.Written.{Prints};
ghost use Rattle.std.specs.List.{flat_map};
ghost use Rattle.alm_lines.specs.Texts.{action_words, with_one, with_two};

use crate::attributes::switch_word;
use crate::part::{Part, put_parts};
use crate::writing::put;
use alm_types::{Action, AlarmId, Event};
use std::io;

/// How many parts the text of an event has.
pub const EVENT_PARTS: usize = 10;

/// How many parts the text of an action has.
const ACTION_PARTS: usize = 5;

/// How many parts precede the events.
pub const HEAD_PARTS: usize = 7;

/// What precedes the events of a reply, in parts: the id, the count of the plant, the number of the first event, and how many
/// there are.
pub fn since_head(id: u32, n: u64, first: u64, len: u64) -> [Part<'static>; HEAD_PARTS]
    ensures text { text_of_parts result ≡ since_head id n first len }
    ensures short { length (since_head id n first len) ≤ 99 }
{
    [
        Part::Number(u64::from(id)),
        Part::Word(" SINCE "),
        Part::Number(n),
        Part::Word(" "),
        Part::Number(first),
        Part::Word(" "),
        Part::Number(len),
    ]
}

/// A word and one field.
fn with_one(word: &'static str, field: u64) -> [Part<'static>; ACTION_PARTS]
    ensures { text_of_parts result ≡ with_one word.now (decimal field) }
{
    [
        Part::Word(word),
        Part::Word(" "),
        Part::Number(field),
        Part::Word(""),
        Part::Word(""),
    ]
}

/// A word, an alarm and a second field.
fn with_two(
    word: &'static str,
    alarm: AlarmId,
    second: Part<'static>,
) -> [Part<'static>; ACTION_PARTS]
    ensures { text_of_parts result ≡ with_two word.now (decimal alarm.0) (part_text second.entry) }
{
    [
        Part::Word(word),
        Part::Word(" "),
        Part::Number(u64::from(alarm.0)),
        Part::Word(" "),
        second,
    ]
}

/// The text of an action, in parts: that of its request, without an id.
fn action_parts(action: Action) -> [Part<'static>; ACTION_PARTS]
    ensures text { text_of_parts result ≡ action_words action }
    ensures range { IsAction action }
{
    match action {
        Action::Clock(moment) => with_one("CLOCK", moment.seconds()),
        Action::Value(id, value) => with_two("VAL", id, Part::Signed(value.value())),
        Action::Ack(id) => with_one("ACK", u64::from(id.0)),
        Action::Reset(id) => with_one("RESET", u64::from(id.0)),
        Action::Shelve(id, seconds) => with_two("SHELVE", id, Part::Number(u64::from(seconds))),
        Action::Unshelve(id) => with_one("UNSHELVE", u64::from(id.0)),
        Action::Oos(id, on) => with_two("OOS", id, Part::Word(switch_word(on))),
        Action::Design(id, on) => with_two("DESIGN", id, Part::Word(switch_word(on))),
        Action::SetPriority(id, priority) => with_two(
            "PRIO",
            id,
            Part::Number(u64::from(priority)),
        ),
        Action::SetSetpoint(id, setpoint) => with_two("SETP", id, Part::Signed(setpoint.value())),
    }
}

/// The text of an event, in parts, each field after a space.
pub fn event_parts(event: &Event) -> [Part<'static>; EVENT_PARTS]
    ensures text { text_of_parts result ≡ event_text event.now }
    ensures short { length (event_text event.now) ≤ 48 }
{
    let [word, space, first, gap, second] = action_parts(event.action);
    [
        Part::Word(" "),
        Part::Number(event.moment.seconds()),
        Part::Word(" "),
        Part::Number(u64::from(event.slot.number())),
        Part::Word(" "),
        word,
        space,
        first,
        gap,
        second,
    ]
}

/// Prints each event after a space.
fn print_events<W: io::Write>(events: &[Event], writer: &mut W) -> io::Result<()>
    ensures { Prints (W.contents writer.old) (W.contents writer.new)
        (flat_map event_text events.now) result }
{
    for event in events {
        put_parts(&event_parts(event), writer)?;
    }
    Ok(())
}

/// Prints what happened.
pub fn print_since<W: io::Write>(
    id: u32,
    n: u64,
    first: u64,
    events: &[Event],
    writer: &mut W,
) -> io::Result<()>
    ensures { Prints (W.contents writer.old) (W.contents writer.new)
        (recalled_text id n first events.now) result }
{
    put_parts(&since_head(id, n, first, events.len() as u64), writer)?;
    print_events(events, writer)?;
    put(b"\n", writer)
}
