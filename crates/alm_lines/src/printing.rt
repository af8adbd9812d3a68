//! The texts of replies.

ghost use Rattle.std.specs.Prelude.{◌≡◌, ◌++◌};
ghost use Rattle.alm_types.specs.Reports.{report, alarms, attributes, row};
ghost use Rattle.alm_lines.specs.Parts.{part_text, text_of_parts};
ghost use Rattle.alm_lines.specs.Reply.{text_of, shown_word, letters, query_word, told_text, report_text, with_spaces, deadline_text};
ghost use Rattle.alm_lines.specs.Written.{Prints};

use crate::attributes::attribute_parts;
use crate::events::print_since;
use crate::part::{Part, put_each, put_parts};
use crate::reply::Reply;
use crate::rows::row_parts;
use crate::short_text::ShortText;
use crate::writing::put;
use alm_types::{Answer, Query, Shown};
use std::io;

/// The word of what is shown of an alarm.
pub fn shown_word(shown: Shown) -> &'static str
    ensures { result.now ≡ shown_word shown }
{
    match shown {
        Shown::OutOfService => "OOSRV",
        Shown::ByDesign => "DSUPR",
        Shown::Shelved => "SHLVD",
        Shown::Normal => "NORM",
        Shown::Unack => "UNACK",
        Shown::Acked => "ACKED",
        Shown::RtnUnack => "RTNUN",
        Shown::LatchUnack => "LATUN",
        Shown::LatchAcked => "LATAK",
    }
}

/// The flags as letters, one for each that is set.
pub fn letters(flags: u8) -> &'static str
    ensures { result.now ≡ letters flags }
{
    match flags {
        0 => "-",
        1 => "S",
        2 => "D",
        3 => "DS",
        4 => "O",
        5 => "OS",
        6 => "OD",
        _ => "ODS",
    }
}

/// The word of a reply, between spaces.
pub fn query_word(query: Query) -> &'static str
    ensures { result.now ≡ query_word query }
{
    match query {
        Query::State(_) => " STATE ",
        Query::Priority(_) | Query::Area(_) | Query::Wheel(_) => " LIST ",
        Query::Flood(_) => " FLOOD ",
        Query::Stale => " STALE ",
        Query::Chatter => " CHATTER ",
        Query::Plant => " PLANT ",
        Query::Attributes(_) => " ATTR ",
        Query::Row(_) => " ROW ",
    }
}

/// The end of a shelving, if there is one.
pub fn deadline_part(until: Option<u64>) -> Part<'static>
    ensures { part_text result ≡ deadline_text until }
{
    match until {
        Some(moment) => Part::Number(moment),
        None => Part::Word("-"),
    }
}

/// Prints each number after a space.
fn print_spaced<W: io::Write>(numbers: &[u32], writer: &mut W) -> io::Result<()>
    ensures { Prints (W.contents writer.old) (W.contents writer.new) (with_spaces numbers.now) result }
{
    for number in numbers {
        put_parts(&[Part::Word(" "), Part::Number(u64::from(*number))], writer)?;
    }
    Ok(())
}

/// Prints a list after its length.
fn print_list<W: io::Write>(list: &[u32], writer: &mut W) -> io::Result<()>
    ensures { Prints (W.contents writer.old) (W.contents writer.new) (report_text (alarms list.now))
        result }
{
    put_each(&[Part::Word(" "), Part::Number(list.len() as u64)], writer)?;
    print_spaced(list, writer)
}

/// Prints an alarm's attributes. It is a function of its own, since inlined the room for their parts would cost each
/// other reply time.
#[inline(never)]
fn print_attributes<W: io::Write>(answer: &Answer, writer: &mut W) -> io::Result<()>
    ensures { Prints (W.contents writer.old) (W.contents writer.new)
        (report_text (attributes answer.now.attr)) result }
{
    match &answer.attr {
        Some(attr) => put_each(&attribute_parts(attr), writer),
        None => put(b" -", writer),
    }
}

/// Prints an alarm's row. It is a function of its own, since inlined the room for its parts would cost each other reply
/// time.
#[inline(never)]
fn print_row<W: io::Write>(answer: &Answer, writer: &mut W) -> io::Result<()>
    ensures { Prints (W.contents writer.old) (W.contents writer.new)
        (report_text (row answer.now.row)) result }
{
    match &answer.row {
        Some(row) => put_each(&row_parts(row), writer),
        None => put(b" -", writer),
    }
}

/// Prints the contents of an answer.
fn print_report<W: io::Write>(query: Query, answer: &Answer, writer: &mut W) -> io::Result<()>
    ensures { Prints (W.contents writer.old) (W.contents writer.new)
        (report_text (report query answer.now)) result }
{
    match query {
        Query::State(_) => put_each(
            &[
                Part::Word(" "),
                Part::Word(shown_word(answer.shown)),
                Part::Word(" "),
                Part::Number(u64::from(answer.active)),
                Part::Word(" "),
                Part::Word(letters(answer.flags)),
                Part::Word(" "),
                deadline_part(answer.until),
            ],
            writer,
        ),
        Query::Flood(_) => put_each(
            &[
                Part::Word(" "),
                Part::Number(answer.window),
                Part::Word(" "),
                Part::Number(u64::from(answer.flood)),
            ],
            writer,
        ),
        Query::Priority(_) | Query::Area(_) | Query::Wheel(_) | Query::Stale | Query::Chatter => {
            print_list(&answer.list, writer)
        }
        Query::Plant => put_each(
            &[
                Part::Word(" "),
                Part::Number(answer.moment),
                Part::Word(" "),
                Part::Number(answer.alarms),
                Part::Word(" "),
                Part::Number(answer.areas),
            ],
            writer,
        ),
        Query::Attributes(_) => print_attributes(answer, writer),
        Query::Row(_) => print_row(answer, writer),
    }
}

/// Prints the reply to a query.
fn print_query<W: io::Write>(
    id: u32,
    n: u64,
    query: Query,
    answer: &Answer,
    writer: &mut W,
) -> io::Result<()>
    ensures { Prints (W.contents writer.old) (W.contents writer.new)
        (told_text id n query (report query answer.now)) result }
{
    put_each(
        &[
            Part::Number(u64::from(id)),
            Part::Word(query_word(query)),
            Part::Number(n),
        ],
        writer,
    )?;
    print_report(query, answer, writer)?;
    put(b"\n", writer)
}

/// Prints the reply to a query, in one write if it fits into a short text.
fn print_at_once<W: io::Write>(
    id: u32,
    n: u64,
    query: Query,
    answer: &Answer,
    writer: &mut W,
) -> io::Result<()>
    ensures { Prints (W.contents writer.old) (W.contents writer.new)
        (told_text id n query (report query answer.now)) result }
{
    let mut text = ShortText::new();
    match print_query(id, n, query, answer, &mut text) {
        Ok(()) => put(text.bytes(), writer),
        Err(_) => print_query(id, n, query, answer, writer),
    }
}

/// Prints the contents of an answer, between words.
pub fn print_told<W: io::Write>(
    front: &[Part<'_>],
    query: Query,
    answer: &Answer,
    end: &str,
    writer: &mut W,
) -> io::Result<()>
    ensures { Prints (W.contents writer.old) (W.contents writer.new)
        (text_of_parts front.now ++ report_text (report query answer.now) ++ end.now) result }
{
    put_parts(front, writer)?;
    print_report(query, answer, writer)?;
    put(end.as_bytes(), writer)
}

/// Prints a reply. If the writer fails, a prefix of it is written. A short text is assembled first, then written.
pub fn print_reply<W: io::Write>(reply: &Reply<'_>, writer: &mut W) -> io::Result<()>
    ensures { Prints (W.contents writer.old) (W.contents writer.new) (text_of reply.now) result }
{
    match *reply {
        Reply::Ok { id, n } => put_parts(
            &[
                Part::Number(u64::from(id)),
                Part::Word(" OK "),
                Part::Number(n),
                Part::Word("\n"),
            ],
            writer,
        ),
        Reply::No { id, refusal } => put_parts(
            &[
                Part::Number(u64::from(id)),
                Part::Word(" NO "),
                Part::Number(u64::from(refusal.number())),
                Part::Word("\n"),
            ],
            writer,
        ),
        Reply::Told {
            id,
            n,
            query,
            answer,
        } => print_at_once(id, n, query, answer, writer),
        Reply::Recalled {
            id,
            n,
            first,
            events,
        } => print_since(id, n, first, events, writer),
    }
}
