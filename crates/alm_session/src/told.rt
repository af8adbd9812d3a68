//! The replies to queries, into a buffer.

ghost use Rattle.std.specs.Prelude.{◌≡◌, ◌≤◌, ◌<◌, ◌+◌, ◌++◌, OnOk, OnErr, length, vec_capacity, vec_len, decimal};
ghost use Rattle.alm_types.specs.Reports.{report, attributes, row};
ghost use Rattle.alm_lines.specs.Parts.{part_text, text_of_parts};
ghost use Rattle.alm_lines.specs.Reply.{told_text, report_text, with_spaces};

use alm_lines::{Part, attribute_parts, letters, query_word, row_parts, shown_word};
use alm_types::{Answer, Query};
use std::alloc::AllocError;

/// Puts a number.
fn put_number(text: &mut Vec<u8>, number: u64) -> Result<(), AllocError>
    ensures items { OnOk result (text.new.items ≡ text.old.items ++ decimal number) }
    ensures full { OnErr result
        (vec_capacity text.old < vec_len text.old + length (decimal number)) }
    ensures room { vec_capacity text.old ≤ vec_capacity text.new }
{
    text.extend_from_slice(itoa::Buffer::new().format(number).as_bytes())
}

/// Puts each number after a space.
fn put_spaced(text: &mut Vec<u8>, numbers: &[u32]) -> Result<(), AllocError>
    ensures items { OnOk result (text.new.items ≡ text.old.items ++ with_spaces numbers.now) }
    ensures full { OnErr result
        (vec_capacity text.old < vec_len text.old + length (with_spaces numbers.now)) }
    ensures room { vec_capacity text.old ≤ vec_capacity text.new }
{
    for number in numbers {
        text.extend_from_slice(b" ")?;
        put_number(text, u64::from(*number))?;
    }
    Ok(())
}

/// Puts a part.
fn put_part(text: &mut Vec<u8>, part: Part<'_>) -> Result<(), AllocError>
    ensures items { OnOk result (text.new.items ≡ text.old.items ++ part_text part.entry) }
    ensures full { OnErr result
        (vec_capacity text.old < vec_len text.old + length (part_text part.entry)) }
    ensures room { vec_capacity text.old ≤ vec_capacity text.new }
{
    match part {
        Part::Word(word) => text.extend_from_slice(word.as_bytes()),
        Part::Bytes(bytes) => text.extend_from_slice(bytes),
        Part::Number(number) => put_number(text, number),
        Part::Signed(number) => {
            text.extend_from_slice(itoa::Buffer::new().format(number).as_bytes())
        }
    }
}

/// Puts parts, one after the other.
pub fn put_parts(text: &mut Vec<u8>, parts: &[Part<'_>]) -> Result<(), AllocError>
    ensures items { OnOk result (text.new.items ≡ text.old.items ++ text_of_parts parts.now) }
    ensures full { OnErr result
        (vec_capacity text.old < vec_len text.old + length (text_of_parts parts.now)) }
    ensures room { vec_capacity text.old ≤ vec_capacity text.new }
{
    for part in parts {
        put_part(text, *part)?;
    }
    Ok(())
}

/// Puts an alarm's attributes. It is a function of its own, since inlined the room for their parts would cost each
/// other reply time.
#[inline(never)]
fn put_attributes(text: &mut Vec<u8>, answer: &Answer) -> Result<(), AllocError>
    ensures items { OnOk result
        (text.new.items ≡ text.old.items ++ report_text (attributes answer.now.attr)) }
    ensures full { OnErr result
        (vec_capacity text.old <
        vec_len text.old + length (report_text (attributes answer.now.attr))) }
    ensures room { vec_capacity text.old ≤ vec_capacity text.new }
{
    match &answer.attr {
        Some(attr) => put_parts(text, &attribute_parts(attr)),
        None => text.extend_from_slice(b" -"),
    }
}

/// Puts an alarm's row. It is a function of its own, since inlined the room for its parts would cost each other reply
/// time.
#[inline(never)]
fn put_row(text: &mut Vec<u8>, answer: &Answer) -> Result<(), AllocError>
    ensures items { OnOk result
        (text.new.items ≡ text.old.items ++ report_text (row answer.now.row)) }
    ensures full { OnErr result
        (vec_capacity text.old <
        vec_len text.old + length (report_text (row answer.now.row))) }
    ensures room { vec_capacity text.old ≤ vec_capacity text.new }
{
    match &answer.row {
        Some(row) => put_parts(text, &row_parts(row)),
        None => text.extend_from_slice(b" -"),
    }
}

/// Puts what an answer reports.
fn put_report(text: &mut Vec<u8>, query: Query, answer: &Answer) -> Result<(), AllocError>
    ensures items { OnOk result
        (text.new.items ≡ text.old.items ++ report_text (report query answer.now)) }
    ensures full { OnErr result
        (vec_capacity text.old <
        vec_len text.old + length (report_text (report query answer.now))) }
    ensures room { vec_capacity text.old ≤ vec_capacity text.new }
{
    match query {
        Query::State(_) => {
            text.extend_from_slice(b" ")?;
            text.extend_from_slice(shown_word(answer.shown).as_bytes())?;
            text.extend_from_slice(b" ")?;
            put_number(text, u64::from(answer.active))?;
            text.extend_from_slice(b" ")?;
            text.extend_from_slice(letters(answer.flags).as_bytes())?;
            text.extend_from_slice(b" ")?;
            match answer.until {
                Some(moment) => put_number(text, moment),
                None => text.extend_from_slice(b"-"),
            }
        }
        Query::Flood(_) => {
            text.extend_from_slice(b" ")?;
            put_number(text, answer.window)?;
            text.extend_from_slice(b" ")?;
            put_number(text, u64::from(answer.flood))
        }
        Query::Priority(_) | Query::Area(_) | Query::Wheel(_) | Query::Stale | Query::Chatter => {
            text.extend_from_slice(b" ")?;
            put_number(text, answer.list.len() as u64)?;
            put_spaced(text, &answer.list)
        }
        Query::Plant => {
            text.extend_from_slice(b" ")?;
            put_number(text, answer.moment)?;
            text.extend_from_slice(b" ")?;
            put_number(text, answer.alarms)?;
            text.extend_from_slice(b" ")?;
            put_number(text, answer.areas)
        }
        Query::Attributes(_) => put_attributes(text, answer),
        Query::Row(_) => put_row(text, answer),
    }
}

/// Puts the reply to a query.
pub fn put_told(
    text: &mut Vec<u8>,
    id: u32,
    n: u64,
    query: Query,
    answer: &Answer,
) -> Result<(), AllocError>
    ensures items { OnOk result
        (text.new.items ≡ text.old.items ++ told_text id n query (report query answer.now)) }
    ensures full { OnErr result
        (vec_capacity text.old <
        vec_len text.old + length (told_text id n query (report query answer.now))) }
    ensures room { vec_capacity text.old ≤ vec_capacity text.new }
{
    put_number(text, u64::from(id))?;
    text.extend_from_slice(query_word(query).as_bytes())?;
    put_number(text, n)?;
    put_report(text, query, answer)?;
    text.extend_from_slice(b"\n")
}
