//! A line of the desk.

ghost use Rattle.std.specs.Prelude.{◌≡◌, OnErr, OnOk, IfOk, false};
ghost use Rattle.std.specs.Io.KnownBytes.{Appends};
ghost use Rattle.alm_types.specs.Counts.{one_more};
ghost use Rattle.alm_lines.specs.Line.{number};
ghost use Rattle.alm_lines.specs.Written.{Prints};
ghost use Rattle.alm_desk.specs.DeskLines.{desk_line_of, desk_reply, desk_after, unreadable_text, desk_request, IsCutDeskLine};

use crate::backend::Backend;
use crate::counted_writer::CountedWriter;
use crate::hindrance::Hindrance;
use crate::local_desk::LocalDesk;
use crate::write_failed::WriteFailed;
use alm_lines::{Part, cut, number};
use alm_types::{Refusal, Slot};
use std::io::Write;

/// The most bytes of a line of the desk, its LF not counted: a request line's and the longest slot and space.
const LINE_LIMIT: usize = 130;

/// The slot at the head of a line.
fn slot_of(digits: &[u8]) -> Option<Slot>
    ensures { result ≡ number 18 digits.now }
{
    match number(digits, 18) {
        Some(n) => Slot::new(n as u8),
        None => None,
    }
}

/// Says that a line can't be read.
fn refuse<W: Write + Drop>(
    refusal: Refusal,
    writer: &mut CountedWriter<W>,
) -> Result<(), WriteFailed>
    ensures text { Prints (W.contents writer.old.inner) (W.contents writer.new.inner)
        (unreadable_text refusal) result }
    ensures whole { OnOk result (writer.new.failed ≡ writer.old.failed) }
    ensures failed { OnErr result (writer.new.failed ≡ one_more writer.old.failed) }
{
    writer.parts(&[
        Part::Word("? NO "),
        Part::Number(u64::from(refusal.number())),
        Part::Word("\n"),
    ])
}

/// Answers a request line at a slot, under the slot.
fn answer_at<B: Backend + Drop, W: Write + Drop>(
    desk: &mut LocalDesk<B>,
    slot: Slot,
    line: &[u8],
    writer: &mut CountedWriter<W>,
) -> Result<Hindrance, WriteFailed>
    requires { desk.old.closed ≡ false }
    ensures text { IfOk result
        (λ hindrance. Appends (W.contents writer.old.inner) (W.contents writer.new.inner)
        (desk_reply desk.old.standing (desk_request slot line.now) hindrance)) }
    ensures standing { IfOk result
        (λ hindrance.
        desk.new.standing ≡ desk_after desk.old.standing (desk_request slot line.now) hindrance) }
    ensures open { OnOk result (desk.new.closed ≡ false) }
    ensures helds { desk.new.helds ≡ desk.old.helds }
    ensures whole { OnOk result (writer.new.failed ≡ writer.old.failed) }
    ensures cut { OnErr result
        (IsCutDeskLine desk.old.standing (desk_request slot line.now) (W.contents writer.old.inner)
        desk.new.standing (W.contents writer.new.inner)) }
    ensures failed { OnErr result (writer.new.failed ≡ one_more writer.old.failed) }
{
    writer.parts(&[Part::Number(u64::from(slot.number())), Part::Word(" ")])?;
    match desk.answer(slot, line, writer) {
        Ok(hindrance) => Ok(hindrance),
        Err(_) => Err(WriteFailed),
    }
}

/// Answers a line of the desk, and returns what hindered it.
pub fn answer_desk_line<B: Backend + Drop, W: Write + Drop>(
    desk: &mut LocalDesk<B>,
    line: &[u8],
    writer: &mut CountedWriter<W>,
) -> Result<Hindrance, WriteFailed>
    requires { desk.old.closed ≡ false }
    ensures text { IfOk result
        (λ hindrance. Appends (W.contents writer.old.inner) (W.contents writer.new.inner)
        (desk_reply desk.old.standing (desk_line_of line.now) hindrance)) }
    ensures standing { IfOk result
        (λ hindrance.
        desk.new.standing ≡ desk_after desk.old.standing (desk_line_of line.now) hindrance) }
    ensures open { OnOk result (desk.new.closed ≡ false) }
    ensures helds { desk.new.helds ≡ desk.old.helds }
    ensures whole { OnOk result (writer.new.failed ≡ writer.old.failed) }
    ensures cut { OnErr result
        (IsCutDeskLine desk.old.standing (desk_line_of line.now) (W.contents writer.old.inner)
        desk.new.standing (W.contents writer.new.inner)) }
    ensures failed { OnErr result (writer.new.failed ≡ one_more writer.old.failed) }
{
    if line.len() > LINE_LIMIT {
        refuse(Refusal::LineTooLong, writer)?;
        return Ok(Hindrance::Nothing);
    }
    let (slot, rest) = cut(line);
    let Some(slot) = slot_of(slot) else {
        refuse(Refusal::BadLine, writer)?;
        return Ok(Hindrance::Nothing);
    };
    let Some(rest) = rest else {
        refuse(Refusal::BadLine, writer)?;
        return Ok(Hindrance::Nothing);
    };
    answer_at(desk, slot, rest, writer)
}
