//! The text of an alarm's row.

ghost use Rattle.std.specs.Prelude.{◌≡◌, slice_get};
ghost use Rattle.alm_lines.specs.Parts.{part_text, text_of_parts};
ghost use Rattle.alm_lines.specs.Reply.{digit, row_text};
ghost use Rattle.alm_lines.specs.Spaced.{space_before, moment_text};

use crate::part::Part;
use crate::printing::{deadline_part, letters, shown_word};
use alm_types::{AlarmRow, Moment};

/// How many parts the text of an alarm's row has.
pub const ROW_PARTS: usize = 22;

/// 1 or 0.
fn digit(flag: bool) -> u64
    ensures { result ≡ digit flag }
{
    u64::from(flag)
}

/// The space before a moment, if there is one at this place.
fn space_before(moments: &[Moment], at: usize) -> &'static str
    ensures { result.now ≡ space_before (slice_get moments.now at) }
{
    if at < moments.len() { " " } else { "" }
}

/// The moment at a place, if there is one.
fn moment_part(moments: &[Moment], at: usize) -> Part<'static>
    ensures { part_text result ≡ moment_text (slice_get moments.now at) }
{
    match moments.get(at) {
        Some(moment) => Part::Number(moment.seconds()),
        None => Part::Word(""),
    }
}

/// The text of an alarm's row, in parts, each field after a space. The moments of its last annunciations come last, after their
/// number.
pub fn row_parts(row: &AlarmRow) -> [Part<'_>; ROW_PARTS]
    ensures { text_of_parts result ≡ row_text row.now }
{
    let moments = row.moments.as_slice();
    [
        Part::Word(" "),
        Part::Word(shown_word(row.shown)),
        Part::Word(" "),
        Part::Number(digit(row.active)),
        Part::Word(" "),
        Part::Word(letters(row.flags)),
        Part::Word(" "),
        deadline_part(row.until),
        Part::Word(" "),
        Part::Number(row.stamp),
        Part::Word(" "),
        Part::Number(u64::from(row.priority)),
        Part::Word(" "),
        Part::Signed(row.setpoint.value()),
        Part::Word(" "),
        Part::Number(moments.len() as u64),
        Part::Word(space_before(moments, 0)),
        moment_part(moments, 0),
        Part::Word(space_before(moments, 1)),
        moment_part(moments, 1),
        Part::Word(space_before(moments, 2)),
        moment_part(moments, 2),
    ]
}
