//! The text of an alarm's attributes.

ghost use Rattle.std.specs.Prelude.{◌≡◌};
ghost use Rattle.alm_lines.specs.Parts.{text_of_parts};
ghost use Rattle.alm_lines.specs.Reply.{kind_word, attributes_text, gap};
ghost use Rattle.alm_lines.specs.Texts.{switch_text};

use crate::part::Part;
use alm_types::{Attr, Kind};

/// How many parts the text of an alarm's attributes has.
pub const ATTRIBUTE_PARTS: usize = 18;

/// The word of a kind.
fn kind_word(kind: Kind) -> &'static str
    ensures { result.now ≡ kind_word kind }
{
    match kind {
        Kind::High => "HIGH",
        Kind::Low => "LOW",
        Kind::Discrete => "DISCRETE",
    }
}

/// The word of a switch.
pub fn switch_word(on: bool) -> &'static str
    ensures { result.now ≡ switch_text on }
{
    if on { "ON" } else { "OFF" }
}

/// The gap between a tag and its text: empty if the text is empty.
fn gap(text: &[u8]) -> &'static str
    ensures { result.now ≡ gap text.now }
{
    if text.is_empty() { "" } else { " " }
}

/// The text of an alarm's attributes, in parts, each field after a space. The text of the alarm is the last field, since it has
/// spaces; if it is empty, the tag comes last.
pub fn attribute_parts(attr: &Attr) -> [Part<'_>; ATTRIBUTE_PARTS]
    ensures { text_of_parts result ≡ attributes_text attr.now }
{
    let text = attr.text.as_bytes();
    [
        Part::Word(" "),
        Part::Word(kind_word(attr.kind)),
        Part::Word(" "),
        Part::Signed(attr.setpoint.value()),
        Part::Word(" "),
        Part::Number(attr.deadband),
        Part::Word(" "),
        Part::Number(u64::from(attr.priority)),
        Part::Word(" "),
        Part::Number(u64::from(attr.area)),
        Part::Word(" "),
        Part::Number(u64::from(attr.max_shelve)),
        Part::Word(" "),
        Part::Word(switch_word(attr.latching)),
        Part::Word(" "),
        Part::Bytes(attr.tag.as_bytes()),
        Part::Word(gap(text)),
        Part::Bytes(text),
    ]
}
