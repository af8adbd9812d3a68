//! Parts of a reply.

ghost use Rattle.alm_lines.specs.Parts.{part_text, text_of_parts};
ghost use Rattle.alm_lines.specs.Written.{Prints};

use crate::short_text::ShortText;
use crate::writing::put;
use std::io;

/// A part of a reply.
#[derive(Clone, Copy, Debug)]
pub enum Part<'a> {
    /// Unchanged.
    Word(&'a str),
    /// Unchanged.
    Bytes(&'a [u8]),
    /// In decimal digits.
    Number(u64),
    /// In decimal digits, after a minus if below 0.
    Signed(i64),
}

/// Writes a part.
fn put_part<W: io::Write>(part: Part<'_>, writer: &mut W) -> io::Result<()>
    ensures { Prints (W.contents writer.old) (W.contents writer.new) (part_text part.entry) result }
{
    match part {
        Part::Word(word) => put(word.as_bytes(), writer),
        Part::Bytes(bytes) => put(bytes, writer),
        Part::Number(number) => put(itoa::Buffer::new().format(number).as_bytes(), writer),
        Part::Signed(number) => put(itoa::Buffer::new().format(number).as_bytes(), writer),
    }
}

/// Writes parts, one after the other, each by its own calls.
pub fn put_each<W: io::Write>(parts: &[Part<'_>], writer: &mut W) -> io::Result<()>
    ensures { Prints (W.contents writer.old) (W.contents writer.new) (text_of_parts parts.now)
        result }
{
    for part in parts {
        put_part(*part, writer)?;
    }
    Ok(())
}

/// Writes parts, one after the other. A short text is assembled first, then written.
pub fn put_parts<W: io::Write>(parts: &[Part<'_>], writer: &mut W) -> io::Result<()>
    ensures { Prints (W.contents writer.old) (W.contents writer.new) (text_of_parts parts.now)
        result }
{
    let mut text = ShortText::new();
    if text.add_parts(parts) {
        return put(text.bytes(), writer);
    }
    put_each(parts, writer)
}
