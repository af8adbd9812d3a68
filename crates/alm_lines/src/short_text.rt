//! Short texts, assembled before they are written.

ghost use Rattle.std.specs.Prelude.{◌≡◌, ◌++◌, [], true, false};
ghost use Rattle.alm_lines.specs.Parts.{part_text, text_of_parts};

use crate::part::Part;
use std::io::{self, ErrorKind};
use std::marker::Model;

/// The most bytes of a short text: each reply without a list fits, and short lists do.
const ROOM: usize = 128;

/// A text of at most `ROOM` bytes.
#[derive(Drop)]
pub struct ShortText {
    bytes: [u8; ROOM],
    len: usize,
}

impl Model for ShortText {
    ghost use Rattle.std.specs.Prelude.{ℕ, List, take, ◌≤◌};

    ghost Value = { List ℕ };

    ghost view = { λ t. take t.len t.bytes };

    ghost invariant = { λ t. t.len ≤ 128 };
}

impl ShortText {
    pub fn new() -> Self
        ensures { result ≡ [] }
    {
        ShortText {
            bytes: [0; ROOM],
            len: 0,
        }
    }

    /// Appends bytes: whether they fit. If they don't, none is added.
    fn add(&mut self, bytes: &[u8]) -> bool
        ensures added { result ≡ true → self.new ≡ self.old ++ bytes.now }
        ensures same { result ≡ false → self.new ≡ self.old }
    {
        if ROOM - self.len < bytes.len() {
            return false;
        }
        let end = self.len + bytes.len();
        self.bytes[self.len..end].copy_from_slice(bytes);
        self.len = end;
        true
    }

    /// Adds a part: whether it fits.
    fn add_part(&mut self, part: Part<'_>) -> bool
        ensures { result ≡ true → self.new ≡ self.old ++ part_text part.entry }
    {
        match part {
            Part::Word(word) => self.add(word.as_bytes()),
            Part::Bytes(bytes) => self.add(bytes),
            Part::Number(number) => self.add(itoa::Buffer::new().format(number).as_bytes()),
            Part::Signed(number) => self.add(itoa::Buffer::new().format(number).as_bytes()),
        }
    }

    /// Adds parts, one after the other: whether they all fit.
    pub fn add_parts(&mut self, parts: &[Part<'_>]) -> bool
        ensures { result ≡ true → self.new ≡ self.old ++ text_of_parts parts.now }
    {
        for part in parts {
            if !self.add_part(*part) {
                return false;
            }
        }
        true
    }

    pub fn bytes(&self) -> &[u8]
        ensures { result.now ≡ self.now }
    {
        &self.bytes[..self.len]
    }
}

/// It takes bytes if all fit, and else fails.
impl io::Write for ShortText {
    ghost use Rattle.std.specs.Prelude.{Some};

    ghost contents = { λ text. Some text };

    fn write(&mut self, bytes: &[u8]) -> io::Result<usize> {
        if self.add(bytes) {
            return Ok(bytes.len());
        }
        Err(io::Error::from(ErrorKind::WriteZero))
    }

    fn flush(&mut self) -> io::Result<()> {
        Ok(())
    }
}
