//! The lines of a stream that comes in pieces.

ghost use Rattle.std.specs.Prelude.{◌≡◌, ℕ, ◌+◌, ◌≤◌, ◌<◌, ◌++◌, List, [], ◌∷◌, length, take, Option, Some, None, option_map};
ghost use Rattle.alm_lines.specs.Stream.{held_behind, bytes_used, line_ended};
ghost use Rattle.alm_lines.specs.Line.{line_of};

use crate::grammar::line_of;
use crate::held_line::HeldLine;
use crate::line::Line;
use std::marker::Model;

/// The bytes of the next line so far, at most 128: one more than it may have without its LF.
#[derive(Drop)]
pub struct Decoder {
    held: HeldLine<128>,
}

impl Model for Decoder {
    ghost use Rattle.std.specs.Prelude.{ℕ, List};

    ghost Value = { List ℕ };

    ghost view = { λ d. d.held };
}

impl Decoder {
    pub fn new() -> Self
        ensures { result ≡ [] }
    {
        Decoder {
            held: HeldLine::new(),
        }
    }

    /// Adds a byte of the line, as far as it counts.
    fn push(&mut self, byte: u8)
        ensures { self.new ≡ take 128 (self.old ++ byte ∷ []) }
    {
        self.held.push(byte);
    }

    /// The line that is held, which has ended.
    fn end(&mut self) -> Line
        ensures line { result ≡ line_of self.old }
        ensures empty { self.new ≡ [] }
    {
        let line = line_of(self.held.bytes());
        self.held.clear();
        line
    }

    /// Takes bytes up to the end of the first line, inclusive: how many it took, and the line if it has ended.
    pub fn feed(&mut self, piece: &[u8]) -> (usize, Option<Line>)
        ensures within { result.0 ≤ length piece.now }
        ensures progress { 0 < length piece.now → 0 < result.0 }
        ensures used { result.0 ≡ bytes_used piece.now }
        ensures line { result.1 ≡ option_map line_of (line_ended self.old piece.now) }
        ensures held { self.new ≡ held_behind self.old (take result.0 piece.now) }
    {
        for (i, byte) in piece.iter().enumerate() {
            if *byte == b'\n' {
                return (i + 1, Some(self.end()));
            }
            self.push(*byte);
        }
        (piece.len(), None)
    }
}
