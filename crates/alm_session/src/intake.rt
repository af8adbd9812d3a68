//! What comes in.

ghost use Rattle.std.specs.Prelude.{◌≡◌, ◌+◌, ◌≤◌, length, take, drop, option_map};
ghost use Rattle.alm_lines.specs.Stream.{held_behind, bytes_used, line_ended};
ghost use Rattle.alm_lines.specs.Line.{line_of};
ghost use Rattle.alm_session.specs.Intakes.{piece_len};

use crate::wire::{ReadGave, Wire};
use alm_lines::{Decoder, Line};
use std::marker::Model;

/// How many bytes one read takes at most.
const PIECE: usize = 4096;

/// What has come of a stream and isn't taken up.
#[derive(Drop)]
pub struct Intake {
    decoder: Decoder,
    bytes: [u8; PIECE],
    at: usize,
    end: usize,
    line: Option<Line>,
}

impl Model for Intake {
    ghost use Rattle.std.specs.Prelude.{◌≤◌, take, drop};
    ghost use Rattle.alm_session.specs.Intakes.{Untaken, piece_len};

    ghost Value = { Untaken };

    ghost view = { λ i.
        record { line = i.line; held = i.decoder; rest = drop i.at (take i.end i.bytes) } };

    ghost invariant = { λ i. (i.at ≤ i.end) × (i.end ≤ piece_len) };
}

/// Feeds a part of the bytes, up to the first line end.
fn feed_from(decoder: &mut Decoder, bytes: &[u8], at: usize, end: usize) -> (usize, Option<Line>)
    requires order { at ≤ end }
    requires within { end ≤ length bytes.now }
    ensures within { at + result.0 ≤ end }
    ensures used { result.0 ≡ bytes_used (drop at (take end bytes.now)) }
    ensures line { result.1 ≡
        option_map line_of (line_ended decoder.old (drop at (take end bytes.now))) }
    ensures held { decoder.new ≡ held_behind decoder.old (take result.0 (drop at (take end bytes.now))) }
{
    let (piece, _) = bytes.split_at(end);
    decoder.feed(&piece[at..])
}

impl Intake {
    ghost use Rattle.std.specs.Prelude.{◌≡◌, [], None, length, take};
    ghost use Rattle.alm_session.specs.Intakes.{Untaken, lines_in, open_in};
    ghost use Rattle.alm_session.specs.Wires.{ReadCounts, ReadGives};

    /// Nothing has come.
    pub fn new() -> Self
        ensures { result ≡ record { line = None; held = []; rest = [] } }
    {
        Intake {
            decoder: Decoder::new(),
            bytes: [0; PIECE],
            at: 0,
            end: 0,
            line: None,
        }
    }

    /// The whole line that came first, if there is one.
    pub fn line(&mut self) -> Option<Line>
        ensures line { result ≡ self.new.line }
        ensures lines { lines_in self.new ≡ lines_in self.old }
        ensures open { open_in self.new ≡ open_in self.old }
        ensures none { result ≡ None → self.new.rest ≡ [] }
    {
        if self.line.is_some() {
            return self.line;
        }
        let (used, line) = feed_from(&mut self.decoder, &self.bytes, self.at, self.end);
        self.at += used;
        self.line = line;
        self.line
    }

    /// The line is taken.
    pub fn pass(&mut self)
        ensures { self.new ≡ record self.old { line = None } }
    {
        self.line = None;
    }

    /// Reads once, if no byte is left to take up.
    pub fn read<W: Wire>(&mut self, wire: &mut W) -> ReadGave
        requires { self.old.rest ≡ [] }
        ensures counts { ReadCounts result piece_len (W.counts wire.old) (W.counts wire.new) }
        ensures bytes { ReadGives result self.old self.new (W.input wire.old) (W.input wire.new) }
        ensures written { W.written wire.new ≡ W.written wire.old }
    {
        let gave = wire.read(&mut self.bytes);
        self.at = 0;
        self.end = match gave {
            ReadGave::Got(count) => count,
            _ => 0,
        };
        gave
    }
}
