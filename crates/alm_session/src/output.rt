//! Replies that aren't written yet.

ghost use Rattle.std.specs.Prelude.{◌≡◌, ◌+◌, ◌≤◌, ◌++◌, [], length, vec_len, vec_capacity, is_ok, decimal, codes, IfOk};
ghost use Rattle.alm_lines.specs.Reply.{ok_text, no_text};
ghost use Rattle.alm_session.specs.Outputs.{output_limit, reply_limit};

use crate::since::put_since;
use crate::told::put_told;
use crate::wire::{Wire, WriteTook};
use alm_events::Recalled;
use alm_types::{Answer, Event, Query, Refusal};
use std::alloc::{AllocError, Global};
use std::marker::Model;

/// The places of the buffer: the longest list of alarms fits.
const OUTPUT_ROOM: usize = 131_072;

/// Replies that aren't written yet.
#[derive(Drop)]
pub struct Output {
    text: Vec<u8>,
    written: usize,
}

impl Model for Output {
    ghost use Rattle.std.specs.Prelude.{◌≤◌, drop, vec_len, vec_capacity};
    ghost use Rattle.alm_session.specs.Outputs.{Unwritten, output_limit};

    ghost Value = { Unwritten };

    ghost view = { λ o. record { left = drop o.written o.text.items; used = vec_len o.text } };

    ghost invariant = { λ o. (o.written ≤ vec_len o.text) × (output_limit ≤ vec_capacity o.text) };
}

/// What became of a write.
#[derive(Clone, Copy, Debug, PartialEq, Eq)]
pub enum Sent {
    Nothing,
    Some,
    Blocked,
    Failed,
}

/// Appends bytes, for which there must be room.
fn put(text: &mut Vec<u8>, bytes: &[u8])
    requires { vec_len text.old + length bytes.now ≤ vec_capacity text.old }
    ensures items { text.new.items ≡ text.old.items ++ bytes.now }
    ensures len { vec_len text.new ≡ vec_len text.old + length bytes.now }
    ensures room { vec_capacity text.old ≤ vec_capacity text.new }
{
    match text.extend_from_slice(bytes) {
        Ok(()) => {}
        Err(_) => unreachable!(),
    }
}

/// Appends an id, a word and a number, for which there must be room for 64 bytes.
fn put_line(text: &mut Vec<u8>, id: u32, word: &str, number: u64)
    requires word { length word.now ≡ 4 }
    requires room { vec_len text.old + reply_limit ≤ vec_capacity text.old }
    ensures items { text.new.items ≡
        text.old.items ++ decimal id ++ word.now ++ decimal number ++ codes "\n" }
    ensures len { vec_len text.new ≤ vec_len text.old + reply_limit }
    ensures kept { vec_capacity text.old ≤ vec_capacity text.new }
{
    put(text, itoa::Buffer::new().format(id).as_bytes());
    put(text, word.as_bytes());
    put(text, itoa::Buffer::new().format(number).as_bytes());
    put(text, b"\n");
}

impl Output {
    ghost use Rattle.std.specs.Prelude.{◌≡◌, ◌+◌, ◌≤◌, ◌<◌, ◌++◌, [], length, IfOk, drop};
    ghost use Rattle.alm_events.specs.Events.{most_told};
    ghost use Rattle.alm_lines.specs.Reply.{ok_text, no_text, told_text};
    ghost use Rattle.alm_lines.specs.Since.{recalled_text};
    ghost use Rattle.alm_types.specs.Reports.{report};
    ghost use Rattle.std.specs.Prelude.{true, false};
    ghost use Rattle.alm_session.specs.Outputs.{Unwritten};
    ghost use Rattle.alm_session.specs.Wires.{WritesPrefix, SentCounts};

    /// A buffer without bytes to write.
    pub fn new(alloc: Global) -> Result<Self, AllocError>
        ensures { IfOk result (λ o. o ≡ record { left = []; used = 0 }) }
    {
        Ok(Output {
            text: Vec::with_capacity(alloc, OUTPUT_ROOM)?,
            written: 0,
        })
    }

    /// Drops all bytes that are to be written.
    pub fn clear(&mut self)
        ensures { self.new ≡ record { left = []; used = 0 } }
    {
        self.text.clear();
        self.written = 0;
    }

    /// Prints that an action was accepted.
    pub fn ok(&mut self, id: u32, number: u64)
        requires { self.old.used + reply_limit ≤ output_limit }
        ensures text { self.new.left ≡ self.old.left ++ ok_text id number }
        ensures used { self.new.used ≤ self.old.used + reply_limit }
    {
        put_line(&mut self.text, id, " OK ", number);
    }

    /// Prints a refusal.
    pub fn no(&mut self, id: u32, refusal: Refusal)
        requires { self.old.used + reply_limit ≤ output_limit }
        ensures text { self.new.left ≡ self.old.left ++ no_text id refusal }
        ensures used { self.new.used ≤ self.old.used + reply_limit }
    {
        put_line(&mut self.text, id, " NO ", u64::from(refusal.number()));
    }

    /// Prints the answer to a query, if no byte is to be written. False, and no byte is printed, if it doesn't fit.
    pub fn told(&mut self, id: u32, n: u64, query: Query, answer: &Answer) -> bool
        requires { self.old.used ≡ 0 }
        ensures text { result ≡ true →
            self.new.left ≡ told_text id n query (report query answer.now) }
        ensures unprinted { result ≡ false →
            (self.new.left ≡ []) × (self.new.used ≡ 0) ×
            (output_limit < length (told_text id n query (report query answer.now))) }
        ensures used { self.new.used ≤ output_limit }
    {
        let printed = put_told(&mut self.text, id, n, query, answer).is_ok();
        self.written = 0;
        if printed && self.text.len() <= OUTPUT_ROOM {
            return true;
        }
        self.text.clear();
        false
    }

    /// Prints what happened, if no byte is to be written.
    pub fn since(&mut self, id: u32, told: Recalled, events: &[Event])
        requires empty { self.old.used ≡ 0 }
        requires few { length events.now ≤ most_told }
        ensures text { self.new.left ≡ recalled_text id told.count told.first events.now }
        ensures used { self.new.used ≤ output_limit }
    {
        put_since(&mut self.text, id, told, events);
        self.written = 0;
    }

    /// Writes once, if there are bytes to write.
    pub fn write<W: Wire>(&mut self, wire: &mut W) -> Sent
        ensures sends { WritesPrefix result self.old self.new (W.written wire.old)
            (W.written wire.new) }
        ensures counts { SentCounts result (W.counts wire.old) (W.counts wire.new) }
        ensures input { W.input wire.new ≡ W.input wire.old }
    {
        if self.written == self.text.len() {
            self.text.clear();
            self.written = 0;
            return Sent::Nothing;
        }
        match wire.write(&self.text[self.written..]) {
            WriteTook::Wrote(count) => {
                self.written += count;
                Sent::Some
            }
            WriteTook::Blocked => Sent::Blocked,
            WriteTook::Failed => Sent::Failed,
        }
    }
}
