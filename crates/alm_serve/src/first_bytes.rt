//! How a connection begins.

ghost use Rattle.std.specs.Prelude.{◌≡◌, ◌++◌, ◌-◌, List, ℕ, [], length, take};
ghost use Rattle.alm_serve.specs.Http.{begins_as_http, begins_with_method};
ghost use Rattle.alm_serve.specs.Beginnings.{Saw};

use crate::first_line::FirstLine;
use arrayvec::ArrayVec;

/// How many bytes hold the longest of those methods and the space after it.
const MOST: usize = 8;

/// Whether these bytes begin with a method of a browser's.
fn begins_with_method(bytes: &[u8]) -> bool
    ensures { result ≡ begins_with_method bytes.now }
{
    bytes.starts_with(b"GET ")
        | bytes.starts_with(b"HEAD ")
        | bytes.starts_with(b"POST ")
        | bytes.starts_with(b"PUT ")
        | bytes.starts_with(b"DELETE ")
        | bytes.starts_with(b"CONNECT ")
        | bytes.starts_with(b"OPTIONS ")
        | bytes.starts_with(b"TRACE ")
        | bytes.starts_with(b"PATCH ")
        | bytes.starts_with(b"PRI ")
}

/// By which first bytes a connection begins as a request of HTTP, or doesn't: the first eight, and those of its first line.
#[derive(Drop)]
pub struct FirstBytes {
    bytes: ArrayVec<u8, MOST>,
    line: FirstLine,
}

impl FirstBytes {
    /// Those of a connection on which nothing came.
    pub fn new() -> Self
        ensures { Saw [] result.bytes.items result.line }
    {
        FirstBytes {
            bytes: ArrayVec::new(),
            line: FirstLine::new(),
        }
    }

    /// Takes what came next into the room for the first eight.
    #[tactic(auto, using(crate::proofs::Taken::taken))]
    fn take_first(&mut self, came: &[u8])
        ensures bytes { self.new.bytes.items ≡
            self.old.bytes.items ++ take (8 - length self.old.bytes.items) came.now }
        ensures line { self.new.line ≡ self.old.line }
    {
        let count = self.bytes.remaining_capacity().min(came.len());
        match self.bytes.try_extend_from_slice(&came[..count]) {
            Ok(()) => {}
            Err(_) => unreachable!(),
        }
    }

    /// Takes what came next. Whether all that came begins as a request of HTTP.
    pub fn is_http_with(&mut self, came: &[u8]) -> bool
        ensures seen { (before : List ℕ) → Saw before self.old.bytes.items self.old.line →
            Saw (before ++ came.now) self.new.bytes.items self.new.line }
        ensures http { (before : List ℕ) → Saw before self.old.bytes.items self.old.line →
            result ≡ begins_as_http (before ++ came.now) }
    {
        self.take_first(came);
        self.line.take(came);
        let begins = begins_with_method(self.bytes.as_slice());
        begins | self.line.is_request()
    }
}
