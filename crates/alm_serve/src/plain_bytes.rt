//! The bytes of a connection that doesn't begin as a request of HTTP.

ghost use Rattle.std.specs.Prelude.{◌≡◌, ◌++◌, ◌⊎◌, [], length, true, false};
ghost use Rattle.alm_session.specs.declared.wire.ReadGave.TheVariants as gave;
ghost use Rattle.alm_serve.specs.Http.{begins_as_http};
ghost use Rattle.alm_serve.specs.Beginnings.{Saw};

use crate::first_bytes::FirstBytes;
use crate::transcript::Transcript;
use alm_session::ReadGave;

/// The bytes that reads give of a connection. By this type they don't begin as a request of HTTP. None is given from the read
/// on with which all that came does.
#[derive(Drop)]
pub struct PlainBytes {
    first: FirstBytes,
    /// All that came.
    pub came: Transcript,
    /// What was given of it.
    pub given: Transcript,
    ghost saw: { Saw came.bytes first.bytes.items first.line },
    pub ghost plain: { begins_as_http given.bytes ≡ false },
    ghost all: { begins_as_http came.bytes ≡ false → given.bytes ≡ came.bytes },
}

impl PlainBytes {
    /// Those of a connection on which nothing came.
    pub fn new() -> Self
        ensures came { result.came.bytes ≡ [] }
        ensures given { result.given.bytes ≡ [] }
    {
        PlainBytes {
            first: FirstBytes::new(),
            came: Transcript::new(),
            given: Transcript::new(),
        }
    }

    /// Takes what came next. What the read returns in which it came: the end, if all that came begins as a request of HTTP.
    pub fn give(&mut self, came: &[u8]) -> ReadGave
        ensures came { self.new.came.bytes ≡ self.old.came.bytes ++ came.now }
        ensures either { ((result ≡ gave.End) × (begins_as_http self.new.came.bytes ≡ true) ×
            (self.new.given ≡ self.old.given)) ⊎
            ((result ≡ gave.Got (length came.now)) × (begins_as_http self.new.came.bytes ≡ false) ×
            (self.new.given.bytes ≡ self.old.given.bytes ++ came.now)) }
    {
        let is_http = self.first.is_http_with(came);
        self.came.note(came);
        if is_http {
            return ReadGave::End;
        }
        self.given.note(came);
        ReadGave::Got(came.len())
    }
}
