//! A writer that counts its failures.

ghost use Rattle.std.specs.Prelude.{◌≡◌, ◌++◌, OnOk, OnErr};
ghost use Rattle.std.specs.Io.KnownBytes.{Keeps};
ghost use Rattle.alm_types.specs.Counts.{one_more};
ghost use Rattle.alm_lines.specs.Parts.{text_of_parts};
ghost use Rattle.alm_lines.specs.Reply.{text_of, report_text};
ghost use Rattle.alm_types.specs.Reports.{report};
ghost use Rattle.alm_lines.specs.Written.{Prints};

use crate::write_failed::WriteFailed;
use alm_lines::{Part, Reply, print_reply, print_told, put_parts};
use alm_types::{Answer, Query};
use std::io::Write;

/// A writer, and how often it failed.
#[derive(Drop)]
pub struct CountedWriter<W: Drop> {
    inner: W,
    failed: u64,
}

impl<W: Write + Drop> CountedWriter<W> {
    pub fn new(inner: W) -> Self
        ensures inner { result.inner ≡ inner }
        ensures failed { result.failed ≡ 0 }
    {
        CountedWriter { inner, failed: 0 }
    }

    pub fn into_inner(self) -> W
        ensures { result ≡ self.inner }
    {
        let CountedWriter { inner, failed: _ } = self;
        inner
    }

    /// Writes words and numbers.
    pub fn parts(&mut self, parts: &[Part<'_>]) -> Result<(), WriteFailed>
        ensures bytes { Prints (W.contents self.old.inner) (W.contents self.new.inner)
            (text_of_parts parts.now) result }
        ensures whole { OnOk result (self.new.failed ≡ self.old.failed) }
        ensures failed { OnErr result (self.new.failed ≡ one_more self.old.failed) }
    {
        match put_parts(parts, &mut self.inner) {
            Ok(()) => Ok(()),
            Err(_) => {
                self.failed = self.failed.saturating_add(1);
                Err(WriteFailed)
            }
        }
    }

    /// Writes a reply.
    pub fn reply(&mut self, reply: &Reply<'_>) -> Result<(), WriteFailed>
        ensures bytes { Prints (W.contents self.old.inner) (W.contents self.new.inner)
            (text_of reply.now) result }
        ensures whole { OnOk result (self.new.failed ≡ self.old.failed) }
        ensures failed { OnErr result (self.new.failed ≡ one_more self.old.failed) }
    {
        match print_reply(reply, &mut self.inner) {
            Ok(()) => Ok(()),
            Err(_) => {
                self.failed = self.failed.saturating_add(1);
                Err(WriteFailed)
            }
        }
    }

    /// Writes what an answer reports, between words.
    pub fn told(
        &mut self,
        front: &[Part<'_>],
        query: Query,
        answer: &Answer,
        end: &str,
    ) -> Result<(), WriteFailed>
        ensures bytes { Prints (W.contents self.old.inner) (W.contents self.new.inner)
            (text_of_parts front.now ++ report_text (report query answer.now) ++ end.now) result }
        ensures whole { OnOk result (self.new.failed ≡ self.old.failed) }
        ensures failed { OnErr result (self.new.failed ≡ one_more self.old.failed) }
    {
        match print_told(front, query, answer, end, &mut self.inner) {
            Ok(()) => Ok(()),
            Err(_) => {
                self.failed = self.failed.saturating_add(1);
                Err(WriteFailed)
            }
        }
    }

    /// Flushes what is written.
    pub fn flush(&mut self) -> Result<(), WriteFailed>
        ensures bytes { Keeps (W.contents self.old.inner) (W.contents self.new.inner) }
        ensures whole { OnOk result (self.new.failed ≡ self.old.failed) }
        ensures failed { OnErr result (self.new.failed ≡ one_more self.old.failed) }
    {
        match self.inner.flush() {
            Ok(()) => Ok(()),
            Err(_) => {
                self.failed = self.failed.saturating_add(1);
                Err(WriteFailed)
            }
        }
    }
}
