//! Bytes to a writer.

ghost use Rattle.std.specs.Io.{WritesAtMost};
ghost use Rattle.std.specs.Io.KnownBytes.{WriteAppends};
ghost use Rattle.alm_lines.specs.Written.{Prints};

use std::io::{self, ErrorKind};

/// How often a writer is called for one piece of text: one that is interrupted forever has failed.
const CALLS: u64 = 1 << 32;

/// Writes some of the bytes: how many the writer took, 0 if it was interrupted.
fn put_some<W: io::Write>(bytes: &[u8], writer: &mut W) -> io::Result<usize>
    ensures bound { WritesAtMost result bytes.now }
    ensures bytes { WriteAppends (W.contents writer.old) (W.contents writer.new) result bytes.now }
{
    match writer.write(bytes) {
        Ok(0) => Err(io::Error::from(ErrorKind::WriteZero)),
        Err(error) if error.kind() == ErrorKind::Interrupted => Ok(0),
        result => result,
    }
}

/// Writes bytes, in as many calls as the writer needs. If it fails, a prefix of them is written.
pub fn put<W: io::Write>(bytes: &[u8], writer: &mut W) -> io::Result<()>
    ensures { Prints (W.contents writer.old) (W.contents writer.new) bytes.now result }
{
    let mut rest = bytes;
    for _ in 0..CALLS {
        if rest.is_empty() {
            return Ok(());
        }
        let count = put_some(rest, writer)?;
        rest = &rest[count..];
    }
    Err(io::Error::from(ErrorKind::TimedOut))
}
