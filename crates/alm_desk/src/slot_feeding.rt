//! The lines of one slot.

ghost use Rattle.std.specs.Prelude.{◌≡◌, OnOk, OnErr};
ghost use Rattle.alm_types.specs.Counts.{one_more};
ghost use Rattle.alm_desk.specs.Backends.{IsMomentOf};
ghost use Rattle.alm_desk.specs.Failing.{BreaksOff};
ghost use Rattle.alm_desk.specs.Feeding.{IsFedAt, lines_at};
ghost use Rattle.alm_desk.specs.Standings.{standing_with};

use crate::answering::answer_line;
use crate::backend::Backend;
use crate::counted_writer::CountedWriter;
use crate::notebook::Notebook;
use crate::write_failed::WriteFailed;
use alm_lines::Decoder;
use alm_types::Slot;
use std::io::Write;

/// Takes bytes at a slot, and answers each line that they end.
pub fn feed_slot<B: Backend, W: Write + Drop>(
    backend: &mut B,
    notebook: &mut Notebook,
    decoder: &mut Decoder,
    slot: Slot,
    piece: &[u8],
    writer: &mut CountedWriter<W>,
) -> Result<(), WriteFailed>
    requires { IsMomentOf (B.stands backend.old) notebook.old.moment }
    ensures fed { OnOk result
        (IsFedAt slot (standing_with B.Backend backend.old notebook.old) decoder.old piece.now
        (W.contents writer.old.inner) (standing_with B.Backend backend.new notebook.new) decoder.new
        (W.contents writer.new.inner)) }
    ensures moment { IsMomentOf (B.stands backend.new) notebook.new.moment }
    ensures whole { OnOk result (writer.new.failed ≡ writer.old.failed) }
    ensures broken { OnErr result
        (BreaksOff (standing_with B.Backend backend.old notebook.old)
        (lines_at slot decoder.old piece.now) (W.contents writer.old.inner)
        (standing_with B.Backend backend.new notebook.new) (W.contents writer.new.inner)) }
    ensures failed { OnErr result (writer.new.failed ≡ one_more writer.old.failed) }
{
    let mut rest = piece;
    while !rest.is_empty() {
        let (used, line) = decoder.feed(rest);
        rest = &rest[used..];
        if let Some(line) = line {
            let (_, told) = answer_line(backend, notebook, slot, line, writer);
            told?;
        }
    }
    Ok(())
}
