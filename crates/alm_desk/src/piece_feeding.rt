//! Pieces of the slots' streams.

ghost use Rattle.std.specs.Prelude.{◌≡◌, IfErr, OnOk, Err};
ghost use Rattle.alm_desk.specs.Desks.{IsFed, ClosesAfter, lines_among};
ghost use Rattle.alm_desk.specs.Failing.{BreaksOff};
ghost use Rattle.alm_desk.specs.Pieces.{tag_all};

use crate::backend::Backend;
use crate::counted_writer::CountedWriter;
use crate::desk_fault::DeskFault;
use crate::local_desk::LocalDesk;
use crate::piece::Piece;
use std::io::Write;

/// Feeds pieces of the slots' streams, one after the other. What is written depends on the bytes alone, in the order in which
/// they came, and not on how they were cut. `Write` if the writer fails: what was answered before stays, and a prefix of the
/// next reply may be written. `Closed` if the writer failed before.
pub fn feed_all<B: Backend + Drop, W: Write + Drop>(
    desk: &mut LocalDesk<B>,
    pieces: &[Piece<'_>],
    writer: &mut CountedWriter<W>,
) -> Result<(), DeskFault>
    ensures fed { OnOk result
        (IsFed desk.old (tag_all pieces.now) (W.contents writer.old.inner) desk.new
        (W.contents writer.new.inner)) }
    ensures whole { OnOk result (writer.new.failed ≡ writer.old.failed) }
    ensures fault { IfErr result
        (λ e. ClosesAfter e desk.old.closed desk.new.closed writer.old.failed writer.new.failed) }
    ensures broken { result ≡ Err DeskFault.Write →
        BreaksOff desk.old.standing (lines_among desk.old.helds (tag_all pieces.now))
        (W.contents writer.old.inner) desk.new.standing (W.contents writer.new.inner) }
    ensures closed { result ≡ Err DeskFault.Closed →
        (desk.new ≡ desk.old) × (writer.new ≡ writer.old) }
{
    if desk.is_closed() {
        return Err(DeskFault::Closed);
    }
    for piece in pieces {
        desk.feed(piece.slot, piece.bytes, writer)?;
    }
    Ok(())
}
