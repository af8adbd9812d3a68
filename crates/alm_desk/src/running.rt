//! The desk over a reader and a writer.

ghost use Rattle.std.specs.Prelude.{◌≡◌, ◌<◌, ◌∷◌, [], OnOk, OnErr, IfOk, Err, false, true, length};
ghost use Rattle.std.specs.Io.KnownBytes.{Consumes};
ghost use Rattle.alm_lines.specs.Stream.{is_end};
ghost use Rattle.alm_types.specs.Counts.{one_more};
ghost use Rattle.alm_desk.specs.DeskLines.{IsPrinted, IsCutDeskLine, BreaksOffLines, desk_line_of, lines_of};
ghost use Rattle.alm_desk.specs.Turns.{IsReaderTurn, IsBroken, RunEnds, RunPrints, TurnEnds};

use crate::backend::Backend;
use crate::counted_reader::CountedReader;
use crate::counted_writer::CountedWriter;
use crate::desk_line::answer_desk_line;
use crate::local_desk::LocalDesk;
use crate::read_outcome::ReadOutcome;
use crate::run_fault::RunFault;
use crate::write_failed::WriteFailed;
use alm_lines::HeldLine;
use std::io::{Read, Write};

/// How many bytes of a line count: one more than it may have without its LF.
const HELD: usize = 131;

/// Takes a byte, and answers the line that it ends.
fn answer_byte<B: Backend + Drop, W: Write + Drop>(
    desk: &mut LocalDesk<B>,
    held: &mut HeldLine<HELD>,
    byte: u8,
    writer: &mut CountedWriter<W>,
) -> Result<(), WriteFailed>
    requires { desk.old.closed ≡ false }
    ensures answered { OnOk result
        (IsPrinted desk.old.standing held.old (byte ∷ []) (W.contents writer.old.inner)
        desk.new.standing held.new (W.contents writer.new.inner)) }
    ensures open { OnOk result (desk.new.closed ≡ false) }
    ensures helds { desk.new.helds ≡ desk.old.helds }
    ensures whole { OnOk result (writer.new.failed ≡ writer.old.failed) }
    ensures cut { OnErr result
        ((is_end byte ≡ true) ×
        IsCutDeskLine desk.old.standing (desk_line_of held.old) (W.contents writer.old.inner)
        desk.new.standing (W.contents writer.new.inner)) }
    ensures failed { OnErr result (writer.new.failed ≡ one_more writer.old.failed) }
{
    if byte == b'\n' {
        answer_desk_line(desk, held.bytes(), writer)?;
        held.clear();
        return Ok(());
    }
    held.push(byte);
    Ok(())
}

/// Takes bytes, and answers each line that they end.
fn answer_bytes<B: Backend + Drop, W: Write + Drop>(
    desk: &mut LocalDesk<B>,
    held: &mut HeldLine<HELD>,
    bytes: &[u8],
    writer: &mut CountedWriter<W>,
) -> Result<(), WriteFailed>
    requires { desk.old.closed ≡ false }
    ensures answered { OnOk result
        (IsPrinted desk.old.standing held.old bytes.now (W.contents writer.old.inner)
        desk.new.standing held.new (W.contents writer.new.inner)) }
    ensures open { OnOk result (desk.new.closed ≡ false) }
    ensures helds { desk.new.helds ≡ desk.old.helds }
    ensures whole { OnOk result (writer.new.failed ≡ writer.old.failed) }
    ensures broken { OnErr result
        (BreaksOffLines desk.old.standing (lines_of held.old bytes.now)
        (W.contents writer.old.inner) desk.new.standing (W.contents writer.new.inner)) }
    ensures failed { OnErr result (writer.new.failed ≡ one_more writer.old.failed) }
{
    for byte in bytes {
        answer_byte(desk, held, *byte, writer)?;
    }
    Ok(())
}

/// Takes bytes, answers each line that they end, and flushes what was written.
fn answer_and_flush<B: Backend + Drop, W: Write + Drop>(
    desk: &mut LocalDesk<B>,
    held: &mut HeldLine<HELD>,
    bytes: &[u8],
    writer: &mut CountedWriter<W>,
) -> Result<(), WriteFailed>
    requires { desk.old.closed ≡ false }
    ensures answered { OnOk result
        (IsPrinted desk.old.standing held.old bytes.now (W.contents writer.old.inner)
        desk.new.standing held.new (W.contents writer.new.inner)) }
    ensures open { OnOk result (desk.new.closed ≡ false) }
    ensures helds { desk.new.helds ≡ desk.old.helds }
    ensures whole { OnOk result (writer.new.failed ≡ writer.old.failed) }
    ensures broken { OnErr result
        (BreaksOffLines desk.old.standing (lines_of held.old bytes.now)
        (W.contents writer.old.inner) desk.new.standing (W.contents writer.new.inner)) }
    ensures failed { OnErr result (writer.new.failed ≡ one_more writer.old.failed) }
{
    answer_bytes(desk, held, bytes, writer)?;
    writer.flush()
}

/// One read, and the answers to what it gave: whether the input may go on.
fn turn<R: Read + Drop, B: Backend + Drop, W: Write + Drop>(
    reader: &mut CountedReader<R>,
    desk: &mut LocalDesk<B>,
    held: &mut HeldLine<HELD>,
    piece: &mut [u8],
    writer: &mut CountedWriter<W>,
) -> Result<bool, RunFault>
    requires open { desk.old.closed ≡ false }
    requires room { 0 < length piece.old }
    ensures answered { IfOk result
        (λ more. IsReaderTurn more desk.old.standing held.old (R.remaining reader.old.inner)
        (W.contents writer.old.inner) desk.new.standing held.new (R.remaining reader.new.inner)
        (W.contents writer.new.inner)) }
    ensures ends { TurnEnds result desk.new reader.old reader.new writer.old writer.new }
    ensures helds { desk.new.helds ≡ desk.old.helds }
    ensures reads { reader.new.reads ≡ one_more reader.old.reads }
    ensures still { result ≡ Err RunFault.Read →
        (desk.new ≡ desk.old) × (writer.new ≡ writer.old) ×
        Consumes (R.remaining reader.old.inner) (R.remaining reader.new.inner) [] }
    ensures broken { result ≡ Err RunFault.Write →
        IsBroken desk.old.standing held.old (R.remaining reader.old.inner)
        (W.contents writer.old.inner) desk.new.standing (R.remaining reader.new.inner)
        (W.contents writer.new.inner) }
{
    match reader.take(piece) {
        ReadOutcome::End => Ok(false),
        ReadOutcome::Interrupted => Ok(true),
        ReadOutcome::Failed => Err(RunFault::Read),
        ReadOutcome::Bytes(count) => match answer_and_flush(desk, held, &piece[..count], writer) {
            Ok(()) => Ok(true),
            Err(_) => {
                desk.close();
                Err(RunFault::Write)
            }
        },
    }
}

/// Answers all that the reader gives, up to its end. `Read` if the reader fails, or gives no end in 2^32 reads: what it gave
/// before is answered. `Write` if the writer fails, which closes the desk, or if the desk was closed before.
pub fn desk_run<R: Read + Drop, B: Backend + Drop, W: Write + Drop>(
    reader: &mut CountedReader<R>,
    writer: &mut CountedWriter<W>,
    desk: &mut LocalDesk<B>,
) -> Result<(), RunFault>
    ensures prints { desk.old.closed ≡ false →
        RunPrints result desk.old.standing (R.remaining reader.old.inner)
        (W.contents writer.old.inner) desk.new.standing (R.remaining reader.new.inner)
        (W.contents writer.new.inner) }
    ensures ends { RunEnds result desk.old desk.new reader.old reader.new writer.old writer.new }
    ensures helds { desk.new.helds ≡ desk.old.helds }
    ensures still { desk.old.closed ≡ true →
        (result ≡ Err RunFault.Write) × (desk.new ≡ desk.old) × (reader.new ≡ reader.old) ×
        (writer.new ≡ writer.old) }
{
    if desk.is_closed() {
        return Err(RunFault::Write);
    }
    let mut piece = [0u8; 16384];
    let mut held = HeldLine::<HELD>::new();
    for _ in 0..1u64 << 32 {
        match turn(reader, desk, &mut held, &mut piece, writer) {
            Ok(true) => {}
            Ok(false) => return Ok(()),
            Err(fault) => return Err(fault),
        }
    }
    Err(RunFault::Read)
}
