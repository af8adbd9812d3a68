//! A desk that answers each line of 18 slots before the next.

ghost use Rattle.std.specs.Prelude.{◌≡◌, IfOk, IfErr, OnOk, [], replicate, false};
ghost use Rattle.alm_types.specs.Sizes.{slot_count};
ghost use Rattle.alm_desk.specs.Backends.{IsMomentOf};

use crate::answering::answer_line;
use crate::backend::Backend;
use crate::counted_writer::CountedWriter;
use crate::desk_fault::DeskFault;
use crate::hindrance::Hindrance;
use crate::notebook::Notebook;
use crate::slot_feeding::feed_slot;
use alm_lines::{Decoder, line_of};
use alm_types::{Answer, Moment, Query, SLOTS, Slot};
use std::alloc::{AllocError, Global};
use std::io::Write;
use std::marker::Model;

/// A desk over a backend.
#[derive(Drop)]
pub struct LocalDesk<B: Backend + Drop> {
    backend: B,
    decoders: Vec<Decoder>,
    notebook: Notebook,
    closed: bool,
}

impl<B: Backend + Drop> Model for LocalDesk<B> {
    ghost use Rattle.std.specs.Prelude.{◌≡◌, length};
    ghost use Rattle.alm_desk.specs.Answers.{standing_of};
    ghost use Rattle.alm_desk.specs.Backends.{IsMomentOf};
    ghost use Rattle.alm_desk.specs.Desks.{Desk};
    ghost use Rattle.alm_types.specs.Sizes.{slot_count};

    ghost Value = { Desk };

    ghost view = { λ d. record {
      standing = standing_of (B.stands d.backend) (B.kept d.backend) (B.failures d.backend) d.notebook.answer.refused d.notebook.recent;
      helds = d.decoders.items;
      closed = d.closed;
    } };

    ghost invariant = { λ d.
        (length d.decoders.items ≡ slot_count) ×
        IsMomentOf (B.stands d.backend) d.notebook.moment };
}

/// Decoders that hold nothing.
fn no_lines(alloc: Global) -> Result<Vec<Decoder>, AllocError>
    ensures { IfOk result (λ decoders. decoders.items ≡ replicate slot_count []) }
{
    let mut decoders = Vec::with_capacity(alloc, SLOTS)?;
    for _slot in 0..18_usize {
        decoders.push(Decoder::new())?;
    }
    Ok(decoders)
}

/// The moment of a backend's plant, or any once its storage has stopped. A plant's moment is below 2^40; for another the desk
/// isn't made.
fn moment_of<B: Backend>(backend: &mut B, answer: &mut Answer) -> Result<Moment, AllocError>
    ensures moment { IfOk result (λ moment. IsMomentOf (B.stands backend.new) moment) }
    ensures same { (B.stands backend.new ≡ B.stands backend.old) ×
        (B.kept backend.new ≡ B.kept backend.old) × (B.failures backend.new ≡ B.failures backend.old) }
    ensures refused { answer.new.refused ≡ answer.old.refused }
{
    match backend.ask(Query::Plant, answer) {
        Ok(_) => Moment::new(answer.moment).ok_or(AllocError),
        Err(_) => Ok(Moment::start()),
    }
}

impl<B: Backend + Drop> LocalDesk<B> {
    ghost use Rattle.std.specs.Prelude.{◌≡◌, OnOk, IfErr, IfOk, Err, is_none, false, true, [], replicate};
    ghost use Rattle.std.specs.Io.KnownBytes.{Appends};
    ghost use Rattle.alm_lines.specs.Line.{line_of};
    ghost use Rattle.alm_desk.specs.Answers.{reply, after_line, answered_at};
    ghost use Rattle.alm_desk.specs.Desks.{IsFed, ClosesAfter, bytes_of_slot, lines_among};
    ghost use Rattle.alm_desk.specs.Failing.{BreaksOff, IsCutLine};
    ghost use Rattle.alm_desk.specs.Standings.{first_standing};

    /// A desk at which nothing has happened. It takes the room for what it will remember; an error means that memory ran out.
    pub fn new(alloc: Global, backend: B) -> Result<Self, AllocError>
        ensures { IfOk result
            (λ desk. desk ≡
            record {
              standing = first_standing B.Backend backend;
              helds = replicate slot_count [];
              closed = false;
            }) }
    {
        let mut backend = backend;
        let mut answer = Answer::new(alloc);
        let moment = moment_of(&mut backend, &mut answer)?;
        Ok(LocalDesk {
            backend,
            decoders: no_lines(alloc)?,
            notebook: Notebook::new(alloc, moment, answer)?,
            closed: false,
        })
    }

    /// Whether the storage has stopped.
    pub fn stopped(&self) -> bool
        ensures { result ≡ is_none self.now.standing.plant }
    {
        self.backend.is_stopped()
    }

    /// How often the storage has failed, up to 2^64 - 1: it stops only if it fails.
    pub fn failures(&self) -> u64
        ensures { result ≡ self.now.standing.failures }
    {
        self.backend.failures()
    }

    /// Whether a writer has failed: nothing is answered from then on.
    pub fn is_closed(&self) -> bool
        ensures { result ≡ self.now.closed }
    {
        self.closed
    }

    /// The backend that the desk runs over.
    pub fn backend(&self) -> &B
        ensures stands { B.stands result.now ≡ self.now.standing.plant }
        ensures kept { B.kept result.now ≡ self.now.standing.kept }
        ensures failures { B.failures result.now ≡ self.now.standing.failures }
    {
        &self.backend
    }

    /// The backend alone.
    pub fn into_backend(self) -> B
        ensures stands { B.stands result ≡ self.standing.plant }
        ensures kept { B.kept result ≡ self.standing.kept }
        ensures failures { B.failures result ≡ self.standing.failures }
    {
        let LocalDesk {
            backend,
            decoders: _,
            notebook: _,
            closed: _,
        } = self;
        backend
    }

    /// Closes the desk, after something else that was written to the same writer failed.
    pub fn close(&mut self)
        ensures { self.new ≡ record self.old { closed = true } }
    {
        self.closed = true;
    }

    /// Takes bytes at a slot, and answers each line that they end before the next.
    pub fn feed<W: Write + Drop>(
        &mut self,
        slot: Slot,
        piece: &[u8],
        writer: &mut CountedWriter<W>,
    ) -> Result<(), DeskFault>
        ensures fed { OnOk result
            (IsFed self.old (bytes_of_slot slot piece.now) (W.contents writer.old.inner) self.new
            (W.contents writer.new.inner)) }
        ensures whole { OnOk result (writer.new.failed ≡ writer.old.failed) }
        ensures fault { IfErr result
            (λ e.
            ClosesAfter e self.old.closed self.new.closed writer.old.failed writer.new.failed) }
        ensures broken { result ≡ Err DeskFault.Write →
            BreaksOff self.old.standing (lines_among self.old.helds (bytes_of_slot slot piece.now))
            (W.contents writer.old.inner) self.new.standing (W.contents writer.new.inner) }
        ensures closed { result ≡ Err DeskFault.Closed →
            (self.new ≡ self.old) × (writer.new ≡ writer.old) }
    {
        if self.closed {
            return Err(DeskFault::Closed);
        }
        let decoder = &mut self.decoders[slot.number() as usize];
        match feed_slot(
            &mut self.backend,
            &mut self.notebook,
            decoder,
            slot,
            piece,
            writer,
        ) {
            Ok(()) => Ok(()),
            Err(_) => {
                self.closed = true;
                Err(DeskFault::Write)
            }
        }
    }

    /// Answers a whole line at a slot, whatever is held there, and returns what hindered it.
    pub fn answer<W: Write + Drop>(
        &mut self,
        slot: Slot,
        line: &[u8],
        writer: &mut CountedWriter<W>,
    ) -> Result<Hindrance, DeskFault>
        ensures text { IfOk result
            (λ hindrance. Appends (W.contents writer.old.inner) (W.contents writer.new.inner)
            (reply self.old.standing (answered_at slot (line_of line.now) hindrance))) }
        ensures standing { IfOk result (λ hindrance. self.new ≡ record self.old {
          standing = after_line self.old.standing (answered_at slot
              (line_of line.now) hindrance);
        }) }
        ensures open { OnOk result (self.old.closed ≡ false) }
        ensures whole { OnOk result (writer.new.failed ≡ writer.old.failed) }
        ensures fault { IfErr result
            (λ e.
            ClosesAfter e self.old.closed self.new.closed writer.old.failed writer.new.failed) }
        ensures helds { self.new.helds ≡ self.old.helds }
        ensures cut { result ≡ Err DeskFault.Write →
            IsCutLine self.old.standing (record { slot = slot; line = line_of line.now })
            (W.contents writer.old.inner) self.new.standing (W.contents writer.new.inner) }
        ensures closed { result ≡ Err DeskFault.Closed →
            (self.new ≡ self.old) × (writer.new ≡ writer.old) }
    {
        if self.closed {
            return Err(DeskFault::Closed);
        }
        let line = line_of(line);
        let (hindrance, told) = answer_line(
            &mut self.backend,
            &mut self.notebook,
            slot,
            line,
            writer,
        );
        match told {
            Ok(()) => Ok(hindrance),
            Err(_) => {
                self.closed = true;
                Err(DeskFault::Write)
            }
        }
    }
}
