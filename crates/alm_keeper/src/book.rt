//! What a keeper knows of its device, and what it has begun.

ghost use Rattle.std.specs.Prelude.{◌≡◌, ◌≤◌, ◌<◌, ◌+◌, ◌*◌, ◌-◌, ◌↔◌, IsTrue, length, take, drop, [], true, false};
ghost use Rattle.alm_keeper.specs.Stages.{IsWorking, first_stage, turn_stage};
ghost use Rattle.alm_checkpoint.specs.Headers.{is_summed};
ghost use Rattle.alm_checkpoint.specs.Layouts.{half_at, half_len};
ghost use Rattle.alm_segment.specs.Course.{frame_len};
ghost use Rattle.alm_model.specs.Judging.{accepted_of};
ghost use Rattle.alm_keeper.specs.Batch.{accepted_asked};
ghost use Rattle.alm_keeper.specs.Stand.{IsAlone, other_at, end_of_half, FitsFrame, TakesFrame, saying, with_commit};
ghost use Rattle.alm_keeper.specs.declared.stage.Stage.{Stage};
ghost use Rattle.alm_keeper.specs.declared.stage.Work.{Work};
ghost use Rattle.alm_keeper.specs.Stages.{phase_of};
ghost use Rattle.alm_keeper.specs.Keeper.{begin_answer, checkpoint_answer};
ghost use Rattle.alm_keeper.specs.Keeping.{account, run_in, piece_of, InOrder, Begins, Copies, ClosesBook, TurnsBook, Finishes, sent_by, IsBookAfter};
ghost use Rattle.alm_types.specs.Sizes.{most_entries};

use crate::bearing::bears_all;
use crate::frame::{append_frame, write_frame};
use crate::half_text::write_half;
use crate::stage::{Stage, Work, phase_of};
use crate::trying::{apply_asked, try_all};
use alm_checkpoint::{HEAD_LEN, HEADER_LEN, Half, Layout};
use alm_codec::{Asked, Version};
use alm_model::{Alarms, accepted_in};
use alm_plant::Plant;
use alm_store::{Phase, Progress, Refused};
use alm_types::Batch;

/// The longest piece of a run.
const MOST: usize = 65_536;

/// What a keeper knows and has begun. Its room was taken when the device was opened.
#[derive(Drop)]
pub struct Book {
    pub stage: Stage,
    pub work: Work,
    pub layout: Layout,
    /// The half that stands.
    pub half: Half,
    /// The other half's gate reads open.
    pub other_open: bool,
    /// The version of the half that stands, and its epoch.
    pub version: Version,
    pub epoch: u64,
    /// The place of the first closed gate of the half that stands.
    pub gate: u64,
    pub stored: Plant,
    /// The plant with the actions that are begun.
    pub ahead: Plant,
    /// The actions that are begun, each with who asked, as the half says it.
    pub actions: Vec<Asked>,
    /// The body of a frame.
    pub frame: Vec<u8>,
    /// A checkpoint is open.
    pub copying: bool,
    /// Its run: the head of a half without the gate, the image, the frames committed since, and a closed gate.
    pub buffer: Vec<u8>,
    /// How long the run is.
    pub run: usize,
    /// How many bytes of it went out.
    pub out: usize,
    /// How many bytes of runs went out since the last commit's end or mark.
    pub written: u64,
}

/// The first call of a checkpoint closes the other half's gate, if it reads open.
fn first_stage(other_open: bool) -> Stage
    ensures { result ≡ first_stage other_open }
{
    if other_open {
        Stage::Close
    } else {
        Stage::Body
    }
}

/// Whether a version has checksums. A checkpoint then shuts the half that stood.
fn is_summed(version: Version) -> bool
    ensures { result ≡ is_summed version }
{
    matches!(version, Version::V03)
}

/// The call after the write of a checkpoint's gate.
fn turn_stage(version: Version) -> Stage
    ensures { result ≡ turn_stage (is_summed version) }
{
    if is_summed(version) {
        Stage::TurnSync
    } else {
        Stage::GateSync
    }
}

impl Book {
    /// The place of the gate of the half that stands.
    pub fn own_at(&self) -> u64
        ensures { result ≡ half_at self.now.layout self.now.half }
    {
        self.layout.half_at(self.half)
    }

    /// The place of the gate of the other half.
    pub fn other_at(&self) -> u64
        ensures { result ≡ other_at (account self.now) }
    {
        // for the proof: each field of the layout is within its type
        let Layout {
            rows: _rows,
            areas: _areas,
            segment: _segment,
            version: _version,
        } = self.layout;
        match self.half {
            Half::First => HEADER_LEN as u64 + self.layout.half_len() as u64,
            Half::Second => HEADER_LEN as u64,
        }
    }

    /// The end of the half that stands.
    pub fn end(&self) -> u64
        ensures { result ≡ end_of_half (account self.now) }
    {
        // for the proof: each field of the layout is within its type
        let Layout {
            rows: _rows,
            areas: _areas,
            segment: _segment,
            version: _version,
        } = self.layout;
        match self.half {
            Half::First => HEADER_LEN as u64 + self.layout.half_len() as u64,
            Half::Second => {
                HEADER_LEN as u64 + self.layout.half_len() as u64 + self.layout.half_len() as u64
            }
        }
    }

    /// How much of the segment is used: the place of its first closed gate.
    pub fn used(&self) -> u64
        requires { InOrder self.now }
        ensures { result + (end_of_half (account self.now) - self.now.gate) ≡
            self.now.layout.segment }
    {
        self.gate - self.layout.segment_at(self.half)
    }

    /// How long the body of the frame is.
    pub fn frame_len(&self) -> usize
        requires { length self.now.actions.items ≤ most_entries }
        ensures { result ≡ 19 + 16 * length self.now.actions.items }
    {
        19 + 16 * self.actions.len()
    }

    /// Begins a commit, without a device call.
    pub fn begin(&mut self, batch: &Batch) -> Result<(), Refused>
        requires some { 1 ≤ length (accepted_of batch.now.entries) }
        requires takes { TakesFrame (account self.old) (accepted_of batch.now.entries) }
        requires in_order { InOrder self.old }
        ensures answer { result ≡
            begin_answer (phase_of self.old.stage self.old.work) self.old.stored batch.now }
        ensures begins { Begins result (accepted_asked self.old.version batch.now.entries) self.old self.new }
        ensures in_order { InOrder self.new }
    {
        match phase_of(self.stage, self.work) {
            Phase::Idle | Phase::Paused => {}
            Phase::Stopped => return Err(Refused::Stopped),
            Phase::Committing | Phase::Copying => return Err(Refused::Working),
        }
        if batch.first() != self.stored.count() + 1 {
            return Err(Refused::Gap);
        }
        self.actions.clear();
        if let Some(place) = try_all(
            &mut self.ahead,
            batch.entries(),
            &mut self.actions,
            self.version,
        ) {
            self.actions.clear();
            self.work = Work::Commit;
            self.stage = Stage::Stopped;
            return Err(Refused::NotAccepted(place));
        }
        write_frame(
            self.version,
            self.epoch,
            self.stored.count() + 1,
            &self.actions,
            &mut self.frame,
        );
        self.stage = Stage::Body;
        self.work = Work::Commit;
        Ok(())
    }

    /// The actions of the commit are stored.
    fn store(&mut self)
        requires working { IsWorking self.old.stage }
        requires commit { self.old.work ≡ Work.Commit }
        requires in_order { InOrder self.old }
        ensures account { account self.new ≡
            saying [] (with_commit (account self.old) self.old.actions.items) }
        ensures same { self.new ≡
            record self.old { gate = self.new.gate; stored = self.new.stored; written = 0 } }
    {
        self.gate += self.frame_len() as u64;
        apply_asked(&mut self.stored, &self.actions);
        self.written = 0;
    }

    /// The frame after the gate is stored.
    fn close(&mut self)
        requires commit { self.old.work ≡ Work.Commit }
        requires last { self.old.stage ≡ Stage.GateSync }
        requires copying { self.old.copying ≡ false }
        requires in_order { InOrder self.old }
        ensures closes { ClosesBook self.old self.new }
        ensures in_order { InOrder self.new }
    {
        self.store();
        self.stage = Stage::Idle;
    }

    /// The same if a checkpoint is open, which waits for its next piece.
    fn resume(&mut self)
        requires commit { self.old.work ≡ Work.Commit }
        requires last { self.old.stage ≡ Stage.GateSync }
        requires copying { self.old.copying ≡ true }
        requires in_order { InOrder self.old }
        ensures closes { ClosesBook self.old self.new }
        ensures in_order { InOrder self.new }
    {
        let first = self.stored.count() + 1;
        self.store();
        append_frame(
            self.version.newer(),
            self.epoch + 1,
            first,
            &self.actions,
            self.run,
            &mut self.buffer,
        );
        self.run += self.frame_len();
        self.stage = Stage::Body;
        self.work = Work::Checkpoint;
    }

    /// From now on the other half stands.
    fn turn(&mut self)
        requires last { self.old.stage ≡ Stage.GateSync }
        requires checkpoint { self.old.work ≡ Work.Checkpoint }
        requires in_order { InOrder self.old }
        ensures turns { TurnsBook self.old self.new }
        ensures in_order { InOrder self.new }
    {
        self.gate = self.other_at() + self.run as u64;
        self.half = self.half.other();
        self.other_open = !is_summed(self.version);
        self.version = self.version.newer();
        self.epoch += 1;
        self.copying = false;
        self.stage = Stage::Idle;
    }

    /// How long the next piece of the run is.
    fn piece_len(&self) -> usize
        requires { self.now.out ≤ self.now.run }
        ensures { result ≡ piece_of self.now }
    {
        (self.run - self.out).min(MOST)
    }

    /// The next piece of the run.
    pub fn piece(&self) -> &[u8]
        requires sent { self.now.out ≤ self.now.run }
        requires within { self.now.run ≤ length self.now.buffer.items }
        ensures { result.now ≡ take (piece_of self.now) (drop self.now.out (run_in self.now)) }
    {
        let end = self.out + self.piece_len();
        &self.buffer[self.out..end]
    }

    /// A piece of the run went out.
    fn pass(&mut self)
        requires body { self.old.stage ≡ Stage.Body }
        requires checkpoint { self.old.work ≡ Work.Checkpoint }
        requires in_order { InOrder self.old }
        ensures goes { self.new ≡ sent_by (piece_of self.old) self.old }
        ensures in_order { InOrder self.new }
    {
        let len = self.piece_len();
        self.out += len;
        self.written = self.written.saturating_add(len as u64);
        if self.out == self.run {
            self.stage = Stage::BodySync;
        }
    }

    /// The work's next call was done.
    pub fn go_on(&mut self) -> Progress
        requires working { IsWorking self.old.stage }
        requires in_order { InOrder self.old }
        ensures goes { IsBookAfter self.old.stage self.old.work result self.old self.new }
        ensures in_order { InOrder self.new }
    {
        match self.stage {
            Stage::Close => {
                self.stage = Stage::CloseSync;
                Progress::More
            }
            Stage::CloseSync => {
                self.other_open = false;
                self.stage = Stage::Body;
                Progress::More
            }
            Stage::Body => {
                match self.work {
                    Work::Commit => self.stage = Stage::BodySync,
                    Work::Checkpoint => self.pass(),
                }
                Progress::More
            }
            Stage::BodySync => {
                self.stage = Stage::Gate;
                Progress::More
            }
            Stage::Gate => {
                self.stage = match self.work {
                    Work::Commit => Stage::GateSync,
                    Work::Checkpoint => turn_stage(self.version),
                };
                Progress::More
            }
            Stage::TurnSync => {
                self.stage = Stage::Retire;
                Progress::More
            }
            Stage::Retire => {
                self.stage = Stage::GateSync;
                Progress::More
            }
            Stage::GateSync => {
                self.finish();
                Progress::Done
            }
            Stage::Idle | Stage::Stopped => unreachable!(),
        }
    }

    /// The work is done.
    fn finish(&mut self)
        requires last { self.old.stage ≡ Stage.GateSync }
        requires in_order { InOrder self.old }
        ensures finishes { Finishes self.old.work self.old self.new }
        ensures in_order { InOrder self.new }
    {
        match self.work {
            Work::Commit if self.copying => self.resume(),
            Work::Commit => self.close(),
            Work::Checkpoint => self.turn(),
        }
    }

    /// Whether a frame of `actions` actions fits after what is stored.
    pub fn fits(&self, actions: usize) -> bool
        requires { InOrder self.now }
        ensures { IsTrue result ↔ FitsFrame (account self.now) actions }
    {
        let room = self.end() - self.gate;
        room > 19 && actions as u64 <= (room - 20) / 16
    }

    /// Whether a frame of a batch's accepted actions fits after what is stored. They are counted only if one of all its entries
    /// wouldn't fit.
    fn fits_accepted(&self, batch: &Batch) -> bool
        requires { InOrder self.now }
        ensures { IsTrue result ↔
            FitsFrame (account self.now) (length (accepted_of batch.now.entries)) }
    {
        self.fits(batch.entries().len()) || self.fits(accepted_in(batch))
    }

    /// Whether the half that stands takes frames: in version 03 only if the other half's gate is closed.
    fn is_alone(&self) -> bool
        ensures { IsTrue result ↔ IsAlone self.now.version self.now.other_open }
    {
        !(is_summed(self.version) && self.other_open)
    }

    /// Whether a frame of a batch's accepted actions fits after what is stored, and the half may hold them.
    pub fn takes(&self, batch: &Batch) -> bool
        requires { InOrder self.now }
        ensures { IsTrue result ↔ TakesFrame (account self.now) (accepted_of batch.now.entries) }
    {
        self.fits_accepted(batch) && bears_all(self.version, batch.entries()) && self.is_alone()
    }

    /// Begins a checkpoint, without a device call: the stored plant is copied. The other half's gate is closed first only if it
    /// reads open.
    pub fn begin_checkpoint(&mut self) -> Result<(), Refused>
        requires in_order { InOrder self.old }
        ensures answer { result ≡
            checkpoint_answer (phase_of self.old.stage self.old.work) self.old.epoch }
        ensures copies { Copies result self.old self.new }
        ensures in_order { InOrder self.new }
    {
        match phase_of(self.stage, self.work) {
            Phase::Idle => {}
            Phase::Stopped => return Err(Refused::Stopped),
            Phase::Committing | Phase::Copying | Phase::Paused => return Err(Refused::Working),
        }
        if self.epoch == u64::MAX {
            return Err(Refused::Exhausted);
        }
        let half = self.half.other();
        let version = self.version.newer();
        let epoch = self.epoch + 1;
        write_half(
            &self.layout,
            half,
            version,
            epoch,
            &self.stored,
            &mut self.buffer,
        );
        self.copying = true;
        self.run = HEAD_LEN + self.layout.image_len();
        self.out = 0;
        self.work = Work::Checkpoint;
        self.stage = first_stage(self.other_open);
        Ok(())
    }
}
