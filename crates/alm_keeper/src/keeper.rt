//! Keepers.

ghost use Rattle.std.specs.Prelude.{◌≡◌, ◌≢◌, ◌≤◌, ◌⊎◌, ◌↔◌, ◌+◌, List, ℕ, length, IsTrue, IfOk, IfErr, Err, true, false};
ghost use Rattle.alm_keeper.specs.Calls.{reads_of};
ghost use Rattle.alm_keeper.specs.Batch.{accepted_asked};
ghost use Rattle.alm_disk.specs.Device.{IsImage};
ghost use Rattle.alm_model.specs.Judging.{accepted_of};
ghost use Rattle.alm_store.specs.Calls.{CountsFailures, IsCall};
ghost use Rattle.alm_keeper.specs.Stages.{IsWorking, phase_of};
ghost use Rattle.alm_keeper.specs.Saying.{MaySay, SaysOne};
ghost use Rattle.alm_store.specs.Advancing.{IsResting};
ghost use Rattle.alm_keeper.specs.Formatted.{IsFormatted, IsLeftBy};
ghost use Rattle.alm_keeper.specs.Opening.{IsOpenedBy, IsUnopened};
ghost use Rattle.alm_keeper.specs.Keeper.{KeeperView, IsConsistent, next, HasRoom, HasRoomFor, IsPaused, IsStoredIn, StandsWithRoom, LiesIn, MayStand, begin_answer, checkpoint_answer, BeginsCommit, BeginsCheckpoint, Progresses, call_of, payload_of, SendsPiece, CallsOnce};
ghost use Rattle.alm_types.specs.Sizes.{most_actions};

use crate::advancing::advance;
use crate::book::Book;
use crate::format_fault::FormatFault;
use crate::opening::open_book;
use crate::stage::{Stage, Work, is_working, phase_of};
use crate::store_format::format_plant;
use alm_codec::Version;
use alm_disk::Disk;
use alm_model::Alarms;
use alm_plant::Plant;
use alm_store::{OpenFault, Phase, Progress, Refused};
use alm_types::Batch;
use std::alloc::Global;
use std::marker::Model;

/// A device and what is known of it: what it stores, and the work that is begun on it.
#[derive(Drop)]
pub struct Keeper<D: Disk + Drop> {
    disk: D,
    book: Book,
}

impl<D: Disk + Drop> Model for Keeper<D> {
    ghost use Rattle.alm_keeper.specs.Keeper.{KeeperView};
    ghost use Rattle.alm_keeper.specs.Keeping.{keeper_of, InOrder, FitsDevice, Keeps};

    ghost Value = { KeeperView D };

    ghost view = { λ k. keeper_of k.disk k.book };

    ghost invariant = { λ k. InOrder k.book × FitsDevice k.book (D.size k.disk) ×
        (D.honest k.disk → ∥ Keeps (D.state k.disk) k.book ∥₁) };
}

impl<D: Disk + Drop> Keeper<D> {
    /// Makes the next device call of the work that is begun, exactly one. Takes no memory.
    ///
    /// `Failed` means that a call of the device failed, and is returned for no other cause. The keeper is then stopped until the
    /// device is opened again.
    pub fn advance(&mut self) -> Progress
        requires working { IsWorking self.old.stage }
        ensures honest { D.honest self.old.disk ↔ D.honest self.new.disk }
        ensures advances { Progresses result self.old self.new }
        // Which call it is, and its bytes: of a commit its frame with who asked.
        ensures call { CallsOnce ⟦<D as Disk>⟧ (call_of self.old) (payload_of self.old) result
            self.old.disk self.new.disk }
        ensures piece { self.old.stage ≡ Stage.Body → self.old.work ≡ Work.Checkpoint →
            result ≢ Progress.Failed → SendsPiece self.old self.new }
        ensures is_call { D.honest self.old.disk →
            IsCall (D.state self.old.disk) (D.state self.new.disk) }
        ensures counts { CountsFailures result (D.failures self.old.disk)
            (D.failures self.new.disk) }
        // What a crash leaves at any moment of the call.
        ensures any_moment { D.honest self.old.disk → (b : List ℕ) →
            (IsImage (D.state self.old.disk) b ⊎ IsImage (D.state self.new.disk) b) →
            ∥ MayStand self.old b ∥₁ }
        // .. and what that says of who asked: what was said before, or that and the commit's actions.
        ensures says { D.honest self.old.disk → ∥ MaySay self.old
            (λ b. IsImage (D.state self.old.disk) b ⊎ IsImage (D.state self.new.disk) b) ∥₁ }
    {
        advance(&mut self.disk, &mut self.book)
    }

    /// Begins a commit of the accepted actions of a batch, also between the pieces of an open checkpoint. Makes no
    /// device call, and takes no memory.
    ///
    /// Refused, in this order: if the keeper is stopped; if a commit is under way, or a checkpoint that isn't paused; if the
    /// batch's first number isn't the next one. Else refused at the first action that isn't admitted at its turn, and that stops
    /// the keeper.
    #[tactic(auto, using(crate::proofs::Seen::begins_seen))]
    pub fn begin(&mut self, batch: &Batch) -> Result<(), Refused>
        requires some { 1 ≤ length (accepted_of batch.now.entries) }
        requires takes { HasRoomFor self.old (accepted_of batch.now.entries) }
        ensures disk { self.new.disk ≡ self.old.disk }
        ensures answer { result ≡
            begin_answer (phase_of self.old.stage self.old.work) self.old.stored.plant batch.now }
        ensures begins { BeginsCommit result
            (accepted_asked self.old.stored.version batch.now.entries) self.old self.new }
    {
        self.book.begin(batch)
    }

    /// Opens a checkpoint: copies the plant that is stored. Makes no device call, and takes no memory.
    ///
    /// Refused, in this order: if the keeper is stopped; if a commit or a checkpoint is under way; if the epoch is the last.
    pub fn begin_checkpoint(&mut self) -> Result<(), Refused>
        ensures disk { self.new.disk ≡ self.old.disk }
        ensures answer { result ≡
            checkpoint_answer (phase_of self.old.stage self.old.work) self.old.stored.epoch }
        ensures begins { BeginsCheckpoint result self.old self.new }
    {
        self.book.begin_checkpoint()
    }

    /// Does nothing: it says what a crash leaves of the device. Each image encodes what is stored or what is begun; if no work is
    /// under way the device encodes what is stored, with its room.
    pub fn images(&self)
        ensures either { D.honest self.now.disk → (b : List ℕ) → IsImage (D.state self.now.disk) b →
            ∥ IsStoredIn self.now.stored b ⊎ IsStoredIn (next self.now) b ∥₁ }
        // At rest a crash leaves one list of who asked.
        ensures says { D.honest self.now.disk → IsResting (phase_of self.now.stage self.now.work) →
            ∥ SaysOne (IsImage (D.state self.now.disk)) ∥₁ }
        ensures rests { D.honest self.now.disk → IsResting (phase_of self.now.stage self.now.work) →
            ∥ StandsWithRoom self.now.stored (D.state self.now.disk).bytes ∥₁ }
        // The half that stands, the other one's gate, and the lengths by which `call_of` has its places.
        ensures lies { D.honest self.now.disk → IsResting (phase_of self.now.stage self.now.work) →
            ∥ LiesIn self.now.half self.now.layout self.now.other_open
            (D.state self.now.disk).bytes ∥₁ }
        ensures order { IsConsistent self.now }
    {
        // for the proof: what is always true of a book
        let _book = &self.book;
    }

    /// Whether it is idle, paused, stopped, or which work is under way.
    pub fn phase(&self) -> Phase
        ensures { result ≡ phase_of self.now.stage self.now.work }
    {
        phase_of(self.book.stage, self.book.work)
    }

    /// Whether work is begun, so that a device call is next.
    pub fn is_working(&self) -> bool
        ensures { IsTrue result ↔ IsWorking self.now.stage }
    {
        is_working(self.book.stage)
    }

    /// Whether an open checkpoint waits for its next piece: its last one isn't written, and the other half's gate is closed. It
    /// waits also while a commit is under way.
    pub fn paused(&self) -> bool
        ensures { IsTrue result ↔ IsPaused (phase_of self.now.stage self.now.work) self.now }
    {
        match phase_of(self.book.stage, self.book.work) {
            Phase::Paused | Phase::Committing => self.book.copying,
            Phase::Idle | Phase::Copying | Phase::Stopped => false,
        }
    }

    /// How many bytes of pieces went out since the last commit's end or mark.
    pub fn written_since(&self) -> u64
        ensures { result ≡ self.now.written }
    {
        self.book.written
    }

    /// Counts the bytes of pieces from here on.
    pub fn mark(&mut self)
        ensures { self.new ≡ record self.old { written = 0 } }
    {
        self.book.written = 0;
    }

    /// How much of the segment is used: the place of its first closed gate.
    pub fn used(&self) -> u64
        ensures { result + self.now.stored.room ≡ self.now.layout.segment }
    {
        self.book.used()
    }

    /// The plant that is stored.
    pub fn stored(&self) -> &Plant
        ensures { result.now ≡ self.now.stored.plant }
    {
        &self.book.stored
    }

    /// How many actions are stored.
    pub fn count(&self) -> u64
        ensures { result ≡ self.now.stored.plant.panel.count }
    {
        self.book.stored.count()
    }

    /// The epoch of the half that stands.
    pub fn epoch(&self) -> u64
        ensures { result ≡ self.now.stored.epoch }
    {
        self.book.epoch
    }

    /// How many bytes a segment has: room for one frame of 256 actions and the next gate, or more.
    pub fn segment(&self) -> u64
        ensures value { result ≡ self.now.layout.segment }
        ensures least { 4116 ≤ self.now.layout.segment }
    {
        u64::from(self.book.layout.segment)
    }

    /// Whether a frame of `actions` actions fits after what is stored.
    pub fn fits(&self, actions: usize) -> bool
        ensures { IsTrue result ↔ HasRoom self.now.stored actions }
    {
        self.book.fits(actions)
    }

    /// Whether a frame of a batch's accepted actions fits after what is stored, and the half that stands may hold them.
    /// One of version 01 holds no PRIO and no SETP, so a checkpoint comes first. One of version 03 holds nothing while the gate of
    /// the other half is open: a loss of power cut off the last two calls of a checkpoint.
    #[tactic(auto, using(crate::proofs::Seen::takes_seen, crate::proofs::Seen::takes_of))]
    pub fn takes(&self, batch: &Batch) -> bool
        ensures { IsTrue result ↔ HasRoomFor self.now (accepted_of batch.now.entries) }
    {
        self.book.takes(batch)
    }

    /// Formats another device for the plant that is stored, in a version, as [`format_plant`] does.
    pub fn format_copy<To: Disk + Drop>(
        &self,
        alloc: Global,
        other: To,
        version: Version,
    ) -> Result<To, (FormatFault, To)>
        ensures formatted { IfOk result
            (IsFormatted To.serves To.state To.honest To.size version self.now.stored.plant other) }
        ensures refused { IfErr result
            (λ x. IsLeftBy x.0 To.serves To.state To.honest To.size To.failures
            self.now.stored.plant other x.1) }
    {
        format_plant(alloc, other, &self.book.stored, version)
    }

    /// The device.
    pub fn into_disk(self) -> D
        ensures { result ≡ self.disk }
    {
        let Keeper { disk, book } = self;
        drop(book);
        disk
    }
}

/// Opens a device: syncs it and reads what it encodes. No byte is written. All memory that a keeper uses is taken here.
///
/// If that fails the device is returned with the fault: Unformatted or Damaged by its bytes, or Disk only if it failed
/// in one of these calls. OutOfMemory says nothing about the bytes.
pub fn open_store<D: Disk + Drop>(alloc: Global, disk: D) -> Result<Keeper<D>, (OpenFault, D)>
    ensures idle { IfOk result
        (λ k. (k.stage ≡ Stage.Idle) × (k.copying ≡ false) × (k.written ≡ 0)) }
    // The plant and the epoch that the bytes read encode, and the room that is left.
    ensures stands { IfOk result
        (λ k. D.honest k.disk → StandsWithRoom k.stored (D.state k.disk).bytes) }
    ensures limit { IfOk result (λ k. k.stored.plant.panel.count ≤ most_actions) }
    // Which calls it makes: a sync, and five reads, of each range once; if it is refused, these up to its fault. What they gave may
    // have shown that the device doesn't keep to the model; but one that does so now did before.
    ensures opened { IfOk result
        (λ k. IsOpenedBy D.Disk (reads_of k.layout k.half) disk k.disk) }
    ensures refused { IfErr result (λ x. IsUnopened D.Disk x.0 disk x.1) }
{
    let mut disk = disk;
    match open_book(alloc, &mut disk) {
        Ok(book) => Ok(Keeper { disk, book }),
        Err(fault) => Err((fault, disk)),
    }
}
