//! The stage of a keeper's work.

ghost use Rattle.std.specs.Prelude.{◌≡◌, ◌↔◌, IsTrue};
ghost use Rattle.alm_keeper.specs.Stages.{IsWorking, phase_of};

use alm_store::Phase;

/// Which device call is next.
#[derive(Clone, Copy, Debug, PartialEq, Eq)]
pub enum Stage {
    /// No work is begun.
    Idle,
    /// A checkpoint writes the other half's gate closed, if it reads open.
    Close,
    /// .. and syncs.
    CloseSync,
    /// What the gate guards is written: the body of a frame, or a piece of a checkpoint's run.
    Body,
    /// .. and synced.
    BodySync,
    /// The gate is written open.
    Gate,
    /// .. and synced, if a checkpoint of version 03 has a gate to close still.
    TurnSync,
    /// It writes the gate of the half that stood closed.
    Retire,
    /// The gate that was written last is synced: the work is done.
    GateSync,
    /// A device call has failed, or a batch wasn't accepted: no call is made any more.
    Stopped,
}

/// Whether a device call is next.
pub fn is_working(stage: Stage) -> bool
    ensures { IsTrue result ↔ IsWorking stage }
{
    !matches!(stage, Stage::Idle | Stage::Stopped)
}

/// What is begun.
#[derive(Clone, Copy, Debug, PartialEq, Eq)]
pub enum Work {
    /// A frame is stored after the others.
    Commit,
    /// The other half is written, with the image of the stored plant and the frames committed since, in the next epoch.
    Checkpoint,
}

/// The phase of a store whose work is at a stage.
pub fn phase_of(stage: Stage, work: Work) -> Phase
    ensures { result ≡ phase_of stage work }
{
    match (stage, work) {
        (Stage::Idle, _) => Phase::Idle,
        (Stage::Stopped, _) => Phase::Stopped,
        (_, Work::Commit) => Phase::Committing,
        (Stage::Body, Work::Checkpoint) => Phase::Paused,
        (_, Work::Checkpoint) => Phase::Copying,
    }
}
