//! Laws of a file's record. Each is the contract of a function that does nothing.

ghost use Rattle.std.specs.Prelude.{◌++◌, List, ℕ, length};
ghost use Rattle.alm_disk.specs.Device.{AreBytes};
ghost use Rattle.alm_file.specs.Events.{FileEvent};
ghost use Rattle.alm_file.specs.Replay.{AreTrueAnswers, IsHonestFile, NoneReads};

/// A run is honest of the bytes that its file held, if what was read before the first write is what they are. What was written and
/// synced later can't end that, nor how those calls ended.
pub fn true_reads_make_an_honest_run()
    ensures { (start : List ℕ) (later earlier : List FileEvent) → AreBytes start →
        AreTrueAnswers start earlier → NoneReads later →
        IsHonestFile start (length start) (later ++ earlier) }
{}
