//! Wires.

/// What a read gave.
#[derive(Clone, Copy, Debug, PartialEq, Eq)]
pub enum ReadGave {
    Got(usize),
    End,
    Blocked,
    Failed,
}

/// What a write took.
#[derive(Clone, Copy, Debug, PartialEq, Eq)]
pub enum WriteTook {
    Wrote(usize),
    Blocked,
    Failed,
}

/// A connection that never waits: what can't be done immediately is Blocked.
pub trait Wire {
    ghost use Rattle.std.specs.Prelude.{◌≡◌, ◌<◌, ℕ, length, List};
    ghost use Rattle.alm_session.specs.Wires.{ReadCounts, WriteCounts, ReadBytes, WriteBytes, Counts, WireInput};

    /// How many reads and writes were blocked, and how many calls failed.
    ghost counts: { Self → Counts };

    /// What reads have given, and what they will give, if that is known.
    ghost input: { Self → WireInput };

    /// What was written.
    ghost written: { Self → List ℕ };

    fn read(&mut self, into: &mut [u8]) -> ReadGave
        requires { 0 < length into.old }
        ensures counts { ReadCounts result (length into.new) (counts self.old) (counts self.new) }
        ensures input { ReadBytes result into.new (input self.old) (input self.new) }
        ensures written { written self.new ≡ written self.old };

    fn write(&mut self, bytes: &[u8]) -> WriteTook
        requires { 0 < length bytes.now }
        ensures counts { WriteCounts result (length bytes.now) (counts self.old) (counts self.new) }
        ensures written { WriteBytes result bytes.now (written self.old) (written self.new) }
        ensures input { input self.new ≡ input self.old };
}
