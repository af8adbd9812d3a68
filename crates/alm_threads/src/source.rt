//! What uses a slot.

use crate::go::Go;
use alm_board::Look;
use alm_rings::{Console, Told};

/// What uses a slot, one turn after another.
pub trait Source<T: Told + Drop, L: Look<Told = T>> {
    ghost use Rattle.std.specs.Prelude.{◌≡◌, ℕ, Option, Some};
    ghost use Rattle.alm_rings.specs.Ends.{SameConsole};
    ghost use Rattle.alm_threads.specs.Sources.{SourceState, source_state};

    /// The slot for which it was made, if it was made for one alone.
    ghost slot: { Self → Option ℕ };

    /// That one turn led from one state to the other.
    ghost did: { SourceState Self L → SourceState Self L → Type 0 } = { λ _ _. Unit {0} };

    /// One turn, at the console of its slot: what it sends, receives, queries and learns is up to the source.
    fn turn(&mut self, console: &mut Console<T>, look: &mut L) -> Go
        requires slot { (n : ℕ) → slot self.old ≡ Some n → console.old.slot ≡ n }
        ensures ends { SameConsole console.old console.new }
        ensures slot { slot self.new ≡ slot self.old }
        ensures did { did (source_state self.old look.old console.old)
            (source_state self.new look.new console.new) };
}
