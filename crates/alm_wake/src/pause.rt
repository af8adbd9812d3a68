//! A time budget for one wait.
ghost use Rattle.std.specs.Prelude.{◌≤◌};

use crate::bounds::LONGEST_PAUSE;

/// A time budget for one wait. Waiting consumes it and returns the rest.
#[derive(Debug, Drop, PartialEq, Eq)]
pub struct Pause {
    micros: u64,
    ghost short: { micros ≤ 500 },
}

impl Pause {
    ghost use Rattle.std.specs.Prelude.{◌≡◌, ◌≤◌, ◌+◌, min, IfSome, None};

    /// A pause of `micros` microseconds, or the longest if that is shorter.
    pub fn of(micros: u64) -> Self
        ensures { result.micros ≡ min micros 500 }
    {
        Pause {
            micros: micros.min(LONGEST_PAUSE),
        }
    }

    /// What is left of it after `passed` microseconds; `None` if it is over by then.
    pub fn after(self, passed: u64) -> Option<Pause>
        ensures left { IfSome result (λ left. left.micros + passed ≡ self.micros) }
        ensures over { result ≡ None → self.micros ≤ passed }
    {
        if self.micros <= passed {
            return None;
        }
        Some(Pause {
            micros: self.micros - passed,
        })
    }

    /// How long it is at most, in microseconds.
    pub fn micros(&self) -> u64
        ensures { (result ≡ self.now.micros) × (result ≤ 500) }
    {
        self.micros
    }
}
