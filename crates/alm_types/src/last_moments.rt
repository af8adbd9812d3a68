//! The last annunciations of an alarm.

ghost use Rattle.std.specs.Prelude.{◌≡◌, ◌≤◌, length, take};

use crate::moment::Moment;
use std::marker::Model;

/// When an alarm was annunciated last: at most three moments, the newest first.
#[derive(Drop)]
pub struct LastMoments {
    kept: [Moment; 3],
    count: usize,
}

impl Model for LastMoments {
    ghost use Rattle.std.specs.Prelude.{ℕ, List, take, ◌≤◌};

    ghost Value = { List ℕ };

    ghost view = { λ m. take m.count m.kept };

    ghost invariant = { λ m. m.count ≤ 3 };
}

impl LastMoments {
    /// The first three of these moments, or all if they are fewer.
    pub fn of(moments: &[Moment]) -> Self
        ensures { result ≡ take 3 moments.now }
    {
        let mut kept = [Moment::start(); 3];
        let count = moments.len().min(3);
        kept[..count].copy_from_slice(&moments[..count]);
        LastMoments { kept, count }
    }

    /// The moments.
    pub fn as_slice(&self) -> &[Moment]
        ensures moments { result.now ≡ self.now }
        ensures few { length result.now ≤ 3 }
    {
        &self.kept[..self.count]
    }
}
