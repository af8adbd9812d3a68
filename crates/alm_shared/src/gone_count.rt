//! How often a look found the board's owner gone.

ghost use Rattle.std.specs.Prelude.{◌≡◌, ◌+◌, IfErr, MatchResult};
ghost use Rattle.alm_types.specs.Counts.{one_more};
ghost use Rattle.left_right.specs.Sides.{view};

use crate::looks_once::LooksOnce;
use crate::reader_sight::ReaderSight;
use crate::readers_rule::ReadersRule;
use crate::shown_plant::ShownPlant;
use alm_model::Alarms;
use alm_moments::RunId;
use left_right::reader::{Reader, Reading};

/// How often a look found the board's owner gone, up to the greatest number.
#[derive(Drop)]
pub struct GoneCount {
    gone: u64,
}

impl GoneCount {
    ghost use Rattle.std.specs.Prelude.{◌≡◌, ◌+◌, IfErr, MatchResult};
    ghost use Rattle.alm_types.specs.Counts.{one_more};
    ghost use Rattle.left_right.specs.Sides.{view};

    /// No look did yet.
    pub fn new() -> Self {
        GoneCount { gone: 0 }
    }

    /// Begins a look: it sees the list that is published then. If the board's owner is gone the reader comes back, which is counted.
    pub fn enter<J: RunId, P: Alarms + Drop>(
        &mut self,
        reader: Reader<ShownPlant<J, P>, ReaderSight, ReadersRule>,
    ) -> Result<
        Reading<ShownPlant<J, P>, ReaderSight, ReadersRule>,
        Reader<ShownPlant<J, P>, ReaderSight, ReadersRule>,
    >
        ensures made { MatchResult result
            (λ r. ((view r.place).looks ≡ (view reader.place).looks + 1) ×
            ((view r.place).seen ≡ r.part.value.told.prefix))
            (λ r. view r.place ≡ view reader.place) }
        ensures gone { IfErr result (λ _. self.new.gone ≡ one_more self.old.gone) }
    {
        match reader.enter_as::<LooksOnce>() {
            Ok(reading) => Ok(reading),
            Err(reader) => {
                self.gone = self.gone.saturating_add(1);
                Err(reader)
            }
        }
    }
}
