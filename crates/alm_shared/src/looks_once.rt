//! The step by which a reader looks.

use crate::reader_sight::ReaderSight;
use crate::shown_plant::ShownPlant;
use alm_model::Alarms;
use alm_moments::RunId;
use crossbeam_utils::rule::Outcome;

/// The step by which a reader looks: it sees the list that is published then.
pub struct LooksOnce;

impl<J: RunId, P: Alarms + Drop> Outcome<ShownPlant<J, P>, ReaderSight> for LooksOnce {
    ghost use Rattle.std.specs.Prelude.{◌≡◌, ◌+◌};

    ghost then = { λ old _ shown new. (new.looks ≡ old.looks + 1) × (new.seen ≡ shown.told.prefix) };
}
