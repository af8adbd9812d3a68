//! Actions of a history that are handed over together.
ghost use Rattle.alm_shared.specs.Growing.{HasLast};

use crate::durable::Durable;
use alm_moments::RunId;
use alm_types::LoggedAction;

/// Actions of a history that are handed over together, with all the actions up to the last of them.
#[derive(Drop)]
pub struct AppendStep<J: RunId> {
    pub actions: Vec<LoggedAction>,
    pub told: Durable<J>,
    pub ghost last: { HasLast told.prefix actions.items },
}
