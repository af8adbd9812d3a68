//! Laws of what is reported: each function does nothing, and its contract is the law.
ghost use Rattle.alm_model.specs.Judging.{logged_actions};
ghost use Rattle.alm_moments.specs.Moments.{StaysStored};

use crate::durable::Durable;
use alm_moments::RunId;
use alm_moments::laws::what_is_held_stays_stored;

/// What a receipt reports, or a look has shown, stays stored. Whatever the run does afterwards, and whenever the power fails: the
/// plant that an honest device then encodes is made by these actions, and by others after them.
pub fn what_is_told_stays_stored<J: RunId>(told: &Durable<J>)
    ensures { StaysStored J.honest J.recovers J.base J.first told.now.moments
        (logged_actions told.now.prefix) }
{
    what_is_held_stays_stored(&told.moments);
}
