//! A desk over a plant in memory.

ghost use Rattle.std.specs.Prelude.{◌≡◌, IfOk, Some, [], ◌∷◌, replicate, false};
ghost use Rattle.alm_model.specs.New.{new_plant};
ghost use Rattle.alm_desk.specs.Answers.{standing_of};
ghost use Rattle.alm_types.specs.Sizes.{slot_count};

use crate::local_desk::LocalDesk;
use alm_model::Alarms;
use alm_types::Table;
use std::alloc::{AllocError, Global};

/// A desk over the new plant of a table.
pub fn desk_of<P: Alarms + Drop>(alloc: Global, table: &Table) -> Result<LocalDesk<P>, AllocError>
    ensures { IfOk result
        (λ desk. desk ≡
        record {
          standing = standing_of (Some (new_plant table.now)) (new_plant table.now ∷ []) 0 0 [];
          helds =
              replicate slot_count [];
          closed = false;
        }) }
{
    LocalDesk::new(alloc, P::new(alloc, table)?)
}
