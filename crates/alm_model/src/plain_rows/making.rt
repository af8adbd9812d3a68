//! Making plain rows: of parts, and a copy.

ghost use Rattle.std.specs.Prelude.{◌≡◌, ◌≤◌, IfOk};
ghost use Rattle.alm_model.specs.Parts.{plant_of};
ghost use Rattle.alm_model.specs.Rules.{KeepsRules};
ghost use Rattle.alm_types.specs.Sizes.{most_actions};

use crate::ages::copy_ages;
use crate::plain_rows::PlainRows;
use crate::plant_parts::PlantParts;
use crate::recent::copy_moments;
use std::alloc::{AllocError, Global};

impl PlainRows {
    /// The plant of its parts.
    pub fn build(parts: PlantParts) -> Self
        requires rules { KeepsRules (plant_of parts) }
        requires count { parts.count ≤ most_actions }
        ensures { result ≡ plant_of parts }
    {
        PlainRows {
            clock: parts.clock,
            count: parts.count,
            next_stamp: parts.next_stamp,
            attrs: parts.attrs,
            rows: parts.rows,
            ages: parts.ages,
            moments: parts.moments,
            floods: parts.floods,
        }
    }

    /// The same plant.
    pub fn copy(&self, alloc: Global) -> Result<Self, AllocError>
        ensures { IfOk result (λ p. p ≡ self.now) }
    {
        Ok(PlainRows {
            clock: self.clock,
            count: self.count,
            next_stamp: self.next_stamp,
            attrs: self.attrs.to_vec(alloc)?,
            rows: self.rows.to_vec(alloc)?,
            ages: copy_ages(alloc, &self.ages)?,
            moments: copy_moments(alloc, &self.moments)?,
            floods: self.floods.to_vec(alloc)?,
        })
    }
}
