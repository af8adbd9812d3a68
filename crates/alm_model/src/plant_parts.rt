//! A plant in parts.

ghost use Rattle.std.specs.Prelude.{◌≡◌, IfOk};
ghost use Rattle.alm_model.specs.New.{new_plant};

use crate::ages::{Ages, no_ages};
use crate::recent::{Recent, no_moments};
use alm_state::Row;
use alm_types::{Attr, Moment, Table};
use std::alloc::{AllocError, Global};

/// The fields of a plant, all public.
#[derive(Drop)]
pub struct PlantParts {
    pub clock: Moment,
    /// How many actions the plant has had.
    pub count: u64,
    pub next_stamp: u64,
    /// By alarm number, as rows and moments.
    pub attrs: Vec<Attr>,
    pub rows: Vec<Row>,
    /// By area, as the flood flags.
    pub ages: Vec<Ages>,
    /// The last three of each alarm.
    pub moments: Vec<Recent>,
    pub floods: Vec<bool>,
}

impl PlantParts {
    ghost use Rattle.alm_model.specs.Parts.{plant_of};
    ghost use Rattle.alm_model.specs.Rules.{KeepsRules};

    /// The parts of the new plant of a table; an error only if out of memory.
    pub fn new(alloc: Global, table: &Table) -> Result<Self, AllocError>
        ensures parts { IfOk result (λ parts. plant_of parts ≡ new_plant table.now) }
        ensures rules { IfOk result (λ parts. KeepsRules (plant_of parts)) }
    {
        let alarms = table.alarms();
        let areas = table.areas();
        Ok(PlantParts {
            clock: Moment::start(),
            count: 0,
            next_stamp: 1,
            attrs: alarms.to_vec(alloc)?,
            rows: vec![in alloc; Row::new(); alarms.len()]?,
            ages: no_ages(alloc, areas)?,
            moments: no_moments(alloc, alarms.len())?,
            floods: vec![in alloc; false; areas as usize]?,
        })
    }
}
