//! The plant as plain rows by number.

use crate::alarms::Alarms;
use crate::list::List;
use crate::plain_rows::PlainRows;
use crate::plant_parts::PlantParts;
use alm_state::Row;
use alm_types::{Action, AlarmId, Attr, Moment, Refusal, Request, Table};
use std::alloc::{AllocError, Global};
use std::marker::Model;

/// A plant of rows by number.
#[derive(Drop)]
pub struct PlainPlant {
    rows: PlainRows,
    working: Vec<u32>,
}

impl Model for PlainPlant {
    ghost use Rattle.std.specs.Prelude.{length, ◌≡◌, vec_capacity};
    ghost use Rattle.alm_model.specs.Plant.{Condensed};

    ghost Value = { Condensed };

    ghost view = { λ p. p.rows };

    ghost use Rattle.alm_model.specs.Rules.{KeepsRules};

    ghost invariant = { λ p.
        KeepsRules p.rows × (vec_capacity p.working ≡ length p.rows.panel.rows) };
}

impl Alarms for PlainPlant {
    ghost plant = { λ p. p };

    fn check(&self, request: &Request) -> Result<Action, Refusal> {
        self.rows.check(request)
    }

    fn admits(&self, action: &Action) -> Result<(), Refusal> {
        self.rows.admits(action)
    }

    fn apply(&mut self, action: &Action) {
        self.rows.apply(action, &mut self.working);
    }

    fn new(alloc: Global, table: &Table) -> Result<Self, AllocError> {
        PlainPlant::build(alloc, PlantParts::new(alloc, table)?)
    }

    fn build(alloc: Global, parts: PlantParts) -> Result<Self, AllocError> {
        let working = Vec::with_capacity(alloc, parts.rows.len())?;
        Ok(PlainPlant {
            rows: PlainRows::build(parts),
            working,
        })
    }

    fn copy(&self, alloc: Global) -> Result<Self, AllocError> {
        Ok(PlainPlant {
            rows: self.rows.copy(alloc)?,
            working: Vec::with_capacity(alloc, self.rows.alarms())?,
        })
    }

    fn state(&self, id: AlarmId) -> Option<Row> {
        self.rows.row(id)
    }

    fn attr(&self, id: AlarmId) -> Option<Attr> {
        self.rows.attr(id)
    }

    fn now(&self) -> Moment {
        self.rows.now()
    }

    fn count(&self) -> u64 {
        self.rows.count()
    }

    fn next_stamp(&self) -> u64 {
        self.rows.next_stamp()
    }

    fn window(&self, area: u32) -> (u64, bool) {
        self.rows.window(area as usize)
    }

    fn age(&self, area: u32, age: u32) -> u64 {
        self.rows.age(area as usize, age as usize)
    }

    fn moments(&self, id: AlarmId) -> &[Moment] {
        self.rows.moments(id)
    }

    fn alarms(&self) -> usize {
        self.rows.alarms()
    }

    fn areas(&self) -> usize {
        self.rows.areas()
    }

    fn has_list(&self, list: List) -> bool {
        self.rows.has_list(list)
    }

    fn fill(&self, list: List, out: &mut Vec<u32>) {
        self.rows.fill(list, out);
    }
}
