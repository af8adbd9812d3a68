//! The plant by linked lists.

ghost use Rattle.std.specs.Prelude.{◌≡◌, ◌<◌, ◌≤◌, length};
ghost use Rattle.alm_model.specs.Lists.{list_of};
ghost use Rattle.alm_model.specs.declared.list.List.TheVariants.{Priority, Area, Wheel, Stale, Chatter};
ghost use Rattle.alm_model.specs.Lists.{wheel_slots};

use crate::linked::Linked;
use crate::order::in_order;
use alm_links::ListNodes;
use alm_model::{Alarms, AlarmsByNumber, List, PlantParts};
use alm_state::Row;
use alm_types::{Action, AlarmId, Attr, Moment, Refusal, Request, Table};
use std::alloc::{AllocError, Global};
use std::marker::Model;

/// A plant whose alarms are in linked lists.
#[derive(Drop)]
pub struct Plant {
    linked: Linked,
    working: Vec<u32>,
}

impl Model for Plant {
    ghost use Rattle.std.specs.Prelude.{length, ◌≡◌, vec_capacity};
    ghost use Rattle.alm_model.specs.Plant.{Condensed};

    ghost Value = { Condensed };

    ghost view = { λ p. p.linked };

    ghost use Rattle.alm_model.specs.Rules.{KeepsRules};

    ghost invariant = { λ p.
        KeepsRules p.linked × (vec_capacity p.working ≡ length p.linked.panel.rows) };
}

impl Plant {
    /// The alarms of a priority, by stamp.
    pub fn priority_list(&self, priority: u32) -> ListNodes<'_>
        requires priority { (1 ≤ priority) × (priority ≤ 4) }
        ensures { result ≡ list_of (Priority priority) self.now }
    {
        self.linked.priority_list(priority)
    }

    /// Those of an area.
    pub fn area_list(&self, area: u32) -> ListNodes<'_>
        requires area { area < length self.now.floods }
        ensures { result ≡ list_of (Area area) self.now }
    {
        self.linked.area_list(area)
    }

    /// The shelved alarms of a slot of the wheel.
    pub fn wheel_list(&self, slot: u32) -> ListNodes<'_>
        requires slot { slot < wheel_slots }
        ensures { result ≡ list_of (Wheel slot) self.now }
    {
        self.linked.wheel_list(slot)
    }

    /// The annunciated alarms whose last annunciation was a day ago or earlier, by number.
    pub fn stale(&self) -> AlarmsByNumber<'_>
        ensures { result ≡ list_of Stale self.now }
    {
        self.linked.stale()
    }

    /// The alarms with three annunciations or more within the last minute, by number.
    pub fn chattering(&self) -> AlarmsByNumber<'_>
        ensures { result ≡ list_of Chatter self.now }
    {
        self.linked.chattering()
    }
}

impl Alarms for Plant {
    ghost plant = { λ p. p };

    fn check(&self, request: &Request) -> Result<Action, Refusal> {
        self.linked.check(request)
    }

    fn admits(&self, action: &Action) -> Result<(), Refusal> {
        self.linked.admits(action)
    }

    #[inline(always)]
    fn apply(&mut self, action: &Action) {
        self.linked.apply(action, &mut self.working);
    }

    fn new(alloc: Global, table: &Table) -> Result<Self, AllocError> {
        let linked = Linked::new(alloc, table)?;
        let working = Vec::with_capacity(alloc, linked.alarms())?;
        Ok(Plant { linked, working })
    }

    fn build(alloc: Global, parts: PlantParts) -> Result<Self, AllocError> {
        let working = in_order(alloc, &parts.rows)?;
        let linked = Linked::build(alloc, parts, &working)?;
        Ok(Plant { linked, working })
    }

    fn copy(&self, alloc: Global) -> Result<Self, AllocError> {
        let working = Vec::with_capacity(alloc, self.linked.alarms())?;
        Ok(Plant {
            linked: self.linked.copy(alloc)?,
            working,
        })
    }

    fn state(&self, id: AlarmId) -> Option<Row> {
        self.linked.row(id)
    }

    fn attr(&self, id: AlarmId) -> Option<Attr> {
        self.linked.attr(id)
    }

    fn now(&self) -> Moment {
        self.linked.now()
    }

    fn count(&self) -> u64 {
        self.linked.count()
    }

    fn next_stamp(&self) -> u64 {
        self.linked.next_stamp()
    }

    fn window(&self, area: u32) -> (u64, bool) {
        self.linked.window(area)
    }

    fn age(&self, area: u32, age: u32) -> u64 {
        self.linked.age(area, age)
    }

    fn moments(&self, id: AlarmId) -> &[Moment] {
        self.linked.moments(id)
    }

    fn alarms(&self) -> usize {
        self.linked.alarms()
    }

    fn areas(&self) -> usize {
        self.linked.areas()
    }

    fn has_list(&self, list: List) -> bool {
        self.linked.has_list(list)
    }

    fn fill(&self, list: List, out: &mut Vec<u32>) {
        self.linked.fill(list, out);
    }
}
