//! What every plant does.

ghost use Rattle.std.specs.Prelude.{◌≡◌, ◌≤◌, ◌<◌, length, vec_capacity, IsTrue, OnOk, IfOk, Option, Some, None, slice_get, map, sum};
ghost use Rattle.alm_model.specs.Plant.{Condensed};
ghost use Rattle.alm_model.specs.Accept.{refusal, answer, accept};
ghost use Rattle.alm_model.specs.Step.{step};
ghost use Rattle.alm_model.specs.Lists.{list_of, exists, moments_in};
ghost use Rattle.alm_model.specs.New.{new_plant};
ghost use Rattle.alm_model.specs.Parts.{plant_of, age_of};
ghost use Rattle.alm_model.specs.Rules.{KeepsRules, IsTimely};
ghost use Rattle.alm_types.specs.Sizes.{most_actions};

use crate::list::List;
use crate::plant_parts::PlantParts;
use alm_state::Row;
use alm_types::{Action, AlarmId, Attr, Moment, Refusal, Request, Table};
use std::alloc::{AllocError, Global};

/// The alarms of a plant, however they are kept.
pub trait Alarms {
    /// The plant, condensed.
    ghost plant: { Self → Condensed };

    /// The action, or the first reason against the request.
    fn check(&self, request: &Request) -> Result<Action, Refusal>
        ensures verdict { result ≡ accept (plant self.now).panel request.now }
        ensures admitted { IfOk result (λ action. refusal (plant self.now).panel action ≡ None) }
        ensures counted { OnOk result ((plant self.now).panel.count < most_actions) };

    /// The first reason against an action, whoever asks.
    fn admits(&self, action: &Action) -> Result<(), Refusal>
        ensures { result ≡ answer tt (refusal (plant self.now).panel action.now) };

    /// Does an action.
    fn apply(&mut self, action: &Action)
        requires { refusal (plant self.old).panel action.now ≡ None }
        ensures plant { plant self.new ≡ step (plant self.old) action.now }
        ensures timely { IsTimely action.now };

    /// The new plant of a table.
    fn new(alloc: Global, table: &Table) -> Result<Self, AllocError>
        ensures { IfOk result (λ p. plant p ≡ new_plant table.now) };

    /// The plant of its parts.
    fn build(alloc: Global, parts: PlantParts) -> Result<Self, AllocError>
        requires rules { KeepsRules (plant_of parts) }
        requires count { parts.count ≤ most_actions }
        ensures { IfOk result (λ p. plant p ≡ plant_of parts) };

    /// The same plant.
    fn copy(&self, alloc: Global) -> Result<Self, AllocError>
        ensures { IfOk result (λ p. plant p ≡ plant self.now) };

    fn state(&self, id: AlarmId) -> Option<Row>
        ensures { result ≡ slice_get (plant self.now).panel.rows id.0 };

    fn attr(&self, id: AlarmId) -> Option<Attr>
        ensures { result ≡ slice_get (plant self.now).panel.attrs id.0 };

    fn now(&self) -> Moment
        ensures { result ≡ (plant self.now).panel.now };

    fn count(&self) -> u64
        ensures { result ≡ (plant self.now).panel.count };

    fn next_stamp(&self) -> u64
        ensures { result ≡ (plant self.now).panel.next_stamp };

    /// How many annunciations of an area came within the last 600 seconds, and whether there is a flood.
    fn window(&self, area: u32) -> (u64, bool)
        requires { area < length (plant self.now).floods }
        ensures window { slice_get (map sum (plant self.now).kept.ages) area ≡ Some result.0 }
        ensures flood { slice_get (plant self.now).floods area ≡ Some result.1 };

    /// How many annunciations of an area are of an age.
    fn age(&self, area: u32, age: u32) -> u64
        requires area { area < length (plant self.now).floods }
        requires age { age < 600 }
        ensures { result ≡ age_of (plant self.now) area age };

    /// The last three moments of an alarm, the newest first; empty if there is no such alarm.
    fn moments(&self, id: AlarmId) -> &[Moment]
        ensures { result.now ≡ moments_in (slice_get (plant self.now).kept.moments id.0) };

    /// How many alarms there are. By this call the caller of a plant also learns that it keeps the rules of every plant.
    fn alarms(&self) -> usize
        ensures alarms { result ≡ length (plant self.now).panel.rows }
        ensures rules { KeepsRules (plant self.now) };

    /// How many areas there are.
    fn areas(&self) -> usize
        ensures { result ≡ length (plant self.now).floods };

    /// Whether there is a list.
    fn has_list(&self, list: List) -> bool
        ensures { result ≡ exists list (plant self.now) };

    /// The vector then holds the alarms of a list.
    fn fill(&self, list: List, out: &mut Vec<u32>)
        requires exists { IsTrue (exists list (plant self.now)) }
        requires room { length (plant self.now).panel.rows ≤ vec_capacity out.old }
        ensures list { out.new.items ≡ list_of list (plant self.now) }
        ensures room { vec_capacity out.new ≡ vec_capacity out.old };
}
