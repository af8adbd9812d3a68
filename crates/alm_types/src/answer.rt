//! Answers.

ghost use Rattle.std.specs.Prelude.{◌≡◌, ◌<◌, ◌≤◌, OnOk, OnErr, vec_capacity, [], None, false};
ghost use Rattle.alm_types.specs.Counts.{one_more};
ghost use Rattle.alm_types.specs.declared.shown.Shown.TheVariants.{Normal};

use crate::alarm_row::AlarmRow;
use crate::attr::Attr;
use crate::refused_growths::RefusedGrowths;
use crate::shown::Shown;
use std::alloc::{AllocError, Global};

/// What a plant answers to a query. Only the fields that the query asks for are of use.
#[derive(Drop)]
pub struct Answer {
    pub shown: Shown,
    /// Whether the alarm's condition holds.
    pub active: bool,
    /// 1 shelved, 2 by design, 4 out of service, added.
    pub flags: u8,
    /// The moment at which the shelving ends.
    pub until: Option<u64>,
    /// How many annunciations an area had in the last 600 seconds.
    pub window: u64,
    pub flood: bool,
    pub list: Vec<u32>,
    /// The plant's moment, in seconds.
    pub moment: u64,
    /// How many alarms the plant has.
    pub alarms: u64,
    /// How many areas the plant has.
    pub areas: u64,
    /// The attributes of an alarm that are in force.
    pub attr: Option<Attr>,
    /// The row of an alarm.
    pub row: Option<AlarmRow>,
    /// How many growths of the list were refused.
    pub refused: RefusedGrowths,
}

impl Answer {
    /// An answer with nothing in it yet; it takes no memory.
    pub fn new(alloc: Global) -> Self
        ensures alarm { (result.shown ≡ Normal) × (result.active ≡ false) × (result.flags ≡ 0) ×
            (result.until ≡ None) }
        ensures flood { (result.window ≡ 0) × (result.flood ≡ false) }
        ensures list { result.list.items ≡ [] }
        ensures plant { (result.moment ≡ 0) × (result.alarms ≡ 0) × (result.areas ≡ 0) }
        ensures attr { result.attr ≡ None }
        ensures row { result.row ≡ None }
        ensures refused { result.refused ≡ 0 }
    {
        Answer {
            shown: Shown::Normal,
            active: false,
            flags: 0,
            until: None,
            window: 0,
            flood: false,
            list: Vec::new(alloc),
            moment: 0,
            alarms: 0,
            areas: 0,
            attr: None,
            row: None,
            refused: RefusedGrowths::none(),
        }
    }

    /// Reserves room for a list of `alarms` alarms, and counts a refused growth; all else stays.
    pub fn reserve(&mut self, alarms: usize) -> Result<(), AllocError>
        ensures room { OnOk result (alarms ≤ vec_capacity self.new.list) }
        ensures whole { OnOk result (self.new.refused ≡ self.old.refused) }
        ensures refused { OnErr result (self.new.refused ≡ one_more self.old.refused) }
        ensures missing { OnErr result (vec_capacity self.old.list < alarms) }
        ensures list { self.new.list.items ≡ self.old.list.items }
        ensures alarm { (self.new.shown ≡ self.old.shown) × (self.new.active ≡ self.old.active) ×
            (self.new.flags ≡ self.old.flags) × (self.new.until ≡ self.old.until) }
        ensures flood { (self.new.window ≡ self.old.window) × (self.new.flood ≡ self.old.flood) }
        ensures plant { (self.new.moment ≡ self.old.moment) × (self.new.alarms ≡ self.old.alarms) ×
            (self.new.areas ≡ self.old.areas) }
        ensures attr { self.new.attr ≡ self.old.attr }
        ensures row { self.new.row ≡ self.old.row }
    {
        self.refused.reserve(&mut self.list, alarms)
    }
}
