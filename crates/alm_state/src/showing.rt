//! What is shown of an alarm.

ghost use Rattle.std.specs.Prelude.{◌≡◌, ◌<◌};
ghost use Rattle.alm_state.specs.Showing.{shown_core, shown_of, weight, flags_of};

use crate::core_state::Core;
use crate::row::Row;
use alm_types::{Answer, Shown};

/// What is shown of an alarm without a flag.
fn shown_core(core: Core) -> Shown
    ensures { result ≡ shown_core core }
{
    match core {
        Core::Normal => Shown::Normal,
        Core::Unack => Shown::Unack,
        Core::Acked => Shown::Acked,
        Core::RtnUnack => Shown::RtnUnack,
        Core::LatchUnack => Shown::LatchUnack,
        Core::LatchAcked => Shown::LatchAcked,
    }
}

/// The first flag that is set, else the core state.
fn shown_of(row: &Row) -> Shown
    ensures { result ≡ shown_of row.now }
{
    if row.out_of_service {
        return Shown::OutOfService;
    }
    if row.by_design {
        return Shown::ByDesign;
    }
    match row.shelved_until {
        Some(_) => Shown::Shelved,
        None => shown_core(row.core),
    }
}

/// What a flag adds.
fn weight(worth: u8, flag: bool) -> u8
    ensures { result ≡ weight worth flag }
{
    if flag { worth } else { 0 }
}

/// The flags that are set, as a sum of their values.
fn flags_of(row: &Row) -> u8
    ensures { result ≡ flags_of row.now }
{
    weight(1, row.shelved_until.is_some())
        + weight(2, row.by_design)
        + weight(4, row.out_of_service)
}

impl Row {
    /// What is shown: the first flag of out of service, by design and shelved, else the core state.
    pub fn shown(&self) -> Shown
        ensures { result ≡ shown_of self.now }
    {
        shown_of(self)
    }

    /// The flags: 1 shelved, 2 by design, 4 out of service, added.
    pub fn flags(&self) -> u8
        ensures value { result ≡ flags_of self.now }
        ensures limit { result < 8 }
    {
        flags_of(self)
    }

    /// Puts what is reported of the alarm into an answer, whose other fields stay.
    pub fn report(&self, answer: &mut Answer)
        ensures shown { answer.new.shown ≡ shown_of self.now }
        ensures active { answer.new.active ≡ self.now.active }
        ensures flags { answer.new.flags ≡ flags_of self.now }
        ensures until { answer.new.until ≡ self.now.shelved_until }
        ensures flood { (answer.new.window ≡ answer.old.window) ×
            (answer.new.flood ≡ answer.old.flood) }
        ensures list { answer.new.list ≡ answer.old.list }
        ensures plant { (answer.new.moment ≡ answer.old.moment) ×
            (answer.new.alarms ≡ answer.old.alarms) × (answer.new.areas ≡ answer.old.areas) }
        ensures attr { answer.new.attr ≡ answer.old.attr }
        ensures row { answer.new.row ≡ answer.old.row }
        ensures refused { answer.new.refused ≡ answer.old.refused }
    {
        answer.shown = self.shown();
        answer.active = self.active;
        answer.flags = self.flags();
        answer.until = self.shelved_until;
    }
}
