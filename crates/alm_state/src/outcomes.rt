//! What an action makes of an alarm.

ghost use Rattle.std.specs.Prelude.{◌≡◌, ◌<◌, None, false, ◌⊎◌};
ghost use Rattle.alm_state.specs.Rows.{is_suppressed};
ghost use Rattle.alm_state.specs.Table.{next_core};
ghost use Rattle.alm_state.specs.Outcome.{outcome, row_refusal, after_flags, after_condition, after_transition, without_shelving, active_after};

use crate::core_state::Core;
use crate::detection::detect;
use crate::happening::Happening;
use crate::outcome::Outcome;
use crate::row::Row;
use alm_types::{Action, Attr, Moment};

/// The row with other flags.
fn reflagged(
    row: Row,
    shelved_until: Option<u64>,
    by_design: bool,
    out_of_service: bool,
    stamp: u64,
) -> Outcome
    requires stamp { 0 < stamp }
    requires shelved { shelved_until ≡ None ⊎ (shelved_until ≡ row.shelved_until) }
    ensures { result ≡
        after_flags stamp
        (record row
        { shelved_until = shelved_until; by_design = by_design; out_of_service = out_of_service }) }
{
    let shelved = shelved_until.is_some();
    if shelved || by_design || out_of_service {
        Outcome::Changed(Row {
            active: row.active,
            core: Core::Normal,
            shelved_until,
            by_design,
            out_of_service,
            stamp: if shelved { row.stamp } else { 0 },
        })
    } else if row.active {
        Outcome::Annunciated(Row {
            active: true,
            core: Core::Unack,
            shelved_until,
            by_design,
            out_of_service,
            stamp,
        })
    } else {
        Outcome::Changed(Row {
            active: false,
            core: Core::Normal,
            shelved_until,
            by_design,
            out_of_service,
            stamp: 0,
        })
    }
}

/// The row after a transition of the table.
fn led(row: Row, active: bool, happening: Happening, latching: bool, stamp: u64) -> Outcome
    requires stamp { 0 < stamp }
    requires free { is_suppressed row ≡ false }
    requires active { active ≡ active_after happening row.active }
    ensures { result ≡
        after_transition stamp (next_core latching happening row.core) (record row { active = active }) }
{
    match row.core.next(happening, latching) {
        Ok(Core::Unack) => Outcome::Annunciated(Row {
            core: Core::Unack,
            active,
            stamp,
            ..row
        }),
        Ok(core) => Outcome::Changed(Row {
            core,
            active,
            stamp: if core.is_annunciated() { row.stamp } else { 0 },
            ..row
        }),
        Err(_) => Outcome::Changed(Row { active, ..row }),
    }
}

/// The row after its condition came or went.
fn followed(row: Row, attr: &Attr, active: bool, stamp: u64) -> Outcome
    requires stamp { 0 < stamp }
    ensures { result ≡ after_condition stamp attr.now row (Some active) }
{
    if row.is_suppressed() {
        Outcome::Changed(Row { active, ..row })
    } else if active {
        led(row, true, Happening::Comes, attr.latching, stamp)
    } else {
        led(row, false, Happening::Goes, attr.latching, stamp)
    }
}

/// A copy of a row, part by part: a copy of the whole also copies the padding bytes between its parts.
#[inline(always)]
fn copied(row: &Row) -> Row
    ensures { result ≡ row.now }
{
    Row {
        shelved_until: match row.shelved_until {
            Some(until) => Some(until),
            None => None,
        },
        stamp: row.stamp,
        active: row.active,
        core: row.core,
        by_design: row.by_design,
        out_of_service: row.out_of_service,
    }
}

/// What an action at a moment makes of the alarm that it names.
#[inline(always)]
pub fn outcome_of(now: Moment, stamp: u64, action: &Action, attr: &Attr, row: &Row) -> Outcome
    requires stamp { 0 < stamp }
    requires admitted { row_refusal action.now attr.now row.now ≡ None }
    ensures { result ≡ outcome now stamp action.now attr.now row.now }
{
    let row = copied(row);
    let active = row.active;
    let shelved_until = row.shelved_until;
    let by_design = row.by_design;
    let out_of_service = row.out_of_service;
    match *action {
        Action::Clock(_) => Outcome::Changed(row),
        Action::Value(_, reading) => match detect(attr, active, reading) {
            Some(now_active) => followed(row, attr, now_active, stamp),
            None => Outcome::Changed(row),
        },
        Action::Ack(_) => led(row, active, Happening::Ack, attr.latching, stamp),
        Action::Reset(_) => led(row, active, Happening::Reset, attr.latching, stamp),
        Action::Shelve(_, seconds) => Outcome::Shelved(Row {
            core: Core::Normal,
            shelved_until: Some(now.seconds() + u64::from(seconds)),
            stamp,
            ..row
        }),
        Action::Unshelve(_) => { reflagged(row, None, by_design, out_of_service, stamp) }
        Action::Oos(_, on) => { reflagged(row, shelved_until, by_design, on, stamp) }
        Action::Design(_, on) => { reflagged(row, shelved_until, on, out_of_service, stamp) }
        Action::SetPriority(..) | Action::SetSetpoint(..) => Outcome::Changed(row),
    }
}

impl Row {
    /// What the end of its shelving makes of an alarm.
    pub fn unshelved(self, stamp: u64) -> Outcome
        requires { 0 < stamp }
        ensures { result ≡ without_shelving stamp self }
    {
        let by_design = self.by_design;
        let out_of_service = self.out_of_service;
        reflagged(self, None, by_design, out_of_service, stamp)
    }
}
