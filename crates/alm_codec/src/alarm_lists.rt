//! The alarms of an image, by number.

ghost use Rattle.std.specs.Prelude.{◌≡◌, ◌≤◌, ◌+◌, ◌++◌, ◌∷◌, [], length, IfOk, OnOk};
ghost use Rattle.alm_codec.specs.Reading.{GivesOr};
ghost use Rattle.alm_codec.specs.ImageFields.{alarms_in, alarms_of, seen_then};
ghost use Rattle.alm_codec.specs.Parts.{alarm_in, InLimits};
ghost use Rattle.alm_types.specs.Sizes.{most_areas};

use crate::alarm_parts::{AlarmParts, alarm_of};
use crate::stop::Stop;
use alm_model::Recent;
use alm_state::Row;
use alm_types::{Attr, Moment};
use std::alloc::{AllocError, AllocFailed, Global};
use std::collections::BTreeSet;

/// The attributes, rows and last moments of the alarms, by number.
#[derive(Drop)]
pub struct AlarmLists {
    pub attrs: Vec<Attr>,
    pub rows: Vec<Row>,
    pub moments: Vec<Recent>,
    /// The stamps of the alarms so far.
    seen: BTreeSet<u64>,
}

/// One more stamp is seen, unless it is zero.
fn note(seen: &mut BTreeSet<u64>, stamp: u64) -> Result<(), AllocFailed<u64>>
    ensures { OnOk result (seen.new.keys ≡ seen_then seen.old.keys stamp) }
{
    if stamp != 0 {
        seen.insert(stamp)?;
    }
    Ok(())
}

impl AlarmLists {
    fn new(alloc: Global, rows: u32) -> Result<Self, AllocError>
        ensures attrs { IfOk result (λ lists. lists.attrs.items ≡ []) }
        ensures rows { IfOk result (λ lists. lists.rows.items ≡ []) }
        ensures moments { IfOk result (λ lists. lists.moments.items ≡ []) }
        ensures seen { IfOk result (λ lists. lists.seen.keys ≡ []) }
    {
        Ok(AlarmLists {
            attrs: Vec::with_capacity(alloc, rows as usize)?,
            rows: Vec::with_capacity(alloc, rows as usize)?,
            moments: Vec::with_capacity(alloc, rows as usize)?,
            seen: BTreeSet::new(alloc),
        })
    }

    fn push(&mut self, alarm: &AlarmParts) -> Result<(), AllocError>
        requires limits { InLimits (alarm_in alarm.now) }
        requires few { alarm.now.kept ≤ 3 }
        requires rows { length self.old.rows.items ≡ length self.old.attrs.items }
        requires moments { length self.old.moments.items ≡ length self.old.attrs.items }
        ensures alarms { OnOk result
            (alarms_in self.new.attrs.items self.new.rows.items self.new.moments.items ≡
            alarms_in self.old.attrs.items self.old.rows.items self.old.moments.items ++
            alarm_in alarm.now ∷ []) }
        ensures attrs { OnOk result
            (length self.new.attrs.items ≡ length self.old.attrs.items + 1) }
        ensures rows { OnOk result (length self.new.rows.items ≡ length self.old.rows.items + 1) }
        ensures moments { OnOk result
            (length self.new.moments.items ≡ length self.old.moments.items + 1) }
        ensures seen { OnOk result
            (self.new.seen.keys ≡ seen_then self.old.seen.keys alarm.now.stamp) }
    {
        self.attrs.push(alarm.attr())?;
        self.rows.push(alarm.row())?;
        self.moments.push(alarm.recent())?;
        note(&mut self.seen, alarm.stamp)?;
        Ok(())
    }
}

/// `rows` alarms, no two of them with the same stamp.
pub fn alarms_of(
    alloc: Global,
    bytes: &[u8],
    clock: Moment,
    next_stamp: u64,
    areas: u8,
    rows: u32,
) -> Result<(AlarmLists, &[u8]), Stop>
    requires { areas ≤ most_areas }
    ensures alarms { GivesOr
        (λ x. (alarms_in x.0.attrs.items x.0.rows.items x.0.moments.items, x.1.now)) result
        ((alarms_of clock next_stamp areas rows).read bytes.now) }
    ensures attrs { IfOk result (λ x. length x.0.attrs.items ≡ rows) }
    ensures rows { IfOk result (λ x. length x.0.rows.items ≡ rows) }
    ensures moments { IfOk result (λ x. length x.0.moments.items ≡ rows) }
{
    let mut lists = AlarmLists::new(alloc, rows)?;
    let mut rest = bytes;
    for _ in 0..rows {
        let (found, after) = match alarm_of(rest, clock, next_stamp, areas, &lists.seen) {
            Ok(found) => found,
            Err(left) => return Err(Stop::Field(left)),
        };
        lists.push(&found)?;
        rest = after;
    }
    Ok((lists, rest))
}
