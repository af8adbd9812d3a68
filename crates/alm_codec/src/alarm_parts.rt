//! The fields of an alarm in an image.

ghost use Rattle.std.specs.Prelude.{◌≡◌, ◌||◌, ◌≤◌, take, IfOk};
ghost use Rattle.alm_state.specs.Rows.{is_annunciated};
ghost use Rattle.alm_codec.specs.Reading.{Gives};
ghost use Rattle.alm_codec.specs.ImageFields.{alarm_field, fixed_in};
ghost use Rattle.alm_codec.specs.Parts.{alarm_in, InLimits};
ghost use Rattle.alm_types.specs.Sizes.{most_areas};

use crate::alarm_flags::{AlarmFlags, flags_of};
use crate::bytes_left::BytesLeft;
use crate::fixed::{Fixed, fixed_of, flag_of};
use crate::state::{core_of, deadline_of, kept_of, moments_of, stamp_of};
use alm_model::Recent;
use alm_state::{Core, Row};
use alm_types::{Attr, Moment};
use std::collections::BTreeSet;

/// The fields of an alarm in an image.
#[derive(Clone, Copy, Debug)]
pub struct AlarmParts {
    pub fixed: Fixed,
    pub active: bool,
    pub core: Core,
    pub flags: AlarmFlags,
    /// When the shelving ends.
    pub deadline: Option<u64>,
    pub stamp: u64,
    /// How many moments are kept.
    pub kept: u8,
    pub moments: [Moment; 3],
}

impl AlarmParts {
    pub fn attr(&self) -> Attr
        requires { InLimits (alarm_in self.now) }
        ensures { fixed_in result ≡ self.now.fixed }
    {
        let fixed = self.fixed;
        fixed.setpoint.value();
        fixed.tag.as_bytes();
        fixed.text.as_bytes();
        Attr {
            kind: fixed.kind,
            setpoint: fixed.setpoint,
            deadband: fixed.deadband,
            priority: fixed.priority,
            area: fixed.area,
            latching: fixed.latching,
            max_shelve: fixed.max_shelve,
            tag: fixed.tag,
            text: fixed.text,
        }
    }

    pub fn row(&self) -> Row
        requires { InLimits (alarm_in self.now) }
        ensures { result ≡ (alarm_in self.now).state }
    {
        Row {
            active: self.active,
            core: self.core,
            shelved_until: self.deadline,
            by_design: self.flags.by_design,
            out_of_service: self.flags.out_of_service,
            stamp: self.stamp,
        }
    }

    pub fn recent(&self) -> Recent
        requires { self.now.kept ≤ 3 }
        ensures { result ≡ take self.now.kept self.now.moments }
    {
        Recent::of(&self.moments[..self.kept as usize])
    }
}

/// Whether an alarm has a stamp.
fn is_stamped(core: Core, flags: AlarmFlags) -> bool
    ensures { result ≡ (is_annunciated core || flags.shelved) }
{
    core.is_annunciated() || flags.shelved
}

/// The fields of an alarm, after others whose stamps were seen.
fn fields_of<'a>(
    bytes: &'a [u8],
    clock: Moment,
    next_stamp: u64,
    areas: u8,
    seen: &BTreeSet<u64>,
) -> Result<(AlarmParts, &'a [u8]), BytesLeft>
    ensures alarm { Gives (λ x. (alarm_in x.0, x.1.now)) result
        ((alarm_field clock next_stamp areas seen.now.keys).read bytes.now) }
    ensures few { IfOk result (λ x. x.0.kept ≤ 3) }
{
    let (fixed, rest) = match fixed_of(bytes, areas) {
        Ok(found) => found,
        Err(left) => return Err(left),
    };
    let (active, rest) = flag_of(rest)?;
    let (core, rest) = core_of(rest, fixed.latching)?;
    let (flags, rest) = flags_of(rest, active, core)?;
    let (kept, rest) = kept_of(rest, core)?;
    let (deadline, rest) = deadline_of(rest, clock, fixed.max_shelve, flags.shelved)?;
    let stamped = is_stamped(core, flags);
    let (stamp, rest) = stamp_of(rest, next_stamp, stamped, seen)?;
    let (moments, rest) = match moments_of(rest, kept, clock) {
        Ok(found) => found,
        Err(left) => return Err(left),
    };
    let parts = AlarmParts {
        fixed,
        active,
        core,
        flags,
        deadline,
        stamp,
        kept,
        moments,
    };
    Ok((parts, rest))
}

/// An alarm, after others whose stamps were seen.
pub fn alarm_of<'a>(
    bytes: &'a [u8],
    clock: Moment,
    next_stamp: u64,
    areas: u8,
    seen: &BTreeSet<u64>,
) -> Result<(AlarmParts, &'a [u8]), BytesLeft>
    requires { areas ≤ most_areas }
    ensures alarm { Gives (λ x. (alarm_in x.0, x.1.now)) result
        ((alarm_field clock next_stamp areas seen.now.keys).read bytes.now) }
    ensures few { IfOk result (λ x. x.0.kept ≤ 3) }
    ensures limits { IfOk result (λ x. InLimits (alarm_in x.0)) }
{
    match fields_of(bytes, clock, next_stamp, areas, seen) {
        Ok(found) => Ok(found),
        Err(left) => Err(left),
    }
}
