//! Whether two plants show the same.

use alm_model::{Alarms, List};
use alm_types::{AlarmId, Attr};
use std::alloc::{AllocError, Global};

/// Whether a list is the same; also if neither plant has it.
pub fn is_list_same<P: Alarms, Q: Alarms>(
    alloc: Global,
    one: &P,
    other: &Q,
    list: List,
) -> Result<bool, AllocError> {
    if !one.has_list(list) || !other.has_list(list) {
        return Ok(!one.has_list(list) && !other.has_list(list));
    }
    let mut left = Vec::with_capacity(alloc, one.alarms())?;
    one.fill(list, &mut left);
    let mut right = Vec::with_capacity(alloc, other.alarms())?;
    other.fill(list, &mut right);
    Ok(left == right)
}

/// Whether all lists are the same.
fn are_lists_same<P: Alarms, Q: Alarms>(
    alloc: Global,
    one: &P,
    other: &Q,
) -> Result<bool, AllocError> {
    let mut same = is_list_same(alloc, one, other, List::Stale)?
        && is_list_same(alloc, one, other, List::Chatter)?;
    for number in 0..256 {
        same = same
            && is_list_same(alloc, one, other, List::Priority(number))?
            && is_list_same(alloc, one, other, List::Area(number))?
            && is_list_same(alloc, one, other, List::Wheel(number))?;
    }
    Ok(same)
}

/// Whether the window, the flood and the ages of an area are the same.
fn is_area_same<P: Alarms, Q: Alarms>(one: &P, other: &Q, area: u32) -> bool {
    if !one.has_list(List::Area(area)) || !other.has_list(List::Area(area)) {
        return false;
    }
    let mut same = one.window(area) == other.window(area);
    for age in 0..600 {
        same = same && one.age(area, age) == other.age(area, age);
    }
    same
}

/// Whether two alarms have the same attributes.
fn is_attr_same(one: &Attr, other: &Attr) -> bool {
    one.kind == other.kind
        && one.setpoint == other.setpoint
        && one.deadband == other.deadband
        && one.priority == other.priority
        && one.area == other.area
        && one.latching == other.latching
        && one.max_shelve == other.max_shelve
        && one.tag.as_bytes() == other.tag.as_bytes()
        && one.text.as_bytes() == other.text.as_bytes()
}

/// Whether two answers have the same attributes.
fn are_attributes_same(one: Option<Attr>, other: Option<Attr>) -> bool {
    match (one, other) {
        (Some(one), Some(other)) => is_attr_same(&one, &other),
        (None, None) => true,
        _ => false,
    }
}

/// Whether an alarm's row, moments and attributes are the same.
fn is_alarm_same<P: Alarms, Q: Alarms>(one: &P, other: &Q, number: u32) -> bool {
    let id = AlarmId(number);
    one.state(id) == other.state(id)
        && one.moments(id) == other.moments(id)
        && are_attributes_same(one.attr(id), other.attr(id))
}

/// Whether two plants show the same of everything.
pub fn is_same<P: Alarms, Q: Alarms>(
    alloc: Global,
    one: &P,
    other: &Q,
) -> Result<bool, AllocError> {
    let mut same = one.now() == other.now()
        && one.count() == other.count()
        && one.next_stamp() == other.next_stamp()
        && one.alarms() == other.alarms()
        && one.areas() == other.areas();
    for area in 0..64 {
        let is_area = one.has_list(List::Area(area));
        same = same && (!is_area || is_area_same(one, other, area));
    }
    for number in 0..one.alarms() as u32 {
        same = same && is_alarm_same(one, other, number);
    }
    Ok(same && are_lists_same(alloc, one, other)?)
}
